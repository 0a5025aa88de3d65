//! Groups of the nodes of a graph.
use bc_flow::{Edge, Entry, table};
use bc_groups::{gathered, group_edges, strong_components};
use std::test::Fail;

#[test]
fn nodes_in_a_ring_are_one_group(rt: HostRuntime) -> Result<(), Fail> {
    let edges = [
        Edge { from: 0, to: 1 },
        Edge { from: 1, to: 2 },
        Edge { from: 2, to: 0 },
        Edge { from: 3, to: 1 },
        Edge { from: 2, to: 4 },
    ];
    let found = strong_components(rt.alloc(), 5, &edges)?;
    assert_eq!(rt; found.groups, 3);
    let group = found.group_of[0];
    assert_eq!(rt; found.group_of[1], group);
    assert_eq!(rt; found.group_of[2], group);
    assert!(rt; found.group_of[3] < group && group < found.group_of[4]);
    Ok(())
}

#[test]
fn groups_have_the_edges_and_facts_of_their_nodes(rt: HostRuntime) -> Result<(), Fail> {
    let alloc = rt.alloc();
    let edges = [Edge { from: 0, to: 1 }, Edge { from: 1, to: 2 }];
    let condensed = group_edges(alloc, &edges, &[1, 1, 0])?;
    assert_eq!(rt; condensed.len(), 2);
    assert_eq!(rt; (condensed[0].from, condensed[0].to), (1, 1));
    assert_eq!(rt; (condensed[1].from, condensed[1].to), (1, 0));
    let rows = table(
        alloc,
        3,
        3,
        &[Entry { node: 0, fact: 0 }, Entry { node: 1, fact: 2 }],
    )?;
    let joined = gathered(alloc, &rows, 3, &[1, 1, 0], 2)?;
    assert!(rt; joined.holds(1, 0) && joined.holds(1, 2));
    assert!(rt; !joined.holds(1, 1) && !joined.holds(0, 0));
    Ok(())
}
