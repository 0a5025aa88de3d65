//! The graph that has one node for each group of nodes.
ghost use Rattle.std.specs.Prelude.{◌≡◌, ◌<◌, ℕ, map, length, IfOk};
ghost use Rattle.std.specs.List.{All};
ghost use Rattle.bc_flow.specs.Graph.{AreWithin};
ghost use Rattle.bc_flow.specs.Flow.{HaveSize};
ghost use Rattle.bc_groups.specs.Groups.{group_edge, AreGathered};

use bc_flow::{BitTable, Edge};
use std::alloc::{AllocError, Global};

/// Returns for each edge the one between the groups of its nodes, in the same order.
pub fn group_edges(
    alloc: Global,
    edges: &[Edge],
    group_of: &[usize],
) -> Result<Vec<Edge>, AllocError>
    requires { AreWithin edges.now (length group_of.now) }
    ensures { IfOk result (λ condensed. condensed.items ≡ map (group_edge group_of.now) edges.now) }
{
    let mut condensed = Vec::with_capacity(alloc, edges.len())?;
    for edge in edges {
        condensed.push(Edge {
            from: group_of[edge.from],
            to: group_of[edge.to],
        })?;
    }
    Ok(condensed)
}

/// Returns for each group the set of all facts of its nodes.
pub fn gathered(
    alloc: Global,
    rows: &BitTable,
    facts: usize,
    group_of: &[usize],
    groups: usize,
) -> Result<BitTable, AllocError>
    requires facts { HaveSize facts rows.now }
    requires nodes { length group_of.now ≡ length rows.now }
    requires groups { All (λ g. g < groups) group_of.now }
    ensures groups { IfOk result (λ gathered. length gathered ≡ groups) }
    ensures facts { IfOk result (λ gathered. HaveSize facts gathered) }
    ensures gathered { IfOk result (λ gathered. AreGathered (length rows.now) rows.now group_of.now gathered) }
{
    let mut gathered = BitTable::new(alloc, groups, facts)?;
    for node in 0..rows.len() {
        gathered.union_row(group_of[node], &rows.row(node));
    }
    Ok(gathered)
}
