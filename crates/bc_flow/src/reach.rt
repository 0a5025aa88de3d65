//! One fact, handed on from node to node.
ghost use Rattle.std.specs.Prelude.{◌≡◌, ◌<◌, [], ◌∷◌, length, OnOk};
ghost use Rattle.std.specs.List.{All};
ghost use Rattle.bc_flow.specs.BitSet.{has};
ghost use Rattle.bc_flow.specs.Graph.{AreWithin};
ghost use Rattle.bc_flow.specs.Chains.{AreChains};
ghost use Rattle.bc_flow.specs.Flow.{row, HaveSize};
ghost use Rattle.bc_flow.specs.Reach.{Spreads};

use crate::adjacency::EdgeChains;
use crate::bit_table::{BitRow, BitTable};
use crate::graph::Edge;
use crate::tables::Entry;
use std::alloc::AllocError;

/// Adds the fact of `from` to the set of each node of `allowed` to which an edge leads from the node of `from`. Nodes that did not have it are appended to
/// `pending`.
pub fn spread(
    rows: &mut BitTable,
    pending: &mut Vec<usize>,
    from: Entry,
    edges: &[Edge],
    chains: &EdgeChains,
    allowed: &BitRow<'_>,
) -> Result<(), AllocError>
    requires node { from.node < length rows.old }
    requires fact { from.fact < length (row rows.old from.node) }
    requires edges { AreWithin edges.now (length rows.old) }
    requires chains { AreChains 0 (length rows.old) edges.now chains.now.first.items chains.now.next.items }
    requires rows { HaveSize (length (row rows.old from.node)) rows.old }
    requires pending { All (λ n. n < length rows.old) pending.old.items }
    ensures nodes { OnOk result (length rows.new ≡ length rows.old) }
    ensures rows { OnOk result (HaveSize (length (row rows.old from.node)) rows.new) }
    ensures pending { OnOk result (All (λ n. n < length rows.old) pending.new.items) }
    ensures spreads { OnOk result (Spreads edges.now from.node from.fact (has allowed.now) rows.old rows.new pending.old.items pending.new.items) }
{
    let mut at = chains.first[from.node];
    while at < edges.len() {
        enter(rows, pending, from.fact, edges[at], allowed)?;
        at = chains.next[at];
    }
    Ok(())
}

/// Hands a fact on along one edge.
fn enter(
    rows: &mut BitTable,
    pending: &mut Vec<usize>,
    fact: usize,
    edge: Edge,
    allowed: &BitRow<'_>,
) -> Result<(), AllocError>
    requires to { edge.to < length rows.old }
    requires fact { fact < length (row rows.old edge.to) }
    requires rows { HaveSize (length (row rows.old edge.to)) rows.old }
    requires pending { All (λ n. n < length rows.old) pending.old.items }
    ensures nodes { OnOk result (length rows.new ≡ length rows.old) }
    ensures rows { OnOk result (HaveSize (length (row rows.old edge.to)) rows.new) }
    ensures pending { OnOk result (All (λ n. n < length rows.old) pending.new.items) }
    ensures spreads { OnOk result (Spreads (edge ∷ []) edge.from fact (has allowed.now) rows.old rows.new pending.old.items pending.new.items) }
{
    if allowed.has(edge.to) && !rows.holds(edge.to, fact) {
        let _added = rows.insert(edge.to, fact);
        pending.push(edge.to)?;
    }
    Ok(())
}
