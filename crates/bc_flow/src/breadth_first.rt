//! The levels of a breadth-first search: how far each node is from the nearest source.
ghost use Rattle.std.specs.Prelude.{◌≡◌, ℕ, ◌<◌, [], length, slice_index, IfOk, OnOk};
ghost use Rattle.std.specs.List.{All, Contains};
ghost use Rattle.bc_flow.specs.Graph.{HasEdge, AreWithin};
ghost use Rattle.bc_flow.specs.Chains.{AreChains};
ghost use Rattle.bc_flow.specs.Levels.{GivesLevel, IsSuccessor, AreLevels};

use crate::adjacency::EdgeChains;
use crate::graph::Edge;
use std::alloc::{AllocError, Global};
use std::mem;

/// Returns the level of each node: the number of nodes on a shortest path to it from a source, or 0 if there is no path. A source has level
/// 1. The time is proportional to the nodes and the edges that leave reached nodes.
pub fn levels(
    alloc: Global,
    nodes: usize,
    edges: &[Edge],
    chains: &EdgeChains,
    sources: &[usize],
) -> Result<Vec<usize>, AllocError>
    requires sources { All (λ n. n < nodes) sources.now }
    requires edges { AreWithin edges.now nodes }
    requires chains { AreChains 0 nodes edges.now chains.now.first.items chains.now.next.items }
    ensures count { IfOk result (λ levels. length levels.items ≡ nodes) }
    ensures levels { IfOk result (λ levels. AreLevels edges.now sources.now levels.items) }
{
    let mut levels = vec![in alloc; 0; nodes]?;
    fill_levels(alloc, &mut levels, edges, chains, sources)?;
    Ok(levels)
}

/// Finds the level of each node. At the start all levels are 0.
fn fill_levels(
    alloc: Global,
    levels: &mut [usize],
    edges: &[Edge],
    chains: &EdgeChains,
    sources: &[usize],
) -> Result<(), AllocError>
    requires none { (n : ℕ) → slice_index levels.old n ≡ 0 }
    requires sources { All (λ n. n < length levels.old) sources.now }
    requires edges { AreWithin edges.now (length levels.old) }
    requires chains { AreChains 0 (length levels.old) edges.now chains.now.first.items chains.now.next.items }
    ensures { OnOk result (AreLevels edges.now sources.now levels.new) }
{
    let mut front = first_level(alloc, levels, sources)?;
    let mut found = Vec::new(alloc);
    let mut level = 1;
    'levels: while !front.is_empty() {
        level += 1;
        next_level(levels, &front, &mut found, level, edges, chains)?;
        mem::swap(&mut front, &mut found);
    }
    Ok(())
}

/// Gives the unreached sources level 1, and returns them, each once.
fn first_level(
    alloc: Global,
    levels: &mut [usize],
    sources: &[usize],
) -> Result<Vec<usize>, AllocError>
    requires { All (λ n. n < length levels.old) sources.now }
    ensures { IfOk result (λ found. GivesLevel (Contains sources.now) 1 levels.old levels.new [] found.items) }
{
    let mut found = Vec::new(alloc);
    for &node in sources {
        reach(levels, &mut found, node, 1)?;
    }
    Ok(found)
}

/// Gives this level to the unreached nodes to which edges lead from the front, and lists exactly these in `found`.
fn next_level(
    levels: &mut [usize],
    front: &[usize],
    found: &mut Vec<usize>,
    level: usize,
    edges: &[Edge],
    chains: &EdgeChains,
) -> Result<(), AllocError>
    requires front { All (λ n. n < length levels.old) front.now }
    requires level { 0 < level }
    requires edges { AreWithin edges.now (length levels.old) }
    requires chains { AreChains 0 (length levels.old) edges.now chains.now.first.items chains.now.next.items }
    ensures { OnOk result (GivesLevel (IsSuccessor edges.now front.now) level levels.old levels.new [] found.new.items) }
{
    found.clear();
    for &node in front {
        visit(levels, found, node, level, edges, chains)?;
    }
    Ok(())
}

/// Gives this level to the unreached nodes to which edges lead from `node`, and appends them to `found`.
fn visit(
    levels: &mut [usize],
    found: &mut Vec<usize>,
    node: usize,
    level: usize,
    edges: &[Edge],
    chains: &EdgeChains,
) -> Result<(), AllocError>
    requires node { node < length levels.old }
    requires level { 0 < level }
    requires edges { AreWithin edges.now (length levels.old) }
    requires chains { AreChains 0 (length levels.old) edges.now chains.now.first.items chains.now.next.items }
    ensures { OnOk result (GivesLevel (HasEdge edges.now node) level levels.old levels.new found.old.items found.new.items) }
{
    let mut at = chains.first[node];
    while at < edges.len() {
        reach(levels, found, edges[at].to, level)?;
        at = chains.next[at];
    }
    Ok(())
}

/// Gives a node this level and appends it to `found`, unless it was reached before.
fn reach(
    levels: &mut [usize],
    found: &mut Vec<usize>,
    node: usize,
    level: usize,
) -> Result<(), AllocError>
    requires node { node < length levels.old }
    requires level { 0 < level }
    ensures { OnOk result (GivesLevel (λ n. n ≡ node) level levels.old levels.new found.old.items found.new.items) }
{
    if levels[node] == 0 {
        found.push(node)?;
        levels[node] = level;
    }
    Ok(())
}
