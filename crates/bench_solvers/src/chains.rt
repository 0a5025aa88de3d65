//! Constraints between as many regions as a body can have, solved alone: chains, a ring and random pairs.
ghost use Rattle.std.specs.Prelude.{IfOk, ◌<◌};
ghost use Rattle.bc_flow.specs.Flow.{AreEntriesWithin};
ghost use Rattle.bc_cons.specs.Facts.{ArePairsWithin};

use crate::explanations::measure_explanations;
use crate::times::{Step, Times};
use bc_cons::{Facts, NumberedConstraint};
use bc_flow::{Entry, table};
use bc_solve::{Values, solve_components, solve_plain};
use rand_core::Rng;
use rand_pcg::Pcg32;
use std::alloc::{AllocError, Global};

const REGIONS: u32 = 1040;

const ELEMENTS: u32 = 4112;

/// The number of times that each list is solved.
const TURNS: u32 = 10;

/// Which regions outlive which.
#[derive(Clone, Copy)]
enum Shape {
    /// Each region outlives the one before it.
    Chain,
    /// Each region outlives the one after it.
    ChainBack,
    /// Random pairs of regions.
    Random,
}

/// The lists of constraints: their names, their numbers of constraints, and their shapes. A chain through all regions and back to the first
/// is a ring.
const LISTS: [(&str, u32, Shape); 4] = [
    ("chain", 1039, Shape::Chain),
    ("chain back", 1039, Shape::ChainBack),
    ("ring", 1040, Shape::Chain),
    ("random pairs", 8000, Shape::Random),
];

fn pair_of(shape: Shape, turn: u32, random: &mut Pcg32) -> NumberedConstraint
    ensures longer { result.longer < 1040 }
    ensures shorter { result.shorter < 1040 }
{
    let region = turn % REGIONS;
    let next = (region + 1) % REGIONS;
    let (longer, shorter) = match shape {
        Shape::Chain => (next, region),
        Shape::ChainBack => (region, next),
        Shape::Random => (random.next_u32() % REGIONS, random.next_u32() % REGIONS),
    };
    NumberedConstraint {
        longer: longer as usize,
        shorter: shorter as usize,
    }
}

fn pairs_of(alloc: Global, shape: Shape, count: u32) -> Result<Vec<NumberedConstraint>, AllocError>
    ensures { IfOk result (λ pairs. ArePairsWithin 1040 pairs.items) }
{
    let mut random = Pcg32::new(2094, 0);
    let mut pairs = Vec::new(alloc);
    for turn in 0..count {
        pairs.push(pair_of(shape, turn, &mut random))?;
    }
    Ok(pairs)
}

fn start_of(turn: u32, random: &mut Pcg32) -> Entry
    ensures node { result.node < 1040 }
    ensures fact { result.fact < 4112 }
{
    Entry {
        node: (turn % REGIONS) as usize,
        fact: (random.next_u32() % ELEMENTS) as usize,
    }
}

/// Returns up to three start elements for each region.
fn starts(alloc: Global) -> Result<Vec<Entry>, AllocError>
    ensures { IfOk result (λ entries. AreEntriesWithin entries.items 1040 4112) }
{
    let mut random = Pcg32::new(2094, 0);
    let mut entries = Vec::new(alloc);
    for turn in 0..3120u32 {
        entries.push(start_of(turn, &mut random))?;
    }
    Ok(entries)
}

/// Returns `count` constraints of a shape, between regions with up to three start elements each.
fn facts_of(alloc: Global, shape: Shape, count: u32) -> Result<Facts, AllocError> {
    let pairs = pairs_of(alloc, shape, count)?;
    let entries = starts(alloc)?;
    let rows = table(alloc, 1040, 4112, &entries)?;
    Ok(Facts::new(16, rows, pairs, 4112))
}

/// Returns the number of elements in the values of all regions.
fn count(values: &Values) -> u64 {
    let mut members = 0u64;
    for place in 0..REGIONS * ELEMENTS {
        let (region, element) = (place / ELEMENTS, place % ELEMENTS);
        if values.contains(region as usize, element as usize) {
            members = members.saturating_add(1);
        }
    }
    members
}

/// Solves constraints by groups of regions, and then by their list. Returns the number of elements in the values by the list.
fn solved(rt: &HostRuntime, facts: &Facts, times: &mut Times) -> Result<u64, AllocError> {
    times.begin(rt);
    let by_groups = solve_components(rt.alloc(), facts)?;
    times.end(rt, Step::SolvingByGroups);
    drop(by_groups);
    times.begin(rt);
    let values = solve_plain(rt.alloc(), facts)?;
    times.end(rt, Step::Solving);
    Ok(count(&values))
}

/// Solves a list of constraints many times, and explains elements. Writes the numbers of elements in the values and of regions in the
/// chains to standard output, and the least times to standard error.
fn measure_list(rt: &HostRuntime, name: &str, pairs: u32, shape: Shape) -> anyhow::Result<()> {
    let facts = facts_of(rt.alloc(), shape, pairs)?;
    let mut times = Times::new();
    let mut members = 0;
    for _ in 0..TURNS {
        members = solved(rt, &facts, &mut times)?;
    }
    let regions = measure_explanations(rt, &facts, &mut times)?;
    println!(rt; "{name}: {members} elements in values, {regions} regions in chains")?;
    times.show(rt, name)?;
    Ok(())
}

/// Solves four lists of constraints between regions with up to three start elements each, and explains elements. Writes the numbers of
/// elements in the values and of regions in the chains to standard output, and the least times to standard error.
pub fn measure_constraints(rt: &HostRuntime) -> anyhow::Result<()> {
    for (name, pairs, shape) in LISTS {
        measure_list(rt, name, pairs, shape)?;
    }
    Ok(())
}
