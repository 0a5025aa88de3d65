//! The first shortest chains to one element.
ghost use Rattle.std.specs.Prelude.{◌≡◌, ℕ, ◌+◌, ◌<◌, ◌↔◌, min, true, map, length, slice_index, slice_set, IfOk};
ghost use Rattle.std.specs.List.{All, Contains};
ghost use Rattle.bc_flow.specs.Flow.{holds};
ghost use Rattle.bc_flow.specs.Chains.{AreChains};
ghost use Rattle.bc_flow.specs.Graph.{AreWithin};
ghost use Rattle.bc_points.specs.Regions.{region_of_number};
ghost use Rattle.bc_solve.specs.Ways.{AreStepsSoFar, LeadsBelow, IsOnward, AreEdgesOf, AreWays, way};

use bc_cons::Facts;
use bc_flow::{BitTable, Edge, EdgeChains, levels};
use bc_syntax::Region;
use std::alloc::{AllocError, Global};

/// The first shortest chains from all regions to an element: the length of each, 0 if there is no chain, and the region that comes second
/// in it, if there is one.
pub struct Ways {
    pub element: usize,
    pub lengths: Vec<usize>,
    pub steps: Vec<usize>,
}

impl Drop for Ways {
    fn drop(self) {
        let Self {
            element: _,
            lengths: _,
            steps: _,
        } = self;
    }
}

/// Returns the ways to an element.
pub(crate) fn ways_to(
    alloc: Global,
    facts: &Facts,
    edges: &[Edge],
    chains: &EdgeChains,
    element: usize,
) -> Result<Ways, AllocError>
    requires edges { AreEdgesOf facts.now.pairs edges.now }
    requires within { AreWithin edges.now (length facts.now.starts) }
    requires chains { AreChains 0 (length facts.now.starts) edges.now chains.now.first.items chains.now.next.items }
    ensures element { IfOk result (λ ways. ways.element ≡ element) }
    ensures ways { IfOk result (λ ways. AreWays facts.now element ways.lengths.items ways.steps.items) }
{
    let sources = sources(alloc, facts.starts(), element)?;
    let lengths = levels(alloc, facts.regions(), edges, chains, &sources)?;
    let steps = steps(alloc, edges, chains, &lengths)?;
    Ok(Ways {
        element,
        lengths,
        steps,
    })
}

/// Returns the regions that start with an element.
fn sources(alloc: Global, starts: &BitTable, element: usize) -> Result<Vec<usize>, AllocError>
    ensures { IfOk result (λ found. (r : ℕ) → Contains found.items r ↔ (holds starts.now r element ≡ true)) }
{
    let mut found = Vec::new(alloc);
    for region in 0..starts.len() {
        if starts.holds(region, element) {
            found.push(region)?;
        }
    }
    Ok(found)
}

/// Returns for each region with a chain of several regions the least one that continues a shortest chain, given the lengths of all.
fn steps(
    alloc: Global,
    edges: &[Edge],
    chains: &EdgeChains,
    lengths: &[usize],
) -> Result<Vec<usize>, AllocError>
    requires edges { AreWithin edges.now (length lengths.now) }
    requires chains { AreChains 0 (length lengths.now) edges.now chains.now.first.items chains.now.next.items }
    ensures { IfOk result (λ steps. AreStepsSoFar (LeadsBelow edges.now (length lengths.now)) lengths.now steps.items) }
{
    let none = lengths.len();
    let mut steps = vec![in alloc; none; none]?;
    find_steps(&mut steps, edges, chains, lengths);
    Ok(steps)
}

/// Sets the step of each region, where none is set.
fn find_steps(steps: &mut [usize], edges: &[Edge], chains: &EdgeChains, lengths: &[usize])
    requires count { length steps.old ≡ length lengths.now }
    requires none { (a : ℕ) → a < length lengths.now → slice_index steps.old a ≡ length lengths.now }
    requires edges { AreWithin edges.now (length lengths.now) }
    requires chains { AreChains 0 (length lengths.now) edges.now chains.now.first.items chains.now.next.items }
    ensures { AreStepsSoFar (LeadsBelow edges.now (length lengths.now)) lengths.now steps.new }
{
    for shorter in 0..lengths.len() {
        find_steps_to(steps, edges, chains, lengths, shorter);
    }
}

/// Sets the steps of regions whose shortest chains continue with a region, after the steps to all lesser ones.
fn find_steps_to(
    steps: &mut [usize],
    edges: &[Edge],
    chains: &EdgeChains,
    lengths: &[usize],
    shorter: usize,
)
    requires shorter { shorter < length lengths.now }
    requires edges { AreWithin edges.now (length lengths.now) }
    requires chains { AreChains 0 (length lengths.now) edges.now chains.now.first.items chains.now.next.items }
    requires before { AreStepsSoFar (LeadsBelow edges.now shorter) lengths.now steps.old }
    ensures { AreStepsSoFar (LeadsBelow edges.now (shorter + 1)) lengths.now steps.new }
{
    if lengths[shorter] == 0 {
        return;
    }
    let mut at = chains.first[shorter];
    while at < edges.len() {
        offer_step(steps, lengths, edges[at].to, shorter);
        at = chains.next[at];
    }
}

/// Makes `shorter` the step of `longer`, if a shortest chain continues so and the step was greater.
fn offer_step(steps: &mut [usize], lengths: &[usize], longer: usize, shorter: usize)
    requires count { length steps.old ≡ length lengths.now }
    requires longer { longer < length lengths.now }
    requires shorter { shorter < length lengths.now }
    ensures taken { IsOnward lengths.now longer shorter → steps.new ≡ slice_set steps.old longer (min (slice_index steps.old longer) shorter) }
    ensures kept { ¬ (IsOnward lengths.now longer shorter) → steps.new ≡ steps.old }
{
    if lengths[longer] > 1 && lengths[longer] - 1 == lengths[shorter] {
        steps[longer] = steps[longer].min(shorter);
    }
}

/// Returns the chain of a region, given the lengths and the steps of all chains.
pub(crate) fn walk(
    alloc: Global,
    facts: &Facts,
    lengths: &[usize],
    steps: &[usize],
    region: usize,
) -> Result<Vec<Region>, AllocError>
    requires regions { length lengths.now ≡ length facts.now.starts }
    requires region { region < length lengths.now }
    requires count { length steps.now ≡ length lengths.now }
    requires steps { (a : ℕ) → 1 < slice_index lengths.now a → slice_index lengths.now (slice_index steps.now a) + 1 ≡ slice_index lengths.now a }
    ensures { IfOk result (λ chain. chain.items ≡ map (region_of_number facts.now.universals) (way steps.now (slice_index lengths.now region) region)) }
{
    let mut left = lengths[region];
    let mut chain = Vec::with_capacity(alloc, left)?;
    let mut here = region;
    while left > 0 {
        chain.push(facts.region(here))?;
        here = steps[here];
        left -= 1;
    }
    Ok(chain)
}
