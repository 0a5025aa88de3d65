//! The first shortest chain, by a plain search through all chains: shorter ones first, and those of one length in order.
use bc_cons::Facts;
use std::alloc::{AllocError, Global};

/// Returns whether a constraint has a region outlive another.
fn outlives(facts: &Facts, longer: usize, shorter: usize) -> bool {
    for pair in facts.pairs() {
        if pair.longer == longer && pair.shorter == shorter {
            return true;
        }
    }
    false
}

/// Appends the first chain with this many constraints, its last region first, if there is one. Returns whether there is.
fn push_chain(
    facts: &Facts,
    region: usize,
    element: usize,
    constraints: u32,
    chain: &mut Vec<usize>,
) -> Result<bool, AllocError> {
    if constraints == 0 {
        let starts = facts.starts().holds(region, element);
        if starts {
            chain.push(region)?;
        }
        return Ok(starts);
    }
    for next in 0..facts.regions() {
        if outlives(facts, region, next) {
            let goes_on = push_chain(facts, next, element, constraints - 1, chain)?;
            if goes_on {
                chain.push(region)?;
                return Ok(true);
            }
        }
    }
    Ok(false)
}

/// Returns the first of the shortest chains, its last region first, or nothing if there is none. No shortest chain has a region twice.
pub fn first_shortest(
    alloc: Global,
    facts: &Facts,
    region: usize,
    element: usize,
) -> Result<Vec<usize>, AllocError> {
    let mut chain = Vec::new(alloc);
    for constraints in 0..7u32 {
        let found = push_chain(facts, region, element, constraints, &mut chain)?;
        if found {
            return Ok(chain);
        }
    }
    Ok(chain)
}
