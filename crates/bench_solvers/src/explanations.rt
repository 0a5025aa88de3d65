//! Chains that explain elements in the values of regions, 4,000 times.
use crate::times::{Step, Times};
use bc_cons::Facts;
use bc_solve::{Explainer, explain};
use std::alloc::{AllocError, Global};

/// The number of elements that are explained.
const QUESTIONS: u32 = 4000;

/// The number of times that each way of asking is measured.
const TURNS: u32 = 3;

/// Returns the region and the element of a question, with `in_a_row` questions after one another about one element.
fn question(turn: u32, in_a_row: u32) -> (usize, usize) {
    let region = turn.wrapping_mul(389) % 1040;
    let element = (turn / in_a_row.max(1)).wrapping_mul(617) % 4112;
    (region as usize, element as usize)
}

/// Returns the number of regions in the chains that one explainer finds.
fn by_explainer(alloc: Global, facts: &Facts, in_a_row: u32) -> Result<u64, AllocError> {
    let mut explainer = Explainer::new(alloc, facts)?;
    let mut regions = 0u64;
    for turn in 0..QUESTIONS {
        let (region, element) = question(turn, in_a_row);
        if let Some(chain) = explainer.explain(alloc, region, element)? {
            regions = regions.wrapping_add(chain.len() as u64);
        }
    }
    Ok(regions)
}

/// Returns the number of regions in the chains that are found from the facts alone, without an explainer.
fn alone(alloc: Global, facts: &Facts) -> Result<u64, AllocError> {
    let mut regions = 0u64;
    for turn in 0..QUESTIONS {
        let (region, element) = question(turn, 8);
        if let Some(chain) = explain(alloc, facts, region, element)? {
            regions = regions.wrapping_add(chain.len() as u64);
        }
    }
    Ok(regions)
}

/// Explains elements in each way, many times. Returns the number of regions in the chains that were found without an explainer.
pub fn measure_explanations(
    rt: &HostRuntime,
    facts: &Facts,
    times: &mut Times,
) -> Result<u64, AllocError> {
    let mut regions = 0;
    for _ in 0..TURNS {
        times.begin(rt);
        by_explainer(rt.alloc(), facts, 8)?;
        times.end(rt, Step::ExplainingInARow);
        by_explainer(rt.alloc(), facts, 1)?;
        times.end(rt, Step::Explaining);
        regions = alone(rt.alloc(), facts)?;
        times.end(rt, Step::ExplainingAlone);
    }
    Ok(regions)
}
