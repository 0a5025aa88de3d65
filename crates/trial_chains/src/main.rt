//! Explains each element of each region in 2,000 small random graphs, and finds each chain once more by a plain search. It prints the
//! numbers of questions and chains, and how many answers differ, so that the gate compares them.
#![tactic(auto)]

mod graphs;
mod plain;

use crate::graphs::{UNIVERSALS, facts};
use crate::plain::first_shortest;
use bc_cons::Facts;
use bc_solve::Explainer;
use bc_syntax::Region;
use rand_pcg::Pcg32;
use std::alloc::{AllocError, Global};

const GRAPHS: u32 = 2000;

/// The numbers of answers, of chains among them, of regions in these, and of answers that the plain search did not find.
#[derive(Clone, Copy)]
struct Counts {
    answers: usize,
    chains: usize,
    regions: usize,
    other: usize,
}

/// Returns whether a region has this number.
fn is_numbered(region: Region, number: usize) -> bool {
    match region {
        Region::Universal(universal) => universal < UNIVERSALS && usize::from(universal) == number,
        Region::Variable(variable) => { usize::from(variable) + usize::from(UNIVERSALS) == number }
    }
}

/// Returns whether two chains are the same; the second one has numbers, from its end.
fn is_same(chain: &[Region], numbers: &[usize]) -> bool {
    let mut same = chain.len() == numbers.len();
    for (region, number) in chain.iter().zip(numbers.iter().rev()) {
        same &= is_numbered(*region, *number);
    }
    same
}

fn count(counts: &mut Counts, found: &Option<Vec<Region>>, numbers: &[usize]) {
    counts.answers = counts.answers.wrapping_add(1);
    let same = match found {
        Some(chain) => {
            counts.chains = counts.chains.wrapping_add(1);
            counts.regions = counts.regions.wrapping_add(chain.len());
            is_same(chain, numbers)
        }
        None => numbers.is_empty(),
    };
    if !same {
        counts.other = counts.other.wrapping_add(1);
    }
}

/// Asks for all regions and elements, and for one number past each.
fn ask(alloc: Global, facts: &Facts, counts: &mut Counts) -> Result<(), AllocError> {
    let mut explainer = Explainer::new(alloc, facts)?;
    for question in 0..32usize {
        let numbers = first_shortest(alloc, facts, question % 8, question / 8)?;
        let found = explainer.explain(alloc, question % 8, question / 8)?;
        count(counts, &found, &numbers);
    }
    Ok(())
}

fn main(rt: HostRuntime) -> anyhow::Result<()> {
    let mut random = Pcg32::new(2094, 0);
    let mut counts = Counts {
        answers: 0,
        chains: 0,
        regions: 0,
        other: 0,
    };
    for _ in 0..GRAPHS {
        let facts = facts(rt.alloc(), &mut random)?;
        ask(rt.alloc(), &facts, &mut counts)?;
    }
    println!(rt;
        "{} answers, {} chains of {} regions, {} that differ",
        counts.answers, counts.chains, counts.regions, counts.other
    )?;
    Ok(())
}
