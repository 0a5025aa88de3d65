//! Random constraints between a few regions.
ghost use Rattle.std.specs.Prelude.{IfOk, ◌<◌};
ghost use Rattle.bc_flow.specs.Flow.{AreEntriesWithin};
ghost use Rattle.bc_cons.specs.Facts.{ArePairsWithin};

use bc_cons::{Facts, NumberedConstraint};
use bc_flow::{Entry, table};
use rand_core::Rng;
use rand_pcg::Pcg32;
use std::alloc::{AllocError, Global};

/// The number of universal regions.
pub const UNIVERSALS: u8 = 3;

const REGIONS: u32 = 7;

const ELEMENTS: u32 = 3;

fn pair(random: &mut Pcg32) -> NumberedConstraint
    ensures longer { result.longer < 7 }
    ensures shorter { result.shorter < 7 }
{
    NumberedConstraint {
        longer: (random.next_u32() % REGIONS) as usize,
        shorter: (random.next_u32() % REGIONS) as usize,
    }
}

/// Returns up to eighteen constraints, perhaps of a region with itself, perhaps some twice.
fn pairs(alloc: Global, random: &mut Pcg32) -> Result<Vec<NumberedConstraint>, AllocError>
    ensures { IfOk result (λ pairs. ArePairsWithin 7 pairs.items) }
{
    let mut pairs = Vec::new(alloc);
    for _turn in 0..random.next_u32() % 19 {
        pairs.push(pair(random))?;
    }
    Ok(pairs)
}

fn entry(random: &mut Pcg32) -> Entry
    ensures node { result.node < 7 }
    ensures fact { result.fact < 3 }
{
    Entry {
        node: (random.next_u32() % REGIONS) as usize,
        fact: (random.next_u32() % ELEMENTS) as usize,
    }
}

/// Returns up to four start elements of regions.
fn entries(alloc: Global, random: &mut Pcg32) -> Result<Vec<Entry>, AllocError>
    ensures { IfOk result (λ entries. AreEntriesWithin entries.items 7 3) }
{
    let mut entries = Vec::new(alloc);
    for _turn in 0..random.next_u32() % 5 {
        entries.push(entry(random))?;
    }
    Ok(entries)
}

/// Returns constraints between seven regions, and their start elements out of three.
pub fn facts(alloc: Global, random: &mut Pcg32) -> Result<Facts, AllocError> {
    let pairs = pairs(alloc, random)?;
    let entries = entries(alloc, random)?;
    let starts = table(alloc, 7, 3, &entries)?;
    Ok(Facts::new(UNIVERSALS, starts, pairs, 3))
}
