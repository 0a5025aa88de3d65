//! The chains that explain why elements are in the values of regions.
ghost use Rattle.std.specs.Prelude.{IfOk};
ghost use Rattle.bc_flow.specs.Flow.{AreEntriesWithin};
ghost use Rattle.bc_cons.specs.Facts.{ArePairsWithin};

use bc_cons::{Facts, NumberedConstraint};
use bc_flow::{Entry, table};
use bc_solve::{Explainer, explain};
use bc_syntax::Region;
use bc_syntax::Region::{Universal, Variable};
use std::alloc::{AllocError, Global};
use std::test::Fail;

/// Returns constraints, each between two of eight regions.
fn pairs_of(alloc: Global, pairs: &[[usize; 2]]) -> Result<Vec<NumberedConstraint>, AllocError>
    ensures { IfOk result (λ found. ArePairsWithin 8 found.items) }
{
    let mut found = Vec::new(alloc);
    for pair in pairs {
        found.push(NumberedConstraint {
            longer: pair[0] % 8,
            shorter: pair[1] % 8,
        })?;
    }
    Ok(found)
}

/// Returns eight regions with these constraints, the first three universal, and their start elements out of four.
fn facts_of(alloc: Global, pairs: &[[usize; 2]], starts: &[Entry]) -> Result<Facts, AllocError>
    requires { AreEntriesWithin starts.now 8 4 }
{
    let pairs = pairs_of(alloc, pairs)?;
    let starts = table(alloc, 8, 4, starts)?;
    Ok(Facts::new(3, starts, pairs, 4))
}

/// A region, an element, and the chain that explains it: empty if there is none.
type Case<'a> = (usize, usize, &'a [Region]);

fn is(found: &Option<Vec<Region>>, chain: &[Region]) -> bool {
    match found {
        Some(found) => found.as_slice() == chain,
        None => chain.is_empty(),
    }
}

/// Returns the chain of a region, by `Explainer::chain`, if there is one.
fn chain_of(
    alloc: Global,
    facts: &Facts,
    region: usize,
    element: usize,
) -> Result<Option<Vec<Region>>, AllocError> {
    let mut explainer = Explainer::new(alloc, facts)?;
    if explainer.explain(alloc, region, element)?.is_none() {
        return Ok(None);
    }
    let chain = explainer.chain(alloc, region, element)?;
    Ok(Some(chain))
}

#[test]
fn the_first_of_the_shortest_chains_explains(rt: HostRuntime) -> Result<(), Fail> {
    let pairs = [
        [3, 5],
        [5, 6],
        [3, 4],
        [4, 6],
        [4, 6],
        [3, 1],
        [3, 1],
        [1, 6],
        [3, 7],
        [7, 0],
        [0, 2],
    ];
    let starts = [
        Entry { node: 6, fact: 0 },
        Entry { node: 2, fact: 0 },
        Entry { node: 5, fact: 1 },
        Entry { node: 4, fact: 1 },
    ];
    let cases: [Case<'_>; 5] = [
        (3, 0, &[Variable(0), Universal(1), Variable(3)]),
        (7, 0, &[Variable(4), Universal(0), Universal(2)]),
        (3, 1, &[Variable(0), Variable(1)]),
        (4, 1, &[Variable(1)]),
        (0, 1, &[]),
    ];
    let facts = facts_of(rt.alloc(), &pairs, &starts)?;
    for &(region, element, chain) in &cases {
        assert!(rt; is(&chain_of(rt.alloc(), &facts, region, element)?, chain));
    }
    Ok(())
}

#[test]
fn a_ring_is_gone_round_once(rt: HostRuntime) -> Result<(), Fail> {
    let starts = [Entry { node: 5, fact: 3 }];
    let cases: [Case<'_>; 5] = [
        (0, 3, &[Universal(0), Universal(1), Variable(2)]),
        (5, 3, &[Variable(2)]),
        (2, 3, &[]),
        (8, 3, &[]),
        (0, 4, &[]),
    ];
    let facts = facts_of(rt.alloc(), &[[0, 1], [1, 5], [5, 0]], &starts)?;
    for &(region, element, chain) in &cases {
        assert!(rt; is(&explain(rt.alloc(), &facts, region, element)?, chain));
    }
    Ok(())
}

/// Returns constraints by which each region outlives the next.
fn in_a_row(alloc: Global, regions: usize) -> Result<Vec<NumberedConstraint>, AllocError>
    ensures { IfOk result (λ found. ArePairsWithin regions found.items) }
{
    let mut found = Vec::new(alloc);
    for next in 1..regions {
        found.push(NumberedConstraint {
            longer: next - 1,
            shorter: next,
        })?;
    }
    Ok(found)
}

/// Returns whether a chain has all regions in the order of their numbers, with 16 universal ones.
fn goes_by_number(chain: &[Region]) -> bool {
    let mut number = 0u16;
    for region in chain {
        let same = match *region {
            Universal(universal) => universal < 16 && u16::from(universal) == number,
            Variable(variable) => variable.wrapping_add(16) == number,
        };
        if !same {
            return false;
        }
        number = number.wrapping_add(1);
    }
    true
}

#[test]
fn a_chain_goes_through_as_many_regions_as_a_body_has(rt: HostRuntime) -> Result<(), Fail> {
    let alloc = rt.alloc();
    let pairs = in_a_row(alloc, 1040)?;
    let starts = table(
        alloc,
        1040,
        1,
        &[Entry {
            node: 1039,
            fact: 0,
        }],
    )?;
    let facts = Facts::new(16, starts, pairs, 1);
    let found = explain(alloc, &facts, 0, 0)?;
    let chain = found.as_deref().unwrap_or(&[]);
    assert_eq!(rt; chain.len(), 1040);
    assert!(rt; goes_by_number(chain));
    Ok(())
}
