//! What a body demands of its regions.
ghost use Rattle.std.specs.Prelude.{◌≡◌, ◌+◌, ◌≤◌, ℕ, map, filter, length, IfOk};
ghost use Rattle.std.specs.List.{flat_map};
ghost use Rattle.bc_flow.specs.Flow.{holds};
ghost use Rattle.bc_points.specs.Regions.{region_number as number_of};
ghost use Rattle.bc_cons.specs.Constraints.{differ, pairs_at, all_pairs, numbered, constraints_of};
ghost use Rattle.bc_cons.specs.Requirements.{AreOfChildren};
ghost use Rattle.bc_cons.specs.Starts.{starts_with};
ghost use Rattle.bc_cons.specs.Bounds.{types_bound as bound_of_types, pairs_bound as bound_of_pairs};
ghost use Rattle.bc_cons.specs.Below.{TysAreBelow, IsRegionCount};

use crate::bounds::{pairs_bound, types_bound};
use crate::facts::{Facts, NumberedConstraint};
use crate::pairs::push_pairs_at;
use crate::requirements::Requirements;
use crate::starts::start_rows;
use bc_live::LiveSets;
use bc_mir::{Constraint as RegionConstraint, Step, Typed};
use bc_points::region_number;
use bc_types::is_same_region;
use std::alloc::{AllocError, Global};

/// Returns the pairs of points, in order.
fn pairs_of_steps(
    alloc: Global,
    typed: &Typed,
    kids: &[(u8, Requirements)],
    steps: &[Step],
) -> Result<Vec<RegionConstraint>, AllocError>
    ensures { IfOk result (λ pairs. pairs.items ≡ flat_map (λ step. pairs_at typed.now kids.now step.instruction) steps.now) }
{
    let mut pairs = Vec::with_capacity(alloc, steps.len())?;
    let mut references = Vec::new(alloc);
    for step in steps {
        push_pairs_at(
            alloc,
            &mut pairs,
            &mut references,
            typed,
            kids,
            &step.instruction,
        )?;
    }
    Ok(pairs)
}

/// Returns the pairs of all points, in order, and then those of the types of the `let` locals.
fn pairs_of_body(
    alloc: Global,
    typed: &Typed,
    kids: &[(u8, Requirements)],
) -> Result<Vec<RegionConstraint>, AllocError>
    ensures { IfOk result (λ pairs. pairs.items ≡ all_pairs typed.now kids.now) }
{
    let mut pairs = pairs_of_steps(alloc, typed, kids, typed.steps())?;
    typed.push_let_pairs(alloc, &mut pairs)?;
    Ok(pairs)
}

/// Returns the pairs of two different regions.
fn differing(alloc: Global, pairs: &[RegionConstraint]) -> Result<Vec<RegionConstraint>, AllocError>
    ensures { IfOk result (λ kept. kept.items ≡ filter differ pairs.now) }
{
    let mut kept = Vec::with_capacity(alloc, pairs.len())?;
    for pair in pairs {
        if !is_same_region(pair.longer, pair.shorter) {
            kept.push(*pair)?;
        }
    }
    Ok(kept)
}

/// Returns the pairs of the body, without those of a region with itself.
fn differing_of_body(
    alloc: Global,
    typed: &Typed,
    kids: &[(u8, Requirements)],
) -> Result<Vec<RegionConstraint>, AllocError>
    ensures { IfOk result (λ kept. kept.items ≡ filter differ (all_pairs typed.now kids.now)) }
{
    let pairs = pairs_of_body(alloc, typed, kids)?;
    differing(alloc, &pairs)
}

/// Returns how many regions a body with these pairs has.
fn region_count(typed: &Typed, pairs: &[RegionConstraint]) -> usize
    ensures count { result ≡ bound_of_pairs typed.now.universals (bound_of_types typed.now.universals typed.now.universals typed.now.locals) pairs.now }
    ensures few { result ≤ typed.now.universals + 65536 }
    ensures universals { typed.now.universals ≤ result }
    ensures types { TysAreBelow typed.now.universals result typed.now.locals }
{
    let universals = typed.universals();
    let declared = types_bound(universals, usize::from(universals), typed.locals());
    pairs_bound(universals, declared, pairs)
}

fn constraint(universals: u8, pair: RegionConstraint) -> NumberedConstraint
    ensures { result ≡ numbered universals pair }
{
    NumberedConstraint {
        longer: region_number(universals, pair.longer),
        shorter: region_number(universals, pair.shorter),
    }
}

fn by_number(
    alloc: Global,
    universals: u8,
    pairs: &[RegionConstraint],
) -> Result<Vec<NumberedConstraint>, AllocError>
    ensures { IfOk result (λ constraints. constraints.items ≡ map (numbered universals) pairs.now) }
{
    pairs
        .iter()
        .map(|pair| constraint(universals, *pair))
        .collect(alloc)
}

/// Returns the facts that the values of a body's regions are solved from: the elements that each region starts with, and the constraints.
/// Regions start with points by the given liveness. The constraints are those of the points, and those that the types of the `let` locals
/// demand to be well-formed; pairs of a region with itself are left out. `requirements` has one entry for each child, ascending, with pairs
/// between the child's external regions and `'static` alone. Each creation of a child demands what the child requires, with its external
/// regions replaced by those of the creation. (RFC 2094, "Liveness", "Subtyping" and "Reborrow constraints"; RFC 1214; rustc-dev-guide,
/// "Propagating closure constraints"; here constraints hold at every point, and `'static` starts with all ends.)
pub fn constraints(
    alloc: Global,
    typed: &Typed,
    live: &LiveSets,
    requirements: &[(u8, Requirements)],
) -> Result<Facts, AllocError>
    requires children { AreOfChildren typed.now.children requirements.now }
    ensures elements { IfOk result (λ facts. facts.elements ≡ length typed.now.steps + typed.now.universals) }
    ensures universals { IfOk result (λ facts. typed.now.universals ≤ length facts.starts) }
    ensures numbering { IfOk result (λ facts. facts.universals ≡ typed.now.universals) }
    ensures regions { IfOk result (λ facts. IsRegionCount typed.now requirements.now (length facts.starts)) }
    ensures starts { IfOk result (λ facts. (r e : ℕ) → holds facts.starts r e ≡ starts_with typed.now (holds live.now) r e) }
    ensures pairs { IfOk result (λ facts. facts.pairs ≡ constraints_of typed.now requirements.now) }
{
    let universals = typed.universals();
    let pairs = differing_of_body(alloc, typed, requirements)?;
    let regions = region_count(typed, &pairs);
    let starts = start_rows(alloc, typed, live, regions)?;
    let numbered = by_number(alloc, universals, &pairs)?;
    let elements = typed.steps().len() + usize::from(universals);
    Ok(Facts::new(universals, starts, numbered, elements))
}
