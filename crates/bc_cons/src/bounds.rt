//! How many regions a body has, by the numbers that it uses.
ghost use Rattle.std.specs.Prelude.{◌≡◌, ◌+◌, ◌≤◌, max};
ghost use Rattle.bc_types.specs.Mentions.{regions_of_references, regions_of};
ghost use Rattle.bc_cons.specs.Bounds.{regions_bound as bound_of_regions, types_bound as bound_of_types, pairs_bound as bound_of_pairs};

use bc_mir::{Constraint as RegionConstraint, base_regions};
use bc_points::region_number;
use bc_syntax::{Reference, Region, Ty};

/// Returns one more than the greatest number of the regions, and at least `least`.
fn regions_bound(universals: u8, least: usize, regions: &[Region]) -> usize
    ensures bound { result ≡ bound_of_regions universals least regions.now }
    ensures within { result ≤ max least (universals + 65536) }
{
    let mut bound = least;
    for region in regions {
        bound = bound.max(region_number(universals, *region) + 1);
    }
    bound
}

/// Returns one more than the greatest number of the regions of references, and at least `least`.
fn references_bound(universals: u8, least: usize, references: &[Reference]) -> usize
    ensures bound { result ≡ bound_of_regions universals least (regions_of_references references.now) }
    ensures within { result ≤ max least (universals + 65536) }
{
    let mut bound = least;
    for reference in references {
        bound = bound.max(region_number(universals, reference.region) + 1);
    }
    bound
}

/// Returns one more than the greatest number of the regions in a type, and at least `least`.
fn type_bound(universals: u8, least: usize, ty: &Ty) -> usize
    ensures bound { result ≡ bound_of_regions universals least (regions_of ty.now) }
    ensures within { result ≤ max least (universals + 65536) }
{
    let bound = references_bound(universals, least, ty.references.as_slice());
    regions_bound(universals, bound, base_regions(&ty.base))
}

/// Returns one more than the greatest number of the regions in the types of locals, and at least `least`.
pub(crate) fn types_bound(universals: u8, least: usize, locals: &[Ty]) -> usize
    ensures bound { result ≡ bound_of_types universals least locals.now }
    ensures within { result ≤ max least (universals + 65536) }
{
    let mut bound = least;
    for ty in locals {
        bound = type_bound(universals, bound, ty);
    }
    bound
}

/// Returns one more than the greatest number of the regions of pairs, and at least `least`.
pub(crate) fn pairs_bound(universals: u8, least: usize, pairs: &[RegionConstraint]) -> usize
    ensures bound { result ≡ bound_of_pairs universals least pairs.now }
    ensures within { result ≤ max least (universals + 65536) }
{
    let mut bound = least;
    for pair in pairs {
        bound = bound
            .max(region_number(universals, pair.longer) + 1)
            .max(region_number(universals, pair.shorter) + 1);
    }
    bound
}
