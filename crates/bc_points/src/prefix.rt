//! Prefixes of places (RFC 2094, "Reborrow constraints" and "Borrow checker phase 2").
ghost use Rattle.std.specs.Prelude.{◌≡◌};
ghost use Rattle.std.specs.Option.{option_copied};
ghost use Rattle.bc_bodies.specs.Places.{are_mutable as all_mutable};
ghost use Rattle.bc_points.specs.Prefixes.{from_last_shared as since_last_shared, rest_after as after, same_projection, rest_of as what_follows, is_prefix as prefix_test, is_shallow_prefix as shallow_test};

use crate::place_ref::PlaceRef;
use bc_mir::are_fields;
use bc_shapes::is_mutable;
use bc_syntax::{Projection, Reference};

fn are_mutable(references: &[Reference]) -> bool
    ensures { result ≡ all_mutable references.now }
{
    references
        .iter()
        .all(|reference| is_mutable(reference.mutability))
}

/// Returns the references from the last shared one on, or all if none is shared. Of the references that a place dereferences, its
/// supporting prefixes dereference these (RFC 2094, "Reborrow constraints").
pub fn from_last_shared(references: &[Reference]) -> &[Reference]
    ensures { result.now ≡ since_last_shared references.now }
{
    match references {
        [] => references,
        [_, later @ ..] => {
            if are_mutable(later) {
                references
            } else {
                from_last_shared(later)
            }
        }
    }
}

fn is_same_projection(first: Projection, second: Projection) -> bool
    ensures { result ≡ same_projection first second }
{
    first == second
}

fn rest_after<'a>(
    beginning: &[Projection],
    projections: &'a [Projection],
) -> Option<&'a [Projection]>
    ensures { option_copied result ≡ after beginning.now projections.now }
{
    let mut rest = projections;
    for first in beginning {
        match rest {
            [second, later @ ..] => {
                if !is_same_projection(*first, *second) {
                    return None;
                }
                rest = later;
            }
            [] => return None,
        }
    }
    Some(rest)
}

/// Returns the projections that `place` has after `prefix`, or `None` if that is no prefix of it.
pub(crate) fn rest_of<'a>(prefix: &PlaceRef<'_>, place: &PlaceRef<'a>) -> Option<&'a [Projection]>
    ensures { option_copied result ≡ what_follows prefix.now place.now }
{
    if prefix.local() != place.local() {
        return None;
    }
    rest_after(prefix.projections(), place.projections())
}

/// Returns whether the first place is the second with none or some of its last projections taken away. (RFC 2094, "Reborrow constraints".)
pub fn is_prefix(prefix: &PlaceRef<'_>, place: &PlaceRef<'_>) -> bool
    ensures { result ≡ prefix_test prefix.now place.now }
{
    rest_of(prefix, place).is_some()
}

/// Returns whether the first place is left when only fields at the end of the second are taken away (RFC 2094, "Borrow checker phase 2":
/// shallow prefixes).
pub fn is_shallow_prefix(prefix: &PlaceRef<'_>, place: &PlaceRef<'_>) -> bool
    ensures { result ≡ shallow_test prefix.now place.now }
{
    match rest_of(prefix, place) {
        Some(rest) => are_fields(rest),
        None => false,
    }
}
