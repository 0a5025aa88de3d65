//! Places without a dereference.
ghost use Rattle.std.specs.Prelude.{◌≡◌};
ghost use Rattle.std.specs.List.{list_all};
ghost use Rattle.bc_bodies.specs.Places.{is_field, has_no_deref as no_deref};

use bc_syntax::{Place, Projection};

/// Returns whether all projections are fields.
pub fn are_fields(projections: &[Projection]) -> bool
    ensures { result ≡ list_all is_field projections.now }
{
    projections
        .iter()
        .all(|projection| matches!(projection, Projection::Field(_)))
}

/// Returns whether a place has no `.*`.
pub fn has_no_deref(place: &Place) -> bool
    ensures { result ≡ no_deref place.now }
{
    are_fields(place.projections.as_slice())
}
