//! Borrowed places.
ghost use Rattle.std.specs.Prelude.{◌≡◌};
ghost use Rattle.bc_points.specs.Accesses.{local_place};

use bc_syntax::{Place, Projection};
use std::marker::Model;

/// A borrowed place: its local, and a slice of its projections. In contracts it is the place itself. (After `PlaceRef` of rustc;
/// rustc-dev-guide, "The MIR".)
#[derive(Drop)]
pub struct PlaceRef<'a> {
    local: u8,
    projections: &'a [Projection],
}

impl<'a> Model for PlaceRef<'a> {
    ghost use Rattle.bc_syntax.specs.declared.syntax.Place.{Place};

    ghost Value = { Place };

    ghost view = { λ p. record { local = p.local; projections = p.projections.now } };
}

impl<'a> PlaceRef<'a> {
    /// Borrows a place.
    pub fn of(place: &'a Place) -> PlaceRef<'a>
        ensures { result ≡ place.now }
    {
        PlaceRef {
            local: place.local,
            projections: place.projections.as_slice(),
        }
    }

    /// Returns the place that is a local alone.
    pub fn of_local(local: u8) -> PlaceRef<'a>
        ensures { result ≡ local_place local }
    {
        PlaceRef {
            local,
            projections: &[],
        }
    }

    /// Returns the local of the place.
    pub fn local(&self) -> u8
        ensures { result ≡ self.now.local }
    {
        self.local
    }

    /// Returns the projections of the place, in order.
    pub fn projections(&self) -> &'a [Projection]
        ensures { result.now ≡ self.now.projections }
    {
        self.projections
    }
}
