//! The projections of a place, stored in the place itself.
ghost use Rattle.std.specs.Prelude.{◌≡◌, ◌<◌, ◌++◌, ◌∷◌, [], length};

use crate::syntax::Projection;
use std::marker::Model;

/// At most eight projections, in order, as a value that is copied. Contracts see it as their list. (rustc-dev-guide, "The MIR".)
#[derive(Clone, Copy)]
pub struct Projections {
    steps: [Projection; 8],
    count: u8,
}

impl Model for Projections {
    ghost use Rattle.std.specs.Prelude.{List};
    ghost use Rattle.bc_syntax.specs.declared.syntax.Projection.{Projection};

    ghost Value = { List Projection };

    ghost use Rattle.bc_syntax.specs.Projections.{used, IsStored, stored, gives_back};

    ghost view = { used };

    ghost invariant = { IsStored };

    ghost inverse = { stored };

    ghost inverse_ok = { gives_back };
}

impl Projections {
    /// Returns an empty list.
    pub fn new() -> Self
        ensures { result ≡ [] }
    {
        Projections {
            steps: [Projection::Deref; 8],
            count: 0,
        }
    }

    /// Returns the projections, in order.
    pub fn as_slice(&self) -> &[Projection]
        ensures { result.now ≡ self.now }
    {
        &self.steps[..usize::from(self.count)]
    }

    /// Appends a projection. There must be at most seven before.
    #[inline(always)]
    pub fn push(&mut self, projection: Projection)
        requires { length self.old < 8 }
        ensures { self.new ≡ self.old ++ projection ∷ [] }
    {
        self.steps[usize::from(self.count)] = projection;
        self.count += 1;
    }
}

impl PartialEq for Projections {
    ghost use Rattle.std.specs.Cmp.Lexicographic.{pointwise, lists_per};
    ghost use Rattle.bc_syntax.specs.contracts.syntax.ProjectionPartialEq.TheImpl as projection_impl;
    ghost use Rattle.bc_syntax.specs.contracts.syntax.ProjectionPartialEq.TheImpl.Laws.{laws-law};

    ghost eq = { λ s t. pointwise (projection_impl.ghosts).eq s t };

    ghost laws = { lists_per laws-law };

    /// Returns whether the lists are equal. Most are empty, and those are told without a look at their steps.
    #[inline(always)]
    fn eq(&self, other: &Self) -> bool {
        if self.as_slice().is_empty() && other.as_slice().is_empty() {
            return true;
        }
        self.as_slice() == other.as_slice()
    }
}
