//! Units: bodies that a text can spell.
ghost use Rattle.std.specs.Prelude.{◌≡◌};
ghost use Rattle.bc_syntax.specs.Fits.{Fits};

use crate::syntax::Body;
use std::marker::Model;

/// A body that a text can spell. Its numbers are within their limits: at most 256 locals, 1 to 256 blocks, 4,096 points, 15 declared
/// regions, 32 clauses, 16 captures, parameters and operands in a list, closures up to 63, region variables up to 1,023. Its regions and
/// locals are declared, and its names are words. A function captures nothing, and a closure is only ever the whole type of a `let` local.
#[derive(PartialEq)]
pub struct Unit {
    body: Body,
}

// Handwritten, so that it is proved once, and not again in each crate above.
impl Drop for Unit {
    fn drop(self) {
        let Self { body: _ } = self;
    }
}

impl Model for Unit {
    ghost use Rattle.bc_syntax.specs.declared.syntax.Body.{Body};
    ghost use Rattle.bc_syntax.specs.Fits.{Fits};

    ghost Value = { Body };

    ghost view = { λ u. u.body };

    ghost invariant = { λ u. Fits u.body };

    ghost inverse = { λ body. record { body = body } };
}

impl Unit {
    /// Makes the unit of a body that a text can spell.
    pub fn of_fitting(body: Body) -> Unit
        requires { Fits body }
        ensures { result ≡ body }
    {
        Unit { body }
    }

    /// Returns the body with its header.
    pub fn body(&self) -> &Body
        ensures value { result.now ≡ self.now }
        ensures fits { Fits self.now }
    {
        &self.body
    }
}
