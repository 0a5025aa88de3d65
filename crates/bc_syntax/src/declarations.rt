//! Declarations that a text can spell.
ghost use Rattle.std.specs.Prelude.{◌≡◌};
ghost use Rattle.bc_syntax.specs.Fits as spec;
ghost use Rattle.bc_syntax.specs.Fits.{TypesFit};

use crate::sequence::Sequence;
use crate::syntax::Declaration;
use std::marker::Model;

/// Returns whether the declaration declares a struct.
pub fn is_struct(declaration: &Declaration) -> bool
    ensures { result ≡ spec.is_struct declaration.now }
{
    match declaration {
        Declaration::Struct(_) => true,
        Declaration::Extern(_) => false,
    }
}

/// Declarations that a text can spell: at most 64 structs and 64 extern functions, with names that are words of at most 32 bytes, at most 8
/// regions of different names and at most 16 fields or parameters each.
#[derive(PartialEq)]
pub struct Types {
    declarations: Sequence<Declaration>,
}

// Handwritten, so that it is proved once, and not again in each crate above.
impl Drop for Types {
    fn drop(self) {
        let Self { declarations: _ } = self;
    }
}

impl Model for Types {
    ghost use Rattle.std.specs.Prelude.{List};
    ghost use Rattle.bc_syntax.specs.declared.syntax.Declaration.{Declaration};
    ghost use Rattle.bc_syntax.specs.Fits.{TypesFit};

    ghost Value = { List Declaration };

    ghost view = { λ t. t.declarations };

    ghost invariant = { λ t. TypesFit t.declarations };

    ghost inverse = { λ declarations. record { declarations = declarations } };
}

impl Types {
    /// Makes `Types` of declarations that a text can spell.
    pub fn of_fitting(declarations: Sequence<Declaration>) -> Types
        requires { TypesFit declarations }
        ensures { result ≡ declarations }
    {
        Types { declarations }
    }

    /// Returns the declarations, in order.
    pub fn declarations(&self) -> &[Declaration]
        ensures value { result.now ≡ self.now }
        ensures fit { TypesFit self.now }
    {
        self.declarations.as_slice()
    }
}
