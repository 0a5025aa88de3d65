//! Borrowed types.
ghost use Rattle.std.specs.Prelude.{◌≡◌};
ghost use Rattle.bc_shapes.specs.Shapes.{is_copyable_type};

use crate::shapes::is_copyable_behind;
use bc_syntax::{Base, Reference, Ty};
use std::marker::Model;

/// A type, borrowed from where it is stored: its references, the outermost first, and its base. Contracts see it as the type.
#[derive(Drop)]
pub struct TyRef<'a> {
    references: &'a [Reference],
    base: &'a Base,
}

impl<'a> Model for TyRef<'a> {
    ghost use Rattle.bc_syntax.specs.declared.syntax.Ty.{Ty};

    ghost Value = { Ty };

    ghost view = { λ t. record { references = t.references.now; base = t.base.now } };
}

impl<'a> TyRef<'a> {
    /// Borrows a type.
    pub fn of(ty: &'a Ty) -> TyRef<'a>
        ensures { result ≡ ty.now }
    {
        TyRef {
            references: ty.references.as_slice(),
            base: &ty.base,
        }
    }

    /// Returns the type with these references and this base.
    pub fn behind(references: &'a [Reference], base: &'a Base) -> TyRef<'a>
        ensures { result ≡ record { references = references.now; base = base.now } }
    {
        TyRef { references, base }
    }

    /// Returns the references of the type, the outermost first.
    pub fn references(&self) -> &'a [Reference]
        ensures { result.now ≡ self.now.references }
    {
        self.references
    }

    /// Returns the base of the type.
    pub fn base(&self) -> &'a Base
        ensures { result.now ≡ self.now.base }
    {
        self.base
    }

    /// Returns whether `copy` may take a value of the type: it is `int` or a shared reference.
    pub fn is_copyable(&self) -> bool
        ensures { result ≡ is_copyable_type self.now }
    {
        is_copyable_behind(self.references, self.base)
    }
}
