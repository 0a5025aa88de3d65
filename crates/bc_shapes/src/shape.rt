//! Borrowed types, compared without their regions.
ghost use Rattle.std.specs.Prelude.{◌≡◌};
ghost use Rattle.std.specs.Option.{option_copied, option_map};
ghost use Rattle.bc_shapes.specs.Shapes.{blanked, one_shape, is_int_type, is_copyable_type};
ghost use Rattle.bc_shapes.specs.Forms.{closure_behind as closure_there, closure_of, closure_type, struct_type, type_referenced};

use crate::shapes::{
    are_alike, are_alike_closures, are_alike_types, is_copyable_behind, is_int_behind,
    is_same_mutability,
};
use bc_syntax::{Base, ClosureInstance, Instance, Reference, Ty};
use std::marker::Model;

/// Returns the closure if the type with these references and this base is one, otherwise `None`.
pub fn closure_behind<'a>(
    references: &'a [Reference],
    base: &'a Base,
) -> Option<&'a ClosureInstance>
    ensures { option_copied result ≡ closure_there references.now base.now }
{
    match references {
        [] => match base {
            Base::Int | Base::Struct(_) => None,
            Base::Closure(closure) => Some(closure),
        },
        [_, ..] => None,
    }
}

/// A borrowed type without its regions: its references, the outermost first, and its base. Contracts see the type with its regions blanked,
/// since no typing rule looks at a region.
#[derive(Drop)]
pub struct Shape<'a> {
    references: &'a [Reference],
    base: &'a Base,
}

impl<'a> Model for Shape<'a> {
    ghost use Rattle.bc_syntax.specs.declared.syntax.Ty.{Ty};
    ghost use Rattle.bc_shapes.specs.Shapes.{blanked};

    ghost Value = { Ty };

    ghost view = { λ s. blanked (record { references = s.references.now; base = s.base.now }) };
}

impl<'a> Shape<'a> {
    /// Returns the shape of a type.
    pub fn of(ty: &'a Ty) -> Shape<'a>
        ensures { result ≡ blanked ty.now }
    {
        Shape {
            references: ty.references.as_slice(),
            base: &ty.base,
        }
    }

    /// Returns the shape of the type with these references and this base.
    pub fn behind(references: &'a [Reference], base: &'a Base) -> Shape<'a>
        ensures { result ≡ blanked (record { references = references.now; base = base.now }) }
    {
        Shape { references, base }
    }

    /// Returns whether the type is `int`.
    pub fn is_int(&self) -> bool
        ensures { result ≡ is_int_type self.now }
    {
        is_int_behind(self.references, self.base)
    }

    /// Returns whether `copy` may take a value of the type.
    pub fn is_copyable(&self) -> bool
        ensures { result ≡ is_copyable_type self.now }
    {
        is_copyable_behind(self.references, self.base)
    }

    /// Returns whether an instance of a struct has this shape.
    pub fn is_struct(&self, instance: &Instance) -> bool
        ensures { result ≡ one_shape (struct_type instance.now) self.now }
    {
        match self.references {
            [] => match self.base {
                Base::Int | Base::Closure(_) => false,
                Base::Struct(own) => are_alike(instance, own),
            },
            [_, ..] => false,
        }
    }

    /// Returns the number of the closure if the type is one, otherwise `None`.
    pub fn closure(&self) -> Option<u8>
        ensures { result ≡ option_map (λ closure. closure.number) (closure_of self.now) }
    {
        match closure_behind(self.references, self.base) {
            Some(closure) => Some(closure.number),
            None => None,
        }
    }

    /// Returns whether a closure has this shape.
    pub fn is_closure(&self, closure: &ClosureInstance) -> bool
        ensures { result ≡ one_shape (closure_type closure.now) self.now }
    {
        match self.references {
            [] => match self.base {
                Base::Int | Base::Struct(_) => false,
                Base::Closure(own) => are_alike_closures(closure, own),
            },
            [_, ..] => false,
        }
    }

    /// Returns whether another type has this shape.
    pub fn is_like(&self, other: &Shape<'_>) -> bool
        ensures { result ≡ one_shape self.now other.now }
    {
        are_alike_types(self.references, self.base, other.references, other.base)
    }

    /// Returns whether this reference to the pointee has this shape.
    pub fn is_reference(&self, reference: Reference, pointee: &Shape<'_>) -> bool
        ensures { result ≡ one_shape (type_referenced reference pointee.now) self.now }
    {
        match self.references {
            [] => false,
            [own, references @ ..] => {
                let behind = Shape {
                    references,
                    base: self.base,
                };
                is_same_mutability(reference.mutability, own.mutability) && pointee.is_like(&behind)
            }
        }
    }
}
