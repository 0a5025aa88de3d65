//! Compares types without their regions.
ghost use Rattle.std.specs.Prelude.{◌≡◌};
ghost use Rattle.bc_shapes.specs.Shapes.{same_name, alike, alike_closures, alike_bases, alike_types, is_int_base as int_base, is_int_behind as int_behind, is_copyable_behind as copyable_behind, is_copyable_type as copyable_type};
ghost use Rattle.bc_shapes.specs.Mutabilities.{same_mutability};

use crate::mutabilities::is_mutable;
use bc_syntax::{Base, ClosureInstance, Instance, ItemName, Mutability, Reference, Ty};

fn is_same_name(first: &ItemName, second: &ItemName) -> bool
    ensures { result ≡ same_name first.now second.now }
{
    first.bytes.as_slice() == second.bytes.as_slice()
}

/// Returns whether both are shared or both mutable.
pub fn is_same_mutability(first: Mutability, second: Mutability) -> bool
    ensures { result ≡ same_mutability first second }
{
    first == second
}

/// Returns whether instances have the same name and number of regions.
pub fn are_alike(first: &Instance, second: &Instance) -> bool
    ensures { result ≡ alike first.now second.now }
{
    is_same_name(&first.name, &second.name)
        && first.regions.as_slice().len() == second.regions.as_slice().len()
}

/// Returns whether closures have the same number and number of regions.
pub fn are_alike_closures(first: &ClosureInstance, second: &ClosureInstance) -> bool
    ensures { result ≡ alike_closures first.now second.now }
{
    first.number == second.number
        && first.regions.as_slice().len() == second.regions.as_slice().len()
}

fn are_alike_bases(first: &Base, second: &Base) -> bool
    ensures { result ≡ alike_bases first.now second.now }
{
    match first {
        Base::Int => is_int_base(second),
        Base::Struct(one) => match second {
            Base::Int | Base::Closure(_) => false,
            Base::Struct(other) => are_alike(one, other),
        },
        Base::Closure(one) => match second {
            Base::Int | Base::Struct(_) => false,
            Base::Closure(other) => are_alike_closures(one, other),
        },
    }
}

/// Returns whether two types, each given by its references and its base, are equal once regions are blanked.
pub fn are_alike_types(
    references: &[Reference],
    first: &Base,
    others: &[Reference],
    second: &Base,
) -> bool
    ensures { result ≡ alike_types references.now first.now others.now second.now }
{
    match references {
        [] => match others {
            [] => are_alike_bases(first, second),
            [_, ..] => false,
        },
        [one, more @ ..] => match others {
            [] => false,
            [other, rest @ ..] => {
                is_same_mutability(one.mutability, other.mutability)
                    && are_alike_types(more, first, rest, second)
            }
        },
    }
}

fn is_int_base(base: &Base) -> bool
    ensures { result ≡ int_base base.now }
{
    match base {
        Base::Int => true,
        Base::Struct(_) | Base::Closure(_) => false,
    }
}

/// Returns whether the type with these references and this base is `int`.
pub fn is_int_behind(references: &[Reference], base: &Base) -> bool
    ensures { result ≡ int_behind references.now base.now }
{
    match references {
        [] => is_int_base(base),
        [_, ..] => false,
    }
}

/// Returns whether `copy` may take a value of the type with these references and this base: it is `int` or a shared reference.
pub fn is_copyable_behind(references: &[Reference], base: &Base) -> bool
    ensures { result ≡ copyable_behind references.now base.now }
{
    match references {
        [] => is_int_base(base),
        [reference, ..] => !is_mutable(reference.mutability),
    }
}

/// Returns whether `copy` may take a value of the type: it is `int` or a shared reference.
pub fn is_copyable_type(ty: &Ty) -> bool
    ensures { result ≡ copyable_type ty.now }
{
    is_copyable_behind(ty.references.as_slice(), &ty.base)
}
