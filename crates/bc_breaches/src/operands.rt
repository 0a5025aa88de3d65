//! The typing rules of places and operands.
ghost use Rattle.std.specs.Prelude.{◌≡◌, ◌+◌, ◌<◌, ◌^◌, length, IfOk};
ghost use Rattle.bc_shapes.specs.Shapes.{one_shape, is_int_type as int_type};
ghost use Rattle.bc_bodies.specs.PlaceTypes.{type_of_place as place_there};
ghost use Rattle.bc_mir.specs.Rules.{has_shape, is_int_found as int_found, is_operand_int as int_operand, type_of_operand as operand_there};
ghost use Rattle.bc_breaches.specs.Typing.{place_breach as breach_of_place, written_breach as breach_of_written, copied_breach as breach_of_copied, operand_breach as breach_of_operand, fit_breach as breach_of_fit, operands_breach as breach_of_operands, int_breach as breach_of_int, ints_breach as breach_of_ints};

use crate::rule::{PointBreach, TypedPart, TypingRule, unless};
use bc_bodies::{Draft, goes_only_mutable, has_no_deref, type_of_place};
use bc_shapes::{are_alike_types, is_copyable_type, is_int_behind};
use bc_syntax::{Operand, Place, Ty};
use std::alloc::{AllocError, Global};

/// Returns whether two types have one shape.
pub(crate) fn is_one_shape(first: &Ty, second: &Ty) -> bool
    ensures { result ≡ one_shape first.now second.now }
{
    are_alike_types(
        first.references.as_slice(),
        &first.base,
        second.references.as_slice(),
        &second.base,
    )
}

pub(crate) fn is_int(ty: &Ty) -> bool
    ensures { result ≡ int_type ty.now }
{
    is_int_behind(ty.references.as_slice(), &ty.base)
}

pub(crate) fn place_breach(
    alloc: Global,
    draft: &Draft,
    part: TypedPart,
    place: &Place,
) -> Result<Option<PointBreach>, AllocError>
    ensures { IfOk result (λ found. found ≡ breach_of_place draft.now part place.now) }
{
    let ty = type_of_place(alloc, draft, place)?;
    Ok(unless(ty.is_some(), part, TypingRule::HasType))
}

/// Returns the breach of a place that is written.
pub(crate) fn written_breach(
    alloc: Global,
    draft: &Draft,
    part: TypedPart,
    place: &Place,
) -> Result<Option<PointBreach>, AllocError>
    ensures { IfOk result (λ found. found ≡ breach_of_written draft.now part place.now) }
{
    match place_breach(alloc, draft, part, place)? {
        Some(breach) => Ok(Some(breach)),
        None => Ok(unless(goes_only_mutable(draft, place), part, TypingRule::IsMutable)),
    }
}

fn copied_breach(part: TypedPart, found: &Option<Ty>) -> Option<PointBreach>
    ensures { result ≡ breach_of_copied part found.now }
{
    match found {
        Some(ty) => unless(is_copyable_type(ty), part, TypingRule::IsCopyable),
        None => unless(false, part, TypingRule::HasType),
    }
}

/// Returns the breach of an operand by itself, given its number.
pub(crate) fn operand_breach(
    alloc: Global,
    draft: &Draft,
    number: usize,
    operand: &Operand,
) -> Result<Option<PointBreach>, AllocError>
    ensures { IfOk result (λ found. found ≡ breach_of_operand draft.now number operand.now) }
{
    let part = TypedPart::Operand(number);
    match operand {
        Operand::Copy(place) => {
            let ty = type_of_place(alloc, draft, place)?;
            Ok(copied_breach(part, &ty))
        }
        Operand::Move(place) => match unless(
            has_no_deref(place),
            part,
            TypingRule::HasNoDereference,
        ) {
            Some(breach) => Ok(Some(breach)),
            None => place_breach(alloc, draft, part, place),
        },
        Operand::Number(_) => Ok(None),
    }
}

/// Returns whether there is a type that has a shape.
fn found_has_shape(found: &Option<Ty>, expected: &Ty) -> bool
    ensures { result ≡ has_shape expected.now found.now }
{
    match found {
        Some(ty) => is_one_shape(ty, expected),
        None => false,
    }
}

/// Returns whether a place may be copied and has the shape of a type.
fn copy_has_shape(
    alloc: Global,
    draft: &Draft,
    place: &Place,
    expected: &Ty,
) -> Result<bool, AllocError>
    ensures { IfOk result (λ holds. holds ≡ has_shape expected.now (operand_there draft.now (Operand.Copy place.now))) }
{
    match type_of_place(alloc, draft, place)? {
        Some(ty) => Ok(is_copyable_type(&ty) && is_one_shape(&ty, expected)),
        None => Ok(false),
    }
}

/// Returns whether an operand breaks no rule by itself and has the shape of a type.
pub(crate) fn operand_has_shape(
    alloc: Global,
    draft: &Draft,
    operand: &Operand,
    expected: &Ty,
) -> Result<bool, AllocError>
    ensures { IfOk result (λ holds. holds ≡ has_shape expected.now (operand_there draft.now operand.now)) }
{
    match operand {
        Operand::Copy(place) => copy_has_shape(alloc, draft, place, expected),
        Operand::Move(place) => {
            let ty = type_of_place(alloc, draft, place)?;
            Ok(has_no_deref(place) && found_has_shape(&ty, expected))
        }
        Operand::Number(_) => Ok(is_int(expected)),
    }
}

/// Returns the breach of an operand with an expected type, given its number.
fn fit_breach(
    alloc: Global,
    draft: &Draft,
    number: usize,
    operand: &Operand,
    expected: &Ty,
) -> Result<Option<PointBreach>, AllocError>
    ensures { IfOk result (λ found. found ≡ breach_of_fit draft.now number operand.now expected.now) }
{
    match operand_breach(alloc, draft, number, operand)? {
        Some(breach) => Ok(Some(breach)),
        None => {
            let holds = operand_has_shape(alloc, draft, operand, expected)?;
            Ok(unless(holds, TypedPart::Operand(number), TypingRule::HasShape))
        }
    }
}

/// Returns the first breach of operands with expected types; the first operand has this number.
pub(crate) fn operands_breach(
    alloc: Global,
    draft: &Draft,
    number: usize,
    operands: &[Operand],
    expected: &[Ty],
) -> Result<Option<PointBreach>, AllocError>
    requires { number + length operands.now < 2 ^ 64 }
    ensures { IfOk result (λ found. found ≡ breach_of_operands draft.now number operands.now expected.now) }
{
    match operands {
        [] => match expected {
            [] => Ok(None),
            [_, ..] => Ok(unless(false, TypedPart::Named, TypingRule::HasOperandCount)),
        },
        [operand, more @ ..] => match expected {
            [] => Ok(unless(false, TypedPart::Named, TypingRule::HasOperandCount)),
            [ty, rest @ ..] => match fit_breach(alloc, draft, number, operand, ty)? {
                Some(breach) => Ok(Some(breach)),
                None => operands_breach(alloc, draft, number + 1, more, rest),
            },
        },
    }
}

/// Returns whether there is a type that is `int`.
fn is_found_int(found: &Option<Ty>) -> bool
    ensures { result ≡ int_found found.now }
{
    match found {
        Some(ty) => is_int(ty),
        None => false,
    }
}

fn is_operand_int(alloc: Global, draft: &Draft, operand: &Operand) -> Result<bool, AllocError>
    ensures { IfOk result (λ holds. holds ≡ int_operand draft.now operand.now) }
{
    match operand {
        Operand::Copy(place) => {
            let ty = type_of_place(alloc, draft, place)?;
            Ok(is_found_int(&ty))
        }
        Operand::Move(place) => {
            let ty = type_of_place(alloc, draft, place)?;
            Ok(has_no_deref(place) && is_found_int(&ty))
        }
        Operand::Number(_) => Ok(true),
    }
}

/// Returns the breach of an operand that has to be an `int`, given its number.
pub(crate) fn int_breach(
    alloc: Global,
    draft: &Draft,
    number: usize,
    operand: &Operand,
) -> Result<Option<PointBreach>, AllocError>
    ensures { IfOk result (λ found. found ≡ breach_of_int draft.now number operand.now) }
{
    match operand_breach(alloc, draft, number, operand)? {
        Some(breach) => Ok(Some(breach)),
        None => {
            let holds = is_operand_int(alloc, draft, operand)?;
            Ok(unless(holds, TypedPart::Operand(number), TypingRule::IsInt))
        }
    }
}

/// Returns the first breach of operands that have to be `int`s; the first has this number.
pub(crate) fn ints_breach(
    alloc: Global,
    draft: &Draft,
    number: usize,
    operands: &[Operand],
) -> Result<Option<PointBreach>, AllocError>
    requires { number + length operands.now < 2 ^ 64 }
    ensures { IfOk result (λ found. found ≡ breach_of_ints draft.now number operands.now) }
{
    match operands {
        [] => Ok(None),
        [operand, more @ ..] => match int_breach(alloc, draft, number, operand)? {
            Some(breach) => Ok(Some(breach)),
            None => ints_breach(alloc, draft, number + 1, more),
        },
    }
}
