//! Types of operands and rvalues, over the language of the rustc-dev-guide, "The MIR".
ghost use Rattle.std.specs.Prelude.{◌≡◌, ⊤, true, Some, IfOk, MatchOption};
ghost use Rattle.bc_bodies.specs.Places.{has_no_field, takes_no_field};
ghost use Rattle.bc_shapes.specs.Forms.{closure_type as type_closure, int_type as type_int, type_referenced as referenced, struct_type as type_struct};
ghost use Rattle.bc_mir.specs.Rules.{type_of_operand as operand_there, type_to_write as written_there, type_reached as reached_there, type_to_borrow as borrowed_there, unless_closure as closure_refused, closure_in as closure_there, type_of_rvalue as rvalue_there};

use crate::rules::{are_operands_int, can_capture, can_create};
use bc_bodies::{
    Draft, goes_only_mutable, has_no_deref, lent_type_of_place, push_references, type_of_place,
};
use bc_shapes::{TyRef, closure_behind, is_copyable_type};
use bc_syntax::{
    Aggregate, Base, Borrow, ClosureInstance, Creation, Instance, Mutability, Operand, Place,
    Reference, Rvalue, ShortSequence, Ty,
};
use std::alloc::{AllocError, Global};

fn int_type(alloc: Global) -> Ty
    ensures { result ≡ type_int }
{
    Ty {
        references: ShortSequence::new(alloc),
        base: Base::Int,
    }
}

/// Returns the type of an operand, or `None` if it breaks a rule.
pub(crate) fn type_of_operand(
    alloc: Global,
    draft: &Draft,
    operand: &Operand,
) -> Result<Option<Ty>, AllocError>
    ensures { IfOk result (λ ty. ty ≡ operand_there draft.now operand.now) }
{
    match operand {
        Operand::Copy(place) => match type_of_place(alloc, draft, place)? {
            Some(ty) => {
                if is_copyable_type(&ty) {
                    Ok(Some(ty))
                } else {
                    Ok(None)
                }
            }
            None => Ok(None),
        },
        Operand::Move(place) => {
            if has_no_deref(place) {
                type_of_place(alloc, draft, place)
            } else {
                Ok(None)
            }
        }
        Operand::Number(_) => Ok(Some(int_type(alloc))),
    }
}

/// Returns the type of an operand that copies or moves a place without fields, borrowed from the type of its local.
pub(crate) fn lent_type_of_operand<'a>(draft: &'a Draft, operand: &Operand) -> Option<TyRef<'a>>
    ensures value { MatchOption result ⊤ (λ ty. operand_there draft.now operand.now ≡ Some ty) }
    ensures found { takes_no_field operand.now ≡ true → result ≡ operand_there draft.now operand.now }
{
    match operand {
        Operand::Copy(place) => {
            let ty = lent_type_of_place(draft, place)?;
            if ty.is_copyable() { Some(ty) } else { None }
        }
        Operand::Move(place) => {
            if !has_no_deref(place) {
                return None;
            }
            lent_type_of_place(draft, place)
        }
        Operand::Number(_) => None,
    }
}

/// Returns the type, unless it is a closure.
fn lent_unless_closure(ty: TyRef<'_>) -> Option<TyRef<'_>>
    ensures { result ≡ closure_refused (Some ty.entry) }
{
    if closure_behind(ty.references(), ty.base()).is_some() {
        None
    } else {
        Some(ty)
    }
}

/// Returns the type of a place that may be borrowed and has no fields, borrowed from the type of its local.
pub(crate) fn lent_type_to_borrow<'a>(draft: &'a Draft, borrow: &Borrow) -> Option<TyRef<'a>>
    ensures value { MatchOption result ⊤ (λ ty. borrowed_there draft.now borrow.now.reference.mutability borrow.now.place ≡ Some ty) }
    ensures found { has_no_field borrow.now.place ≡ true → result ≡ borrowed_there draft.now borrow.now.reference.mutability borrow.now.place }
{
    match borrow.reference.mutability {
        Mutability::Shared => lent_unless_closure(lent_type_of_place(draft, &borrow.place)?),
        Mutability::Mutable => {
            if goes_only_mutable(draft, &borrow.place) {
                lent_unless_closure(lent_type_of_place(draft, &borrow.place)?)
            } else {
                None
            }
        }
    }
}

/// Returns the type of a place, if it may be written.
fn type_to_write(alloc: Global, draft: &Draft, place: &Place) -> Result<Option<Ty>, AllocError>
    ensures { IfOk result (λ ty. ty ≡ written_there draft.now place.now) }
{
    if goes_only_mutable(draft, place) {
        type_of_place(alloc, draft, place)
    } else {
        Ok(None)
    }
}

/// Returns the type of a place; for a mutable borrow, if it may be written.
fn type_reached(
    alloc: Global,
    draft: &Draft,
    mutability: Mutability,
    place: &Place,
) -> Result<Option<Ty>, AllocError>
    ensures { IfOk result (λ ty. ty ≡ reached_there draft.now mutability place.now) }
{
    match mutability {
        Mutability::Shared => type_of_place(alloc, draft, place),
        Mutability::Mutable => type_to_write(alloc, draft, place),
    }
}

/// Returns the type of a place, if it may be borrowed.
fn type_to_borrow(
    alloc: Global,
    draft: &Draft,
    mutability: Mutability,
    place: &Place,
) -> Result<Option<Ty>, AllocError>
    ensures { IfOk result (λ ty. ty ≡ borrowed_there draft.now mutability place.now) }
{
    match type_reached(alloc, draft, mutability, place)? {
        Some(ty) => {
            if closure_behind(ty.references.as_slice(), &ty.base).is_some() {
                Ok(None)
            } else {
                Ok(Some(ty))
            }
        }
        None => Ok(None),
    }
}

/// Returns the type of a reference to a type.
fn type_referenced(alloc: Global, reference: Reference, ty: Ty) -> Result<Ty, AllocError>
    ensures { IfOk result (λ whole. whole ≡ referenced reference ty) }
{
    let (behind, base) = ty.into_parts();
    let mut references = ShortSequence::new(alloc);
    references.push(reference)?;
    push_references(&mut references, behind.as_slice())?;
    Ok(Ty { references, base })
}

/// Returns the type of a borrow, or `None` if it breaks a rule.
pub(crate) fn type_of_borrow(
    alloc: Global,
    draft: &Draft,
    borrow: &Borrow,
) -> Result<Option<Ty>, AllocError>
    ensures { IfOk result (λ ty. ty ≡ rvalue_there draft.now (Rvalue.Borrow borrow.now)) }
{
    let reference = borrow.reference;
    match type_to_borrow(alloc, draft, reference.mutability, &borrow.place)? {
        Some(ty) => Ok(Some(type_referenced(alloc, reference, ty)?)),
        None => Ok(None),
    }
}

fn copy_instance(instance: &Instance) -> Result<Instance, AllocError>
    ensures { IfOk result (λ copy. copy ≡ instance.now) }
{
    instance.clone()
}

fn struct_type(alloc: Global, instance: &Instance) -> Result<Ty, AllocError>
    ensures { IfOk result (λ ty. ty ≡ type_struct instance.now) }
{
    Ok(Ty {
        references: ShortSequence::new(alloc),
        base: Base::Struct(copy_instance(instance)?),
    })
}

fn copy_closure(closure: &ClosureInstance) -> Result<ClosureInstance, AllocError>
    ensures { IfOk result (λ copy. copy ≡ closure.now) }
{
    closure.clone()
}

fn closure_type(alloc: Global, closure: &ClosureInstance) -> Result<Ty, AllocError>
    ensures { IfOk result (λ ty. ty ≡ type_closure closure.now) }
{
    Ok(Ty {
        references: ShortSequence::new(alloc),
        base: Base::Closure(copy_closure(closure)?),
    })
}

/// Returns the closure in a place that may be invoked, or `None` if there is none.
pub(crate) fn closure_in(
    alloc: Global,
    draft: &Draft,
    place: &Place,
) -> Result<Option<ClosureInstance>, AllocError>
    ensures { IfOk result (λ closure. closure ≡ closure_there draft.now place.now) }
{
    if !has_no_deref(place) {
        return Ok(None);
    }
    match type_of_place(alloc, draft, place)? {
        Some(ty) => match closure_behind(ty.references.as_slice(), &ty.base) {
            Some(closure) => Ok(Some(copy_closure(closure)?)),
            None => Ok(None),
        },
        None => Ok(None),
    }
}

/// Returns the type of a struct that is made, or `None` if that breaks a rule.
fn type_of_aggregate(
    alloc: Global,
    draft: &Draft,
    aggregate: &Aggregate,
) -> Result<Option<Ty>, AllocError>
    ensures { IfOk result (λ ty. ty ≡ rvalue_there draft.now (Rvalue.Aggregate aggregate.now)) }
{
    if can_create(draft, aggregate) {
        Ok(Some(struct_type(alloc, &aggregate.instance)?))
    } else {
        Ok(None)
    }
}

/// Returns the type of a closure that is made, or `None` if that breaks a rule.
fn type_of_creation(
    alloc: Global,
    draft: &Draft,
    creation: &Creation,
) -> Result<Option<Ty>, AllocError>
    ensures { IfOk result (λ ty. ty ≡ rvalue_there draft.now (Rvalue.Closure creation.now)) }
{
    if can_capture(draft, creation) {
        Ok(Some(closure_type(alloc, &creation.closure)?))
    } else {
        Ok(None)
    }
}

/// Returns `int`, the type of `calc`, or `None` if an operand is no `int`.
fn type_of_calc(alloc: Global, draft: &Draft, operands: &[Operand]) -> Option<Ty>
    ensures { result ≡ rvalue_there draft.now (Rvalue.Calc operands.now) }
{
    if are_operands_int(draft, operands) {
        Some(int_type(alloc))
    } else {
        None
    }
}

/// Returns the type of an rvalue, or `None` if it breaks a rule.
pub(crate) fn type_of_rvalue(
    alloc: Global,
    draft: &Draft,
    rvalue: &Rvalue,
) -> Result<Option<Ty>, AllocError>
    ensures { IfOk result (λ ty. ty ≡ rvalue_there draft.now rvalue.now) }
{
    match rvalue {
        Rvalue::Use(operand) => type_of_operand(alloc, draft, operand),
        Rvalue::Borrow(borrow) => type_of_borrow(alloc, draft, borrow),
        Rvalue::Aggregate(aggregate) => type_of_aggregate(alloc, draft, aggregate.get()),
        Rvalue::Closure(creation) => type_of_creation(alloc, draft, creation.get()),
        Rvalue::Calc(operands) => Ok(type_of_calc(alloc, draft, operands.as_slice())),
    }
}
