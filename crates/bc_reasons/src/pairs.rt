//! The pairs of regions that one rule demands.
ghost use Rattle.std.specs.Prelude.{◌≡◌, ◌++◌, map, IfOk, OnOk};
ghost use Rattle.bc_types.specs.Subtype.{outlives};
ghost use Rattle.bc_types.specs.WellFormed.{replaced_well_formed};
ghost use Rattle.bc_bodies.specs.Children.{is_outer_clause as outer_clause};
ghost use Rattle.bc_mir.specs.WellFormed.{closure_pairs, type_pairs};
ghost use Rattle.bc_points.specs.Pairs.{sub_place, operand_pair, replaced_clause, clauses_where, is_inner_clause};
ghost use Rattle.bc_cons.specs.Constraints.{required_of, required_pairs as all_required, reborrow_pairs as all_reborrow};
ghost use Rattle.bc_cons.specs.Requirements.{required_by as required_here};

use bc_cons::Requirements;
use bc_mir::{Constraint, Typed, arguments, is_outer_clause};
use bc_points::{from_last_shared, push_clauses};
use bc_shapes::{TyRef, closure_behind, replace_ty};
use bc_syntax::{
    ClosureInstance, Creation, Header, Operand, Outlives, Place, Reference, Region, Rvalue, Ty,
};
use bc_types::push_sub;
use std::alloc::{AllocError, Global};

/// Returns what makes a type, if there is one, a subtype of that of a place, if the place has one.
pub(crate) fn place_pairs(
    alloc: Global,
    typed: &Typed,
    value: &Option<Ty>,
    place: &Place,
) -> Result<Vec<Constraint>, AllocError>
    ensures { IfOk result (λ pairs. pairs.items ≡ sub_place typed.now value.now place.now) }
{
    let mut pairs = Vec::new(alloc);
    match typed.place_type(alloc, place)? {
        Some(target) => match value {
            Some(ty) => {
                push_sub(
                    &mut pairs,
                    typed.types(),
                    &TyRef::of(ty),
                    &TyRef::of(&target),
                )?;
                Ok(pairs)
            }
            None => Ok(pairs),
        },
        None => Ok(pairs),
    }
}

/// Returns what makes an operand a subtype of a type, with the declared regions replaced by arguments.
pub(crate) fn operand_pairs(
    alloc: Global,
    typed: &Typed,
    arguments: &[Region],
    operand: &Operand,
    expected: &Ty,
) -> Result<Vec<Constraint>, AllocError>
    ensures { IfOk result (λ pairs. pairs.items ≡ operand_pair typed.now arguments.now operand.now expected.now) }
{
    let mut pairs = Vec::new(alloc);
    let target = replace_ty(alloc, arguments, expected)?;
    match typed.type_of_operand(alloc, operand)? {
        Some(value) => {
            push_sub(
                &mut pairs,
                typed.types(),
                &TyRef::of(&value),
                &TyRef::of(&target),
            )?;
            Ok(pairs)
        }
        None => Ok(pairs),
    }
}

/// Returns what types of a declaration or a header demand to be well-formed, with the declared regions replaced by arguments.
pub(crate) fn well_formed_pairs(
    alloc: Global,
    typed: &Typed,
    arguments: &[Region],
    types: &[Ty],
) -> Result<Vec<Constraint>, AllocError>
    ensures { IfOk result (λ pairs. pairs.items ≡ replaced_well_formed typed.now.types arguments.now types.now) }
{
    let mut pairs = Vec::new(alloc);
    typed
        .types()
        .push_replaced_well_formed(alloc, &mut pairs, arguments, types)?;
    Ok(pairs)
}

/// Returns clauses with the declared regions replaced by arguments.
pub(crate) fn clause_pairs(
    alloc: Global,
    arguments: &[Region],
    clauses: &[Outlives],
) -> Result<Vec<Constraint>, AllocError>
    ensures { IfOk result (λ pairs. pairs.items ≡ map (replaced_clause arguments.now) clauses.now) }
{
    let mut pairs = Vec::new(alloc);
    push_clauses(&mut pairs, arguments, clauses)?;
    Ok(pairs)
}

/// Returns the clauses of a child that the creation of its closure demands.
pub(crate) fn outer_pairs(
    alloc: Global,
    captures: &[Ty],
    arguments: &[Region],
    clauses: &[Outlives],
) -> Result<Vec<Constraint>, AllocError>
    ensures { IfOk result (λ pairs. pairs.items ≡ clauses_where (outer_clause captures.now) arguments.now clauses.now) }
{
    let outer: Vec<Outlives> = clauses
        .iter()
        .copied()
        .filter(|clause| is_outer_clause(captures, *clause))
        .collect(alloc)?;
    clause_pairs(alloc, arguments, &outer)
}

/// Returns the clauses of a child that only its invocations demand.
pub(crate) fn inner_pairs(
    alloc: Global,
    header: &Header,
    arguments: &[Region],
    clauses: &[Outlives],
) -> Result<Vec<Constraint>, AllocError>
    ensures { IfOk result (λ pairs. pairs.items ≡ clauses_where (is_inner_clause header.now) arguments.now clauses.now) }
{
    let captures = header.captures.as_slice();
    let inner: Vec<Outlives> = clauses
        .iter()
        .copied()
        .filter(|clause| !is_outer_clause(captures, *clause))
        .collect(alloc)?;
    clause_pairs(alloc, arguments, &inner)
}

/// Returns what the child of a number requires.
fn required_by(kids: &[(u8, Requirements)], number: u8) -> &[Outlives]
    ensures { result.now ≡ required_here kids.now number }
{
    match kids {
        [] => &[],
        [kid, more @ ..] => {
            if kid.0 == number {
                kid.1.pairs.as_slice()
            } else {
                required_by(more, number)
            }
        }
    }
}

/// Returns what a closure requires, with its external regions replaced by those of the creation.
fn created_pairs(
    alloc: Global,
    creation: &Creation,
    required: &[Outlives],
    header: &Header,
) -> Result<Vec<Constraint>, AllocError>
    ensures { IfOk result (λ pairs. pairs.items ≡ required_of creation.now required.now header.now) }
{
    let given = arguments(alloc, header, creation.closure.regions.as_slice(), &[])?;
    clause_pairs(alloc, &given, required)
}

/// Returns what the creation of a closure demands because the closure requires it.
pub(crate) fn required_pairs(
    alloc: Global,
    typed: &Typed,
    kids: &[(u8, Requirements)],
    rvalue: &Rvalue,
) -> Result<Vec<Constraint>, AllocError>
    ensures { IfOk result (λ pairs. pairs.items ≡ all_required typed.now kids.now rvalue.now) }
{
    match rvalue {
        Rvalue::Closure(creation) => {
            let creation = creation.get();
            match typed.child(creation.closure.number) {
                Some(header) => {
                    let required = required_by(kids, creation.closure.number);
                    created_pairs(alloc, creation, required, header)
                }
                None => Ok(Vec::new(alloc)),
            }
        }
        Rvalue::Use(_) | Rvalue::Borrow(_) | Rvalue::Aggregate(_) | Rvalue::Calc(_) => {
            Ok(Vec::new(alloc))
        }
    }
}

/// Returns, for each reference, that its region outlives `region`.
fn outlives_pairs(
    alloc: Global,
    references: &[Reference],
    region: Region,
) -> Result<Vec<Constraint>, AllocError>
    ensures { IfOk result (λ pairs. pairs.items ≡ map (λ reference. outlives reference.region region) references.now) }
{
    references
        .iter()
        .map(|reference| Constraint {
            longer: reference.region,
            shorter: region,
        })
        .collect(alloc)
}

/// Returns what a reborrow demands.
pub(crate) fn reborrow_pairs(
    alloc: Global,
    typed: &Typed,
    rvalue: &Rvalue,
) -> Result<Vec<Constraint>, AllocError>
    ensures { IfOk result (λ pairs. pairs.items ≡ all_reborrow typed.now rvalue.now) }
{
    match rvalue {
        Rvalue::Borrow(borrow) => {
            let mut references = Vec::new(alloc);
            typed.push_references_of_place(alloc, &mut references, &borrow.place)?;
            let supporting = from_last_shared(references.as_slice());
            outlives_pairs(alloc, supporting, borrow.reference.region)
        }
        Rvalue::Use(_) | Rvalue::Aggregate(_) | Rvalue::Closure(_) | Rvalue::Calc(_) => {
            Ok(Vec::new(alloc))
        }
    }
}

/// Appends what the types of the captures of a closure demand, with the external regions replaced by those of the closure.
fn push_closure_pairs(
    alloc: Global,
    pairs: &mut Vec<Constraint>,
    typed: &Typed,
    closure: &ClosureInstance,
) -> Result<(), AllocError>
    ensures { OnOk result (pairs.new.items ≡ pairs.old.items ++ closure_pairs typed.now closure.now) }
{
    match typed.child(closure.number) {
        Some(header) => {
            let given = arguments(alloc, header, closure.regions.as_slice(), &[])?;
            let captures = header.captures.as_slice();
            typed
                .types()
                .push_replaced_well_formed(alloc, pairs, &given, captures)
        }
        None => Ok(()),
    }
}

/// Appends what a well-formed type demands.
pub(crate) fn push_type_pairs(
    alloc: Global,
    pairs: &mut Vec<Constraint>,
    typed: &Typed,
    ty: &Ty,
) -> Result<(), AllocError>
    ensures { OnOk result (pairs.new.items ≡ pairs.old.items ++ type_pairs typed.now ty.now) }
{
    typed.types().push_well_formed(pairs, ty)?;
    match closure_behind(ty.references.as_slice(), &ty.base) {
        Some(closure) => push_closure_pairs(alloc, pairs, typed, closure),
        None => Ok(()),
    }
}
