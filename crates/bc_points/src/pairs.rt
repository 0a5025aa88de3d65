//! What points demand of regions, apart from reborrows.
ghost use Rattle.std.specs.Prelude.{◌≡◌, ◌++◌, ◌∷◌, [], Some, map, OnOk};
ghost use Rattle.bc_shapes.specs.Forms.{type_referenced};
ghost use Rattle.bc_mir.specs.Rules.{type_of_operand as operand_type, type_of_rvalue as rvalue_type};
ghost use Rattle.bc_shapes.specs.Replaced.{replaced_ty};
ghost use Rattle.bc_bodies.specs.Children.{is_outer_clause as outer_clause};
ghost use Rattle.bc_points.specs.Pairs.{sub_found, sub_place, operand_pair, operand_pairs, parameter_pairs, replaced_clause, clauses_where, captured_pairs, field_pairs, assignment_pairs, called_pairs, call_pairs, is_inner_clause, passed_pairs, invoked_pairs, invocation_pairs};

use bc_mir::{Typed, arguments, is_outer_clause};
use bc_shapes::{TyRef, replace_region, replace_ty};
use bc_syntax::{
    Assignment, Borrow, Call, ClosureInstance, Creation, ExternDeclaration, Header, Invocation,
    Operand, Outlives, Place, Reference, Region, Rvalue, Ty,
};
use bc_types::{Constraint, push_outlives, push_sub, push_sub_reference};
use std::alloc::{AllocError, Global};

/// Appends the constraints that make a type a subtype of that of a place.
fn push_sub_place(
    alloc: Global,
    constraints: &mut Vec<Constraint>,
    typed: &Typed,
    value: &TyRef<'_>,
    place: &Place,
) -> Result<(), AllocError>
    ensures { OnOk result (constraints.new.items ≡ constraints.old.items ++ sub_place typed.now (Some value.now) place.now) }
{
    match typed.lent_type_of_place(place) {
        Some(target) => push_sub(constraints, typed.types(), value, &target),
        None => match typed.place_type(alloc, place)? {
            Some(target) => push_sub(constraints, typed.types(), value, &TyRef::of(&target)),
            None => Ok(()),
        },
    }
}

/// Appends the constraints that make the type of a reference a subtype of that of a place, if the place has one.
fn push_sub_place_reference(
    alloc: Global,
    constraints: &mut Vec<Constraint>,
    typed: &Typed,
    reference: Reference,
    pointee: &TyRef<'_>,
    place: &Place,
) -> Result<(), AllocError>
    ensures { OnOk result (constraints.new.items
        ≡ constraints.old.items ++ sub_place typed.now (Some (type_referenced reference pointee.now)) place.now) }
{
    match typed.lent_type_of_place(place) {
        Some(target) => push_sub_reference(constraints, typed.types(), reference, pointee, &target),
        None => match typed.place_type(alloc, place)? {
            Some(target) => {
                push_sub_reference(
                    constraints,
                    typed.types(),
                    reference,
                    pointee,
                    &TyRef::of(&target),
                )
            }
            None => Ok(()),
        },
    }
}

/// Appends the constraints that make a type, if there is one, a subtype of that of a place, if the place has one.
fn push_sub_place_found(
    alloc: Global,
    constraints: &mut Vec<Constraint>,
    typed: &Typed,
    value: &Option<Ty>,
    place: &Place,
) -> Result<(), AllocError>
    ensures { OnOk result (constraints.new.items ≡ constraints.old.items ++ sub_place typed.now value.now place.now) }
{
    match value {
        Some(ty) => push_sub_place(alloc, constraints, typed, &TyRef::of(ty), place),
        None => Ok(()),
    }
}

/// Appends the constraints that make the type of an operand a subtype of that of a place, if both have one.
fn push_sub_place_operand(
    alloc: Global,
    constraints: &mut Vec<Constraint>,
    typed: &Typed,
    operand: &Operand,
    place: &Place,
) -> Result<(), AllocError>
    ensures { OnOk result (constraints.new.items
        ≡ constraints.old.items ++ sub_place typed.now (operand_type typed.now operand.now) place.now) }
{
    match typed.lent_type_of_operand(operand) {
        Some(value) => push_sub_place(alloc, constraints, typed, &value, place),
        None => {
            let value = typed.type_of_operand(alloc, operand)?;
            push_sub_place_found(alloc, constraints, typed, &value, place)
        }
    }
}

/// Appends the constraints that make the type of a borrow a subtype of that of a place, if both have one.
fn push_sub_place_borrow(
    alloc: Global,
    constraints: &mut Vec<Constraint>,
    typed: &Typed,
    borrow: &Borrow,
    place: &Place,
) -> Result<(), AllocError>
    ensures { OnOk result (constraints.new.items
        ≡ constraints.old.items ++ sub_place typed.now (rvalue_type typed.now (Rvalue.Borrow borrow.now)) place.now) }
{
    let reference = borrow.reference;
    match typed.lent_type_to_borrow(borrow) {
        Some(pointee) => push_sub_place_reference(
            alloc,
            constraints,
            typed,
            reference,
            &pointee,
            place,
        ),
        None => {
            let value = typed.type_of_borrow(alloc, borrow)?;
            push_sub_place_found(alloc, constraints, typed, &value, place)
        }
    }
}

/// Appends the constraints that make the type of an rvalue a subtype of that of a place, if both have one.
fn push_sub_place_rvalue(
    alloc: Global,
    constraints: &mut Vec<Constraint>,
    typed: &Typed,
    rvalue: &Rvalue,
    place: &Place,
) -> Result<(), AllocError>
    ensures { OnOk result (constraints.new.items
        ≡ constraints.old.items ++ sub_place typed.now (rvalue_type typed.now rvalue.now) place.now) }
{
    match rvalue {
        Rvalue::Use(operand) => {
            push_sub_place_operand(alloc, constraints, typed, operand, place)
        }
        Rvalue::Borrow(borrow) => {
            push_sub_place_borrow(alloc, constraints, typed, borrow, place)
        }
        Rvalue::Aggregate(_) | Rvalue::Closure(_) | Rvalue::Calc(_) => {
            let value = typed.type_of_rvalue(alloc, rvalue)?;
            push_sub_place_found(alloc, constraints, typed, &value, place)
        }
    }
}

/// Appends the constraints that make an operand a subtype of a type.
fn push_sub_operand(
    alloc: Global,
    constraints: &mut Vec<Constraint>,
    typed: &Typed,
    operand: &Operand,
    target: &TyRef<'_>,
) -> Result<(), AllocError>
    ensures { OnOk result (constraints.new.items
        ≡ constraints.old.items ++ sub_found typed.now.types (operand_type typed.now operand.now) target.now) }
{
    match typed.lent_type_of_operand(operand) {
        Some(value) => push_sub(constraints, typed.types(), &value, target),
        None => match typed.type_of_operand(alloc, operand)? {
            Some(value) => push_sub(constraints, typed.types(), &TyRef::of(&value), target),
            None => Ok(()),
        },
    }
}

/// Appends the constraints that make an operand a subtype of the expected type, with the declared regions replaced by arguments.
fn push_operand_pair(
    alloc: Global,
    constraints: &mut Vec<Constraint>,
    typed: &Typed,
    arguments: &[Region],
    operand: &Operand,
    expected: &Ty,
) -> Result<(), AllocError>
    ensures { OnOk result (constraints.new.items
        ≡ constraints.old.items ++ operand_pair typed.now arguments.now operand.now expected.now) }
{
    let target = replace_ty(alloc, arguments, expected)?;
    push_sub_operand(alloc, constraints, typed, operand, &TyRef::of(&target))
}

fn push_operand_pairs(
    alloc: Global,
    constraints: &mut Vec<Constraint>,
    typed: &Typed,
    arguments: &[Region],
    operands: &[Operand],
    expected: &[Ty],
) -> Result<(), AllocError>
    ensures { OnOk result (constraints.new.items
        ≡ constraints.old.items ++ operand_pairs typed.now arguments.now operands.now expected.now) }
{
    match operands {
        [] => Ok(()),
        [operand, more @ ..] => match expected {
            [] => Ok(()),
            [ty, rest @ ..] => {
                push_operand_pair(alloc, constraints, typed, arguments, operand, ty)?;
                push_operand_pairs(alloc, constraints, typed, arguments, more, rest)
            }
        },
    }
}

fn push_clause(
    constraints: &mut Vec<Constraint>,
    arguments: &[Region],
    clause: Outlives,
) -> Result<(), AllocError>
    ensures { OnOk result (constraints.new.items ≡ constraints.old.items ++ replaced_clause arguments.now clause ∷ []) }
{
    let longer = replace_region(arguments, Region::Universal(clause.longer));
    let shorter = replace_region(arguments, Region::Universal(clause.shorter));
    push_outlives(constraints, longer, shorter)
}

/// Appends clauses of a function or a closure, or what a closure requires, with the declared regions replaced by arguments. (RFC 2094,
/// "Subtyping"; rustc-dev-guide, "Propagating closure constraints".)
pub fn push_clauses(
    constraints: &mut Vec<Constraint>,
    arguments: &[Region],
    clauses: &[Outlives],
) -> Result<(), AllocError>
    ensures { OnOk result (constraints.new.items ≡ constraints.old.items ++ map (replaced_clause arguments.now) clauses.now) }
{
    for clause in clauses {
        push_clause(constraints, arguments, *clause)?;
    }
    Ok(())
}

/// Appends the clauses of a child that the creation of its closure demands.
fn push_outer_clauses(
    constraints: &mut Vec<Constraint>,
    captures: &[Ty],
    arguments: &[Region],
    clauses: &[Outlives],
) -> Result<(), AllocError>
    ensures { OnOk result (constraints.new.items
        ≡ constraints.old.items ++ clauses_where (outer_clause captures.now) arguments.now clauses.now) }
{
    for clause in clauses {
        if is_outer_clause(captures, *clause) {
            push_clause(constraints, arguments, *clause)?;
        }
    }
    Ok(())
}

/// Appends the clauses of a child that only its invocations demand.
fn push_inner_clauses(
    constraints: &mut Vec<Constraint>,
    header: &Header,
    arguments: &[Region],
    clauses: &[Outlives],
) -> Result<(), AllocError>
    ensures { OnOk result (constraints.new.items
        ≡ constraints.old.items ++ clauses_where (is_inner_clause header.now) arguments.now clauses.now) }
{
    for clause in clauses {
        if !is_outer_clause(header.captures.as_slice(), *clause) {
            push_clause(constraints, arguments, *clause)?;
        }
    }
    Ok(())
}

fn push_captured_pairs(
    alloc: Global,
    constraints: &mut Vec<Constraint>,
    typed: &Typed,
    creation: &Creation,
    header: &Header,
) -> Result<(), AllocError>
    ensures { OnOk result (constraints.new.items ≡ constraints.old.items ++ captured_pairs typed.now creation.now header.now) }
{
    let given = arguments(alloc, header, creation.closure.regions.as_slice(), &[])?;
    let captures = header.captures.as_slice();
    let operands = creation.operands.as_slice();
    push_operand_pairs(alloc, constraints, typed, &given, operands, captures)?;
    push_outer_clauses(
        constraints,
        captures,
        &given,
        header.signature.clauses.as_slice(),
    )
}

fn push_field_pairs(
    alloc: Global,
    constraints: &mut Vec<Constraint>,
    typed: &Typed,
    rvalue: &Rvalue,
) -> Result<(), AllocError>
    ensures { OnOk result (constraints.new.items ≡ constraints.old.items ++ field_pairs typed.now rvalue.now) }
{
    match rvalue {
        Rvalue::Use(_) | Rvalue::Borrow(_) | Rvalue::Calc(_) => Ok(()),
        Rvalue::Closure(creation) => {
            let creation = creation.get();
            match typed.child(creation.closure.number) {
                Some(header) => push_captured_pairs(alloc, constraints, typed, creation, header),
                None => Ok(()),
            }
        }
        Rvalue::Aggregate(aggregate) => {
            let aggregate = aggregate.get();
            match typed.types().struct_of(&aggregate.instance.name) {
                Some(declaration) => push_operand_pairs(
                    alloc,
                    constraints,
                    typed,
                    aggregate.instance.regions.as_slice(),
                    aggregate.operands.as_slice(),
                    declaration.fields.as_slice(),
                ),
                None => Ok(()),
            }
        }
    }
}

/// Appends what an assignment demands, apart from reborrows. The operands of a new struct are subtypes of its fields. The operands of a new
/// closure are subtypes of its captures, and the clauses hold that a creation demands. The value is a subtype of the target. (RFC 2094,
/// "Subtyping"; the clauses: rustc-dev-guide, "Propagating closure constraints".)
pub fn push_assignment_pairs(
    alloc: Global,
    constraints: &mut Vec<Constraint>,
    typed: &Typed,
    assignment: &Assignment,
) -> Result<(), AllocError>
    ensures { OnOk result (constraints.new.items ≡ constraints.old.items ++ assignment_pairs typed.now assignment.now) }
{
    push_field_pairs(alloc, constraints, typed, &assignment.value)?;
    push_sub_place_rvalue(
        alloc,
        constraints,
        typed,
        &assignment.value,
        &assignment.target,
    )
}

/// Appends the constraints that make a result, with the declared regions replaced by arguments, a subtype of the type of a place.
fn push_returned_pairs(
    alloc: Global,
    constraints: &mut Vec<Constraint>,
    typed: &Typed,
    arguments: &[Region],
    declared: &Ty,
    place: &Place,
) -> Result<(), AllocError>
    ensures { OnOk result (constraints.new.items
        ≡ constraints.old.items ++ sub_place typed.now (Some (replaced_ty arguments.now declared.now)) place.now) }
{
    let returned = replace_ty(alloc, arguments, declared)?;
    push_sub_place(alloc, constraints, typed, &TyRef::of(&returned), place)
}

/// Appends the constraints that make operands subtypes of parameters, and what the parameters' types demand, with the declared regions
/// replaced by arguments.
fn push_parameter_pairs(
    alloc: Global,
    constraints: &mut Vec<Constraint>,
    typed: &Typed,
    arguments: &[Region],
    operands: &[Operand],
    parameters: &[Ty],
) -> Result<(), AllocError>
    ensures { OnOk result (constraints.new.items
        ≡ constraints.old.items ++ parameter_pairs typed.now arguments.now operands.now parameters.now) }
{
    push_operand_pairs(alloc, constraints, typed, arguments, operands, parameters)?;
    typed
        .types()
        .push_replaced_well_formed(alloc, constraints, arguments, parameters)
}

fn push_called_pairs(
    alloc: Global,
    constraints: &mut Vec<Constraint>,
    typed: &Typed,
    call: &Call,
    declaration: &ExternDeclaration,
) -> Result<(), AllocError>
    ensures { OnOk result (constraints.new.items ≡ constraints.old.items ++ called_pairs typed.now call.now declaration.now) }
{
    let arguments = call.function.regions.as_slice();
    let signature = &declaration.signature;
    let operands = call.operands.as_slice();
    let parameters = signature.parameters.as_slice();
    push_parameter_pairs(alloc, constraints, typed, arguments, operands, parameters)?;
    push_clauses(constraints, arguments, signature.clauses.as_slice())?;
    push_returned_pairs(
        alloc,
        constraints,
        typed,
        arguments,
        &signature.result,
        &call.destination,
    )
}

/// Appends what a call demands: the operands are subtypes of the parameters, the parameters' types are well-formed, the clauses of the
/// function hold, and the result is a subtype of the destination. (RFC 2094, "Subtyping"; RFC 1214.)
pub fn push_call_pairs(
    alloc: Global,
    constraints: &mut Vec<Constraint>,
    typed: &Typed,
    call: &Call,
) -> Result<(), AllocError>
    ensures { OnOk result (constraints.new.items ≡ constraints.old.items ++ call_pairs typed.now call.now) }
{
    match typed.types().extern_of(&call.function.name) {
        Some(declaration) => { push_called_pairs(alloc, constraints, typed, call, declaration) }
        None => Ok(()),
    }
}

/// Appends what an invocation of a child demands, with the child's regions replaced by arguments.
fn push_passed_pairs(
    alloc: Global,
    constraints: &mut Vec<Constraint>,
    typed: &Typed,
    arguments: &[Region],
    invocation: &Invocation,
    header: &Header,
) -> Result<(), AllocError>
    ensures { OnOk result (constraints.new.items
        ≡ constraints.old.items ++ passed_pairs typed.now arguments.now invocation.now header.now) }
{
    let signature = &header.signature;
    let operands = invocation.operands.as_slice();
    let expected = signature.parameters.as_slice();
    push_parameter_pairs(alloc, constraints, typed, arguments, operands, expected)?;
    push_inner_clauses(constraints, header, arguments, signature.clauses.as_slice())?;
    push_returned_pairs(
        alloc,
        constraints,
        typed,
        arguments,
        &signature.result,
        &invocation.destination,
    )
}

fn push_invoked_pairs(
    alloc: Global,
    constraints: &mut Vec<Constraint>,
    typed: &Typed,
    invocation: &Invocation,
    closure: &ClosureInstance,
) -> Result<(), AllocError>
    ensures { OnOk result (constraints.new.items ≡ constraints.old.items ++ invoked_pairs typed.now invocation.now closure.now) }
{
    match typed.child(closure.number) {
        Some(header) => {
            let external = closure.regions.as_slice();
            let given = arguments(alloc, header, external, invocation.regions.as_slice())?;
            push_passed_pairs(alloc, constraints, typed, &given, invocation, header)
        }
        None => Ok(()),
    }
}

/// Appends what an invocation demands: the operands are subtypes of the parameters, the parameters' types are well-formed, the clauses of
/// the closure that its creation does not demand hold, and the result is a subtype of the destination. (RFC 2094, "Subtyping"; RFC 1214;
/// rustc-dev-guide, "Propagating closure constraints".)
pub fn push_invocation_pairs(
    alloc: Global,
    constraints: &mut Vec<Constraint>,
    typed: &Typed,
    invocation: &Invocation,
) -> Result<(), AllocError>
    ensures { OnOk result (constraints.new.items ≡ constraints.old.items ++ invocation_pairs typed.now invocation.now) }
{
    match typed.closure_in(alloc, &invocation.closure)? {
        Some(closure) => push_invoked_pairs(alloc, constraints, typed, invocation, &closure),
        None => Ok(()),
    }
}
