//! The typing rules of values, statements and terminators.
ghost use Rattle.std.specs.Prelude.{◌≡◌, Some, false, option_and_then, is_some, IfOk};
ghost use Rattle.std.specs.Option.{option_copied, option_map_or};
ghost use Rattle.bc_shapes.specs.Forms.{closure_of};
ghost use Rattle.bc_bodies.specs.PlaceTypes.{type_of_place as place_there};
ghost use Rattle.bc_mir.specs.Rules.{of_one_shape};
ghost use Rattle.bc_breaches.specs.Typing.{is_no_closure as no_closure, child_found, reached_breach as breach_of_reached, borrow_breach as breach_of_borrow, value_breach as breach_of_value, value_fits as fitting_value, assignment_breach as breach_of_assignment, dropped_breach as breach_of_dropped, statement_breach as breach_of_statement, result_breach as breach_of_result, called_breach as breach_of_called, invoked_breach as breach_of_invoked, passed_breach as breach_of_passed, label_breach as breach_of_label, terminator_breach as breach_of_terminator, point_breach as breach_of_point};

use crate::operands::{
    int_breach, ints_breach, is_int, is_one_shape, operand_breach, operand_has_shape,
    operands_breach, place_breach, written_breach,
};
use crate::rule::{PointBreach, TypedPart, TypingRule, unless};
use bc_bodies::{Draft, Instruction, has_no_deref, takes_externals, takes_locals, type_of_place};
use bc_shapes::{Shape, closure_behind};
use bc_syntax::{
    Aggregate, Assignment, Borrow, Call, Condition, Creation, ExternDeclaration, Header,
    Invocation, Mutability, Place, Rvalue, Statement, Terminator, Ty,
};
use bc_types::takes_regions;
use std::alloc::{AllocError, Global};

fn is_no_closure(found: &Option<Ty>) -> bool
    ensures { result ≡ no_closure found.now }
{
    match found {
        Some(ty) => closure_behind(ty.references.as_slice(), &ty.base).is_none(),
        None => false,
    }
}

fn reached_breach(
    alloc: Global,
    draft: &Draft,
    mutability: Mutability,
    place: &Place,
) -> Result<Option<PointBreach>, AllocError>
    ensures { IfOk result (λ found. found ≡ breach_of_reached draft.now mutability place.now) }
{
    match mutability {
        Mutability::Shared => place_breach(alloc, draft, TypedPart::Borrowed, place),
        Mutability::Mutable => written_breach(alloc, draft, TypedPart::Borrowed, place),
    }
}

fn borrow_breach(
    alloc: Global,
    draft: &Draft,
    borrow: &Borrow,
) -> Result<Option<PointBreach>, AllocError>
    ensures { IfOk result (λ found. found ≡ breach_of_borrow draft.now borrow.now) }
{
    match reached_breach(alloc, draft, borrow.reference.mutability, &borrow.place)? {
        Some(breach) => Ok(Some(breach)),
        None => {
            let ty = type_of_place(alloc, draft, &borrow.place)?;
            let holds = is_no_closure(&ty);
            Ok(unless(holds, TypedPart::Borrowed, TypingRule::IsNoClosure))
        }
    }
}

fn aggregate_breach(
    alloc: Global,
    draft: &Draft,
    aggregate: &Aggregate,
) -> Result<Option<PointBreach>, AllocError>
    ensures { IfOk result (λ found. found ≡ breach_of_value draft.now (Rvalue.Aggregate aggregate.now)) }
{
    match draft.types().struct_of(&aggregate.instance.name) {
        None => Ok(unless(false, TypedPart::Named, TypingRule::IsDeclared)),
        Some(declaration) => {
            let holds = takes_regions(&aggregate.instance, declaration);
            match unless(holds, TypedPart::Named, TypingRule::HasRegionCount) {
                Some(breach) => Ok(Some(breach)),
                None => {
                    let fields = declaration.fields.as_slice();
                    operands_breach(alloc, draft, 0, aggregate.operands.as_slice(), fields)
                }
            }
        }
    }
}

fn creation_breach(
    alloc: Global,
    draft: &Draft,
    creation: &Creation,
) -> Result<Option<PointBreach>, AllocError>
    ensures { IfOk result (λ found. found ≡ breach_of_value draft.now (Rvalue.Closure creation.now)) }
{
    match draft.child(creation.closure.number) {
        None => Ok(unless(false, TypedPart::Named, TypingRule::IsDeclared)),
        Some(header) => {
            let holds = takes_externals(&creation.closure, header);
            match unless(holds, TypedPart::Named, TypingRule::HasRegionCount) {
                Some(breach) => Ok(Some(breach)),
                None => {
                    let captures = header.captures.as_slice();
                    operands_breach(alloc, draft, 0, creation.operands.as_slice(), captures)
                }
            }
        }
    }
}

/// Returns the breach of an rvalue by itself.
fn value_breach(
    alloc: Global,
    draft: &Draft,
    value: &Rvalue,
) -> Result<Option<PointBreach>, AllocError>
    ensures { IfOk result (λ found. found ≡ breach_of_value draft.now value.now) }
{
    match value {
        Rvalue::Use(operand) => operand_breach(alloc, draft, 0, operand),
        Rvalue::Borrow(borrow) => borrow_breach(alloc, draft, borrow),
        Rvalue::Aggregate(aggregate) => aggregate_breach(alloc, draft, aggregate.get()),
        Rvalue::Closure(creation) => creation_breach(alloc, draft, creation.get()),
        Rvalue::Calc(operands) => ints_breach(alloc, draft, 0, operands.as_slice()),
    }
}

/// Returns whether a borrow has the shape of a target, if it breaks no rule by itself.
fn borrow_fits(
    alloc: Global,
    draft: &Draft,
    target: &Ty,
    borrow: &Borrow,
) -> Result<bool, AllocError>
    ensures { IfOk result (λ holds. holds ≡ fitting_value draft.now target.now (Rvalue.Borrow borrow.now)) }
{
    match type_of_place(alloc, draft, &borrow.place)? {
        Some(ty) => Ok(Shape::of(target).is_reference(borrow.reference, &Shape::of(&ty))),
        None => Ok(false),
    }
}

/// Returns whether an rvalue has the shape of a target, if it breaks no rule by itself.
fn value_fits(alloc: Global, draft: &Draft, target: &Ty, value: &Rvalue) -> Result<bool, AllocError>
    ensures { IfOk result (λ holds. holds ≡ fitting_value draft.now target.now value.now) }
{
    match value {
        Rvalue::Use(operand) => operand_has_shape(alloc, draft, operand, target),
        Rvalue::Borrow(borrow) => borrow_fits(alloc, draft, target, borrow),
        Rvalue::Aggregate(aggregate) => Ok(Shape::of(target).is_struct(&aggregate.get().instance)),
        Rvalue::Closure(creation) => Ok(Shape::of(target).is_closure(&creation.get().closure)),
        Rvalue::Calc(_) => Ok(is_int(target)),
    }
}

/// Returns whether an rvalue has the shape of a place, if it breaks no rule by itself.
fn value_fits_place(
    alloc: Global,
    draft: &Draft,
    place: &Place,
    value: &Rvalue,
) -> Result<bool, AllocError>
    ensures { IfOk result (λ holds. holds ≡ option_map_or (λ target. fitting_value draft.now target value.now) (place_there draft.now place.now) false) }
{
    match type_of_place(alloc, draft, place)? {
        Some(target) => value_fits(alloc, draft, &target, value),
        None => Ok(false),
    }
}

fn assignment_breach(
    alloc: Global,
    draft: &Draft,
    assignment: &Assignment,
) -> Result<Option<PointBreach>, AllocError>
    ensures { IfOk result (λ found. found ≡ breach_of_assignment draft.now assignment.now) }
{
    if let Some(breach) = written_breach(alloc, draft, TypedPart::Target, &assignment.target)? {
        return Ok(Some(breach));
    }
    if let Some(breach) = value_breach(alloc, draft, &assignment.value)? {
        return Ok(Some(breach));
    }
    let holds = value_fits_place(alloc, draft, &assignment.target, &assignment.value)?;
    Ok(unless(holds, TypedPart::Target, TypingRule::HasShape))
}

fn dropped_breach(
    alloc: Global,
    draft: &Draft,
    place: &Place,
) -> Result<Option<PointBreach>, AllocError>
    ensures { IfOk result (λ found. found ≡ breach_of_dropped draft.now place.now) }
{
    match unless(
        has_no_deref(place),
        TypedPart::Dropped,
        TypingRule::HasNoDereference,
    ) {
        Some(breach) => Ok(Some(breach)),
        None => place_breach(alloc, draft, TypedPart::Dropped, place),
    }
}

fn statement_breach(
    alloc: Global,
    draft: &Draft,
    statement: &Statement,
) -> Result<Option<PointBreach>, AllocError>
    ensures { IfOk result (λ found. found ≡ breach_of_statement draft.now statement.now) }
{
    match statement {
        Statement::Assign(assignment) => assignment_breach(alloc, draft, assignment),
        Statement::Dead(local) => {
            let holds = usize::from(*local) < draft.locals().len();
            Ok(unless(holds, TypedPart::Target, TypingRule::HasType))
        }
        Statement::Drop(place) => dropped_breach(alloc, draft, place),
        Statement::Nop => Ok(None),
    }
}

/// Returns whether a place has the shape of a result.
fn takes_result(
    alloc: Global,
    draft: &Draft,
    destination: &Place,
    returned: &Ty,
) -> Result<bool, AllocError>
    ensures { IfOk result (λ holds. holds ≡ of_one_shape (place_there draft.now destination.now) (Some returned.now)) }
{
    match type_of_place(alloc, draft, destination)? {
        Some(target) => Ok(is_one_shape(returned, &target)),
        None => Ok(false),
    }
}

fn result_breach(
    alloc: Global,
    draft: &Draft,
    destination: &Place,
    returned: &Ty,
) -> Result<Option<PointBreach>, AllocError>
    ensures { IfOk result (λ found. found ≡ breach_of_result draft.now destination.now returned.now) }
{
    match written_breach(alloc, draft, TypedPart::Target, destination)? {
        Some(breach) => Ok(Some(breach)),
        None => {
            let holds = takes_result(alloc, draft, destination, returned)?;
            Ok(unless(holds, TypedPart::Target, TypingRule::HasShape))
        }
    }
}

fn called_breach(
    alloc: Global,
    draft: &Draft,
    call: &Call,
    declaration: &ExternDeclaration,
) -> Result<Option<PointBreach>, AllocError>
    ensures { IfOk result (λ found. found ≡ breach_of_called draft.now call.now (Some declaration.now)) }
{
    let signature = &declaration.signature;
    let holds = signature.regions.len() == call.function.regions.as_slice().len();
    if let Some(breach) = unless(holds, TypedPart::Named, TypingRule::HasRegionCount) {
        return Ok(Some(breach));
    }
    let parameters = signature.parameters.as_slice();
    match operands_breach(alloc, draft, 0, call.operands.as_slice(), parameters)? {
        Some(breach) => Ok(Some(breach)),
        None => result_breach(alloc, draft, &call.destination, &signature.result),
    }
}

fn label_breach(draft: &Draft, label: u8) -> Option<PointBreach>
    ensures { result ≡ breach_of_label draft.now label }
{
    unless(
        draft.has_block(label),
        TypedPart::Label,
        TypingRule::IsBlock,
    )
}

fn call_breach(alloc: Global, draft: &Draft, call: &Call) -> Result<Option<PointBreach>, AllocError>
    ensures { IfOk result (λ found. found ≡ breach_of_terminator draft.now (Terminator.Call call.now)) }
{
    match label_breach(draft, call.target) {
        Some(breach) => Ok(Some(breach)),
        None => match draft.types().extern_of(&call.function.name) {
            Some(declaration) => called_breach(alloc, draft, call, declaration),
            None => Ok(unless(false, TypedPart::Named, TypingRule::IsDeclared)),
        },
    }
}

fn condition_breach(
    alloc: Global,
    draft: &Draft,
    condition: &Condition,
) -> Result<Option<PointBreach>, AllocError>
    ensures { IfOk result (λ found. found ≡ breach_of_terminator draft.now (Terminator.If condition.now)) }
{
    match int_breach(alloc, draft, 0, &condition.operand)? {
        Some(breach) => Ok(Some(breach)),
        None => match label_breach(draft, condition.then) {
            Some(breach) => Ok(Some(breach)),
            None => Ok(label_breach(draft, condition.otherwise)),
        },
    }
}

/// Returns whether a type is a closure, if there is one.
fn is_closure(found: &Option<Ty>) -> bool
    ensures { result ≡ is_some (option_and_then closure_of found.now) }
{
    match found {
        Some(ty) => closure_behind(ty.references.as_slice(), &ty.base).is_some(),
        None => false,
    }
}

/// Returns the breach of the place that is invoked.
fn invoked_breach(
    alloc: Global,
    draft: &Draft,
    place: &Place,
) -> Result<Option<PointBreach>, AllocError>
    ensures { IfOk result (λ found. found ≡ breach_of_invoked draft.now place.now) }
{
    let part = TypedPart::Invoked;
    if let Some(breach) = unless(has_no_deref(place), part, TypingRule::HasNoDereference) {
        return Ok(Some(breach));
    }
    match place_breach(alloc, draft, part, place)? {
        Some(breach) => Ok(Some(breach)),
        None => {
            let ty = type_of_place(alloc, draft, place)?;
            Ok(unless(is_closure(&ty), part, TypingRule::IsClosure))
        }
    }
}

/// Returns the header of the child whose closure a type is, if there is one.
fn child_behind<'a>(draft: &'a Draft, found: &Option<Ty>) -> Option<&'a Header>
    ensures { option_copied result ≡ child_found draft.now found.now }
{
    match found {
        Some(ty) => match closure_behind(ty.references.as_slice(), &ty.base) {
            Some(closure) => draft.child(closure.number),
            None => None,
        },
        None => None,
    }
}

fn passed_breach(
    alloc: Global,
    draft: &Draft,
    invocation: &Invocation,
    header: &Header,
) -> Result<Option<PointBreach>, AllocError>
    ensures { IfOk result (λ found. found ≡ breach_of_passed draft.now invocation.now (Some header.now)) }
{
    let signature = &header.signature;
    let holds = takes_locals(invocation.regions.as_slice(), header);
    if let Some(breach) = unless(holds, TypedPart::Named, TypingRule::HasRegionCount) {
        return Ok(Some(breach));
    }
    let parameters = signature.parameters.as_slice();
    match operands_breach(alloc, draft, 0, invocation.operands.as_slice(), parameters)? {
        Some(breach) => Ok(Some(breach)),
        None => result_breach(alloc, draft, &invocation.destination, &signature.result),
    }
}

fn invocation_breach(
    alloc: Global,
    draft: &Draft,
    invocation: &Invocation,
) -> Result<Option<PointBreach>, AllocError>
    ensures { IfOk result (λ found. found ≡ breach_of_terminator draft.now (Terminator.Invoke invocation.now)) }
{
    if let Some(breach) = label_breach(draft, invocation.target) {
        return Ok(Some(breach));
    }
    if let Some(breach) = invoked_breach(alloc, draft, &invocation.closure)? {
        return Ok(Some(breach));
    }
    let ty = type_of_place(alloc, draft, &invocation.closure)?;
    match child_behind(draft, &ty) {
        Some(header) => passed_breach(alloc, draft, invocation, header),
        None => Ok(unless(false, TypedPart::Invoked, TypingRule::IsDeclared)),
    }
}

fn terminator_breach(
    alloc: Global,
    draft: &Draft,
    terminator: &Terminator,
) -> Result<Option<PointBreach>, AllocError>
    ensures { IfOk result (λ found. found ≡ breach_of_terminator draft.now terminator.now) }
{
    match terminator {
        Terminator::Goto(label) => Ok(label_breach(draft, *label)),
        Terminator::If(condition) => condition_breach(alloc, draft, condition),
        Terminator::Call(call) => call_breach(alloc, draft, call.get()),
        Terminator::Invoke(invocation) => invocation_breach(alloc, draft, invocation.get()),
        Terminator::Return => Ok(None),
        Terminator::Stop => Ok(None),
    }
}

/// Returns the first typing rule that a point breaks, given its instruction.
pub(crate) fn point_breach(
    alloc: Global,
    draft: &Draft,
    instruction: &Instruction,
) -> Result<Option<PointBreach>, AllocError>
    ensures { IfOk result (λ found. found ≡ breach_of_point draft.now instruction.now) }
{
    match instruction {
        Instruction::Statement(statement) => statement_breach(alloc, draft, statement),
        Instruction::Terminator(terminator) => terminator_breach(alloc, draft, terminator),
    }
}
