//! The typing rules, over the language of the rustc-dev-guide, "The MIR".
ghost use Rattle.std.specs.Prelude.{◌≡◌, Some};
ghost use Rattle.std.specs.List.{list_all};
ghost use Rattle.std.specs.Option.{option_copied};
ghost use Rattle.bc_bodies.specs.PlaceTypes.{type_of_place as place_there};
ghost use Rattle.bc_mir.specs.Rules.{has_shape as shape_found, is_int_found as int_found, type_of_operand as operand_there, is_operand_int as int_operand, have_shapes as shapes_found, type_to_write as written_there, can_create as creatable, can_capture as capturable, type_of_rvalue as rvalue_there, of_one_shape, can_drop as droppable, statement_keeps_rules as statement_kept, can_call as callable, number_in as number_there, child_in as child_there, can_invoke as invocable, terminator_keeps_rules as terminator_kept, header_keeps_rules as header_kept};

use crate::place_shapes::{shape_of_place, shape_to_borrow, shape_to_write};
use bc_bodies::{Draft, are_known, has_no_deref, takes_externals, takes_locals};
use bc_shapes::Shape;
use bc_syntax::{
    Aggregate, Assignment, Borrow, Call, Condition, Creation, ExternDeclaration, Header,
    Invocation, Operand, Place, Rvalue, Statement, Terminator, Ty,
};
use bc_types::takes_regions;

/// Returns whether a place has the expected shape.
fn place_has_shape(draft: &Draft, place: &Place, expected: &Shape<'_>) -> bool
    ensures { result ≡ shape_found expected.now (place_there draft.now place.now) }
{
    match shape_of_place(draft, place) {
        Some(shape) => shape.is_like(expected),
        None => false,
    }
}

/// Returns whether a place has the type `int`.
fn is_place_int(draft: &Draft, place: &Place) -> bool
    ensures { result ≡ int_found (place_there draft.now place.now) }
{
    match shape_of_place(draft, place) {
        Some(shape) => shape.is_int(),
        None => false,
    }
}

fn is_operand_int(draft: &Draft, operand: &Operand) -> bool
    ensures { result ≡ int_operand draft.now operand.now }
{
    match operand {
        Operand::Copy(place) => is_place_int(draft, place),
        Operand::Move(place) => has_no_deref(place) && is_place_int(draft, place),
        Operand::Number(_) => true,
    }
}

pub(crate) fn are_operands_int(draft: &Draft, operands: &[Operand]) -> bool
    ensures { result ≡ list_all (int_operand draft.now) operands.now }
{
    operands
        .iter()
        .all(|operand| is_operand_int(draft, operand))
}

/// Returns whether `copy` may take a place, and the place has the expected shape.
fn copy_has_shape(draft: &Draft, place: &Place, expected: &Shape<'_>) -> bool
    ensures { result ≡ shape_found expected.now (operand_there draft.now (Operand.Copy place.now)) }
{
    match shape_of_place(draft, place) {
        Some(shape) => shape.is_copyable() && shape.is_like(expected),
        None => false,
    }
}

/// Returns whether an operand breaks no rule and has the expected shape.
fn operand_has_shape(draft: &Draft, operand: &Operand, expected: &Shape<'_>) -> bool
    ensures { result ≡ shape_found expected.now (operand_there draft.now operand.now) }
{
    match operand {
        Operand::Copy(place) => copy_has_shape(draft, place, expected),
        Operand::Move(place) => { has_no_deref(place) && place_has_shape(draft, place, expected) }
        Operand::Number(_) => expected.is_int(),
    }
}

/// Returns whether an operand breaks no rule and has the shape of a type.
fn operand_has_shape_of(draft: &Draft, operand: &Operand, ty: &Ty) -> bool
    ensures { result ≡ shape_found ty.now (operand_there draft.now operand.now) }
{
    operand_has_shape(draft, operand, &Shape::of(ty))
}

/// Returns whether there are as many operands as expected types, and each has the shape of its type.
fn have_shapes(draft: &Draft, operands: &[Operand], expected: &[Ty]) -> bool
    ensures { result ≡ shapes_found draft.now operands.now expected.now }
{
    match operands {
        [] => match expected {
            [] => true,
            [_, ..] => false,
        },
        [operand, more @ ..] => match expected {
            [] => false,
            [ty, rest @ ..] => {
                operand_has_shape_of(draft, operand, ty) && have_shapes(draft, more, rest)
            }
        },
    }
}

/// Returns whether a struct may be made: it is declared with this number of regions, and the operands fit its fields.
pub(crate) fn can_create(draft: &Draft, aggregate: &Aggregate) -> bool
    ensures { result ≡ creatable draft.now aggregate.now }
{
    match draft.types().struct_of(&aggregate.instance.name) {
        Some(declaration) => {
            let operands = aggregate.operands.as_slice();
            takes_regions(&aggregate.instance, declaration)
                && have_shapes(draft, operands, declaration.fields.as_slice())
        }
        None => false,
    }
}

/// Returns whether a closure may be made: it is a child, and the regions and operands fit its external regions and captures.
pub(crate) fn can_capture(draft: &Draft, creation: &Creation) -> bool
    ensures { result ≡ capturable draft.now creation.now }
{
    match draft.child(creation.closure.number) {
        Some(header) => {
            let operands = creation.operands.as_slice();
            takes_externals(&creation.closure, header)
                && have_shapes(draft, operands, header.captures.as_slice())
        }
        None => false,
    }
}

/// Returns whether a borrow breaks no rule and has the shape of a target.
fn takes_borrow(draft: &Draft, target: &Shape<'_>, borrow: &Borrow) -> bool
    ensures { result ≡ shape_found target.now (rvalue_there draft.now (Rvalue.Borrow borrow.now)) }
{
    let reference = borrow.reference;
    match shape_to_borrow(draft, reference.mutability, &borrow.place) {
        Some(pointee) => target.is_reference(reference, &pointee),
        None => false,
    }
}

/// Returns whether an rvalue breaks no rule and has the shape of a target.
fn takes_value(draft: &Draft, target: &Shape<'_>, value: &Rvalue) -> bool
    ensures { result ≡ shape_found target.now (rvalue_there draft.now value.now) }
{
    match value {
        Rvalue::Use(operand) => operand_has_shape(draft, operand, target),
        Rvalue::Borrow(borrow) => takes_borrow(draft, target, borrow),
        Rvalue::Aggregate(aggregate) => {
            target.is_struct(&aggregate.get().instance) && can_create(draft, aggregate.get())
        }
        Rvalue::Closure(creation) => {
            target.is_closure(&creation.get().closure) && can_capture(draft, creation.get())
        }
        Rvalue::Calc(operands) => {
            target.is_int() && are_operands_int(draft, operands.as_slice())
        }
    }
}

fn assignment_keeps_rules(draft: &Draft, assignment: &Assignment) -> bool
    ensures { result ≡ statement_kept draft.now (Statement.Assign assignment.now) }
{
    match shape_to_write(draft, &assignment.target) {
        Some(target) => takes_value(draft, &target, &assignment.value),
        None => false,
    }
}

fn can_drop(draft: &Draft, place: &Place) -> bool
    ensures { result ≡ droppable draft.now place.now }
{
    has_no_deref(place) && shape_of_place(draft, place).is_some()
}

/// Returns whether a statement keeps the typing rules.
pub(crate) fn statement_keeps_rules(draft: &Draft, statement: &Statement) -> bool
    ensures { result ≡ statement_kept draft.now statement.now }
{
    match statement {
        Statement::Assign(assignment) => assignment_keeps_rules(draft, assignment),
        Statement::Dead(local) => usize::from(*local) < draft.locals().len(),
        Statement::Drop(place) => can_drop(draft, place),
        Statement::Nop => true,
    }
}

/// Returns whether a place may be written and has the shape of a function's result.
fn takes_result(draft: &Draft, destination: &Place, returned: &Ty) -> bool
    ensures { result ≡ of_one_shape (written_there draft.now destination.now) (Some returned.now) }
{
    match shape_to_write(draft, destination) {
        Some(target) => Shape::of(returned).is_like(&target),
        None => false,
    }
}

fn can_call(draft: &Draft, call: &Call, declaration: &ExternDeclaration) -> bool
    ensures { result ≡ callable draft.now call.now declaration.now }
{
    let signature = &declaration.signature;
    let operands = call.operands.as_slice();
    signature.regions.len() == call.function.regions.as_slice().len()
        && have_shapes(draft, operands, signature.parameters.as_slice())
        && takes_result(draft, &call.destination, &signature.result)
}

fn condition_keeps_rules(draft: &Draft, condition: &Condition) -> bool
    ensures { result ≡ terminator_kept draft.now (Terminator.If condition.now) }
{
    is_operand_int(draft, &condition.operand)
        && draft.has_block(condition.then)
        && draft.has_block(condition.otherwise)
}

fn call_keeps_rules(draft: &Draft, call: &Call) -> bool
    ensures { result ≡ terminator_kept draft.now (Terminator.Call call.now) }
{
    if !draft.has_block(call.target) {
        return false;
    }
    match draft.types().extern_of(&call.function.name) {
        Some(declaration) => can_call(draft, call, declaration),
        None => false,
    }
}

/// Returns the number of the closure in a place that may be invoked.
fn number_in(draft: &Draft, place: &Place) -> Option<u8>
    ensures { result ≡ number_there draft.now place.now }
{
    if !has_no_deref(place) {
        return None;
    }
    match shape_of_place(draft, place) {
        Some(shape) => shape.closure(),
        None => None,
    }
}

/// Returns the header of the child whose closure is in a place.
fn child_in<'a>(draft: &'a Draft, place: &Place) -> Option<&'a Header>
    ensures { option_copied result ≡ child_there draft.now place.now }
{
    match number_in(draft, place) {
        Some(number) => draft.child(number),
        None => None,
    }
}

fn can_invoke(draft: &Draft, invocation: &Invocation, header: &Header) -> bool
    ensures { result ≡ invocable draft.now invocation.now header.now }
{
    let signature = &header.signature;
    let operands = invocation.operands.as_slice();
    takes_locals(invocation.regions.as_slice(), header)
        && have_shapes(draft, operands, signature.parameters.as_slice())
        && takes_result(draft, &invocation.destination, &signature.result)
}

fn invocation_keeps_rules(draft: &Draft, invocation: &Invocation) -> bool
    ensures { result ≡ terminator_kept draft.now (Terminator.Invoke invocation.now) }
{
    if !draft.has_block(invocation.target) {
        return false;
    }
    match child_in(draft, &invocation.closure) {
        Some(header) => can_invoke(draft, invocation, header),
        None => false,
    }
}

/// Returns whether a terminator keeps the typing rules.
pub(crate) fn terminator_keeps_rules(draft: &Draft, terminator: &Terminator) -> bool
    ensures { result ≡ terminator_kept draft.now terminator.now }
{
    match terminator {
        Terminator::Goto(label) => draft.has_block(*label),
        Terminator::If(condition) => condition_keeps_rules(draft, condition),
        Terminator::Call(call) => call_keeps_rules(draft, call.get()),
        Terminator::Invoke(invocation) => invocation_keeps_rules(draft, invocation.get()),
        Terminator::Return => true,
        Terminator::Stop => true,
    }
}

/// Returns whether each struct in the types of the locals is declared with its number of regions, and each closure is a child and has as
/// many regions as the child has external ones.
pub(crate) fn header_keeps_rules(draft: &Draft) -> bool
    ensures { result ≡ header_kept draft.now }
{
    let locals = draft.locals();
    draft.types().declares(locals) && are_known(draft.children(), locals)
}
