//! The demands of points, by their rules in order.
ghost use Rattle.std.specs.Prelude.{◌≡◌, ◌+◌, ◌^◌, ◌<◌, ◌++◌, Some, length, OnOk};
ghost use Rattle.bc_shapes.specs.Replaced.{replaced_ty};
ghost use Rattle.bc_mir.specs.Rules.{type_of_rvalue as rvalue_type};
ghost use Rattle.bc_points.specs.Pairs.{sub_place, operand_pair};
ghost use Rattle.bc_reasons.specs.Demands.{demands_at, operand_demands, captured_demands, field_demands, value_rule as rule_of_value, assignment_demands, parameter_demands, called_demands, call_demands, passed_demands, invoked_demands, invocation_demands, point_demands};

use crate::demand::{Demand, LinkReason, Rule, push_demands};
use crate::pairs::{
    clause_pairs, inner_pairs, operand_pairs, outer_pairs, place_pairs, reborrow_pairs,
    required_pairs, well_formed_pairs,
};
use bc_cons::Requirements;
use bc_mir::{Constraint, Instruction, Typed, arguments};
use bc_shapes::replace_ty;
use bc_syntax::{
    Assignment, Call, ClosureInstance, Creation, ExternDeclaration, Header, Invocation, Operand,
    Place, Region, Rvalue, Statement, Terminator, Ty,
};
use std::alloc::{AllocError, Global};

/// A point of a unit, by its number.
#[derive(Clone, Copy)]
pub(crate) struct Here<'a> {
    pub(crate) typed: &'a Typed,
    pub(crate) point: usize,
}

/// A point, with what the declared regions of what it makes or calls are replaced by.
#[derive(Clone, Copy)]
struct Passing<'a> {
    here: Here<'a>,
    arguments: &'a [Region],
}

/// Appends pairs as demands by a rule of a point.
fn push_rule(
    demands: &mut Vec<Demand>,
    here: Here<'_>,
    rule: Rule,
    pairs: &[Constraint],
) -> Result<(), AllocError>
    ensures { OnOk result (demands.new.items ≡ demands.old.items ++ demands_at here.entry.typed.now here.entry.point rule pairs.now) }
{
    let point = here.point;
    let reason = LinkReason::Point { point, rule };
    push_demands(demands, here.typed.universals(), reason, pairs)
}

/// Appends what makes an operand, given its number, a subtype of its expected type.
fn push_operand(
    alloc: Global,
    demands: &mut Vec<Demand>,
    passing: Passing<'_>,
    number: usize,
    operand: &Operand,
    expected: &Ty,
) -> Result<(), AllocError>
    ensures { OnOk result (demands.new.items
        ≡ demands.old.items ++ demands_at passing.entry.here.typed.now passing.entry.here.point (Rule.Argument number)
        (operand_pair passing.entry.here.typed.now passing.entry.arguments.now operand.now expected.now)) }
{
    let typed = passing.here.typed;
    let pairs = operand_pairs(alloc, typed, passing.arguments, operand, expected)?;
    push_rule(demands, passing.here, Rule::Argument(number), &pairs)
}

/// Appends what makes operands, the first of which has this number, subtypes of their expected types.
fn push_operands(
    alloc: Global,
    demands: &mut Vec<Demand>,
    passing: Passing<'_>,
    number: usize,
    operands: &[Operand],
    expected: &[Ty],
) -> Result<(), AllocError>
    requires { number + length operands.now < 2 ^ 64 }
    ensures { OnOk result (demands.new.items
        ≡ demands.old.items ++ operand_demands passing.entry.here.typed.now passing.entry.here.point passing.entry.arguments.now number
        operands.now expected.now) }
{
    match operands {
        [] => Ok(()),
        [operand, more @ ..] => match expected {
            [] => Ok(()),
            [ty, rest @ ..] => {
                push_operand(alloc, demands, passing, number, operand, ty)?;
                push_operands(alloc, demands, passing, number + 1, more, rest)
            }
        },
    }
}

/// Appends what the captures of a closure demand that is created.
fn push_captured(
    alloc: Global,
    demands: &mut Vec<Demand>,
    here: Here<'_>,
    creation: &Creation,
    header: &Header,
) -> Result<(), AllocError>
    ensures { OnOk result (demands.new.items
        ≡ demands.old.items ++ captured_demands here.entry.typed.now here.entry.point creation.now header.now) }
{
    let given = arguments(alloc, header, creation.closure.regions.as_slice(), &[])?;
    let captures = header.captures.as_slice();
    let passing = Passing {
        here,
        arguments: given.as_slice(),
    };
    push_operands(
        alloc,
        demands,
        passing,
        0,
        creation.operands.as_slice(),
        captures,
    )?;
    let clauses = header.signature.clauses.as_slice();
    let pairs = outer_pairs(alloc, captures, &given, clauses)?;
    push_rule(demands, here, Rule::Creation, &pairs)
}

/// Appends what the fields or captures of what an rvalue makes demand.
fn push_fields(
    alloc: Global,
    demands: &mut Vec<Demand>,
    here: Here<'_>,
    rvalue: &Rvalue,
) -> Result<(), AllocError>
    ensures { OnOk result (demands.new.items ≡ demands.old.items ++ field_demands here.entry.typed.now here.entry.point rvalue.now) }
{
    match rvalue {
        Rvalue::Use(_) | Rvalue::Borrow(_) | Rvalue::Calc(_) => Ok(()),
        Rvalue::Closure(creation) => {
            let creation = creation.get();
            match here.typed.child(creation.closure.number) {
                Some(header) => push_captured(alloc, demands, here, creation, header),
                None => Ok(()),
            }
        }
        Rvalue::Aggregate(aggregate) => {
            let aggregate = aggregate.get();
            let arguments = aggregate.instance.regions.as_slice();
            let passing = Passing { here, arguments };
            let operands = aggregate.operands.as_slice();
            match here.typed.types().struct_of(&aggregate.instance.name) {
                Some(declaration) => {
                    let fields = declaration.fields.as_slice();
                    push_operands(alloc, demands, passing, 0, operands, fields)
                }
                None => Ok(()),
            }
        }
    }
}

fn value_rule(rvalue: &Rvalue) -> Rule
    ensures { result ≡ rule_of_value rvalue.now }
{
    match rvalue {
        Rvalue::Borrow(_) => Rule::Borrow,
        Rvalue::Use(_) | Rvalue::Aggregate(_) | Rvalue::Closure(_) | Rvalue::Calc(_) => {
            Rule::Assignment
        }
    }
}

/// Appends what makes the value of an assignment a subtype of its target.
fn push_value(
    alloc: Global,
    demands: &mut Vec<Demand>,
    here: Here<'_>,
    assignment: &Assignment,
) -> Result<(), AllocError>
    ensures { OnOk result (demands.new.items
        ≡ demands.old.items ++ demands_at here.entry.typed.now here.entry.point (rule_of_value assignment.now.value)
        (sub_place here.entry.typed.now (rvalue_type here.entry.typed.now assignment.now.value) assignment.now.target)) }
{
    let value = here.typed.type_of_rvalue(alloc, &assignment.value)?;
    let pairs = place_pairs(alloc, here.typed, &value, &assignment.target)?;
    push_rule(demands, here, value_rule(&assignment.value), &pairs)
}

fn push_assignment(
    alloc: Global,
    demands: &mut Vec<Demand>,
    here: Here<'_>,
    kids: &[(u8, Requirements)],
    assignment: &Assignment,
) -> Result<(), AllocError>
    ensures { OnOk result (demands.new.items
        ≡ demands.old.items ++ assignment_demands here.entry.typed.now kids.now here.entry.point assignment.now) }
{
    let value = &assignment.value;
    push_fields(alloc, demands, here, value)?;
    push_value(alloc, demands, here, assignment)?;
    let required = required_pairs(alloc, here.typed, kids, value)?;
    push_rule(demands, here, Rule::Creation, &required)?;
    let reborrow = reborrow_pairs(alloc, here.typed, value)?;
    push_rule(demands, here, Rule::Reborrow, &reborrow)
}

/// Appends what the passing of operands for parameters demands.
fn push_parameters(
    alloc: Global,
    demands: &mut Vec<Demand>,
    passing: Passing<'_>,
    operands: &[Operand],
    parameters: &[Ty],
) -> Result<(), AllocError>
    ensures { OnOk result (demands.new.items
        ≡ demands.old.items ++ parameter_demands passing.entry.here.typed.now passing.entry.here.point passing.entry.arguments.now
        operands.now parameters.now) }
{
    push_operands(alloc, demands, passing, 0, operands, parameters)?;
    let pairs = well_formed_pairs(alloc, passing.here.typed, passing.arguments, parameters)?;
    push_rule(demands, passing.here, Rule::WellFormed, &pairs)
}

/// Appends what makes a result a subtype of its destination.
fn push_result(
    alloc: Global,
    demands: &mut Vec<Demand>,
    passing: Passing<'_>,
    declared: &Ty,
    destination: &Place,
) -> Result<(), AllocError>
    ensures { OnOk result (demands.new.items
        ≡ demands.old.items ++ demands_at passing.entry.here.typed.now passing.entry.here.point Rule.Result
        (sub_place passing.entry.here.typed.now (Some (replaced_ty passing.entry.arguments.now declared.now)) destination.now)) }
{
    let returned = Some(replace_ty(alloc, passing.arguments, declared)?);
    let pairs = place_pairs(alloc, passing.here.typed, &returned, destination)?;
    push_rule(demands, passing.here, Rule::Result, &pairs)
}

/// Appends what a call of a declared function demands.
fn push_called(
    alloc: Global,
    demands: &mut Vec<Demand>,
    passing: Passing<'_>,
    call: &Call,
    declaration: &ExternDeclaration,
) -> Result<(), AllocError>
    ensures { OnOk result (demands.new.items
        ≡ demands.old.items ++ called_demands passing.entry.here.typed.now passing.entry.here.point passing.entry.arguments.now call.now declaration.now) }
{
    let signature = &declaration.signature;
    let operands = call.operands.as_slice();
    push_parameters(
        alloc,
        demands,
        passing,
        operands,
        signature.parameters.as_slice(),
    )?;
    let clauses = clause_pairs(alloc, passing.arguments, signature.clauses.as_slice())?;
    push_rule(demands, passing.here, Rule::Clause, &clauses)?;
    push_result(
        alloc,
        demands,
        passing,
        &signature.result,
        &call.destination,
    )
}

fn push_call(
    alloc: Global,
    demands: &mut Vec<Demand>,
    here: Here<'_>,
    call: &Call,
) -> Result<(), AllocError>
    ensures { OnOk result (demands.new.items ≡ demands.old.items ++ call_demands here.entry.typed.now here.entry.point call.now) }
{
    match here.typed.types().extern_of(&call.function.name) {
        Some(declaration) => {
            let arguments = call.function.regions.as_slice();
            push_called(
                alloc,
                demands,
                Passing { here, arguments },
                call,
                declaration,
            )
        }
        None => Ok(()),
    }
}

/// Appends what an invocation of a child demands.
fn push_passed(
    alloc: Global,
    demands: &mut Vec<Demand>,
    passing: Passing<'_>,
    invocation: &Invocation,
    header: &Header,
) -> Result<(), AllocError>
    ensures { OnOk result (demands.new.items
        ≡ demands.old.items ++ passed_demands passing.entry.here.typed.now passing.entry.here.point passing.entry.arguments.now invocation.now header.now) }
{
    let signature = &header.signature;
    let operands = invocation.operands.as_slice();
    let clauses = signature.clauses.as_slice();
    push_parameters(
        alloc,
        demands,
        passing,
        operands,
        signature.parameters.as_slice(),
    )?;
    let inner = inner_pairs(alloc, header, passing.arguments, clauses)?;
    push_rule(demands, passing.here, Rule::Invocation, &inner)?;
    push_result(
        alloc,
        demands,
        passing,
        &signature.result,
        &invocation.destination,
    )
}

fn push_invoked(
    alloc: Global,
    demands: &mut Vec<Demand>,
    here: Here<'_>,
    invocation: &Invocation,
    closure: &ClosureInstance,
) -> Result<(), AllocError>
    ensures { OnOk result (demands.new.items
        ≡ demands.old.items ++ invoked_demands here.entry.typed.now here.entry.point invocation.now closure.now) }
{
    match here.typed.child(closure.number) {
        Some(header) => {
            let external = closure.regions.as_slice();
            let given = arguments(alloc, header, external, invocation.regions.as_slice())?;
            let passing = Passing {
                here,
                arguments: given.as_slice(),
            };
            push_passed(alloc, demands, passing, invocation, header)
        }
        None => Ok(()),
    }
}

fn push_invocation(
    alloc: Global,
    demands: &mut Vec<Demand>,
    here: Here<'_>,
    invocation: &Invocation,
) -> Result<(), AllocError>
    ensures { OnOk result (demands.new.items ≡ demands.old.items ++ invocation_demands here.entry.typed.now here.entry.point invocation.now) }
{
    match here.typed.closure_in(alloc, &invocation.closure)? {
        Some(closure) => push_invoked(alloc, demands, here, invocation, &closure),
        None => Ok(()),
    }
}

/// Appends what a point demands, given its instruction.
pub(crate) fn push_point(
    alloc: Global,
    demands: &mut Vec<Demand>,
    here: Here<'_>,
    kids: &[(u8, Requirements)],
    instruction: &Instruction,
) -> Result<(), AllocError>
    ensures { OnOk result (demands.new.items
        ≡ demands.old.items ++ point_demands here.entry.typed.now kids.now here.entry.point instruction.now) }
{
    match instruction {
        Instruction::Statement(Statement::Assign(assignment)) => {
            push_assignment(alloc, demands, here, kids, assignment)
        }
        Instruction::Terminator(Terminator::Call(call)) => {
            push_call(alloc, demands, here, call.get())
        }
        Instruction::Terminator(Terminator::Invoke(invocation)) => {
            push_invocation(alloc, demands, here, invocation.get())
        }
        Instruction::Statement(Statement::Dead(_) | Statement::Drop(_) | Statement::Nop)
        | Instruction::Terminator(
            Terminator::Goto(_) | Terminator::If(_) | Terminator::Return | Terminator::Stop,
        ) => Ok(()),
    }
}
