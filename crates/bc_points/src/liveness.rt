//! The locals that points use and define (RFC 2094, "Liveness").
ghost use Rattle.std.specs.Prelude.{◌≡◌, ◌++◌, OnOk};
ghost use Rattle.std.specs.List.{flat_map};
ghost use Rattle.bc_points.specs.Accesses.{operand_uses, rvalue_uses, is_whole_local as local_test, target_uses, target_defines, drop_uses, uses_of, defines_of};

use crate::access::runs_drop;
use bc_mir::{Instruction, Typed};
use bc_syntax::{Operand, Place, Rvalue, Statement, Terminator};
use std::alloc::{AllocError, Global};

fn push_operand(locals: &mut Vec<u8>, operand: &Operand) -> Result<(), AllocError>
    ensures { OnOk result (locals.new.items ≡ locals.old.items ++ operand_uses operand.now) }
{
    match operand {
        Operand::Copy(place) | Operand::Move(place) => locals.push(place.local)?,
        Operand::Number(_) => {}
    }
    Ok(())
}

fn push_operands(locals: &mut Vec<u8>, operands: &[Operand]) -> Result<(), AllocError>
    ensures { OnOk result (locals.new.items ≡ locals.old.items ++ flat_map operand_uses operands.now) }
{
    for operand in operands {
        push_operand(locals, operand)?;
    }
    Ok(())
}

fn push_rvalue(locals: &mut Vec<u8>, rvalue: &Rvalue) -> Result<(), AllocError>
    ensures { OnOk result (locals.new.items ≡ locals.old.items ++ rvalue_uses rvalue.now) }
{
    match rvalue {
        Rvalue::Use(operand) => push_operand(locals, operand),
        Rvalue::Borrow(borrow) => {
            locals.push(borrow.place.local)?;
            Ok(())
        }
        Rvalue::Aggregate(aggregate) => push_operands(locals, aggregate.get().operands.as_slice()),
        Rvalue::Closure(creation) => push_operands(locals, creation.get().operands.as_slice()),
        Rvalue::Calc(operands) => push_operands(locals, operands.as_slice()),
    }
}

fn is_whole_local(place: &Place) -> bool
    ensures { result ≡ local_test place.now }
{
    matches!(place.projections.as_slice(), [])
}

fn push_target(locals: &mut Vec<u8>, place: &Place) -> Result<(), AllocError>
    ensures { OnOk result (locals.new.items ≡ locals.old.items ++ target_uses place.now) }
{
    if !is_whole_local(place) {
        locals.push(place.local)?;
    }
    Ok(())
}

/// Appends the local that a drop uses: its place's, if the type of the place needs drop.
fn push_drop(
    alloc: Global,
    used: &mut Vec<u8>,
    typed: &Typed,
    place: &Place,
) -> Result<(), AllocError>
    ensures { OnOk result (used.new.items ≡ used.old.items ++ drop_uses typed.now place.now) }
{
    if runs_drop(alloc, typed, place)? {
        used.push(place.local)?;
    }
    Ok(())
}

/// Appends the locals that a point uses, given its instruction, in order. A local occurs as often as the point uses it. One list can serve
/// many points. (RFC 2094, "Liveness".)
pub fn push_uses(
    alloc: Global,
    used: &mut Vec<u8>,
    typed: &Typed,
    instruction: &Instruction,
) -> Result<(), AllocError>
    ensures { OnOk result (used.new.items ≡ used.old.items ++ uses_of typed.now instruction.now) }
{
    match instruction {
        Instruction::Statement(Statement::Assign(assignment)) => {
            push_rvalue(used, &assignment.value)?;
            push_target(used, &assignment.target)
        }
        Instruction::Statement(Statement::Drop(place)) => { push_drop(alloc, used, typed, place) }
        Instruction::Terminator(Terminator::If(condition)) => {
            push_operand(used, &condition.operand)
        }
        Instruction::Terminator(Terminator::Call(call)) => {
            let call = call.get();
            push_operands(used, call.operands.as_slice())?;
            push_target(used, &call.destination)
        }
        Instruction::Terminator(Terminator::Invoke(invocation)) => {
            let invocation = invocation.get();
            used.push(invocation.closure.local)?;
            push_operands(used, invocation.operands.as_slice())?;
            push_target(used, &invocation.destination)
        }
        Instruction::Terminator(Terminator::Return) => {
            used.push(0)?;
            Ok(())
        }
        Instruction::Statement(Statement::Dead(_) | Statement::Nop)
        | Instruction::Terminator(Terminator::Goto(_) | Terminator::Stop) => Ok(()),
    }
}

fn defined_by(target: &Place) -> Option<u8>
    ensures { result ≡ target_defines target.now }
{
    if is_whole_local(target) {
        Some(target.local)
    } else {
        None
    }
}

/// Returns the local that a point defines, if it defines one. (RFC 2094, "Liveness".)
pub fn defines(instruction: &Instruction) -> Option<u8>
    ensures { result ≡ defines_of instruction.now }
{
    match instruction {
        Instruction::Statement(Statement::Assign(assignment)) => { defined_by(&assignment.target) }
        Instruction::Statement(Statement::Dead(local)) => Some(*local),
        Instruction::Terminator(Terminator::Call(call)) => defined_by(&call.get().destination),
        Instruction::Terminator(Terminator::Invoke(invocation)) => {
            defined_by(&invocation.get().destination)
        }
        Instruction::Statement(Statement::Drop(_) | Statement::Nop)
        | Instruction::Terminator(
            Terminator::Goto(_) | Terminator::If(_) | Terminator::Return | Terminator::Stop,
        ) => None,
    }
}
