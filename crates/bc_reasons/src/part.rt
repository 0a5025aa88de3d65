//! By which part of an instruction an access is made (RFC 2094, "Borrow checker phase 2: reporting errors").
ghost use Rattle.std.specs.Prelude.{◌≡◌, ◌++◌, ◌∷◌, [], IfOk, OnOk};
ghost use Rattle.bc_reasons.specs.Parts.{operand_parts, operands_parts, rvalue_parts, statement_parts, return_parts, terminator_parts, parts_of};

use bc_mir::{Instruction, Typed};
use bc_syntax::{Operand, Rvalue, Statement, Terminator};
use std::alloc::{AllocError, Global};

/// The part of an instruction that makes an access. (RFC 2094, "Borrow checker phase 2: reporting errors".)
///
/// `Operand`: an operand, by its number from 0 among the operands of the instruction, numbers included. `Borrowed`: the place that a borrow
/// borrows. `Invoked`: the place of the closure that an `invoke` calls. `Target`: the place that an assignment, a call or an `invoke`
/// writes. `Drop`, `Dead` and `Return`: the statement or the terminator itself.
#[derive(Clone, Copy)]
pub enum Part {
    Operand(usize),
    Borrowed,
    Invoked,
    Target,
    Drop,
    Dead,
    Return,
}

/// Appends the part of an operand, given its number, if it has an access.
fn push_operand(parts: &mut Vec<Part>, number: usize, operand: &Operand) -> Result<(), AllocError>
    ensures { OnOk result (parts.new.items ≡ parts.old.items ++ operand_parts number operand.now) }
{
    match operand {
        Operand::Copy(_) | Operand::Move(_) => {
            parts.push(Part::Operand(number))?;
            Ok(())
        }
        Operand::Number(_) => Ok(()),
    }
}

/// Appends the parts of operands, in order.
fn push_operands(parts: &mut Vec<Part>, operands: &[Operand]) -> Result<(), AllocError>
    ensures { OnOk result (parts.new.items ≡ parts.old.items ++ operands_parts operands.now) }
{
    for (number, operand) in operands.iter().enumerate() {
        push_operand(parts, number, operand)?;
    }
    Ok(())
}

fn push_part(parts: &mut Vec<Part>, part: Part) -> Result<(), AllocError>
    ensures { OnOk result (parts.new.items ≡ parts.old.items ++ part ∷ []) }
{
    parts.push(part)?;
    Ok(())
}

fn push_rvalue(parts: &mut Vec<Part>, rvalue: &Rvalue) -> Result<(), AllocError>
    ensures { OnOk result (parts.new.items ≡ parts.old.items ++ rvalue_parts rvalue.now) }
{
    match rvalue {
        Rvalue::Use(operand) => push_operand(parts, 0, operand),
        Rvalue::Borrow(_) => push_part(parts, Part::Borrowed),
        Rvalue::Aggregate(aggregate) => push_operands(parts, aggregate.get().operands.as_slice()),
        Rvalue::Closure(creation) => push_operands(parts, creation.get().operands.as_slice()),
        Rvalue::Calc(operands) => push_operands(parts, operands.as_slice()),
    }
}

fn push_statement(parts: &mut Vec<Part>, statement: &Statement) -> Result<(), AllocError>
    ensures { OnOk result (parts.new.items ≡ parts.old.items ++ statement_parts statement.now) }
{
    match statement {
        Statement::Assign(assignment) => {
            push_rvalue(parts, &assignment.value)?;
            push_part(parts, Part::Target)
        }
        Statement::Dead(_) => push_part(parts, Part::Dead),
        Statement::Drop(_) => push_part(parts, Part::Drop),
        Statement::Nop => Ok(()),
    }
}

/// Appends the part of each access of `return`.
fn push_return(parts: &mut Vec<Part>, locals: usize) -> Result<(), AllocError>
    ensures { OnOk result (parts.new.items ≡ parts.old.items ++ return_parts locals) }
{
    for _local in 0..locals {
        push_part(parts, Part::Return)?;
    }
    Ok(())
}

fn push_terminator(
    parts: &mut Vec<Part>,
    locals: usize,
    terminator: &Terminator,
) -> Result<(), AllocError>
    ensures { OnOk result (parts.new.items ≡ parts.old.items ++ terminator_parts locals terminator.now) }
{
    match terminator {
        Terminator::If(condition) => push_operand(parts, 0, &condition.operand),
        Terminator::Call(call) => {
            push_operands(parts, call.get().operands.as_slice())?;
            push_part(parts, Part::Target)
        }
        Terminator::Invoke(invocation) => {
            push_part(parts, Part::Invoked)?;
            push_operands(parts, invocation.get().operands.as_slice())?;
            push_part(parts, Part::Target)
        }
        Terminator::Return => push_return(parts, locals),
        Terminator::Goto(_) | Terminator::Stop => Ok(()),
    }
}

fn push_parts(
    parts: &mut Vec<Part>,
    typed: &Typed,
    instruction: &Instruction,
) -> Result<(), AllocError>
    ensures { OnOk result (parts.new.items ≡ parts.old.items ++ parts_of typed.now instruction.now) }
{
    match instruction {
        Instruction::Statement(statement) => push_statement(parts, statement),
        Instruction::Terminator(terminator) => {
            push_terminator(parts, typed.locals().len(), terminator)
        }
    }
}

/// Returns for each access of a point, given its instruction, the part that makes it, in the order of the accesses.
pub(crate) fn access_parts(
    alloc: Global,
    typed: &Typed,
    instruction: &Instruction,
) -> Result<Vec<Part>, AllocError>
    ensures { IfOk result (λ parts. parts.items ≡ parts_of typed.now instruction.now) }
{
    let mut parts = Vec::new(alloc);
    push_parts(&mut parts, typed, instruction)?;
    Ok(parts)
}
