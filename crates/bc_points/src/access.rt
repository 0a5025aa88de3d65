//! The accesses of points (RFC 2094, "Borrow checker phase 2").
ghost use Rattle.std.specs.Prelude.{◌≡◌, ◌≤◌, ◌++◌, ◌∷◌, [], length, IfOk, OnOk};
ghost use Rattle.std.specs.List.{flat_map};
ghost use Rattle.bc_points.specs.Accesses.{access_of, operand_accesses, borrow_access as kind_of_borrow, rvalue_accesses, runs_drop as drop_run, drop_access, statement_accesses, return_accesses, terminator_accesses, accesses_of};

use crate::place_ref::PlaceRef;
use bc_mir::{Instruction, Typed};
use bc_syntax::{Mutability, Operand, Place, Rvalue, Statement, Terminator};
use std::alloc::{AllocError, Global};

/// Whether an access also reaches what its place points to (RFC 2094, "Borrow checker phase 2").
#[derive(Clone, Copy, Debug, PartialEq, Eq)]
pub enum Depth {
    Shallow,
    Deep,
}

/// Whether an access reads or writes its place. (RFC 2094, "Borrow checker phase 2: reporting errors".)
#[derive(Clone, Copy, Debug, PartialEq, Eq)]
pub enum AccessKind {
    Read,
    Write,
}

/// An access of a point to a place. (RFC 2094, "Borrow checker phase 2: reporting errors".)
#[derive(Drop)]
pub struct Access<'a> {
    pub place: PlaceRef<'a>,
    pub depth: Depth,
    pub kind: AccessKind,
}

fn borrow_access(mutability: Mutability) -> AccessKind
    ensures { result ≡ kind_of_borrow mutability }
{
    match mutability {
        Mutability::Shared => AccessKind::Read,
        Mutability::Mutable => AccessKind::Write,
    }
}

/// Appends an access.
fn push_access<'a>(
    accesses: &mut Vec<Access<'a>>,
    depth: Depth,
    kind: AccessKind,
    place: PlaceRef<'a>,
) -> Result<(), AllocError>
    ensures { OnOk result (accesses.new.items ≡ accesses.old.items ++ access_of depth kind place.entry ∷ []) }
{
    accesses.push(Access { place, depth, kind })?;
    Ok(())
}

fn push_operand<'a>(accesses: &mut Vec<Access<'a>>, operand: &'a Operand) -> Result<(), AllocError>
    ensures { OnOk result (accesses.new.items ≡ accesses.old.items ++ operand_accesses operand.now) }
{
    match operand {
        Operand::Copy(place) => {
            push_access(accesses, Depth::Deep, AccessKind::Read, PlaceRef::of(place))
        }
        Operand::Move(place) => {
            push_access(
                accesses,
                Depth::Deep,
                AccessKind::Write,
                PlaceRef::of(place),
            )
        }
        Operand::Number(_) => Ok(()),
    }
}

fn push_operands<'a>(
    accesses: &mut Vec<Access<'a>>,
    operands: &'a [Operand],
) -> Result<(), AllocError>
    ensures { OnOk result (accesses.new.items ≡ accesses.old.items ++ flat_map operand_accesses operands.now) }
{
    for operand in operands {
        push_operand(accesses, operand)?;
    }
    Ok(())
}

fn push_rvalue<'a>(accesses: &mut Vec<Access<'a>>, rvalue: &'a Rvalue) -> Result<(), AllocError>
    ensures { OnOk result (accesses.new.items ≡ accesses.old.items ++ rvalue_accesses rvalue.now) }
{
    match rvalue {
        Rvalue::Use(operand) => push_operand(accesses, operand),
        Rvalue::Borrow(borrow) => {
            let kind = borrow_access(borrow.reference.mutability);
            push_access(accesses, Depth::Deep, kind, PlaceRef::of(&borrow.place))
        }
        Rvalue::Aggregate(aggregate) => push_operands(
            accesses,
            aggregate.get().operands.as_slice(),
        ),
        Rvalue::Closure(creation) => push_operands(accesses, creation.get().operands.as_slice()),
        Rvalue::Calc(operands) => push_operands(accesses, operands.as_slice()),
    }
}

/// Appends the access that overwrites a place.
fn push_write<'a>(accesses: &mut Vec<Access<'a>>, place: PlaceRef<'a>) -> Result<(), AllocError>
    ensures { OnOk result (accesses.new.items ≡ accesses.old.items ++ access_of Depth.Shallow AccessKind.Write place.entry ∷ []) }
{
    push_access(accesses, Depth::Shallow, AccessKind::Write, place)
}

/// Returns whether the type of a place needs drop.
pub(crate) fn runs_drop(alloc: Global, typed: &Typed, place: &Place) -> Result<bool, AllocError>
    ensures { IfOk result (λ runs. runs ≡ drop_run typed.now place.now) }
{
    match typed.place_type(alloc, place)? {
        Some(ty) => Ok(typed.holds_drop(&ty)),
        None => Ok(false),
    }
}

/// Appends the access of a drop: a deep write if the type of the place needs drop, otherwise a shallow one.
fn push_drop<'a>(
    alloc: Global,
    accesses: &mut Vec<Access<'a>>,
    typed: &Typed,
    place: &'a Place,
) -> Result<(), AllocError>
    ensures { OnOk result (accesses.new.items ≡ accesses.old.items ++ drop_access typed.now place.now ∷ []) }
{
    let depth = if runs_drop(alloc, typed, place)? {
        Depth::Deep
    } else {
        Depth::Shallow
    };
    accesses.push(Access {
        place: PlaceRef::of(place),
        depth,
        kind: AccessKind::Write,
    })?;
    Ok(())
}

fn push_statement<'a>(
    alloc: Global,
    accesses: &mut Vec<Access<'a>>,
    typed: &Typed,
    statement: &'a Statement,
) -> Result<(), AllocError>
    ensures { OnOk result (accesses.new.items ≡ accesses.old.items ++ statement_accesses typed.now statement.now) }
{
    match statement {
        Statement::Assign(assignment) => {
            push_rvalue(accesses, &assignment.value)?;
            push_write(accesses, PlaceRef::of(&assignment.target))
        }
        Statement::Dead(local) => push_write(accesses, PlaceRef::of_local(*local)),
        Statement::Drop(place) => push_drop(alloc, accesses, typed, place),
        Statement::Nop => Ok(()),
    }
}

fn push_locals(accesses: &mut Vec<Access<'_>>, locals: usize) -> Result<(), AllocError>
    requires { locals ≤ 256 }
    ensures { OnOk result (accesses.new.items ≡ accesses.old.items ++ return_accesses locals) }
{
    for local in 0..locals {
        push_write(accesses, PlaceRef::of_local(local as u8))?;
    }
    Ok(())
}

fn push_terminator<'a>(
    accesses: &mut Vec<Access<'a>>,
    locals: usize,
    terminator: &'a Terminator,
) -> Result<(), AllocError>
    requires { locals ≤ 256 }
    ensures { OnOk result (accesses.new.items ≡ accesses.old.items ++ terminator_accesses locals terminator.now) }
{
    match terminator {
        Terminator::If(condition) => push_operand(accesses, &condition.operand),
        Terminator::Call(call) => {
            let call = call.get();
            push_operands(accesses, call.operands.as_slice())?;
            push_write(accesses, PlaceRef::of(&call.destination))
        }
        Terminator::Invoke(invocation) => {
            let invocation = invocation.get();
            let closure = PlaceRef::of(&invocation.closure);
            push_access(accesses, Depth::Deep, AccessKind::Write, closure)?;
            push_operands(accesses, invocation.operands.as_slice())?;
            push_write(accesses, PlaceRef::of(&invocation.destination))
        }
        Terminator::Return => push_locals(accesses, locals),
        Terminator::Goto(_) | Terminator::Stop => Ok(()),
    }
}

/// Appends the accesses of a point, given its instruction, in order. One list can serve many points. (RFC 2094, "Borrow checker phase 2:
/// reporting errors".)
pub fn push_accesses<'a>(
    alloc: Global,
    accesses: &mut Vec<Access<'a>>,
    typed: &Typed,
    instruction: &'a Instruction,
) -> Result<(), AllocError>
    ensures { OnOk result (accesses.new.items ≡ accesses.old.items ++ accesses_of typed.now instruction.now) }
{
    match instruction {
        Instruction::Statement(statement) => { push_statement(alloc, accesses, typed, statement) }
        Instruction::Terminator(terminator) => {
            push_terminator(accesses, typed.locals().len(), terminator)
        }
    }
}

/// Returns the accesses of a point, given its instruction, in order. The number of an access is its index in this list. (RFC 2094, "Borrow
/// checker phase 2: reporting errors".)
pub fn accesses<'a>(
    alloc: Global,
    typed: &Typed,
    instruction: &'a Instruction,
) -> Result<Vec<Access<'a>>, AllocError>
    ensures { IfOk result (λ accesses. accesses.items ≡ accesses_of typed.now instruction.now) }
{
    let mut accesses = Vec::new(alloc);
    push_accesses(alloc, &mut accesses, typed, instruction)?;
    Ok(accesses)
}
