//! Reads statements and terminators.
ghost use Rattle.std.specs.Prelude.{◌≡◌, ◌≤◌, length};
ghost use Rattle.bc_tokens.specs.Parser.{Reads};
ghost use Rattle.bc_text.specs.Reading as spec;

use crate::places::{local, operand, operands, place, rvalue};
use crate::regions::{arguments, instance};
use bc_syntax::{
    Apart, Assignment, Call, Condition, Invocation, Numbering, Place, RegionName, Statement,
    Symbol, Terminator,
};
use bc_tokens::{Cursor, Refusal};
use std::alloc::Global;

/// A statement or a terminator.
#[derive(Drop)]
pub enum Point {
    Statement(Statement),
    Terminator(Terminator),
}

/// Reads a label, and returns its number.
#[tactic(auto, unfolding(crate::specs::Reading::label))]
pub fn label(cursor: &mut Cursor<'_>) -> Result<u8, Refusal>
    ensures { Reads (spec.label cursor.old) result cursor.new }
{
    Ok(cursor.numbered(Numbering::Label, 255)? as u8)
}

#[tactic(auto, unfolding(crate::specs::Reading::called))]
fn called(
    alloc: Global,
    cursor: &mut Cursor<'_>,
    regions: &[RegionName],
    locals: u16,
    destination: Place,
) -> Result<Call, Refusal>
    requires { length regions.now ≤ 15 }
    ensures { Reads (spec.called regions.now locals destination cursor.old) result cursor.new }
{
    let function = instance(alloc, cursor, true, regions)?;
    let operands = operands(alloc, cursor, locals)?;
    let target = label(cursor)?;
    Ok(Call {
        destination,
        function,
        operands,
        target,
    })
}

/// Reads the closure, operands and label of an `invoke` with this destination.
#[tactic(auto, unfolding(crate::specs::Reading::invoked))]
fn invoked(
    alloc: Global,
    cursor: &mut Cursor<'_>,
    regions: &[RegionName],
    locals: u16,
    destination: Place,
) -> Result<Invocation, Refusal>
    requires { length regions.now ≤ 15 }
    ensures { Reads (spec.invoked regions.now locals destination cursor.old) result cursor.new }
{
    let closure = place(cursor, locals)?;
    let regions = arguments(alloc, cursor, true, regions)?;
    let operands = operands(alloc, cursor, locals)?;
    let label = label(cursor)?;
    Ok(Invocation {
        destination,
        closure,
        regions,
        operands,
        target: label,
    })
}

/// Reads a `call` with this destination, after the word. Not inlined: most points need no room for a call.
#[inline(never)]
fn call(
    alloc: Global,
    cursor: &mut Cursor<'_>,
    regions: &[RegionName],
    locals: u16,
    destination: Place,
) -> Result<Point, Refusal>
    requires { length regions.now ≤ 15 }
    ensures { Reads (spec.function_called regions.now locals destination cursor.old) result cursor.new }
{
    let call = called(alloc, cursor, regions, locals, destination)?;
    Ok(Point::Terminator(Terminator::Call(Apart::new(alloc, call)?)))
}

/// Reads an `invoke` with this destination, after the word.
#[inline(never)]
fn invocation(
    alloc: Global,
    cursor: &mut Cursor<'_>,
    regions: &[RegionName],
    locals: u16,
    destination: Place,
) -> Result<Point, Refusal>
    requires { length regions.now ≤ 15 }
    ensures { Reads (spec.closure_called regions.now locals destination cursor.old) result cursor.new }
{
    let invocation = invoked(alloc, cursor, regions, locals, destination)?;
    Ok(Point::Terminator(Terminator::Invoke(Apart::new(alloc, invocation)?)))
}

#[inline(always)]
#[tactic(auto, unfolding(crate::specs::Reading::assignment, crate::specs::Reading::value_of, crate::specs::Reading::invoking))]
fn assignment(
    alloc: Global,
    cursor: &mut Cursor<'_>,
    regions: &[RegionName],
    locals: u16,
) -> Result<Point, Refusal>
    requires { length regions.now ≤ 15 }
    ensures { Reads (spec.assignment regions.now locals cursor.old) result cursor.new }
{
    let target = place(cursor, locals)?;
    cursor.expect(Symbol::Equals)?;
    if cursor.eat(Symbol::Call) {
        return call(alloc, cursor, regions, locals, target);
    }
    if cursor.eat(Symbol::Invoke) {
        return invocation(alloc, cursor, regions, locals, target);
    }
    let value = rvalue(alloc, cursor, regions, locals)?;
    let assignment = Assignment { target, value };
    Ok(Point::Statement(Statement::Assign(assignment)))
}

#[tactic(auto, unfolding(crate::specs::Reading::condition))]
fn condition(cursor: &mut Cursor<'_>, locals: u16) -> Result<Condition, Refusal>
    ensures { Reads (spec.condition locals cursor.old) result cursor.new }
{
    let operand = operand(cursor, locals)?;
    let then = label(cursor)?;
    let otherwise = label(cursor)?;
    Ok(Condition {
        operand,
        then,
        otherwise,
    })
}

/// Reads a point that begins with no keyword of a terminator.
#[inline(always)]
#[tactic(auto, unfolding(crate::specs::Reading::statement, crate::specs::Reading::dropping, crate::specs::Reading::active))]
fn statement(
    alloc: Global,
    cursor: &mut Cursor<'_>,
    regions: &[RegionName],
    locals: u16,
) -> Result<Point, Refusal>
    requires { length regions.now ≤ 15 }
    ensures { Reads (spec.statement regions.now locals cursor.old) result cursor.new }
{
    if cursor.eat(Symbol::Dead) {
        return Ok(Point::Statement(Statement::Dead(local(cursor, locals)?)));
    }
    if cursor.eat(Symbol::Drop) {
        let place = place(cursor, locals)?;
        return Ok(Point::Statement(Statement::Drop(place)));
    }
    if cursor.eat(Symbol::Nop) {
        return Ok(Point::Statement(Statement::Nop));
    }
    assignment(alloc, cursor, regions, locals)
}

/// Reads a statement or a terminator, and tries one keyword after another.
#[inline(never)]
#[tactic(auto, unfolding(crate::specs::Reading::point, crate::specs::Reading::stopping, crate::specs::Reading::going, crate::specs::Reading::branching))]
fn other_point(
    alloc: Global,
    cursor: &mut Cursor<'_>,
    regions: &[RegionName],
    locals: u16,
) -> Result<Point, Refusal>
    requires { length regions.now ≤ 15 }
    ensures { Reads (spec.point regions.now locals cursor.old) result cursor.new }
{
    if cursor.eat(Symbol::Return) {
        return Ok(Point::Terminator(Terminator::Return));
    }
    if cursor.eat(Symbol::Stop) {
        return Ok(Point::Terminator(Terminator::Stop));
    }
    if cursor.eat(Symbol::Goto) {
        return Ok(Point::Terminator(Terminator::Goto(label(cursor)?)));
    }
    if cursor.eat(Symbol::If) {
        let condition = condition(cursor, locals)?;
        return Ok(Point::Terminator(Terminator::If(condition)));
    }
    statement(alloc, cursor, regions, locals)
}

/// Reads a statement or a terminator. Most are assignments, which begin with a local.
#[inline(always)]
pub fn read_point(
    alloc: Global,
    cursor: &mut Cursor<'_>,
    regions: &[RegionName],
    locals: u16,
) -> Result<Point, Refusal>
    requires { length regions.now ≤ 15 }
    ensures { Reads (spec.point regions.now locals cursor.old) result cursor.new }
{
    if cursor.sees_numbered(Numbering::Local) {
        return assignment(alloc, cursor, regions, locals);
    }
    other_point(alloc, cursor, regions, locals)
}
