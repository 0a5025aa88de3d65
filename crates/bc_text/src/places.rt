//! Reads places, operands and the values of assignments.
ghost use Rattle.std.specs.Prelude.{◌≡◌, ◌≤◌, length, []};
ghost use Rattle.bc_tokens.specs.Parser.{Reads, separated_from, closed_list};
ghost use Rattle.bc_text.specs.Reading as spec;

use crate::regions::{closure_instance, instance, refuse_past};
use crate::types::reference;
use bc_syntax::{
    Aggregate, Apart, Borrow, Creation, Numbering, Operand, Place, Projection, Projections,
    RegionName, Rvalue, ShortSequence, Symbol,
};
use bc_tokens::{Cursor, Refusal};
use std::alloc::Global;

/// Reads a local. Returns `Grammar` if it is not declared.
#[inline(always)]
#[tactic(auto, unfolding(crate::specs::Reading::local))]
pub fn local(cursor: &mut Cursor<'_>, locals: u16) -> Result<u8, Refusal>
    ensures { Reads (spec.local locals cursor.old) result cursor.new }
{
    let at = cursor.position();
    let local = cursor.numbered(Numbering::Local, 255)?;
    if local < u32::from(locals) {
        Ok(local as u8)
    } else {
        Err(Refusal::Grammar { at })
    }
}

#[inline(always)]
#[tactic(auto, unfolding(crate::specs::Reading::projection))]
fn projection(cursor: &mut Cursor<'_>) -> Result<Projection, Refusal>
    ensures { Reads (spec.projection cursor.old) result cursor.new }
{
    if cursor.eat(Symbol::Star) {
        Ok(Projection::Deref)
    } else {
        Ok(Projection::Field(cursor.numbered(Numbering::Number, 15)? as u8))
    }
}

fn some_projections(cursor: &mut Cursor<'_>) -> Result<Projections, Refusal>
    ensures { Reads (spec.projections_from 8 [] cursor.old) result cursor.new }
{
    let mut found = Projections::new();
    for _turn in 0..8u8 {
        if !cursor.eat(Symbol::Dot) {
            return Ok(found);
        }
        found.push(projection(cursor)?);
    }
    if cursor.sees(Symbol::Dot) {
        return Err(Refusal::Limit {
            at: cursor.position(),
        });
    }
    Ok(found)
}

/// Reads the projections after a local. Mostly there are none, and then the place takes over no list.
#[inline(always)]
fn projections(cursor: &mut Cursor<'_>) -> Result<Projections, Refusal>
    ensures { Reads (spec.projections_from 8 [] cursor.old) result cursor.new }
{
    if cursor.sees(Symbol::Dot) {
        some_projections(cursor)
    } else {
        Ok(Projections::new())
    }
}

/// Reads a place.
#[inline(always)]
#[tactic(auto, unfolding(crate::specs::Reading::place))]
pub fn place(cursor: &mut Cursor<'_>, locals: u16) -> Result<Place, Refusal>
    ensures { Reads (spec.place locals cursor.old) result cursor.new }
{
    let local = local(cursor, locals)?;
    let projections = projections(cursor)?;
    Ok(Place { local, projections })
}

#[inline(always)]
#[tactic(auto, unfolding(crate::specs::Reading::moved))]
fn moved(cursor: &mut Cursor<'_>, locals: u16) -> Result<Operand, Refusal>
    ensures { Reads (spec.moved locals cursor.old) result cursor.new }
{
    if cursor.eat(Symbol::Move) {
        Ok(Operand::Move(place(cursor, locals)?))
    } else {
        Ok(Operand::Number(cursor.numbered(Numbering::Number, u32::MAX)?))
    }
}

/// Reads an operand.
#[inline(always)]
#[tactic(auto, unfolding(crate::specs::Reading::operand))]
pub fn operand(cursor: &mut Cursor<'_>, locals: u16) -> Result<Operand, Refusal>
    ensures { Reads (spec.operand locals cursor.old) result cursor.new }
{
    if cursor.eat(Symbol::Copy) {
        Ok(Operand::Copy(place(cursor, locals)?))
    } else {
        moved(cursor, locals)
    }
}

fn begins_operand(cursor: &Cursor<'_>) -> bool
    ensures { result ≡ spec.begins_operand cursor.now }
{
    cursor.sees(Symbol::Copy)
        || cursor.sees(Symbol::Move)
        || cursor.sees_numbered(Numbering::Number)
}

fn some_operands(
    alloc: Global,
    cursor: &mut Cursor<'_>,
    locals: u16,
) -> Result<ShortSequence<Operand, 2>, Refusal>
    ensures { Reads (separated_from spec.begins_operand (spec.operand locals) 16 [] cursor.old) result cursor.new }
{
    let mut found = ShortSequence::new(alloc);
    for _turn in 0..16u8 {
        found.push(operand(cursor, locals)?)?;
        if !cursor.eat(Symbol::Comma) {
            return Ok(found);
        }
    }
    Err(refuse_past(begins_operand(cursor), cursor))
}

/// Reads operands in parentheses.
#[tactic(auto, unfolding(bc_tokens::specs::Parser::closed_list, crate::specs::Reading::operands))]
pub fn operands(
    alloc: Global,
    cursor: &mut Cursor<'_>,
    locals: u16,
) -> Result<ShortSequence<Operand, 2>, Refusal>
    ensures { Reads (spec.operands locals cursor.old) result cursor.new }
{
    cursor.expect(Symbol::OpenParen)?;
    if cursor.eat(Symbol::CloseParen) {
        return Ok(ShortSequence::new(alloc));
    }
    let found = some_operands(alloc, cursor, locals)?;
    cursor.expect(Symbol::CloseParen)?;
    Ok(found)
}

#[tactic(auto, unfolding(crate::specs::Reading::borrow))]
fn borrow(cursor: &mut Cursor<'_>, regions: &[RegionName], locals: u16) -> Result<Borrow, Refusal>
    requires { length regions.now ≤ 15 }
    ensures { Reads (spec.borrow regions.now locals cursor.old) result cursor.new }
{
    let reference = reference(cursor, true, regions)?;
    let place = place(cursor, locals)?;
    Ok(Borrow { reference, place })
}

#[tactic(auto, unfolding(crate::specs::Reading::aggregate))]
fn aggregate(
    alloc: Global,
    cursor: &mut Cursor<'_>,
    regions: &[RegionName],
    locals: u16,
) -> Result<Aggregate, Refusal>
    requires { length regions.now ≤ 15 }
    ensures { Reads (spec.aggregate regions.now locals cursor.old) result cursor.new }
{
    let instance = instance(alloc, cursor, true, regions)?;
    let operands = operands(alloc, cursor, locals)?;
    Ok(Aggregate { instance, operands })
}

/// Reads a closure's creation, after `closure`.
#[tactic(auto, unfolding(crate::specs::Reading::creation))]
fn creation(
    alloc: Global,
    cursor: &mut Cursor<'_>,
    regions: &[RegionName],
    locals: u16,
) -> Result<Creation, Refusal>
    requires { length regions.now ≤ 15 }
    ensures { Reads (spec.creation regions.now locals cursor.old) result cursor.new }
{
    let closure = closure_instance(alloc, cursor, regions)?;
    let operands = operands(alloc, cursor, locals)?;
    Ok(Creation { closure, operands })
}

/// Reads the operands of `calc`, after the word. Not inlined, like structs and closures: most values need no room for them.
#[inline(never)]
fn calc_value(alloc: Global, cursor: &mut Cursor<'_>, locals: u16) -> Result<Rvalue, Refusal>
    ensures { Reads (spec.calc_value locals cursor.old) result cursor.new }
{
    Ok(Rvalue::Calc(operands(alloc, cursor, locals)?))
}

/// Reads a struct's creation, as a value.
#[inline(never)]
fn aggregate_value(
    alloc: Global,
    cursor: &mut Cursor<'_>,
    regions: &[RegionName],
    locals: u16,
) -> Result<Rvalue, Refusal>
    requires { length regions.now ≤ 15 }
    ensures { Reads (spec.aggregate_value regions.now locals cursor.old) result cursor.new }
{
    let aggregate = aggregate(alloc, cursor, regions, locals)?;
    Ok(Rvalue::Aggregate(Apart::new(alloc, aggregate)?))
}

/// Reads a closure's creation, as a value.
#[inline(never)]
fn closure_value(
    alloc: Global,
    cursor: &mut Cursor<'_>,
    regions: &[RegionName],
    locals: u16,
) -> Result<Rvalue, Refusal>
    requires { length regions.now ≤ 15 }
    ensures { Reads (spec.closure_value regions.now locals cursor.old) result cursor.new }
{
    let creation = creation(alloc, cursor, regions, locals)?;
    Ok(Rvalue::Closure(Apart::new(alloc, creation)?))
}

/// Reads the value of an assignment.
#[inline(always)]
#[tactic(auto, unfolding(crate::specs::Reading::rvalue, crate::specs::Reading::computed, crate::specs::Reading::created, crate::specs::Reading::captured))]
pub fn rvalue(
    alloc: Global,
    cursor: &mut Cursor<'_>,
    regions: &[RegionName],
    locals: u16,
) -> Result<Rvalue, Refusal>
    requires { length regions.now ≤ 15 }
    ensures { Reads (spec.rvalue regions.now locals cursor.old) result cursor.new }
{
    if cursor.eat(Symbol::Ampersand) {
        return Ok(Rvalue::Borrow(borrow(cursor, regions, locals)?));
    }
    if cursor.eat(Symbol::Calc) {
        return calc_value(alloc, cursor, locals);
    }
    if cursor.sees_word() {
        return aggregate_value(alloc, cursor, regions, locals);
    }
    if cursor.eat(Symbol::Closure) {
        return closure_value(alloc, cursor, regions, locals);
    }
    Ok(Rvalue::Use(operand(cursor, locals)?))
}
