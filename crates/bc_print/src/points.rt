//! Prints places, operands, points and blocks.
#![tactic(auto, using(crate::proofs::Printings::writes_both, crate::proofs::Printings::writes_token, crate::proofs::Printings::writes_nothing))]

ghost use Rattle.std.specs.Prelude.{◌≡◌, OnOk, [], ◌∷◌};
ghost use Rattle.std.specs.List.{flat_map};
ghost use Rattle.bc_print.specs.Printing.{Writes};
ghost use Rattle.bc_syntax.specs.Spelling as spell;

use crate::names::{write_closure_instance, write_instance, write_reference};
use crate::tokens::{Spelled, write_angled, write_commas, write_numbered, write_symbol};
use bc_syntax::{
    Aggregate, Assignment, Block, Borrow, Call, Condition, Creation, Invocation, Numbering,
    Operand, Place, Projection, RegionName, Rvalue, Statement, Symbol, Terminator,
};
use bc_writer::WriterFault;
use std::io::Write;

fn write_projection<W: Write>(projection: Projection, out: &mut W) -> Result<(), WriterFault>
    ensures { OnOk result (Writes (W.contents out.old) (W.contents out.new) (spell.projection projection)) }
{
    match projection {
        Projection::Deref => write_symbol(Symbol::Star, out),
        Projection::Field(number) => write_numbered(Numbering::Number, u64::from(number), out),
    }
}

fn write_projections<W: Write>(projections: &[Projection], out: &mut W) -> Result<(), WriterFault>
    ensures { OnOk result (Writes (W.contents out.old) (W.contents out.new) (flat_map spell.step projections.now)) }
{
    for projection in projections {
        write_symbol(Symbol::Dot, out)?;
        write_projection(*projection, out)?;
    }
    Ok(())
}

fn write_place<W: Write>(place: &Place, out: &mut W) -> Result<(), WriterFault>
    ensures { OnOk result (Writes (W.contents out.old) (W.contents out.new) (spell.place place.now)) }
{
    write_numbered(Numbering::Local, u64::from(place.local), out)?;
    write_projections(place.projections.as_slice(), out)
}

fn write_operand<W: Write>(operand: &Operand, out: &mut W) -> Result<(), WriterFault>
    ensures { OnOk result (Writes (W.contents out.old) (W.contents out.new) (spell.operand operand.now)) }
{
    match operand {
        Operand::Copy(place) => {
            write_symbol(Symbol::Copy, out)?;
            write_place(place, out)
        }
        Operand::Move(place) => {
            write_symbol(Symbol::Move, out)?;
            write_place(place, out)
        }
        Operand::Number(number) => write_numbered(Numbering::Number, u64::from(*number), out),
    }
}

impl Spelled for Operand {
    ghost spelling = { λ _ operand. spell.operand operand };

    fn write_tokens<W: Write>(
        &self,
        _regions: &[RegionName],
        out: &mut W,
    ) -> Result<(), WriterFault> {
        write_operand(self, out)
    }
}

fn write_operands<W: Write>(operands: &[Operand], out: &mut W) -> Result<(), WriterFault>
    ensures { OnOk result (Writes (W.contents out.old) (W.contents out.new) (spell.operands operands.now)) }
{
    write_symbol(Symbol::OpenParen, out)?;
    write_commas(&[], operands, out)?;
    write_symbol(Symbol::CloseParen, out)
}

fn write_borrow<W: Write>(
    regions: &[RegionName],
    borrow: &Borrow,
    out: &mut W,
) -> Result<(), WriterFault>
    ensures { OnOk result (Writes (W.contents out.old) (W.contents out.new) (spell.borrow regions.now borrow.now)) }
{
    write_reference(regions, borrow.reference, out)?;
    write_place(&borrow.place, out)
}

fn write_aggregate<W: Write>(
    regions: &[RegionName],
    aggregate: &Aggregate,
    out: &mut W,
) -> Result<(), WriterFault>
    ensures { OnOk result (Writes (W.contents out.old) (W.contents out.new) (spell.aggregate regions.now aggregate.now)) }
{
    write_instance(regions, &aggregate.instance, out)?;
    write_operands(aggregate.operands.as_slice(), out)
}

fn write_creation<W: Write>(
    regions: &[RegionName],
    creation: &Creation,
    out: &mut W,
) -> Result<(), WriterFault>
    ensures { OnOk result (Writes (W.contents out.old) (W.contents out.new) (spell.creation regions.now creation.now)) }
{
    write_closure_instance(regions, &creation.closure, out)?;
    write_operands(creation.operands.as_slice(), out)
}

fn write_rvalue<W: Write>(
    regions: &[RegionName],
    rvalue: &Rvalue,
    out: &mut W,
) -> Result<(), WriterFault>
    ensures { OnOk result (Writes (W.contents out.old) (W.contents out.new) (spell.rvalue regions.now rvalue.now)) }
{
    match rvalue {
        Rvalue::Use(operand) => write_operand(operand, out),
        Rvalue::Borrow(borrow) => {
            write_symbol(Symbol::Ampersand, out)?;
            write_borrow(regions, borrow, out)
        }
        Rvalue::Aggregate(aggregate) => write_aggregate(regions, aggregate.get(), out),
        Rvalue::Closure(creation) => write_creation(regions, creation.get(), out),
        Rvalue::Calc(operands) => {
            write_symbol(Symbol::Calc, out)?;
            write_operands(operands.as_slice(), out)
        }
    }
}

fn write_assignment<W: Write>(
    regions: &[RegionName],
    assignment: &Assignment,
    out: &mut W,
) -> Result<(), WriterFault>
    ensures { OnOk result (Writes (W.contents out.old) (W.contents out.new) (spell.assignment regions.now assignment.now)) }
{
    write_place(&assignment.target, out)?;
    write_symbol(Symbol::Equals, out)?;
    write_rvalue(regions, &assignment.value, out)
}

fn write_statement<W: Write>(
    regions: &[RegionName],
    statement: &Statement,
    out: &mut W,
) -> Result<(), WriterFault>
    ensures { OnOk result (Writes (W.contents out.old) (W.contents out.new) (spell.statement regions.now statement.now)) }
{
    match statement {
        Statement::Assign(assignment) => write_assignment(regions, assignment, out),
        Statement::Dead(local) => {
            write_symbol(Symbol::Dead, out)?;
            write_numbered(Numbering::Local, u64::from(*local), out)
        }
        Statement::Drop(place) => {
            write_symbol(Symbol::Drop, out)?;
            write_place(place, out)
        }
        Statement::Nop => write_symbol(Symbol::Nop, out),
    }
}

fn write_lines<W: Write>(
    regions: &[RegionName],
    statements: &[Statement],
    out: &mut W,
) -> Result<(), WriterFault>
    ensures { OnOk result (Writes (W.contents out.old) (W.contents out.new) (flat_map (spell.line regions.now) statements.now)) }
{
    for statement in statements {
        write_statement(regions, statement, out)?;
        write_symbol(Symbol::Semicolon, out)?;
    }
    Ok(())
}

fn write_label<W: Write>(label: u8, out: &mut W) -> Result<(), WriterFault>
    ensures { OnOk result (Writes (W.contents out.old) (W.contents out.new) (spell.label label)) }
{
    write_numbered(Numbering::Label, u64::from(label), out)
}

fn write_condition<W: Write>(condition: &Condition, out: &mut W) -> Result<(), WriterFault>
    ensures { OnOk result (Writes (W.contents out.old) (W.contents out.new) (spell.condition condition.now)) }
{
    write_operand(&condition.operand, out)?;
    write_label(condition.then, out)?;
    write_label(condition.otherwise, out)
}

/// Writes the function, operands and label of a `call`.
fn write_called<W: Write>(
    regions: &[RegionName],
    call: &Call,
    out: &mut W,
) -> Result<(), WriterFault>
    ensures { OnOk result (Writes (W.contents out.old) (W.contents out.new) (spell.called regions.now call.now)) }
{
    write_instance(regions, &call.function, out)?;
    write_operands(call.operands.as_slice(), out)?;
    write_label(call.target, out)
}

fn write_call<W: Write>(regions: &[RegionName], call: &Call, out: &mut W) -> Result<(), WriterFault>
    ensures { OnOk result (Writes (W.contents out.old) (W.contents out.new) (spell.call regions.now call.now)) }
{
    write_place(&call.destination, out)?;
    write_symbol(Symbol::Equals, out)?;
    write_symbol(Symbol::Call, out)?;
    write_called(regions, call, out)
}

/// Writes the closure, regions, operands and label of an `invoke`.
fn write_invoked<W: Write>(
    regions: &[RegionName],
    invocation: &Invocation,
    out: &mut W,
) -> Result<(), WriterFault>
    ensures { OnOk result (Writes (W.contents out.old) (W.contents out.new) (spell.invoked regions.now invocation.now)) }
{
    write_place(&invocation.closure, out)?;
    write_angled(regions, invocation.regions.as_slice(), out)?;
    write_operands(invocation.operands.as_slice(), out)?;
    write_label(invocation.target, out)
}

fn write_invocation<W: Write>(
    regions: &[RegionName],
    invocation: &Invocation,
    out: &mut W,
) -> Result<(), WriterFault>
    ensures { OnOk result (Writes (W.contents out.old) (W.contents out.new) (spell.invocation regions.now invocation.now)) }
{
    write_place(&invocation.destination, out)?;
    write_symbol(Symbol::Equals, out)?;
    write_symbol(Symbol::Invoke, out)?;
    write_invoked(regions, invocation, out)
}

fn write_terminator<W: Write>(
    regions: &[RegionName],
    terminator: &Terminator,
    out: &mut W,
) -> Result<(), WriterFault>
    ensures { OnOk result (Writes (W.contents out.old) (W.contents out.new) (spell.terminator regions.now terminator.now)) }
{
    match terminator {
        Terminator::Goto(label) => {
            write_symbol(Symbol::Goto, out)?;
            write_label(*label, out)
        }
        Terminator::If(condition) => {
            write_symbol(Symbol::If, out)?;
            write_condition(condition, out)
        }
        Terminator::Call(call) => write_call(regions, call.get(), out),
        Terminator::Invoke(invocation) => write_invocation(regions, invocation.get(), out),
        Terminator::Return => write_symbol(Symbol::Return, out),
        Terminator::Stop => write_symbol(Symbol::Stop, out),
    }
}

fn write_points<W: Write>(
    regions: &[RegionName],
    block: &Block,
    out: &mut W,
) -> Result<(), WriterFault>
    ensures { OnOk result (Writes (W.contents out.old) (W.contents out.new) (spell.points regions.now block.now)) }
{
    write_lines(regions, block.statements.as_slice(), out)?;
    write_terminator(regions, &block.terminator, out)
}

fn write_braced<W: Write>(
    regions: &[RegionName],
    block: &Block,
    out: &mut W,
) -> Result<(), WriterFault>
    ensures { OnOk result (Writes (W.contents out.old) (W.contents out.new) (spell.braced regions.now block.now)) }
{
    write_symbol(Symbol::OpenBrace, out)?;
    write_points(regions, block, out)?;
    write_symbol(Symbol::Semicolon, out)?;
    write_symbol(Symbol::CloseBrace, out)
}

/// Writes blocks, with labels from `bb0` on.
pub fn write_blocks<W: Write>(
    regions: &[RegionName],
    blocks: &[Block],
    out: &mut W,
) -> Result<(), WriterFault>
    ensures { OnOk result (Writes (W.contents out.old) (W.contents out.new) (spell.blocks regions.now 0 blocks.now)) }
{
    for (number, block) in blocks.iter().enumerate() {
        write_numbered(Numbering::Label, number as u64, out)?;
        write_braced(regions, block, out)?;
    }
    Ok(())
}
