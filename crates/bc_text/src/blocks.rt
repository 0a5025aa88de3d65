//! Reads blocks.
ghost use Rattle.std.specs.Prelude.{◌≡◌, ◌≤◌, ◌+◌, length, [], IfOk};
ghost use Rattle.bc_tokens.specs.Parser.{Reads};
ghost use Rattle.bc_text.specs.Reading as spec;

use crate::points::{Point, label, read_point};
use crate::regions::refuse_past;
use bc_syntax::{Block, Numbering, RegionName, Sequence, Symbol};
use bc_tokens::{Cursor, Refusal};
use std::alloc::Global;

fn begins_point(cursor: &Cursor<'_>) -> bool
    ensures { result ≡ spec.begins_point cursor.now }
{
    cursor.sees(Symbol::Return)
        || cursor.sees(Symbol::Stop)
        || cursor.sees(Symbol::Goto)
        || cursor.sees(Symbol::If)
        || cursor.sees(Symbol::Dead)
        || cursor.sees(Symbol::Drop)
        || cursor.sees(Symbol::Nop)
        || cursor.sees_numbered(Numbering::Local)
}

/// Reads the statements and the terminator of a block, at most `left` points.
fn points(
    alloc: Global,
    cursor: &mut Cursor<'_>,
    regions: &[RegionName],
    locals: u16,
    left: u16,
) -> Result<Block, Refusal>
    requires { length regions.now ≤ 15 }
    ensures reads { Reads (spec.block_from regions.now locals left [] cursor.old) result cursor.new }
    ensures few { IfOk result (λ block. length block.statements + 1 ≤ left) }
{
    let mut statements = Sequence::new(alloc);
    for _turn in 0..left {
        match read_point(alloc, cursor, regions, locals)? {
            Point::Terminator(terminator) => {
                return Ok(Block {
                    statements,
                    terminator,
                });
            }
            Point::Statement(statement) => {
                cursor.expect(Symbol::Semicolon)?;
                statements.push(statement)?;
            }
        }
    }
    Err(refuse_past(begins_point(cursor), cursor))
}

#[tactic(auto, unfolding(crate::specs::Reading::braced))]
fn braced(
    alloc: Global,
    cursor: &mut Cursor<'_>,
    regions: &[RegionName],
    locals: u16,
    left: u16,
) -> Result<Block, Refusal>
    requires { length regions.now ≤ 15 }
    ensures reads { Reads (spec.braced regions.now locals left cursor.old) result cursor.new }
    ensures few { IfOk result (λ block. length block.statements + 1 ≤ left) }
{
    cursor.expect(Symbol::OpenBrace)?;
    let block = points(alloc, cursor, regions, locals, left)?;
    cursor.expect(Symbol::Semicolon)?;
    cursor.expect(Symbol::CloseBrace)?;
    Ok(block)
}

/// Reads the block with this number, of at most `left` points.
#[tactic(auto, unfolding(crate::specs::Reading::block))]
fn block(
    alloc: Global,
    cursor: &mut Cursor<'_>,
    regions: &[RegionName],
    locals: u16,
    number: usize,
    left: u16,
) -> Result<Block, Refusal>
    requires { length regions.now ≤ 15 }
    ensures reads { Reads (spec.block regions.now locals number left cursor.old) result cursor.new }
    ensures few { IfOk result (λ block. length block.statements + 1 ≤ left) }
{
    let at = cursor.position();
    if usize::from(label(cursor)?) == number {
        braced(alloc, cursor, regions, locals, left)
    } else {
        Err(Refusal::Grammar { at })
    }
}

/// Reads the blocks of a body, at least one.
#[tactic(auto, unfolding(crate::specs::Reading::blocks, crate::specs::Reading::blocks_turn))]
pub fn blocks(
    alloc: Global,
    cursor: &mut Cursor<'_>,
    regions: &[RegionName],
    locals: u16,
) -> Result<Sequence<Block>, Refusal>
    requires { length regions.now ≤ 15 }
    ensures { Reads (spec.blocks regions.now locals cursor.old) result cursor.new }
{
    let mut found = Sequence::new(alloc);
    let first = block(alloc, cursor, regions, locals, 0, 4096)?;
    let mut left = 4096 - (first.statements.len() as u16 + 1);
    found.push(first)?;
    for _turn in 0..256u16 {
        if !cursor.sees_numbered(Numbering::Label) {
            return Ok(found);
        }
        let block = block(alloc, cursor, regions, locals, found.len(), left)?;
        left -= block.statements.len() as u16 + 1;
        found.push(block)?;
    }
    Err(cursor.fault())
}
