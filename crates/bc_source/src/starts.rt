//! Where points begin: their bytes, with lines and columns.
ghost use Rattle.std.specs.Prelude.{◌≡◌, ◌≤◌, ◌<◌, ◌^◌, length, map, IfOk};
ghost use Rattle.bc_position.specs.Positions.{position_in};
ghost use Rattle.bc_source.specs.Points.{behind_byte, start_in};

use bc_position::{Position, position_of};
use std::alloc::{AllocError, Global};

/// Where a point begins in its text: the byte, counted from 0, and its line and column there.
#[derive(Clone, Copy)]
pub(crate) struct Start {
    pub(crate) at: usize,
    pub(crate) position: Position,
}

/// Returns the line and column right after a byte, from those of the byte.
fn behind_byte(position: Position, byte: u8) -> Position
    requires line { position.line < 2 ^ 63 }
    requires column { position.column < 2 ^ 63 }
    ensures { result ≡ behind_byte position byte }
{
    if byte == b'\n' {
        Position {
            line: position.line + 1,
            column: 1,
        }
    } else {
        Position {
            line: position.line,
            column: position.column + 1,
        }
    }
}

/// Returns the line and column of a byte, counted on from those of an earlier one.
fn position_from(text: &[u8], from: Start, at: usize) -> Position
    requires known { from.position ≡ position_in text.now from.at }
    requires later { from.at ≤ at }
    requires within { at ≤ length text.now }
    ensures { result ≡ position_in text.now at }
{
    let mut position = from.position;
    let mut passed = from.at;
    while passed < at {
        position = behind_byte(position, text[passed]);
        passed += 1;
    }
    position
}

/// Returns the byte with its line and column. They are counted on from the byte `from`, or from the start of the text if `at` is before
/// that or past the end.
fn start_from(text: &[u8], from: Start, at: usize) -> Start
    requires { from.position ≡ position_in text.now from.at }
    ensures { result ≡ start_in text.now at }
{
    let position = if from.at <= at && at <= text.len() {
        position_from(text, from, at)
    } else {
        position_of(text, at)
    };
    Start { at, position }
}

/// Returns the bytes in their order, each with its line and column. It passes over the text once if the bytes ascend.
pub(crate) fn starts_in(
    alloc: Global,
    text: &[u8],
    places: &[usize],
) -> Result<Vec<Start>, AllocError>
    ensures { IfOk result (λ starts. starts.items ≡ map (start_in text.now) places.now) }
{
    let mut starts = Vec::new(alloc);
    let mut last = Start {
        at: 0,
        position: Position { line: 1, column: 1 },
    };
    for at in places {
        last = start_from(text, last, *at);
        starts.push(last)?;
    }
    Ok(starts)
}
