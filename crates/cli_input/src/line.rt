//! The next line of an input.
ghost use Rattle.std.specs.Prelude.{◌≡◌, ◌<◌, ◌-◌, ◌+◌, ◌^◌, ℕ, List, IfOk, length, take};
ghost use Rattle.cli_input.specs.Lines.{IsLine, ReadsNext};

use crate::piece::{Met, take_piece};
use std::alloc::Global;
use std::io;
use std::io::{BufRead, ErrorKind};

/// A line of an input: its bytes without the line feed, or `TooLong` if it has more bytes than the reader's limit.
#[derive(Drop)]
pub enum InputLine {
    Text(Vec<u8>),
    TooLong,
}

/// Returns the line from its first bytes, of which at most `limit + 1` were kept.
fn finish(line: Vec<u8>, limit: usize) -> InputLine
    requires { limit < 2 ^ 64 - 1 }
    ensures { (bytes : List ℕ) → line.items ≡ take (limit + 1) bytes → IsLine limit bytes result }
{
    if line.len() > limit {
        return InputLine::TooLong;
    }
    InputLine::Text(line)
}

/// Returns the next line of an input, or `None` at its end. A line ends after its line feed; the last one may have none. Nothing after the
/// line is waited for. Of a line with more than `limit` bytes, at most `limit + 1` are in memory at a time: it is read to its end, and is
/// `TooLong`.
///
/// Returns an error of the input as it is, with two exceptions: after `ErrorKind::Interrupted` it reads on, and `ErrorKind::OutOfMemory`
/// becomes `ErrorKind::Other`. It returns `ErrorKind::OutOfMemory` only if it is itself out of memory. After an error it is not known what
/// was read.
pub fn read_input_line<I: BufRead>(
    alloc: Global,
    input: &mut I,
    limit: usize,
) -> io::Result<Option<InputLine>>
    requires { limit < 2 ^ 64 - 1 }
    ensures { IfOk result (λ line. ReadsNext limit (I.remaining input.old) (I.remaining input.new) line) }
{
    let mut line = Vec::new(alloc);
    'pieces: for _ in 0..u64::MAX {
        match take_piece(input, limit + 1, &mut line)? {
            Met::More => {}
            Met::LineFeed => return Ok(Some(finish(line, limit))),
            Met::End if line.is_empty() => return Ok(None),
            Met::End => return Ok(Some(finish(line, limit))),
        }
    }
    Err(ErrorKind::Other.into())
}
