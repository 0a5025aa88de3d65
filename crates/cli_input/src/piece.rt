//! Pieces of a line, as an input lends them.
ghost use Rattle.std.specs.Prelude.{◌≡◌, ◌≤◌, IfOk, length, vec_len};
ghost use Rattle.cli_input.specs.Pieces.{IsCut, TakesPiece};

use std::io;
use std::io::{BufRead, ErrorKind};

/// What comes after a piece of a line: more of the line, its line feed, or the end of the input.
#[derive(Clone, Copy, Debug, PartialEq, Eq)]
pub enum Met {
    More,
    LineFeed,
    End,
}

/// The first piece of a line in some bytes: its length, its length with the line feed, and what comes after it.
#[derive(Drop)]
struct Cut {
    piece: usize,
    through: usize,
    met: Met,
}

/// Returns the piece before the first line feed, or all bytes if there is none.
fn find_cut(bytes: &[u8]) -> Cut
    ensures { IsCut bytes.now result.piece result.through result.met }
{
    for (piece, byte) in bytes.iter().enumerate() {
        if *byte == b'\n' {
            return Cut {
                piece,
                through: piece + 1,
                met: Met::LineFeed,
            };
        }
    }
    Cut {
        piece: bytes.len(),
        through: bytes.len(),
        met: Met::More,
    }
}

/// Takes from the input as much of its first line as one read gives, with the line feed, and appends it to what was read of that line
/// before. At most `most` bytes of the line are kept. An interrupted read takes nothing. Returns an error of the input as it is, except
/// that `OutOfMemory` becomes `Other`; so `OutOfMemory` means that `line` is out of memory. After an error it is not known what was taken.
pub(crate) fn take_piece<I: BufRead>(
    input: &mut I,
    most: usize,
    line: &mut Vec<u8>,
) -> io::Result<Met>
    requires { vec_len line.old ≤ most }
    ensures { IfOk result (λ met. TakesPiece most (I.remaining input.old) (I.remaining input.new) line.old.items line.new.items met) }
{
    let shown = match input.fill_buf() {
        Ok(shown) => shown,
        Err(fault) => {
            return match fault.kind() {
                ErrorKind::Interrupted => Ok(Met::More),
                ErrorKind::OutOfMemory => Err(ErrorKind::Other.into()),
                _ => Err(fault),
            };
        }
    };
    if shown.is_empty() {
        return Ok(Met::End);
    }
    let cut = find_cut(shown);
    let kept = cut.piece.min(most - line.len());
    line.extend_from_slice(&shown[..kept])?;
    input.consume(cut.through);
    Ok(cut.met)
}
