//! The places of points in a file, and the texts there.
ghost use Rattle.std.specs.Prelude.{◌≡◌, ◌≤◌, ◌++◌, ◌+◌, length, map, reverse, take_while, codes, decimal, OnOk};
ghost use Rattle.std.specs.Io.KnownBytes.{Appends};
ghost use Rattle.bc_position.specs.Positions.{position_in};
ghost use Rattle.bc_source.specs.Points.{without_last_blanks, statement_at, in_one_line, position_text, place_text, place_line, point_line, is_blank, is_no_semicolon};

use crate::starts::Start;
use crate::unit::SourceUnit;
use bc_mir::Point;
use bc_report::write_number;
use bc_writer::{WriterFault, write_bytes};
use std::io::Write;

/// Returns whether a byte is a blank of a text.
fn is_blank(byte: u8) -> bool
    ensures { result ≡ is_blank byte }
{
    byte == b' ' || byte == b'\n'
}

/// Returns the number of blanks that some bytes end with.
fn count_last_blanks(bytes: &[u8]) -> usize
    ensures { result ≡ length (take_while is_blank (reverse bytes.now)) }
{
    bytes
        .iter()
        .rev()
        .take_while(|byte| is_blank(**byte))
        .count()
}

/// Returns the number of bytes before the first `;`, or of all if there is none.
fn count_to_semicolon(bytes: &[u8]) -> usize
    ensures { result ≡ length (take_while is_no_semicolon bytes.now) }
{
    bytes.iter().take_while(|byte| **byte != b';').count()
}

/// Returns bytes without the blanks at their end.
fn without_last_blanks(bytes: &[u8]) -> &[u8]
    ensures { result.now ≡ without_last_blanks bytes.now }
{
    let blanks = count_last_blanks(bytes);
    &bytes[..bytes.len() - blanks]
}

/// Returns the bytes before the first `;`, or all without one.
fn to_semicolon(bytes: &[u8]) -> &[u8]
    ensures { result.now ≡ take_while is_no_semicolon bytes.now }
{
    let length = count_to_semicolon(bytes);
    &bytes[..length]
}

/// Returns the statement or terminator that begins at this byte, without the `;` after it.
fn statement_at(text: &[u8], at: usize) -> &[u8]
    ensures { result.now ≡ statement_at text.now at }
{
    without_last_blanks(to_semicolon(&text[at.min(text.len())..]))
}

/// Writes bytes in one line: each line feed as a space.
fn write_in_one_line<W: Write>(bytes: &[u8], out: &mut W) -> Result<(), WriterFault>
    ensures { OnOk result (Appends (W.contents out.old) (W.contents out.new) (map in_one_line bytes.now)) }
{
    for byte in bytes {
        let byte = if *byte == b'\n' { b' ' } else { *byte };
        write_bytes(&[byte], out)?;
    }
    Ok(())
}

/// Writes four spaces, a word and a space.
fn write_word<W: Write>(word: &str, out: &mut W) -> Result<(), WriterFault>
    ensures { OnOk result (Appends (W.contents out.old) (W.contents out.new) (codes "    " ++ word.now ++ codes " ")) }
{
    write_bytes(b"    ", out)?;
    write_bytes(word.as_bytes(), out)?;
    write_bytes(b" ", out)
}

/// Writes a line, a colon, a column and a space.
fn write_line_and_column<W: Write>(
    line: u128,
    column: usize,
    out: &mut W,
) -> Result<(), WriterFault>
    ensures { OnOk result (Appends (W.contents out.old) (W.contents out.new) (decimal line ++ codes ":" ++ decimal column ++ codes " ")) }
{
    write_number(line, out)?;
    write_bytes(b":", out)?;
    write_number(column as u128, out)?;
    write_bytes(b" ", out)
}

/// Writes a word, then a line and a column of the file.
#[tactic(auto, unfolding(crate::specs::Points::position_text))]
fn write_position<W: Write>(
    word: &str,
    line: u128,
    column: usize,
    out: &mut W,
) -> Result<(), WriterFault>
    ensures { OnOk result (Appends (W.contents out.old) (W.contents out.new) (position_text word.now line column)) }
{
    write_word(word, out)?;
    write_line_and_column(line, column, out)
}

/// Writes the line with a word, a line and a column of the file, and the text there in one line.
fn write_place<W: Write>(
    word: &str,
    line: u128,
    column: usize,
    text: &[u8],
    out: &mut W,
) -> Result<(), WriterFault>
    ensures { OnOk result (Appends (W.contents out.old) (W.contents out.new) (place_text word.now line column text.now)) }
{
    write_position(word, line, column, out)?;
    write_in_one_line(text, out)?;
    write_bytes(b"\n", out)
}

/// Writes the line of what begins here.
fn write_start<W: Write>(
    word: &str,
    source: &SourceUnit<'_>,
    start: Start,
    out: &mut W,
) -> Result<(), WriterFault>
    requires { start.position ≡ position_in source.now.text start.at }
    ensures { OnOk result (Appends (W.contents out.old) (W.contents out.new) (place_line word.now source.now start.at)) }
{
    let line = source.line() as u128 + start.position.line as u128;
    let text = statement_at(source.text(), start.at);
    write_place(word, line, start.position.column, text, out)
}

/// Writes the line of a point, or nothing if the unit has no such point.
pub(crate) fn write_point<W: Write>(
    word: &str,
    source: &SourceUnit<'_>,
    point: Point,
    out: &mut W,
) -> Result<(), WriterFault>
    ensures { OnOk result (Appends (W.contents out.old) (W.contents out.new) (point_line word.now source.now point)) }
{
    match source.start_of(point) {
        Some(start) => write_start(word, source, start, out),
        None => Ok(()),
    }
}
