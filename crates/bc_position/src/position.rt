//! The line and the column of a byte.
ghost use Rattle.std.specs.Prelude.{◌≡◌, ◌≤◌, ◌+◌, length, count_by};
ghost use Rattle.bc_position.specs.Positions.{is_line_feed, last_line, first_lines, position_in, position_behind, position_below};

/// A place in a text: its line and its column, both from 1. A column counts bytes, not characters.
#[derive(Clone, Copy, Debug, PartialEq, Eq)]
pub struct Position {
    pub line: usize,
    pub column: usize,
}

/// Returns the number of line feeds.
fn count_line_feeds(bytes: &[u8]) -> usize
    ensures { result ≡ count_by is_line_feed bytes.now }
{
    bytes.iter().filter(|byte| **byte == b'\n').count()
}

/// Returns the number of bytes after the last line feed, or of all if there is none.
fn count_last_line(bytes: &[u8]) -> usize
    ensures { result ≡ length (last_line bytes.now) }
{
    bytes
        .iter()
        .rev()
        .take_while(|byte| **byte != b'\n')
        .count()
}

/// Returns the line and the column of the byte at offset `at`, or of the end of the text if it is shorter. A line feed belongs to the line
/// that it ends.
pub fn position_of(text: &[u8], at: usize) -> Position
    ensures { result ≡ position_in text.now at }
{
    let front = &text[..at.min(text.len())];
    Position {
        line: 1 + count_line_feeds(front),
        column: 1 + count_last_line(front),
    }
}

/// Returns the length of the first `lines` lines of a text, each with the line feed that ends it.
fn count_first_lines(text: &[u8], lines: usize) -> usize
    ensures value { result ≡ length (first_lines lines text.now) }
    ensures within { result ≤ length text.now }
{
    let mut left = lines;
    for (i, byte) in text.iter().enumerate() {
        if left == 0 {
            return i;
        }
        if *byte == b'\n' {
            left -= 1;
        }
    }
    text.len()
}

/// Returns the line and the column of the byte at offset `at` after the end of line `line`, or of the end of the text if it is shorter.
/// Line 0 ends where the text begins.
pub fn position_below(text: &[u8], line: usize, at: usize) -> Position
    ensures { result ≡ position_below text.now line at }
{
    let start = count_first_lines(text, line);
    position_of(text, start + at.min(text.len() - start))
}
