//! A file, cut at its header lines.
ghost use Rattle.std.specs.Prelude.{◌≡◌, ◌≤◌, ◌<◌, ◌+◌, ◌^◌, ◌-◌, ℕ, List, take, drop, length};
ghost use Rattle.std.specs.Io.BufRead.{drop_through};
ghost use Rattle.cli_file.specs.Parts.{sections_from, lines_of, without_end, parts, sections_of};

use memchr::memchr;

/// A section: its header line without the line feed, the number of that line, and the text after it.
#[derive(Clone, Copy)]
pub struct Section<'a> {
    pub line: usize,
    pub header: &'a [u8],
    pub text: &'a [u8],
}

/// The sections of a file, from the front. The first line of a file is a header line, whatever it begins with, and so is each later line
/// that begins with `@`.
#[derive(Clone, Copy)]
pub struct Sections<'a> {
    rest: &'a [u8],
    line: usize,
    ghost numbered: { line + length rest.now < 2 ^ 64 },
}

/// Returns the first line without its line feed, and what follows it.
fn cut_line(text: &[u8]) -> (&[u8], &[u8])
    ensures line { result.0.now ≡ without_end text.now }
    ensures rest { result.1.now ≡ drop_through 10 text.now }
    ensures shorter { 0 < length text.now → length result.1.now < length text.now }
    ensures short { length result.1.now ≤ length text.now }
{
    match memchr(b'\n', text) {
        Some(end) => (&text[..end], &text[end + 1..]),
        None => (text, &text[text.len()..]),
    }
}

/// Returns the length of the text before the next header line, and the number of that line, if the text begins with the line `first`.
fn find_header(text: &[u8], first: usize) -> (usize, usize)
    requires { first + length text.now < 2 ^ 64 }
    ensures within { result.0 ≤ length text.now }
    ensures number { result.1 ≤ first + result.0 }
    ensures parts { parts first (lines_of text.now)
        ≡ record { text = take result.0 text.now; sections = sections_from result.1 (lines_of (drop result.0 text.now)) } }
{
    let mut at = 0;
    let mut number = first;
    // Only the first byte of a line can begin a header line, so `memchr` skips from line feed to line feed.
    while at < text.len() {
        if text[at] == b'@' {
            return (at, number);
        }
        let Some(end) = memchr(b'\n', &text[at..]) else {
            return (text.len(), number);
        };
        at += end + 1;
        number += 1;
    }
    (text.len(), number)
}

impl<'a> Sections<'a> {
    ghost use Rattle.cli_file.specs.Left.{left};

    /// Returns the sections of this file, from the front.
    pub fn of(file: &'a [u8]) -> Self
        ensures { left result ≡ sections_of file.now }
    {
        Sections {
            rest: file,
            line: 1,
        }
    }
}

impl<'a> Iterator for Sections<'a> {
    type Item = Section<'a>;

    ghost use Rattle.std.specs.Iterator.{YieldsFirstBy, item_count};
    ghost use Rattle.cli_file.specs.Left.{left, part_of};

    ghost next_gives = { YieldsFirstBy part_of left };

    ghost remaining = { item_count left };

    /// Returns the next section, or `None` if there is none.
    fn next(&mut self) -> Option<Section<'a>> {
        if self.rest.is_empty() {
            return None;
        }
        let line = self.line;
        let (header, behind) = cut_line(self.rest);
        let (length, next) = find_header(behind, line + 1);
        let (text, rest) = behind.split_at(length);
        *self = Sections { rest, line: next };
        Some(Section { line, header, text })
    }
}
