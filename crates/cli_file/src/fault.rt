//! Faults of a file.
ghost use Rattle.std.specs.Prelude.{Some};
ghost use Rattle.cli_file.specs.Faults.{kind_text, message};

use bc_position::Position;
use std::fmt;

/// What is wrong with a section: the header line is none of the command's; the section removes or asks for a name, and its text is not
/// blank; or its text cannot be read. A place counts bytes from 0 in the section's text.
#[derive(Clone, Copy, Debug, PartialEq, Eq)]
pub enum FaultKind {
    BadHeader,
    TextAfterCall,
    TooLong,
    NotAscii { at: usize },
    Token { at: usize },
    Grammar { at: usize },
    Limit { at: usize },
}

/// A fault of a file: the number of the section's header line, from 1, and what is wrong with the section. If a byte is at fault and
/// positions are asked for, the fault also has the line and column of that byte in the file.
#[derive(Clone, Copy, Debug, PartialEq, Eq)]
pub struct FileFault {
    pub line: usize,
    pub kind: FaultKind,
    pub position: Option<Position>,
}

impl fmt::Display for FaultKind {
    ghost output = { λ kind. Some (kind_text kind) };

    fn fmt<W: fmt::Write>(&self, f: &mut fmt::Formatter<W>) -> fmt::Result {
        match *self {
            FaultKind::BadHeader => write!(f, "bad header"),
            FaultKind::TextAfterCall => write!(f, "text after call"),
            FaultKind::TooLong => write!(f, "too long"),
            FaultKind::NotAscii { at } => write!(f, "not ascii at {at}"),
            FaultKind::Token { at } => write!(f, "token at {at}"),
            FaultKind::Grammar { at } => write!(f, "grammar at {at}"),
            FaultKind::Limit { at } => write!(f, "limit at {at}"),
        }
    }
}

impl fmt::Display for FileFault {
    ghost output = { λ fault. Some (message fault) };

    fn fmt<W: fmt::Write>(&self, f: &mut fmt::Formatter<W>) -> fmt::Result {
        let FileFault {
            line,
            kind,
            position,
        } = *self;
        write!(f, "line {line}: {kind}")?;
        match position {
            None => Ok(()),
            Some(Position { line, column }) => write!(f, " (line {line}, column {column})"),
        }
    }
}
