//! Why a line is not a request.
use bc_position::Position;

/// The kind of fault in the text of a unit or of declarations: a byte that is not ASCII, something that is no token, a token that is not
/// allowed there, or one past a limit.
#[derive(Clone, Copy, Debug, PartialEq, Eq)]
pub enum TextFaultKind {
    NotAscii,
    Token,
    Grammar,
    Limit,
}

/// Why the text of a unit or of declarations cannot be read: its first fault, the place of that in bytes from the start of the text, and
/// its line and column in the text.
#[derive(Clone, Copy, Debug, PartialEq, Eq)]
pub struct TextFault {
    pub kind: TextFaultKind,
    pub at: usize,
    pub position: Position,
}

/// Why a line is not a request: the first thing that is wrong with it. `NotJson`: the line is not JSON (RFC 8259) in UTF-8, or nests deeper
/// than 127. `TooLong`: the line, or the text in it, has too many bytes. `BadSession`: the member `session` is not the number of a session.
/// `BadCall`: the member `call` is missing or no call. `BadName`: the call needs a name, and the member `name` is missing or none.
/// `BadText`: the call needs a text, and the member `text` is missing or no string. `Text`: that text cannot be read.
#[derive(Clone, Copy, Debug, PartialEq, Eq)]
pub enum RequestFault {
    NotJson,
    TooLong,
    BadSession,
    BadCall,
    BadName,
    BadText,
    Text(TextFault),
}

/// Why a step of the reading has no result: something is wrong with the request, or memory ran out.
#[derive(Clone, Copy, Debug)]
pub enum RequestStop {
    Fault(RequestFault),
    NoMemory,
}
