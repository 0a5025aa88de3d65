//! Where a line goes: to the session that it names, or to none.
ghost use Rattle.std.specs.Prelude.{◌≡◌, IfOk, List, ℕ};
ghost use Rattle.cli_input.specs.Lines.{IsLine};
ghost use Rattle.cli_requests.specs.declared.request.TheConstants.{MOST_REQUEST_BYTES};
ghost use Rattle.cli_requests.specs.Destinations.{IsDestination, IsFromLine};

use crate::fault::{RequestFault, RequestStop};
use crate::id::Id;
use crate::line::read_line;
use crate::session::session_of;
use cli_input::InputLine;
use serde_json::Value;
use std::alloc::{AllocError, Global};

/// A line that names a session: the session, the JSON value of the line, and the number of its bytes. Contracts see the value's data, by
/// `parsed_data`.
pub struct ParsedLine {
    pub(crate) session: u8,
    pub(crate) value: Value,
    bytes: usize,
}

// Handwritten, so that it is proved once.
impl Drop for ParsedLine {
    fn drop(self) {
        let Self {
            session: _,
            value: _,
            bytes: _,
        } = self;
    }
}

impl ParsedLine {
    /// Returns the session that the line names.
    pub fn session(&self) -> u8
        ensures { result ≡ self.now.session }
    {
        self.session
    }

    /// Returns the number of bytes of the line, without its line feed.
    pub fn bytes(&self) -> usize
        ensures { result ≡ self.now.bytes }
    {
        self.bytes
    }
}

/// Where a line goes. `Session` has a line that names a session. `Nowhere` has the id of a line that names none, and why it is not a
/// request.
#[derive(Drop)]
pub enum Destination {
    Session(ParsedLine),
    Nowhere(Id, RequestFault),
}

/// Returns where a line with these bytes goes.
#[tactic(auto, using(crate::proofs::Readings::unread_nowhere, crate::proofs::Readings::bad_nowhere, crate::proofs::Readings::goes_to, crate::proofs::Readings::goes_from))]
fn read_destination(alloc: Global, line: &[u8], sessions: u8) -> Result<Destination, AllocError>
    ensures goes { IfOk result (IsDestination sessions line.now) }
    ensures parsed { IfOk result (IsFromLine sessions) }
{
    let value = match read_line(alloc, line) {
        Ok(value) => value,
        Err(RequestStop::Fault(fault)) => return Ok(Destination::Nowhere(Id::none(), fault)),
        Err(RequestStop::NoMemory) => return Err(AllocError),
    };
    let Some(session) = session_of(&value, sessions) else {
        let id = Id::of(&value)?;
        return Ok(Destination::Nowhere(id, RequestFault::BadSession));
    };
    Ok(Destination::Session(ParsedLine {
        session,
        value,
        bytes: line.len(),
    }))
}

/// Returns where a line goes, for the given number of sessions. The line was read by `cli_input::read_input_line` with the limit
/// `MOST_REQUEST_BYTES`. It goes to the session that it names: the number in its member `session`, or 0 if the line is JSON without that
/// member. It goes nowhere exactly if it has too many bytes, is not JSON (RFC 8259) in UTF-8, nests deeper than 127, or does not name a
/// whole number below `sessions`.
#[tactic(auto, using(crate::proofs::Readings::long_nowhere))]
pub fn find_destination(
    alloc: Global,
    line: &InputLine,
    sessions: u8,
) -> Result<Destination, AllocError>
    ensures goes { (bytes : List ℕ) → IsLine MOST_REQUEST_BYTES bytes line.now → IfOk result (IsDestination sessions bytes) }
    ensures parsed { IfOk result (IsFromLine sessions) }
{
    match line {
        InputLine::Text(text) => read_destination(alloc, text.as_slice(), sessions),
        InputLine::TooLong => Ok(Destination::Nowhere(Id::none(), RequestFault::TooLong)),
    }
}
