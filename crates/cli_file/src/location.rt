//! The place of a fault in its file.
ghost use Rattle.std.specs.Prelude.{◌≡◌};
ghost use Rattle.cli_file.specs.Located.{byte_of, byte_position, located, located_stop};

use crate::fault::{FaultKind, FileFault};
use crate::stop::Stop;
use bc_position::{Position, position_below};

/// Returns the byte of a fault, counted from 0 in the section's text, or `None` if the fault has none.
fn byte_of(kind: FaultKind) -> Option<usize>
    ensures { result ≡ byte_of kind }
{
    match kind {
        FaultKind::BadHeader | FaultKind::TextAfterCall | FaultKind::TooLong => None,
        FaultKind::NotAscii { at }
        | FaultKind::Token { at }
        | FaultKind::Grammar { at }
        | FaultKind::Limit { at } => Some(at),
    }
}

/// Returns the place in the file of a fault's byte.
fn byte_position(file: &[u8], fault: FileFault) -> Option<Position>
    ensures { result ≡ byte_position file.now fault }
{
    let at = byte_of(fault.kind)?;
    Some(position_below(file, fault.line, at))
}

/// Returns a fault of the file, with its position if positions are asked for, and with none otherwise.
fn locate_fault(positions: bool, file: &[u8], fault: FileFault) -> FileFault
    ensures { result ≡ located positions file.now fault }
{
    let position = if positions {
        byte_position(file, fault)
    } else {
        None
    };
    FileFault {
        line: fault.line,
        kind: fault.kind,
        position,
    }
}

/// Returns the stop, with the line and column of its byte if it is a fault of this file that has a byte, and positions are asked for. Any
/// other stop is unchanged.
pub fn locate(positions: bool, file: &[u8], stop: Stop) -> Stop
    ensures { result ≡ located_stop positions file.now stop }
{
    match stop {
        Stop::File(fault) => Stop::File(locate_fault(positions, file, fault)),
        Stop::WrongUse
        | Stop::CannotRead
        | Stop::CannotWrite
        | Stop::CannotTell
        | Stop::NoMemory
        | Stop::TooManyCalls
        | Stop::HistoryFull
        | Stop::Foreign
        | Stop::Audit => stop,
    }
}
