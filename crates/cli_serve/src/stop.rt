//! The reasons for which the command stops.
ghost use Rattle.std.specs.Prelude.{◌≡◌, IsOk, OnOk};
ghost use Rattle.std.specs.Io.KnownBytes.{Appends};
ghost use Rattle.cli_serve.specs.Stops.{both, stop_line, stop_of};

use cli_talk::TalkFault;
use std::io;
use std::io::Write;

/// Why the command stops before the end of its input, or did not end well.
#[derive(Clone, Copy, Debug, PartialEq, Eq)]
pub enum ServeStop {
    /// The input failed.
    CannotRead,
    /// The output failed.
    CannotWrite,
    /// Out of memory.
    NoMemory,
    /// The system starts no more threads.
    NoThread,
    /// A session did not answer each line that names it, and nothing else was wrong. No run is known to end like this.
    LostLine,
    /// History and sessions do not agree.
    Audit,
}

/// Returns why the command stops if a conversation does.
pub(crate) fn stop_of(fault: TalkFault) -> ServeStop
    ensures { result ≡ stop_of fault }
{
    match fault {
        TalkFault::CannotRead => ServeStop::CannotRead,
        TalkFault::CannotWrite => ServeStop::CannotWrite,
        TalkFault::NoMemory => ServeStop::NoMemory,
        TalkFault::OutOfTurn => ServeStop::LostLine,
    }
}

/// Returns how two parts of a conversation ended: well if both did, otherwise like the first that did not. `LostLine` counts only if
/// nothing else was wrong.
pub(crate) fn both(
    before: Result<(), ServeStop>,
    now: Result<(), ServeStop>,
) -> Result<(), ServeStop>
    ensures before { OnOk result (IsOk before) }
    ensures now { OnOk result (IsOk now) }
    ensures which { result ≡ both before now }
{
    match (before, now) {
        (Ok(()), now) => now,
        (Err(ServeStop::LostLine), Err(stop)) => Err(stop),
        (Err(stop), _) => Err(stop),
    }
}

/// Writes the line that says why the command stops.
pub(crate) fn write_stop<E: Write>(stop: ServeStop, err: &mut E) -> io::Result<()>
    ensures { OnOk result (Appends (E.contents err.old) (E.contents err.new) (stop_line stop)) }
{
    match stop {
        ServeStop::CannotRead => writeln!(err, "cannot read"),
        ServeStop::CannotWrite => writeln!(err, "cannot write"),
        ServeStop::NoMemory => writeln!(err, "no memory"),
        ServeStop::NoThread => writeln!(err, "cannot start a thread"),
        ServeStop::LostLine => writeln!(err, "a line was lost"),
        ServeStop::Audit => writeln!(err, "close: audit"),
    }
}
