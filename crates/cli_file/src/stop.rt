//! The reasons for which a command stops early.
ghost use Rattle.std.specs.Prelude.{◌≡◌, ◌≤◌, IfOk, OnOk};
ghost use Rattle.std.specs.Io.KnownBytes.{Appends};
ghost use Rattle.cli_file.specs.Stops.{last_line, stop_status, refusal_stop, open_stop, close_stop};

use crate::FileFault;
use crate::one_line::write_in_one_line;
use bc_book::Refusal;
use bc_share::{CloseFault, OpenFault};
use std::alloc::{AllocError, AllocFailed};
use std::io;
use std::io::Write;

/// Why a command stops before its end.
#[derive(Clone, Copy, Debug, PartialEq, Eq)]
pub enum Stop {
    /// The words are not a command line.
    WrongUse,
    /// The file cannot be read, or is too long.
    CannotRead,
    /// Standard output failed.
    CannotWrite,
    /// Standard error failed, so that nothing more can be said.
    CannotTell,
    /// Out of memory.
    NoMemory,
    /// The file has a fault.
    File(FileFault),
    /// The file makes more calls than a history may have.
    TooManyCalls,
    /// The history is full.
    HistoryFull,
    /// The database was closed with sessions that are not its own, which no command does.
    Foreign,
    /// The history does not agree with what the session did.
    Audit,
}

impl From<AllocError> for Stop {
    ghost use Rattle.cli_file.specs.declared.stop.Stop.TheVariants.{NoMemory};

    ghost from_gives = { λ _ stop. stop ≡ NoMemory };

    fn from(_error: AllocError) -> Self {
        Stop::NoMemory
    }
}

impl<T: Drop> From<AllocFailed<T>> for Stop {
    ghost use Rattle.cli_file.specs.declared.stop.Stop.TheVariants.{NoMemory};

    ghost from_gives = { λ _ stop. stop ≡ NoMemory };

    fn from(_error: AllocFailed<T>) -> Self {
        Stop::NoMemory
    }
}

impl From<Refusal> for Stop {
    ghost from_gives = { λ refusal stop. stop ≡ refusal_stop refusal };

    fn from(refusal: Refusal) -> Self {
        match refusal {
            Refusal::NoMemory => Stop::NoMemory,
            Refusal::HistoryFull => Stop::HistoryFull,
        }
    }
}

impl From<OpenFault> for Stop {
    ghost from_gives = { λ fault stop. stop ≡ open_stop fault };

    fn from(fault: OpenFault) -> Self {
        match fault {
            OpenFault::Range => Stop::TooManyCalls,
            OpenFault::NoMemory => Stop::NoMemory,
        }
    }
}

impl From<CloseFault> for Stop {
    ghost from_gives = { λ fault stop. stop ≡ close_stop fault };

    fn from(fault: CloseFault) -> Self {
        match fault {
            CloseFault::Foreign => Stop::Foreign,
            CloseFault::Audit(_) => Stop::Audit,
        }
    }
}

/// Returns the status of a command that stops: 2 for a fault of the file, otherwise 3.
fn exit_status(stop: &Stop) -> u8
    ensures value { result ≡ stop_status stop.now }
    ensures range { result ≤ 3 }
{
    match stop {
        Stop::File(_) => 2,
        Stop::WrongUse
        | Stop::CannotRead
        | Stop::CannotWrite
        | Stop::CannotTell
        | Stop::NoMemory
        | Stop::TooManyCalls
        | Stop::HistoryFull
        | Stop::Foreign
        | Stop::Audit => 3,
    }
}

/// Writes that the file of this name cannot be read.
fn write_unread<E: Write>(file: &str, err: &mut E) -> io::Result<()>
    ensures { OnOk result (Appends (E.contents err.old) (E.contents err.new) (last_line file.now Stop.CannotRead)) }
{
    err.write_all(b"cannot read ")?;
    write_in_one_line(file, err)?;
    err.write_all(b"\n")
}

/// Writes one line that says why a command on the file of this name stops, or nothing if standard error failed already.
fn write_last_line<E: Write>(file: &str, stop: &Stop, err: &mut E) -> io::Result<()>
    ensures { OnOk result (Appends (E.contents err.old) (E.contents err.new) (last_line file.now stop.now)) }
{
    match *stop {
        Stop::WrongUse => writeln!(err, "wrong use"),
        Stop::CannotRead => write_unread(file, err),
        Stop::CannotWrite => writeln!(err, "cannot write"),
        Stop::CannotTell => Ok(()),
        Stop::NoMemory => writeln!(err, "no memory"),
        Stop::File(fault) => writeln!(err, "{fault}"),
        Stop::TooManyCalls => writeln!(err, "too many calls"),
        Stop::HistoryFull => writeln!(err, "history full"),
        Stop::Foreign => writeln!(err, "close: foreign"),
        Stop::Audit => writeln!(err, "close: audit"),
    }
}

/// Writes why a command on the file of this name stops, and returns its exit status: 2 if the file has a fault, otherwise 3. A control
/// character of the name is written as `?`, so this is one line. Returns the writer's fault if the line cannot be written.
pub fn stop_with<E: Write>(file: &str, stop: &Stop, err: &mut E) -> io::Result<u8>
    ensures range { IfOk result (λ status. status ≤ 3) }
    ensures status { IfOk result (λ status. status ≡ stop_status stop.now) }
    ensures said { OnOk result (Appends (E.contents err.old) (E.contents err.new) (last_line file.now stop.now)) }
{
    write_last_line(file, stop, err)?;
    Ok(exit_status(stop))
}
