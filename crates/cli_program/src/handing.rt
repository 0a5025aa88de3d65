//! Flushing standard output and standard error at the end.
ghost use Rattle.std.specs.Prelude.{◌≡◌, ◌≤◌, ◌<◌, [], IfOk};
ghost use Rattle.std.specs.Io.Buffered.{writer_buffer, writer_contents};
ghost use Rattle.std.specs.Io.KnownBytes.{Keeps};
ghost use Rattle.cli_program.specs.Ends.{HandsOn};

use cli_file::{Stop, stop_with};
use std::io;
use std::io::{BufWriter, Write};

/// How a command ended: its exit status, or the fault of standard error, so that nothing more can be said.
pub(crate) type Exit = io::Result<u8>;

/// Flushes the buffer if nothing has failed yet, and writes that standard output failed if it does here. Returns the exit status.
pub(crate) fn hand_on<O: Write + Drop, E: Write>(
    status: u8,
    out: &mut BufWriter<O>,
    err: &mut E,
) -> io::Result<u8>
    requires { status ≤ 3 }
    ensures range { IfOk result (λ exit. exit ≤ 3) }
    ensures kept { Keeps (writer_contents O.contents out.old) (writer_contents O.contents out.new) }
    ensures ended { IfOk result (λ exit. HandsOn status exit (E.contents err.old) (E.contents err.new)) }
    ensures handed_on { IfOk result (λ exit. exit < 3 → writer_buffer out.new ≡ []) }
{
    if status == 3 || out.flush().is_ok() {
        Ok(status)
    } else {
        stop_with("", &Stop::CannotWrite, err)
    }
}

/// Flushes standard error, and returns the status with which the command ended. Returns the fault of standard error if the flush fails.
pub(crate) fn hand_on_told<E: Write>(status: u8, err: &mut E) -> io::Result<u8>
    ensures same { IfOk result (λ exit. exit ≡ status) }
    ensures kept { Keeps (E.contents err.old) (E.contents err.new) }
{
    err.flush()?;
    Ok(status)
}
