//! Writing all bytes, and the fault of the writer, which is made here and nowhere else.
#![tactic(auto)]

ghost use Rattle.std.specs.Prelude.{OnOk};
ghost use Rattle.std.specs.Io.KnownBytes.{Appends};

use std::io;
use std::io::Write;
use thiserror::Error;

/// The error of a failed write. Only `write_bytes` makes one, and only of a failed write, so a function that returns one did not fail for
/// another reason.
#[derive(Debug, Drop, Error)]
#[error(transparent)]
pub struct WriterFault(io::Error);

impl From<WriterFault> for io::Error {
    /// Returns the error of the write itself.
    fn from(fault: WriterFault) -> io::Error {
        fault.0
    }
}

/// Writes all bytes. Returns `WriterFault` if the writer does not take them all.
pub fn write_bytes<W: Write>(bytes: &[u8], out: &mut W) -> Result<(), WriterFault>
    ensures { OnOk result (Appends (W.contents out.old) (W.contents out.new) bytes.now) }
{
    match out.write_all(bytes) {
        Ok(()) => Ok(()),
        Err(fault) => Err(WriterFault(fault)),
    }
}
