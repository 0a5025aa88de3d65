//! Reading a whole file.
ghost use Rattle.std.specs.Prelude.{◌≡◌, ◌≤◌, ◌⊎◌, IfSome, IfOk, IfErr, length};
ghost use Rattle.cli_file.specs.Files.{most_bytes};

use crate::stop::Stop;
use std::alloc::Global;
use std::io;
use std::io::{ErrorKind, Read};

/// The longest file that is read, in bytes: 16 MiB.
pub const LIMIT: usize = 16_777_216;

/// A reader that never reports `OutOfMemory`: if a read into a `Vec` does, the `Vec` is out of memory.
#[derive(Drop)]
struct Foreign<R> {
    reader: R,
}

impl<R: Read> Read for Foreign<R> {
    ghost remaining = { λ foreign. R.remaining foreign.reader };

    fn read(&mut self, buf: &mut [u8]) -> io::Result<usize> {
        match self.reader.read(buf) {
            Ok(count) => Ok(count),
            Err(fault) => match fault.kind() {
                ErrorKind::OutOfMemory => Err(ErrorKind::Other.into()),
                _ => Err(fault),
            },
        }
    }
}

/// Reads the whole input, and returns its bytes, at most 16 MiB. Returns `CannotRead` if a read fails or the input is longer, or
/// `NoMemory`.
pub fn read_whole<I: Read>(alloc: Global, input: &mut I) -> Result<Vec<u8>, Stop>
    ensures whole { IfOk result (λ file. IfSome (I.remaining input.old) (λ bytes. file.items ≡ bytes)) }
    ensures short { IfOk result (λ file. length file.items ≤ most_bytes) }
    ensures stop { IfErr result (λ stop. (stop ≡ Stop.CannotRead) ⊎ (stop ≡ Stop.NoMemory)) }
{
    let mut file = Vec::new(alloc);
    let mut limited = Read::take(Foreign { reader: input }, LIMIT as u64 + 1);
    if let Err(fault) = limited.read_to_end(&mut file) {
        return Err(match fault.kind() {
            ErrorKind::OutOfMemory => Stop::NoMemory,
            _ => Stop::CannotRead,
        });
    }
    if file.len() > LIMIT {
        return Err(Stop::CannotRead);
    }
    Ok(file)
}
