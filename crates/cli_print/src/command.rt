//! The command `print` on a file.
ghost use Rattle.std.specs.Prelude.{◌≡◌, ◌≤◌, ◌<◌, ◌⊎◌, [], Err, IfOk, IfErr, OnOk};
ghost use Rattle.std.specs.Io.Buffered.{writer_buffer, writer_contents};
ghost use Rattle.cli_file.specs.Ends.{OfFile};
ghost use Rattle.cli_print.specs.Ends.{Printed, Leaves, IsEnd};

use crate::sections::print_sections;
use cli_file::{Stop, read_told_changes, read_whole, stop_with};
use cli_line::PrintLine;
use std::alloc::Global;
use std::io;
use std::io::{BufWriter, Read, Write};

/// Reads the whole input and prints its sections: each header line as it is, and after it the section's text in its one spelling, which is
/// its tokens with one space between two and a line feed at the end. Nothing is printed before the whole file is read. If the buffer of
/// `out` was empty, it is empty afterwards, unless its writer failed.
///
/// Stops with `CannotRead` if the input cannot be read or is over 16 MiB; with `File` at its first fault, which is that of `check`; with
/// `NoMemory` if it is out of memory; and with `CannotWrite` if the writer fails.
pub fn print<I: Read, O: Write + Drop>(
    alloc: Global,
    line: &PrintLine,
    input: &mut I,
    out: &mut BufWriter<O>,
) -> Result<(), Stop>
    ensures done { OnOk result (OfFile (I.remaining input.old) (λ file. Printed file
        (writer_contents O.contents out.old) (writer_contents O.contents out.new))) }
    ensures stopped { IfErr result (λ stop. Leaves line.now stop (I.remaining input.old)
        (writer_contents O.contents out.old) (writer_contents O.contents out.new)) }
    ensures handed_on { writer_buffer out.old ≡ [] → (result ≡ Err Stop.CannotWrite) ⊎ (writer_buffer out.new ≡ []) }
{
    let file = read_whole(alloc, input)?;
    let changes = read_told_changes(alloc, line.positions(), &file)?;
    if print_sections(&file, &changes, out).is_err() {
        return Err(Stop::CannotWrite);
    }
    match out.flush() {
        Ok(()) => Ok(()),
        Err(_) => Err(Stop::CannotWrite),
    }
}

/// Runs the whole command `print` on the input of the file that the line names: writes its sections to `out`, and returns the exit status.
/// It flushes `out` before a line on `err` says why the command stops. After `cannot write`, `out` still holds what its writer did not
/// take.
///
/// The status is 0 if the sections are printed; 2 if the file has a fault; 3 if the command stops for another reason. One line on `err`
/// says why it stops. It returns the fault of `err` if that line cannot be written: then nothing more can be said.
pub fn print_and_tell<I: Read, O: Write + Drop, E: Write>(
    alloc: Global,
    line: &PrintLine,
    input: &mut I,
    out: &mut BufWriter<O>,
    err: &mut E,
) -> io::Result<u8>
    ensures range { IfOk result (λ status. status ≤ 3) }
    ensures ended { IfOk result (λ status. IsEnd line.now (I.remaining input.old) status
        (writer_contents O.contents out.old) (writer_contents O.contents out.new) (E.contents err.old) (E.contents err.new)) }
    ensures handed_on { writer_buffer out.old ≡ [] → IfOk result (λ status. status < 3 → writer_buffer out.new ≡ []) }
{
    match print(alloc, line, input, out) {
        Ok(()) => Ok(0),
        Err(stop) => stop_with(line.file(), &stop, err),
    }
}

/// Runs the whole command `print` on the input of the file that the line names, and returns the exit status, as `print_and_tell` does; it
/// is 3 if standard error fails.
pub fn print_over<I: Read, O: Write + Drop, E: Write>(
    alloc: Global,
    line: &PrintLine,
    input: &mut I,
    out: &mut BufWriter<O>,
    err: &mut E,
) -> u8
    ensures range { result ≤ 3 }
    ensures ended { result < 3 → IsEnd line.now (I.remaining input.old) result
        (writer_contents O.contents out.old) (writer_contents O.contents out.new) (E.contents err.old) (E.contents err.new) }
    ensures handed_on { writer_buffer out.old ≡ [] → result < 3 → writer_buffer out.new ≡ [] }
{
    match print_and_tell(alloc, line, input, out, err) {
        Ok(status) => status,
        Err(_) => 3,
    }
}
