//! The command `print` on the input that its line names.
ghost use Rattle.std.specs.Prelude.{◌≡◌, ◌≤◌, ◌<◌, [], IfOk};
ghost use Rattle.std.specs.Io.Buffered.{writer_buffer, writer_contents};
ghost use Rattle.cli_print.specs.Ends.{IsEnd};
ghost use Rattle.cli_program.specs.Ends.{input_of};

use crate::Inputs;
use crate::inputs::open_input;
use cli_file::{Stop, stop_with};
use cli_line::PrintLine;
use cli_print::print_and_tell;
use std::io;
use std::io::{BufRead, BufWriter, Write};

/// Runs the command `print` on standard input or the file that its line names, and returns its exit status.
pub(crate) fn obey_print<R: AllocGlobal, S: Inputs, I: BufRead, O: Write + Drop, E: Write>(
    rt: &R,
    print: &PrintLine,
    inputs: &S,
    standard: &mut I,
    out: &mut BufWriter<O>,
    err: &mut E,
) -> io::Result<u8>
    ensures range { IfOk result (λ status. status ≤ 3) }
    ensures ended { IfOk result (λ status. IsEnd print.now (input_of (S.bytes_of inputs.now) (I.remaining standard.old) print.now.file) status
        (writer_contents O.contents out.old) (writer_contents O.contents out.new) (E.contents err.old) (E.contents err.new)) }
    ensures handed_on { writer_buffer out.old ≡ [] → IfOk result (λ status. status < 3 → writer_buffer out.new ≡ []) }
{
    match open_input(inputs, standard, print.file()) {
        Ok(mut input) => print_and_tell(rt.alloc(), print, &mut input, out, err),
        Err(_) => stop_with(print.file(), &Stop::CannotRead, err),
    }
}
