//! The answer to words that are no command line, such as `--help`.
ghost use Rattle.std.specs.Prelude.{◌≤◌, IfOk};
ghost use Rattle.cli_file.specs.Words.{AnswersWords};

use crate::stop::{Stop, stop_with};
use cli_line::{LineFault, Topic, write_usage, write_version};
use std::io;
use std::io::Write;

/// Prints the help on a topic, or says that standard output failed. Returns the exit status.
fn help<O: Write, E: Write>(topic: Topic, out: &mut O, err: &mut E) -> io::Result<u8>
    ensures range { IfOk result (λ status. status ≤ 3) }
    ensures answered { IfOk result (λ status. AnswersWords (LineFault.Help topic) status
        (O.contents out.old) (O.contents out.new) (E.contents err.old) (E.contents err.new)) }
{
    match write_usage(topic, out) {
        Ok(()) => Ok(0),
        Err(_) => stop_with("", &Stop::CannotWrite, err),
    }
}

/// Prints the line of the version, or says that standard output failed. Returns the exit status.
fn version<O: Write, E: Write>(out: &mut O, err: &mut E) -> io::Result<u8>
    ensures range { IfOk result (λ status. status ≤ 3) }
    ensures answered { IfOk result (λ status. AnswersWords LineFault.Version status
        (O.contents out.old) (O.contents out.new) (E.contents err.old) (E.contents err.new)) }
{
    match write_version(out) {
        Ok(()) => Ok(0),
        Err(_) => stop_with("", &Stop::CannotWrite, err),
    }
}

/// Answers words that are no command line, and returns the exit status. It is 0 after the help on a topic or the line of the version on
/// `out`; otherwise it is 3, and one line on `err` says why, which is `cannot write` if `out` failed. Returns the fault of `err` if that
/// line cannot be written.
pub fn answer_words<O: Write, E: Write>(
    fault: LineFault,
    out: &mut O,
    err: &mut E,
) -> io::Result<u8>
    ensures range { IfOk result (λ status. status ≤ 3) }
    ensures answered { IfOk result (λ status. AnswersWords fault status (O.contents out.old) (O.contents out.new) (E.contents err.old) (E.contents err.new)) }
{
    match fault {
        LineFault::Help(topic) => help(topic, out, err),
        LineFault::Version => version(out, err),
        LineFault::WrongUse => stop_with("", &Stop::WrongUse, err),
        LineFault::NoMemory => stop_with("", &Stop::NoMemory, err),
    }
}
