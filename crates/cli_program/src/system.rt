//! The program on its own words and the files of the system.
ghost use Rattle.std.specs.Prelude.{◌≤◌, IfOk};

use crate::SystemFiles;
use crate::handing::{Exit, hand_on_told};
use crate::program::obey_words;
use cli_file::{Stop, answer_words, stop_with};
use cli_line::LineFault;
use std::env::Env;
use std::fs::Files;
use std::io::{BufRead, BufReader, BufWriter, ErrorKind, Read, Write};
use std::sync::Wait;
use std::thread::Threads;
use std::{env, io};

/// Returns the words of the command line, without the program's own name. Returns `NoMemory` if there is no room for them, and `WrongUse`
/// if one is not UTF-8.
fn read_words<R: Env + AllocGlobal>(rt: &R) -> Result<Vec<String>, LineFault> {
    let own = match env::args(rt) {
        Ok(words) => words,
        Err(fault) if fault.kind() == ErrorKind::OutOfMemory => return Err(LineFault::NoMemory),
        Err(_) => return Err(LineFault::WrongUse),
    };
    let mut words = Vec::new(rt.alloc());
    for word in own.skip(1) {
        words.push(word)?;
    }
    Ok(words)
}

/// Runs the program on these words, with the files of the system. Returns `NoMemory`, with nothing done, if there is no room for a list of
/// the words.
fn run_words<
    R: Files + AllocGlobal + Threads + Wait + Sync,
    I: BufRead,
    O: Write + Drop + Send,
    E: Write,
>(
    rt: &R,
    words: &[String],
    standard: &mut I,
    out: &mut BufWriter<O>,
    err: &mut E,
) -> Result<Exit, LineFault>
    ensures { IfOk result (λ ended. IfOk ended (λ status. status ≤ 3)) }
{
    let mut views = Vec::new(rt.alloc());
    for word in words {
        views.push(word.as_str())?;
    }
    let files = SystemFiles::new(rt);
    Ok(obey_words(rt, &views, &files, standard, out, err))
}

/// Runs the program on its own words, or answers why it has none. Returns the exit status.
fn run_own_words<
    R: Env + Files + AllocGlobal + Threads + Wait + Sync,
    I: BufRead,
    O: Write + Drop + Send,
    E: Write,
>(rt: &R, standard: &mut I, out: &mut BufWriter<O>, err: &mut E) -> io::Result<u8>
    ensures { IfOk result (λ status. status ≤ 3) }
{
    let ended = match read_words(rt) {
        Ok(words) => run_words(rt, &words, standard, out, err),
        Err(fault) => Err(fault),
    };
    match ended {
        Ok(ended) => ended,
        Err(fault) => answer_words(fault, out, err),
    }
}

/// Runs the program on its own words, over buffers, and returns the exit status. What is left in the buffer of `out` at the end is dropped
/// unwritten: its writer has failed then.
fn run_over_buffers<
    R: Env + Files + AllocGlobal + Threads + Wait + Sync,
    I: Read + Drop,
    O: Write + Drop + Send,
    E: Write,
>(rt: &R, standard: I, out: O, err: &mut E) -> io::Result<u8>
    ensures { IfOk result (λ status. status ≤ 3) }
{
    let (Ok(mut standard), Ok(mut out)) = (
        BufReader::new(rt.alloc(), standard),
        BufWriter::new(rt.alloc(), out),
    ) else {
        return stop_with("", &Stop::NoMemory, err);
    };
    let ended = run_own_words(rt, &mut standard, &mut out, err);
    let (_out, _unwritten) = out.into_parts();
    ended
}

/// Runs the program as the system starts it, and returns the exit status: it reads the words of its command line, and does what
/// `run_program` does with the files of the system. The status is 3 too if standard error fails, so that nothing more can be said. Standard
/// error is flushed at the end.
pub fn run_on_system<
    R: Env + Files + AllocGlobal + Threads + Wait + Sync,
    I: Read + Drop,
    O: Write + Drop + Send,
    E: Write,
>(rt: &R, standard: I, out: O, err: &mut E) -> u8
    ensures { result ≤ 3 }
{
    match run_over_buffers(rt, standard, out, err) {
        Ok(status) => hand_on_told(status, err).unwrap_or(3),
        Err(_) => 3,
    }
}
