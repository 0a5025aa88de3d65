//! The program over any inputs and outputs.
ghost use Rattle.std.specs.Prelude.{◌≡◌, ◌≤◌, ◌<◌, [], IfOk, OnErr, map};
ghost use Rattle.std.specs.Io.Buffered.{writer_buffer, writer_contents};
ghost use Rattle.cli_file.specs.Words.{AnswersWords};
ghost use Rattle.cli_program.specs.Ends.{IsEndOfLine, IsEndOfWords};

use crate::Inputs;
use crate::handing::{Exit, hand_on, hand_on_told};
use crate::obeying::{Engine, obey_command};
use bc_analyses::{find_plain_values, providers};
use cli_file::{Stop, answer_words, stop_with};
use cli_line::{Line, LineFault, Solver, read_line};
use std::alloc::AllocError;
use std::io;
use std::io::{BufRead, BufWriter, Write};
use std::sync::Wait;
use std::thread::Threads;

/// Has the C library keep freed memory for the next body, and not return it to the system each time: it keeps blocks smaller than the
/// greatest one that was ever freed (mallopt(3), `M_MMAP_THRESHOLD`), which is this one.
fn keep_memory<R: AllocGlobal>(rt: &R) {
    let block: Result<Vec<u8>, AllocError> = Vec::with_capacity(rt.alloc(), 1 << 24);
    drop(block);
}

/// Runs the command of a line with the solver by components. Returns `AllocError`, with nothing done, if there is no room for the
/// providers.
fn obey_by_components<
    R: AllocGlobal + Threads + Wait + Sync,
    S: Inputs,
    I: BufRead,
    O: Write + Drop + Send,
    E: Write,
>(
    rt: &R,
    line: &Line,
    inputs: &S,
    standard: &mut I,
    out: &mut BufWriter<O>,
    err: &mut E,
) -> Result<Exit, AllocError>
    ensures range { IfOk result (λ ended. IfOk ended (λ status. status ≤ 3)) }
    ensures ended { IfOk result (λ ended. IfOk ended (λ status. IsEndOfLine (S.bytes_of inputs.now) (I.remaining standard.old) line.now status
        (writer_contents O.contents out.old) (writer_contents O.contents out.new) (E.contents err.old) (E.contents err.new))) }
    ensures handed_on { writer_buffer out.old ≡ [] → IfOk result (λ ended. IfOk ended (λ status. status < 3 → writer_buffer out.new ≡ [])) }
    ensures nothing { OnErr result ((out.new ≡ out.old) × (err.new ≡ err.old)) }
{
    let providers = providers!(rt.alloc());
    let engine = Engine {
        rt,
        providers: &providers,
    };
    Ok(obey_command(&engine, line, inputs, standard, out, err))
}

/// Runs the command of a line with the plain solver. Returns `AllocError`, with nothing done, if there is no room for the providers.
fn obey_plainly<
    R: AllocGlobal + Threads + Wait + Sync,
    S: Inputs,
    I: BufRead,
    O: Write + Drop + Send,
    E: Write,
>(
    rt: &R,
    line: &Line,
    inputs: &S,
    standard: &mut I,
    out: &mut BufWriter<O>,
    err: &mut E,
) -> Result<Exit, AllocError>
    ensures range { IfOk result (λ ended. IfOk ended (λ status. status ≤ 3)) }
    ensures ended { IfOk result (λ ended. IfOk ended (λ status. IsEndOfLine (S.bytes_of inputs.now) (I.remaining standard.old) line.now status
        (writer_contents O.contents out.old) (writer_contents O.contents out.new) (E.contents err.old) (E.contents err.new))) }
    ensures handed_on { writer_buffer out.old ≡ [] → IfOk result (λ ended. IfOk ended (λ status. status < 3 → writer_buffer out.new ≡ [])) }
    ensures nothing { OnErr result ((out.new ≡ out.old) × (err.new ≡ err.old)) }
{
    let providers = providers!(rt.alloc(), find_plain_values);
    let engine = Engine {
        rt,
        providers: &providers,
    };
    Ok(obey_command(&engine, line, inputs, standard, out, err))
}

/// Runs the command of a line with the solver that the line names. Returns `AllocError`, with nothing done, if there is no room for the
/// providers.
fn obey_by_its_solver<
    R: AllocGlobal + Threads + Wait + Sync,
    S: Inputs,
    I: BufRead,
    O: Write + Drop + Send,
    E: Write,
>(
    rt: &R,
    line: &Line,
    inputs: &S,
    standard: &mut I,
    out: &mut BufWriter<O>,
    err: &mut E,
) -> Result<Exit, AllocError>
    ensures range { IfOk result (λ ended. IfOk ended (λ status. status ≤ 3)) }
    ensures ended { IfOk result (λ ended. IfOk ended (λ status. IsEndOfLine (S.bytes_of inputs.now) (I.remaining standard.old) line.now status
        (writer_contents O.contents out.old) (writer_contents O.contents out.new) (E.contents err.old) (E.contents err.new))) }
    ensures handed_on { writer_buffer out.old ≡ [] → IfOk result (λ ended. IfOk ended (λ status. status < 3 → writer_buffer out.new ≡ [])) }
    ensures nothing { OnErr result ((out.new ≡ out.old) × (err.new ≡ err.old)) }
{
    match line.solver() {
        Solver::Components => obey_by_components(rt, line, inputs, standard, out, err),
        Solver::Plain => obey_plainly(rt, line, inputs, standard, out, err),
    }
}

/// Runs the command of a line, or reports that there is no room for the providers. Returns the exit status.
fn obey<
    R: AllocGlobal + Threads + Wait + Sync,
    S: Inputs,
    I: BufRead,
    O: Write + Drop + Send,
    E: Write,
>(
    rt: &R,
    line: &Line,
    inputs: &S,
    standard: &mut I,
    out: &mut BufWriter<O>,
    err: &mut E,
) -> io::Result<u8>
    ensures range { IfOk result (λ status. status ≤ 3) }
    ensures ended { IfOk result (λ status. IsEndOfLine (S.bytes_of inputs.now) (I.remaining standard.old) line.now status
        (writer_contents O.contents out.old) (writer_contents O.contents out.new) (E.contents err.old) (E.contents err.new)) }
    ensures handed_on { writer_buffer out.old ≡ [] → IfOk result (λ status. status < 3 → writer_buffer out.new ≡ []) }
{
    keep_memory(rt);
    match obey_by_its_solver(rt, line, inputs, standard, out, err) {
        Ok(ended) => ended,
        Err(_) => stop_with("", &Stop::NoMemory, err),
    }
}

/// Answers words that are no command line, and flushes the output. Returns the exit status.
fn answer<O: Write + Drop, E: Write>(
    fault: LineFault,
    out: &mut BufWriter<O>,
    err: &mut E,
) -> io::Result<u8>
    ensures range { IfOk result (λ status. status ≤ 3) }
    ensures answered { IfOk result (λ status. AnswersWords fault status
        (writer_contents O.contents out.old) (writer_contents O.contents out.new) (E.contents err.old) (E.contents err.new)) }
    ensures handed_on { IfOk result (λ status. status < 3 → writer_buffer out.new ≡ []) }
{
    match answer_words(fault, out, err) {
        Ok(status) => hand_on(status, out, err),
        Err(failed) => Err(failed),
    }
}

/// Runs the command of the line that words are, or answers words that are none, without flushing standard error. Returns the exit status.
pub(crate) fn obey_words<
    R: AllocGlobal + Threads + Wait + Sync,
    S: Inputs,
    I: BufRead,
    O: Write + Drop + Send,
    E: Write,
>(
    rt: &R,
    words: &[&str],
    inputs: &S,
    standard: &mut I,
    out: &mut BufWriter<O>,
    err: &mut E,
) -> io::Result<u8>
    ensures range { IfOk result (λ status. status ≤ 3) }
    ensures ended { IfOk result (λ status. IsEndOfWords (S.bytes_of inputs.now) (I.remaining standard.old) (map (λ word. word.now) words.now) status
        (writer_contents O.contents out.old) (writer_contents O.contents out.new) (E.contents err.old) (E.contents err.new)) }
    ensures handed_on { writer_buffer out.old ≡ [] → IfOk result (λ status. status < 3 → writer_buffer out.new ≡ []) }
{
    match read_line(rt.alloc(), words) {
        Ok(line) => obey(rt, &line, inputs, standard, out, err),
        Err(fault) => answer(fault, out, err),
    }
}

/// Runs the whole program on the words after its own name, over any inputs and outputs, and returns the exit status. It runs the command of
/// the line that the words are, or answers words that are none, such as `--help`. Output goes to `out`, which is flushed if the status is
/// below 3. Faults go to `err`, which is flushed at the end. `inputs` opens the file that a line names, and `standard` is standard input.
///
/// The status is 0 if no report has an error, and for help and the version; 1 if a report has an error; 2 if the file has a fault, a put
/// stores nothing or an outcome is no report; 3 for wrong use, a file that cannot be opened or read, out of memory, a failed output, and
/// the other stops of the commands. Returns the fault of `err` if the last line there cannot be written or the flush fails: then nothing
/// more can be said.
pub fn run_program<
    R: AllocGlobal + Threads + Wait + Sync,
    S: Inputs,
    I: BufRead,
    O: Write + Drop + Send,
    E: Write,
>(
    rt: &R,
    words: &[&str],
    inputs: &S,
    standard: &mut I,
    out: &mut BufWriter<O>,
    err: &mut E,
) -> io::Result<u8>
    ensures range { IfOk result (λ status. status ≤ 3) }
    ensures ended { IfOk result (λ status. IsEndOfWords (S.bytes_of inputs.now) (I.remaining standard.old) (map (λ word. word.now) words.now) status
        (writer_contents O.contents out.old) (writer_contents O.contents out.new) (E.contents err.old) (E.contents err.new)) }
    ensures handed_on { writer_buffer out.old ≡ [] → IfOk result (λ status. status < 3 → writer_buffer out.new ≡ []) }
{
    let status = obey_words(rt, words, inputs, standard, out, err)?;
    hand_on_told(status, err)
}
