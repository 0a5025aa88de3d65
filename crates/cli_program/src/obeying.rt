//! Running the command of a line on its input.
ghost use Rattle.std.specs.Prelude.{◌≡◌, ◌≤◌, ◌<◌, [], IfOk};
ghost use Rattle.std.specs.Io.Buffered.{writer_buffer, writer_contents};
ghost use Rattle.cli_check.specs.Ends.{IsEnd as IsEndOfCheck};
ghost use Rattle.cli_run.specs.Ends.{IsEnd as IsEndOfRun};
ghost use Rattle.cli_serve.specs.Served.{IsEnd as IsEndOfServe};
ghost use Rattle.cli_serve.specs.Talked.{lines_left};
ghost use Rattle.cli_program.specs.Ends.{IsEndOfLine, input_of};

use crate::Inputs;
use crate::handing::{hand_on, hand_on_told};
use crate::inputs::open_input;
use crate::printing::obey_print;
use bc_prov::Providers;
use cli_check::check_and_tell;
use cli_file::{Stop, stop_with};
use cli_line::{CheckLine, Line, RunLine, ServeLine};
use cli_run::run_and_tell;
use cli_serve::{Service, serve_and_tell};
use std::io;
use std::io::{BufRead, BufWriter, Write};
use std::sync::Wait;
use std::thread::Threads;

/// What commands run on: the runtime, and the providers that analyse bodies.
#[derive(Drop)]
pub struct Engine<'a, R> {
    pub rt: &'a R,
    pub providers: &'a Providers,
}

/// Runs the command `check` on standard input or the file that its line names, and returns its exit status.
fn obey_check<
    R: AllocGlobal + Threads + Wait + Sync,
    S: Inputs,
    I: BufRead,
    O: Write + Drop,
    E: Write,
>(
    engine: &Engine<'_, R>,
    check: &CheckLine,
    inputs: &S,
    standard: &mut I,
    out: &mut BufWriter<O>,
    err: &mut E,
) -> io::Result<u8>
    ensures range { IfOk result (λ status. status ≤ 3) }
    ensures ended { IfOk result (λ status. IsEndOfCheck check.now (input_of (S.bytes_of inputs.now) (I.remaining standard.old) check.now.file) status
        (writer_contents O.contents out.old) (writer_contents O.contents out.new) (E.contents err.old) (E.contents err.new)) }
    ensures handed_on { writer_buffer out.old ≡ [] → IfOk result (λ status. status < 3 → writer_buffer out.new ≡ []) }
{
    match open_input(inputs, standard, check.file()) {
        Ok(mut input) => check_and_tell(engine.rt, engine.providers, check, &mut input, out, err),
        Err(_) => stop_with(check.file(), &Stop::CannotRead, err),
    }
}

/// Runs the command `run` on standard input or the file that its line names, and returns its exit status.
fn obey_run<
    R: AllocGlobal + Threads + Wait + Sync,
    S: Inputs,
    I: BufRead,
    O: Write + Drop,
    E: Write,
>(
    engine: &Engine<'_, R>,
    run: &RunLine,
    inputs: &S,
    standard: &mut I,
    out: &mut BufWriter<O>,
    err: &mut E,
) -> io::Result<u8>
    ensures range { IfOk result (λ status. status ≤ 3) }
    ensures ended { IfOk result (λ status. IsEndOfRun run.now (input_of (S.bytes_of inputs.now) (I.remaining standard.old) run.now.file) status
        (writer_contents O.contents out.old) (writer_contents O.contents out.new) (E.contents err.old) (E.contents err.new)) }
    ensures handed_on { writer_buffer out.old ≡ [] → IfOk result (λ status. status < 3 → writer_buffer out.new ≡ []) }
{
    match open_input(inputs, standard, run.file()) {
        Ok(mut input) => run_and_tell(engine.rt, engine.providers, run, &mut input, out, err),
        Err(_) => stop_with(run.file(), &Stop::CannotRead, err),
    }
}

/// Runs the command `serve` on standard input, and returns its exit status.
fn obey_serve<R: AllocGlobal + Threads + Wait + Sync, I: BufRead, O: Write + Drop + Send, E: Write>(
    engine: &Engine<'_, R>,
    serve: &ServeLine,
    standard: &mut I,
    out: &mut BufWriter<O>,
    err: &mut E,
) -> io::Result<u8>
    ensures range { IfOk result (λ status. status ≤ 3) }
    ensures ended { IfOk result (λ status. IsEndOfServe serve.now.sessions (lines_left (I.remaining standard.old)) status
        (E.contents err.old) (E.contents err.new)) }
    ensures handed_on { IfOk result (λ status. status < 3 → writer_buffer out.new ≡ []) }
{
    let service = Service::new(engine.providers, serve.sessions(), serve.capacity());
    match serve_and_tell(engine.rt, &service, standard, out, err) {
        Ok(status) => hand_on(status, out, err),
        Err(failed) => Err(failed),
    }
}

/// Runs the command of a line, and returns its exit status, as `obey_line` does, without flushing standard error.
pub(crate) fn obey_command<
    R: AllocGlobal + Threads + Wait + Sync,
    S: Inputs,
    I: BufRead,
    O: Write + Drop + Send,
    E: Write,
>(
    engine: &Engine<'_, R>,
    line: &Line,
    inputs: &S,
    standard: &mut I,
    out: &mut BufWriter<O>,
    err: &mut E,
) -> io::Result<u8>
    ensures range { IfOk result (λ status. status ≤ 3) }
    ensures ended { IfOk result (λ status. IsEndOfLine (S.bytes_of inputs.now) (I.remaining standard.old) line.now status
        (writer_contents O.contents out.old) (writer_contents O.contents out.new) (E.contents err.old) (E.contents err.new)) }
    ensures handed_on { writer_buffer out.old ≡ [] → IfOk result (λ status. status < 3 → writer_buffer out.new ≡ []) }
{
    match line {
        Line::Check(check) => obey_check(engine, check, inputs, standard, out, err),
        Line::Run(run) => obey_run(engine, run, inputs, standard, out, err),
        Line::Serve(serve) => obey_serve(engine, serve, standard, out, err),
        Line::Print(print) => obey_print(engine.rt, print, inputs, standard, out, err),
    }
}

/// Runs the command of a line, and returns its exit status. `check`, `run` and `print` read the file that the line names, or standard input
/// for the name `-`, and `serve` reads standard input. Output goes to `out`, which is flushed if the status is below 3. Faults go to `err`,
/// which is flushed at the end.
///
/// A file that cannot be opened is reported as one that cannot be read. Returns the fault of `err` if the last line there cannot be written
/// or the flush fails: then nothing more can be said.
pub fn obey_line<
    R: AllocGlobal + Threads + Wait + Sync,
    S: Inputs,
    I: BufRead,
    O: Write + Drop + Send,
    E: Write,
>(
    engine: &Engine<'_, R>,
    line: &Line,
    inputs: &S,
    standard: &mut I,
    out: &mut BufWriter<O>,
    err: &mut E,
) -> io::Result<u8>
    ensures range { IfOk result (λ status. status ≤ 3) }
    ensures ended { IfOk result (λ status. IsEndOfLine (S.bytes_of inputs.now) (I.remaining standard.old) line.now status
        (writer_contents O.contents out.old) (writer_contents O.contents out.new) (E.contents err.old) (E.contents err.new)) }
    ensures handed_on { writer_buffer out.old ≡ [] → IfOk result (λ status. status < 3 → writer_buffer out.new ≡ []) }
{
    let status = obey_command(engine, line, inputs, standard, out, err)?;
    hand_on_told(status, err)
}
