//! The command `run` on a file.
ghost use Rattle.std.specs.Prelude.{◌≡◌, ◌≤◌, ◌<◌, ◌⊎◌, [], true, Err, OnOk, OnErr, IfOk, IfErr, IsErrOf, length, max};
ghost use Rattle.std.specs.List.{flat_map};
ghost use Rattle.std.specs.Io.Buffered.{writer_buffer, writer_contents};
ghost use Rattle.std.specs.Io.KnownBytes.{Appends, Keeps};
ghost use Rattle.cli_line.specs.Lines.{is_run};
ghost use Rattle.cli_file.specs.Statuses.{greatest};
ghost use Rattle.cli_file.specs.Ends.{OfFile};
ghost use Rattle.cli_run.specs.Runs.{events_of, end_status, greatest_end};
ghost use Rattle.cli_run.specs.Print.{entry_lines, stopped_lines, PrintsPart};
ghost use Rattle.cli_run.specs.Ends.{Ran, Leaves, IsEnd, IsEndOf};

use crate::file::read_told_calls;
use crate::make::make_calls;
use crate::print::{write_all_stopped, write_history};
use bc_calls::Entry;
use bc_prov::Providers;
use bc_scripts::End;
use bc_share::History;
use cli_file::{Stop, event_status, read_whole, stop_with};
use cli_line::{Line, RunLine};
use std::alloc::Global;
use std::io;
use std::io::{BufWriter, Read, Write};
use std::sync::Wait;
use std::thread::Threads;

/// Prints a history as text or as JSON, and flushes the buffer, even if there is no room for the JSON of an entry.
fn show<O: Write + Drop>(
    alloc: Global,
    json: bool,
    history: &History,
    out: &mut BufWriter<O>,
) -> Result<(), Stop>
    ensures shown { OnOk result (Appends (writer_contents O.contents out.old) (writer_contents O.contents out.new)
        (flat_map (entry_lines json) history.now)) }
    ensures no_memory { IsErrOf result Stop.NoMemory → (json ≡ true) ×
        PrintsPart history.now (writer_contents O.contents out.old) (writer_contents O.contents out.new) }
    ensures handed_on { (result ≡ Err Stop.CannotWrite) ⊎ (writer_buffer out.new ≡ []) }
    ensures stop { IfErr result (λ stop. (stop ≡ Stop.CannotWrite) ⊎ (stop ≡ Stop.NoMemory)) }
{
    let made = write_history(alloc, json, history.entries(), out);
    if let Err(Stop::CannotWrite) = made {
        return Err(Stop::CannotWrite);
    }
    if out.flush().is_err() {
        return Err(Stop::CannotWrite);
    }
    match made {
        Ok(()) => Ok(()),
        Err(stop) => Err(stop),
    }
}

/// Writes a line for each session that stopped early.
fn tell<E: Write>(ends: &[End], err: &mut E) -> Result<(), Stop>
    requires { length ends.now ≤ 16 }
    ensures written { OnOk result (Appends (E.contents err.old) (E.contents err.new) (stopped_lines 0 ends.now)) }
    ensures owed { OnErr result (greatest_end ends.now ≡ 3) }
    ensures stop { IfErr result (λ stop. stop ≡ Stop.CannotTell) }
{
    if write_all_stopped(ends, err).is_err() {
        return Err(Stop::CannotTell);
    }
    Ok(())
}

/// Returns the greatest status of the calls of a history.
fn history_status(entries: &[Entry]) -> u8
    ensures value { result ≡ greatest (events_of entries.now) }
    ensures range { result ≤ 2 }
{
    let mut status: u8 = 0;
    for entry in entries {
        status = status.max(event_status(&entry.event));
    }
    status
}

/// Returns the status of a session: 3 if it stopped early, otherwise 0.
fn end_status(end: &End) -> u8
    ensures value { result ≡ end_status end.now }
    ensures range { result ≤ 3 }
{
    match end {
        End::Done => 0,
        End::Stopped {
            number: _,
            refusal: _,
        } => 3,
    }
}

/// Returns the greatest status of some sessions.
fn ends_status(ends: &[End]) -> u8
    ensures value { result ≡ greatest_end ends.now }
    ensures range { result ≤ 3 }
{
    let mut status: u8 = 0;
    for end in ends {
        status = status.max(end_status(end));
    }
    status
}

/// Reads the whole input, has each session make its calls on a thread of its own, and prints the history. Each entry has a line, followed
/// by the report of an ask, or by the roots of an ask for all with their reports; as JSON it has one line alone. Then a line is written for
/// each session that stopped early. Returns the greatest status of the calls, or 3 if a session stopped early. If the buffer of `out` was
/// empty, it is empty afterwards, unless its writer failed.
///
/// Stops with `CannotRead` if the input cannot be read or is over 16 MiB; with `File` at its first fault; with `TooManyCalls` if it has
/// more than 1,000,000 calls; with `CannotWrite` or `CannotTell` if a writer fails; with `NoMemory` if it is out of memory; and with
/// `Audit` if history and sessions do not agree at the close. In the last two cases nothing is printed, with one exception: as JSON, a
/// beginning of the history is printed if there is no room for the line of the next entry.
pub fn run<R, I, O, E>(
    rt: &R,
    providers: &Providers,
    line: &RunLine,
    input: &mut I,
    out: &mut BufWriter<O>,
    err: &mut E,
) -> Result<u8, Stop>
where
    R: AllocGlobal + Threads + Wait + Sync,
    I: Read,
    O: Write + Drop,
    E: Write,
    ensures done { IfOk result (λ status. OfFile (I.remaining input.old) (λ file. Ran line.now.json line.now.sessions file status
        (writer_contents O.contents out.old) (writer_contents O.contents out.new) (E.contents err.old) (E.contents err.new))) }
    ensures range { IfOk result (λ status. status ≤ 3) }
    ensures stopped { IfErr result (λ stop. Leaves line.now stop (I.remaining input.old)
        (writer_contents O.contents out.old) (writer_contents O.contents out.new) (E.contents err.old) (E.contents err.new)) }
    ensures handed_on { writer_buffer out.old ≡ [] → (result ≡ Err Stop.CannotWrite) ⊎ (writer_buffer out.new ≡ []) }
{
    let alloc = rt.alloc();
    let file = read_whole(alloc, input)?;
    let sessions = line.sessions();
    let calls = read_told_calls(alloc, sessions, line.positions(), &file)?;
    let made = make_calls(rt, providers, &calls, sessions)?;
    show(alloc, line.json(), &made.history, out)?;
    tell(&made.ends, err)?;
    Ok(history_status(made.history.entries()).max(ends_status(&made.ends)))
}

/// Runs the whole command `run` on the input of the file that the line names: writes the history to `out` and faults to `err`, and returns
/// the exit status, the greatest that applies. It flushes `out` before a line on `err` says why the command stops. After `cannot write`,
/// `out` still holds what its writer did not take.
///
/// The status is 0 if no report has an error; 1 if one has; 2 if the file has a fault, a put stores nothing or an outcome is no report; 3
/// if a session stops early, or if the command stops for another reason, which is the last line on `err`. It returns the fault of `err` if
/// that line cannot be written: then nothing more can be said.
pub fn run_and_tell<R, I, O, E>(
    rt: &R,
    providers: &Providers,
    line: &RunLine,
    input: &mut I,
    out: &mut BufWriter<O>,
    err: &mut E,
) -> io::Result<u8>
where
    R: AllocGlobal + Threads + Wait + Sync,
    I: Read,
    O: Write + Drop,
    E: Write,
    ensures range { IfOk result (λ status. status ≤ 3) }
    ensures ended { IfOk result (λ status. IsEnd line.now (I.remaining input.old) status
        (writer_contents O.contents out.old) (writer_contents O.contents out.new) (E.contents err.old) (E.contents err.new)) }
    ensures handed_on { writer_buffer out.old ≡ [] → IfOk result (λ status. status < 3 → writer_buffer out.new ≡ []) }
{
    match run(rt, providers, line, input, out, err) {
        Ok(status) => Ok(status),
        Err(stop) => stop_with(line.file(), &stop, err),
    }
}

/// Runs the whole command `run` on the input of the file that the line names: writes the history to `out` and faults to `err`, and returns
/// the exit status, the greatest that applies. The line has to be one of `run`.
///
/// The status is 0 if no report has an error; 1 if one has; 2 if the file has a fault, a put stores nothing or an outcome is no report; 3
/// if a session stops early, if the command stops for another reason, which is the last line on `err`, or if standard error fails.
pub fn run_over<R, I, O, E>(
    rt: &R,
    providers: &Providers,
    line: &Line,
    input: &mut I,
    out: &mut BufWriter<O>,
    err: &mut E,
) -> u8
where
    R: AllocGlobal + Threads + Wait + Sync,
    I: Read,
    O: Write + Drop,
    E: Write,
    requires { is_run line.now ≡ true }
    ensures range { result ≤ 3 }
    ensures ended { result < 3 → IsEndOf line.now (I.remaining input.old) result
        (writer_contents O.contents out.old) (writer_contents O.contents out.new) (E.contents err.old) (E.contents err.new) }
    ensures handed_on { writer_buffer out.old ≡ [] → result < 3 → writer_buffer out.new ≡ [] }
{
    let Line::Run(line) = line else {
        unreachable!()
    };
    match run_and_tell(rt, providers, line, input, out, err) {
        Ok(status) => status,
        Err(_) => 3,
    }
}
