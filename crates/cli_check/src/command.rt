//! The calls of a file, and what is printed about them.
ghost use Rattle.std.specs.Prelude.{◌≡◌, ◌≢◌, ◌↔◌, ◌≤◌, ◌<◌, ◌+◌, ◌⊎◌, ◌++◌, [], true, Err, OnOk, OnErr, IfOk, IfErr, IsErrOf, IsTrue, codes, length, map};
ghost use Rattle.std.specs.Io.Buffered.{writer_buffer, writer_contents};
ghost use Rattle.std.specs.Io.KnownBytes.{Appends, Keeps};
ghost use Rattle.bc_names.specs.Names.{name_text};
ghost use Rattle.bc_calls.specs.declared.call.Call.TheVariants as calls;
ghost use Rattle.bc_report.specs.Text.{line as ended};
ghost use Rattle.bc_source.specs.Report.{report_with};
ghost use Rattle.bc_share.specs.Sessions.{Makes};
ghost use Rattle.bc_share.specs.declared.db.TheConstants.{MOST_ENTRIES};
ghost use Rattle.cli_file.specs.Changes.{seen};
ghost use Rattle.cli_file.specs.Stops.{is_of_calls, is_refused};
ghost use Rattle.cli_file.specs.Ends.{OfFile};
ghost use Rattle.cli_file.specs.Still.{IsStill};
ghost use Rattle.cli_check.specs.Ends.{Checked, IsEnd, IsEndOf, Leaves};
ghost use Rattle.cli_check.specs.Run.{refused_line, answer_lines, error_lines, AreLegal, AreReplied};
ghost use Rattle.cli_check.specs.Performed.{Performs, Performed, PerformedPart, PerformedAll, PerformedFirst, PerformedThen};
ghost use Rattle.cli_check.specs.Performed.{Adds, Owes, OwesLast, Runs, Begins, Prints};
ghost use Rattle.cli_check.specs.Asks.{AsksAll, AsksOne, AsksSome, RefusesOne};
ghost use Rattle.cli_line.specs.Lines.{is_check};

use crate::ahead::{ask_ahead, find_threads};
use crate::asked::find_asked;
use crate::form::{Form, find_form};
use bc_calls::PutReply;
use bc_json::json_report;
use bc_names::Name;
use bc_prov::{Outcome, Providers};
use bc_report::write_report;
use bc_share::{Db, Session};
use bc_source::{SourcedBody, Sources, find_bodies, write_sourced_report};
use bc_versions::{Ending, Waiting};
use cli_file::{
    FileChange, Stop, find_capacity, outcome_status, put_status, read_changes_by, read_whole,
    stop_with,
};
use cli_line::{CheckLine, Line};
use std::alloc::Global;
use std::collections::BTreeSet;
use std::io;
use std::io::{BufWriter, Read, Write};
use std::sync::Wait;
use std::thread::Threads;

/// Writes the line of a put that stored nothing. It fails only if there is such a line.
fn write_refusal<E: Write>(name: &Name, reply: PutReply, err: &mut E) -> io::Result<()>
    ensures written { OnOk result (Appends (E.contents err.old) (E.contents err.new) (refused_line name.now reply)) }
    ensures owed { OnErr result (refused_line name.now reply ≢ []) }
{
    match reply {
        PutReply::Added | PutReply::Replaced => Ok(()),
        PutReply::Full => writeln!(err, "put {name} full"),
        PutReply::WrongKind => writeln!(err, "put {name} wrongkind"),
    }
}

/// Writes the line of an ask, and its report.
fn write_text<O: Write>(name: &Name, outcome: &Outcome, out: &mut O) -> io::Result<()>
    ensures { OnOk result (Appends (O.contents out.old) (O.contents out.new) (answer_lines Form.Text name.now outcome.now)) }
{
    writeln!(out, "ask {name}")?;
    Ok(write_report(outcome, out)?)
}

/// Writes the line of an ask, and its report with the texts that explain its errors.
fn write_sourced_text<O: Write>(
    name: &Name,
    outcome: &Outcome,
    bodies: &[SourcedBody<'_>],
    out: &mut O,
) -> io::Result<()>
    ensures { OnOk result (Appends (O.contents out.old) (O.contents out.new)
        (ended (codes "ask " ++ name_text name.now) ++ report_with bodies.now outcome.now)) }
{
    writeln!(out, "ask {name}")?;
    Ok(write_sourced_report(outcome, bodies, out)?)
}

/// Writes the line of an ask, and its report with the texts that explain its errors. Returns `NoMemory`, with nothing written, if there is
/// no room to find these.
fn write_sourced<O: Write>(
    alloc: Global,
    sources: &Sources<'_>,
    name: &Name,
    outcome: &Outcome,
    out: &mut O,
) -> Result<(), Stop>
    ensures written { OnOk result (Appends (O.contents out.old) (O.contents out.new) (answer_lines (Form.Sourced sources.now) name.now outcome.now)) }
    ensures no_memory { IsErrOf result Stop.NoMemory → Keeps (O.contents out.old) (O.contents out.new) }
    ensures stop { IfErr result (λ stop. (stop ≡ Stop.CannotWrite) ⊎ (stop ≡ Stop.NoMemory)) }
{
    let Ok(bodies) = find_bodies(alloc, outcome, sources) else {
        return Err(Stop::NoMemory);
    };
    if write_sourced_text(name, outcome, &bodies, out).is_err() {
        return Err(Stop::CannotWrite);
    }
    Ok(())
}

/// Writes the JSON line of an ask. Returns `NoMemory`, with nothing written, if there is no room for it.
fn write_json<O: Write>(
    alloc: Global,
    name: &Name,
    outcome: &Outcome,
    out: &mut O,
) -> Result<(), Stop>
    ensures written { OnOk result (Appends (O.contents out.old) (O.contents out.new) (answer_lines Form.Json name.now outcome.now)) }
    ensures no_memory { IsErrOf result Stop.NoMemory → Keeps (O.contents out.old) (O.contents out.new) }
    ensures stop { IfErr result (λ stop. (stop ≡ Stop.CannotWrite) ⊎ (stop ≡ Stop.NoMemory)) }
{
    let Ok(text) = json_report(alloc, name, outcome) else {
        return Err(Stop::NoMemory);
    };
    if writeln!(out, "{text}").is_err() {
        return Err(Stop::CannotWrite);
    }
    Ok(())
}

/// Writes an ask and its outcome in this form. Returns `NoMemory`, with nothing written, if there is no room for it.
pub(crate) fn write_answer<O: Write>(
    alloc: Global,
    form: &Form<'_>,
    name: &Name,
    outcome: &Outcome,
    out: &mut O,
) -> Result<(), Stop>
    ensures written { OnOk result (Appends (O.contents out.old) (O.contents out.new) (answer_lines form.now name.now outcome.now)) }
    ensures no_memory { IsErrOf result Stop.NoMemory → Keeps (O.contents out.old) (O.contents out.new) }
    ensures stop { IfErr result (λ stop. (stop ≡ Stop.CannotWrite) ⊎ (stop ≡ Stop.NoMemory)) }
{
    match form {
        Form::Text => {
            if write_text(name, outcome, out).is_err() {
                return Err(Stop::CannotWrite);
            }
            Ok(())
        }
        Form::Json => write_json(alloc, name, outcome, out),
        Form::Sourced(sources) => write_sourced(alloc, sources, name, outcome, out),
    }
}

/// Makes a change in a session, and writes a line if its body is not stored. Returns the status of the call.
fn make_change<R: Wait, N: Ending, E: Write>(
    rt: &R,
    session: &mut Session<N>,
    change: FileChange,
    err: &mut E,
) -> Result<u8, Stop>
    ensures still { IsStill session.old session.new }
    ensures refused { RefusesOne result session.old session.new (E.contents err.old) (E.contents err.new) }
    ensures untold { IsErrOf result Stop.CannotTell → Owes (seen change) session.old session.new }
    ensures performed { IfOk result (λ status. Performs (seen change) error_lines status session.old session.new (E.contents err.old) (E.contents err.new)) }
    ensures range { IfOk result (λ status. status ≤ 2) }
    ensures stop { IfErr result (λ stop. (stop ≡ Stop.CannotTell) ⊎ (stop ≡ Stop.NoMemory) ⊎ (stop ≡ Stop.HistoryFull)) }
{
    match change {
        FileChange::Types(types) => {
            session.put_types(rt, types.into_arc())?;
            Ok(0)
        }
        FileChange::Put(name, unit) => {
            let reply = session.put(rt, name, unit.into_arc())?;
            if write_refusal(&name, reply, err).is_err() {
                return Err(Stop::CannotTell);
            }
            Ok(put_status(reply))
        }
    }
}

/// How the names of a file are asked for: with which providers, in which form each answer is printed, which names, in their order, and how
/// many threads share the work. It does not have the changes: they are used up before the first ask.
#[derive(Drop)]
pub(crate) struct Asking<'a, 'b> {
    pub providers: &'a Providers,
    pub form: &'a Form<'b>,
    pub names: &'a BTreeSet<Name>,
    pub threads: usize,
}

/// Asks for a name and prints its report. Returns the status of the outcome.
fn make_ask<R: AllocGlobal + Wait, N: Ending, O: Write>(
    rt: &R,
    session: &mut Session<N>,
    asking: &Asking<'_, '_>,
    name: &Name,
    out: &mut O,
) -> Result<u8, Stop>
    ensures still { IsStill session.old session.new }
    ensures refused { RefusesOne result session.old session.new (O.contents out.old) (O.contents out.new) }
    ensures unwritten { IsErrOf result Stop.CannotWrite → Makes session.old session.new (calls.Ask name.now) }
    ensures performed { AsksOne asking.now.form.now name.now result session.old session.new (O.contents out.old) (O.contents out.new) }
    ensures range { IfOk result (λ status. status ≤ 2) }
    ensures stop { IfErr result (λ stop. (stop ≡ Stop.CannotWrite) ⊎ (stop ≡ Stop.NoMemory) ⊎ (stop ≡ Stop.HistoryFull)) }
{
    let outcome = session.ask(rt, name, asking.providers)?;
    write_answer(rt.alloc(), asking.form, name, &outcome, out)?;
    Ok(outcome_status(&outcome))
}

/// Makes the changes in order. Returns the greatest status of the calls.
fn make_changes<R: Wait, N: Ending, E: Write>(
    rt: &R,
    session: &mut Session<N>,
    changes: Vec<FileChange>,
    err: &mut E,
) -> Result<u8, Stop>
    ensures performed { IfOk result (λ status.
        Performed (map seen changes.items) error_lines status session.old session.new (E.contents err.old) (E.contents err.new)) }
    ensures still { IsStill session.old session.new }
    ensures refused { IfErr result (λ stop. is_refused stop ≡ true →
        PerformedPart (map seen changes.items) error_lines session.old session.new (E.contents err.old) (E.contents err.new)) }
    ensures untold { IsErrOf result Stop.CannotTell → OwesLast (λ events. Adds events session.old session.new) (map seen changes.items) }
    ensures range { IfOk result (λ status. status ≤ 2) }
    ensures stop { IfErr result (λ stop. (stop ≡ Stop.CannotTell) ⊎ (stop ≡ Stop.NoMemory) ⊎ (stop ≡ Stop.HistoryFull)) }
{
    let mut status: u8 = 0;
    for change in changes {
        status = status.max(make_change(rt, session, change, err)?);
    }
    Ok(status)
}

/// Asks for the names in order and prints their reports. Returns the greatest status of the outcomes.
fn make_asks<R: AllocGlobal + Wait, N: Ending, O: Write>(
    rt: &R,
    session: &mut Session<N>,
    asking: &Asking<'_, '_>,
    out: &mut O,
) -> Result<u8, Stop>
    ensures performed { AsksAll asking.now.form.now asking.now.names.now.keys result session.old session.new (O.contents out.old) (O.contents out.new) }
    ensures still { IsStill session.old session.new }
    ensures refused { AsksSome asking.now.form.now asking.now.names.now.keys result session.old session.new (O.contents out.old) (O.contents out.new) }
    ensures range { IfOk result (λ status. status ≤ 2) }
    ensures stop { IfErr result (λ stop. (stop ≡ Stop.CannotWrite) ⊎ (stop ≡ Stop.NoMemory) ⊎ (stop ≡ Stop.HistoryFull)) }
{
    let mut status: u8 = 0;
    for name in asking.names {
        let asked = make_ask(rt, session, asking, name, out)?;
        status = status.max(asked);
    }
    Ok(status)
}

/// Asks for the names in order and prints their reports. Threads share the work if there are at least two, and two names. Returns the
/// greatest status of the outcomes.
fn ask_names<R: AllocGlobal + Threads + Wait + Sync, N: Ending, O: Write>(
    rt: &R,
    session: &mut Session<N>,
    asking: &Asking<'_, '_>,
    out: &mut O,
) -> Result<u8, Stop>
    ensures performed { AsksAll asking.now.form.now asking.now.names.now.keys result session.old session.new (O.contents out.old) (O.contents out.new) }
    ensures still { IsStill session.old session.new }
    ensures refused { AsksSome asking.now.form.now asking.now.names.now.keys result session.old session.new (O.contents out.old) (O.contents out.new) }
    ensures range { IfOk result (λ status. status ≤ 2) }
    ensures stop { IfErr result (λ stop. (stop ≡ Stop.CannotWrite) ⊎ (stop ≡ Stop.NoMemory) ⊎ (stop ≡ Stop.HistoryFull)) }
{
    if asking.threads <= 1 || asking.names.len() <= 1 {
        make_asks(rt, session, asking, out)
    } else {
        ask_ahead(rt, session, asking, out)
    }
}

/// Returns whether standard output failed.
fn is_unwritten(made: &Result<u8, Stop>) -> bool
    ensures { IsTrue result ↔ (made.now ≡ Err Stop.CannotWrite) }
{
    match made {
        Err(Stop::CannotWrite) => true,
        Ok(_)
        | Err(
            Stop::WrongUse
            | Stop::CannotRead
            | Stop::CannotTell
            | Stop::NoMemory
            | Stop::File(_)
            | Stop::TooManyCalls
            | Stop::HistoryFull
            | Stop::Foreign
            | Stop::Audit,
        ) => false,
    }
}

/// Flushes the reports in the buffer, unless its writer failed already. Returns what the asks returned, or `CannotWrite` if the writer
/// fails here.
fn hand_on<O: Write + Drop>(asked: Result<u8, Stop>, out: &mut BufWriter<O>) -> Result<u8, Stop>
    ensures asked { (result ≡ asked) ⊎ (result ≡ Err Stop.CannotWrite) }
    ensures kept { Keeps (writer_contents O.contents out.old) (writer_contents O.contents out.new) }
    ensures handed_on { (result ≡ Err Stop.CannotWrite) ⊎ (writer_buffer out.new ≡ []) }
{
    if is_unwritten(&asked) {
        return asked;
    }
    match out.flush() {
        Ok(()) => asked,
        Err(_) => Err(Stop::CannotWrite),
    }
}

/// Asks for the names in order, prints their reports and flushes them, even if it stops early. Returns the greatest status of the outcomes.
fn answer_all<R: AllocGlobal + Threads + Wait + Sync, N: Ending, O: Write + Drop>(
    rt: &R,
    session: &mut Session<N>,
    asking: &Asking<'_, '_>,
    out: &mut BufWriter<O>,
) -> Result<u8, Stop>
    ensures performed { AsksAll asking.now.form.now asking.now.names.now.keys result session.old session.new
        (writer_contents O.contents out.old) (writer_contents O.contents out.new) }
    ensures still { IsStill session.old session.new }
    ensures refused { AsksSome asking.now.form.now asking.now.names.now.keys result session.old session.new
        (writer_contents O.contents out.old) (writer_contents O.contents out.new) }
    ensures range { IfOk result (λ status. status ≤ 2) }
    ensures stop { IfErr result (λ stop. (stop ≡ Stop.CannotWrite) ⊎ (stop ≡ Stop.NoMemory) ⊎ (stop ≡ Stop.HistoryFull)) }
    ensures handed_on { (result ≡ Err Stop.CannotWrite) ⊎ (writer_buffer out.new ≡ []) }
{
    let asked = ask_names(rt, session, asking, out);
    hand_on(asked, out)
}

/// Makes the changes in order, then asks for the names in order, and flushes the reports. Returns the greatest status of the calls.
fn make_all<R: AllocGlobal + Threads + Wait + Sync, N: Ending, O: Write + Drop, E: Write>(
    rt: &R,
    session: &mut Session<N>,
    changes: Vec<FileChange>,
    asking: &Asking<'_, '_>,
    out: &mut BufWriter<O>,
    err: &mut E,
) -> Result<u8, Stop>
    ensures performed { IfOk result (λ status. PerformedAll asking.now.form.now (map seen changes.items) asking.now.names.now.keys status
        session.old session.new (writer_contents O.contents out.old) (writer_contents O.contents out.new) (E.contents err.old) (E.contents err.new)) }
    ensures still { IsStill session.old session.new }
    ensures refused { IfErr result (λ stop. is_refused stop ≡ true →
        PerformedFirst asking.now.form.now (map seen changes.items) asking.now.names.now.keys session.old session.new
        (writer_contents O.contents out.old) (writer_contents O.contents out.new) (E.contents err.old) (E.contents err.new)) }
    ensures untold { IsErrOf result Stop.CannotTell → OwesLast (λ events. Adds events session.old session.new) (map seen changes.items) }
    ensures silent { IsErrOf result Stop.CannotTell → Keeps (writer_contents O.contents out.old) (writer_contents O.contents out.new) }
    ensures unwritten { IsErrOf result Stop.CannotWrite →
        PerformedThen (map seen changes.items) error_lines session.old (E.contents err.old) (E.contents err.new) }
    ensures range { IfOk result (λ status. status ≤ 2) }
    ensures stop { IfErr result (λ stop. (stop ≡ Stop.CannotTell) ⊎ (stop ≡ Stop.CannotWrite) ⊎ (stop ≡ Stop.NoMemory) ⊎ (stop ≡ Stop.HistoryFull)) }
    ensures handed_on { writer_buffer out.old ≡ [] → (result ≡ Err Stop.CannotWrite) ⊎ (writer_buffer out.new ≡ []) }
{
    let changed = make_changes(rt, session, changes, err)?;
    let asked = answer_all(rt, session, asking, out)?;
    Ok(changed.max(asked))
}

/// Opens a database, makes the changes in order, asks for the names in order, and closes the database, even if a call is refused or a
/// writer fails. Returns the greatest status of the calls; the writer of `out` then has all reports. Returns `TooManyCalls` exactly if
/// there are more than `MOST_ENTRIES` calls.
///
/// A failure of `out` is reported first, then a fault of the close, then a refused call or a line that was not written.
fn call_and_close<R: AllocGlobal + Threads + Wait + Sync, O: Write + Drop, E: Write>(
    rt: &R,
    changes: Vec<FileChange>,
    asking: &Asking<'_, '_>,
    out: &mut BufWriter<O>,
    err: &mut E,
) -> Result<u8, Stop>
    ensures done { IfOk result (λ status. Runs asking.now.form.now (map seen changes.items) asking.now.names.now.keys status
        (writer_contents O.contents out.old) (writer_contents O.contents out.new) (E.contents err.old) (E.contents err.new)) }
    ensures range { IfOk result (λ status. status ≤ 2) }
    ensures too_many { IsErrOf result Stop.TooManyCalls → (MOST_ENTRIES < length changes.items + length asking.now.names.now.keys) ×
        Keeps (writer_contents O.contents out.old) (writer_contents O.contents out.new) × Keeps (E.contents err.old) (E.contents err.new) }
    ensures few { (result ≡ Err Stop.TooManyCalls) ⊎ (length changes.items + length asking.now.names.now.keys ≤ MOST_ENTRIES) }
    ensures refused { IfErr result (λ stop. is_refused stop ≡ true →
        Begins AreLegal asking.now.form.now (map seen changes.items) asking.now.names.now.keys
        (writer_contents O.contents out.old) (writer_contents O.contents out.new) (E.contents err.old) (E.contents err.new)) }
    ensures untold { IsErrOf result Stop.CannotTell → OwesLast AreLegal (map seen changes.items) }
    ensures silent { IsErrOf result Stop.CannotTell → Keeps (writer_contents O.contents out.old) (writer_contents O.contents out.new) }
    ensures unwritten { IsErrOf result Stop.CannotWrite → Prints (map seen changes.items) error_lines (E.contents err.old) (E.contents err.new) }
    ensures audited { IsErrOf result Stop.Audit →
        Begins AreReplied asking.now.form.now (map seen changes.items) asking.now.names.now.keys
        (writer_contents O.contents out.old) (writer_contents O.contents out.new) (E.contents err.old) (E.contents err.new) ⊎
        (OwesLast AreReplied (map seen changes.items) × Keeps (writer_contents O.contents out.old) (writer_contents O.contents out.new)) }
    ensures other { IfErr result (λ stop. is_of_calls stop ≡ true) }
    ensures handed_on { writer_buffer out.old ≡ [] → (result ≡ Err Stop.CannotWrite) ⊎ (writer_buffer out.new ≡ []) }
{
    let capacity = find_capacity(changes.len(), asking.names.len())?;
    let (db, mut sessions) = Db::open(rt.alloc(), Waiting::new(rt), 0, capacity, 1)?;
    let Some(mut session) = sessions.pop() else {
        unreachable!()
    };
    let made = make_all(rt, &mut session, changes, asking, out, err);
    sessions.push_reserved(session);
    let closed = db.close(rt, sessions);
    if is_unwritten(&made) {
        return made;
    }
    closed?;
    made
}

/// Reads the whole input, makes the calls of its sections, and asks for each root under which one puts a body. It prints what belongs to
/// each call: for an ask a line and a report, or one line of JSON for both if the command line says so. Returns the greatest status of the
/// calls. If the buffer of `out` was empty, it is empty afterwards, unless its writer failed.
///
/// Threads share the reading of the sections and the work on the asks: as many as `--jobs` says, otherwise one for each processor, and
/// fewer if no more can be made. The output does not depend on their number.
///
/// Stops with `CannotRead` if the input cannot be read or is over 16 MiB; with `File` at its first fault; with `TooManyCalls` if it makes
/// more than 1,000,000 calls; with `CannotWrite` or `CannotTell` if a writer fails; with `NoMemory` if it is out of memory; with
/// `HistoryFull` if a call finds a full history; and with `Audit` if history and session do not agree at the close.
pub fn check<R, I, O, E>(
    rt: &R,
    providers: &Providers,
    line: &CheckLine,
    input: &mut I,
    out: &mut BufWriter<O>,
    err: &mut E,
) -> Result<u8, Stop>
where
    R: AllocGlobal + Threads + Wait + Sync,
    I: Read,
    O: Write + Drop,
    E: Write,
    ensures done { IfOk result (λ status. OfFile (I.remaining input.old) (λ file. Checked line.now file status
        (writer_contents O.contents out.old) (writer_contents O.contents out.new) (E.contents err.old) (E.contents err.new))) }
    ensures range { IfOk result (λ status. status ≤ 2) }
    ensures stopped { IfErr result (λ stop. Leaves line.now stop (I.remaining input.old)
        (writer_contents O.contents out.old) (writer_contents O.contents out.new) (E.contents err.old) (E.contents err.new)) }
    ensures handed_on { writer_buffer out.old ≡ [] → (result ≡ Err Stop.CannotWrite) ⊎ (writer_buffer out.new ≡ []) }
{
    let alloc = rt.alloc();
    let file = read_whole(alloc, input)?;
    let threads = find_threads(rt, line.jobs());
    let changes = read_changes_by(rt, alloc, threads, line.positions(), &file)?;
    let names = find_asked(alloc, &changes)?;
    let form = find_form(alloc, line, &file, &changes)?;
    let asking = Asking {
        providers,
        form: &form,
        names: &names,
        threads,
    };
    call_and_close(rt, changes, &asking, out, err)
}

/// Runs the whole command `check` on the input of the file that the line names: writes reports to `out` and faults to `err`, and returns
/// the exit status, the greatest that applies. It flushes `out` before a line on `err` says why the command stops. After `cannot write`,
/// `out` still holds what its writer did not take.
///
/// The status is 0 if no report has an error; 1 if one has; 2 if the file has a fault, a put stores nothing or an outcome is no report; 3
/// if the command stops for another reason, which is the last line on `err`. It returns the fault of `err` if that line cannot be written:
/// then nothing more can be said.
pub fn check_and_tell<R, I, O, E>(
    rt: &R,
    providers: &Providers,
    line: &CheckLine,
    input: &mut I,
    out: &mut BufWriter<O>,
    err: &mut E,
) -> io::Result<u8>
where
    R: AllocGlobal + Threads + Wait + Sync,
    I: Read,
    O: Write + Drop,
    E: Write,
    ensures range { IfOk result (λ status. status ≤ 3) }
    ensures ended { IfOk result (λ status. IsEnd line.now (I.remaining input.old) status
        (writer_contents O.contents out.old) (writer_contents O.contents out.new) (E.contents err.old) (E.contents err.new)) }
    ensures handed_on { writer_buffer out.old ≡ [] → IfOk result (λ status. status < 3 → writer_buffer out.new ≡ []) }
{
    match check(rt, providers, line, input, out, err) {
        Ok(status) => Ok(status),
        Err(stop) => stop_with(line.file(), &stop, err),
    }
}

/// Runs the whole command `check` on the input of the file that the line names: writes reports to `out` and faults to `err`, and returns
/// the exit status, the greatest that applies. The line has to be one of `check`.
///
/// The status is 0 if no report has an error; 1 if one has; 2 if the file has a fault, a put stores nothing or an outcome is no report; 3
/// if the command stops for another reason, which is the last line on `err`, or if standard error fails.
pub fn check_over<R, I, O, E>(
    rt: &R,
    providers: &Providers,
    line: &Line,
    input: &mut I,
    out: &mut BufWriter<O>,
    err: &mut E,
) -> u8
where
    R: AllocGlobal + Threads + Wait + Sync,
    I: Read,
    O: Write + Drop,
    E: Write,
    requires { is_check line.now ≡ true }
    ensures range { result ≤ 3 }
    ensures ended { result < 3 → IsEndOf line.now (I.remaining input.old) result
        (writer_contents O.contents out.old) (writer_contents O.contents out.new) (E.contents err.old) (E.contents err.new) }
    ensures handed_on { writer_buffer out.old ≡ [] → result < 3 → writer_buffer out.new ≡ [] }
{
    let Line::Check(line) = line else {
        unreachable!()
    };
    match check_and_tell(rt, providers, line, input, out, err) {
        Ok(status) => status,
        Err(_) => 3,
    }
}
