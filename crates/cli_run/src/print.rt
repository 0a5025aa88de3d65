//! Printing a history, and the sessions that stopped early.
ghost use Rattle.std.specs.Prelude.{◌≡◌, ◌≤◌, ◌⊎◌, true, false, IfErr, IsErrOf, OnOk, OnErr, length};
ghost use Rattle.std.specs.List.{flat_map};
ghost use Rattle.std.specs.Io.KnownBytes.{Appends, Keeps};
ghost use Rattle.bc_report.specs.Text.{line};
ghost use Rattle.cli_run.specs.Runs.{end_status, greatest_end};
ghost use Rattle.cli_run.specs.Print.{event_text, entry_line, root_lines, outcome_lines, entry_lines, stopped_line, stopped_lines, PrintsPart};

use bc_calls::{Entry, Event};
use bc_names::Name;
use bc_prov::{Outcome, Shared};
use bc_report::write_report;
use bc_scripts::End;
use cli_entries::{entry_line, put_word, refusal_words, remove_word};
use cli_file::Stop;
use std::alloc::Global;
use std::io;
use std::io::Write;

/// Writes a call with its reply in words, to the end of the line.
fn write_event<O: Write>(event: &Event, out: &mut O) -> io::Result<()>
    ensures { OnOk result (Appends (O.contents out.old) (O.contents out.new) (line (event_text event.now))) }
{
    match event {
        Event::Types(_) => writeln!(out, "types stored"),
        Event::Put(name, _, reply) => {
            let word = put_word(*reply);
            writeln!(out, "put {name} {word}")
        }
        Event::Remove(name, reply) => {
            let word = remove_word(*reply);
            writeln!(out, "remove {name} {word}")
        }
        Event::Ask(name, _) => writeln!(out, "ask {name}"),
        Event::All(listing) => {
            let count = listing.get().len();
            writeln!(out, "askall {count}")
        }
    }
}

/// Writes the line of an entry.
fn write_line<O: Write>(entry: &Entry, out: &mut O) -> io::Result<()>
    ensures { OnOk result (Appends (O.contents out.old) (O.contents out.new) (entry_line entry.now)) }
{
    let session = entry.session;
    let number = entry.number;
    write!(out, "{session} {number} ")?;
    write_event(&entry.event, out)
}

/// Writes a root, then its report.
fn write_root<O: Write>(row: &(Name, Shared<Outcome>), out: &mut O) -> io::Result<()>
    ensures { OnOk result (Appends (O.contents out.old) (O.contents out.new) (root_lines row.now)) }
{
    let name = &row.0;
    writeln!(out, "root {name}")?;
    Ok(write_report(row.1.get(), out)?)
}

/// Writes roots with their reports, in order.
fn write_roots<O: Write>(rows: &[(Name, Shared<Outcome>)], out: &mut O) -> io::Result<()>
    ensures { OnOk result (Appends (O.contents out.old) (O.contents out.new) (flat_map root_lines rows.now)) }
{
    for row in rows {
        write_root(row, out)?;
    }
    Ok(())
}

/// Writes the report of an ask, or the roots of an ask for all with their reports; nothing for another call.
fn write_outcome<O: Write>(event: &Event, out: &mut O) -> io::Result<()>
    ensures { OnOk result (Appends (O.contents out.old) (O.contents out.new) (outcome_lines event.now)) }
{
    match event {
        Event::Types(_) | Event::Put(_, _, _) | Event::Remove(_, _) => Ok(()),
        Event::Ask(_, outcome) => Ok(write_report(outcome.get(), out)?),
        Event::All(listing) => write_roots(listing.get().as_slice(), out),
    }
}

/// Writes the line of an entry, then what an ask found.
fn write_text<O: Write>(entry: &Entry, out: &mut O) -> io::Result<()>
    ensures { OnOk result (Appends (O.contents out.old) (O.contents out.new) (entry_lines false entry.now)) }
{
    write_line(entry, out)?;
    write_outcome(&entry.event, out)
}

/// Writes the JSON line of an entry. Returns `NoMemory`, with nothing written, if there is no room for it.
fn write_json<O: Write>(alloc: Global, entry: &Entry, out: &mut O) -> Result<(), Stop>
    ensures written { OnOk result (Appends (O.contents out.old) (O.contents out.new) (entry_lines true entry.now)) }
    ensures no_memory { IsErrOf result Stop.NoMemory → Keeps (O.contents out.old) (O.contents out.new) }
    ensures stop { IfErr result (λ stop. (stop ≡ Stop.CannotWrite) ⊎ (stop ≡ Stop.NoMemory)) }
{
    let Ok(text) = entry_line(alloc, entry) else {
        return Err(Stop::NoMemory);
    };
    if writeln!(out, "{text}").is_err() {
        return Err(Stop::CannotWrite);
    }
    Ok(())
}

/// Writes an entry as text or as JSON. Returns `NoMemory`, with nothing written, if there is no room for its JSON.
fn write_entry<O: Write>(alloc: Global, json: bool, entry: &Entry, out: &mut O) -> Result<(), Stop>
    ensures written { OnOk result (Appends (O.contents out.old) (O.contents out.new) (entry_lines json entry.now)) }
    ensures no_memory { IsErrOf result Stop.NoMemory → (json ≡ true) × Keeps (O.contents out.old) (O.contents out.new) }
    ensures stop { IfErr result (λ stop. (stop ≡ Stop.CannotWrite) ⊎ (stop ≡ Stop.NoMemory)) }
{
    if json {
        return write_json(alloc, entry, out);
    }
    if write_text(entry, out).is_err() {
        return Err(Stop::CannotWrite);
    }
    Ok(())
}

/// Writes the entries of a history in order, as text or as JSON. Returns `CannotWrite` if the writer fails. Returns `NoMemory` at the first
/// entry for whose JSON there is no room: this entry and those after it are not written. Text needs no room.
pub fn write_history<O: Write>(
    alloc: Global,
    json: bool,
    entries: &[Entry],
    out: &mut O,
) -> Result<(), Stop>
    ensures written { OnOk result (Appends (O.contents out.old) (O.contents out.new) (flat_map (entry_lines json) entries.now)) }
    ensures no_memory { IsErrOf result Stop.NoMemory → (json ≡ true) × PrintsPart entries.now (O.contents out.old) (O.contents out.new) }
    ensures stop { IfErr result (λ stop. (stop ≡ Stop.CannotWrite) ⊎ (stop ≡ Stop.NoMemory)) }
{
    for entry in entries {
        write_entry(alloc, json, entry, out)?;
    }
    Ok(())
}

/// Writes the line of a session that stopped early, if it did. It fails only if there is such a line.
fn write_stopped<E: Write>(session: u8, end: &End, err: &mut E) -> io::Result<()>
    ensures written { OnOk result (Appends (E.contents err.old) (E.contents err.new) (stopped_line session end.now)) }
    ensures owed { OnErr result (end_status end.now ≡ 3) }
{
    match end {
        End::Done => Ok(()),
        End::Stopped { number: _, refusal } => {
            let why = refusal_words(*refusal);
            writeln!(err, "session {session} stopped: {why}")
        }
    }
}

/// Writes a line for each session that stopped early, in order; there are at most 16 sessions. Returns the writer's fault, and only if
/// there is such a line.
pub fn write_all_stopped<E: Write>(ends: &[End], err: &mut E) -> io::Result<()>
    requires { length ends.now ≤ 16 }
    ensures written { OnOk result (Appends (E.contents err.old) (E.contents err.new) (stopped_lines 0 ends.now)) }
    ensures owed { OnErr result (greatest_end ends.now ≡ 3) }
{
    let mut session: u8 = 0;
    for end in ends {
        write_stopped(session, end, err)?;
        session += 1;
    }
    Ok(())
}
