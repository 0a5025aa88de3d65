//! The command `serve`. Its steps are functions of their own, since a contract can speak of the output only from a certain step on: `serve_by`
//! owns the writer, `serve_on` has named what the writer holds before, and `talk_and_close` prints on the output through its lock.
ghost use Rattle.std.specs.Prelude.{◌≡◌, ◌≢◌, ◌⊎◌, [], IfOk, OnOk};
ghost use Rattle.std.specs.Io.Buffered.{writer_buffer, writer_contents};
ghost use Rattle.cli_serve.specs.Printed.{HasPrinted, HasServed};
ghost use Rattle.cli_serve.specs.Served.{IsEnd, IsServed};
ghost use Rattle.cli_serve.specs.Talked.{lines_left};

use crate::close::close;
use crate::service::Service;
use crate::stop::{ServeStop, write_stop};
use crate::talk::{TalkResult, converse};
use bc_share::{CloseFault, Db, History};
use bc_versions::Waiting;
use cli_output::{Authors, Opening, Output, Pen, Sheet};
use core::mem::replace_with;
use std::io;
use std::io::{BufRead, BufWriter, Write};
use std::marker::Brand;
use std::sync::{Mutex, Wait};
use std::thread::Threads;

/// A conversation whose database is closed: the history, the pens with which the sessions' answers were printed, and the router's pen.
#[derive(Drop)]
struct ServeResult<J: Sheet> {
    history: History,
    pens: Vec<Pen<J>>,
    router: Pen<J>,
}

/// Opens a database for the sessions of a service, has them answer the lines of an input on an output, and closes the database. Returns the
/// history and the pens.
fn talk_and_close<J, R, I, O>(
    rt: &R,
    service: &Service<'_>,
    input: &mut I,
    out: &Mutex<Output<J, O>>,
    authors: &mut Authors<J>,
) -> Result<ServeResult<J>, ServeStop>
where
    J: Sheet + Send + Sync,
    R: AllocGlobal + Threads + Wait + Sync,
    I: BufRead,
    O: Write + Drop + Send,
    ensures { IfOk result (λ s. HasServed service.now.sessions (lines_left (I.remaining input.old)) s.history s.pens.items s.router) }
{
    let (capacity, count) = (service.capacity, service.sessions);
    let (db, opened) = match Db::open(rt.alloc(), Waiting::new(rt), 0, capacity, count) {
        Ok(opened) => opened,
        Err(_) => return Err(ServeStop::NoMemory),
    };
    let talked = match converse(rt, service.providers, input, opened, out, authors) {
        Ok(talked) => talked,
        Err(stop) => return Err(stop),
    };
    let TalkResult {
        sessions,
        pens,
        router,
        ended,
    } = talked;
    match db.close(rt, sessions) {
        Ok(history) => match ended {
            Ok(()) => Ok(ServeResult {
                history,
                pens,
                router,
            }),
            Err(stop) => Err(stop),
        },
        Err(CloseFault::Foreign) => unreachable!(),
        Err(CloseFault::Audit(history)) => Err(stop_of_audit(&history)),
    }
}

/// Serves as `serve` does, on an output that it opens for the sessions on this writer, and returns the writer too.
fn serve_on<J, R, I, O>(
    rt: &R,
    service: &Service<'_>,
    input: &mut I,
    opening: Opening,
    out: BufWriter<O>,
) -> (BufWriter<O>, Result<History, ServeStop>)
where
    J: Sheet + Send + Sync,
    R: AllocGlobal + Threads + Wait + Sync,
    I: BufRead,
    O: Write + Drop + Send,
    requires table { J.table ≡ opening.table.shared.table_id }
    requires before { (J.before ≡ writer_contents O.contents out) × (J.buffer ≡ writer_buffer out) }
    ensures printed { HasPrinted service.now.sessions (lines_left (I.remaining input.old)) result.1 J.before (writer_contents O.contents result.0) }
    ensures handed_on { OnOk result.1 (J.buffer ≡ [] → writer_buffer result.0 ≡ []) }
{
    let (output, mut authors) = opening.open::<J, O>(out);
    let shared = Mutex::new(output);
    let served = talk_and_close(rt, service, input, &shared, &mut authors);
    let output = shared.into_inner();
    let ServeResult {
        history,
        pens,
        router,
    } = match served {
        Ok(served) => served,
        Err(stop) => return (output.into_writer(), Err(stop)),
    };
    let (out, closed) = close(output, authors, service.sessions, pens, router);
    match closed {
        Ok(()) => (out, Ok(history)),
        Err(stop) => (out, Err(stop)),
    }
}

/// Serves as `serve` does, on this writer, and returns the writer too.
fn serve_by<R: AllocGlobal + Threads + Wait + Sync, I: BufRead, O: Write + Drop + Send>(
    rt: &R,
    service: &Service<'_>,
    input: &mut I,
    out: BufWriter<O>,
) -> (BufWriter<O>, Result<History, ServeStop>)
    ensures printed { HasPrinted service.now.sessions (lines_left (I.remaining input.old)) result.1
        (writer_contents O.contents out) (writer_contents O.contents result.0) }
    ensures handed_on { OnOk result.1 (writer_buffer out ≡ [] → writer_buffer result.0 ≡ []) }
{
    let Ok(opening) = Opening::new(rt.alloc()) else {
        return (out, Err(ServeStop::NoMemory));
    };
    serve_on::<Brand, R, I, O>(rt, service, input, opening, out)
}

/// Has each session of a new database answer the lines of an input that name it, on a thread of its own, until the input ends. Each answer
/// is one line on `out`, and is flushed before the session reads its next line. Nothing else is written. Then it closes the database, and
/// returns the history of all calls. At most 1,024 lines, of 8 MiB in all, are read and not answered; at this bound no more is read until
/// at most half of both is left.
///
/// Stops with `CannotRead` if the input fails; with `CannotWrite` if the output fails, after which nothing more is written; with `NoThread`
/// if the threads cannot be made, before a line is read; with `Audit` if history and sessions do not agree at the close, which is reported
/// before anything else; and with `LostLine` if a session did not answer all its lines. Stops with `NoMemory` if there is no room for the
/// database or for finding the session of a line, and at the end of the input if an answer was lost, in whose place a line said so. A call
/// or a line that is out of memory is answered with a fault, and is no reason to stop.
pub fn serve<R: AllocGlobal + Threads + Wait + Sync, I: BufRead, O: Write + Drop + Send>(
    rt: &R,
    service: &Service<'_>,
    input: &mut I,
    out: &mut BufWriter<O>,
) -> Result<History, ServeStop>
    ensures served { IfOk result (IsServed service.now.sessions (lines_left (I.remaining input.old))) }
    ensures printed { HasPrinted service.now.sessions (lines_left (I.remaining input.old)) result
        (writer_contents O.contents out.old) (writer_contents O.contents out.new) }
    ensures handed_on { OnOk result (writer_buffer out.old ≡ [] → writer_buffer out.new ≡ []) }
{
    // No contract describes a `&mut` inside a lock, so the writer itself is moved there.
    replace_with(
        out,
        (),
        |out, ()| -> (BufWriter<O>, Result<History, ServeStop>)
            ensures printed { HasPrinted service.entry.now.sessions (lines_left (I.remaining input.entry.now)) result.1
                (writer_contents O.contents out) (writer_contents O.contents result.0) }
            ensures handed_on { OnOk result.1 (writer_buffer out ≡ [] → writer_buffer result.0 ≡ []) }
        { serve_by(rt, service, input, out) },
    )
}

/// Serves as `serve` does, and returns the exit status of the command: 0 at the end of the input, whatever was answered, or 3 if it stops,
/// with one line on `err` that says why. Returns the fault of `err` if that line cannot be written.
pub fn serve_and_tell<R, I, O, E>(
    rt: &R,
    service: &Service<'_>,
    input: &mut I,
    out: &mut BufWriter<O>,
    err: &mut E,
) -> io::Result<u8>
where
    R: AllocGlobal + Threads + Wait + Sync,
    I: BufRead,
    O: Write + Drop + Send,
    E: Write,
    ensures { IfOk result (λ status. IsEnd service.now.sessions (lines_left (I.remaining input.old)) status (E.contents err.old) (E.contents err.new)) }
{
    match serve(rt, service, input, out) {
        Ok(_) => Ok(0),
        Err(stop) => match write_stop(stop, err) {
            Ok(()) => Ok(3),
            Err(fault) => Err(fault),
        },
    }
}

/// Runs the whole command `serve`: the sessions of a new database answer the lines of an input, each by one line on `out`. Returns the exit
/// status: 0 at the end of the input, whatever was answered; 3 if the input or the output fails, memory runs out, a thread cannot be made,
/// or history and sessions do not agree at the close. One line on `err` says why, if it can be written.
pub fn serve_over<R, I, O, E>(
    rt: &R,
    service: &Service<'_>,
    input: &mut I,
    out: &mut BufWriter<O>,
    err: &mut E,
) -> u8
where
    R: AllocGlobal + Threads + Wait + Sync,
    I: BufRead,
    O: Write + Drop + Send,
    E: Write,
    ensures status { (result ≡ 0) ⊎ (result ≡ 3) }
    ensures ended { result ≢ 3 → IsEnd service.now.sessions (lines_left (I.remaining input.old)) result (E.contents err.old) (E.contents err.new) }
{
    match serve_and_tell(rt, service, input, out, err) {
        Ok(status) => status,
        Err(_) => 3,
    }
}

/// Returns why the command stops if history and sessions do not agree.
fn stop_of_audit(_history: &History) -> ServeStop
    ensures { result ≡ ServeStop.Audit }
{
    ServeStop::Audit
}
