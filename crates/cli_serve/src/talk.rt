//! A conversation: the router on this thread, and a worker for each session on a thread of its own. `converse` names the lines of the input
//! for all contracts below it, `converse_about` opens the scope of the threads, and `converse_in` runs in it.
ghost use Rattle.std.specs.Prelude.{◌≡◌, [], IfErr, IfOk, OnOk, length};
ghost use Rattle.bc_share.specs.Sessions.{new_session};
ghost use Rattle.cli_talk.specs.Counted.{CountsAll};
ghost use Rattle.cli_serve.specs.Talked.{AreAllTold, AreNew, IsTalk, lines_left};

use crate::backlog::Backlog;
use crate::ends::{Inbox, Printer, Prints};
use crate::stop::{ServeStop, both, stop_of};
use crate::worker::{Worker, join, start, wait};
use bc_prov::Providers;
use bc_share::Session;
use bc_versions::Ending;
use cli_output::{Authors, Output, Pen, Sheet};
use cli_talk::{Message, Post, RoutedLine, Talk, no_counts, route_line};
use crossbeam_channel::{Receiver, SendError, Sender, unbounded};
use std::alloc::{AllocError, Global};
use std::io::{BufRead, Write};
use std::marker::Brand;
use std::sync::{Mutex, Wait};
use std::thread;
use std::thread::{Scope, Threads};

/// The sessions of a conversation, in order, with the pens with which their answers were printed, the router's pen, and how the
/// conversation ended.
#[derive(Drop)]
pub(crate) struct TalkResult<J: Sheet, N: Ending> {
    pub sessions: Vec<Session<N>>,
    pub pens: Vec<Pen<J>>,
    pub router: Pen<J>,
    pub ended: Result<(), ServeStop>,
}

/// What the router and the workers of a conversation share: the runtime, how many sessions there are, the backlog of lines, and the output.
#[derive(Drop)]
struct Conversation<'s, J: Sheet, R, O: Write + Drop> {
    rt: &'s R,
    sessions: u8,
    backlog: &'s Backlog,
    out: &'s Mutex<Output<J, O>>,
}

/// The workers of a conversation, in the order of their sessions, with the sending ends of their queues.
#[derive(Drop)]
struct Staff<L: Talk + Drop, J: Sheet, N: Ending> {
    queues: Vec<Sender<Message<L>>>,
    workers: Vec<Worker<L, J, N>>,
}

/// Room for the sessions and pens that come back.
#[derive(Drop)]
struct Room<J: Sheet, N: Ending> {
    sessions: Vec<Session<N>>,
    pens: Vec<Pen<J>>,
    ghost empty: { (sessions.items ≡ []) × (pens.items ≡ []) },
}

impl<J: Sheet, N: Ending> Room<J, N> {
    /// Returns room for `count` sessions.
    fn new(alloc: Global, count: usize) -> Result<Room<J, N>, AllocError> {
        Ok(Room {
            sessions: Vec::with_capacity(alloc, count)?,
            pens: Vec::with_capacity(alloc, count)?,
        })
    }
}

/// Puts a message into the queue of its session, once the backlog has room for its line. Returns `LostLine` once a worker stopped, which
/// knows why. Otherwise it fails only with `NoMemory`.
fn send<L: Talk + Drop, R: Wait>(
    rt: &R,
    backlog: &Backlog,
    queues: &[Sender<Message<L>>],
    message: Message<L>,
) -> Result<(), ServeStop> {
    let Some(queue) = queues.get(usize::from(message.line().session())) else {
        return Err(ServeStop::LostLine);
    };
    if !backlog.add(rt, message.line().bytes()) {
        return Err(ServeStop::LostLine);
    }
    match queue.send(rt, message) {
        Ok(()) => Ok(()),
        Err(SendError::OutOfMemory(_)) => Err(ServeStop::NoMemory),
        Err(SendError::Disconnected(_)) => Err(ServeStop::LostLine),
    }
}

/// Routes each line of an input to the worker of its session, until the input ends. Returns the number of lines for each session. The
/// printer, with which nothing was printed before, answers each line that names no session.
fn route_all<L: Talk + Drop, J: Sheet, I: BufRead, R: AllocGlobal + Wait, O: Write + Drop>(
    talk: &Conversation<'_, J, R, O>,
    input: &mut I,
    queues: &[Sender<Message<L>>],
    printer: &mut Printer<'_, J, R, O>,
) -> Result<Vec<u64>, ServeStop>
    requires sessions { talk.now.sessions ≡ L.sessions }
    requires lines { L.lines ≡ lines_left (I.remaining input.old) }
    requires nothing { printer.old.pen.texts ≡ [] }
    ensures counts { IfOk result (λ counts. CountsAll talk.now.sessions counts.items L.lines) }
    ensures told { OnOk result (AreAllTold talk.now.sessions L.lines printer.new.pen.texts) }
{
    let alloc = talk.rt.alloc();
    let mut counts = match no_counts::<L, I>(alloc, input, talk.sessions) {
        Ok(counts) => counts,
        Err(fault) => return Err(stop_of(fault)),
    };
    'lines: for _ in 0..u64::MAX {
        match route_line::<L, I, _>(alloc, input, talk.sessions, printer, &mut counts) {
            Ok(RoutedLine::End) => return Ok(counts),
            Ok(RoutedLine::Told) => {}
            Ok(RoutedLine::Sent(message)) => {
                if let Err(stop) = send(talk.rt, talk.backlog, queues, message) {
                    return Err(stop);
                }
            }
            Err(fault) => return Err(stop_of(fault)),
        }
    }
    Err(ServeStop::CannotRead)
}

/// Joins the workers. Returns their sessions and pens with the router's pen, and how the conversation ended: like the first worker that
/// stopped, in the order of sessions, or like the router if none did. Returns `LostLine` if a worker is missing, or the router's pen is
/// another's.
fn join_all<L: Talk + Drop, J: Sheet, N: Ending, R: Threads>(
    rt: &R,
    count: u8,
    workers: Vec<Worker<L, J, N>>,
    room: Room<J, N>,
    router: Pen<J>,
    routed: &Result<Vec<u64>, ServeStop>,
) -> Result<TalkResult<J, N>, ServeStop>
    requires sessions { count ≡ L.sessions }
    requires counts { IfOk routed.now (λ counts. CountsAll count counts.items L.lines) }
    requires told { OnOk routed.now (AreAllTold count L.lines router.texts) }
    ensures { IfOk result (λ talked. IsTalk L.sessions L.lines talked.sessions.items talked.pens.items talked.router talked.ended) }
{
    let Room { sessions, pens } = room;
    let (mut done, mut pens) = (sessions, pens);
    let mut ended = Ok(());
    'workers: for worker in workers {
        let Some(joined) = join(rt, count, worker, done.len(), routed) else {
            return Err(ServeStop::LostLine);
        };
        let (session, pen, answered) = joined;
        ended = both(ended, answered);
        if done.push(session).is_err() || pens.push(pen).is_err() {
            return Err(ServeStop::NoMemory);
        }
    }
    if done.len() != usize::from(count) || router.number() != count {
        return Err(ServeStop::LostLine);
    }
    let ended = match routed {
        Ok(_) => ended,
        Err(stop) => both(ended, Err(*stop)),
    };
    Ok(TalkResult {
        sessions: done,
        pens,
        router,
        ended,
    })
}

/// Ends the queues of some workers, and waits for these, whatever they did.
fn dismiss<L: Talk + Drop, J: Sheet, N: Ending, R: Threads>(rt: &R, staff: Staff<L, J, N>) {
    let Staff { queues, workers } = staff;
    drop(queues);
    for worker in workers {
        wait(rt, worker);
    }
}

/// Returns both ends of a new queue. Fails only with `NoMemory`.
fn open_queue<L: Talk + Drop>(
    alloc: Global,
) -> Result<(Sender<Message<L>>, Receiver<Message<L>>), ServeStop>
    ensures { IfErr result (λ stop. stop ≡ ServeStop.NoMemory) }
{
    match unbounded(alloc) {
        Ok(ends) => Ok(ends),
        Err(_) => Err(ServeStop::NoMemory),
    }
}

/// Starts the worker of a new session, with a queue and a pen of its own.
fn start_one<'s, V, L, J, N, R, O>(
    scope: &Scope<'s, V>,
    talk: &Conversation<'s, J, R, O>,
    providers: &'s Providers,
    session: Session<N>,
    authors: &mut Authors<J>,
    staff: &mut Staff<L, J, N>,
) -> Result<(), ServeStop>
where
    L: Talk + Drop + Send + 's,
    J: Sheet + Send + 's,
    N: Ending + Send + 's,
    R: AllocGlobal + Wait + Sync,
    O: Write + Drop + Send + 's,
    requires is_new { session ≡ new_session 0 session.number }
{
    let number = session.number();
    let (to, from) = match open_queue(talk.rt.alloc()) {
        Ok(ends) => ends,
        Err(stop) => return Err(stop),
    };
    let Some(pen) = talk.out.lock(talk.rt).admit(authors, number) else {
        return Err(ServeStop::LostLine);
    };
    let inbox = Inbox::new(talk.rt, from, talk.backlog);
    let printer = Printer::new(talk.rt, talk.out, pen);
    let post = Post { providers, number };
    let Some(worker) = start::<V, L, J, N, _, _, R>(scope, talk.rt, post, inbox, session, printer)
    else {
        return Err(ServeStop::NoThread);
    };
    if staff.queues.push(to).is_err() || staff.workers.push(worker).is_err() {
        return Err(ServeStop::NoMemory);
    }
    Ok(())
}

/// Starts a worker for each session, and returns the workers with their queues. If one cannot be started, it dismisses those before it.
fn start_all<'s, V, L, J, N, R, O>(
    scope: &Scope<'s, V>,
    talk: &Conversation<'s, J, R, O>,
    providers: &'s Providers,
    sessions: Vec<Session<N>>,
    authors: &mut Authors<J>,
) -> Result<Staff<L, J, N>, ServeStop>
where
    L: Talk + Drop + Send + 's,
    J: Sheet + Send + 's,
    N: Ending + Send + 's,
    R: AllocGlobal + Threads + Wait + Sync,
    O: Write + Drop + Send + 's,
    requires are_new { AreNew L.sessions sessions.items }
{
    let alloc = talk.rt.alloc();
    let mut staff = Staff {
        queues: Vec::new(alloc),
        workers: Vec::new(alloc),
    };
    'sessions: for session in sessions {
        if let Err(stop) = start_one::<V, L, J, N, R, O>(
            scope, talk, providers, session, authors, &mut staff,
        ) {
            dismiss(talk.rt, staff);
            return Err(stop);
        }
    }
    Ok(staff)
}

/// Holds the conversation of new sessions about the lines of an input, in a scope of threads. Returns what `converse` does.
fn converse_in<'s, V, L, J, N, R, I, O>(
    scope: &Scope<'s, V>,
    talk: &Conversation<'s, J, R, O>,
    providers: &'s Providers,
    input: &mut I,
    sessions: Vec<Session<N>>,
    authors: &mut Authors<J>,
) -> Result<TalkResult<J, N>, ServeStop>
where
    L: Talk + Drop + Send + 's,
    J: Sheet + Send + 's,
    N: Ending + Send + 's,
    R: AllocGlobal + Threads + Wait + Sync,
    I: BufRead,
    O: Write + Drop + Send,
    requires sessions { talk.now.sessions ≡ L.sessions }
    requires are_new { AreNew L.sessions sessions.items }
    requires lines { L.lines ≡ lines_left (I.remaining input.old) }
    ensures { IfOk result (λ talked. IsTalk L.sessions L.lines talked.sessions.items talked.pens.items talked.router talked.ended) }
{
    let Ok(room) = Room::new(talk.rt.alloc(), sessions.len()) else {
        return Err(ServeStop::NoMemory);
    };
    let staff = match start_all::<V, L, J, N, R, O>(scope, talk, providers, sessions, authors) {
        Ok(staff) => staff,
        Err(stop) => return Err(stop),
    };
    let Some(pen) = talk.out.lock(talk.rt).admit(authors, talk.sessions) else {
        dismiss(talk.rt, staff);
        return Err(ServeStop::LostLine);
    };
    let Staff { queues, workers } = staff;
    let mut printer = Printer::new(talk.rt, talk.out, pen);
    let routed = route_all::<L, J, I, R, O>(talk, input, &queues, &mut printer);
    if let Err(ServeStop::CannotWrite) = routed {
        talk.backlog.stop(talk.rt);
    }
    drop(queues);
    join_all(
        talk.rt,
        talk.sessions,
        workers,
        room,
        printer.into_pen(),
        &routed,
    )
}

/// Holds the conversation of new sessions about the lines of an input. Returns what `converse` does.
fn converse_about<L, J, N, R, I, O>(
    rt: &R,
    providers: &Providers,
    input: &mut I,
    sessions: Vec<Session<N>>,
    out: &Mutex<Output<J, O>>,
    authors: &mut Authors<J>,
) -> Result<TalkResult<J, N>, ServeStop>
where
    L: Talk + Drop + Send + 'static,
    J: Sheet + Send,
    N: Ending + Send,
    R: AllocGlobal + Threads + Wait + Sync,
    I: BufRead,
    O: Write + Drop + Send,
    requires are_new { AreNew L.sessions sessions.items }
    requires lines { L.lines ≡ lines_left (I.remaining input.old) }
    ensures { IfOk result (λ talked. IsTalk L.sessions L.lines talked.sessions.items talked.pens.items talked.router talked.ended) }
{
    let backlog = Backlog::new();
    let talk = Conversation {
        rt,
        sessions: sessions.len() as u8,
        backlog: &backlog,
        out,
    };
    let shared = &talk;
    thread::scope(
        thread::scope_env(),
        rt,
        |scope| -> Result<TalkResult<J, N>, ServeStop>
            requires { (shared.now.sessions ≡ L.sessions) × AreNew L.sessions sessions.items × (L.lines ≡ lines_left (I.remaining input.now)) }
            ensures { IfOk result (λ talked. IsTalk L.sessions L.lines talked.sessions.items talked.pens.items talked.router talked.ended) }
        { converse_in::<_, L, J, N, R, I, O>(scope, shared, providers, input, sessions, authors) },
    )
}

/// Has each of some new sessions, of a database with the tag 0, answer the lines of an input that name it, on a thread of its own, until
/// the input ends. Returns the sessions in order, and how the conversation ended. Each answer is one line on the output, and is flushed.
///
/// The sessions come back even if the input or the output fails, or memory runs out, in between. If the workers cannot all be started, it
/// returns `NoThread` or `NoMemory`, before any line is read. There may be at most 16 sessions.
pub(crate) fn converse<J, N, R, I, O>(
    rt: &R,
    providers: &Providers,
    input: &mut I,
    sessions: Vec<Session<N>>,
    out: &Mutex<Output<J, O>>,
    authors: &mut Authors<J>,
) -> Result<TalkResult<J, N>, ServeStop>
where
    J: Sheet + Send,
    N: Ending + Send,
    R: AllocGlobal + Threads + Wait + Sync,
    I: BufRead,
    O: Write + Drop + Send,
    requires are_new { AreNew (length sessions.items) sessions.items }
    ensures { IfOk result (λ talked. IsTalk (length sessions.items) (lines_left (I.remaining input.old))
        talked.sessions.items talked.pens.items talked.router talked.ended) }
{
    converse_about::<Brand, J, N, R, I, O>(rt, providers, input, sessions, out, authors)
}
