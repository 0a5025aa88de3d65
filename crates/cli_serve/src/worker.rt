//! Workers: sessions that answer their lines on threads of their own.
ghost use Rattle.std.specs.Prelude.{◌≡◌, ◌<◌, [], Some, IfOk, IfSome, OnOk};
ghost use Rattle.bc_share.specs.Sessions.{new_session};
ghost use Rattle.cli_talk.specs.Counted.{CountsAll};
ghost use Rattle.cli_serve.specs.Talked.{HasTalked, IsOwn, IsWholeBy};

use crate::ends::Prints;
use crate::stop::{ServeStop, stop_of};
use bc_share::Session;
use bc_versions::Ending;
use cli_output::{Pen, Sheet};
use cli_talk::{Messages, Post, Talk, TalkFault, serve_messages};
use std::marker::PhantomData;
use std::sync::Wait;
use std::thread::{Promise, PromisedHandle, Scope, Threads};

/// A session that answered its lines, the number of these or why it stopped, and the pen with which its answers were printed.
#[derive(Drop)]
pub(crate) struct WorkerResult<J: Sheet, N: Ending> {
    session: Session<N>,
    ended: Result<u64, TalkFault>,
    pen: Pen<J>,
}

/// Answers the lines of a post's new session. Returns the session, the number of its lines or why it stopped, and its pen.
fn run_worker<
    L: Talk + Drop,
    J: Sheet,
    N: Ending,
    M: Messages<L> + Drop,
    P: Prints<J> + Drop,
    R: AllocGlobal + Wait,
>(rt: &R, post: &Post<'_>, mut inbox: M, session: Session<N>, mut printer: P) -> WorkerResult<J, N>
    requires is_new { session ≡ new_session 0 post.now.number }
    requires nothing { P.given printer ≡ Some [] }
    ensures { HasTalked L.sessions post.now.number L.lines result.session result.pen.texts result.ended }
{
    let mut session = session;
    let ended = serve_messages::<L, _, _, _, _>(rt, post, &mut inbox, &mut session, &mut printer);
    WorkerResult {
        session,
        ended,
        pen: printer.into_pen(),
    }
}

/// What the worker of the session of this number promises: its new session answered the first lines that name it, in order, as many as it
/// says, by what was printed with its pen; or it stopped.
#[derive(Drop)]
pub(crate) struct Answering<L: Talk + Drop> {
    number: u8,
    of: PhantomData<L>,
}

impl<L: Talk + Drop, J: Sheet, N: Ending> Promise<WorkerResult<J, N>> for Answering<L> {
    ghost use Rattle.cli_serve.specs.Talked.{HasTalked};

    ghost kept_by = { λ p r. HasTalked L.sessions p.number L.lines r.session r.pen.texts r.ended };
}

/// A worker on a thread of its own.
#[derive(Drop)]
pub(crate) struct Worker<L: Talk + Drop, J: Sheet, N: Ending> {
    number: u8,
    handle: PromisedHandle<WorkerResult<J, N>, Answering<L>>,
    ghost promised: { handle.promise.number ≡ number },
}

/// Starts the worker of a post's new session, which answers what comes to its inbox. Returns `None` if no thread can be made. The two ends
/// are type parameters, so the proof that they may go to another thread does not look into them.
pub(crate) fn start<'s, V, L, J, N, M, P, R>(
    scope: &Scope<'s, V>,
    rt: &'s R,
    post: Post<'s>,
    inbox: M,
    session: Session<N>,
    printer: P,
) -> Option<Worker<L, J, N>>
where
    L: Talk + Drop + Send + 's,
    J: Sheet + Send + 's,
    N: Ending + Send + 's,
    M: Messages<L> + Drop + Send + 's,
    P: Prints<J> + Drop + Send + 's,
    R: AllocGlobal + Wait + Sync,
    requires is_new { session ≡ new_session 0 post.number }
    requires nothing { P.given printer ≡ Some [] }
{
    // (taken apart, so that what goes to the thread is shown to be fit for it part by part)
    let Post { providers, number } = post;
    let promise = Answering {
        number,
        of: PhantomData,
    };
    let started = scope.spawn_with(
        promise,
        move || -> WorkerResult<J, N>
            requires { (session ≡ new_session 0 number) × (P.given printer ≡ Some []) }
            ensures { HasTalked L.sessions number L.lines result.session result.pen.texts result.ended }
        {
            let post = Post { providers, number };
            run_worker::<L, J, N, M, P, R>(rt, &post, inbox, session, printer)
        },
    );
    match started {
        Ok(handle) => Some(Worker { number, handle }),
        Err(_) => None,
    }
}

/// Returns whether the session of this number answered each line that names it, by the router's counts. Fails with what stopped its worker,
/// or with `LostLine` if it answered fewer, or if the router stopped and did not count them.
fn find_whole<L: Talk + Drop, J: Sheet, N: Ending>(
    sessions: u8,
    number: u8,
    _session: &Session<N>,
    _pen: &Pen<J>,
    ended: Result<u64, TalkFault>,
    routed: &Result<Vec<u64>, ServeStop>,
) -> Result<(), ServeStop>
    requires sessions { sessions ≡ L.sessions }
    requires low { number < sessions }
    requires talked { HasTalked L.sessions number L.lines _session.now _pen.now.texts ended }
    requires counts { IfOk routed.now (λ counts. CountsAll sessions counts.items L.lines) }
    ensures { OnOk result (IsWholeBy L.sessions number L.lines _session.now _pen.now.texts) }
{
    let count = match ended {
        Ok(count) => count,
        Err(fault) => return Err(stop_of(fault)),
    };
    let counts = match routed {
        Ok(counts) => counts,
        Err(_) => return Err(ServeStop::LostLine),
    };
    let place = usize::from(number);
    if place >= counts.len() || counts[place] != count {
        return Err(ServeStop::LostLine);
    }
    Ok(())
}

/// Joins the worker of the session of this number. Returns the session, its pen, and whether it answered each line that names it, by the
/// router's counts. Returns `None` if the worker or the pen is another session's.
pub(crate) fn join<L: Talk + Drop, J: Sheet, N: Ending, R: Threads>(
    rt: &R,
    sessions: u8,
    worker: Worker<L, J, N>,
    number: usize,
    routed: &Result<Vec<u64>, ServeStop>,
) -> Option<(Session<N>, Pen<J>, Result<(), ServeStop>)>
    requires sessions { sessions ≡ L.sessions }
    requires counts { IfOk routed.now (λ counts. CountsAll sessions counts.items L.lines) }
    ensures own { IfSome result (λ joined. IsOwn number joined.0) }
    ensures pen { IfSome result (λ joined. joined.1.number ≡ number) }
    ensures whole { IfSome result (λ joined. OnOk joined.2 (IsWholeBy L.sessions number L.lines joined.0 joined.1.texts)) }
{
    let Worker {
        number: own,
        handle,
    } = worker;
    let WorkerResult {
        session,
        ended,
        pen,
    } = handle.join(rt);
    if own >= sessions || usize::from(own) != number || pen.number() != own {
        return None;
    }
    let answered = find_whole::<L, J, N>(sessions, own, &session, &pen, ended, routed);
    Some((session, pen, answered))
}

/// Waits for a worker, whatever it did.
pub(crate) fn wait<L: Talk + Drop, J: Sheet, N: Ending, R: Threads>(
    rt: &R,
    worker: Worker<L, J, N>,
) {
    let Worker { number: _, handle } = worker;
    let _ran = handle.join(rt);
}
