//! Scripts on threads: a session that was stopped makes the rest in a second run.
use anyhow::{Result, bail};
use bc_calls::Call;
use bc_names::Name;
use bc_prov::{Providers, Shared};
use bc_scripts::{End, Gate, Script, Stage, run_sessions};
use bc_share::{Db, Session};
use bc_versions::{Ending, Waiting};
use std::alloc::{AllocError, Global};
use std::sync::Wait;
use std::thread::Threads;
use test_fixtures::{WRITES_WHILE_BORROWED, name, shared_unit};

/// The number of calls of a session.
const ALL: usize = 3;

/// A `Gate` that holds up nobody.
#[derive(Clone, Copy)]
struct Open;

impl Gate for Open {
    fn pause(&self, _session: u8, _stage: Stage) {}
}

/// Returns the call of this number of a session: a put under its name, an ask of it, then a removal.
fn call_of(alloc: Global, at: Name, number: usize) -> Result<Call> {
    match number {
        0 => Ok(Call::Put(at, Shared::new(shared_unit(alloc, WRITES_WHILE_BORROWED)?))),
        1 => Ok(Call::Ask(at)),
        _ => Ok(Call::Remove(at)),
    }
}

/// Returns the script of a session that has made the first `made` of its calls.
fn script(alloc: Global, at: Name, made: usize) -> Result<Script> {
    let mut calls = Vec::new(alloc);
    for number in made..ALL {
        calls.push(call_of(alloc, at, number)?)?;
    }
    Ok(Script::new(calls))
}

/// Returns the scripts of two sessions that have made these numbers of their calls.
fn scripts(alloc: Global, made: &[usize; 2]) -> Result<Vec<Script>> {
    let mut scripts = Vec::new(alloc);
    scripts.push(script(alloc, name(b"f")?, made[0])?)?;
    scripts.push(script(alloc, name(b"g")?, made[1])?)?;
    Ok(scripts)
}

/// Returns the sessions that ran, and notes how many calls each has made.
fn risen<E: Ending>(
    alloc: Global,
    ran: Vec<(Session<E>, End)>,
    made: &mut [usize; 2],
) -> Result<Vec<Session<E>>, AllocError> {
    let mut sessions = Vec::new(alloc);
    for ((session, end), made) in ran.into_iter().zip(made.iter_mut()) {
        *made = match end {
            End::Done => ALL,
            End::Stopped { number, refusal: _ } => made.saturating_add(number),
        };
        sessions.push(session)?;
    }
    Ok(sessions)
}

/// Has two sessions make the calls that they have not made yet, on threads. They make none if there is no room for the result.
fn run<R: AllocGlobal + Threads + Wait + Sync, E: Ending + Send>(
    rt: &R,
    db: &Db<E>,
    sessions: Vec<Session<E>>,
    made: &mut [usize; 2],
    providers: &Providers,
) -> Result<Vec<Session<E>>> {
    let scripts = scripts(rt.alloc(), made)?;
    if sessions.len() != scripts.len() {
        bail!("no two sessions");
    }
    match run_sessions(rt, db, sessions, scripts, providers, &Open) {
        Ok(ran) => Ok(risen(rt.alloc(), ran, made)?),
        Err(sessions) => Ok(sessions),
    }
}

/// Returns whether two sessions make all their calls in two runs, and history and sessions agree. Fails if another call is refused.
pub(crate) fn is_well<R: AllocGlobal + Threads + Wait + Sync>(
    rt: &R,
    providers: &Providers,
) -> Result<bool> {
    let (db, sessions) = Db::open(rt.alloc(), Waiting::new(rt), 0, 6, 2)?;
    let mut made = [0, 0];
    let sessions = run(rt, &db, sessions, &mut made, providers)?;
    let sessions = run(rt, &db, sessions, &mut made, providers)?;
    let history = db.close(rt, sessions)?;
    Ok(made == [ALL, ALL] && history.entries().len() == 6)
}
