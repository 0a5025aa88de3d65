//! Work that is settled late, after its inputs have changed.
use anyhow::{Result, bail};
use bc_book::Refusal;
use bc_calls::Work;
use bc_names::Name;
use bc_prov::{Outcome, Providers};
use bc_share::{Db, Session};
use bc_versions::{Ending, Waiting};
use std::alloc::AllocError;
use std::sync::Wait;
use test_fixtures::{Sight, WRITES_LAST, WRITES_WHILE_BORROWED, name, shared_unit};

/// Puts the unit of a text under a name.
fn put<R: AllocGlobal + Wait, E: Ending>(
    rt: &R,
    session: &mut Session<E>,
    at: Name,
    text: &[u8],
) -> Result<()> {
    let unit = shared_unit(rt.alloc(), text)?;
    session.put(rt, at, unit)?;
    Ok(())
}

/// Has a session begin an ask of a name and work on it.
fn work<R: AllocGlobal, E: Ending>(
    rt: &R,
    session: &mut Session<E>,
    at: &Name,
    providers: &Providers,
) -> Result<Work, AllocError> {
    session.begin(at)?.work(rt.alloc(), providers)
}

/// Returns whether an outcome is that of the unit that was put last.
fn is_last(outcome: &Outcome) -> bool {
    Sight::of(outcome) == Sight::Report(1, 1)
}

/// Has a session settle work, or new work if the first is refused for lack of memory. Returns whether the answer is right, and nothing is
/// published after the refused call.
fn settle<R: AllocGlobal + Wait, E: Ending>(
    rt: &R,
    session: &mut Session<E>,
    done: Work,
    at: &Name,
    providers: &Providers,
) -> Result<bool> {
    match session.settle(rt, done, providers) {
        Ok(outcome) => return Ok(is_last(&outcome)),
        Err(Refusal::HistoryFull) => return Ok(false),
        Err(Refusal::NoMemory) => {}
    }
    if session.glance(at)?.is_some() {
        return Ok(false);
    }
    let done = work(rt, session, at, providers)?;
    let outcome = session.settle(rt, done, providers)?;
    Ok(is_last(&outcome))
}

/// Has a session put, the other one begin and work, the first one put again, and the other one settle. Returns whether that is right.
fn make<R: AllocGlobal + Wait, E: Ending>(
    rt: &R,
    sessions: &mut [Session<E>],
    providers: &Providers,
) -> Result<bool> {
    let Some((first, others)) = sessions.split_first_mut() else {
        bail!("no session");
    };
    let Some(second) = others.first_mut() else {
        bail!("no second session");
    };
    let at = name(b"f")?;
    put(rt, first, at, WRITES_LAST)?;
    let done = work(rt, second, &at, providers)?;
    put(rt, first, at, WRITES_WHILE_BORROWED)?;
    settle(rt, second, done, &at, providers)
}

/// Returns whether work that is settled late is answered right, and history and sessions agree, even after a refused call. Fails if another
/// call is refused.
pub(crate) fn is_well<R: AllocGlobal + Wait>(rt: &R, providers: &Providers) -> Result<bool> {
    let (db, mut sessions) = Db::open(rt.alloc(), Waiting::new(rt), 0, 3, 2)?;
    let made = make(rt, &mut sessions, providers);
    let is_closed = db.close(rt, sessions).is_ok();
    Ok(is_closed && made?)
}
