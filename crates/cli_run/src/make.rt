//! The calls of a file, made by sessions on threads.
ghost use Rattle.std.specs.Prelude.{◌≡◌, ◌≤◌, ◌<◌, ◌⊎◌, IfOk, IfErr, IsErrOf, [], length, vec_capacity};
ghost use Rattle.bc_share.specs.declared.db.TheConstants.{MOST_ENTRIES};
ghost use Rattle.cli_run.specs.Runs.{AreMade, sessions_of, ends_of};

use crate::file::SessionCall;
use crate::script::scripts_of;
use bc_prov::Providers;
use bc_scripts::{End, Gate, Stage, run_sessions};
use bc_share::{Db, History, Session};
use bc_versions::{Ending, Waiting};
use cli_file::{Stop, find_capacity};
use std::alloc::Global;
use std::sync::Wait;
use std::thread::Threads;

/// A `Gate` that holds up no session.
struct Open;

impl Gate for Open {
    fn pause(&self, _session: u8, _stage: Stage) {}
}

/// The history of a file's calls, and how each session ended, in the order of sessions.
pub struct RunResult {
    pub history: History,
    pub ends: Vec<End>,
}

impl Drop for RunResult {
    fn drop(self) {
        let Self {
            history: _,
            ends: _,
        } = self;
    }
}

/// Separates the sessions from how they ended; there is room for all.
fn part<N: Ending>(ran: Vec<(Session<N>, End)>, sessions: &mut Vec<Session<N>>, ends: &mut Vec<End>)
    requires no_sessions { sessions.old.items ≡ [] }
    requires no_ends { ends.old.items ≡ [] }
    requires room { length ran.items ≤ vec_capacity sessions.old }
    requires room_for_ends { length ran.items ≤ vec_capacity ends.old }
    ensures sessions { sessions.new.items ≡ sessions_of ran.items }
    ensures ends { ends.new.items ≡ ends_of ran.items }
{
    for (session, end) in ran {
        sessions.push_reserved(session);
        ends.push_reserved(end);
    }
}

/// Opens a database, has each session make its calls on a thread of its own, and closes the database. Returns the history, and how each
/// session ended. Returns `TooManyCalls` exactly if there are more than 1,000,000 calls, and `Audit` if history and sessions do not agree
/// at the close. Otherwise it fails only with `NoMemory`.
pub fn make_calls<R: AllocGlobal + Threads + Wait + Sync>(
    rt: &R,
    providers: &Providers,
    calls: &[SessionCall],
    sessions: u8,
) -> Result<RunResult, Stop>
    requires least { 1 ≤ sessions }
    requires most { sessions ≤ 16 }
    ensures made { IfOk result (λ made. AreMade sessions calls.now made.history made.ends.items) }
    ensures few { IfOk result (λ made. length calls.now ≤ MOST_ENTRIES) }
    ensures audited { IsErrOf result Stop.Audit → length calls.now ≤ MOST_ENTRIES }
    ensures stop { IfErr result (λ stop. (stop ≡ Stop.NoMemory) ⊎ (stop ≡ Stop.TooManyCalls) ⊎ (stop ≡ Stop.Audit)) }
    ensures too_many { IsErrOf result Stop.TooManyCalls → MOST_ENTRIES < length calls.now }
{
    let alloc = rt.alloc();
    let capacity = find_capacity(calls.len(), 0)?;
    let scripts = scripts_of(alloc, calls, sessions)?;
    let mut back = Vec::with_capacity(alloc, usize::from(sessions))?;
    let mut ends = Vec::with_capacity(alloc, usize::from(sessions))?;
    let (db, opened) = Db::open(alloc, Waiting::new(rt), 0, capacity, sessions)?;
    match run_sessions(rt, &db, opened, scripts, providers, &Open) {
        Ok(ran) => {
            part(ran, &mut back, &mut ends);
            let history = db.close(rt, back)?;
            Ok(RunResult { history, ends })
        }
        Err(opened) => {
            db.close(rt, opened)?;
            Err(Stop::NoMemory)
        }
    }
}
