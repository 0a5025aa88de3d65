//! Scripts of calls, which sessions make on threads of their own.
ghost use Rattle.std.specs.Prelude.{◌≡◌, ◌<◌, ◌≤◌, [], List, IfErr, IfOk, OnErr, OnOk, length, map, slice_index_or, vec_capacity};
ghost use Rattle.bc_calls.specs.declared.call.Call.{Call};
ghost use Rattle.bc_calls.specs.declared.call.Call.TheVariants as calls;
ghost use Rattle.bc_scripts.specs.Runs.{AreRuns, IsRun, seats};
ghost use Rattle.bc_share.specs.Sessions.{IsSame, Makes};

use bc_book::Refusal;
use bc_calls::Call;
use bc_names::Name;
use bc_prov::Providers;
use bc_share::{Db, Session, work_all};
use bc_versions::Ending;
use std::alloc::Global;
use std::marker::Model;
use std::sync::Wait;
use std::thread;
use std::thread::Threads;

/// The stages at which an ask of a script, of one name or for all, pauses: once it has begun, and once its work is done. No lock is held
/// then.
#[derive(Clone, Copy, Debug, PartialEq, Eq)]
pub enum Stage {
    Begun,
    Worked,
}

/// A hook at which the asks of scripts pause. A test holds them up there; the program does not.
pub trait Gate {
    /// Pauses the session of this number at this stage of an ask.
    fn pause(&self, session: u8, stage: Stage);
}

/// The calls that a session is to make, in their order. A contract sees them.
pub struct Script {
    calls: Vec<Call>,
}

impl Drop for Script {
    fn drop(self) {
        let Self { calls: _ } = self;
    }
}

impl Model for Script {
    ghost use Rattle.std.specs.Prelude.{List};
    ghost use Rattle.bc_calls.specs.declared.call.Call.{Call};

    ghost Value = { List Call };

    ghost view = { λ s. s.calls.items };
}

impl Script {
    /// Returns the script of these calls.
    pub fn new(calls: Vec<Call>) -> Script
        ensures { result ≡ calls.items }
    {
        Script { calls }
    }

    /// Returns the script's calls, in their order.
    pub fn calls(&self) -> &[Call]
        ensures { result.now ≡ self.now }
    {
        &self.calls
    }
}

/// The end of a script: all its calls were made; or the call at this place, from 0, failed, and the later ones were not made.
#[derive(Clone, Copy, Debug, PartialEq, Eq)]
pub enum End {
    Done,
    Stopped { number: usize, refusal: Refusal },
}

/// Has each session make the calls of its script, on a thread of its own, or one session after another if no thread can be made. Returns
/// the sessions in their order, each with the end of its script. Requires as many scripts as sessions. `_db` is their database, so that it
/// is open meanwhile.
///
/// Room for the result is made first. If out of memory then, no call was made, and the sessions come back as the `Err`. A call that fails
/// ends only its own script.
pub fn run_sessions<R: AllocGlobal + Threads + Wait + Sync, E: Ending + Send, G: Gate + Sync>(
    rt: &R,
    _db: &Db<E>,
    sessions: Vec<Session<E>>,
    scripts: Vec<Script>,
    providers: &Providers,
    gate: &G,
) -> Result<Vec<(Session<E>, End)>, Vec<Session<E>>>
    requires { length scripts.items ≡ length sessions.items }
    ensures run { IfOk result (λ ran. AreRuns sessions.items scripts.items ran.items) }
    ensures kept { IfErr result (λ back. back.items ≡ sessions.items) }
{
    let alloc = rt.alloc();
    let Ok(mut ran) = Vec::with_capacity(alloc, sessions.len()) else {
        return Err(sessions);
    };
    seat_all(sessions, &mut ran);
    run_all(rt, alloc, &mut ran, &scripts, providers, gate);
    Ok(ran)
}

/// Moves the sessions to the places where they run.
fn seat_all<E: Ending>(sessions: Vec<Session<E>>, ran: &mut Vec<(Session<E>, End)>)
    requires empty { ran.old.items ≡ [] }
    requires room { length sessions.items ≤ vec_capacity ran.old }
    ensures { ran.new.items ≡ seats sessions.items }
{
    for session in sessions {
        ran.push_reserved((session, End::Done));
    }
}

/// Has each session make the calls of its script.
fn run_all<R: Threads + Wait + Sync, E: Ending + Send, G: Gate + Sync>(
    rt: &R,
    alloc: Global,
    ran: &mut [(Session<E>, End)],
    scripts: &[Script],
    providers: &Providers,
    gate: &G,
)
    requires { length scripts.now ≡ length ran.old }
    ensures { AreRuns (map (λ s. s.0) ran.old) scripts.now ran.new }
{
    let threads = ran.len().max(1);
    thread::for_each_mut(
        rt,
        ran,
        threads,
        &|index: usize, seat: &mut (Session<E>, End)|
            requires { index < length scripts.now }
            ensures { (d : List Call) → IsRun seat.old.0 seat.new.0 (slice_index_or scripts.entry.now index d) seat.new.1 }
        {
            seat.1 = run_script(
                rt,
                alloc,
                &mut seat.0,
                scripts[index].calls(),
                providers,
                gate,
            )
        },
    );
}

/// Makes the calls of a script in their order, until one fails. Returns how the script ended.
fn run_script<R: Wait, E: Ending, G: Gate>(
    rt: &R,
    alloc: Global,
    session: &mut Session<E>,
    script: &[Call],
    providers: &Providers,
    gate: &G,
) -> End
    ensures { IsRun session.old session.new script.now result }
{
    for (number, call) in script.iter().enumerate() {
        if let Err(refusal) = make_call(rt, alloc, session, call, providers, gate) {
            return End::Stopped { number, refusal };
        }
    }
    End::Done
}

/// Makes one call of a script.
fn make_call<R: Wait, E: Ending, G: Gate>(
    rt: &R,
    alloc: Global,
    session: &mut Session<E>,
    call: &Call,
    providers: &Providers,
    gate: &G,
) -> Result<(), Refusal>
    ensures made { OnOk result (Makes session.old session.new call.now) }
    ensures refused { OnErr result (IsSame session.old session.new) }
{
    match call {
        Call::Types(types) => {
            session.put_types(rt, types.clone()?.into_arc())?;
        }
        Call::Put(name, unit) => {
            session.put(rt, *name, unit.clone()?.into_arc())?;
        }
        Call::Remove(name) => {
            session.remove(rt, *name)?;
        }
        Call::Ask(name) => ask_pausing(rt, alloc, session, name, providers, gate)?,
        Call::All => ask_all_pausing(rt, alloc, session, providers, gate)?,
    }
    Ok(())
}

/// Asks for a name, and pauses once it has begun, and once the work is done.
fn ask_pausing<R: Wait, E: Ending, G: Gate>(
    rt: &R,
    alloc: Global,
    session: &mut Session<E>,
    name: &Name,
    providers: &Providers,
    gate: &G,
) -> Result<(), Refusal>
    ensures made { OnOk result (Makes session.old session.new (calls.Ask name.now)) }
    ensures refused { OnErr result (IsSame session.old session.new) }
{
    let begun = session.begin(name)?;
    gate.pause(session.number(), Stage::Begun);
    let work = begun.work(alloc, providers)?;
    gate.pause(session.number(), Stage::Worked);
    session.settle(rt, work, providers)?;
    Ok(())
}

/// Asks for all, and pauses once all are begun, and once the work on all is done.
fn ask_all_pausing<R: Wait, E: Ending, G: Gate>(
    rt: &R,
    alloc: Global,
    session: &mut Session<E>,
    providers: &Providers,
    gate: &G,
) -> Result<(), Refusal>
    ensures made { OnOk result (Makes session.old session.new calls.All) }
    ensures refused { OnErr result (IsSame session.old session.new) }
{
    let begun = session.begin_all()?;
    gate.pause(session.number(), Stage::Begun);
    let works = work_all(alloc, begun, providers)?;
    gate.pause(session.number(), Stage::Worked);
    session.settle_all(rt, works, providers)?;
    Ok(())
}
