//! Two sessions that make calls by themselves, without scripts, each on a thread.
use crate::answers::{Answer, line};
use crate::cases::Case;
use crate::rows::{Context, halves};
use crate::waits::Patience;
use anyhow::{Result, bail};
use bc_book::Refusal;
use bc_calls::Call;
use bc_names::Name;
use bc_prov::{Providers, Shared};
use bc_share::Session;
use bc_syntax::Unit;
use bc_versions::Ending;
use std::sync::Wait;
use std::sync::atomic::Ordering::SeqCst;
use std::sync::atomic::{AtomicBool, AtomicU64};
use std::thread;
use std::thread::Threads;
use std::time::Clock;

/// The state of a meeting: whether two sessions meet in the solver now, how often session 0 has come there, and how many steps session 1
/// has made.
#[derive(Drop)]
pub struct Meeting {
    is_held: AtomicBool,
    patience: Patience,
    solving: AtomicU64,
    steps: AtomicU64,
}

impl Meeting {
    /// Returns a meeting to which nobody has come.
    pub fn new() -> Meeting {
        Meeting {
            is_held: AtomicBool::new(false),
            patience: Patience::new(),
            solving: AtomicU64::new(0),
            steps: AtomicU64::new(0),
        }
    }

    /// Begins a meeting to which nobody has come.
    fn open(&self) {
        self.solving.store(0, SeqCst);
        self.steps.store(0, SeqCst);
        self.is_held.store(true, SeqCst);
    }

    /// Waits in the solver of session 0, during a meeting, until session 1 has made as many steps as session 0 has come here.
    pub fn solve<C: Clock>(&self, clock: &C) {
        if self.is_held.load(SeqCst) {
            let before = self.solving.fetch_add(1, SeqCst);
            self.patience
                .hold(clock, &self.steps, before.saturating_add(1));
        }
    }

    /// Waits as session 1 until session 0 has come to its solver this many times.
    fn await_solving<C: Clock>(&self, clock: &C, times: u64) {
        self.patience.hold(clock, &self.solving, times);
    }
}

/// The put at which two sessions meet, and whether session 0 asks for all meanwhile, or for the name of the put.
#[derive(Drop)]
struct Parts {
    at: Name,
    unit: Shared<Unit>,
    asks_all: bool,
}

/// Makes a put once session 0 works on the body that is stored under its name, and reads what is published once session 0 works on this
/// one.
fn put_and_read<R: Clock + Wait, E: Ending>(
    rt: &R,
    session: &mut Session<E>,
    meeting: &Meeting,
    parts: &Parts,
) -> Result<(), Refusal> {
    meeting.await_solving(rt, 1);
    session.put(rt, parts.at, parts.unit.clone()?.into_arc())?;
    meeting.steps.fetch_add(1, SeqCst);
    meeting.await_solving(rt, 2);
    session.glance(&parts.at)?;
    session.begin(&parts.at)?;
    session.begin_all()?;
    meeting.steps.fetch_add(1, SeqCst);
    Ok(())
}

/// Has session 0 ask, or session 1 make the put and read.
fn take_part<R: Clock + Wait, E: Ending>(
    rt: &R,
    session: &mut Session<E>,
    providers: &Providers,
    meeting: &Meeting,
    parts: &Parts,
) {
    if session.number() != 0 {
        let _made = put_and_read(rt, session, meeting, parts);
    } else if parts.asks_all {
        let _listing = session.ask_all(rt, providers);
    } else {
        let _outcome = session.ask(rt, &parts.at, providers);
    }
}

/// Has session 0 ask while session 1 makes a put and reads.
fn meet_at<R: AllocGlobal + Clock + Sync + Threads + Wait, E: Ending + Send>(
    rt: &R,
    sessions: &mut [Session<E>],
    providers: &Providers,
    meeting: &Meeting,
    parts: &Parts,
) {
    meeting.open();
    thread::for_each_mut(
        rt,
        sessions,
        2,
        &|_index: usize, session: &mut Session<E>| {
            take_part(rt, session, providers, meeting, parts);
        },
    );
    meeting.is_held.store(false, SeqCst);
}

impl Context<'_> {
    /// Has the two sessions of a letter meet at the put that a row spells, and answers that they did. Fails if one waited too long.
    pub fn meet<R: AllocGlobal + Clock + Sync + Threads + Wait, E: Ending + Send>(
        &self,
        rt: &R,
        case: &mut Case<E>,
        row: &str,
        asks_all: bool,
    ) -> Answer {
        let (letter, row) = halves(row);
        let opened = case.at(letter)?;
        let meeting = &self.gauges.meeting;
        let Call::Put(at, unit) = self.call(row)? else {
            bail!("sessions meet at a put");
        };
        let parts = Parts { at, unit, asks_all };
        meet_at(rt, &mut opened.sessions, self.providers, meeting, &parts);
        meeting.patience.is_kept()?;
        line(self.alloc, "met")
    }
}
