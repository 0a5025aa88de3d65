//! Sessions that each repeat one thing, on threads of their own.
use anyhow::{Result, bail};
use bc_book::Book;
use bc_calls::PutReply;
use bc_names::Name;
use bc_prov::{Outcome, Shared};
use bc_share::Session;
use bc_syntax::Unit;
use bc_versions::Ending;
use std::alloc::Global;
use std::io::{Eprint, Print};
use std::sync::{Arc, Mutex, Wait};
use std::thread::Threads;
use std::time::{Clock, Instant};
use std::{io, thread};

/// How long a session goes on, in nanoseconds.
const SPAN: u128 = 50_000_000;

/// The most names that it takes: a history has room for what three sessions put.
const MOST: usize = 300_000;

/// A name with its answer.
pub type Answered = (Name, Arc<Outcome, Global>);

/// What a session does with each of its names. It finds the answer in a sorted list and makes one more owner of it, glances at the
/// published answer, begins its ask, or puts a unit; in a book under a lock, it takes a snapshot of its part or puts a unit; or it does
/// nothing.
#[derive(Clone, Copy)]
pub enum Act {
    LookUp,
    Glance,
    Begin,
    Put,
    Snapshot,
    BookPut,
    Idle,
}

/// The number of names that a session took, the number of wrong answers, and how long that took in nanoseconds: in all, and for the fastest
/// round through all names.
#[derive(Clone, Copy)]
pub struct Done {
    taken: usize,
    wrong: u64,
    nanos: u128,
    least: u128,
}

/// A session, what it does with which names, and what it has done, if the clock did not fail.
#[derive(Drop)]
pub struct Seat<'a, R, E: Ending> {
    pub rt: &'a R,
    pub unit: &'a Arc<Unit, Global>,
    pub answers: &'a [Answered],
    pub book: &'a Mutex<Book<E>>,
    pub names: &'a [Name],
    pub session: Session<E>,
    pub act: Act,
    pub done: Option<Done>,
}

/// Returns whether a sorted list has an answer for a name, and makes one more owner of it.
fn look_up(answers: &[Answered], name: &Name) -> bool {
    let place = answers.binary_search_by(|row| row.0.cmp(name));
    match answers.get(place.unwrap_or(usize::MAX)) {
        Some(row) => Arc::try_clone(&row.1).is_ok(),
        None => false,
    }
}

impl<R: AllocGlobal + Clock + Wait, E: Ending> Seat<'_, R, E> {
    /// Puts the unit under a name. Returns whether it replaced one.
    fn put(&mut self, name: &Name) -> bool {
        let Ok(unit) = Arc::try_clone(self.unit) else {
            return false;
        };
        let reply = self.session.put(self.rt, *name, unit);
        matches!(reply, Ok(PutReply::Replaced))
    }

    /// Puts the unit under a name in the book. Returns whether it replaced one.
    fn put_in_book(&self, name: &Name) -> bool {
        let (rt, alloc) = (self.rt, self.rt.alloc());
        let Ok(unit) = Arc::try_clone(self.unit) else {
            return false;
        };
        let reply = self
            .book
            .lock(rt)
            .put(rt, alloc, 0, *name, Shared::new(unit));
        match reply {
            Ok(entered) => matches!(entered.reply, PutReply::Replaced),
            Err(_) => false,
        }
    }

    /// Takes a name. Returns whether the answer is right.
    fn take(&mut self, name: &Name) -> bool {
        match self.act {
            Act::LookUp => look_up(self.answers, name),
            Act::Glance => matches!(self.session.glance(name), Ok(Some(_))),
            Act::Begin => self.session.begin(name).is_ok(),
            Act::Put => self.put(name),
            Act::Snapshot => {
                let begun = self.book.lock(self.rt).snapshot(self.rt.alloc(), name);
                begun.is_ok()
            }
            Act::BookPut => self.put_in_book(name),
            Act::Idle => true,
        }
    }

    /// Takes each name. Returns the number of wrong answers.
    fn take_each(&mut self) -> u64 {
        let mut wrong = 0u64;
        for name in self.names {
            if !self.take(name) {
                wrong = wrong.saturating_add(1);
            }
        }
        wrong
    }

    /// Takes its names again and again for a while. Fails if the clock does.
    fn act(&mut self) -> io::Result<Done> {
        let mut done = Done {
            taken: 0,
            wrong: 0,
            nanos: 0,
            least: u128::MAX,
        };
        for _ in 0..MOST / self.names.len().max(1) {
            if done.nanos >= SPAN || matches!(self.act, Act::Idle) {
                break;
            }
            let start = Instant::now(self.rt)?;
            let wrong = self.take_each();
            let took = start.elapsed(self.rt)?.as_nanos();
            done.taken = done.taken.saturating_add(self.names.len());
            done.wrong = done.wrong.saturating_add(wrong);
            done.nanos = done.nanos.saturating_add(took);
            done.least = done.least.min(took);
        }
        Ok(done)
    }
}

/// Has each session act on a thread of its own.
pub fn act_all<R: AllocGlobal + Clock + Threads + Wait + Sync, E: Ending + Send>(
    rt: &R,
    seats: &mut [Seat<'_, R, E>],
) {
    let threads = seats.len().max(1);
    thread::for_each_mut(
        rt,
        seats,
        threads,
        &|_index: usize, seat: &mut Seat<'_, R, E>| seat.done = seat.act().ok(),
    );
}

/// Writes the number of wrong answers to standard output, and to standard error how fast each session was. Fails if a clock did.
pub fn show<R: Eprint + Print, E: Ending>(
    rt: &R,
    name: &str,
    seats: &[Seat<'_, R, E>],
) -> Result<()> {
    let count = seats.len();
    let mut wrong = 0u64;
    for seat in seats {
        let Some(done) = seat.done else {
            bail!("no clock");
        };
        wrong = wrong.saturating_add(done.wrong);
        if done.taken > 0 {
            let best = done.least / (seat.names.len() as u128).max(1);
            let rate = (done.taken as u128).saturating_mul(1_000_000_000) / done.nanos.max(1);
            eprintln!(rt; "{name}, sessions {count}: {best} ns at best, {rate} a second")?;
        }
    }
    println!(rt; "{name}, sessions {count}: {wrong} wrong answers")?;
    Ok(())
}
