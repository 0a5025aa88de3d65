//! Sixteen sessions that make calls and readings on threads, over functions with closures, compared with a map.
use crate::model::{CLOSURES, Deed, Kind, Log, Reading, Seen, agree};
use anyhow::{Result, bail};
use bc_book::Refusal;
use bc_names::Name;
use bc_prov::{Providers, Shared};
use bc_share::{Db, MOST_ENTRIES, Session};
use bc_syntax::{Types, Unit};
use bc_versions::{Ending, Waiting};
use rand_core::Rng;
use rand_pcg::Pcg32;
use std::alloc::{AllocError, Global};
use std::io::Write;
use std::sync::Wait;
use std::thread;
use std::thread::Threads;
use test_fixtures::{MARKED_INVARIANT, Sight, name, shared_types, shared_unit};

/// The number of sessions, which is the greatest possible.
const SESSIONS: u8 = 16;

/// Rounds, each with a new database: their name, the number of functions, of turns of each session, and of rounds. A turn is a call or a
/// reading.
pub type Shape = (&'static str, u16, u32, u32);

/// The units that are put, each with what is known about it.
const UNITS: [(Kind, &[u8]); 10] = [
    (
        Kind::Closure(0),
        b"closure[]()->int{let _1:int;let _2:&'?0 mut int;bb0{_1=1;_2=&'?1 mut _1;_0=copy _2.*;return;}}",
    ),
    (
        Kind::Function(0),
        b"fn()->int{let _1:int;let _2:&'?0 mut int;bb0{_1=1;_2=&'?1 mut _1;_0=copy _2.*;return;}}",
    ),
    (
        Kind::Closure(1),
        b"closure[]()->int{let _1:int;let _2:&'?0 mut int;bb0{_1=1;_2=&'?1 mut _1;_0=copy _1;_0=copy _2.*;return;}}",
    ),
    (
        Kind::Function(1),
        b"fn()->int{let _1:int;let _2:&'?0 mut int;bb0{_1=1;_2=&'?1 mut _1;_0=copy _1;_0=copy _2.*;return;}}",
    ),
    (
        Kind::Closure(2),
        b"closure[]()->int{let _1:int;let _2:&'?0 mut int;bb0{_1=1;_2=&'?1 mut _1;_0=copy _1;_0=copy _1;_0=copy _2.*;return;}}",
    ),
    (
        Kind::Function(2),
        b"fn()->int{let _1:int;let _2:&'?0 mut int;bb0{_1=1;_2=&'?1 mut _1;_0=copy _1;_0=copy _1;_0=copy _2.*;return;}}",
    ),
    (
        Kind::Creator([true, false, false]),
        b"fn()->int{let _1:closure 0;bb0{_1=closure 0();return;}}",
    ),
    (
        Kind::Creator([false, true, false]),
        b"fn()->int{let _1:closure 1;bb0{_1=closure 1();return;}}",
    ),
    (
        Kind::Creator([true, false, true]),
        b"fn()->int{let _1:closure 0;let _2:closure 2;bb0{_1=closure 0();_2=closure 2();return;}}",
    ),
    (
        Kind::Creator([true, true, true]),
        b"fn()->int{let _1:closure 0;let _2:closure 1;let _3:closure 2;bb0{_1=closure 0();_2=closure 1();_3=closure 2();return;}}",
    ),
];

/// What the sessions put: units with what is known about each, and declarations, the same each time.
#[derive(Drop)]
pub struct Stock {
    units: Vec<(Kind, Shared<Unit>)>,
    types: Shared<Types>,
}

impl Stock {
    /// Returns the units of the texts above, and declarations.
    pub fn new(alloc: Global) -> Result<Stock> {
        let mut units = Vec::new(alloc);
        for (kind, text) in UNITS {
            units.push((kind, Shared::new(shared_unit(alloc, text)?)))?;
        }
        let types = Shared::new(shared_types(alloc, MARKED_INVARIANT)?);
        Ok(Stock { units, types })
    }
}

/// Returns the names of `functions` functions, each followed by those of its closures. They ascend, and one of each 26 begins the others.
fn names(alloc: Global, functions: u16) -> Result<Vec<Name>> {
    let mut names = Vec::new(alloc);
    for function in 0..functions {
        let low = (function % 26) as u8;
        let middle = (function / 26 % 26) as u8;
        let high = (function / 676 % 26) as u8;
        let letters = [b'n', b'a' + high, b'a' + middle, b'a' + low];
        let length = if low == 0 { 3 } else { 4 };
        let root = name(&letters[..length])?;
        names.push(root)?;
        for number in 0..CLOSURES as u8 {
            let Some(child) = root.child(number) else {
                bail!("no such closure");
            };
            names.push(child)?;
        }
    }
    Ok(names)
}

/// A session on a thread of its own: with what it makes its calls, how it draws them, what it did, and whether it was never refused.
#[derive(Drop)]
struct Seat<'a, R, E: Ending> {
    rt: &'a R,
    stock: &'a Stock,
    names: &'a [Name],
    session: Session<E>,
    dice: Pcg32,
    log: Log,
    is_done: bool,
}

impl<'a, R: AllocGlobal + Wait, E: Ending> Seat<'a, R, E> {
    /// Returns a random number below a limit.
    fn draw(&mut self, limit: usize) -> usize {
        self.dice.next_u32() as usize % limit.max(1)
    }

    /// Notes a call that is to be made.
    fn note(&mut self, deed: Deed) -> Result<(), AllocError> {
        self.log.calls.push(deed)?;
        Ok(())
    }

    /// Stores the declarations.
    fn declare(&mut self) -> Result<(), Refusal> {
        self.note(Deed::Types)?;
        let types = self.stock.types.clone()?;
        self.session.put_types(self.rt, types.into_arc())
    }

    /// Puts a random unit under a name.
    fn put(&mut self, name: &Name, number: usize) -> Result<(), Refusal> {
        let stock = self.stock;
        let drawn = self.draw(stock.units.len());
        if let Some((kind, unit)) = stock.units.get(drawn) {
            self.note(Deed::Put(number, *kind))?;
            self.session.put(self.rt, *name, unit.clone()?.into_arc())?;
        }
        Ok(())
    }

    /// Notes what was seen of a name.
    fn see(&mut self, number: usize, seen: Seen) -> Result<(), AllocError> {
        self.log.readings.push(Reading {
            behind: self.log.calls.len(),
            name: number,
            seen,
        })?;
        Ok(())
    }

    /// Glances at a name, and notes what it saw.
    fn glance(&mut self, name: &Name, number: usize) -> Result<(), AllocError> {
        let shown = match self.session.glance(name)? {
            Some(outcome) => Some(Sight::of(&outcome)),
            None => None,
        };
        self.see(number, Seen::Answer(shown))
    }

    /// Works on a name without the lock, notes the outcome, and settles nothing.
    fn work(
        &mut self,
        name: &Name,
        number: usize,
        providers: &Providers,
    ) -> Result<(), AllocError> {
        let begun = self.session.begin(name)?;
        let work = begun.work(self.rt.alloc(), providers)?;
        self.see(number, Seen::Found(Sight::of(work.outcome())))
    }

    /// Makes a random call or reading.
    fn act(&mut self, providers: &Providers) -> Result<(), Refusal> {
        let names = self.names;
        let number = self.draw(names.len());
        let Some(name) = names.get(number) else {
            return Ok(());
        };
        match self.draw(256) {
            0 => self.declare()?,
            1..=79 => self.put(name, number)?,
            80..=94 => {
                self.note(Deed::Remove(number))?;
                self.session.remove(self.rt, *name)?;
            }
            95 => {
                self.note(Deed::All)?;
                self.session.ask_all(self.rt, providers)?;
            }
            96..=159 => {
                self.note(Deed::Ask(number))?;
                self.session.ask(self.rt, name, providers)?;
            }
            160..=239 => self.glance(name, number)?,
            _ => self.work(name, number, providers)?,
        }
        Ok(())
    }

    /// Makes `count` of these, until one is refused.
    fn sit(&mut self, count: u32, providers: &Providers) {
        for _turn in 0..count {
            if self.act(providers).is_err() {
                return;
            }
        }
        self.is_done = true;
    }
}

/// What all rounds share.
#[derive(Clone, Copy)]
pub struct Table<'a, R> {
    pub rt: &'a R,
    pub stock: &'a Stock,
    pub providers: &'a Providers,
}

impl<'a, R: AllocGlobal + Threads + Wait + Sync> Table<'a, R> {
    /// Returns the sessions in seats, each with a random generator of its own.
    fn seats<E: Ending>(
        &self,
        seed: u32,
        sessions: Vec<Session<E>>,
        names: &'a [Name],
    ) -> Result<Vec<Seat<'a, R, E>>> {
        let alloc = self.rt.alloc();
        let mut seats = Vec::new(alloc);
        for session in sessions {
            let dice = Pcg32::new(u64::from(seed), u64::from(session.number()));
            seats.push(Seat {
                rt: self.rt,
                stock: self.stock,
                names,
                session,
                dice,
                log: Log {
                    calls: Vec::new(alloc),
                    readings: Vec::new(alloc),
                },
                is_done: false,
            })?;
        }
        Ok(seats)
    }

    /// Has each of these sessions make `count` calls and readings, on a thread of its own. Returns the sessions, with what each did. Fails
    /// if one was refused.
    fn sit_all(
        &self,
        seed: u32,
        sessions: Vec<Session<Waiting<&'a R>>>,
        names: &[Name],
        count: u32,
    ) -> Result<(Vec<Session<Waiting<&'a R>>>, Vec<Log>)> {
        let mut seats = self.seats(seed, sessions, names)?;
        sit_beside(self.rt, self.providers, &mut seats, count);
        risen(self.rt.alloc(), seats)
    }

    /// Makes a round: the sessions of a new database make calls and readings, it is closed, and its history and the readings are compared
    /// with a map. Returns the numbers of calls and of readings. Fails if they differ from the map.
    fn round(&self, names: &[Name], turns: u32, seed: u32) -> Result<(usize, usize)> {
        let alloc = self.rt.alloc();
        let capacity = turns.saturating_mul(u32::from(SESSIONS)).min(MOST_ENTRIES);
        let ending = Waiting::new(self.rt);
        let (db, sessions) = Db::open(alloc, ending, 0, capacity, SESSIONS)?;
        let (sessions, logs) = self.sit_all(seed, sessions, names, turns)?;
        let history = db.close(self.rt, sessions)?;
        if !agree(alloc, names, &logs, history.entries())? {
            bail!("the history is not what a map says");
        }
        Ok(counts(&logs))
    }

    /// Makes rounds of a shape, and writes how many calls and readings agree with a map. Fails if some do not.
    pub fn show<W: Write>(&self, shape: Shape, out: &mut W) -> Result<()> {
        let (what, functions, turns, rounds) = shape;
        let names = names(self.rt.alloc(), functions)?;
        let (mut calls, mut readings) = (0usize, 0usize);
        for seed in 0..rounds {
            let made = self.round(&names, turns, seed)?;
            calls = calls.saturating_add(made.0);
            readings = readings.saturating_add(made.1);
        }
        writeln!(
            out,
            "{calls} calls and {readings} readings of {what} agree with a map"
        )?;
        Ok(())
    }
}

/// Has each session make `count` calls and readings, on a thread of its own.
fn sit_beside<R: AllocGlobal + Threads + Wait + Sync, E: Ending + Send>(
    rt: &R,
    providers: &Providers,
    seats: &mut [Seat<'_, R, E>],
    count: u32,
) {
    let threads = seats.len().max(1);
    thread::for_each_mut(
        rt,
        seats,
        threads,
        &|_index: usize, seat: &mut Seat<'_, R, E>| seat.sit(count, providers),
    );
}

/// Returns the sessions from their seats, and what each did. Fails if one was refused.
fn risen<R, E: Ending>(
    alloc: Global,
    seats: Vec<Seat<'_, R, E>>,
) -> Result<(Vec<Session<E>>, Vec<Log>)> {
    let mut sessions = Vec::new(alloc);
    let mut logs = Vec::new(alloc);
    for seat in seats {
        let Seat {
            rt: _,
            stock: _,
            names: _,
            session,
            dice: _,
            log,
            is_done,
        } = seat;
        if !is_done {
            bail!("a session was refused");
        }
        sessions.push(session)?;
        logs.push(log)?;
    }
    Ok((sessions, logs))
}

/// Returns the numbers of calls and of readings.
fn counts(logs: &[Log]) -> (usize, usize) {
    let (mut calls, mut readings) = (0usize, 0usize);
    for log in logs {
        calls = calls.saturating_add(log.calls.len());
        readings = readings.saturating_add(log.readings.len());
    }
    (calls, readings)
}
