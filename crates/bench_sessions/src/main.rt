//! Measures a session that glances at names, begins asks of them and puts units, alone and while others put on threads of their own, and
//! one that does so with a book under a lock. Then it asks for all in a full database, and measures a session that glances at large bodies,
//! asks for them and puts their texts. The numbers of wrong answers go to standard output, and are the same at each run. How fast each
//! session was, and how long each ask for all took, goes to standard error.
#![tactic(auto)]

mod all;
mod calls;
mod seats;

use crate::all::show_all;
use crate::calls::show_calls;
use crate::seats::{Act, Answered, Seat, act_all, show};
use anyhow::{Result, bail};
use bc_analyses::providers;
use bc_book::Book;
use bc_names::Name;
use bc_prov::{Providers, Shared};
use bc_share::{Db, Session};
use bc_syntax::Unit;
use bc_versions::{Ending, Waiting};
use rand_core::Rng;
use rand_pcg::Pcg32;
use std::alloc::Global;
use std::io::{Eprint, Print};
use std::sync::{Arc, Mutex, Wait};
use std::thread::Threads;
use std::time::Clock;
use test_fixtures::{CLOSURE, name, shared_unit};

/// What is measured: its name; what the first session does, and what the others do meanwhile; the number of units in the part of the first
/// name, which is the only one that is taken if there are several; and the numbers of sessions, one after another.
type Row = (&'static str, Act, Act, u8, &'static [u8]);

const ROWS: [Row; 7] = [
    ("a look-up", Act::LookUp, Act::Idle, 1, &[1]),
    ("a glance", Act::Glance, Act::Put, 1, &[1, 2, 4]),
    ("a begin of 1 unit", Act::Begin, Act::Put, 1, &[1, 2, 4]),
    ("a begin of 16 units", Act::Begin, Act::Idle, 16, &[1]),
    ("a begin of 64 units", Act::Begin, Act::Idle, 64, &[1]),
    ("a snapshot", Act::Snapshot, Act::BookPut, 1, &[1, 2, 4]),
    ("a put", Act::Put, Act::Idle, 1, &[1, 16]),
];

/// The number of a session's own names: a quarter of all.
const OWN: usize = 48;

/// The most entries of a history: more than are made.
const CAPACITY: u32 = 1_000_000;

/// What is put and asked for.
#[derive(Clone, Copy)]
struct Bench<'a, R> {
    rt: &'a R,
    unit: &'a Arc<Unit, Global>,
    providers: &'a Providers,
    names: &'a [Name],
}

impl<'a, R: AllocGlobal + Clock + Eprint + Print + Threads + Wait + Sync> Bench<'a, R> {
    /// Stores closures below the first name: `units` units with its own.
    fn hold_below<E: Ending>(&self, session: &mut Session<E>, units: u8) -> Result<()> {
        let closure = shared_unit(self.rt.alloc(), CLOSURE)?;
        let Some(root) = self.names.first() else {
            bail!("no name");
        };
        for number in 1..units {
            let Some(name) = root.child(number) else {
                bail!("no such closure");
            };
            session.put(self.rt, name, Arc::try_clone(&closure)?)?;
        }
        Ok(())
    }

    /// Has the first session store all units, and ask for each name. Returns the answers.
    fn hold<E: Ending>(&self, sessions: &mut [Session<E>], units: u8) -> Result<Vec<Answered>> {
        let Some(first) = sessions.first_mut() else {
            bail!("no session");
        };
        self.hold_below(first, units)?;
        let mut answers = Vec::new(self.rt.alloc());
        for name in self.names {
            first.put(self.rt, *name, Arc::try_clone(self.unit)?)?;
            answers.push((*name, first.ask(self.rt, name, self.providers)?))?;
        }
        Ok(answers)
    }

    /// Puts the unit in a book under a name, and settles an ask of it.
    fn settle<E: Ending>(&self, book: &mut Book<E>, name: &Name) -> Result<()> {
        let alloc = self.rt.alloc();
        let unit = Shared::new(Arc::try_clone(self.unit)?);
        book.put(self.rt, alloc, 0, *name, unit)?;
        let work = book.snapshot(alloc, name)?.work(alloc, self.providers)?;
        book.settle(self.rt, alloc, 0, work, self.providers)?;
        Ok(())
    }

    /// Returns a book that stores the unit under each name, with its answer.
    fn book(&self) -> Result<Book<Waiting<&'a R>>> {
        let mut book = Book::new(self.rt.alloc(), Waiting::new(self.rt), CAPACITY, 4)?;
        for name in self.names {
            self.settle(&mut book, name)?;
        }
        Ok(book)
    }

    /// Returns random names out of the first ones, without a pattern that a processor could guess, the same at each run.
    fn draws(&self, count: usize) -> Result<Vec<Name>> {
        let mut random = Pcg32::new(2094, 0);
        let mut draws = Vec::new(self.rt.alloc());
        for _ in 0..1024u32 {
            let drawn = random.next_u32() as usize % count.max(1);
            if let Some(name) = self.names.get(drawn) {
                draws.push(*name)?;
            }
        }
        Ok(draws)
    }

    /// Returns a seat for each session: the first one has the random names, and each other one a quarter of all, while some are left.
    fn seats<E: Ending>(
        &self,
        row: Row,
        sessions: Vec<Session<E>>,
        answers: &'a [Answered],
        book: &'a Mutex<Book<E>>,
        draws: &'a [Name],
    ) -> Result<Vec<Seat<'a, R, E>>> {
        let mut seats = Vec::new(self.rt.alloc());
        let (mut act, mut names, mut rest) = (row.1, draws, self.names);
        for session in sessions {
            seats.push(Seat {
                rt: self.rt,
                unit: self.unit,
                answers,
                book,
                names,
                session,
                act,
                done: None,
            })?;
            rest = rest.get(OWN..).unwrap_or(&[]);
            names = rest.get(..OWN).unwrap_or(&[]);
            act = row.2;
        }
        Ok(seats)
    }

    /// Measures a row with these sessions, whose names have these answers.
    fn measure_by(
        &self,
        row: Row,
        sessions: Vec<Session<Waiting<&'a R>>>,
        answers: &[Answered],
    ) -> Result<()> {
        let draws = self.draws(if row.3 > 1 { 1 } else { OWN })?;
        let book = Mutex::new(self.book()?);
        let mut seats = self.seats(row, sessions, answers, &book, &draws)?;
        act_all(self.rt, &mut seats);
        show(self.rt, row.0, &seats)
    }

    /// Measures a row with `count` sessions of a new database.
    fn measure(&self, row: Row, count: u8) -> Result<()> {
        let ending = Waiting::new(self.rt);
        let (_db, mut sessions) = Db::open(self.rt.alloc(), ending, 0, CAPACITY, count)?;
        let answers = self.hold(&mut sessions, row.3)?;
        self.measure_by(row, sessions, &answers)
    }
}

/// Returns the names of the 192 stored functions, ascending.
fn names(alloc: Global) -> Result<Vec<Name>> {
    let mut names = Vec::new(alloc);
    for number in 0..192u8 {
        names.push(name(&[b'f', b'a' + number / 16, b'a' + number % 16])?)?;
    }
    Ok(names)
}

fn main(rt: HostRuntime) -> Result<()> {
    let unit = shared_unit(rt.alloc(), b"fn()->int{bb0{_0=1;return;}}")?;
    let providers = providers!(rt.alloc());
    let names = names(rt.alloc())?;
    let bench = Bench {
        rt: &rt,
        unit: &unit,
        providers: &providers,
        names: &names,
    };
    for row in ROWS {
        for count in row.4 {
            bench.measure(row, *count)?;
        }
    }
    show_all(&rt, &unit, &providers)?;
    show_calls(&rt, &providers)
}
