//! One session that glances at bodies of 200 points, asks for them, and puts them as texts: the calls that `.ci/gate/converse` makes
//! through `nlldb serve`, in one process.
use anyhow::{Result, bail};
use bc_names::Name;
use bc_prov::Providers;
use bc_share::{Db, Session};
use bc_versions::{Ending, Waiting};
use std::alloc::Global;
use std::io;
use std::io::{Eprint, Print};
use std::sync::Wait;
use std::time::{Clock, Instant};
use test_fixtures::{name, shared_unit};

/// How long a session repeats one call, in nanoseconds.
const SPAN: u128 = 50_000_000;

/// The most rounds through all names: the history has room for their entries.
const ROUNDS: u32 = 4_000;

/// The most entries of the history.
const CAPACITY: u32 = 1_000_000;

/// What a session does with each name: it glances at the answer, asks for it, or puts the unit of the text and asks for it.
#[derive(Clone, Copy)]
enum Act {
    Glance,
    Ask,
    Edit,
}

const ROWS: [(&str, Act); 3] = [
    ("a glance at 200 points", Act::Glance),
    ("an unchanged ask of 200 points", Act::Ask),
    ("a put of the text of 200 points, and an ask", Act::Edit),
];

/// The number of names that were taken, the number of wrong answers, and how long that took in nanoseconds: in all, and for the fastest
/// round through all names.
#[derive(Clone, Copy)]
struct Done {
    taken: usize,
    wrong: u64,
    nanos: u128,
    least: u128,
}

/// A session that edits bodies under these names, with what it puts.
#[derive(Drop)]
struct Editor<'a, R, E: Ending> {
    rt: &'a R,
    providers: &'a Providers,
    text: &'a [u8],
    names: &'a [Name],
    session: Session<E>,
}

impl<R: AllocGlobal + Clock + Wait, E: Ending> Editor<'_, R, E> {
    /// Asks for a name. Returns whether that is answered.
    fn ask(&mut self, name: &Name) -> bool {
        self.session.ask(self.rt, name, self.providers).is_ok()
    }

    /// Puts the unit of the text under a name, and asks for it. Returns whether both are answered.
    fn edit(&mut self, name: &Name) -> bool {
        let Ok(unit) = shared_unit(self.rt.alloc(), self.text) else {
            return false;
        };
        self.session.put(self.rt, *name, unit).is_ok() && self.ask(name)
    }

    /// Takes a name. Returns whether the answer is right.
    fn take(&mut self, act: Act, name: &Name) -> bool {
        match act {
            Act::Glance => matches!(self.session.glance(name), Ok(Some(_))),
            Act::Ask => self.ask(name),
            Act::Edit => self.edit(name),
        }
    }

    /// Takes each name. Returns the number of wrong answers.
    fn take_each(&mut self, act: Act) -> u64 {
        let mut wrong = 0u64;
        for name in self.names {
            if !self.take(act, name) {
                wrong = wrong.saturating_add(1);
            }
        }
        wrong
    }

    /// Takes its names again and again for a while. Fails if the clock does.
    fn act(&mut self, act: Act) -> io::Result<Done> {
        let mut done = Done {
            taken: 0,
            wrong: 0,
            nanos: 0,
            least: u128::MAX,
        };
        for _ in 0..ROUNDS {
            if done.nanos >= SPAN {
                break;
            }
            let start = Instant::now(self.rt)?;
            let wrong = self.take_each(act);
            let took = start.elapsed(self.rt)?.as_nanos();
            done.taken = done.taken.saturating_add(self.names.len());
            done.wrong = done.wrong.saturating_add(wrong);
            done.nanos = done.nanos.saturating_add(took);
            done.least = done.least.min(took);
        }
        Ok(done)
    }
}

/// Writes the number of wrong answers to standard output, and to standard error how fast the session was, which has `names` names.
fn show<R: Eprint + Print>(rt: &R, what: &str, done: &Done, names: usize) -> Result<()> {
    let best = done.least / (names as u128).max(1);
    let rate = (done.taken as u128).saturating_mul(1_000_000_000) / done.nanos.max(1);
    let wrong = done.wrong;
    println!(rt; "{what}: {wrong} wrong answers")?;
    eprintln!(rt; "{what}, sessions 1: {best} ns at best, {rate} a second")?;
    Ok(())
}

/// Returns the names under which bodies are stored.
fn names(alloc: Global) -> Result<Vec<Name>> {
    let mut names = Vec::new(alloc);
    for number in 0..48u8 {
        names.push(name(&[b'f', b'a' + number / 16, b'a' + number % 16])?)?;
    }
    Ok(names)
}

/// Returns the text of a body of 200 points, without an error: two assignments, 196 reads through a borrow, a write, and the return.
fn large_text(alloc: Global) -> Result<Vec<u8>> {
    let mut text = Vec::new(alloc);
    text.extend_from_slice(
        b"fn () -> int { let _1: int; let _2: &'?0 int; bb0 { _1 = 1; _2 = &'?1 _1; ",
    )?;
    for _ in 0..196u32 {
        text.extend_from_slice(b"_0 = copy _2.*; ")?;
    }
    text.extend_from_slice(b"_1 = 2; return; } }")?;
    Ok(text)
}

/// Stores the text under each name with its answer, and measures each row.
fn show_rows<R: AllocGlobal + Clock + Eprint + Print + Wait>(
    rt: &R,
    providers: &Providers,
    text: &[u8],
    names: &[Name],
) -> Result<()> {
    let (_db, mut sessions) = Db::open(rt.alloc(), Waiting::new(rt), 0, CAPACITY, 1)?;
    let Some(session) = sessions.pop() else {
        bail!("no session");
    };
    let mut editor = Editor {
        rt,
        providers,
        text,
        names,
        session,
    };
    editor.take_each(Act::Edit);
    for (what, act) in ROWS {
        let done = editor.act(act)?;
        show(rt, what, &done, names.len())?;
    }
    Ok(())
}

/// Measures one session that glances at bodies of 200 points, asks for them, and puts their text.
pub fn show_calls<R: AllocGlobal + Clock + Eprint + Print + Wait>(
    rt: &R,
    providers: &Providers,
) -> Result<()> {
    let names = names(rt.alloc())?;
    let text = large_text(rt.alloc())?;
    show_rows(rt, providers, &text, &names)
}
