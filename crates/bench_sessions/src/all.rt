//! The cost of an ask for all, without the lock and under it.
use anyhow::{Result, bail};
use bc_names::Name;
use bc_prov::Providers;
use bc_share::{Db, Session, work_all};
use bc_syntax::Unit;
use bc_versions::{Ending, Waiting};
use std::alloc::Global;
use std::io::{Eprint, Print};
use std::sync::{Arc, Wait};
use std::time::{Clock, Instant};
use test_fixtures::name;

/// The number of stored bodies, which is the greatest possible.
const HELD: u16 = 1024;

/// Returns the name of a body, by its number.
fn name_of(number: u16) -> Result<Name> {
    let low = (number % 26) as u8;
    let middle = (number / 26 % 26) as u8;
    let high = (number / 676 % 26) as u8;
    name(&[b'f', b'a' + high, b'a' + middle, b'a' + low])
}

/// Asks for all in its three steps, and writes to standard error how long they took: first those without the lock, then that under it.
fn show_one<R: AllocGlobal + Clock + Eprint + Print + Wait, E: Ending>(
    rt: &R,
    session: &mut Session<E>,
    providers: &Providers,
    what: &str,
) -> Result<()> {
    let start = Instant::now(rt)?;
    let begun = session.begin_all()?;
    let works = work_all(rt.alloc(), begun, providers)?;
    let outside = start.elapsed(rt)?.as_micros();
    let settling = Instant::now(rt)?;
    let listing = session.settle_all(rt, works, providers)?;
    let under = settling.elapsed(rt)?.as_micros();
    let count = listing.len();
    println!(rt; "all, {what}: {count} roots")?;
    eprintln!(rt; "all, {what}: {outside} us outside the lock, {under} us under it")?;
    Ok(())
}

/// Stores as many bodies as possible, and asks for all: at first, with nothing changed, and with one body changed.
pub fn show_all<R: AllocGlobal + Clock + Eprint + Print + Wait>(
    rt: &R,
    unit: &Arc<Unit, Global>,
    providers: &Providers,
) -> Result<()> {
    let (_db, mut sessions) = Db::open(rt.alloc(), Waiting::new(rt), 0, 10_000, 1)?;
    let Some(session) = sessions.first_mut() else {
        bail!("no session");
    };
    for number in 0..HELD {
        session.put(rt, name_of(number)?, Arc::try_clone(unit)?)?;
    }
    show_one(rt, session, providers, "first")?;
    show_one(rt, session, providers, "nothing changed")?;
    session.put(rt, name_of(7)?, Arc::try_clone(unit)?)?;
    show_one(rt, session, providers, "one body changed")
}
