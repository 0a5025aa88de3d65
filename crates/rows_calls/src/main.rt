//! Makes the calls of rows, and prints each row with its answer, so that the gate compares them.
//!
//! Each argument names a file of rows. A row is a line of words with one space between them:
//!
//! - `open TAG CAPACITY SESSIONS` opens a database. The first one of a case is `a`, the second one `b`, and so on.
//! - `a0 put NAME TEXT`, `a0 types TEXT`, `a0 remove NAME` and `a0 ask NAME` are calls of session 0 of `a`. TEXT is the name of a text;
//!   without one the text is empty.
//! - `a0 glance NAME` reads the published answer. `a0 work NAME` begins an ask of the name and works on it. `a0 settle` settles the last
//!   work that was done, whichever session did it. `a0 make NAME` begins an ask of the name, finds its outcome, and answers the number of
//!   pieces that were made for it.
//! - `a0 askall` asks for all. `a0 workall` begins an ask of each root and works on it. `a0 settleall` settles all works that are not
//!   settled yet, in the order in which they were done, whichever sessions did them, as an ask for all.
//! - `script a CALL; CALL` gives the next session of `a` a script of these calls, each as above but without `a0`. `run a` has the sessions
//!   of `a` make their scripts, each on a thread of its own. It answers how each script ended, and for each of the two stages of an ask how
//!   many times session 0 came there, and how many times the solver had been called when it last did. `run a begun 2 1` holds up session 0
//!   after it has begun an ask, until the others have begun two; and it holds up each of these after it has begun one, until session 0 has
//!   come there and they all have begun one. `run a worked 2 1` holds up session 0 after it has worked on an ask.
//! - `meet a put NAME TEXT` has session 0 ask for the name. Session 1 makes this put once session 0 works on the body that is there, and
//!   reads what is published once session 0 works on this one. With `meetall a put NAME TEXT` session 0 asks for all.
//! - `close a b` closes `a` with the sessions that `b` has left, and `close a` with none. It answers the number of entries of the history.
//! - `refuse live`, `solve`, `scopes`, `all` or `none` says which providers run out of memory from then on, and `refuse first` that the
//!   solver does at its first call.
//! - `count` answers the number of calls of each provider since the last `count` or `refuse`.
//! - `9 ROW` makes a row nine times, with the number of the turn, from 0, for each `#` in it. All its answers have to be the same, and are
//!   printed once.
//!
//! A row is printed after `> `, and its answer below it. If it is refused, the answer says why. Three more kinds of lines are printed as
//! they are: `# TEXT` begins a case, in which nothing is open and no provider runs out of memory; `text NAME TEXT` gives a text a name, for
//! all rows of its file; and an empty line.
#![tactic(auto)]

mod answers;
mod calls;
mod cases;
mod gauges;
mod meetings;
mod rows;
mod scripts;
mod waits;

use crate::gauges::Gauges;
use crate::rows::Context;
use anyhow::Result;
use bc_analyses::{find_live, find_scopes, find_values};
use bc_cons::Facts;
use bc_mir::Typed;
use bc_prov::{Liveness, Providers, Scoping, Solver};
use bc_solve::Values;
use std::alloc::Global;
use std::io::Write;
use std::sync::{Arc, Wait};
use std::thread::Threads;
use std::time::Clock;
use std::{env, fs};

/// Returns the texts of the files that the arguments name.
fn texts(rt: &HostRuntime) -> Result<Vec<String>> {
    let mut texts = Vec::new(rt.alloc());
    for name in env::args(rt)?.skip(1) {
        texts.push(fs::read_to_string(rt, &name)?)?;
    }
    Ok(texts)
}

/// Writes the rows of each text with their answers.
fn show_texts<R>(
    rt: R,
    alloc: Global,
    texts: &[String],
    gauges: &Gauges,
    providers: &Providers,
    out: &mut Vec<u8>,
) -> Result<()>
where
    R: AllocGlobal + Clock + Copy + Send + Sync + Threads + Wait,
{
    for rows in texts {
        let context = Context {
            alloc,
            gauges,
            providers,
            rows,
        };
        context.show_rows(rt, out)?;
    }
    Ok(())
}

fn main(rt: HostRuntime) -> Result<()> {
    let alloc = rt.alloc();
    let gauges = Gauges::shared(alloc)?;
    let to_live = Arc::try_clone(&gauges)?;
    let to_solve = Arc::try_clone(&gauges)?;
    let to_scope = Arc::try_clone(&gauges)?;
    let live: Liveness = Box::new(alloc, move |alloc: Global, typed: &Typed| {
        to_live.live.count()?;
        find_live(alloc, typed)
    })?;
    let solve: Solver = Box::new(alloc, move |alloc: Global, facts: &Facts| {
        to_solve.solve.count()?;
        to_solve.meeting.solve(&rt);
        find_values(alloc, facts)
    })?;
    let in_scope: Scoping = Box::new(
        alloc,
        move |alloc: Global, typed: &Typed, values: &Values| {
            to_scope.scopes.count()?;
            find_scopes(alloc, typed, values)
        },
    )?;
    let providers = Providers::new(live, solve, in_scope);
    let texts = texts(&rt)?;
    let mut out = Vec::new(alloc);
    let shown = show_texts(rt, alloc, &texts, &gauges, &providers, &mut out);
    rt.stdout().write_all(&out)?;
    shown
}
