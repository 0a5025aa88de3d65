//! Makes calls that take memory (`memory.rt`). Then sixteen sessions make calls and readings on threads, and what they leave and see is
//! compared with a map of names. With the word `memory` it makes only the former. With a number N the sessions make theirs in N longer
//! rounds, and in one whose history becomes nearly full.
#![tactic(auto)]

mod found;
mod held;
mod late;
mod load;
mod memory;
mod model;
mod scripts;

use crate::load::{Shape, Stock, Table};
use anyhow::Result;
use bc_analyses::providers;
use std::env;
use std::io::Write;
use std::sync::Wait;
use std::thread::Threads;

/// Rounds: in the first one the sessions put more names than may be stored, and in the others they all write the four names of one
/// function.
const SHORT: [Shape; 2] = [("many names", 700, 1000, 1), ("four names", 1, 1000, 50)];

/// What the words ask for: all in short, the calls that take memory, or a number of longer rounds.
#[derive(Clone, Copy)]
enum Asked {
    Short,
    Memory,
    Rounds(u32),
}

/// Returns what the words ask for.
fn read_words(rt: &HostRuntime) -> Result<Asked> {
    let Some(word) = env::args(rt)?.skip(1).next() else {
        return Ok(Asked::Short);
    };
    if word.as_str() == "memory" {
        return Ok(Asked::Memory);
    }
    Ok(Asked::Rounds(word.parse()?))
}

/// Has sixteen sessions call and read, in the given number of longer rounds, or in short without one.
fn show_sessions<R: AllocGlobal + Threads + Wait + Sync, W: Write>(
    rt: &R,
    rounds: Option<u32>,
    out: &mut W,
) -> Result<()> {
    let providers = providers!(rt.alloc());
    let stock = Stock::new(rt.alloc())?;
    let table = Table {
        rt,
        stock: &stock,
        providers: &providers,
    };
    let Some(rounds) = rounds else {
        out.write_all(b"#sessions on threads\n")?;
        table.show(SHORT[0], out)?;
        return table.show(SHORT[1], out);
    };
    table.show(("many names", 440, 10_000, rounds), out)?;
    table.show(("a history that is nearly full", 440, 99_000, 1), out)
}

fn main(rt: HostRuntime) -> Result<()> {
    let asked = match read_words(&rt) {
        Ok(asked) => asked,
        Err(_) => read_words(&rt)?,
    };
    let mut out = rt.stdout();
    if let Asked::Rounds(rounds) = asked {
        return show_sessions(&rt, Some(rounds), &mut out);
    }
    memory::show(&rt, &mut out)?;
    if let Asked::Short = asked {
        show_sessions(&rt, None, &mut out)?;
    }
    Ok(())
}
