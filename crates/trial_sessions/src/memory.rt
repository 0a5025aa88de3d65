//! Makes calls of the library that take memory, and that no command makes, or none in this way, and prints whether each was answered right.
//! If a call is refused, all are made once more. If one is refused that leaves behind what it worked on, this is checked to be unchanged,
//! and the call is repeated there. `.ci/gate/refused-memory` refuses each request for memory in turn.
use crate::{found, held, late, scripts};
use anyhow::Result;
use bc_analyses::providers;
use bc_prov::Providers;
use std::io::Write;
use std::sync::Wait;
use std::thread::Threads;

/// Returns whether the calls of each part are answered right, with these providers. Fails if one is refused.
fn told<R: AllocGlobal + Threads + Wait + Sync>(
    rt: &R,
    providers: &Providers,
) -> Result<[bool; 4]> {
    let is_found = found::is_well(rt, providers)?;
    let is_held = held::is_well(rt.alloc(), providers)?;
    let is_late = late::is_well(rt, providers)?;
    let is_run = scripts::is_well(rt, providers)?;
    Ok([is_found, is_held, is_late, is_run])
}

/// Returns whether the calls of each part are answered right, with the program's providers. Fails if anything is refused.
fn are_well<R: AllocGlobal + Threads + Wait + Sync>(rt: &R) -> Result<[bool; 4]> {
    let providers = providers!(rt.alloc());
    told(rt, &providers)
}

/// Writes whether the calls of each part are answered right. Fails if it cannot be written, or if calls are refused twice.
pub fn show<R: AllocGlobal + Threads + Wait + Sync, W: Write>(rt: &R, out: &mut W) -> Result<()> {
    let [is_found, is_held, is_late, is_run] = match are_well(rt) {
        Ok(told) => told,
        Err(_) => are_well(rt)?,
    };
    writeln!(
        out,
        "found {is_found}, held {is_held}, late {is_late}, scripts {is_run}"
    )?;
    Ok(())
}
