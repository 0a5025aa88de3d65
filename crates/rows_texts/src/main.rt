//! Prints each line of the named files, and after each row which name its text is, or where the points of its unit begin. The expected
//! output has these answers. `.ci/gate/rows` shows the answers to units and declarations.
#![tactic(auto)]

mod answers;
#[cfg(test)]
mod names;
mod spelled;
#[cfg(test)]
mod values;

use crate::answers::show_line;
use std::{env, fs};

fn main(rt: HostRuntime) -> anyhow::Result<()> {
    let mut out = rt.stdout();
    for name in env::args(&rt)?.skip(1) {
        let rows = fs::read_to_string(&rt, &name)?;
        for line in rows.lines() {
            show_line(rt.alloc(), line, &mut out)?;
        }
    }
    Ok(())
}
