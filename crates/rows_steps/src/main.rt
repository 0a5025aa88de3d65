//! Prints what each step of the analysis finds in bodies, and which bodies keep the typing rules over their children. The crate is below
//! the database, so the two are proved side by side.
#![tactic(auto)]

mod breaches;
mod children;
mod reasons;
mod rows;
mod steps;

use crate::children::show_children;
use crate::reasons::show_why;
use crate::steps::show_steps;
use std::io;
use std::io::{BufWriter, Write};

fn main(rt: HostRuntime) -> io::Result<()> {
    let mut out = BufWriter::new(rt.alloc(), rt.stdout())?;
    show_steps(&rt, &mut out)?;
    show_children(&rt, &mut out)?;
    show_why(&rt, &mut out)?;
    out.flush()
}
