//! Solves constraints between many regions, and explains elements of their values, each step many times. What was found goes to standard
//! output, and is the same at each run. The least time of each step goes to standard error.
#![tactic(auto)]

mod chains;
mod explanations;
mod times;

use crate::chains::measure_constraints;

fn main(rt: HostRuntime) -> anyhow::Result<()> {
    measure_constraints(&rt)
}
