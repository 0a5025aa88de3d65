//! The program `nlldb`, over the words, the files and the outputs of the system.
#![tactic(auto)]

use cli_program::run_on_system;
use std::process::ExitCode;

fn main(rt: HostRuntime) -> ExitCode {
    let (input, out) = (rt.stdin(), rt.stdout());
    ExitCode::from(run_on_system(&rt, input, out, &mut rt.stderr()))
}
