//! The command `run`: sessions make the calls of a file on threads of their own, and the history is printed.
#![tactic(auto)]

mod command;
mod file;
mod header;
mod make;
mod print;
mod script;

pub use command::{run, run_and_tell, run_over};
pub use file::SessionCall;
