//! The command `check`: it makes the calls of a file's sections, asks for its roots, and prints the reports.
#![tactic(auto)]

mod ahead;
mod asked;
mod command;
mod form;

pub use command::{check, check_and_tell, check_over};
