//! The command `print`: a file of sections with each text in its one spelling.
#![tactic(auto)]

mod command;
mod sections;

pub use command::{print, print_and_tell, print_over};
