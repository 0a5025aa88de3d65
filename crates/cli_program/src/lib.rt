//! The program: the words of its command line, the inputs that they name, and the commands.
#![tactic(auto)]

mod handing;
mod inputs;
mod obeying;
mod printing;
mod program;
mod system;

pub use inputs::{Inputs, STANDARD_INPUT, SystemFiles};
pub use obeying::{Engine, obey_line};
pub use program::run_program;
pub use system::run_on_system;
