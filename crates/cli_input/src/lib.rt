//! The lines of an input, one at a time. Reading waits for nothing after a line, and a line over the limit is not kept.
#![tactic(auto)]

mod line;
mod piece;

pub use line::{InputLine, read_input_line};
