//! The report of an outcome: its text form.
#![tactic(auto)]

mod line;
mod one_line;
mod parts;
mod print;
mod texts;

pub use one_line::write_body_line;
pub use parts::write_number;
pub use print::{write_explained, write_report};
