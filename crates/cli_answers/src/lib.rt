//! The line of JSON that answers a request.
#![tactic(auto)]

mod answer;
mod entries;
mod faults;
mod glances;
mod line;
mod members;
mod words;

pub use answer::Answer;
pub use line::answer_line;
