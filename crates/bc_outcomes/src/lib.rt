//! Finding the outcome of a snapshot, and the pieces of its bodies.
#![tactic(auto)]

mod checked;
mod laws;
mod making;
mod reporting;
mod stack;
mod verdicts;
mod visit;
mod walk;

pub use laws::{outcomes_are_local, outcomes_are_unique, outcomes_rest_on_used_names};
pub use making::piece;
pub use reporting::{AskResult, find_outcome, report, report_pieces};
