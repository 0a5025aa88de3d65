//! An outcome as JSON.
#![tactic(auto)]

mod errors;
mod members;
mod outcomes;
mod report;

pub use members::{put_name, put_number, put_string};
pub use outcomes::outcome_value;
pub use report::json_report;
