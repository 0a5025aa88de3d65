//! The report of an outcome, with the texts of the points in its errors.
#![tactic(auto)]

mod points;
mod regions;
mod report;
mod source;
mod starts;
mod unit;

pub use report::{SourcedBody, find_bodies, write_sourced_report};
pub use source::{Source, Sources};
