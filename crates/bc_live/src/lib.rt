//! Liveness: on entry to which points the value of a local may still be used (RFC 2094, "Liveness").
#![tactic(auto)]

mod entries;
mod liveness;

pub use liveness::{LiveSets, live};
