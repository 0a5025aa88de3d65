//! The line and the column of a place in a text.
#![tactic(auto)]

mod position;

pub use position::{Position, position_below, position_of};
