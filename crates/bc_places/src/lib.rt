//! Where the points of a unit begin in its text.
#![tactic(auto)]

mod places;
mod walk;

pub use places::point_places;
