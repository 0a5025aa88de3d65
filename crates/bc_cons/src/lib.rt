//! Outlives constraints: what a body demands of its regions, and what their values are solved from.
#![tactic(auto)]

mod body;
mod bounds;
mod facts;
mod pairs;
mod requirements;
mod starts;

pub use body::constraints;
pub use facts::{Facts, NumberedConstraint};
pub use requirements::Requirements;
