//! Reasons, found when they are asked for: which part of a point makes an access, what demands that a region outlives another, and why a
//! region is in use at a point.
#![tactic(auto)]

mod access;
mod body;
mod demand;
mod in_use;
mod pairs;
mod part;
mod paths;
mod points;

pub use access::{AccessReason, access_reason};
pub use body::Demands;
pub use demand::{Demand, LinkReason, Rule};
pub use in_use::{UseReason, use_reason};
pub use part::Part;
pub use paths::use_path;
