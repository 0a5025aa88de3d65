//! Names of bodies: a root and its segments.
#![tactic(auto)]

mod laws;
mod name;

pub use laws::names_are_told_apart;
pub use name::Name;
