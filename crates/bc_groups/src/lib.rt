//! Groups of the nodes of a graph: strong components, and the graph between them.
#![tactic(auto)]

mod components;
mod groups;

pub use components::{Grouping, strong_components};
pub use groups::{gathered, group_edges};
