//! Region values: the least sets of elements that have the start elements and meet the outlives constraints, and the chains of
//! constraints that explain why an element is in a value.
#![tactic(auto)]

mod explainer;
mod law;
mod values;
mod ways;

pub use explainer::{Explainer, explain};
pub use law::chain_law;
pub use values::{Values, solve_components, solve_plain};
