//! Prints units and declarations, token by token.
#![tactic(auto)]

mod declarations;
mod names;
mod points;
mod tokens;
mod units;

pub use declarations::print_types;
pub use units::print_unit;
