//! Makes units and declarations in code, from bodies and declarations that a text can spell.
#![tactic(auto)]

mod bodies;
mod declarations;

pub use bodies::unit_of;
pub use declarations::types_of;
