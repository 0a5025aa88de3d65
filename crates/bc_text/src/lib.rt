//! Reads texts: the units and declarations that they spell, or the first fault.
#![tactic(auto)]

mod blocks;
mod declarations;
mod fault;
mod places;
mod points;
mod reader;
mod regions;
mod types;
mod universals;

pub use bc_names::Name;
pub use declarations::read_types;
pub use fault::ReadFault;
pub use reader::{MAX_TEXT, read_unit};
