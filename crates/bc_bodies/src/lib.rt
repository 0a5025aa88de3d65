//! A body over good declarations and the headers of its children: its points in one list, the types of its places, and its external
//! regions. This crate does not check the typing rules.
#![tactic(auto)]

mod children;
mod externals;
mod mentions;
mod mir;
mod place_types;
mod places;
mod print;

pub use children::{
    Child, KidHeader, are_known, arguments, is_outer_clause, takes_externals, takes_locals,
};
pub use mentions::base_regions;
pub use mir::{Draft, Instruction, Point, Step};
pub use place_types::{
    goes_only_mutable, lent_type_of_place, passes_only_mutable, push_references,
    push_references_of_place, type_of_place,
};
pub use places::{are_fields, has_no_deref};
