//! Declarations: which are good, lookup by name, and what types demand over them.
#![tactic(auto)]

mod good;
mod good_types;
mod region_pairs;
mod subtype;
mod subtyping;
mod table;
mod well_formed;

pub use good_types::{CheckTypes, DeclFault, GoodTypes};
pub use subtype::{Constraint, is_same_region, push_outlives};
pub use subtyping::{push_sub, push_sub_reference};
pub use table::{copy_clauses, copy_signature, copy_types, takes_regions};
