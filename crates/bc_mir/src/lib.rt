//! Typed units: the typing rules, the edges between points, and what types demand.
#![tactic(auto)]

mod edges;
mod laws;
mod lookups;
mod place_shapes;
mod print;
mod rules;
mod subtype;
mod typed;
mod typing;
mod value_types;
mod well_formed;

pub use bc_bodies::{
    Child, Instruction, KidHeader, Point, Step, are_fields, arguments, base_regions,
    is_outer_clause, passes_only_mutable,
};
pub use bc_shapes::is_mutable;
pub use bc_types::{CheckTypes, Constraint, DeclFault, GoodTypes};
pub use laws::{edges_join_points, entries_begin_blocks};
pub use typed::{IllFault, Typed, Where, type_unit};
