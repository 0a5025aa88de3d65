//! Types without declarations: mutability, shapes, replaced regions, borrowed types.
#![tactic(auto)]

mod mutabilities;
mod replaced;
mod shape;
mod shapes;
mod ty_ref;

pub use mutabilities::is_mutable;
pub use replaced::{argument_of, copy_name, replace_region, replace_ty};
pub use shape::{Shape, closure_behind};
pub use shapes::{
    are_alike, are_alike_closures, are_alike_types, is_copyable_behind, is_copyable_type,
    is_int_behind, is_same_mutability,
};
pub use ty_ref::TyRef;
