//! What each point of a typed unit does: its accesses, its uses and definitions, its loan, and what it demands of regions; and the prefixes
//! of places.
#![tactic(auto)]

mod access;
mod liveness;
mod loan;
mod pairs;
mod place_ref;
mod prefix;
mod region;
mod support;

pub use access::{Access, AccessKind, Depth, accesses, push_accesses};
pub use liveness::{defines, push_uses};
pub use loan::{Loan, loan_of};
pub use pairs::{push_assignment_pairs, push_call_pairs, push_clauses, push_invocation_pairs};
pub use place_ref::PlaceRef;
pub use prefix::{from_last_shared, is_prefix, is_shallow_prefix};
pub use region::{region_number, region_of_number};
pub use support::supports;
