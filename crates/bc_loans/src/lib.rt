//! Loans, and where they are in scope (RFC 2094, "Borrow checker phase 1").
#![tactic(auto)]

mod entries;
mod insides;
mod loan_flow;
mod loan_list;
mod loan_set;
mod scopes;
mod seeds;
mod sweeps;

pub use loan_list::loans;
pub use scopes::{Scopes, in_scope};
