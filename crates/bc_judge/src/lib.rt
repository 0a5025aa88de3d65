//! The errors of a body: accesses that conflict with loans in scope, and universal regions that must outlive others and are not known to
//! (RFC 2094, "Borrow checker phase 2" and "Named lifetimes").
#![tactic(auto)]

mod candidates;
mod conflicts;
mod error;
mod explained;
mod failures;
mod known;
mod lifetimes;
mod print;
mod relevance;
mod verdict;

pub use error::BorrowError;
pub use known::{KnownRelations, known_relations};
pub use print::{PrintedChain, PrintedRegion};
pub use verdict::{Verdict, judge};
