//! All that is under the lock: the history, what it leaves, what is remembered of it, and the writer that publishes it.
#![tactic(auto)]

mod book;
mod ledger;
mod operation;
mod reply;
mod roots;

pub use book::Book;
pub use ledger::{MOST_SESSIONS, Refusal};
pub use operation::{Enter, EnteredCall, Operation, Put, Remove, Settle, SettleAll};
