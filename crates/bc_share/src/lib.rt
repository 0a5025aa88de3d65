//! The database: opened for up to sixteen sessions, which make their calls on any threads, and closed with them, which returns the history
//! of all calls.
#![tactic(auto)]

mod audit;
mod db;
mod desk;
mod notes;
mod session;
mod works;

pub use db::{CloseFault, Db, History, MOST_ENTRIES, OpenFault};
pub use desk::MadeCall;
pub use session::Session;
pub use works::work_all;
