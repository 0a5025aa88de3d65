//! Asks of several names, with the work shared by threads. All asks are begun in a session, threads work on them without the lock, and then
//! each is settled in the session, in order.
#![tactic(auto)]

mod ahead;
mod ask;

pub use ahead::work_ahead;
pub use ask::PendingAsk;
