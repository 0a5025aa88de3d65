//! The database's calls and replies, its state, the histories of its calls and what they leave, and work on snapshots. Nothing here waits
//! or takes a lock.
#![tactic(auto)]

mod call;
mod declarations;
mod owners;
mod work;

pub use call::{Call, Entry, Event, MOST_BODIES, PutReply, RemoveReply};
pub use declarations::{checked, no_declarations};
pub use owners::EventOwners;
pub use work::{Begun, Work};
