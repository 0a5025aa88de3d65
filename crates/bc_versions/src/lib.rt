//! The published table of what is stored with its answers, the writer that publishes each entry, and the fronts at which sessions read
//! without waiting.
#![tactic(auto)]

mod ending;
mod front;
mod laws;
mod press;
mod roots;
mod rule;
mod table;

pub use ending::{Ending, Waiting};
pub use front::{Front, Fronts};
pub use laws::writers_have_seen_all;
pub use press::Press;
pub use rule::{Published, Seen, TableReader, TableWriter};
pub use table::{Table, Update};
