//! What the commands on a file share: cutting it into sections, reading these, the statuses of calls, and the last line of a command that
//! stops.
#![tactic(auto)]

mod capacity;
mod fault;
mod file;
mod heading;
mod input;
mod location;
mod one_line;
mod section;
mod side;
mod status;
mod stop;
mod words;

pub use capacity::find_capacity;
pub use fault::{FaultKind, FileFault};
pub use file::{
    FileChange, read_body, read_changes, read_declarations, read_told_changes, stop_at,
};
pub use heading::{Heading, behind, read_heading};
pub use input::read_whole;
pub use location::locate;
pub use section::{Section, Sections};
pub use side::read_changes_by;
pub use status::{event_status, outcome_status, put_status};
pub use stop::{Stop, stop_with};
pub use words::answer_words;
