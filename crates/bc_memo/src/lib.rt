//! What is stored, with revisions, and outcomes that are remembered while all that they were found from keeps its revision.
#![tactic(auto)]

mod change;
mod memo;
mod naming;
mod pieces;
mod place;
mod rows;
mod shelf;

pub use change::Change;
pub use memo::{Memo, Remembered};
pub use naming::suits;
pub use pieces::PieceMemo;
pub use place::Place;
pub use shelf::{Part, Shelf};
