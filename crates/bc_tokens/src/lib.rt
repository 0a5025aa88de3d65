//! The tokens of a text, which a cursor cuts one at a time.
#![tactic(auto)]

mod cursor;
mod refusal;
mod token;

pub use cursor::Cursor;
pub use refusal::Refusal;
