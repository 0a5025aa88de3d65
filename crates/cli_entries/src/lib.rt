//! The entries of a history as objects of JSON.
#![tactic(auto)]

mod entries;
mod replies;
mod words;

pub use entries::{entry_line, put_entry};
pub use words::{put_word, refusal_words, remove_word};
