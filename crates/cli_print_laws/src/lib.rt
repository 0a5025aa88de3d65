//! The laws of printed files: they make the same calls, and are printed as themselves.
#![tactic(auto)]

mod laws;

pub use laws::printed_files_are_read;
