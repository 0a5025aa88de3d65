//! Scripts of calls, which sessions of a database make on threads of their own.
#![tactic(auto)]

mod run;

pub use run::{End, Gate, Script, Stage, run_sessions};
