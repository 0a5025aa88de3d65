//! Tests of the command `serve` over readers and writers in memory, which may fail at one call.
#![tactic(auto)]

#[cfg(test)]
mod command;
#[cfg(test)]
mod failing;
#[cfg(test)]
mod meeting;
#[cfg(test)]
mod talks;
