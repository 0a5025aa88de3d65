//! Tests of the whole program over readers and writers in memory, which may fail at one call.
#![tactic(auto)]

#[cfg(test)]
mod programs;
#[cfg(test)]
mod telling;
