//! Tests of the command `print` over readers and writers in memory, which may fail at one call.
#![tactic(auto)]

#[cfg(test)]
mod prints;
