//! Tests of `check` and `run` over readers and writers in memory, which may fail at one call; of the line of each stop; and of a report
//! that no file can cause.
#![tactic(auto)]

#[cfg(test)]
mod checks;
#[cfg(test)]
mod command;
#[cfg(test)]
mod failing;
#[cfg(test)]
mod limits;
#[cfg(test)]
mod meeting;
#[cfg(test)]
mod reports;
#[cfg(test)]
mod runs;
