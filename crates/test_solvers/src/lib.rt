//! Tests of tables and of what flows along edges, of groups of nodes, of both solvers, and of the chains that explain values.
#![tactic(auto)]

#[cfg(test)]
mod chains;
#[cfg(test)]
mod groups;
#[cfg(test)]
mod tables;
#[cfg(test)]
mod values;
