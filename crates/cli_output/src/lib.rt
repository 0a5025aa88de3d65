//! An output on which several authors print, one line at a time. Its log exists in proofs alone, and has each line with its author. At the
//! end it is proved that the log has exactly the lines of each author, in order, and that exactly the log was written.
#![tactic(auto)]

mod output;
mod pen;
mod token;

pub use output::{Failed, Opening, Output};
pub use pen::{Authors, Pen, Sheet};
