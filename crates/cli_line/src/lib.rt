//! The words of the command line: the command that they give, with its file and options.
#![tactic(auto)]

mod arguments;
mod fault;
mod line;
mod reading;
mod solver;
mod topic;
mod usage;

pub use fault::LineFault;
pub use line::{CheckLine, Line, MOST_CAPACITY, MOST_SESSIONS, PrintLine, RunLine, ServeLine};
pub use reading::read_line;
pub use solver::Solver;
pub use topic::Topic;
pub use usage::{
    CHECK_USAGE, PRINT_USAGE, RUN_USAGE, SERVE_USAGE, USAGE, VERSION, write_usage, write_version,
};
