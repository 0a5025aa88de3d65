//! The command `serve`: sessions of a new database answer requests, one line each, on threads of their own. When the input ends, the
//! database is closed.
#![tactic(auto)]

mod backlog;
mod close;
mod command;
mod ends;
mod service;
mod stop;
mod talk;
mod worker;

pub use command::{serve, serve_and_tell, serve_over};
pub use service::Service;
pub use stop::ServeStop;
