//! Requests: what a line of JSON asks of a session.
#![tactic(auto)]

mod destination;
mod fault;
mod id;
mod line;
mod member;
mod read;
mod request;
mod session;
mod text;
mod verb;

pub use destination::{Destination, ParsedLine, find_destination};
pub use fault::{RequestFault, TextFault, TextFaultKind};
pub use id::Id;
pub use read::read_request;
pub use request::{MOST_REQUEST_BYTES, Request, Wanted};
