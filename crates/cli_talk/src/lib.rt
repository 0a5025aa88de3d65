//! The conversation of one session: its worker answers each line that names the session by one line, in order. The router numbers the lines
//! of each session, so it is known which lines of the input a worker answered, whatever is between the two.
#![tactic(auto)]

mod answer;
mod fault;
mod lost;
mod message;
mod replies;
mod router;
mod worker;

pub use fault::TalkFault;
pub use message::{Message, Messages, Talk};
pub use replies::{Closed, Replies};
pub use router::{RoutedLine, no_counts, route_line};
pub use worker::{Post, serve_messages};
