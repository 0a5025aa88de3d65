//! Answers.
use bc_book::Refusal;
use bc_calls::Event;
use bc_prov::Outcome;
use cli_requests::RequestFault;
use std::alloc::Global;
use std::sync::Arc;

/// The answer to a request. `Entered` has the call with its reply, and the number of calls that the session had made before. `Glanced` has
/// the answer that is published for a name, if there is one. `Refused` says why the session made no call, and `Wrong` what is wrong with
/// the request.
pub enum Answer {
    Entered { number: usize, event: Event },
    Glanced(Option<Arc<Outcome, Global>>),
    Refused(Refusal),
    Wrong(RequestFault),
}

impl Drop for Answer {
    fn drop(self) {
        match self {
            Self::Entered {
                number: _,
                event: _,
            } => {}
            Self::Glanced(_) => {}
            Self::Refused(_) => {}
            Self::Wrong(_) => {}
        }
    }
}
