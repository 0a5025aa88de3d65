//! Requests.
use crate::fault::RequestFault;
use crate::id::Id;
use bc_calls::Call;
use bc_names::Name;

/// The most bytes that the line of a request may have, without its line feed: 4 MiB.
pub const MOST_REQUEST_BYTES: usize = 4_194_304;

/// What a request asks for: that a session makes a call, or the published outcome of a name.
#[derive(Drop)]
pub enum Wanted {
    Call(Call),
    Glance(Name),
}

/// What is read from a line. `Good` has the id of the request, the number of its session, and what is asked of the session. `Bad` has the
/// id, the number of the session if it names one, and why the line is not a request.
#[derive(Drop)]
pub enum Request {
    Good(Id, u8, Wanted),
    Bad(Id, Option<u8>, RequestFault),
}
