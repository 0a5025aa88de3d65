//! Why a conversation stops.

/// Why a conversation stops before the end of its input, or does not end well there: the input failed; the output failed; the router or,
/// for an answer, a worker is out of memory; or a worker got a message that is not the next of its session, which no router of this crate
/// sends.
#[derive(Clone, Copy, Debug, PartialEq, Eq)]
pub enum TalkFault {
    CannotRead,
    CannotWrite,
    NoMemory,
    OutOfTurn,
}
