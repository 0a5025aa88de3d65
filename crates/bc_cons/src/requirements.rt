//! What a closure requires of its creator.
use bc_syntax::{Outlives, Sequence};

/// What a closure requires of its creator: pairs of universal regions by number, of which the longer one must outlive the shorter one. It
/// borrows nothing. (rustc-dev-guide, "Propagating closure constraints".)
#[derive(Drop)]
pub struct Requirements {
    pub pairs: Sequence<Outlives>,
}
