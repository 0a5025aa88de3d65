//! Snapshots of what is stored, the providers of the three analyses, and pieces. A piece has the errors of one body, with all that they
//! were found from.
#![tactic(auto)]

mod body;
mod closures;
mod declared;
mod outcome;
mod pieces;
mod providers;
mod shared;
mod snapshot;

pub use closures::push_closures;
pub use declared::{Check, Declared};
pub use outcome::{BodyErrors, Listing, Outcome};
pub use pieces::{Piece, PieceSet, Pieces, piece_of, share_pieces};
pub use providers::{Liveness, Providers, Scoping, Solver};
pub use shared::{Shared, share};
pub use snapshot::Snapshot;
