//! The replies to puts and removals.
ghost use Rattle.std.specs.Prelude.{◌≡◌, ◌<◌, ◌≤◌, IfOk, length};
ghost use Rattle.bc_prov.specs.State.{Suits};
ghost use Rattle.bc_calls.specs.Calls.{IsPutReply, IsRemoveReply};
ghost use Rattle.bc_book.specs.Ledgers.{bodies_of};

use bc_calls::{MOST_BODIES, PutReply, RemoveReply};
use bc_memo::{Shelf, suits};
use bc_names::Name;
use bc_syntax::Unit;
use std::alloc::{AllocError, Global};

/// Returns the reply to a put of a unit that may be stored at the name.
fn stored_reply(shelf: &Shelf, name: &Name, unit: &Unit) -> PutReply
    requires few { length shelf.now.held.places ≤ MOST_BODIES }
    requires suits { Suits unit.now name.now }
    ensures reply { IsPutReply (bodies_of shelf.now.held) name.now unit.now result }
    ensures place { result ≡ PutReply.Added → length shelf.now.held.places < MOST_BODIES }
{
    let count = shelf.count();
    if shelf.is_held(name) {
        PutReply::Replaced
    } else if count < MOST_BODIES {
        PutReply::Added
    } else {
        PutReply::Full
    }
}

/// Returns the reply to a put: `WrongKind` if the unit does not suit the name (a function needs a root, a closure any other name, and a
/// unit with a child fewer than seven segments), otherwise `Full` if the name is new and `MOST_BODIES` bodies are stored, otherwise
/// `Replaced` or `Added`.
pub(crate) fn put_reply(
    alloc: Global,
    shelf: &Shelf,
    name: &Name,
    unit: &Unit,
) -> Result<PutReply, AllocError>
    requires { length shelf.now.held.places ≤ MOST_BODIES }
    ensures reply { IfOk result (IsPutReply (bodies_of shelf.now.held) name.now unit.now) }
    ensures place { IfOk result (λ reply. reply ≡ PutReply.Added → length shelf.now.held.places < MOST_BODIES) }
{
    if suits(alloc, unit, name)? {
        Ok(stored_reply(shelf, name, unit))
    } else {
        Ok(PutReply::WrongKind)
    }
}

/// Returns the reply to a removal.
pub(crate) fn remove_reply(shelf: &Shelf, name: &Name) -> RemoveReply
    ensures { IsRemoveReply (bodies_of shelf.now.held) name.now result }
{
    if shelf.is_held(name) {
        RemoveReply::Removed
    } else {
        RemoveReply::Absent
    }
}
