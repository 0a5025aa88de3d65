//! Which accesses conflict with which loans (RFC 2094, "Borrow checker phase 2").
ghost use Rattle.std.specs.Prelude.{◌≡◌};
ghost use Rattle.bc_judge.specs.Conflicts.{is_relevant_at, is_write as write_test, is_conflict as conflict_test};

use bc_mir::{Typed, is_mutable};
use bc_points::{
    Access, AccessKind, Depth, Loan, PlaceRef, is_prefix, is_shallow_prefix, supports,
};

/// Returns whether an access to a place is relevant to a loan of a path: the path is a prefix of the place, or the place is a shallow
/// prefix of the path for a shallow access, and a supporting one for a deep access.
fn is_relevant(typed: &Typed, depth: Depth, place: &PlaceRef<'_>, path: &PlaceRef<'_>) -> bool
    ensures { result ≡ is_relevant_at typed.now depth place.now path.now }
{
    match depth {
        Depth::Shallow => is_prefix(path, place) || is_shallow_prefix(place, path),
        Depth::Deep => is_prefix(path, place) || supports(typed, place, path),
    }
}

fn is_write(kind: AccessKind) -> bool
    ensures { result ≡ write_test kind }
{
    matches!(kind, AccessKind::Write)
}

/// Returns whether an access conflicts with a loan in scope: it is relevant to the loan, and the access writes or the loan is mutable.
pub(crate) fn is_conflict(typed: &Typed, access: &Access<'_>, loan: &Loan<'_>) -> bool
    ensures { result ≡ conflict_test typed.now access.now loan.now }
{
    (is_write(access.kind) || is_mutable(loan.mutability))
        && is_relevant(typed, access.depth, &access.place, &loan.path)
}
