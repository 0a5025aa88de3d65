//! Beginning all roots of a copy of what is published.
ghost use Rattle.std.specs.Prelude.{List, IfOk};
ghost use Rattle.bc_memo.specs.Places.{AreKeptPieces};
ghost use Rattle.bc_calls.specs.declared.call.Entry.{Entry};
ghost use Rattle.bc_calls.specs.Answers.{IsShelfOf};
ghost use Rattle.bc_calls.specs.Beginnings.{AreAllBegun, IsBegun};

use crate::table::answer_in;
use bc_calls::Begun;
use bc_memo::{PieceMemo, Shelf};
use bc_names::Name;
use std::alloc::{AllocError, Global};

/// Returns the part of each root that holds a body, in the order of the names, each with its answer and its kept pieces. Requires that the
/// pieces are of what is stored.
pub(crate) fn begin_roots(
    alloc: Global,
    held: &Shelf,
    pieces: &PieceMemo,
) -> Result<Vec<Begun>, AllocError>
    requires history { (h : List Entry) × IsShelfOf held.now.held h }
    requires pieces { AreKeptPieces held.now.held pieces.now.rows }
    ensures { (h : List Entry) → IsShelfOf held.now.held h → IfOk result (λ begun. AreAllBegun h begun.items) }
{
    let roots = held.roots(alloc)?;
    let mut begun = Vec::with_capacity(alloc, roots.len())?;
    for root in &roots {
        begun.push(begin_root(alloc, held, pieces, root)?)?;
    }
    Ok(begun)
}

/// Returns a name's part, with its answer and its kept pieces. Requires that the pieces are of what is stored.
pub(crate) fn begin_root(
    alloc: Global,
    held: &Shelf,
    pieces: &PieceMemo,
    root: &Name,
) -> Result<Begun, AllocError>
    requires history { (h : List Entry) × IsShelfOf held.now.held h }
    requires pieces { AreKeptPieces held.now.held pieces.now.rows }
    ensures { (h : List Entry) → IsShelfOf held.now.held h → IfOk result (IsBegun h root.now) }
{
    let answer = answer_in(held, root)?;
    let part = held.part(alloc, root)?;
    let kept = pieces.part(alloc, root)?;
    Ok(Begun::carrying(part, answer).keep_pieces(kept))
}
