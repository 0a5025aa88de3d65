//! What is stored below a session, and what memos keep of it. After a refused call a memo must have what it had before.
ghost use Rattle.std.specs.Prelude.{◌≤◌, OnOk};

use anyhow::{Result, bail};
use bc_calls::no_declarations;
use bc_memo::{Change, Memo, PieceMemo, Shelf, suits};
use bc_names::Name;
use bc_outcomes::{AskResult, find_outcome};
use bc_prov::{Outcome, Piece, PieceSet, Providers, Shared, share, share_pieces};
use std::alloc::{AllocError, Global};
use test_fixtures::{WRITES_LAST, name, shared_unit};

/// Stores the unit of a text under a name, with this revision.
pub(crate) fn put(
    alloc: Global,
    shelf: &mut Shelf,
    at: &[u8],
    text: &[u8],
    revision: u32,
) -> Result<()> {
    let at = name(at)?;
    let unit = Shared::new(shared_unit(alloc, text)?);
    if !suits(alloc, unit.get(), &at)? {
        bail!("the unit does not suit the name");
    }
    shelf.reserve()?;
    shelf.change(Change::Put(at, unit), revision);
    Ok(())
}

/// Returns whether a valid outcome is remembered for exactly the first `count` of these names.
fn are_first_remembered(memo: &Memo, shelf: &Shelf, names: &[Name], count: usize) -> bool {
    for (place, at) in names.iter().enumerate() {
        if memo.lookup(shelf, at).is_some() != (place < count) {
            return false;
        }
    }
    true
}

/// Returns whether a piece is kept for exactly the first `count` of these names.
fn are_first_kept(memo: &PieceMemo, names: &[Name], count: usize) -> bool {
    for (place, at) in names.iter().enumerate() {
        if memo.kept(at).is_some() != (place < count) {
            return false;
        }
    }
    true
}

/// Has a memo remember an outcome for a name with a body, as one that depends on these names.
fn install(alloc: Global, shelf: &Shelf, memo: &mut Memo, at: Name, names: &[Name]) -> Result<()> {
    if !shelf.is_held(&at) {
        bail!("nothing is held");
    }
    let outcome = share(alloc, Outcome::NoBody)?;
    Ok(memo.install(alloc, shelf, at, names, outcome)?)
}

/// Has a memo remember an outcome for each of these names, repeated if one is refused. Returns whether it has what it should after each.
fn remember(alloc: Global, shelf: &Shelf, memo: &mut Memo, names: &[Name]) -> Result<bool> {
    for (count, at) in names.iter().enumerate() {
        if install(alloc, shelf, memo, *at, names).is_err() {
            if !are_first_remembered(memo, shelf, names, count) {
                return Ok(false);
            }
            install(alloc, shelf, memo, *at, names)?;
        }
    }
    Ok(are_first_remembered(memo, shelf, names, names.len()))
}

/// Has a memo keep a piece for a name.
fn keep_one(memo: &mut PieceMemo, piece: &Shared<Piece>, at: Name) -> Result<(), AllocError> {
    let piece = piece.clone()?;
    memo.keep(at, piece)
}

/// Has a memo keep a piece for each of these names, repeated if one is refused. Returns whether it has what it should after each.
fn keep(memo: &mut PieceMemo, piece: &Shared<Piece>, names: &[Name]) -> Result<bool, AllocError> {
    for (count, at) in names.iter().enumerate() {
        if keep_one(memo, piece, *at).is_err() {
            if !are_first_kept(memo, names, count) {
                return Ok(false);
            }
            keep_one(memo, piece, *at)?;
        }
    }
    Ok(are_first_kept(memo, names, names.len()))
}

/// Returns whether a memo remembers what it should, before a name on which its outcomes depend is put again, and after that.
fn is_remembered(alloc: Global, shelf: &mut Shelf, names: &[Name]) -> Result<bool> {
    let mut memo = Memo::new(alloc);
    let is_well = remember(alloc, shelf, &mut memo, names)?;
    put(alloc, shelf, b"f", WRITES_LAST, 2)?;
    Ok(is_well && are_first_remembered(&memo, shelf, names, 0))
}

/// Returns the pieces of the bodies at a name and below it.
fn pieces_of(alloc: Global, providers: &Providers, shelf: &Shelf, at: &Name) -> Result<PieceSet> {
    let snapshot = shelf.part(alloc, at)?.snapshot;
    let AskResult {
        outcome: _outcome,
        pieces,
    } = find_outcome(alloc, providers, &snapshot)?;
    let Some(set) = pieces else {
        bail!("no piece is made");
    };
    Ok(set)
}

/// Returns whether a memo keeps what it should: a piece for five names, three of which are the first or below it.
fn is_kept(alloc: Global, set: &PieceSet, names: &[Name]) -> Result<bool> {
    let [(at, piece), ..] = set.rows() else {
        bail!("no piece is found");
    };
    let mut memo = PieceMemo::new(alloc, 0)?;
    let is_well = keep(&mut memo, piece, names)?;
    let part = memo.part(alloc, at)?;
    Ok(is_well && part.len() == 3)
}

/// Returns the names that texts spell.
fn names_of(alloc: Global, texts: &[&[u8]]) -> Result<Vec<Name>> {
    let mut names = Vec::new(alloc);
    for text in texts {
        names.push(name(text)?)?;
    }
    Ok(names)
}

/// Returns a shelf with a body under each of these names.
fn shelf_of(alloc: Global, texts: &[&[u8]]) -> Result<Shelf> {
    let mut shelf = Shelf::new(alloc, no_declarations(alloc)?, 1)?;
    for at in texts {
        put(alloc, &mut shelf, at, WRITES_LAST, 1)?;
    }
    Ok(shelf)
}

/// Has a memo make room for `count` more pieces, repeated if it is refused.
fn make_room(memo: &mut PieceMemo, count: usize) -> Result<(), AllocError>
    ensures { OnOk result (count ≤ memo.new.room) }
{
    match memo.reserve(count) {
        Ok(()) => Ok(()),
        Err(_) => memo.reserve(count),
    }
}

/// Returns whether a memo that made room for all pieces of a set keeps one for each of their names.
fn is_all_kept(alloc: Global, set: &PieceSet) -> Result<bool, AllocError> {
    let pieces = share_pieces(alloc, set.rows())?;
    let mut memo = PieceMemo::new(alloc, 0)?;
    make_room(&mut memo, pieces.len())?;
    memo.keep_all(pieces);
    for row in set.rows() {
        if memo.kept(&row.0).is_none() {
            return Ok(false);
        }
    }
    Ok(true)
}

/// Returns whether what is found on a shelf is kept as it should be.
fn is_found_kept(alloc: Global, providers: &Providers, shelf: &Shelf) -> Result<bool> {
    let set = pieces_of(alloc, providers, shelf, &name(b"f")?)?;
    let names = names_of(alloc, &[b"f", b"h", b"f/0", b"g", b"f/0/1"])?;
    Ok(is_kept(alloc, &set, &names)? && is_all_kept(alloc, &set)?)
}

/// Returns whether memos keep what they should. Fails if another call is refused.
pub(crate) fn is_well(alloc: Global, providers: &Providers) -> Result<bool> {
    let texts: [&[u8]; 5] = [b"f", b"g", b"h", b"i", b"j"];
    let names = names_of(alloc, &texts)?;
    let mut shelf = shelf_of(alloc, &texts)?;
    let is_remembered = is_remembered(alloc, &mut shelf, &names)?;
    Ok(is_remembered && is_found_kept(alloc, providers, &shelf)?)
}
