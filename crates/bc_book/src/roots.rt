//! What is found for a name, and for all roots that hold a body.
ghost use Rattle.std.specs.Prelude.{◌≡◌, ◌++◌, [], length, IfSome, OnOk};
ghost use Rattle.bc_prov.specs.Pieces.{rows_of};
ghost use Rattle.bc_book.specs.Ledgers.{row_list};

use bc_calls::Work;
use bc_memo::Remembered;
use bc_names::Name;
use bc_prov::{Declared, Outcome, PieceSet, Shared};
use std::alloc::{AllocError, Global};
use std::cmp::Ordering;

/// The outcome of a name, with the pieces that are not kept yet, and with the row to remember, if there is one.
#[derive(Drop)]
pub(crate) struct NameResult {
    pub(crate) outcome: Shared<Outcome>,
    pub(crate) pieces: Option<PieceSet>,
    pub(crate) row: Option<(Name, Remembered)>,
}

/// The outcomes of roots that hold a body, in the order of their names, with the rows to remember, and the pieces that are not kept yet.
#[derive(Drop)]
pub(crate) struct ListingResult {
    pub(crate) listing: Vec<(Name, Shared<Outcome>)>,
    pub(crate) rows: Vec<(Name, Remembered)>,
    pub(crate) pieces: PieceSet,
}

impl ListingResult {
    /// Returns a value with nothing found yet, over these declarations.
    pub(crate) fn none(alloc: Global, types: Shared<Declared>) -> ListingResult
        ensures listing { result.listing.items ≡ [] }
        ensures rows { result.rows.items ≡ [] }
        ensures pieces { result.pieces ≡ record { types = types; rows = [] } }
    {
        ListingResult {
            listing: Vec::new(alloc),
            rows: Vec::new(alloc),
            pieces: PieceSet::of(types, Vec::new(alloc)),
        }
    }
}

/// Appends a row, if there is one.
pub(crate) fn push_row(
    rows: &mut Vec<(Name, Remembered)>,
    row: Option<(Name, Remembered)>,
) -> Result<(), AllocError>
    ensures { OnOk result (rows.new.items ≡ rows.old.items ++ row_list row) }
{
    match row {
        Some(row) => {
            rows.push(row)?;
            Ok(())
        }
        None => Ok(()),
    }
}

/// Appends the pieces of a set over the same declarations, if there is one.
pub(crate) fn push_pieces(pieces: &mut PieceSet, more: Option<PieceSet>) -> Result<(), AllocError>
    requires { IfSome more (λ set. set.types ≡ pieces.old.types) }
    ensures types { pieces.new.types ≡ pieces.old.types }
    ensures rows { OnOk result (pieces.new.rows ≡ pieces.old.rows ++ rows_of more) }
{
    match more {
        Some(set) => pieces.append(set),
        None => Ok(()),
    }
}

/// Returns the number of pieces in a set, or 0 if there is none.
pub(crate) fn count_pieces(pieces: &Option<PieceSet>) -> usize
    ensures { result ≡ length (rows_of pieces.now) }
{
    match pieces {
        Some(set) => set.rows().len(),
        None => 0,
    }
}

/// Returns works in the reverse order of their names.
pub(crate) fn in_reverse(works: Vec<Work>) -> Vec<Work> {
    let mut works = works;
    works.sort_unstable_by(|one, other| other.name().cmp(one.name()));
    works
}

/// Returns the work on a name, if it is the next of works in reverse order. Drops the works on lesser names.
pub(crate) fn take_work(works: &mut Vec<Work>, name: &Name) -> Option<Work>
    ensures { IfSome result (λ work. work.snapshot.root ≡ name.now) }
{
    while let Some(work) = works.pop() {
        match work.name().cmp(name) {
            Ordering::Less => {}
            Ordering::Equal => return Some(work),
            Ordering::Greater => {
                works.push_reserved(work);
                return None;
            }
        }
    }
    None
}
