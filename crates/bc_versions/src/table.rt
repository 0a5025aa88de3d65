//! The published table: the last entry, what is stored after it, and the kept pieces of that. `left_right` has two, and applies each update
//! to both, so an update that fails has to leave its table as it was.
ghost use Rattle.std.specs.Prelude.{◌≡◌, ◌<◌, ◌≤◌, ◌+◌, ◌++◌, [], IfOk, IsOk, OnErr, OnOk, Some, length, vec_capacity};
ghost use Rattle.bc_memo.specs.Places.{IsReady, MayChange, answer_of, changed, empty_shelf, most_places, most_ready, most_rows, pieces_after, pieces_with};
ghost use Rattle.bc_prov.specs.Pieces.{rows_of};
ghost use Rattle.bc_prov.specs.State.{at_name};
ghost use Rattle.bc_calls.specs.Calls.{most_bodies};
ghost use Rattle.bc_calls.specs.Changes.{change_of};
ghost use Rattle.bc_versions.specs.Tables.{empty_table, updated};

use bc_calls::Entry;
use bc_memo::{Change, PieceMemo, Shelf};
use bc_names::Name;
use bc_prov::{Outcome, Piece, PieceSet, Pieces, Shared};
use left_right::Absorb;
use std::alloc::{AllocError, Global};
use std::marker::Model;

/// What adds an entry to a published table: the entry, the revision that it gives to what it writes, and the pieces that come with an ask.
/// A contract sees all three.
#[derive(Drop)]
pub struct Update {
    entry: Entry,
    revision: u32,
    pieces: Option<PieceSet>,
}

impl Model for Update {
    ghost use Rattle.bc_prov.specs.Pieces.{rows_of};
    ghost use Rattle.bc_memo.specs.Places.{MayChange};
    ghost use Rattle.bc_calls.specs.Changes.{change_of};
    ghost use Rattle.bc_versions.specs.Tables.{UpdateView};

    ghost Value = { UpdateView };

    ghost view = { λ u. record { entry = u.entry; revision = u.revision; pieces = rows_of u.pieces } };

    ghost invariant = { λ u. MayChange (change_of u.entry.event) };
}

impl Update {
    /// Makes an update of an entry, with its revision, and with the pieces that come with an ask, if any. Requires that a unit that the
    /// entry puts suits its name.
    pub fn new(entry: Entry, revision: u32, pieces: Option<PieceSet>) -> Update
        requires { MayChange (change_of entry.event) }
        ensures { result ≡ record { entry = entry; revision = revision; pieces = rows_of pieces } }
    {
        Update {
            entry,
            revision,
            pieces,
        }
    }
}

/// The published table: the last entry, what is stored after it with its answers, and the kept pieces of that. A contract sees all three.
/// The type guarantees room for all places and one more, for two pieces of each and one more, and for as many answers and pieces as an
/// update brings at once.
pub struct Table {
    last: Option<Entry>,
    shelf: Shelf,
    pieces: PieceMemo,
    ready: Pieces,
}

impl Drop for Table {
    fn drop(self) {
        let Self {
            last: _,
            shelf: _,
            pieces: _,
            ready: _,
        } = self;
    }
}

impl Model for Table {
    ghost use Rattle.std.specs.Prelude.{◌<◌, ◌+◌, vec_capacity};
    ghost use Rattle.bc_calls.specs.Calls.{most_bodies};
    ghost use Rattle.bc_memo.specs.Places.{most_places, most_ready, most_rows};
    ghost use Rattle.bc_versions.specs.Tables.{TableView};

    ghost Value = { TableView };

    ghost view = { λ t. record { last = t.last; shelf = t.shelf.held; pieces = t.pieces.rows } };

    ghost invariant = { λ t. (most_bodies < most_places t.shelf) × (most_bodies + most_bodies < most_rows t.pieces) ×
        (most_bodies < most_ready t.shelf) × (most_bodies < vec_capacity t.ready) };
}

impl Table {
    /// Returns a table before any entry, from an empty shelf, no pieces, and a list for those that an update brings. Requires that the
    /// shelf has room for all places and one more and for the answers of all, that there is room for two pieces of each place, and in the
    /// list for one.
    pub(crate) fn new(shelf: Shelf, pieces: PieceMemo, ready: Pieces) -> Table
        requires empty { shelf.held ≡ empty_shelf [] }
        requires bare { pieces.rows ≡ [] }
        requires room { most_bodies < shelf.room }
        requires piece_room { most_bodies + most_bodies < pieces.room }
        requires ready_room { most_bodies < shelf.ready_room }
        requires ready_pieces { most_bodies < vec_capacity ready }
        ensures { result ≡ empty_table }
    {
        Table {
            last: None,
            shelf,
            pieces,
            ready,
        }
    }

    /// Returns the last entry, if there is one.
    pub(crate) fn last(&self) -> &Option<Entry>
        ensures { result.now ≡ self.now.last }
    {
        &self.last
    }

    /// Returns what is stored.
    pub(crate) fn shelf(&self) -> &Shelf
        ensures { result.now.held ≡ self.now.shelf }
    {
        &self.shelf
    }

    /// Returns the kept pieces.
    pub(crate) fn pieces(&self) -> &PieceMemo
        ensures { result.now.rows ≡ self.now.pieces }
    {
        &self.pieces
    }

    /// Adds an entry with its pieces. If it returns `AllocError`, nothing has changed: all that can fail is done first. It allocates only
    /// if more pieces come than bodies may be stored.
    pub(crate) fn update(&mut self, update: &Update) -> Result<(), AllocError>
        ensures taken { OnOk result (self.new ≡ updated self.old update.now) }
        ensures refused { OnErr result (self.new ≡ self.old) }
    {
        let last = update.entry.copy()?;
        let change = update.entry.event.change()?;
        make_ready(
            &mut self.shelf,
            &mut self.pieces,
            &mut self.ready,
            &change,
            &update.pieces,
        )?;
        take_in(
            &mut self.shelf,
            &mut self.pieces,
            change,
            update.revision,
            &mut self.ready,
        )?;
        self.last = Some(last);
        Ok(())
    }
}

/// Makes one more owner of each piece of a set, if there is one, in place of what was ready before.
fn own_again(ready: &mut Pieces, pieces: &Option<PieceSet>) -> Result<(), AllocError>
    ensures owners { OnOk result (ready.new.items ≡ rows_of pieces.now) }
    ensures memory { vec_capacity ready.old ≤ vec_capacity ready.new }
{
    ready.clear();
    match pieces {
        Some(set) => push_owners(ready, set.rows()),
        None => Ok(()),
    }
}

/// Appends one more owner of each piece to what is ready.
fn push_owners(ready: &mut Pieces, rows: &[(Name, Shared<Piece>)]) -> Result<(), AllocError>
    ensures rows { OnOk result (ready.new.items ≡ ready.old.items ++ rows.now) }
    ensures memory { vec_capacity ready.old ≤ vec_capacity ready.new }
{
    ready.reserve(rows.len())?;
    for row in rows {
        let piece = row.1.clone()?;
        ready.push((row.0, piece))?;
    }
    Ok(())
}

/// Returns one more owner of a name's answer on a shelf, if it has one. Returns `AllocError` if the answer has too many owners.
pub(crate) fn answer_in(held: &Shelf, name: &Name) -> Result<Option<Shared<Outcome>>, AllocError>
    ensures { IfOk result (λ answer. answer ≡ answer_of (at_name held.now.held.places name.now)) }
{
    match held.answer(name) {
        Some(outcome) => Ok(Some(outcome.clone()?)),
        None => Ok(None),
    }
}

/// Does all of an update that can fail: makes one more owner of each of its pieces, and room for them, and makes ready what its change
/// moves into the shelf. It changes nothing that is stored, and the capacity never shrinks.
fn make_ready(
    shelf: &mut Shelf,
    pieces: &mut PieceMemo,
    ready: &mut Pieces,
    change: &Change,
    set: &Option<PieceSet>,
) -> Result<(), AllocError>
    ensures same { (shelf.new.held ≡ shelf.old.held) × (pieces.new.rows ≡ pieces.old.rows) }
    ensures owners { OnOk result (ready.new.items ≡ rows_of set.now) }
    ensures room { OnOk result (length ready.new.items ≤ pieces.new.room) }
    ensures prepared { OnOk result (IsReady change.now shelf.new.ready) }
    ensures memory { (most_places shelf.new ≡ most_places shelf.old) × (most_rows pieces.old ≤ most_rows pieces.new) ×
        (most_ready shelf.old ≤ most_ready shelf.new) × (vec_capacity ready.old ≤ vec_capacity ready.new) }
{
    own_again(ready, set)?;
    pieces.reserve(ready.len())?;
    shelf.prepare(change)
}

/// Applies a change for which the shelf is ready, drops the pieces that it drops, and keeps those that are ready. If it returns
/// `AllocError`, nothing has changed. It always succeeds if no more units are stored than a legal history leaves.
fn take_in(
    shelf: &mut Shelf,
    pieces: &mut PieceMemo,
    change: Change,
    revision: u32,
    more: &mut Pieces,
) -> Result<(), AllocError>
    requires suited { MayChange change }
    requires ready { IsReady change shelf.old.ready }
    requires room { length more.old.items ≤ pieces.old.room }
    ensures taken { OnOk result (shelf.new.held ≡ changed shelf.old.held change revision) }
    ensures kept { OnOk result (pieces.new.rows ≡ pieces_with more.old.items (pieces_after change pieces.old.rows)) }
    ensures refused { OnErr result ((shelf.new.held ≡ shelf.old.held) × (pieces.new.rows ≡ pieces.old.rows)) }
    ensures granted { most_bodies < most_places shelf.old → length shelf.old.held.places ≤ most_bodies → IsOk result }
    ensures memory { (most_places shelf.old ≤ most_places shelf.new) × (most_rows pieces.old ≤ most_rows pieces.new) ×
        (most_ready shelf.new ≡ most_ready shelf.old) × (vec_capacity more.new ≡ vec_capacity more.old) }
{
    shelf.reserve()?;
    pieces.follow(&change);
    shelf.change(change, revision);
    keep_ready(pieces, more);
    Ok(())
}

/// Keeps each of these pieces, in their order, in place of one that was kept for its name. Requires room for all of them.
fn keep_ready(pieces: &mut PieceMemo, ready: &mut Pieces)
    requires room { length ready.old.items ≤ pieces.old.room }
    ensures kept { pieces.new.rows ≡ pieces_with ready.old.items pieces.old.rows }
    ensures memory { (most_rows pieces.old ≤ most_rows pieces.new) × (vec_capacity ready.new ≡ vec_capacity ready.old) }
{
    ready.reverse();
    while let Some(row) = ready.pop() {
        if pieces.keep(row.0, row.1).is_err() {
            unreachable!();
        }
    }
}

impl Absorb<Update> for Table {
    type State = Table;

    ghost state = { λ t. t };

    ghost applied = { updated };

    fn absorb_first(&mut self, operation: &Update, _other: &Table) -> Result<(), AllocError> {
        self.update(operation)
    }
}
