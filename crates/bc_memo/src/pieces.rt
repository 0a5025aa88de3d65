//! The kept pieces of bodies.
ghost use Rattle.std.specs.Prelude.{◌≡◌, ◌+◌, ◌<◌, ◌≤◌, [], IfOk, IsOk, OnErr, OnOk, length};
ghost use Rattle.std.specs.BTreeMap.{insert_entry, is_at};
ghost use Rattle.std.specs.Map.{remove_entry};
ghost use Rattle.std.specs.Option.{option_copied};
ghost use Rattle.bc_names.specs.Names.{name_order};
ghost use Rattle.bc_prov.specs.State.{at_name};
ghost use Rattle.bc_memo.specs.Places.{AreOrdered, most_rows, part_in, pieces_after, pieces_with};

use crate::change::Change;
use crate::rows::{find, put, take, within};
use bc_names::Name;
use bc_prov::{Piece, Pieces, Shared, share_pieces};
use std::alloc::{AllocError, Global};
use std::marker::Model;

/// The kept pieces of bodies, at most one for each name. A contract sees them in the order of their names, and for how many more there is
/// room. (rustc-dev-guide, "Incremental compilation": what is found of a part stays valid while that part is unchanged.)
pub struct PieceMemo {
    rows: Vec<(Name, Shared<Piece>)>,
}

impl Drop for PieceMemo {
    fn drop(self) {
        let Self { rows: _ } = self;
    }
}

impl Model for PieceMemo {
    ghost use Rattle.std.specs.Prelude.{◌-◌, vec_capacity};
    ghost use Rattle.bc_memo.specs.Places.{AreOrdered, PieceRoom};

    ghost Value = { PieceRoom };

    ghost view = { λ m. record { rows = m.rows.items; room = vec_capacity m.rows - m.rows.len } };

    ghost invariant = { λ m. AreOrdered m.rows.items };
}

impl PieceMemo {
    /// Returns a memo that keeps no piece, with room for at least `names` pieces.
    pub fn new(alloc: Global, names: usize) -> Result<PieceMemo, AllocError>
        ensures rows { IfOk result (λ memo. memo.rows ≡ []) }
        ensures room { IfOk result (λ memo. names ≤ memo.room) }
    {
        Ok(PieceMemo {
            rows: Vec::with_capacity(alloc, names)?,
        })
    }

    /// Keeps the piece of a name, in place of one that was kept for it. It succeeds if there is room for one more piece, and the capacity
    /// never shrinks. If it returns `AllocError`, the memo keeps what it kept before.
    pub fn keep(&mut self, name: Name, piece: Shared<Piece>) -> Result<(), AllocError>
        ensures kept { OnOk result (self.new.rows ≡ insert_entry name_order self.old.rows name piece) }
        ensures refused { OnErr result (self.new.rows ≡ self.old.rows) }
        ensures granted { 0 < self.old.room → IsOk result }
        ensures memory { most_rows self.old ≤ most_rows self.new }
    {
        self.reserve(1)?;
        self.keep_one(name, piece);
        Ok(())
    }

    /// Makes room for at least `count` more pieces, and changes nothing else. It succeeds if there is room already. The capacity never
    /// shrinks.
    pub fn reserve(&mut self, count: usize) -> Result<(), AllocError>
        ensures rows { self.new.rows ≡ self.old.rows }
        ensures room { OnOk result (count ≤ self.new.room) }
        ensures granted { count ≤ self.old.room → IsOk result }
        ensures memory { most_rows self.old ≤ most_rows self.new }
    {
        self.rows.reserve(count)
    }

    /// Keeps each of these pieces, in their order, in place of one that was kept for its name. Requires room for all of them. The capacity
    /// stays the same.
    pub fn keep_all(&mut self, pieces: Pieces)
        requires room { length pieces.items ≤ self.old.room }
        ensures rows { self.new.rows ≡ pieces_with pieces.items self.old.rows }
        ensures memory { most_rows self.new ≡ most_rows self.old }
    {
        for (name, piece) in pieces {
            self.keep_one(name, piece);
        }
    }

    /// Keeps the piece of a name, in place of one that was kept for it. Requires room for it.
    fn keep_one(&mut self, name: Name, piece: Shared<Piece>)
        requires { 0 < self.old.room }
        ensures rows { self.new.rows ≡ insert_entry name_order self.old.rows name piece }
        ensures memory { most_rows self.new ≡ most_rows self.old }
        ensures room { self.old.room ≤ self.new.room + 1 }
    {
        put(&mut self.rows, name, piece);
    }

    /// Returns the kept piece of a name, if there is one.
    pub fn kept(&self, name: &Name) -> Option<&Shared<Piece>>
        ensures { option_copied result ≡ at_name self.now.rows name.now }
    {
        match find(&self.rows, name) {
            Ok(place) => Some(&self.rows[place].1),
            Err(_) => None,
        }
    }

    /// Returns one more owner of each piece that is kept for a name or for one that begins with it and `/`.
    pub fn part(&self, alloc: Global, root: &Name) -> Result<Pieces, AllocError>
        ensures pieces { IfOk result (λ pieces. pieces.items ≡ part_in root.now self.now.rows) }
        ensures ordered { AreOrdered self.now.rows }
    {
        share_pieces(alloc, within(&self.rows, root))
    }

    /// Copies the memo, as one more owner of each kept piece. Returns `AllocError` also if a piece has too many owners.
    pub fn copy(&self, alloc: Global) -> Result<PieceMemo, AllocError>
        ensures rows { IfOk result (λ copy. copy.rows ≡ self.now.rows) }
        ensures ordered { AreOrdered self.now.rows }
    {
        Ok(PieceMemo {
            rows: share_pieces(alloc, &self.rows)?,
        })
    }

    /// Drops the piece of a name, if one is kept. The capacity stays the same.
    pub fn forget(&mut self, name: &Name)
        ensures rows { self.new.rows ≡ remove_entry (is_at (name_order name.now)) self.old.rows }
        ensures memory { most_rows self.new ≡ most_rows self.old }
    {
        take(&mut self.rows, name);
    }

    /// Drops all pieces. The capacity stays the same.
    pub fn forget_all(&mut self)
        ensures rows { self.new.rows ≡ [] }
        ensures memory { most_rows self.new ≡ most_rows self.old }
    {
        self.rows.clear();
    }

    /// Drops the pieces that a change drops: declarations drop all, and a unit that is put or removed drops only the piece of its name. The
    /// capacity stays the same.
    pub fn follow(&mut self, change: &Change)
        ensures rows { self.new.rows ≡ pieces_after change.now self.old.rows }
        ensures memory { most_rows self.new ≡ most_rows self.old }
        ensures room { self.old.room ≤ self.new.room }
    {
        match change {
            Change::Types(_) => self.forget_all(),
            Change::Put(name, _) => self.forget(name),
            Change::Remove(name) => self.forget(name),
            Change::Answer(_, _) | Change::Answers(_) | Change::Nothing => {}
        }
    }
}
