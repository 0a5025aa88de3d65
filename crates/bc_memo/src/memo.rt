//! The remembered outcomes of names, each with the revisions of all that it was found from.
ghost use Rattle.std.specs.Prelude.{◌≡◌, ◌↔◌, ◌+◌, ◌<◌, ◌≤◌, [], ◌∷◌, IfNone, IfOk, IfSome, IsOk, IsSome, IsTrue, OnErr, OnOk, Some};
ghost use Rattle.std.specs.BTreeMap.{insert_entry, is_at};
ghost use Rattle.std.specs.Map.{remove_entry};
ghost use Rattle.std.specs.List.{AllByRecursion};
ghost use Rattle.bc_names.specs.Names.{name_order};
ghost use Rattle.bc_prov.specs.State.{at_name};
ghost use Rattle.bc_memo.specs.Memos.{IsRowOf, Stands, recorded};
ghost use Rattle.bc_memo.specs.Places.{revision_at};

use crate::rows::{find, put, take};
use crate::shelf::Shelf;
use bc_names::Name;
use bc_prov::{Outcome, Shared};
use std::alloc::{AllocError, Global};
use std::marker::Model;

/// A remembered outcome, with the revisions of the declarations and of each name that it was found from. A name that held no body has none.
pub struct Remembered {
    pub types: u32,
    pub used: Vec<(Name, Option<u32>)>,
    pub outcome: Shared<Outcome>,
}

impl Drop for Remembered {
    fn drop(self) {
        let Self {
            types: _,
            used: _,
            outcome: _,
        } = self;
    }
}

/// The remembered outcomes, at most one for each name. A contract sees the rows in the order of their names, and for how many more names
/// there is room.
pub struct Memo {
    rows: Vec<(Name, Remembered)>,
}

// Handwritten, so that it is proved once: the crates above only call it.
impl Drop for Memo {
    fn drop(self) {
        let Self { rows: _ } = self;
    }
}

impl Model for Memo {
    ghost use Rattle.std.specs.Prelude.{◌-◌, vec_capacity};
    ghost use Rattle.bc_memo.specs.Memos.{MemoView};
    ghost use Rattle.bc_memo.specs.Places.{AreOrdered};

    ghost Value = { MemoView };

    ghost view = { λ m. record { rows = m.rows.items; room = vec_capacity m.rows - m.rows.len } };

    ghost invariant = { λ m. AreOrdered m.rows.items };
}

impl Remembered {
    /// Records an outcome with the revisions that the shelf has of its declarations and of these names.
    pub fn of(
        alloc: Global,
        shelf: &Shelf,
        names: &[Name],
        outcome: Shared<Outcome>,
    ) -> Result<Remembered, AllocError>
        ensures { IfOk result (λ row. IsRowOf shelf.now.held names.now outcome row) }
    {
        let used = revisions(alloc, shelf, names)?;
        Ok(Remembered {
            types: shelf.types_revision(),
            used,
            outcome,
        })
    }
}

impl Memo {
    /// Returns a memo that remembers nothing.
    pub fn new(alloc: Global) -> Memo
        ensures { result.rows ≡ [] }
    {
        Memo {
            rows: Vec::new(alloc),
        }
    }

    /// Returns the outcome that is remembered for a name, if the declarations and all names that it was found from still have their
    /// revisions. Returns `None` exactly if nothing is remembered for the name or one of them changed since.
    pub fn lookup(&self, shelf: &Shelf, name: &Name) -> Option<&Shared<Outcome>>
        ensures stands { IfSome result (λ outcome. (row : Remembered) × (at_name self.now.rows name.now ≡ Some row) × Stands shelf.now.held row ×
            (outcome.now ≡ row.outcome)) }
        ensures none { IfNone result ((row : Remembered) → at_name self.now.rows name.now ≡ Some row → Stands shelf.now.held row → ⊥) }
    {
        match find(&self.rows, name) {
            Ok(place) => {
                let row = &self.rows[place].1;
                if stands(shelf, row) {
                    Some(&row.outcome)
                } else {
                    None
                }
            }
            Err(_) => None,
        }
    }

    /// Makes room for at least `names` more names, and changes nothing else. It succeeds if there is room already.
    pub fn reserve(&mut self, names: usize) -> Result<(), AllocError>
        ensures same { self.new.rows ≡ self.old.rows }
        ensures room { OnOk result (names ≤ self.new.room) }
        ensures granted { names ≤ self.old.room → IsOk result }
    {
        self.rows.reserve(names)
    }

    /// Remembers a row for a name, in place of what was remembered for it. Requires room for one name, and takes no more than that.
    pub fn put(&mut self, name: Name, row: Remembered)
        requires { 0 < self.old.room }
        ensures rows { self.new.rows ≡ insert_entry name_order self.old.rows name row }
        ensures room { self.old.room ≤ self.new.room + 1 }
    {
        put(&mut self.rows, name, row);
    }

    /// Forgets what is remembered for a name, if anything.
    pub fn forget(&mut self, name: &Name)
        ensures { self.new.rows ≡ remove_entry (is_at (name_order name.now)) self.old.rows }
    {
        take(&mut self.rows, name);
    }

    /// Remembers an outcome for a name that holds a body, with the revisions that the shelf has of its declarations, of the name and of
    /// these names. If it returns `AllocError`, the memo remembers what it did before.
    ///
    /// Only tests of this repository call it: a book makes its rows and room for them first, and then calls `put`, which cannot fail.
    pub fn install(
        &mut self,
        alloc: Global,
        shelf: &Shelf,
        name: Name,
        names: &[Name],
        outcome: Shared<Outcome>,
    ) -> Result<(), AllocError>
        requires held { IsSome (at_name shelf.now.held.places name) }
        ensures installed { OnOk result ((row : Remembered) × IsRowOf shelf.now.held (name ∷ names.now) outcome row ×
            (self.new.rows ≡ insert_entry name_order self.old.rows name row)) }
        ensures refused { OnErr result (self.new.rows ≡ self.old.rows) }
    {
        let used = with_own(alloc, name, names)?;
        let row = Remembered::of(alloc, shelf, &used, outcome)?;
        self.reserve(1)?;
        self.put(name, row);
        Ok(())
    }
}

/// Returns whether the declarations and all recorded names still have their revisions.
fn stands(shelf: &Shelf, row: &Remembered) -> bool
    ensures { IsTrue result ↔ Stands shelf.now.held row.now }
{
    shelf.types_revision() == row.types && all_stand(shelf, &row.used)
}

/// Returns whether all these names have these revisions.
fn all_stand(shelf: &Shelf, used: &[(Name, Option<u32>)]) -> bool
    ensures { IsTrue result ↔ AllByRecursion (λ row. revision_at shelf.now.held row.0 ≡ row.1) used.now }
{
    for row in used {
        if shelf.revision(&row.0) != row.1 {
            return false;
        }
    }
    true
}

/// Returns a list of the name, then these names.
fn with_own(alloc: Global, name: Name, names: &[Name]) -> Result<Vec<Name>, AllocError>
    ensures { IfOk result (λ all. all.items ≡ name ∷ names.now) }
{
    let mut all = Vec::new(alloc);
    all.push(name)?;
    all.extend_from_slice(names)?;
    Ok(all)
}

/// Returns the names with their revisions.
fn revisions(
    alloc: Global,
    shelf: &Shelf,
    names: &[Name],
) -> Result<Vec<(Name, Option<u32>)>, AllocError>
    ensures { IfOk result (λ used. used.items ≡ recorded shelf.now.held names.now) }
{
    let mut used = Vec::with_capacity(alloc, names.len())?;
    for name in names {
        used.push((*name, shelf.revision(name)))?;
    }
    Ok(used)
}
