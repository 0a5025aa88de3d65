//! The shelf: the stored declarations, and units with their answers in the order of their names.
ghost use Rattle.std.specs.Prelude.{◌≡◌, ◌↔◌, ◌++◌, ◌<◌, ◌≤◌, [], IfOk, IsOk, IsTrue, None, OnOk, is_some, length, map, vec_capacity};
ghost use Rattle.std.specs.Option.{option_copied};
ghost use Rattle.bc_names.specs.Names.{NameParts};
ghost use Rattle.bc_prov.specs.Snapshots.{names_used};
ghost use Rattle.bc_prov.specs.State.{at_name};
ghost use Rattle.bc_memo.specs.declared.change.Change.TheVariants.{Answers};
ghost use Rattle.bc_memo.specs.declared.place.Place.{Place};
ghost use Rattle.bc_memo.specs.Places.{AreKeptPieces, AreOrdered, IsHeld, IsReady, MayChange, answer_of, with_answer_at, changed, cleared, empty_shelf, marked, most_places, most_ready, revision_at, revisions_in, roots_in, unanswered, units_in};

use crate::change::Change;
use crate::pieces::PieceMemo;
use crate::place::Place;
use crate::rows::{find, put, take, within};
use bc_names::Name;
use bc_prov::{Declared, Outcome, Shared, Snapshot, push_closures};
use bc_syntax::Unit;
use std::alloc::{AllocError, Global};
use std::marker::Model;

/// The stored declarations and bodies with their answers: all places, in the order of their names. A contract sees the declarations with
/// their revision, these places, the outcomes that are ready for a change, and for how many more places and outcomes there is room. The
/// type guarantees that each unit suits its name.
pub struct Shelf {
    types: Shared<Declared>,
    types_revision: u32,
    places: Vec<(Name, Place)>,
    ready: Vec<(Name, Shared<Outcome>)>,
}

// Handwritten, so that it is proved once: the crates above only call it.
impl Drop for Shelf {
    fn drop(self) {
        let Self {
            types: _,
            types_revision: _,
            places: _,
            ready: _,
        } = self;
    }
}

impl Model for Shelf {
    ghost use Rattle.std.specs.Prelude.{◌-◌, vec_capacity};
    ghost use Rattle.bc_memo.specs.Places.{AreKept, ShelfRoom, ShelfView};

    ghost Value = { ShelfRoom };

    ghost view = { λ s. record {
      held = record { types = s.types; types_revision = s.types_revision; places = s.places.items };
      room = vec_capacity s.places - s.places.len;
      ready = s.ready.items;
      ready_room = vec_capacity s.ready - s.ready.len;
    } };

    ghost invariant = { λ s. AreKept s.places.items };
}

/// A snapshot of a name's part of the shelf, with the revisions of its declarations and of its units.
#[derive(Drop)]
pub struct Part {
    pub snapshot: Snapshot,
    pub types_revision: u32,
    pub revisions: Vec<u32>,
}

impl Shelf {
    /// Returns a shelf with these declarations, at revision 0, and no unit. It has room for at least `places` places and an outcome of
    /// each.
    pub fn new(alloc: Global, types: Shared<Declared>, places: usize) -> Result<Shelf, AllocError>
        ensures held { IfOk result (λ shelf. shelf.held ≡ empty_shelf types) }
        ensures room { IfOk result (λ shelf. places ≤ shelf.room) }
        ensures ready_room { IfOk result (λ shelf. places ≤ shelf.ready_room) }
    {
        let rows = Vec::with_capacity(alloc, places)?;
        Ok(Shelf {
            types,
            types_revision: 0,
            places: rows,
            ready: Vec::with_capacity(alloc, places)?,
        })
    }

    /// Makes room for one more place, and changes nothing else. It succeeds if there is room already. The capacity never shrinks.
    pub fn reserve(&mut self) -> Result<(), AllocError>
        ensures same { self.new.held ≡ self.old.held }
        ensures room { OnOk result (0 < self.new.room) }
        ensures granted { 0 < self.old.room → IsOk result }
        ensures memory { most_places self.old ≤ most_places self.new }
        ensures ready { (self.new.ready ≡ self.old.ready) × (self.new.ready_room ≡ self.old.ready_room) }
    {
        self.places.reserve(1)
    }

    /// Makes ready what a change for many names needs: one more owner of each outcome, in place of what was ready before. Nothing else
    /// changes, and the capacity never shrinks. It allocates only if there is no room for as many outcomes. Returns `AllocError` also if an
    /// outcome has too many owners.
    pub fn prepare(&mut self, change: &Change) -> Result<(), AllocError>
        ensures same { self.new.held ≡ self.old.held }
        ensures ready { OnOk result (IsReady change.now self.new.ready) }
        ensures memory { (self.new.room ≡ self.old.room) × (most_ready self.old ≤ most_ready self.new) }
    {
        self.ready.clear();
        match change {
            Change::Answers(listing) => own_again(&mut self.ready, listing.get().as_slice()),
            Change::Types(_)
            | Change::Put(_, _)
            | Change::Remove(_)
            | Change::Answer(_, _)
            | Change::Nothing => Ok(()),
        }
    }

    /// Returns whether a name holds a unit.
    pub fn is_held(&self, name: &Name) -> bool
        ensures { result ≡ is_some (at_name self.now.held.places name.now) }
    {
        match find(&self.places, name) {
            Ok(_) => true,
            Err(_) => false,
        }
    }

    /// Returns the number of stored units.
    pub fn count(&self) -> usize
        ensures count { result ≡ length self.now.held.places }
        ensures ordered { AreOrdered self.now.held.places }
    {
        self.places.len()
    }

    /// Returns the declarations.
    pub fn types(&self) -> &Shared<Declared>
        ensures { result.now ≡ self.now.held.types }
    {
        &self.types
    }

    /// Returns the revision of the declarations.
    pub fn types_revision(&self) -> u32
        ensures { result ≡ self.now.held.types_revision }
    {
        self.types_revision
    }

    /// Returns the revision of a name's unit, or `None` exactly if the name holds none.
    pub fn revision(&self, name: &Name) -> Option<u32>
        ensures { result ≡ revision_at self.now.held name.now }
    {
        match find(&self.places, name) {
            Ok(place) => Some(self.places[place].1.revision),
            Err(_) => None,
        }
    }

    /// Returns the stored answer of a name, if there is one.
    pub fn answer(&self, name: &Name) -> Option<&Shared<Outcome>>
        ensures { option_copied result ≡ answer_of (at_name self.now.held.places name.now) }
    {
        match find(&self.places, name) {
            Ok(place) => self.places[place].1.answer.as_ref(),
            Err(_) => None,
        }
    }

    /// Returns a name's part: the declarations, and the units at the name and at names that begin with it and `/`, all with their
    /// revisions. The snapshot carries no outcome and no piece.
    pub fn part(&self, alloc: Global, root: &Name) -> Result<Part, AllocError>
        ensures snapshot { IfOk result (λ part. (part.snapshot.types ≡ self.now.held.types) × (part.snapshot.root ≡ root.now) ×
            (part.snapshot.units ≡ units_in root.now self.now.held.places)) }
        ensures revisions { IfOk result (λ part. (part.types_revision ≡ self.now.held.types_revision) ×
            (part.revisions.items ≡ revisions_in root.now self.now.held.places)) }
        ensures bare { IfOk result (λ part. part.snapshot.carried ≡ None) }
    {
        let types = self.types.clone()?;
        let (units, revisions) = units(alloc, within(&self.places, root))?;
        let snapshot = Snapshot::of(types, *root, units);
        Ok(Part {
            snapshot,
            types_revision: self.types_revision,
            revisions,
        })
    }

    /// Returns whether a snapshot has the stored declarations and the units at its root and at names that begin with it and `/`, and
    /// whether these are all their revisions. It makes no list, and compares values only if the revisions are the same.
    pub fn holds(&self, snapshot: &Snapshot, types_revision: u32, revisions: &[u32]) -> bool
        ensures { IsTrue result ↔ IsHeld self.now.held snapshot.now types_revision revisions.now }
    {
        let part = within(&self.places, snapshot.root());
        types_revision == self.types_revision
            && are_revisions(part, revisions)
            && *snapshot.types() == self.types
            && are_units(part, snapshot.units())
    }

    /// Applies a change, and gives what it writes this revision. Declarations make all answers void. A unit that is put or removed makes
    /// void the answers of its name and of the names above it, such as `f` for `f/0`.
    ///
    /// It allocates nothing, and the capacity stays the same. Requires room for one place, that a unit suits the name at which it is put,
    /// as `suits` reports, and that answers for many names are ready, as `prepare` makes them.
    pub fn change(&mut self, change: Change, revision: u32)
        requires room { 0 < self.old.room }
        requires suited { MayChange change }
        requires ready { IsReady change self.old.ready }
        ensures held { self.new.held ≡ changed self.old.held change revision }
        ensures memory { most_places self.new ≡ most_places self.old }
        ensures ready_memory { most_ready self.new ≡ most_ready self.old }
    {
        match change {
            Change::Types(types) => {
                self.types = types;
                self.types_revision = revision;
                clear_all(&mut self.places);
            }
            Change::Put(name, unit) => {
                let place = Place {
                    unit,
                    revision,
                    answer: None,
                };
                put(&mut self.places, name, place);
                clear(&mut self.places, &name);
            }
            Change::Remove(name) => {
                take(&mut self.places, &name);
                clear(&mut self.places, &name);
            }
            Change::Answer(name, outcome) => set_answer(&mut self.places, &name, Some(outcome)),
            Change::Answers(_) => set_answers(&mut self.places, &mut self.ready),
            Change::Nothing => {}
        }
    }

    /// Copies the shelf, as one more owner of all that is stored. Returns `AllocError` also if something has too many owners.
    pub fn copy(&self, alloc: Global) -> Result<Shelf, AllocError>
        ensures held { IfOk result (λ copy. copy.held ≡ self.now.held) }
    {
        Ok(Shelf {
            types: self.types.clone()?,
            types_revision: self.types_revision(),
            places: copies(alloc, &self.places)?,
            ready: Vec::new(alloc),
        })
    }

    /// Returns the names that the outcome of a root depends on: its own, then each closure that a unit of its part names, stored or not, in
    /// the order of the units. The numbers of closures come from the kept piece of a unit if there is one. No part is made. Requires that
    /// the pieces are of what is stored.
    pub fn used(
        &self,
        alloc: Global,
        pieces: &PieceMemo,
        root: &Name,
    ) -> Result<Vec<Name>, AllocError>
        requires { AreKeptPieces self.now.held pieces.now.rows }
        ensures { IfOk result (λ names. names.items ≡ names_used root.now (units_in root.now self.now.held.places)) }
    {
        let mut names = Vec::new(alloc);
        names.push(*root)?;
        for row in within(&self.places, root) {
            let piece = pieces.kept(&row.0);
            push_closures(alloc, &mut names, row.0, &row.1.unit, piece)?;
        }
        Ok(names)
    }

    /// Returns the roots that hold a body, in order.
    pub fn roots(&self, alloc: Global) -> Result<Vec<Name>, AllocError>
        ensures { IfOk result (λ names. names.items ≡ roots_in self.now.held.places) }
    {
        roots(alloc, &self.places)
    }
}

/// Appends one more owner of each outcome to what is ready.
fn own_again(
    ready: &mut Vec<(Name, Shared<Outcome>)>,
    rows: &[(Name, Shared<Outcome>)],
) -> Result<(), AllocError>
    ensures rows { OnOk result (ready.new.items ≡ ready.old.items ++ rows.now) }
    ensures memory { vec_capacity ready.old ≤ vec_capacity ready.new }
{
    ready.reserve(rows.len())?;
    for row in rows {
        let outcome = row.1.clone()?;
        ready.push((row.0, outcome))?;
    }
    Ok(())
}

/// Copies the places, as one more owner of their units and answers.
fn copies(alloc: Global, places: &[(Name, Place)]) -> Result<Vec<(Name, Place)>, AllocError>
    ensures { IfOk result (λ copies. copies.items ≡ places.now) }
{
    let mut copies = Vec::with_capacity(alloc, places.len())?;
    for row in places {
        copies.push((row.0, row.1.copy()?))?;
    }
    Ok(copies)
}

/// Returns the roots among the names of places, in order.
fn roots(alloc: Global, places: &[(Name, Place)]) -> Result<Vec<Name>, AllocError>
    ensures { IfOk result (λ names. names.items ≡ roots_in places.now) }
{
    let mut names = Vec::new(alloc);
    for row in places {
        if row.0.depth() == 0 {
            names.push(row.0)?;
        }
    }
    Ok(names)
}

/// Returns the units of places, each with its name.
fn units_of(
    alloc: Global,
    places: &[(Name, Place)],
) -> Result<Vec<(Name, Shared<Unit>)>, AllocError>
    ensures { IfOk result (λ units. units.items ≡ map (λ (p : NameParts × Place). (p.0, p.1.unit)) places.now) }
{
    let mut units = Vec::with_capacity(alloc, places.len())?;
    for row in places {
        let unit = row.1.unit.clone()?;
        units.push((row.0, unit))?;
    }
    Ok(units)
}

/// Returns the revisions of places.
fn revisions_of(alloc: Global, places: &[(Name, Place)]) -> Result<Vec<u32>, AllocError>
    ensures { IfOk result (λ revisions. revisions.items ≡ map (λ (p : NameParts × Place). p.1.revision) places.now) }
{
    let mut revisions = Vec::with_capacity(alloc, places.len())?;
    for row in places {
        revisions.push(row.1.revision)?;
    }
    Ok(revisions)
}

/// Returns the units of places, each with its name, and their revisions.
fn units(
    alloc: Global,
    places: &[(Name, Place)],
) -> Result<(Vec<(Name, Shared<Unit>)>, Vec<u32>), AllocError>
    ensures units { IfOk result (λ r. r.0.items ≡ map (λ (p : NameParts × Place). (p.0, p.1.unit)) places.now) }
    ensures revisions { IfOk result (λ r. r.1.items ≡ map (λ (p : NameParts × Place). p.1.revision) places.now) }
{
    let units = units_of(alloc, places)?;
    let revisions = revisions_of(alloc, places)?;
    Ok((units, revisions))
}

/// Returns whether the places have these revisions.
fn are_revisions(places: &[(Name, Place)], revisions: &[u32]) -> bool
    ensures { IsTrue result ↔ (revisions.now ≡ map (λ (p : NameParts × Place). p.1.revision) places.now) }
{
    if revisions.len() != places.len() {
        return false;
    }
    for (index, row) in places.iter().enumerate() {
        if revisions[index] != row.1.revision {
            return false;
        }
    }
    true
}

/// Returns whether the places have these units, under these names.
fn are_units(places: &[(Name, Place)], units: &[(Name, Shared<Unit>)]) -> bool
    ensures { IsTrue result ↔ (units.now ≡ map (λ (p : NameParts × Place). (p.0, p.1.unit)) places.now) }
{
    if units.len() != places.len() {
        return false;
    }
    for (index, row) in places.iter().enumerate() {
        if !is_unit(row, &units[index]) {
            return false;
        }
    }
    true
}

/// Returns whether the place has this unit, under this name.
fn is_unit(row: &(Name, Place), unit: &(Name, Shared<Unit>)) -> bool
    ensures { IsTrue result ↔ (unit.now ≡ (row.now.0, row.now.1.unit)) }
{
    unit.0 == row.0 && unit.1 == row.1.unit
}

/// Gives the place of a name this answer, or none, if the name has a place.
fn set_answer(places: &mut Vec<(Name, Place)>, name: &Name, answer: Option<Shared<Outcome>>)
    requires { AreOrdered places.old.items }
    ensures places { places.new.items ≡ with_answer_at name.now answer places.old.items }
    ensures memory { vec_capacity places.new ≡ vec_capacity places.old }
{
    if let Ok(place) = find(places, name) {
        places[place].1.answer = answer;
    }
}

/// Moves the outcomes that are ready to the places of their names. If a name has several, it keeps the first.
fn set_answers(places: &mut Vec<(Name, Place)>, ready: &mut Vec<(Name, Shared<Outcome>)>)
    requires { AreOrdered places.old.items }
    ensures places { places.new.items ≡ marked (Answers ready.old.items) places.old.items }
    ensures ready { ready.new.items ≡ [] }
    ensures memory { (vec_capacity places.new ≡ vec_capacity places.old) × (vec_capacity ready.new ≡ vec_capacity ready.old) }
{
    while let Some(row) = ready.pop() {
        let name = row.0;
        set_answer(places, &name, Some(row.1));
    }
}

/// Removes the answers of a name and of the names above it. Requires that the name has none itself, since it was just written or removed.
fn clear(places: &mut Vec<(Name, Place)>, name: &Name)
    requires ordered { AreOrdered places.old.items }
    requires bare { answer_of (at_name places.old.items name.now) ≡ None }
    ensures places { places.new.items ≡ cleared name.now places.old.items }
    ensures memory { vec_capacity places.new ≡ vec_capacity places.old }
{
    for depth in 0..name.depth() {
        set_answer(places, &name.beginning(depth), None);
    }
}

/// Removes all answers.
fn clear_all(places: &mut Vec<(Name, Place)>)
    ensures places { places.new.items ≡ unanswered places.old.items }
    ensures memory { vec_capacity places.new ≡ vec_capacity places.old }
{
    clear_rows(places);
}

/// Removes the answer of each row.
fn clear_rows(rows: &mut [(Name, Place)])
    ensures { rows.new ≡ unanswered rows.old }
{
    for row in rows.iter_mut() {
        row.1.answer = None;
    }
}
