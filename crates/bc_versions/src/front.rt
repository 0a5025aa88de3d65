//! The readers of the published table, each with the entries that it has seen. A reading waits for nobody. The functions `read_*` are one
//! reading each: they enter the table, take owners or copies of what is asked for, and leave, since the writer waits for whoever is in it.
ghost use Rattle.std.specs.Prelude.{◌≡◌, [], Some, IfOk, IfSome, IsTrue};
ghost use Rattle.left_right.specs.Sides.{view};
ghost use Rattle.bc_prov.specs.Snapshots.{IsPartOf};
ghost use Rattle.bc_memo.specs.Places.{AreKeptPieces};
ghost use Rattle.bc_calls.specs.Calls.{IsLegal, StartsWith, after, last_of};
ghost use Rattle.bc_calls.specs.Answers.{IsAnswer, IsShelfOf};
ghost use Rattle.bc_calls.specs.Beginnings.{AreAllBegun};

use crate::roots::{begin_root, begin_roots};
use crate::rule::{Look, Published, Seen, TableReader};
use crate::table::{Table, answer_in};
use bc_calls::{Begun, Event};
use bc_memo::{PieceMemo, Shelf};
use bc_names::Name;
use bc_prov::{Outcome, Shared};
use core::mem::replace_with;
use left_right::reader::Factory;
use std::alloc::{AllocError, Global};
use std::marker::Model;
use std::sync::Wait;

/// The maker of readers of the published table, as many as the press was opened for.
pub struct Fronts {
    factory: Factory<Table, Seen, Published>,
}

// Handwritten, so that it is proved once: the crates above only call it.
impl Drop for Fronts {
    fn drop(self) {
        let Self { factory: _ } = self;
    }
}

impl Fronts {
    /// Returns the maker of fronts over this factory of readers.
    pub(crate) fn new(factory: Factory<Table, Seen, Published>) -> Fronts {
        Fronts { factory }
    }

    /// Makes a reader that has seen nothing. Returns `AllocError` also if the table has all its readers already, or too many owners.
    pub fn front(&self) -> Result<Front, AllocError>
        ensures { IfOk result (λ front. front ≡ []) }
    {
        let reader = self.factory.reader()?;
        Ok(Front::new(reader))
    }
}

/// A reader of the published table. A contract sees it as the list of the entries that it has seen.
pub struct Front {
    reader: TableReader,
}

// Handwritten, so that it is proved once: the crates above only call it.
impl Drop for Front {
    fn drop(self) {
        let Self { reader: _ } = self;
    }
}

impl Model for Front {
    ghost use Rattle.std.specs.Prelude.{List};
    ghost use Rattle.left_right.specs.Sides.{view as seen_of};
    ghost use Rattle.bc_calls.specs.declared.call.Entry.{Entry};
    ghost use Rattle.bc_calls.specs.Calls.{IsLegal};

    ghost Value = { List Entry };

    ghost view = { λ f. seen_of f.reader.place };

    ghost invariant = { λ f. IsLegal (seen_of f.reader.place) };
}

impl Front {
    /// Returns a front that has seen nothing.
    pub(crate) fn new(reader: TableReader) -> Front
        requires { view reader.place ≡ [] }
        ensures { result ≡ [] }
    {
        Front { reader }
    }

    /// Returns the answer that is published for a name: its outcome if the name is answered, otherwise none. What was seen only grows.
    /// Returns `AllocError` if the reading fails, as it does once the writer is gone, or if the outcome has too many owners. It waits for
    /// nobody.
    pub fn glance(&mut self, name: &Name) -> Result<Option<Shared<Outcome>>, AllocError>
        ensures later { StartsWith self.new self.old }
        ensures legal { IsLegal self.new }
        ensures answer { IfOk result (IsAnswer self.new name.now) }
    {
        replace_with(&mut self.reader, *name, read_answer)
    }

    /// Begins a name: returns its part of the published table, which carries the name's answer if one is published. What was seen only
    /// grows. Returns `AllocError` also if the reading fails, as it does once the writer is gone. It waits for nobody.
    pub fn begin(&mut self, alloc: Global, name: &Name) -> Result<Begun, AllocError>
        ensures later { StartsWith self.new self.old }
        ensures legal { IsLegal self.new }
        ensures part { IfOk result (λ begun. IsPartOf begun name.now (after self.new)) }
        ensures answer { IfOk result (λ begun. IsAnswer self.new name.now begun.carried) }
    {
        replace_with(&mut self.reader, (alloc, *name), read_part).ok_or(AllocError)
    }

    /// Begins all roots that hold a body: returns their parts in the order of the names, each as `begin` does. All are parts of one copy of
    /// the table, and the reading is over before they are made. What was seen only grows. Returns `AllocError` also if the reading fails,
    /// as it does once the writer is gone. It waits for nobody.
    pub fn begin_all(&mut self, alloc: Global) -> Result<Vec<Begun>, AllocError>
        ensures later { StartsWith self.new self.old }
        ensures legal { IsLegal self.new }
        ensures parts { IfOk result (λ begun. AreAllBegun self.new begun.items) }
    {
        match replace_with(&mut self.reader, alloc, read_held) {
            Some((held, pieces)) => begin_roots(alloc, &held, &pieces),
            None => Err(AllocError),
        }
    }

    /// Reads until the last published entry is this event of this session, which had `number` entries before it. What was seen only grows.
    pub fn reach<R: Wait>(&mut self, rt: &R, session: u8, number: usize, event: &Event)
        ensures later { StartsWith self.new self.old }
        ensures legal { IsLegal self.new }
        ensures last { last_of self.new ≡ Some (record { session = session; number = number; event = event.now }) }
    {
        replace_with(&mut self.reader, (), |reader, ()| {
            (look_until(rt, reader, session, number, event), ())
        })
    }
}

/// Reads a name's answer. Returns `AllocError` if the writer is gone, or if the answer has too many owners.
fn read_answer(
    reader: TableReader,
    name: Name,
) -> (TableReader, Result<Option<Shared<Outcome>>, AllocError>)
    ensures later { StartsWith (view result.0.place) (view reader.place) }
    ensures legal { IsLegal (view reader.place) → IsLegal (view result.0.place) }
    ensures answer { IfOk result.1 (IsAnswer (view result.0.place) name) }
{
    match reader.enter_as::<Look>() {
        Ok(reading) => {
            let answer = answer_in(reading.get().shelf(), &name);
            (reading.leave(), answer)
        }
        Err(reader) => (reader, Err(AllocError)),
    }
}

/// Reads a name's part, with its answer and its kept pieces. Returns `None` if the writer is gone, or if out of memory.
fn read_part(reader: TableReader, of: (Global, Name)) -> (TableReader, Option<Begun>)
    ensures later { StartsWith (view result.0.place) (view reader.place) }
    ensures legal { IsLegal (view reader.place) → IsLegal (view result.0.place) }
    ensures part { IfSome result.1 (λ begun. IsPartOf begun of.1 (after (view result.0.place))) }
    ensures answer { IfSome result.1 (λ begun. IsAnswer (view result.0.place) of.1 begun.carried) }
{
    let (alloc, name) = of;
    match reader.enter_as::<Look>() {
        Ok(reading) => {
            let table = reading.get();
            let begun = begin_root(alloc, table.shelf(), table.pieces(), &name);
            let reader = reading.leave();
            match begun {
                Ok(begun) => (reader, Some(begun)),
                Err(_) => (reader, None),
            }
        }
        Err(reader) => (reader, None),
    }
}

/// Reads a copy of what is stored, and of the kept pieces. Returns `None` if the writer is gone, or if out of memory.
fn read_held(reader: TableReader, alloc: Global) -> (TableReader, Option<(Shelf, PieceMemo)>)
    ensures later { StartsWith (view result.0.place) (view reader.place) }
    ensures legal { IsLegal (view reader.place) → IsLegal (view result.0.place) }
    ensures held { IfSome result.1 (λ copy. IsShelfOf copy.0.held (view result.0.place)) }
    ensures pieces { IfSome result.1 (λ copy. AreKeptPieces copy.0.held copy.1.rows) }
{
    match reader.enter_as::<Look>() {
        Ok(reading) => {
            let table = reading.get();
            let held = table.shelf().copy(alloc);
            let pieces = table.pieces().copy(alloc);
            let reader = reading.leave();
            let Ok(held) = held else {
                return (reader, None);
            };
            match pieces {
                Ok(pieces) => (reader, Some((held, pieces))),
                Err(_) => (reader, None),
            }
        }
        Err(reader) => (reader, None),
    }
}

/// Reads, and returns whether the last entry is this one.
fn read_last(reader: TableReader, session: u8, number: usize, event: &Event) -> (TableReader, bool)
    ensures later { StartsWith (view result.0.place) (view reader.place) }
    ensures legal { IsLegal (view reader.place) → IsLegal (view result.0.place) }
    ensures last { IsTrue result.1 → last_of (view result.0.place) ≡ Some (record { session = session; number = number; event = event.now }) }
{
    match reader.enter_as::<Look>() {
        Ok(reading) => {
            let reached = match reading.get().last() {
                Some(last) => last.is(session, number, event),
                None => false,
            };
            (reading.leave(), reached)
        }
        Err(reader) => (reader, false),
    }
}

/// Reads until the last entry is this one.
fn look_until<R: Wait>(
    rt: &R,
    reader: TableReader,
    session: u8,
    number: usize,
    event: &Event,
) -> TableReader
    requires { IsLegal (view reader.place) }
    ensures later { StartsWith (view result.place) (view reader.place) }
    ensures legal { IsLegal (view result.place) }
    ensures last { last_of (view result.place) ≡ Some (record { session = session; number = number; event = event.now }) }
{
    let mut reader = reader;
    for _ in rt.forever() {
        let (next, reached) = read_last(reader, session, number, event);
        if reached {
            return next;
        }
        reader = next;
    }
    unreachable!()
}
