//! The ledger: all that is under the lock, except the writer that publishes it. It waits for nobody.
ghost use Rattle.std.specs.Prelude.{◌≡◌, ◌↔◌, ◌+◌, ◌^◌, ◌<◌, ◌≤◌, [], ◌∷◌, ◌++◌, length, IfOk, IfSome, IsSome, IsTrue, None, OnOk, IfErr};
ghost use Rattle.std.specs.Option.{ForSome};
ghost use Rattle.std.specs.BTreeMap.{insert_entry};
ghost use Rattle.std.specs.Map.{keys_of};
ghost use Rattle.bc_names.specs.Names.{NameParts, name_order};
ghost use Rattle.bc_prov.specs.Outcome.{IsOutcomeIn};
ghost use Rattle.bc_prov.specs.Pieces.{rows_of};
ghost use Rattle.bc_prov.specs.Snapshots.{IsPartOf};
ghost use Rattle.bc_prov.specs.State.{at_name};
ghost use Rattle.bc_memo.specs.Memos.{IsRemembered};
ghost use Rattle.bc_memo.specs.Places.{AreFitting, IsReady, changed, empty_shelf, pieces_after, pieces_with, units_in};
ghost use Rattle.bc_calls.specs.Calls.{IsLegal, IsListing, IsPutReply, IsRemoveReply, MayComeNext, after, count_of, most_bodies};
ghost use Rattle.bc_calls.specs.Changes.{change_of, writes_after, writes_of};
ghost use Rattle.bc_book.specs.Ledgers.{AreRows, HasPlace, IsFoundAll, IsRow, Recalls, SameButAnswers, SameButPieces, SameLedger, kept_rows, remembering};

use crate::reply::{put_reply, remove_reply};
use crate::roots::{ListingResult, NameResult, in_reverse, push_pieces, push_row, take_work};
use bc_calls::{Begun, Entry, Event, MOST_BODIES, PutReply, RemoveReply, Work, no_declarations};
use bc_memo::{Change, Memo, Part, PieceMemo, Remembered, Shelf};
use bc_names::Name;
use bc_outcomes::AskResult;
use bc_prov::{Outcome, PieceSet, Providers, Shared};
use bc_syntax::Unit;
use std::alloc::{AllocError, Global};
use std::marker::Model;
use thiserror::Error;

/// The most sessions that a database may have.
pub const MOST_SESSIONS: usize = 16;

/// The reason why a book refused a call: out of memory, or the history is full. The call changed nothing.
#[derive(Clone, Copy, Debug, PartialEq, Eq, Error)]
pub enum Refusal {
    #[error("no memory")]
    NoMemory,
    #[error("history full")]
    HistoryFull,
}

impl From<AllocError> for Refusal {
    ghost use Rattle.bc_book.specs.declared.ledger.Refusal.TheVariants.{NoMemory};

    ghost from_gives = { λ _ refusal. refusal ≡ NoMemory };

    /// Returns the refusal `NoMemory`, of a call that was out of memory.
    fn from(_error: AllocError) -> Refusal {
        Refusal::NoMemory
    }
}

/// The append-only history, with what is stored after it, the kept pieces of that, and the remembered outcomes. The history is legal, and
/// has at most `capacity` entries. There is room for a piece of each body that may be stored, and one more.
pub(crate) struct Ledger {
    capacity: u32,
    history: Vec<Entry>,
    counts: [u32; MOST_SESSIONS],
    writes: u32,
    shelf: Shelf,
    pieces: PieceMemo,
    memo: Memo,
}

impl Drop for Ledger {
    fn drop(self) {
        let Self {
            capacity: _,
            history: _,
            counts: _,
            writes: _,
            shelf: _,
            pieces: _,
            memo: _,
        } = self;
    }
}

impl Model for Ledger {
    ghost use Rattle.std.specs.Prelude.{◌-◌, ◌<◌, vec_capacity};
    ghost use Rattle.bc_memo.specs.Places.{AreKeptPieces, most_rows};
    ghost use Rattle.bc_calls.specs.Calls.{most_bodies};
    ghost use Rattle.bc_book.specs.Ledgers.{LedgerView, IsLedger};

    ghost Value = { LedgerView };

    ghost view = { λ l. record {
      capacity = l.capacity;
      entries = l.history.items;
      shelf = l.shelf.held;
      answers = l.memo.rows;
      pieces = l.pieces.rows;
      room = vec_capacity l.history - l.history.len;
      places = l.shelf.room;
      rows = l.memo.room;
      piece_room = l.pieces.room;
      ready = l.shelf.ready;
    } };

    ghost invariant = { λ l. IsLedger l.capacity l.history.items l.counts l.writes l.shelf.held l.memo.rows ×
        AreKeptPieces l.shelf.held l.pieces.rows × (most_bodies < most_rows l.pieces) };
}

impl Ledger {
    /// Returns an empty history of at most `capacity` entries, with no declaration and no body, and with room for all bodies.
    pub(crate) fn new(alloc: Global, capacity: u32) -> Result<Ledger, AllocError>
        ensures same { IfOk result (λ ledger. (ledger.capacity ≡ capacity) × (ledger.entries ≡ []) × (ledger.shelf ≡ empty_shelf []) ×
            (ledger.answers ≡ []) × (ledger.pieces ≡ [])) }
        ensures places { IfOk result (λ ledger. most_bodies < ledger.places) }
    {
        let types = no_declarations(alloc)?;
        Ok(Ledger {
            capacity,
            history: Vec::new(alloc),
            counts: [0; MOST_SESSIONS],
            writes: 0,
            shelf: Shelf::new(alloc, types, MOST_BODIES + 1)?,
            pieces: PieceMemo::new(alloc, MOST_BODIES + 1)?,
            memo: Memo::new(alloc),
        })
    }

    /// Returns whether one more entry may come: `HistoryFull` exactly if the history is full.
    pub(crate) fn has_room(&self) -> Result<(), Refusal>
        ensures below { OnOk result (length self.now.entries < self.now.capacity) }
        ensures full { IfErr result (λ r. (r ≡ Refusal.HistoryFull) × (length self.now.entries ≡ self.now.capacity)) }
    {
        if self.history.len() == self.capacity as usize {
            return Err(Refusal::HistoryFull);
        }
        Ok(())
    }

    /// Returns the reply to a put.
    pub(crate) fn put_reply(
        &self,
        alloc: Global,
        name: &Name,
        unit: &Unit,
    ) -> Result<PutReply, AllocError>
        ensures reply { IfOk result (IsPutReply (after self.now.entries).bodies name.now unit.now) }
        ensures place { IfOk result (λ reply. reply ≡ PutReply.Added → length self.now.shelf.places < MOST_BODIES) }
    {
        put_reply(alloc, &self.shelf, name, unit)
    }

    /// Returns the reply to a removal.
    pub(crate) fn remove_reply(&self, name: &Name) -> RemoveReply
        ensures { IsRemoveReply (after self.now.entries).bodies name.now result }
    {
        remove_reply(&self.shelf, name)
    }

    /// Returns one more owner of the outcome of a name that is remembered, if all that it was found from still has its revision.
    fn answer(&self, name: &Name) -> Result<Option<Shared<Outcome>>, AllocError>
        ensures right { IfOk result (λ answer. IfSome answer (IsOutcomeIn (after self.now.entries) name.now)) }
        ensures remembered { IfOk result (IsRemembered self.now.shelf self.now.answers name.now) }
    {
        match self.memo.lookup(&self.shelf, name) {
            Some(outcome) => {
                let outcome = outcome.clone()?;
                Ok(Some(outcome))
            }
            None => Ok(None),
        }
    }

    /// Returns a name's part of what is stored, with the kept pieces of its bodies.
    fn part(&self, alloc: Global, name: &Name) -> Result<Part, AllocError>
        ensures part { IfOk result (λ part. IsPartOf part.snapshot name.now (after self.now.entries)) }
        ensures held { IfOk result (λ part. (part.snapshot.types ≡ self.now.shelf.types) × (part.snapshot.root ≡ name.now) ×
            (part.snapshot.units ≡ units_in name.now self.now.shelf.places)) }
        ensures bare { IfOk result (λ part. part.snapshot.carried ≡ None) }
        ensures legal { OnOk result (IsLegal self.now.entries) }
    {
        let Part {
            snapshot,
            types_revision,
            revisions,
        } = self.shelf.part(alloc, name)?;
        let pieces = self.pieces.part(alloc, name)?;
        Ok(Part {
            snapshot: snapshot.keep_pieces(pieces),
            types_revision,
            revisions,
        })
    }

    /// Returns a name's part of what is stored, with the kept pieces of its bodies, and with its outcome if a valid one is remembered.
    pub(crate) fn begin(&self, alloc: Global, name: &Name) -> Result<Begun, AllocError>
        ensures part { IfOk result (λ begun. IsPartOf begun name.now (after self.now.entries)) }
        ensures remembered { IfOk result (λ begun. IsRemembered self.now.shelf self.now.answers name.now begun.carried) }
        ensures right { IfOk result (λ begun. IfSome begun.carried (IsOutcomeIn (after self.now.entries) name.now)) }
        ensures legal { OnOk result (IsLegal self.now.entries) }
    {
        let answer = self.answer(name)?;
        let part = self.part(alloc, name)?;
        Ok(Begun::carrying(part, answer))
    }

    /// Returns the outcome of a name, on which a session may have worked, with the pieces that are not kept yet, each found from what is
    /// stored, and with the row to remember, if the name holds a body and no valid outcome of it is remembered. This is the work's own
    /// outcome if its inputs are still stored, otherwise the remembered one if that is still valid. Otherwise the pieces of the work and
    /// the kept ones are reused as far as they are valid, and the other bodies are worked on. If the work has no pieces, the remembered
    /// outcome comes first: it is the same, and nothing is compared for it. Returns `AllocError` also if a provider does.
    pub(crate) fn outcome(
        &self,
        alloc: Global,
        name: &Name,
        work: Option<Work>,
        providers: &Providers,
    ) -> Result<NameResult, AllocError>
        requires { IfSome work (λ w. w.snapshot.root ≡ name.now) }
        ensures outcome { IfOk result (λ found. IsOutcomeIn (after self.now.entries) name.now found.outcome) }
        ensures over { IfOk result (λ found. IfSome found.pieces (λ set. set.types ≡ self.now.shelf.types)) }
        ensures fit { IfOk result (λ found. AreFitting self.now.shelf (rows_of found.pieces)) }
        ensures row { IfOk result (λ found. ForSome found.row (λ r. (r.0 ≡ name.now) × IsRow self.now.shelf self.now.entries r.0 r.1)) }
        ensures recalls { IfOk result (λ found. Recalls self.now.shelf self.now.answers name.now found.outcome found.row) }
    {
        match self.answer(name)? {
            Some(answer) => {
                let AskResult { outcome, pieces } = self.recall(answer, work);
                Ok(NameResult {
                    outcome,
                    pieces,
                    row: None,
                })
            }
            None => {
                let AskResult { outcome, pieces } = self.found(alloc, name, work, providers)?;
                let row = self.row(alloc, name, &outcome)?;
                Ok(NameResult {
                    outcome,
                    pieces,
                    row,
                })
            }
        }
    }

    /// Returns a remembered outcome, or the same one with the pieces of a work, if the work has any and its inputs are still stored.
    fn recall(&self, answer: Shared<Outcome>, work: Option<Work>) -> AskResult
        ensures outcome { (name : NameParts) → IfSome work (λ w. w.snapshot.root ≡ name) → IsOutcomeIn (after self.now.entries) name answer →
            IsOutcomeIn (after self.now.entries) name result.outcome }
        ensures over { IfSome result.pieces (λ set. set.types ≡ self.now.shelf.types) }
        ensures fit { AreFitting self.now.shelf (rows_of result.pieces) }
    {
        match work {
            Some(work) => {
                if !work.has_pieces() {
                    return AskResult::without_pieces(answer);
                }
                match work.standing(&self.shelf) {
                    Ok(found) => found,
                    Err(_) => AskResult::without_pieces(answer),
                }
            }
            None => AskResult::without_pieces(answer),
        }
    }

    /// Returns the outcome of a name, for which no valid one is remembered: the work's own if its inputs are still stored, otherwise a new
    /// one, with the pieces that are not kept yet.
    fn found(
        &self,
        alloc: Global,
        name: &Name,
        work: Option<Work>,
        providers: &Providers,
    ) -> Result<AskResult, AllocError>
        requires { IfSome work (λ w. w.snapshot.root ≡ name.now) }
        ensures outcome { IfOk result (λ found. IsOutcomeIn (after self.now.entries) name.now found.outcome) }
        ensures over { IfOk result (λ found. IfSome found.pieces (λ set. set.types ≡ self.now.shelf.types)) }
        ensures fit { IfOk result (λ found. AreFitting self.now.shelf (rows_of found.pieces)) }
    {
        match work {
            Some(work) => match work.standing(&self.shelf) {
                Ok(found) => Ok(found),
                Err(pieces) => self.found_anew(alloc, name, pieces, providers),
            },
            None => self.found_anew(alloc, name, None, providers),
        }
    }

    /// Returns a new outcome of a name. Pieces that are passed in or kept are reused as far as they are valid.
    fn found_anew(
        &self,
        alloc: Global,
        name: &Name,
        pieces: Option<PieceSet>,
        providers: &Providers,
    ) -> Result<AskResult, AllocError>
        ensures outcome { IfOk result (λ found. IsOutcomeIn (after self.now.entries) name.now found.outcome) }
        ensures over { IfOk result (λ found. IfSome found.pieces (λ set. set.types ≡ self.now.shelf.types)) }
        ensures fit { IfOk result (λ found. AreFitting self.now.shelf (rows_of found.pieces)) }
    {
        let part = self.part(alloc, name)?;
        let begun = Begun::carrying(part, None);
        let with_pieces = begun.offer(pieces);
        with_pieces.find(alloc, providers)
    }

    /// Returns the outcome of each root that holds a body, in the order of their names, with the rows to remember and the pieces that are
    /// not kept yet. For each root one work on it is taken, as `outcome` takes one, in whatever order the works come. Any other work is
    /// dropped. Returns `AllocError` also if a provider does.
    pub(crate) fn outcomes(
        &self,
        alloc: Global,
        works: Vec<Work>,
        providers: &Providers,
    ) -> Result<ListingResult, AllocError>
        ensures listing { IfOk result (λ found. IsListing (after self.now.entries) found.listing.items) }
        ensures found { IfOk result (λ found. IsFoundAll self.now.shelf self.now.entries self.now.answers found.listing.items found.rows.items) }
        ensures fit { IfOk result (λ found. AreFitting self.now.shelf found.pieces.rows) }
    {
        let types = self.shelf.types().clone()?;
        let mut found = ListingResult::none(alloc, types);
        let mut works = in_reverse(works);
        let roots = self.shelf.roots(alloc)?;
        for name in &roots {
            let work = take_work(&mut works, name);
            self.push_outcome(alloc, &mut found, name, work, providers)?;
        }
        Ok(found)
    }

    /// Appends the outcome of a name that holds a body, the row to remember for it, if any, and the pieces that are not kept yet.
    fn push_outcome(
        &self,
        alloc: Global,
        found: &mut ListingResult,
        name: &Name,
        work: Option<Work>,
        providers: &Providers,
    ) -> Result<(), AllocError>
        requires held { IsSome (at_name self.now.shelf.places name.now) }
        requires work { IfSome work (λ w. w.snapshot.root ≡ name.now) }
        requires over { found.old.pieces.types ≡ self.now.shelf.types }
        requires fit { AreFitting self.now.shelf found.old.pieces.rows }
        requires found { IsFoundAll self.now.shelf self.now.entries self.now.answers found.old.listing.items found.old.rows.items }
        ensures listed { OnOk result (keys_of found.new.listing.items ≡ keys_of found.old.listing.items ++ name.now ∷ []) }
        ensures over { OnOk result (found.new.pieces.types ≡ self.now.shelf.types) }
        ensures fit { OnOk result (AreFitting self.now.shelf found.new.pieces.rows) }
        ensures found { OnOk result (IsFoundAll self.now.shelf self.now.entries self.now.answers found.new.listing.items found.new.rows.items) }
    {
        let NameResult {
            outcome,
            pieces,
            row,
        } = self.outcome(alloc, name, work, providers)?;
        push_row(&mut found.rows, row)?;
        push_pieces(&mut found.pieces, pieces)?;
        found.listing.push((*name, outcome))?;
        Ok(())
    }

    /// Returns the row to remember for an outcome of a name, if the name holds a body.
    fn row(
        &self,
        alloc: Global,
        name: &Name,
        outcome: &Shared<Outcome>,
    ) -> Result<Option<(Name, Remembered)>, AllocError>
        requires { IsOutcomeIn (after self.now.entries) name.now outcome.now }
        ensures row { IfOk result (λ row. ForSome row (λ r. (r.0 ≡ name.now) × IsRow self.now.shelf self.now.entries r.0 r.1)) }
        ensures recalls { IfOk result (Recalls self.now.shelf self.now.answers name.now outcome.now) }
    {
        if !self.shelf.is_held(name) {
            return Ok(None);
        }
        let row = self.remembered(alloc, name, outcome)?;
        Ok(Some((*name, row)))
    }

    /// Returns the row of an outcome, with the revisions of all that it depends on. Requires that the name holds a body.
    fn remembered(
        &self,
        alloc: Global,
        name: &Name,
        outcome: &Shared<Outcome>,
    ) -> Result<Remembered, AllocError>
        requires held { IsSome (at_name self.now.shelf.places name.now) }
        requires outcome { IsOutcomeIn (after self.now.entries) name.now outcome.now }
        ensures row { IfOk result (IsRow self.now.shelf self.now.entries name.now) }
        ensures outcome { IfOk result (λ row. row.outcome ≡ outcome.now) }
    {
        let names = self.shelf.used(alloc, &self.pieces, name)?;
        let outcome = outcome.clone()?;
        let row = Remembered::of(alloc, &self.shelf, &names, outcome)?;
        Ok(row)
    }

    /// Returns the number of entries that a session has.
    pub(crate) fn number(&self, session: u8) -> u32
        requires { session < MOST_SESSIONS }
        ensures { result ≡ count_of session self.now.entries }
    {
        self.counts[usize::from(session)]
    }

    /// Returns the revision that the next event gives to what it writes: the count of accepted writes with it.
    pub(crate) fn revision(&self, event: &Event) -> u32
        requires { length self.now.entries < self.now.capacity }
        ensures { result ≡ writes_after (writes_of self.now.entries) event.now }
    {
        writes_with(self.writes, event)
    }

    /// Remembers outcomes of names that hold a body. Requires room for them.
    pub(crate) fn remember(&mut self, rows: Vec<(Name, Remembered)>)
        requires room { length rows.items ≤ self.old.rows }
        requires rows { AreRows self.old.shelf self.old.entries rows.items }
        ensures same { SameButAnswers self.old self.new }
        ensures answers { self.new.answers ≡ remembering rows.items self.old.answers }
    {
        for (name, row) in rows {
            self.remember_one(name, row);
        }
    }

    /// Remembers an outcome of a name that holds a body. Requires room for it.
    fn remember_one(&mut self, name: Name, row: Remembered)
        requires room { 0 < self.old.rows }
        requires row { IsRow self.old.shelf self.old.entries name row }
        ensures same { SameButAnswers self.old self.new }
        ensures answers { self.new.answers ≡ insert_entry name_order self.old.answers name row }
        ensures room { self.old.rows ≤ self.new.rows + 1 }
    {
        self.memo.put(name, row);
    }

    /// Keeps these pieces, if there are any, each in place of one that was kept for its name. Requires that each was found from what is
    /// stored, which is not compared, and that there is room for them.
    pub(crate) fn keep(&mut self, pieces: Option<PieceSet>)
        requires fit { AreFitting self.old.shelf (rows_of pieces) }
        requires room { length (rows_of pieces) ≤ self.old.piece_room }
        ensures same { SameButPieces self.old self.new }
        ensures pieces { self.new.pieces ≡ pieces_with (rows_of pieces) self.old.pieces }
    {
        if let Some(set) = pieces {
            self.pieces.keep_all(set.into_rows());
        }
    }

    /// Makes room for an event's entry, for one body, and for at least this many answers and pieces, and makes the owners that its change
    /// brings. Returns the change. Returns `HistoryFull` exactly if the history is full, which is tested first, and otherwise `NoMemory` if
    /// out of memory. The ledger keeps what it has in each case.
    pub(crate) fn make_ready(
        &mut self,
        event: &Event,
        answers: usize,
        pieces: usize,
    ) -> Result<Change, Refusal>
        ensures same { SameLedger self.old self.new }
        ensures room { OnOk result ((0 < self.new.room) × (0 < self.new.places) × (answers ≤ self.new.rows) × (pieces ≤ self.new.piece_room)) }
        ensures change { IfOk result (λ change. change ≡ change_of event.now) }
        ensures ready { IfOk result (λ change. IsReady change self.new.ready) }
        ensures below { OnOk result (length self.old.entries < self.old.capacity) }
        ensures full { IfErr result (λ r. r ≡ Refusal.HistoryFull ↔ length self.old.entries ≡ self.old.capacity) }
    {
        self.has_room()?;
        self.history.reserve(1)?;
        self.shelf.reserve()?;
        self.memo.reserve(answers)?;
        self.pieces.reserve(pieces)?;
        let change = event.change()?;
        self.shelf.prepare(&change)?;
        Ok(change)
    }

    /// Adds the entry that comes next, given what it changes and the revision that it gives to what it writes. Pieces that the change makes
    /// wrong are dropped. Requires room for it.
    pub(crate) fn record(&mut self, entry: Entry, change: Change, revision: u32)
        requires session { entry.session < MOST_SESSIONS }
        requires room { (0 < self.old.room) × (0 < self.old.places) }
        requires below { length self.old.entries < self.old.capacity }
        requires next { MayComeNext self.old.entries entry }
        requires place { HasPlace (length self.old.shelf.places) entry.event }
        requires change { change ≡ change_of entry.event }
        requires ready { IsReady change self.old.ready }
        requires revision { revision ≡ writes_after (writes_of self.old.entries) entry.event }
        ensures same { self.new.capacity ≡ self.old.capacity }
        ensures entries { self.new.entries ≡ self.old.entries ++ entry ∷ [] }
        ensures shelf { self.new.shelf ≡ changed self.old.shelf change revision }
        ensures answers { self.new.answers ≡ kept_rows change self.old.answers }
        ensures pieces { self.new.pieces ≡ pieces_after change self.old.pieces }
        ensures legal { IsLegal self.new.entries }
    {
        self.writes = revision;
        forget_removed(&mut self.memo, &change);
        self.pieces.follow(&change);
        self.shelf.change(change, revision);
        self.counts[usize::from(entry.session)] = entry.number + 1;
        self.history.push_reserved(entry);
    }

    /// Consumes the ledger, and returns the history: all entries, in their order.
    pub(crate) fn into_history(self) -> Vec<Entry>
        ensures entries { result.items ≡ self.entries }
        ensures legal { IsLegal self.entries }
    {
        let Self {
            capacity: _,
            history,
            counts: _,
            writes: _,
            shelf: _,
            pieces: _,
            memo: _,
        } = self;
        history
    }
}

/// Returns the count of accepted writes after one more event.
fn writes_with(count: u32, event: &Event) -> u32
    requires { count + 1 < 2 ^ 32 }
    ensures { result ≡ writes_after count event.now }
{
    if event.writes() { count + 1 } else { count }
}

/// Forgets what is remembered for a name whose body is removed.
fn forget_removed(memo: &mut Memo, change: &Change)
    ensures { memo.new.rows ≡ kept_rows change.now memo.old.rows }
{
    match change {
        Change::Remove(name) => memo.forget(name),
        Change::Types(_)
        | Change::Put(_, _)
        | Change::Answer(_, _)
        | Change::Answers(_)
        | Change::Nothing => {}
    }
}
