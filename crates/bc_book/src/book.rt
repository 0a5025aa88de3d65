//! The book: all that is under the lock, which is the ledger and the writer that publishes it.
ghost use Rattle.std.specs.Prelude.{◌≡◌, ◌<◌, ◌^◌, None, [], List, length, IfOk, IfSome, IfErr, MatchResult, OnErr, OnOk};
ghost use Rattle.bc_prov.specs.Outcome.{IsOutcomeIn};
ghost use Rattle.bc_prov.specs.Pieces.{rows_of};
ghost use Rattle.bc_prov.specs.Snapshots.{IsPartOf};
ghost use Rattle.bc_memo.specs.Memos.{IsRemembered};
ghost use Rattle.bc_memo.specs.Places.{AreFitting, changed, pieces_after, pieces_with};
ghost use Rattle.bc_calls.specs.Calls.{IsLegal, IsReply, MayComeNext, after};
ghost use Rattle.bc_calls.specs.Changes.{change_of, writes_after, writes_of};
ghost use Rattle.bc_versions.specs.Tables.{pressed};
ghost use Rattle.bc_names.specs.Names.{NameParts};
ghost use Rattle.bc_prov.specs.State.{at_name};
ghost use Rattle.bc_calls.specs.declared.call.Event.TheVariants as events;
ghost use Rattle.bc_book.specs.Ledgers.{Appends, AreRows, HasPlace, IsFull, Keeps, KeepsOthers, KeepsUnasked, Remembers, RemembersEach, empty_book, kept_rows, remembering};

use crate::ledger::{Ledger, MOST_SESSIONS, Refusal};
use crate::operation::EnteredCall;
use crate::roots::{ListingResult, NameResult, count_pieces, push_row};
use bc_calls::{Begun, Entry, Event, EventOwners, PutReply, RemoveReply, Work, no_declarations};
use bc_memo::Remembered;
use bc_names::Name;
use bc_prov::{Declared, Listing, Outcome, PieceSet, Providers, Shared, share};
use bc_syntax::{Sequence, Unit};
use bc_versions::{Ending, Fronts, Press, Update};
use std::alloc::{AllocError, Global};
use std::marker::Model;
use std::sync::Wait;

/// What an ask leaves besides its entry: outcomes to remember, and pieces to keep and to publish.
#[derive(Drop)]
struct SideEffects {
    rows: Vec<(Name, Remembered)>,
    pieces: Option<PieceSet>,
}

impl SideEffects {
    /// Returns no side effects.
    fn none(alloc: Global) -> SideEffects
        ensures rows { result.rows.items ≡ [] }
        ensures pieces { result.pieces ≡ None }
    {
        SideEffects {
            rows: Vec::new(alloc),
            pieces: None,
        }
    }
}

/// Returns one more owner of each piece of a set, if there is one.
fn copy_of(alloc: Global, pieces: &Option<PieceSet>) -> Result<Option<PieceSet>, AllocError>
    ensures { IfOk result (λ copy. copy ≡ pieces.now) }
{
    match pieces {
        Some(set) => {
            let copy = set.copy(alloc)?;
            Ok(Some(copy))
        }
        None => Ok(None),
    }
}

/// Publishes one more owner of the entry that comes next, and of the pieces that come with it, as `Press::add` does. If it returns
/// `AllocError`, nothing is published.
fn publish<E: Ending, R: Wait>(
    rt: &R,
    alloc: Global,
    press: &mut Press<E>,
    entry: &Entry,
    revision: u32,
    pieces: &Option<PieceSet>,
) -> Result<(), AllocError>
    requires next { MayComeNext press.old.entries entry.now }
    requires pieces { AreFitting (changed press.old.shelf (change_of entry.now.event) revision) (rows_of pieces.now) }
    ensures { MatchResult result (λ _. press.new ≡ pressed press.old (record { entry = entry.now; revision = revision })) (λ _. press.new ≡ press.old) }
{
    let owned = copy_of(alloc, pieces)?;
    let copy = entry.copy()?;
    press.add(rt, Update::new(copy, revision, owned))
}

/// The state under the lock: the append-only history of all calls, what is stored after it, the remembered outcomes, and the writer of the
/// published table. A contract sees how many entries there may be, the entries, what is stored, what is remembered, and the kept pieces.
/// The type guarantees that the writer has published these entries, and what is stored with its revisions and answers.
pub struct Book<E: Ending> {
    ledger: Ledger,
    press: Press<E>,
}

// Handwritten, so that it is proved once: the crates above only call it.
impl<E: Ending> Drop for Book<E> {
    fn drop(self) {
        let Self {
            ledger: _,
            press: _,
        } = self;
    }
}

impl<E: Ending> Model for Book<E> {
    ghost use Rattle.std.specs.Prelude.{◌≡◌};
    ghost use Rattle.bc_book.specs.Ledgers.{BookView};

    ghost Value = { BookView };

    ghost view = { λ b. record {
      capacity = b.ledger.capacity;
      entries = b.ledger.entries;
      shelf = b.ledger.shelf;
      answers = b.ledger.answers;
      pieces = b.ledger.pieces;
    } };

    ghost invariant = { λ b. b.press ≡ record { entries = b.ledger.entries; shelf = b.ledger.shelf } };
}

impl<E: Ending> Book<E> {
    /// Opens a book without entries, with no declaration and no body. It may have at most `capacity` entries, and at most `readers` readers
    /// of what it publishes. `ending` ends its writer.
    pub fn new(
        alloc: Global,
        ending: E,
        capacity: u32,
        readers: usize,
    ) -> Result<Book<E>, AllocError>
        requires { (0 < readers) × (readers < 2 ^ 32) }
        ensures { IfOk result (λ book. book ≡ empty_book capacity) }
    {
        let ledger = Ledger::new(alloc, capacity)?;
        let first = no_declarations(alloc)?;
        let second = no_declarations(alloc)?;
        Ok(Book {
            ledger,
            press: Press::open(alloc, ending, first, second, readers)?,
        })
    }

    /// Returns the maker of the readers of what is published. Returns `AllocError` if it has too many owners.
    pub fn fronts(&self) -> Result<Fronts, AllocError> {
        self.press.fronts()
    }

    /// Stores declarations in place of those before, as a call of a session. They are already checked, since that takes memory and time.
    /// Publishes the entry, and waits for those who still read what was published before.
    ///
    /// Returns `HistoryFull` exactly if the history has as many entries as it may have, which is tested first, and otherwise `NoMemory` if
    /// out of memory. Then nothing has changed.
    pub fn put_types<R: Wait>(
        &mut self,
        rt: &R,
        alloc: Global,
        session: u8,
        types: Shared<Declared>,
    ) -> Result<EnteredCall<()>, Refusal>
        requires session { session < MOST_SESSIONS }
        ensures step { IfOk result (λ entered. (entered.owners ≡ Event.Types types) × Appends session entered.owners self.old self.new) }
        ensures answers { IfOk result (λ entered. Keeps entered.owners self.old self.new) }
        ensures refused { OnErr result (self.new ≡ self.old) }
        ensures full { IfErr result (IsFull self.old) }
        ensures below { OnOk result (length self.old.entries < self.old.capacity) }
    {
        let effects = SideEffects::none(alloc);
        let owners = self.append(rt, alloc, session, Event::Types(types), effects)?;
        Ok(EnteredCall { owners, reply: () })
    }

    /// Stores a unit under a name, as a call of a session, if the reply says so: `WrongKind` if the unit does not suit the name (a function
    /// needs a root, a closure any other name, and a unit with a child fewer than seven segments), otherwise `Full` if the name is new and
    /// `MOST_BODIES` bodies are stored, otherwise `Replaced` or `Added`. Publishes and fails as `put_types` does.
    pub fn put<R: Wait>(
        &mut self,
        rt: &R,
        alloc: Global,
        session: u8,
        name: Name,
        unit: Shared<Unit>,
    ) -> Result<EnteredCall<PutReply>, Refusal>
        requires session { session < MOST_SESSIONS }
        ensures step { IfOk result (λ entered. (entered.owners ≡ Event.Put name unit entered.reply) × Appends session entered.owners self.old self.new) }
        ensures answers { IfOk result (λ entered. Keeps entered.owners self.old self.new) }
        ensures refused { OnErr result (self.new ≡ self.old) }
        ensures full { IfErr result (IsFull self.old) }
        ensures below { OnOk result (length self.old.entries < self.old.capacity) }
    {
        self.ledger.has_room()?;
        let reply = self.ledger.put_reply(alloc, &name, unit.get())?;
        let effects = SideEffects::none(alloc);
        let event = Event::Put(name, unit, reply);
        let owners = self.append(rt, alloc, session, event, effects)?;
        Ok(EnteredCall { owners, reply })
    }

    /// Removes the unit of a name, as a call of a session, and replies `Removed`, or `Absent` if the name holds none. Publishes and fails
    /// as `put_types` does.
    pub fn remove<R: Wait>(
        &mut self,
        rt: &R,
        alloc: Global,
        session: u8,
        name: Name,
    ) -> Result<EnteredCall<RemoveReply>, Refusal>
        requires session { session < MOST_SESSIONS }
        ensures step { IfOk result (λ entered. (entered.owners ≡ Event.Remove name entered.reply) × Appends session entered.owners self.old self.new) }
        ensures answers { IfOk result (λ entered. Keeps entered.owners self.old self.new) }
        ensures refused { OnErr result (self.new ≡ self.old) }
        ensures full { IfErr result (IsFull self.old) }
        ensures below { OnOk result (length self.old.entries < self.old.capacity) }
    {
        let reply = self.ledger.remove_reply(&name);
        let effects = SideEffects::none(alloc);
        let owners = self.append(rt, alloc, session, Event::Remove(name, reply), effects)?;
        Ok(EnteredCall { owners, reply })
    }

    /// Returns the part of what is stored that the outcome of a name depends on: the declarations, and the units at the name and at names
    /// that begin with it and `/`, with their revisions. It carries the outcome that is remembered for the name, if that is still valid.
    /// Nothing is entered.
    ///
    /// Only tests and benchmarks of this repository call it: a session begins at the published table, without the lock.
    pub fn snapshot(&self, alloc: Global, name: &Name) -> Result<Begun, AllocError>
        ensures part { IfOk result (λ begun. IsPartOf begun name.now (after self.now.entries)) }
        ensures remembered { IfOk result (λ begun. IsRemembered self.now.shelf self.now.answers name.now begun.carried) }
        ensures right { IfOk result (λ begun. IfSome begun.carried (IsOutcomeIn (after self.now.entries) name.now)) }
        ensures legal { OnOk result (IsLegal self.now.entries) }
    {
        self.ledger.begin(alloc, name)
    }

    /// Enters an ask of the name of a work, as a call of a session, and replies with the name's outcome. This is the work's own outcome if
    /// its declarations and units are still stored, with the same revisions, otherwise the remembered one if that is still valid. Otherwise
    /// the pieces of the work and the kept ones are reused as far as they are valid, and the providers work on the other bodies. If the
    /// work has no pieces, the remembered outcome comes first: it is the same. The outcome of a name that holds a body is remembered, and
    /// published with the entry, and so are the pieces; that of any other name is not remembered. Publishes and fails as `put_types` does,
    /// and returns `NoMemory` also if a provider runs out of memory.
    pub fn settle<R: Wait>(
        &mut self,
        rt: &R,
        alloc: Global,
        session: u8,
        work: Work,
        providers: &Providers,
    ) -> Result<EnteredCall<Shared<Outcome>>, Refusal>
        requires session { session < MOST_SESSIONS }
        ensures step { IfOk result (λ entered. (entered.owners ≡ Event.Ask work.snapshot.root entered.reply) ×
            Appends session entered.owners self.old self.new × Remembers work.snapshot.root entered.reply self.new) }
        ensures others { OnOk result (KeepsOthers work.snapshot.root self.old self.new) }
        ensures absent { OnOk result (at_name self.old.shelf.places work.snapshot.root ≡ None → self.new.answers ≡ self.old.answers) }
        ensures refused { OnErr result (self.new ≡ self.old) }
        ensures full { IfErr result (IsFull self.old) }
        ensures below { OnOk result (length self.old.entries < self.old.capacity) }
    {
        self.ledger.has_room()?;
        let name = *work.name();
        let NameResult {
            outcome,
            pieces,
            row,
        } = self.ledger.outcome(alloc, &name, Some(work), providers)?;
        let mut rows = Vec::new(alloc);
        push_row(&mut rows, row)?;
        let reply = outcome.clone()?;
        let effects = SideEffects { rows, pieces };
        let owners = self.append(rt, alloc, session, Event::Ask(name, outcome), effects)?;
        Ok(EnteredCall { owners, reply })
    }

    /// Enters an ask for all, as a call of a session, and replies with the outcome of each root that holds a body, in the order of their
    /// names. Each is the one that `settle` would reply to an ask of that name, with a work on it if there is one. Works may come in any
    /// order, and may be on names that are no such roots, or from another database. Of several on one name one is taken, and the others are
    /// dropped. All outcomes are remembered, and published with the one entry, and so are the pieces. Publishes and fails as `settle` does.
    pub fn settle_all<R: Wait>(
        &mut self,
        rt: &R,
        alloc: Global,
        session: u8,
        works: Vec<Work>,
        providers: &Providers,
    ) -> Result<EnteredCall<Shared<Listing>>, Refusal>
        requires session { session < MOST_SESSIONS }
        ensures step { IfOk result (λ entered. (entered.owners ≡ events.All entered.reply) ×
            Appends session entered.owners self.old self.new × RemembersEach self.new.shelf self.new.answers entered.reply) }
        ensures others { IfOk result (λ entered. KeepsUnasked entered.owners self.old self.new) }
        ensures refused { OnErr result (self.new ≡ self.old) }
        ensures full { IfErr result (IsFull self.old) }
        ensures below { OnOk result (length self.old.entries < self.old.capacity) }
    {
        self.ledger.has_room()?;
        let ListingResult {
            listing,
            rows,
            pieces,
        } = self.ledger.outcomes(alloc, works, providers)?;
        let listing = share(alloc, Sequence::from(listing))?;
        let reply = listing.clone()?;
        let effects = SideEffects {
            rows,
            pieces: Some(pieces),
        };
        let owners = self.append(rt, alloc, session, Event::All(listing), effects)?;
        Ok(EnteredCall { owners, reply })
    }

    /// Adds a session's event, publishes it, remembers outcomes and keeps pieces, if there are any. Requires that the event has the right
    /// reply for what is stored, and that the pieces fit what is stored and what the event leaves of it. The capacity is tested first, and
    /// all that can fail comes next, the writer's own room last. So if it fails, nothing has changed. Returns two more owners of the event.
    fn append<R: Wait>(
        &mut self,
        rt: &R,
        alloc: Global,
        session: u8,
        event: Event,
        effects: SideEffects,
    ) -> Result<EventOwners, Refusal>
        requires session { session < MOST_SESSIONS }
        requires reply { IsReply (after self.old.entries) event }
        requires place { HasPlace (length self.old.shelf.places) event }
        requires rows { AreRows self.old.shelf self.old.entries effects.rows.items }
        requires fit { AreFitting self.old.shelf (rows_of effects.pieces) }
        requires published { AreFitting (changed self.old.shelf (change_of event) (writes_after (writes_of self.old.entries) event))
            (rows_of effects.pieces) }
        ensures told { IfOk result (λ told. told ≡ event) }
        ensures step { OnOk result (Appends session event self.old self.new) }
        ensures answers { OnOk result (self.new.answers ≡ kept_rows (change_of event) (remembering effects.rows.items self.old.answers)) }
        ensures pieces { OnOk result (self.new.pieces ≡ pieces_after (change_of event) (pieces_with (rows_of effects.pieces) self.old.pieces)) }
        ensures refused { OnErr result (self.new ≡ self.old) }
        ensures full { IfErr result (IsFull self.old) }
        ensures below { OnOk result (length self.old.entries < self.old.capacity) }
    {
        let SideEffects { rows, pieces } = effects;
        let count = count_pieces(&pieces);
        let change = self.ledger.make_ready(&event, rows.len(), count)?;
        let told = EventOwners::of(&event)?;
        let number = self.ledger.number(session);
        let revision = self.ledger.revision(&event);
        let entry = Entry {
            session,
            number,
            event,
        };
        // Published before it is stored, since publishing can fail. Nobody sees the order: both happen under the lock.
        publish(rt, alloc, &mut self.press, &entry, revision, &pieces)?;
        self.ledger.keep(pieces);
        self.ledger.remember(rows);
        self.ledger.record(entry, change, revision);
        Ok(told)
    }

    /// Consumes the book, and returns the history: all entries, in their order.
    pub fn into_history(self) -> Vec<Entry>
        ensures entries { result.items ≡ self.entries }
        ensures legal { IsLegal self.entries }
    {
        let Book { ledger, press: _ } = self;
        ledger.into_history()
    }
}
