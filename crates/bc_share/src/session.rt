//! What one session does, and its own list of that.
ghost use Rattle.std.specs.Prelude.{◌≡◌, ◌↔◌, ◌<◌, [], IfOk, IsTrue, OnOk, OnErr, length};
ghost use Rattle.std.specs.Arc.{arc_value};
ghost use Rattle.std.specs.Option.{option_map};
ghost use Rattle.bc_prov.specs.Snapshots.{IsPartOf};
ghost use Rattle.bc_calls.specs.declared.call.Event.TheVariants as events;
ghost use Rattle.bc_calls.specs.Answers.{IsAnswer};
ghost use Rattle.bc_calls.specs.Beginnings.{AreAllBegun};
ghost use Rattle.bc_calls.specs.Calls.{after, calls};
ghost use Rattle.bc_book.specs.declared.ledger.TheConstants.{MOST_SESSIONS};
ghost use Rattle.bc_share.specs.Sessions.{IsAnswered, Stays, new_session};

use crate::desk::{Desk, MadeCall};
use crate::notes::Notes;
use crate::works::work_all;
use bc_book::{Enter, Operation, Put, Refusal, Remove, Settle, SettleAll};
use bc_calls::{Begun, Entry, PutReply, RemoveReply, Work, checked};
use bc_names::Name;
use bc_prov::{Listing, Outcome, Providers, Shared};
use bc_syntax::{Types, Unit};
use bc_versions::{Ending, Front};
use std::alloc::{AllocError, Global};
use std::marker::Model;
use std::sync::{Arc, Wait};

/// One session of a database. It makes calls, keeps its own list of them and their replies, and reads what is published. It may move from
/// thread to thread, and the other sessions of its database make their calls meanwhile. A contract sees its number, the tag of its
/// database, that list, and the entries that it has seen: a beginning of what was published, which only grows.
pub struct Session<E: Ending> {
    alloc: Global,
    notes: Notes,
    desk: Arc<Desk<E>, Global>,
}

// Handwritten, so that it is proved once: the crates above only call it.
impl<E: Ending> Drop for Session<E> {
    fn drop(self) {
        let Self {
            alloc: _,
            notes: _,
            desk: _,
        } = self;
    }
}

impl<E: Ending> Model for Session<E> {
    ghost use Rattle.bc_share.specs.Sessions.{SessionView};

    ghost Value = { SessionView };

    ghost view = { λ s. s.notes.session };
}

impl<E: Ending> Session<E> {
    /// Returns a session that has made no call and seen nothing.
    pub(crate) fn new(
        alloc: Global,
        desk: Arc<Desk<E>, Global>,
        tag: u64,
        number: u8,
        front: Front,
    ) -> Session<E>
        requires range { number < MOST_SESSIONS }
        requires nothing { front ≡ [] }
        ensures { result ≡ new_session tag number }
    {
        Session {
            alloc,
            notes: Notes::new(alloc, tag, number, front),
            desk,
        }
    }

    /// Stores declarations in place of those before. Each later ask is answered over them. They may be bad: an ask reports it.
    ///
    /// The declarations are checked, and room in the session's own list is made, before the lock is taken. The call returns once the
    /// session has read its own entry. Returns `HistoryFull` only if the history is full, after which no call is accepted, or if the
    /// database is closed, and `NoMemory` only if out of memory. The session's own list and the history are then as they were.
    pub fn put_types<R: Wait>(&mut self, rt: &R, types: Arc<Types, Global>) -> Result<(), Refusal>
        ensures told { OnOk result (IsAnswered (events.Types (arc_value types)) self.old self.new) }
        ensures refused { OnErr result (Stays self.old self.new) }
    {
        // Before the check, which would be in vain without room for the call.
        self.notes.reserve()?;
        let types = Operation::Types(checked(self.alloc, Shared::new(types))?);
        self.desk.enter(rt, self.alloc, &mut self.notes, types)?;
        Ok(())
    }

    /// Stores a unit under a name.
    ///
    /// Replies `WrongKind` if the unit does not suit the name, otherwise `Full` if the name is new and `MOST_BODIES` bodies are stored,
    /// otherwise `Replaced` or `Added`. Room in the session's own list is made first. Fails as `put_types` does.
    pub fn put<R: Wait>(
        &mut self,
        rt: &R,
        name: Name,
        unit: Arc<Unit, Global>,
    ) -> Result<PutReply, Refusal>
        ensures told { IfOk result (λ reply. IsAnswered (events.Put name (arc_value unit) reply) self.old self.new) }
        ensures refused { OnErr result (Stays self.old self.new) }
    {
        let unit = Shared::new(unit);
        let made = self.make(rt, Put { name, unit })?;
        Ok(made.reply)
    }

    /// Removes the unit of a name, and replies `Removed`, or `Absent` if the name holds none. Room in the session's own list is made first.
    /// Fails as `put_types` does.
    pub fn remove<R: Wait>(&mut self, rt: &R, name: Name) -> Result<RemoveReply, Refusal>
        ensures told { IfOk result (λ reply. IsAnswered (events.Remove name reply) self.old self.new) }
        ensures refused { OnErr result (Stays self.old self.new) }
    {
        let made = self.make(rt, Remove { name })?;
        Ok(made.reply)
    }

    /// Returns a consistent snapshot of one name and its closures, taken without the lock. Pass it to `work`, then to `settle`. It carries
    /// the name's answer if one is published. This is no call: the session's own list is unchanged. It waits for nobody. Returns
    /// `AllocError` also if the reading fails, as it does once the database is closed.
    pub fn begin(&mut self, name: &Name) -> Result<Begun, AllocError>
        ensures kept { Stays self.old self.new }
        ensures part { IfOk result (λ begun. IsPartOf begun name.now (after self.new.seen)) }
        ensures answer { IfOk result (λ begun. IsAnswer self.new.seen name.now begun.carried) }
    {
        self.notes.begin(self.alloc, name)
    }

    /// Returns a snapshot, as `begin` does, of each root that holds a body, in the order of the names. Pass them to `work_all`, then to
    /// `settle_all`. Each carries its name's answer if one is published. All come from one reading. This is no call: the session's own list
    /// is unchanged. It waits for nobody. Returns `AllocError` also if the reading fails, as it does once the database is closed.
    pub fn begin_all(&mut self) -> Result<Vec<Begun>, AllocError>
        ensures kept { Stays self.old self.new }
        ensures parts { IfOk result (λ begun. AreAllBegun self.new.seen begun.items) }
    {
        self.notes.begin_all(self.alloc)
    }

    /// Returns the answer that is published for a name, if there is one: the outcome of what is stored, if the name holds a body, and was
    /// asked for since declarations were last stored and since it or a name that begins with it and `/` was last written. This is no call:
    /// the session's own list is unchanged. It waits for nobody. Returns `AllocError` if the reading fails, as it does once the database is
    /// closed, or if the answer has too many owners.
    pub fn glance(&mut self, name: &Name) -> Result<Option<Arc<Outcome, Global>>, AllocError>
        ensures kept { Stays self.old self.new }
        ensures answer { IfOk result (λ answer. IsAnswer self.new.seen name.now (option_map arc_value answer)) }
    {
        match self.notes.glance(name)? {
            Some(outcome) => Ok(Some(outcome.into_arc())),
            None => Ok(None),
        }
    }

    /// Asks for the name of a work, and returns its outcome for what is stored now. This is the work's own outcome or the remembered one if
    /// that is still valid. Otherwise it is worked out again (its errors by RFC 2094, "Borrow checker phase 2" and "Named lifetimes"). The
    /// work may be from another database.
    ///
    /// Room in the session's own list is made first. Fails as `put_types` does, and returns `NoMemory` also if a provider runs out of
    /// memory. The work is then gone.
    pub fn settle<R: Wait>(
        &mut self,
        rt: &R,
        work: Work,
        providers: &Providers,
    ) -> Result<Arc<Outcome, Global>, Refusal>
        ensures told { IfOk result (λ outcome. IsAnswered (events.Ask work.snapshot.root (arc_value outcome)) self.old self.new) }
        ensures refused { OnErr result (Stays self.old self.new) }
    {
        let made = self.make(rt, Settle { work, providers })?;
        Ok(made.reply.into_arc())
    }

    /// Asks whether the body under a name is borrow-correct now, and returns the outcome of what the name holds, over the stored
    /// declarations: their first bad one, `NoBody`, `Missing`, `Ill`, or the errors of the body and of its closures (RFC 2094, "Borrow
    /// checker phase 2" and "Named lifetimes"). A snapshot is begun and worked on without the lock, then settled.
    ///
    /// Fails as `settle` does, and returns `NoMemory` also if the reading fails, as it does once the database is closed.
    pub fn ask<R: Wait>(
        &mut self,
        rt: &R,
        name: &Name,
        providers: &Providers,
    ) -> Result<Arc<Outcome, Global>, Refusal>
        ensures told { IfOk result (λ outcome. IsAnswered (events.Ask name.now (arc_value outcome)) self.old self.new) }
        ensures refused { OnErr result (Stays self.old self.new) }
    {
        let begun = self.begin(name)?;
        let work = begun.work(self.alloc, providers)?;
        self.settle(rt, work, providers)
    }

    /// Asks for all roots that hold a body, with works on some of them, and returns the outcome of each, in the order of the names. Each is
    /// the one that `settle` would return for that name, with a work on it if there is one (its errors by RFC 2094, "Borrow checker phase
    /// 2" and "Named lifetimes"). The works may come in any order, and from another database. Of several on one name one is taken; the
    /// others, and those on names that are not listed, are dropped.
    ///
    /// This is one call, and replies for each listed name as an ask of that name does. Room in the session's own list is made first. Fails
    /// as `settle` does. The works are then gone.
    pub fn settle_all<R: Wait>(
        &mut self,
        rt: &R,
        works: Vec<Work>,
        providers: &Providers,
    ) -> Result<Arc<Listing, Global>, Refusal>
        ensures told { IfOk result (λ listing. IsAnswered (events.All (arc_value listing)) self.old self.new) }
        ensures refused { OnErr result (Stays self.old self.new) }
    {
        let made = self.make(rt, SettleAll { works, providers })?;
        Ok(made.reply.into_arc())
    }

    /// Asks which bodies are borrow-correct now, and returns the outcome of each root that holds a body, in the order of the names, each as
    /// `ask` returns it. The snapshots come from one reading, are worked on without the lock, and are then settled. Roots that were written
    /// meanwhile, and new ones, are worked on under the lock.
    ///
    /// Fails as `settle_all` does, and returns `NoMemory` also if the reading fails, as it does once the database is closed.
    pub fn ask_all<R: Wait>(
        &mut self,
        rt: &R,
        providers: &Providers,
    ) -> Result<Arc<Listing, Global>, Refusal>
        ensures told { IfOk result (λ listing. IsAnswered (events.All (arc_value listing)) self.old self.new) }
        ensures refused { OnErr result (Stays self.old self.new) }
    {
        let begun = self.begin_all()?;
        let works = work_all(self.alloc, begun, providers)?;
        self.settle_all(rt, works, providers)
    }

    /// Makes a call, and returns its number, the call with its reply, and the reply by itself. The other calls are this one with one
    /// operation each, but `put_types` checks the declarations once there is room. Work for an Ask is done before, with no lock held
    /// (`begin`, `begin_all`).
    ///
    /// Room in the session's own list is made first. Returns `HistoryFull` only if the history is full or the database is closed, and
    /// `NoMemory` only if out of memory, as a provider may report too. The session's own list and the history are then as they were, and
    /// the work is gone.
    pub fn make<R: Wait, O: Enter>(
        &mut self,
        rt: &R,
        operation: O,
    ) -> Result<MadeCall<O::Reply>, Refusal>
        ensures made { IfOk result (λ made. O.becomes operation made.event made.reply × IsAnswered made.event self.old self.new) }
        ensures number { IfOk result (λ made. made.number ≡ length self.old.own) }
        ensures refused { OnErr result (Stays self.old self.new) }
    {
        // Before the lock is taken: a call without room returns `NoMemory` even if the history is full.
        self.notes.reserve()?;
        self.desk.enter(rt, self.alloc, &mut self.notes, operation)
    }

    /// Returns the tag of the session's database.
    pub fn tag(&self) -> u64
        ensures { result ≡ self.now.tag }
    {
        self.notes.tag()
    }

    /// Returns the session's number among those of its database, from 0.
    pub fn number(&self) -> u8
        ensures value { result ≡ self.now.number }
        ensures range { self.now.number < MOST_SESSIONS }
    {
        self.notes.number()
    }

    /// Returns whether the session's own list is exactly its events in a history.
    pub(crate) fn agrees(&self, entries: &[Entry]) -> bool
        ensures { IsTrue result ↔ (self.now.own ≡ calls self.now.number entries.now) }
    {
        self.notes.agrees(entries)
    }
}
