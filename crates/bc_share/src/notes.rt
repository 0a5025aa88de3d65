//! What a session notes: its own list of calls, and what it has seen of what is published. The two belong together, so only this file
//! changes them, and the desk is passed them alone: under the lock nothing else of a session is at hand.
ghost use Rattle.std.specs.Prelude.{◌≡◌, ◌↔◌, ◌<◌, IfOk, IsTrue, OnOk, [], length};
ghost use Rattle.bc_book.specs.declared.ledger.TheConstants.{MOST_SESSIONS};
ghost use Rattle.bc_prov.specs.Snapshots.{IsPartOf};
ghost use Rattle.bc_calls.specs.Answers.{IsAnswer};
ghost use Rattle.bc_calls.specs.Beginnings.{AreAllBegun};
ghost use Rattle.bc_calls.specs.Calls.{after, calls};
ghost use Rattle.bc_share.specs.Sessions.{IsAnswered, Stays, new_session};

use crate::audit::is_own;
use bc_calls::{Begun, Entry, Event};
use bc_names::Name;
use bc_prov::{Outcome, Shared};
use bc_versions::Front;
use std::alloc::{AllocError, Global};
use std::marker::Model;
use std::sync::Wait;

/// A session's own list of calls, with its reader of what is published. A contract sees the session, and for how many more calls the list
/// has room. The type guarantees that what the session has seen is legal, and that up to some entry its calls there are its own list.
pub(crate) struct Notes {
    tag: u64,
    number: u8,
    own: Vec<Event>,
    front: Front,
}

impl Drop for Notes {
    fn drop(self) {
        let Self {
            tag: _,
            number: _,
            own: _,
            front: _,
        } = self;
    }
}

impl Model for Notes {
    ghost use Rattle.std.specs.Prelude.{◌-◌, vec_capacity};
    ghost use Rattle.bc_share.specs.Sessions.{IsNoted, NotesView};

    ghost Value = { NotesView };

    ghost view = { λ n. record {
      session = record { tag = n.tag; number = n.number; own = n.own.items; seen = n.front };
      room = vec_capacity n.own - n.own.len;
    } };

    ghost invariant = { λ n. IsNoted n.number n.own.items n.front };
}

impl Notes {
    /// Returns the notes of a session that has made no call and seen nothing.
    pub(crate) fn new(alloc: Global, tag: u64, number: u8, front: Front) -> Notes
        requires range { number < MOST_SESSIONS }
        requires nothing { front ≡ [] }
        ensures { result.session ≡ new_session tag number }
    {
        Notes {
            tag,
            number,
            own: Vec::new(alloc),
            front,
        }
    }

    /// Returns the number of calls that the session has made.
    pub(crate) fn count(&self) -> usize
        ensures { result ≡ length self.now.session.own }
    {
        self.own.len()
    }

    /// Makes room for one call in the session's own list.
    pub(crate) fn reserve(&mut self) -> Result<(), AllocError>
        ensures kept { Stays self.old.session self.new.session }
        ensures room { OnOk result (0 < self.new.room) }
    {
        self.own.reserve(1)
    }

    /// Reads until the last published entry is this event, as the session's next call, and adds the event to the session's own list.
    pub(crate) fn note<R: Wait>(&mut self, rt: &R, event: Event)
        requires { 0 < self.old.room }
        ensures { IsAnswered event self.old.session self.new.session }
    {
        self.front.reach(rt, self.number, self.own.len(), &event);
        self.own.push_reserved(event);
    }

    /// Returns a name's part of what is published. Returns `AllocError` also if the reading fails.
    pub(crate) fn begin(&mut self, alloc: Global, name: &Name) -> Result<Begun, AllocError>
        ensures kept { Stays self.old.session self.new.session }
        ensures part { IfOk result (λ begun. IsPartOf begun name.now (after self.new.session.seen)) }
        ensures answer { IfOk result (λ begun. IsAnswer self.new.session.seen name.now begun.carried) }
    {
        self.front.begin(alloc, name)
    }

    /// Returns the parts of all roots that hold a body, in the order of the names, from one reading. Returns `AllocError` also if the
    /// reading fails.
    pub(crate) fn begin_all(&mut self, alloc: Global) -> Result<Vec<Begun>, AllocError>
        ensures kept { Stays self.old.session self.new.session }
        ensures parts { IfOk result (λ begun. AreAllBegun self.new.session.seen begun.items) }
    {
        self.front.begin_all(alloc)
    }

    /// Returns the answer that is published for a name, if there is one. Returns `AllocError` if the reading fails, or if the answer has
    /// too many owners.
    pub(crate) fn glance(&mut self, name: &Name) -> Result<Option<Shared<Outcome>>, AllocError>
        ensures kept { Stays self.old.session self.new.session }
        ensures answer { IfOk result (IsAnswer self.new.session.seen name.now) }
    {
        self.front.glance(name)
    }

    /// Returns the tag of the session's database.
    pub(crate) fn tag(&self) -> u64
        ensures { result ≡ self.now.session.tag }
    {
        self.tag
    }

    /// Returns the session's number among those of its database.
    pub(crate) fn number(&self) -> u8
        ensures value { result ≡ self.now.session.number }
        ensures range { self.now.session.number < MOST_SESSIONS }
    {
        self.number
    }

    /// Returns whether the session's own list is exactly its events in a history.
    pub(crate) fn agrees(&self, entries: &[Entry]) -> bool
        ensures { IsTrue result ↔ (self.now.session.own ≡ calls self.now.session.number entries.now) }
    {
        is_own(&self.own, self.number, entries)
    }
}
