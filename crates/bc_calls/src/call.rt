//! Calls, calls with their replies, and the entries of a history.
ghost use Rattle.std.specs.Prelude.{◌≡◌, ◌↔◌, IfOk, IsTrue};
ghost use Rattle.bc_calls.specs.Calls.{stores, takes};
ghost use Rattle.bc_calls.specs.Changes.{change_of, writes};

use bc_memo::Change;
use bc_names::Name;
use bc_prov::{Declared, Listing, Outcome, Shared};
use bc_syntax::{Types, Unit};
use std::alloc::AllocError;

/// The most bodies that a database stores.
pub const MOST_BODIES: usize = 1024;

/// A call of a session: it stores declarations in place of those before, puts a unit under a name, removes the unit of a name, asks for the
/// outcome of a name, or asks for the outcomes of all roots that hold a body.
#[derive(Drop)]
pub enum Call {
    Types(Shared<Types>),
    // Shared: scripts are lent to threads, so a put makes one more owner of its unit.
    Put(Name, Shared<Unit>),
    Remove(Name),
    Ask(Name),
    All,
}

/// The reply to a put. The body is new, or it replaces another; or the name is new and `MOST_BODIES` bodies are stored; or the unit does
/// not suit the name. The last two store nothing.
#[derive(Clone, Copy, Debug, PartialEq, Eq)]
pub enum PutReply {
    Added,
    Replaced,
    Full,
    WrongKind,
}

/// The reply to a removal: the body is removed, or the name held none.
#[derive(Clone, Copy, Debug, PartialEq, Eq)]
pub enum RemoveReply {
    Removed,
    Absent,
}

impl PutReply {
    /// Returns whether the put stored its body.
    pub fn stores(self) -> bool
        ensures { result ≡ stores self }
    {
        match self {
            PutReply::Added | PutReply::Replaced => true,
            PutReply::Full | PutReply::WrongKind => false,
        }
    }
}

impl RemoveReply {
    /// Returns whether the removal removed a body.
    pub fn takes(self) -> bool
        ensures { result ≡ takes self }
    {
        match self {
            RemoveReply::Removed => true,
            RemoveReply::Absent => false,
        }
    }
}

/// A call with its reply: declarations, which are stored; a put or a removal with its reply; an ask with its outcome; or an ask for all
/// with the outcome of each root that holds a body, in the order of the names.
#[derive(Drop, PartialEq)]
pub enum Event {
    Types(Shared<Declared>),
    Put(Name, Shared<Unit>, PutReply),
    Remove(Name, RemoveReply),
    Ask(Name, Shared<Outcome>),
    All(Shared<Listing>),
}

/// An entry of a history: an event of a session, and the number of events that the session had before it.
pub struct Entry {
    pub session: u8,
    pub number: u32,
    pub event: Event,
}

impl Drop for Entry {
    fn drop(self) {
        let Self {
            session: _,
            number: _,
            event: _,
        } = self;
    }
}

impl Entry {
    /// Copies the entry, as one more owner of what its event has.
    pub fn copy(&self) -> Result<Entry, AllocError>
        ensures { IfOk result (λ copy. copy ≡ self.now) }
    {
        let event = self.event.copy()?;
        Ok(Entry {
            session: self.session,
            number: self.number,
            event,
        })
    }

    /// Returns whether the entry is this event of this session, and the session had `number` entries before it.
    pub fn is(&self, session: u8, number: usize, event: &Event) -> bool
        ensures { IsTrue result ↔ (self.now ≡ record { session = session; number = number; event = event.now }) }
    {
        self.session == session && self.number as usize == number && self.event.is(event)
    }
}

impl Event {
    /// Returns whether another event has the same call and the same reply.
    pub fn is(&self, other: &Event) -> bool
        ensures { IsTrue result ↔ (self.now ≡ other.now) }
    {
        self == other
    }

    /// Copies the event, as one more owner of what it has.
    pub fn copy(&self) -> Result<Event, AllocError>
        ensures { IfOk result (λ copy. copy ≡ self.now) }
    {
        match self {
            Event::Types(types) => Ok(Event::Types(types.clone()?)),
            Event::Put(name, unit, reply) => Ok(Event::Put(*name, unit.clone()?, *reply)),
            Event::Remove(name, reply) => Ok(Event::Remove(*name, *reply)),
            Event::Ask(name, outcome) => Ok(Event::Ask(*name, outcome.clone()?)),
            Event::All(listing) => Ok(Event::All(listing.clone()?)),
        }
    }

    /// Returns whether the event is an accepted write: declarations that were stored, or a body that was added, replaced or removed.
    pub fn writes(&self) -> bool
        ensures { result ≡ writes self.now }
    {
        match self {
            Event::Types(_) => true,
            Event::Put(_, _, reply) => reply.stores(),
            Event::Remove(_, reply) => reply.takes(),
            Event::Ask(_, _) => false,
            Event::All(_) => false,
        }
    }

    /// Returns the change that the event makes to what is stored, as one more owner of what the event has.
    pub fn change(&self) -> Result<Change, AllocError>
        ensures { IfOk result (λ change. change ≡ change_of self.now) }
    {
        match self {
            Event::Types(types) => Ok(Change::Types(types.clone()?)),
            Event::Put(name, unit, reply) => {
                if reply.stores() {
                    Ok(Change::Put(*name, unit.clone()?))
                } else {
                    Ok(Change::Nothing)
                }
            }
            Event::Remove(name, reply) => {
                if reply.takes() {
                    Ok(Change::Remove(*name))
                } else {
                    Ok(Change::Nothing)
                }
            }
            Event::Ask(name, outcome) => Ok(Change::Answer(*name, outcome.clone()?)),
            Event::All(listing) => Ok(Change::Answers(listing.clone()?)),
        }
    }
}
