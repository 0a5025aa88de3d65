//! A database: opened for its sessions, and closed with them, which returns the history.
ghost use Rattle.std.specs.Prelude.{◌≡◌, ◌↔◌, ◌<◌, ◌≤◌, IfOk, IfErr, IsTrue, OnOk};
ghost use Rattle.bc_calls.specs.Calls.{IsLegal};
ghost use Rattle.bc_book.specs.declared.ledger.TheConstants.{MOST_SESSIONS};
ghost use Rattle.bc_share.specs.Sessions.{new_sessions};
ghost use Rattle.bc_share.specs.Closings.{AreSessionsOf, IsCloseFault, IsInRange, IsOneHistory};

use crate::audit::{agree, are_sessions};
use crate::desk::Desk;
use crate::session::Session;
use bc_book::{Book, MOST_SESSIONS};
use bc_calls::Entry;
use bc_versions::{Ending, Fronts};
use std::alloc::{AllocError, Global};
use std::marker::Model;
use std::sync::{Arc, Wait};
use thiserror::Error;

/// The most entries that a history may have.
pub const MOST_ENTRIES: u32 = 1_000_000;

/// The reason why a database could not be opened: the capacity or the number of sessions is out of range, or out of memory.
#[derive(Clone, Copy, Debug, PartialEq, Eq, Error)]
pub enum OpenFault {
    #[error("out of range")]
    Range,
    #[error("no memory")]
    NoMemory,
}

/// The reason why a database could not be closed: the sessions are not as many as it has, with its tag, each number once; or the history,
/// which comes along, does not agree with them.
#[derive(Debug, Drop, Error)]
pub enum CloseFault {
    #[error("the sessions are not those of this database")]
    Foreign,
    #[error("the history does not agree with the sessions")]
    Audit(History),
}

/// A legal history of calls and replies. A contract sees its entries.
#[derive_where(Debug)]
pub struct History {
    #[derive_where(skip)]
    entries: Vec<Entry>,
}

impl Drop for History {
    fn drop(self) {
        let Self { entries: _ } = self;
    }
}

impl Model for History {
    ghost use Rattle.std.specs.Prelude.{List};
    ghost use Rattle.bc_calls.specs.declared.call.Entry.{Entry};

    ghost Value = { List Entry };

    ghost use Rattle.bc_calls.specs.Calls.{IsLegal};

    ghost view = { λ h. h.entries.items };

    ghost invariant = { λ h. IsLegal h.entries.items };
}

impl History {
    /// Returns the entries, in order.
    pub fn entries(&self) -> &[Entry]
        ensures entries { result.now ≡ self.now }
        ensures legal { IsLegal self.now }
    {
        self.entries.as_slice()
    }
}

/// An open database. A contract sees its tag, and how many sessions it has.
pub struct Db<E: Ending> {
    alloc: Global,
    tag: u64,
    count: u8,
    desk: Arc<Desk<E>, Global>,
}

// Handwritten, so that it is proved once: the crates above only call it.
impl<E: Ending> Drop for Db<E> {
    fn drop(self) {
        let Self {
            alloc: _,
            tag: _,
            count: _,
            desk: _,
        } = self;
    }
}

impl<E: Ending> Model for Db<E> {
    ghost use Rattle.bc_share.specs.Closings.{DbView};

    ghost Value = { DbView };

    ghost view = { λ db. record { tag = db.tag; count = db.count } };
}

impl<E: Ending> Db<E> {
    /// Opens a database with this tag and at most `capacity` entries in its history. Returns it with its sessions, which are numbered from
    /// 0. `ending` ends the writer of what is published, also if opening fails. It may wait then, though nobody reads.
    ///
    /// Returns `Range` exactly if the capacity is not 1 to 1,000,000 or the sessions are not 1 to 16, and otherwise `NoMemory` if out of
    /// memory.
    pub fn open(
        alloc: Global,
        ending: E,
        tag: u64,
        capacity: u32,
        sessions: u8,
    ) -> Result<(Db<E>, Vec<Session<E>>), OpenFault>
        ensures range { OnOk result (IsInRange capacity sessions) }
        ensures opened { IfOk result (λ opened. (opened.0 ≡ record { tag = tag; count = sessions }) × (opened.1.items ≡ new_sessions tag sessions)) }
        ensures fault { IfErr result (λ fault. fault ≡ OpenFault.Range ↔ ¬ IsInRange capacity sessions) }
    {
        if !is_in_range(capacity, sessions) {
            return Err(OpenFault::Range);
        }
        match opened(alloc, ending, tag, capacity, sessions) {
            Ok(opened) => Ok(opened),
            Err(_) => Err(OpenFault::NoMemory),
        }
    }

    /// Closes the database: ends the sessions, and returns the history. Sessions that are not passed in then find a full history, and
    /// nothing to read. After `Foreign` they may still use the database.
    ///
    /// Returns `Foreign` exactly if these are not as many sessions as the database has, with its tag, each number once. Returns `Audit`,
    /// with the history, exactly if they are, and a session's own list is not its events in the history or an entry belongs to none of
    /// them. The `Db` is gone in each case.
    pub fn close<R: Wait>(self, rt: &R, sessions: Vec<Session<E>>) -> Result<History, CloseFault>
        ensures one_history { IfOk result (λ h. IsOneHistory sessions.items h) }
        ensures theirs { OnOk result (AreSessionsOf self.tag self.count sessions.items) }
        ensures fault { IfErr result (λ fault. IsCloseFault self.tag self.count sessions.items fault) }
    {
        let Db {
            alloc,
            tag,
            count,
            desk,
        } = self;
        if !are_sessions(tag, count, &sessions) {
            return Err(CloseFault::Foreign);
        }
        let entries = desk.take_history(rt, alloc);
        let agreed = agree(&sessions, &entries);
        let history = History { entries };
        if agreed {
            Ok(history)
        } else {
            Err(CloseFault::Audit(history))
        }
    }
}

/// Returns whether a database may have this capacity and this number of sessions.
fn is_in_range(capacity: u32, sessions: u8) -> bool
    ensures { IsTrue result ↔ IsInRange capacity sessions }
{
    1 <= capacity
        && capacity <= MOST_ENTRIES
        && 1 <= sessions
        && usize::from(sessions) <= MOST_SESSIONS
}

/// Returns a database with its sessions. Requires that the numbers are in range.
fn opened<E: Ending>(
    alloc: Global,
    ending: E,
    tag: u64,
    capacity: u32,
    count: u8,
) -> Result<(Db<E>, Vec<Session<E>>), AllocError>
    requires some { 0 < count }
    requires few { count ≤ MOST_SESSIONS }
    ensures { IfOk result (λ opened. (opened.0 ≡ record { tag = tag; count = count }) × (opened.1.items ≡ new_sessions tag count)) }
{
    let book = Book::new(alloc, ending, capacity, usize::from(count))?;
    let fronts = book.fronts()?;
    let Ok(desk) = Arc::new(alloc, Desk::new(book)) else {
        return Err(AllocError);
    };
    let sessions = seated(alloc, &desk, &fronts, tag, count)?;
    let db = Db {
        alloc,
        tag,
        count,
        desk,
    };
    Ok((db, sessions))
}

/// Returns `count` new sessions at a desk, numbered from 0, each with a front.
fn seated<E: Ending>(
    alloc: Global,
    desk: &Arc<Desk<E>, Global>,
    fronts: &Fronts,
    tag: u64,
    count: u8,
) -> Result<Vec<Session<E>>, AllocError>
    requires { count ≤ MOST_SESSIONS }
    ensures { IfOk result (λ sessions. sessions.items ≡ new_sessions tag count) }
{
    let mut sessions = Vec::new(alloc);
    for number in 0..count {
        let theirs = Arc::try_clone(desk)?;
        let front = fronts.front()?;
        sessions.push(Session::new(alloc, theirs, tag, number, front))?;
    }
    Ok(sessions)
}
