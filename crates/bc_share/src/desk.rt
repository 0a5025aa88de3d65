//! What the sessions of a database share: its book, under a lock.
ghost use Rattle.std.specs.Prelude.{◌≡◌, ◌<◌, IfErr, IfOk, OnErr, length};
ghost use Rattle.bc_book.specs.Ledgers.{Appends, IsFull};
ghost use Rattle.bc_calls.specs.Calls.{IsLegal};
ghost use Rattle.bc_share.specs.Sessions.{IsAnswered};

use crate::notes::Notes;
use bc_book::{Book, Enter, EnteredCall, Refusal};
use bc_calls::{Entry, Event};
use bc_versions::Ending;
use std::alloc::Global;
use std::sync::{Mutex, Wait};

/// A call that a session made: how many calls it had made before, which is the number of its entry; the call with its reply; and the reply
/// by itself.
#[derive(Drop)]
pub struct MadeCall<T> {
    pub number: usize,
    pub event: Event,
    pub reply: T,
}

/// The lock of a database, with its book in it. Each call takes the lock for one step. Closing takes the book out, and a later call finds a
/// full history. A call that is entered is noted under the lock too, once its session has read its entry.
#[derive(Drop)]
pub(crate) struct Desk<E: Ending> {
    book: Mutex<Option<Book<E>>>,
}

impl<E: Ending> Desk<E> {
    /// Returns a desk with this book.
    pub(crate) fn new(book: Book<E>) -> Desk<E> {
        Desk {
            book: Mutex::new(Some(book)),
        }
    }

    /// Enters an operation of a session, for which its own list has room, as its next call. Returns `HistoryFull` only if the history is
    /// full or the book was taken out, and `NoMemory` only if out of memory.
    pub(crate) fn enter<R: Wait, O: Enter>(
        &self,
        rt: &R,
        alloc: Global,
        notes: &mut Notes,
        operation: O,
    ) -> Result<MadeCall<O::Reply>, Refusal>
        requires room { 0 < notes.old.room }
        ensures made { IfOk result (λ made. O.becomes operation made.event made.reply × IsAnswered made.event notes.old.session notes.new.session) }
        ensures number { IfOk result (λ made. made.number ≡ length notes.old.session.own) }
        ensures refused { OnErr result (notes.new ≡ notes.old) }
    {
        match &mut *self.book.lock(rt) {
            Some(book) => enter(rt, alloc, book, notes, operation),
            None => Err(Refusal::HistoryFull),
        }
    }

    /// Takes the book out, and returns its history, which is empty if the book was taken out before.
    pub(crate) fn take_history<R: Wait>(&self, rt: &R, alloc: Global) -> Vec<Entry>
        ensures { IsLegal result.items }
    {
        let book = self.book.lock(rt).take();
        match book {
            Some(book) => book.into_history(),
            None => Vec::new(alloc),
        }
    }
}

/// Enters an operation of a session as one entry of the book, and notes it once it is read. Its contract says what becomes of the book,
/// which callers of the desk cannot see.
fn enter<R: Wait, E: Ending, O: Enter>(
    rt: &R,
    alloc: Global,
    book: &mut Book<E>,
    notes: &mut Notes,
    operation: O,
) -> Result<MadeCall<O::Reply>, Refusal>
    requires room { 0 < notes.old.room }
    ensures made { IfOk result (λ made. O.becomes operation made.event made.reply × IsAnswered made.event notes.old.session notes.new.session) }
    ensures number { IfOk result (λ made. made.number ≡ length notes.old.session.own) }
    ensures entered { IfOk result (λ made. Appends notes.old.session.number made.event book.old book.new) }
    ensures kept { OnErr result (book.new ≡ book.old) }
    ensures refused { OnErr result (notes.new ≡ notes.old) }
    ensures full { IfErr result (IsFull book.old) }
{
    let number = notes.count();
    let EnteredCall { owners, reply } = operation.enter(rt, alloc, book, notes.number())?;
    let (listed, event) = owners.into_owners();
    notes.note(rt, listed);
    Ok(MadeCall {
        number,
        event,
        reply,
    })
}
