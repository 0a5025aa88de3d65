//! What sessions enter in a book.
ghost use Rattle.std.specs.Prelude.{◌≡◌, ◌<◌, IfErr, IfOk, OnErr, OnOk, length};
ghost use Rattle.bc_calls.specs.declared.call.Event.TheVariants as events;
ghost use Rattle.bc_book.specs.declared.ledger.TheConstants.{MOST_SESSIONS};
ghost use Rattle.bc_book.specs.Ledgers.{Appends, IsFull};
ghost use Rattle.bc_book.specs.Operations.{IsCallOf, IsListed, IsSettled};

use crate::book::Book;
use crate::ledger::Refusal;
use bc_calls::{EventOwners, PutReply, RemoveReply, Work};
use bc_names::Name;
use bc_prov::{Declared, Listing, Outcome, Providers, Shared};
use bc_syntax::Unit;
use bc_versions::Ending;
use std::alloc::Global;
use std::sync::Wait;

/// A call that was entered: two owners of it with its reply, and the reply by itself.
#[derive(Drop)]
pub struct EnteredCall<T> {
    pub owners: EventOwners,
    pub reply: T,
}

impl<T: Drop> EnteredCall<T> {
    /// Returns the owners alone.
    fn without_reply(self) -> EnteredCall<()>
        ensures { result.owners ≡ self.owners }
    {
        EnteredCall {
            owners: self.owners,
            reply: (),
        }
    }
}

/// What a session does at a book, to become a call with its reply.
pub trait Enter: Drop {
    ghost use Rattle.bc_calls.specs.declared.call.Event.{Event};

    /// The reply by itself. It is `()` if there is none, or if the call alone has it.
    type Reply: Drop;

    // This call, with this reply, is what comes of the value.
    ghost becomes: { Self → Event → Self.Reply → Type 0 };

    /// Enters this as a call of a session. Published and refused as the method of `Book` for that call says.
    fn enter<R: Wait, E: Ending>(
        self,
        rt: &R,
        alloc: Global,
        book: &mut Book<E>,
        session: u8,
    ) -> Result<EnteredCall<Self::Reply>, Refusal>
        requires session { session < MOST_SESSIONS }
        ensures step { IfOk result (λ entered. becomes self entered.owners entered.reply × Appends session entered.owners book.old book.new) }
        ensures refused { OnErr result (book.new ≡ book.old) }
        ensures full { IfErr result (IsFull book.old) }
        ensures below { OnOk result (length book.old.entries < book.old.capacity) };
}

/// Puts a unit under a name.
#[derive(Drop)]
pub struct Put {
    pub name: Name,
    pub unit: Shared<Unit>,
}

impl Enter for Put {
    type Reply = PutReply;

    ghost becomes = { λ put event reply. event ≡ events.Put put.name put.unit reply };

    fn enter<R: Wait, E: Ending>(
        self,
        rt: &R,
        alloc: Global,
        book: &mut Book<E>,
        session: u8,
    ) -> Result<EnteredCall<PutReply>, Refusal> {
        let Put { name, unit } = self;
        book.put(rt, alloc, session, name, unit)
    }
}

/// Takes the unit of a name away.
#[derive(Drop)]
pub struct Remove {
    pub name: Name,
}

impl Enter for Remove {
    type Reply = RemoveReply;

    ghost becomes = { λ remove event reply. event ≡ events.Remove remove.name reply };

    fn enter<R: Wait, E: Ending>(
        self,
        rt: &R,
        alloc: Global,
        book: &mut Book<E>,
        session: u8,
    ) -> Result<EnteredCall<RemoveReply>, Refusal> {
        book.remove(rt, alloc, session, self.name)
    }
}

/// Asks for the outcome of the name of a work, with the providers for what nobody worked on: `P` is `&Providers`.
// `P` is a parameter because no definition can be stated over a type that holds providers.
#[derive(Drop)]
pub struct Settle<P> {
    pub work: Work,
    pub providers: P,
}

impl Enter for Settle<&Providers> {
    type Reply = Shared<Outcome>;

    ghost becomes = { IsSettled };

    fn enter<R: Wait, E: Ending>(
        self,
        rt: &R,
        alloc: Global,
        book: &mut Book<E>,
        session: u8,
    ) -> Result<EnteredCall<Shared<Outcome>>, Refusal> {
        let Settle { work, providers } = self;
        book.settle(rt, alloc, session, work, providers)
    }
}

/// Asks for the outcomes of all roots that are stored, on some of which works were done. `P` is as for `Settle`.
#[derive(Drop)]
pub struct SettleAll<P> {
    pub works: Vec<Work>,
    pub providers: P,
}

impl Enter for SettleAll<&Providers> {
    type Reply = Shared<Listing>;

    ghost becomes = { IsListed };

    fn enter<R: Wait, E: Ending>(
        self,
        rt: &R,
        alloc: Global,
        book: &mut Book<E>,
        session: u8,
    ) -> Result<EnteredCall<Shared<Listing>>, Refusal> {
        let SettleAll { works, providers } = self;
        book.settle_all(rt, alloc, session, works, providers)
    }
}

/// Any of these, or declarations, which were checked before. The call has the reply. `P` is as for `Settle`.
#[derive(Drop)]
pub enum Operation<P> {
    Types(Shared<Declared>),
    Put(Name, Shared<Unit>),
    Remove(Name),
    Settle(Work, P),
    All(Vec<Work>, P),
}

impl Enter for Operation<&Providers> {
    type Reply = ();

    ghost becomes = { λ operation event _. IsCallOf operation event };

    fn enter<R: Wait, E: Ending>(
        self,
        rt: &R,
        alloc: Global,
        book: &mut Book<E>,
        session: u8,
    ) -> Result<EnteredCall<()>, Refusal> {
        match self {
            Operation::Types(types) => book.put_types(rt, alloc, session, types),
            Operation::Put(name, unit) => {
                let entered = book.put(rt, alloc, session, name, unit)?;
                Ok(entered.without_reply())
            }
            Operation::Remove(name) => {
                let entered = book.remove(rt, alloc, session, name)?;
                Ok(entered.without_reply())
            }
            Operation::Settle(work, providers) => {
                let entered = book.settle(rt, alloc, session, work, providers)?;
                Ok(entered.without_reply())
            }
            Operation::All(works, providers) => {
                let entered = book.settle_all(rt, alloc, session, works, providers)?;
                Ok(entered.without_reply())
            }
        }
    }
}
