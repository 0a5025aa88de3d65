//! A pending ask: begun, worked on, and settled.
ghost use Rattle.std.specs.Prelude.{◌≡◌, IfOk, OnErr};
ghost use Rattle.std.specs.Arc.{arc_value};
ghost use Rattle.bc_calls.specs.declared.call.Event.TheVariants as events;
ghost use Rattle.bc_share.specs.Sessions.{IsAnswered, IsSame, Stays};
ghost use Rattle.cli_asks.specs.Progress.{IsProgressOf};

use bc_book::Refusal;
use bc_calls::{Begun, Work};
use bc_names::Name;
use bc_prov::{Outcome, Providers};
use bc_share::Session;
use bc_versions::Ending;
use std::alloc::{AllocError, Global};
use std::marker::Model;
use std::mem;
use std::sync::{Arc, Wait};

/// How far an ask is.
#[derive(Drop)]
pub(crate) enum AskProgress {
    /// It has begun.
    Begun(Begun),
    /// It was worked on.
    Worked(Work),
    /// It is out of memory, and cannot be made.
    Refused,
}

/// Returns the progress after the work on what was begun. It is `Refused` if memory runs out, as a provider may report too.
fn worked(alloc: Global, providers: &Providers, begun: Begun) -> AskProgress
    ensures { IsProgressOf begun.root result }
{
    match begun.work(alloc, providers) {
        Ok(work) => AskProgress::Worked(work),
        Err(_) => AskProgress::Refused,
    }
}

/// An ask of a name that was begun and is not settled yet, whether it was worked on or not. Contracts see the name. What was begun, and the
/// work on it, are always of that name.
pub struct PendingAsk {
    name: Name,
    progress: AskProgress,
}

impl Drop for PendingAsk {
    fn drop(self) {
        let Self {
            name: _,
            progress: _,
        } = self;
    }
}

impl Model for PendingAsk {
    ghost use Rattle.bc_names.specs.Names.{NameParts};
    ghost use Rattle.cli_asks.specs.Progress.{IsProgressOf};

    ghost Value = { NameParts };

    ghost view = { λ ask. ask.name };

    ghost invariant = { λ ask. IsProgressOf ask.name ask.progress };
}

impl PendingAsk {
    /// Begins an ask of a name in a session. It is no call yet: the session's own list stays as it is. It waits for nobody. If it is out of
    /// memory or the session refuses the reading, `settle` reports that.
    pub fn begin<N: Ending>(session: &mut Session<N>, name: &Name) -> PendingAsk
        ensures name { result ≡ name.now }
        ensures kept { Stays session.old session.new }
    {
        let progress = match session.begin(name) {
            Ok(begun) => AskProgress::Begun(begun),
            Err(_) => AskProgress::Refused,
        };
        PendingAsk {
            name: *name,
            progress,
        }
    }

    /// Returns the name that is asked.
    pub fn name(&self) -> Name
        ensures { result ≡ self.now }
    {
        self.name
    }

    /// Returns this ask after the work on it, if it was begun.
    fn into_worked(self, alloc: Global, providers: &Providers) -> PendingAsk
        ensures { result ≡ self }
    {
        let PendingAsk { name, progress } = self;
        let progress = match progress {
            AskProgress::Begun(begun) => worked(alloc, providers, begun),
            AskProgress::Worked(work) => AskProgress::Worked(work),
            AskProgress::Refused => AskProgress::Refused,
        };
        PendingAsk { name, progress }
    }

    /// Works on the ask if that was begun and is not done yet. It holds no lock and waits for nobody. If it is out of memory, as a provider
    /// may report too, `settle` reports that.
    pub fn work(&mut self, alloc: Global, providers: &Providers)
        ensures { self.new ≡ self.old }
    {
        let name = self.name;
        let progress = AskProgress::Refused;
        let pending = mem::replace(self, PendingAsk { name, progress });
        *self = pending.into_worked(alloc, providers);
    }

    /// Returns the work on the ask, which is done now if it was not done before. Returns `AllocError` if the ask is out of memory, now or
    /// before.
    fn into_work(self, alloc: Global, providers: &Providers) -> Result<Work, AllocError>
        ensures { IfOk result (λ work. work.snapshot.root ≡ self) }
    {
        let PendingAsk { name: _, progress } = self;
        match progress {
            AskProgress::Begun(begun) => begun.work(alloc, providers),
            AskProgress::Worked(work) => Ok(work),
            AskProgress::Refused => Err(AllocError),
        }
    }

    /// Settles the ask in a session, and returns the outcome of its name by what is stored now, as `Session::settle` does (its errors by
    /// RFC 2094, "Borrow checker phase 2" and "Named lifetimes"). This is the call; before it none was made.
    ///
    /// Fails as `Session::settle` does. Returns `NoMemory` too if the ask was out of memory when it was begun or worked on. No call is made
    /// then.
    pub fn settle<R: Wait, N: Ending>(
        self,
        rt: &R,
        alloc: Global,
        session: &mut Session<N>,
        providers: &Providers,
    ) -> Result<Arc<Outcome, Global>, Refusal>
        ensures told { IfOk result (λ outcome. IsAnswered (events.Ask self (arc_value outcome)) session.old session.new) }
        ensures refused { OnErr result (IsSame session.old session.new) }
    {
        let work = self.into_work(alloc, providers)?;
        session.settle(rt, work, providers)
    }
}
