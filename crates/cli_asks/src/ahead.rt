//! Asks of several names, worked on in threads before they are settled.
ghost use Rattle.std.specs.Prelude.{◌≡◌, IfOk};
ghost use Rattle.bc_share.specs.Sessions.{IsSame};

use crate::ask::PendingAsk;
use bc_names::Name;
use bc_prov::Providers;
use bc_share::Session;
use bc_versions::Ending;
use std::alloc::{AllocError, Global};
use std::collections::BTreeSet;
use std::thread;
use std::thread::Threads;

/// Begins an ask of each name in a session, and returns the asks in the order of the names.
fn begin_each<N: Ending>(
    alloc: Global,
    session: &mut Session<N>,
    names: &BTreeSet<Name>,
) -> Result<Vec<PendingAsk>, AllocError>
    ensures begun { IfOk result (λ asks. asks.items ≡ names.now.keys) }
    ensures kept { IsSame session.old session.new }
{
    let mut asks = Vec::with_capacity(alloc, names.len())?;
    for name in names {
        asks.push(PendingAsk::begin(session, name))?;
    }
    Ok(asks)
}

/// Works on each of these asks, in at most `threads` threads.
fn work_each<R: Threads + Sync>(
    rt: &R,
    alloc: Global,
    providers: &Providers,
    threads: usize,
    asks: &mut [PendingAsk],
)
    ensures { asks.new ≡ asks.old }
{
    let threads = threads.max(1);
    thread::for_each_mut(
        rt,
        asks,
        threads,
        &|_index: usize, ask: &mut PendingAsk|
            ensures { ask.new ≡ ask.old }
        { ask.work(alloc, providers) },
    );
}

/// Begins an ask of each name in a session and works on all of them in threads. Returns the pending asks, in the order of the names; none
/// is a call yet. There are at most `threads` threads, at least one, and fewer if no more can be made. They hold no lock meanwhile.
///
/// Returns `AllocError` only if there is no room for the list of asks. An ask that is out of memory is reported by its
/// `PendingAsk::settle`, so that those before it can be answered.
pub fn work_ahead<R: Threads + Sync, N: Ending>(
    rt: &R,
    alloc: Global,
    session: &mut Session<N>,
    providers: &Providers,
    names: &BTreeSet<Name>,
    threads: usize,
) -> Result<Vec<PendingAsk>, AllocError>
    ensures asks { IfOk result (λ asks. asks.items ≡ names.now.keys) }
    ensures kept { IsSame session.old session.new }
{
    let mut asks = begin_each(alloc, session, names)?;
    work_each(rt, alloc, providers, threads, &mut asks);
    Ok(asks)
}
