//! Asks whose work threads share.
ghost use Rattle.std.specs.Prelude.{◌≡◌, ◌≤◌, ◌⊎◌, true, IfOk, IfErr, IfSome, IsErrOf, map};
ghost use Rattle.bc_calls.specs.declared.call.Call.TheVariants as calls;
ghost use Rattle.bc_share.specs.Sessions.{Makes};
ghost use Rattle.cli_file.specs.Stops.{is_refused};
ghost use Rattle.cli_file.specs.Still.{IsStill};
ghost use Rattle.cli_check.specs.Run.{shown};
ghost use Rattle.cli_check.specs.Performed.{Performed, PerformedPart};
ghost use Rattle.cli_check.specs.Asks.{AsksAll, AsksOne, AsksSome, RefusesOne};

use crate::command::{Asking, write_answer};
use bc_share::Session;
use bc_versions::Ending;
use cli_asks::{PendingAsk, work_ahead};
use cli_file::{Stop, outcome_status};
use std::io::Write;
use std::sync::Wait;
use std::thread;
use std::thread::Threads;

/// Returns the number of threads that share the work: `jobs` if it is given, otherwise one for each processor, or one if the runtime does
/// not know.
pub(crate) fn find_threads<R: Threads>(rt: &R, jobs: Option<u8>) -> usize
    ensures { IfSome jobs (λ count. result ≡ count) }
{
    match jobs {
        Some(count) => usize::from(count),
        None => match thread::available_parallelism(rt) {
            Ok(count) => count.get(),
            Err(_) => 1,
        },
    }
}

/// Settles an ask and prints its report. Returns the status of the outcome.
fn settle_ask<R: AllocGlobal + Wait, N: Ending, O: Write>(
    rt: &R,
    session: &mut Session<N>,
    asking: &Asking<'_, '_>,
    ask: PendingAsk,
    out: &mut O,
) -> Result<u8, Stop>
    ensures still { IsStill session.old session.new }
    ensures refused { RefusesOne result session.old session.new (O.contents out.old) (O.contents out.new) }
    ensures unwritten { IsErrOf result Stop.CannotWrite → Makes session.old session.new (calls.Ask ask) }
    ensures performed { AsksOne asking.now.form.now ask result session.old session.new (O.contents out.old) (O.contents out.new) }
    ensures range { IfOk result (λ status. status ≤ 2) }
    ensures stop { IfErr result (λ stop. (stop ≡ Stop.CannotWrite) ⊎ (stop ≡ Stop.NoMemory) ⊎ (stop ≡ Stop.HistoryFull)) }
{
    let name = ask.name();
    let outcome = ask.settle(rt, rt.alloc(), session, asking.providers)?;
    write_answer(rt.alloc(), asking.form, &name, &outcome, out)?;
    Ok(outcome_status(&outcome))
}

/// Settles the asks in order and prints their reports. Returns the greatest status of the outcomes.
fn settle_asks<R: AllocGlobal + Wait, N: Ending, O: Write>(
    rt: &R,
    session: &mut Session<N>,
    asking: &Asking<'_, '_>,
    asks: Vec<PendingAsk>,
    out: &mut O,
) -> Result<u8, Stop>
    ensures performed { IfOk result (λ status. Performed (map calls.Ask asks.items) (shown asking.now.form.now) status
        session.old session.new (O.contents out.old) (O.contents out.new)) }
    ensures still { IsStill session.old session.new }
    ensures refused { IfErr result (λ stop. is_refused stop ≡ true → PerformedPart (map calls.Ask asks.items) (shown asking.now.form.now)
        session.old session.new (O.contents out.old) (O.contents out.new)) }
    ensures range { IfOk result (λ status. status ≤ 2) }
    ensures stop { IfErr result (λ stop. (stop ≡ Stop.CannotWrite) ⊎ (stop ≡ Stop.NoMemory) ⊎ (stop ≡ Stop.HistoryFull)) }
{
    let mut status: u8 = 0;
    for ask in asks {
        let asked = settle_ask(rt, session, asking, ask, out)?;
        status = status.max(asked);
    }
    Ok(status)
}

/// Asks for the names in order and prints their reports: all asks are begun, then threads share the work on them, then each is settled and
/// printed. If one is out of memory, those before it are settled and printed all the same. Returns the greatest status of the outcomes.
pub(crate) fn ask_ahead<R: AllocGlobal + Threads + Wait + Sync, N: Ending, O: Write>(
    rt: &R,
    session: &mut Session<N>,
    asking: &Asking<'_, '_>,
    out: &mut O,
) -> Result<u8, Stop>
    ensures performed { AsksAll asking.now.form.now asking.now.names.now.keys result session.old session.new (O.contents out.old) (O.contents out.new) }
    ensures still { IsStill session.old session.new }
    ensures refused { AsksSome asking.now.form.now asking.now.names.now.keys result session.old session.new (O.contents out.old) (O.contents out.new) }
    ensures range { IfOk result (λ status. status ≤ 2) }
    ensures stop { IfErr result (λ stop. (stop ≡ Stop.CannotWrite) ⊎ (stop ≡ Stop.NoMemory) ⊎ (stop ≡ Stop.HistoryFull)) }
{
    let asks = work_ahead(
        rt,
        rt.alloc(),
        session,
        asking.providers,
        asking.names,
        asking.threads,
    )?;
    settle_asks(rt, session, asking, asks, out)
}
