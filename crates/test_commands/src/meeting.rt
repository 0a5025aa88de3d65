//! Two sessions of `run`, and two asks of `check`, that are in a provider at the same time; and how many bodies `check` works on before it
//! prints.
use crate::checks::{FOUR_JOBS, ONE_JOB};
use crate::command::leave_with;
use crate::runs::TWO;
use bc_analyses::{find_values, providers};
use bc_cons::Facts;
use std::alloc::Global;
use std::sync::Arc;
use std::sync::atomic::AtomicU32;
use std::sync::atomic::Ordering::SeqCst;
use std::test::Fail;
use std::thread;
use std::time::{Clock, Duration};
use test_devices::{Devices, SOUND};

/// A file in which each of two sessions puts a body and asks for it.
const CALLS: &[u8] =
    b"@0 put f\nfn()->int{bb0{_0=1;return;}}\n@0 ask f\n@1 put g\nfn()->int{bb0{_0=1;return;}}\n@1 ask g\n";

/// A file with two bodies, for each of which `check` asks.
const PUTS: &[u8] = b"@put f\nfn()->int{bb0{_0=1;return;}}\n@put g\nfn()->int{bb0{_0=1;return;}}\n";

/// The most milliseconds for which one waits.
const MOST_TURNS: u32 = 10_000;

/// The number of calls of the solver, and of those that waited there in vain.
#[derive(Drop)]
struct Meeting {
    came: AtomicU32,
    late: AtomicU32,
}

impl Meeting {
    fn new() -> Meeting {
        Meeting {
            came: AtomicU32::new(0),
            late: AtomicU32::new(0),
        }
    }

    /// Waits in the solver until the other one of two has come.
    fn meet<C: Clock>(&self, clock: &C) {
        let before = self.came.fetch_add(1, SeqCst);
        for _turn in 0..MOST_TURNS {
            if self.came.load(SeqCst) > before | 1 {
                return;
            }
            thread::sleep(clock, Duration::from_millis(1));
        }
        self.late.fetch_add(1, SeqCst);
    }
}

/// Catches sessions of `run` that make their calls one after another, and a `check` with several jobs that works on its asks one after
/// another, or only as it settles them: each waits in its solver until the other is in its own.
#[test]
fn two_bodies_are_solved_at_once(rt: HostRuntime) -> Result<(), Fail> {
    let Ok(meeting) = Arc::new(rt.alloc(), Meeting::new()) else {
        return Err("memory")?;
    };
    let to_solve = Arc::try_clone(&meeting)?;
    let providers = providers!(rt.alloc(), move |alloc: Global, facts: &Facts| {
        to_solve.meet(&rt);
        find_values(alloc, facts)
    });
    for (words, file) in [(TWO, CALLS), (FOUR_JOBS, PUTS)] {
        let left = leave_with(&rt, &providers, words, file, SOUND)?;
        assert_eq!(rt; left.status, 0);
    }
    assert_eq!(rt; meeting.came.load(SeqCst), 4, "each body is solved once");
    assert_eq!(rt; meeting.late.load(SeqCst), 0, "nobody waits too long");
    Ok(())
}

/// Catches a `check` with one job that works on a body before it printed the report of the one before, and one with several jobs that
/// prints before it worked on all. The first write fails, and the bodies that were worked on by then are counted.
#[test]
fn one_job_prints_each_report_before_it_works_on(rt: HostRuntime) -> Result<(), Fail> {
    let Ok(worked) = Arc::new(rt.alloc(), AtomicU32::new(0)) else {
        return Err("memory")?;
    };
    let to_work = Arc::try_clone(&worked)?;
    let providers = providers!(rt.alloc(), move |alloc: Global, facts: &Facts| {
        to_work.fetch_add(1, SeqCst);
        find_values(alloc, facts)
    });
    let devices = Devices {
        room: 0,
        write: 0,
        ..SOUND
    };
    for (words, count) in [(ONE_JOB, 1), (FOUR_JOBS, 3)] {
        let left = leave_with(&rt, &providers, words, PUTS, devices)?;
        assert!(rt; left.is(3, b"", b"cannot write\n"));
        assert_eq!(rt; worked.load(SeqCst), count);
    }
    Ok(())
}
