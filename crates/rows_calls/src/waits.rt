//! Waits that end.
use anyhow::{Result, bail};
use std::sync::atomic::AtomicU64;
use std::sync::atomic::Ordering::SeqCst;
use std::thread;
use std::time::{Clock, Duration};

/// The most turns of a wait, each of one millisecond.
const MOST_TURNS: u32 = 10_000;

/// The number of waits that were given up. Once there is one, nobody waits any more.
#[derive(Drop)]
pub struct Patience {
    late: AtomicU64,
}

impl Patience {
    /// Returns a count without any wait that was given up.
    pub fn new() -> Patience {
        Patience {
            late: AtomicU64::new(0),
        }
    }

    /// Waits until something was done this many times, or gives up.
    pub fn hold<C: Clock>(&self, clock: &C, done: &AtomicU64, times: u64) {
        for _turn in 0..MOST_TURNS {
            if done.load(SeqCst) >= times || self.late.load(SeqCst) > 0 {
                return;
            }
            thread::sleep(clock, Duration::from_millis(1));
        }
        self.late.fetch_add(1, SeqCst);
    }

    /// Fails if a wait was given up.
    pub fn is_kept(&self) -> Result<()> {
        if self.late.load(SeqCst) > 0 {
            bail!("a session waited too long");
        }
        Ok(())
    }
}
