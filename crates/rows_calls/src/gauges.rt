//! Gauges of providers, which count their calls and may let them run out of memory.
use crate::answers::Answer;
use crate::meetings::Meeting;
use anyhow::bail;
use std::alloc::{AllocError, Global};
use std::io::Write;
use std::sync::Arc;
use std::sync::atomic::AtomicU64;
use std::sync::atomic::Ordering::SeqCst;

/// The number of calls of a provider, and at how many of its first calls it returns `AllocError`.
#[derive(Drop)]
pub struct Gauge {
    calls: AtomicU64,
    refused: AtomicU64,
}

impl Gauge {
    fn new() -> Gauge {
        Gauge {
            calls: AtomicU64::new(0),
            refused: AtomicU64::new(0),
        }
    }

    /// Counts a call. Returns `AllocError` if the provider is set to run out of memory at it.
    pub fn count(&self) -> Result<(), AllocError> {
        if self.calls.fetch_add(1, SeqCst) < self.refused.load(SeqCst) {
            return Err(AllocError);
        }
        Ok(())
    }

    /// Returns the number of calls.
    pub fn calls(&self) -> u64 {
        self.calls.load(SeqCst)
    }

    /// Counts from 0 again, and lets the first `refused` calls run out of memory.
    fn set(&self, refused: u64) {
        self.calls.store(0, SeqCst);
        self.refused.store(refused, SeqCst);
    }
}

/// The gauges of the three providers, and whether two sessions meet in the solver.
#[derive(Drop)]
pub struct Gauges {
    pub live: Gauge,
    pub solve: Gauge,
    pub scopes: Gauge,
    pub meeting: Meeting,
}

impl Gauges {
    /// Returns gauges in an `Arc`, so that each provider may share them. None was called, none is set to run out of memory, and nobody
    /// meets.
    pub fn shared(alloc: Global) -> Result<Arc<Gauges, Global>, AllocError> {
        let gauges = Gauges {
            live: Gauge::new(),
            solve: Gauge::new(),
            scopes: Gauge::new(),
            meeting: Meeting::new(),
        };
        match Arc::new(alloc, gauges) {
            Ok(gauges) => Ok(gauges),
            Err(_) => Err(AllocError),
        }
    }

    /// Counts from 0 again, and lets the named providers run out of memory, and no others: at each call, or the solver at its first one.
    pub fn refuse(&self, alloc: Global, which: &str) -> Answer {
        let (live, solve, scopes) = match which {
            "none" => (0, 0, 0),
            "live" => (u64::MAX, 0, 0),
            "solve" => (0, u64::MAX, 0),
            "scopes" => (0, 0, u64::MAX),
            "all" => (u64::MAX, u64::MAX, u64::MAX),
            "first" => (0, 1, 0),
            _ => bail!("no such providers"),
        };
        self.want(live, solve, scopes);
        Ok(Vec::new(alloc))
    }

    /// Counts from 0 again, and lets each provider run out of memory at the given number of its first calls.
    fn want(&self, live: u64, solve: u64, scopes: u64) {
        self.live.set(live);
        self.solve.set(solve);
        self.scopes.set(scopes);
    }

    /// Counts from 0 again, and lets no provider run out of memory.
    pub fn want_none(&self) {
        self.want(0, 0, 0);
    }

    /// Returns the number of calls of each provider, and counts from 0 again.
    pub fn counts(&self, alloc: Global) -> Answer {
        let live = self.live.calls.swap(0, SeqCst);
        let solve = self.solve.calls.swap(0, SeqCst);
        let scopes = self.scopes.calls.swap(0, SeqCst);
        let mut counts = Vec::new(alloc);
        writeln!(counts, "live {live}, solve {solve}, scopes {scopes}")?;
        Ok(counts)
    }
}
