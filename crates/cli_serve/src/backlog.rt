//! The backlog: the lines that the router has read and no worker has answered. It has a bound, so a conversation needs a bounded memory for
//! its lines. A line counts as many bytes as it has in the input, whatever room its JSON value takes.
ghost use Rattle.std.specs.Prelude.{◌≡◌, ◌≤◌, ◌<◌, ◌+◌, ◌-◌, ◌/◌, ◌↔◌, IsFalse, IsTrue};
ghost use Rattle.cli_serve.specs.declared.backlog.TheConstants.{MOST_BYTES, MOST_LINES};

use cli_requests::MOST_REQUEST_BYTES;
use std::sync::{Condvar, Mutex, Wait};

/// The most lines of a backlog.
const MOST_LINES: usize = 1024;

/// The most bytes of its lines together.
const MOST_BYTES: usize = 8 * 1024 * 1024;

/// Each line fits once the backlog is low, which is when the router wakes.
const _: () = prove!(MOST_REQUEST_BYTES <= MOST_BYTES / 2);

/// The size of a backlog, which never exceeds the bound, and whether a worker stopped.
#[derive(Drop)]
struct Size {
    lines: usize,
    bytes: usize,
    has_stopped: bool,
    ghost few: { lines ≤ MOST_LINES },
    ghost small: { bytes ≤ MOST_BYTES },
}

impl Size {
    /// Returns the size of an empty backlog.
    fn new() -> Size {
        Size {
            lines: 0,
            bytes: 0,
            has_stopped: false,
        }
    }

    /// Adds a line with the given number of bytes if it is within the bound, and returns whether it is.
    fn add(&mut self, bytes: usize) -> bool
        ensures fits { IsTrue result ↔ ((self.old.lines < MOST_LINES) × (self.old.bytes + bytes ≤ MOST_BYTES)) }
        ensures added { IsTrue result → (self.new.lines ≡ self.old.lines + 1) × (self.new.bytes ≡ self.old.bytes + bytes) }
        ensures full { IsFalse result → (self.new ≡ self.old) }
    {
        if self.lines >= MOST_LINES || bytes > MOST_BYTES - self.bytes {
            return false;
        }
        self.lines += 1;
        self.bytes += bytes;
        true
    }

    /// Removes a line with the given number of bytes, and returns whether the backlog is low: at most half of the bound.
    fn remove(&mut self, bytes: usize) -> bool
        ensures lines { self.new.lines ≡ self.old.lines - 1 }
        ensures bytes { self.new.bytes ≡ self.old.bytes - bytes }
        ensures low { IsTrue result ↔ ((self.new.lines ≤ MOST_LINES / 2) × (self.new.bytes ≤ MOST_BYTES / 2)) }
    {
        self.lines = self.lines.saturating_sub(1);
        self.bytes = self.bytes.saturating_sub(bytes);
        self.lines <= MOST_LINES / 2 && self.bytes <= MOST_BYTES / 2
    }
}

/// The backlog: the number of lines that the router has read and no worker has answered, and of their bytes. At its bound the router waits.
#[derive(Drop)]
pub(crate) struct Backlog {
    size: Mutex<Size>,
    lower: Condvar,
}

impl Backlog {
    /// Returns an empty backlog.
    pub(crate) fn new() -> Backlog {
        Backlog {
            size: Mutex::new(Size::new()),
            lower: Condvar::new(),
        }
    }

    /// Waits until a line with the given number of bytes is within the bound, and adds it. Returns `false`, without waiting, once a worker
    /// stopped.
    pub(crate) fn add<R: Wait>(&self, rt: &R, bytes: usize) -> bool {
        let mut size = self.size.lock(rt);
        for _ in rt.forever() {
            if size.has_stopped {
                return false;
            }
            if size.add(bytes) {
                return true;
            }
            size = self.lower.wait(rt, size);
        }
        unreachable!()
    }

    /// Removes a line with the given number of bytes, which was answered. It wakes the router only once the backlog is low.
    pub(crate) fn remove<R: Wait>(&self, rt: &R, bytes: usize) {
        let is_low = self.size.lock(rt).remove(bytes);
        if is_low {
            self.lower.notify_one();
        }
    }

    /// Reports that a worker stopped. The router waits no longer, and the other workers take no further line.
    pub(crate) fn stop<R: Wait>(&self, rt: &R) {
        self.size.lock(rt).has_stopped = true;
        self.lower.notify_one();
    }

    /// Returns whether a worker stopped.
    pub(crate) fn has_stopped<R: Wait>(&self, rt: &R) -> bool {
        self.size.lock(rt).has_stopped
    }
}
