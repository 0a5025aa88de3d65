//! Readers and writers in memory that fail at one call, for tests of commands.
#![tactic(auto)]

use std::alloc::Global;
use std::io;
use std::io::{ErrorKind, Read, Write};

/// A counter that makes a device fail at the call of one number, and at no other.
#[derive(Clone, Copy)]
pub struct Fuse {
    calls: u32,
    fails_at: u32,
}

impl Fuse {
    /// Returns a fuse that fails at the call of this number, from 0.
    pub fn new(fails_at: u32) -> Self {
        Fuse { calls: 0, fails_at }
    }

    /// Returns the number of calls so far.
    pub fn calls(&self) -> u32 {
        self.calls
    }

    fn burn(&mut self) -> io::Result<()> {
        let call = self.calls;
        self.calls = call.saturating_add(1);
        if call == self.fails_at {
            return Err(ErrorKind::Other.into());
        }
        Ok(())
    }
}

/// A reader of a few bytes at a time. Its failure is `OutOfMemory` at a call with an odd number, and `Other` at one with an even number.
#[derive(Drop)]
pub struct Input<'a> {
    rest: &'a [u8],
    chunk: usize,
    fuse: Fuse,
}

impl<'a> Input<'a> {
    /// Returns a reader of these bytes, which behaves as `devices` says.
    pub fn new(bytes: &'a [u8], devices: Devices) -> Self {
        Input {
            rest: bytes,
            chunk: devices.chunk,
            fuse: Fuse::new(devices.read),
        }
    }

    /// Returns the number of reads so far.
    pub fn calls(&self) -> u32 {
        self.fuse.calls()
    }
}

impl Read for Input<'_> {
    fn read(&mut self, buf: &mut [u8]) -> io::Result<usize> {
        let is_odd = self.fuse.calls() % 2 == 1;
        if self.fuse.burn().is_err() {
            return Err(if is_odd {
                ErrorKind::OutOfMemory.into()
            } else {
                ErrorKind::Other.into()
            });
        }
        let count = buf.len().min(self.rest.len()).min(self.chunk);
        let (front, rest) = self.rest.split_at(count);
        buf[..count].copy_from_slice(front);
        self.rest = rest;
        Ok(count)
    }
}

/// A writer that takes a few bytes at a time, and knows whether it was flushed since then.
#[derive(Drop)]
pub struct Output {
    taken: Vec<u8>,
    is_flushed: bool,
    fuse: Fuse,
}

impl Output {
    /// Returns a writer that has taken nothing, and fails at the write or flush of this number, from 0.
    pub fn new(alloc: Global, fails_at: u32) -> Self {
        Output {
            taken: Vec::new(alloc),
            is_flushed: false,
            fuse: Fuse::new(fails_at),
        }
    }

    /// Returns whether the writer was flushed after everything that it took.
    pub fn is_flushed(&self) -> bool {
        self.is_flushed
    }

    /// Returns the number of writes and flushes so far.
    pub fn calls(&self) -> u32 {
        self.fuse.calls()
    }

    /// Returns what the writer took.
    pub fn into_taken(self) -> Vec<u8> {
        self.taken
    }
}

impl Write for Output {
    fn write(&mut self, buf: &[u8]) -> io::Result<usize> {
        self.fuse.burn()?;
        let count = buf.len().min(5);
        self.taken.extend_from_slice(&buf[..count])?;
        self.is_flushed = false;
        Ok(count)
    }

    fn flush(&mut self) -> io::Result<()> {
        self.fuse.burn()?;
        self.is_flushed = true;
        Ok(())
    }
}

/// The number of a call that never comes.
const NEVER: u32 = u32::MAX;

/// How the devices of a run behave: the bytes of one read, the size of the output's buffer, and the call at which each device fails.
#[derive(Clone, Copy)]
pub struct Devices {
    pub chunk: usize,
    pub room: usize,
    pub read: u32,
    pub write: u32,
    pub tell: u32,
}

/// Devices that never fail.
pub const SOUND: Devices = Devices {
    chunk: 7,
    room: 8192,
    read: NEVER,
    write: NEVER,
    tell: NEVER,
};

/// A file, what a command of these words has to leave if no device fails, and what it has to report if standard output fails.
/// `wants_memory` says whether its solver always reports that it is out of memory.
#[derive(Clone, Copy)]
pub struct Case<'a> {
    pub words: &'a [&'a str],
    pub file: &'a [u8],
    pub status: u8,
    pub out: &'a [u8],
    pub err: &'a [u8],
    pub unwritten: &'a [u8],
    pub wants_memory: bool,
}

/// What a command left: its status and output, whether standard output was flushed last, and the number of calls of each device.
#[derive(Drop)]
pub struct Left {
    pub status: u8,
    pub is_flushed: bool,
    pub out: Vec<u8>,
    pub err: Vec<u8>,
    pub reads: u32,
    pub writes: u32,
    pub tells: u32,
}

impl Left {
    /// Returns the result of a command that ended with this status.
    pub fn of(status: u8, input: &Input<'_>, out: Output, err: Output) -> Left {
        Left {
            status,
            is_flushed: out.is_flushed(),
            reads: input.calls(),
            writes: out.calls(),
            tells: err.calls(),
            out: out.into_taken(),
            err: err.into_taken(),
        }
    }

    /// Returns whether the command ended with this status, and left these bytes on its two writers.
    pub fn is(&self, status: u8, out: &[u8], err: &[u8]) -> bool {
        self.status == status && self.out.as_slice() == out && self.err.as_slice() == err
    }

    /// Returns whether this is what the case has to leave, and standard output was flushed last if it was used.
    pub fn is_of(&self, case: &Case<'_>) -> bool {
        self.is(case.status, case.out, case.err) && (self.is_flushed || self.writes == 0)
    }

    /// Returns whether the command reported `told` and stopped at once after this write or flush failed. What it wrote before has to be a
    /// beginning of `whole`.
    pub fn stopped_at_write(&self, write: u32, whole: &[u8], told: &[u8]) -> bool {
        self.status == 3
            && self.err.as_slice() == told
            && whole.starts_with(self.out.as_slice())
            && self.writes == write.saturating_add(1)
    }

    /// Returns whether the command stopped at once after this call on standard error failed. What it reported before has to be a beginning
    /// of `told`.
    pub fn stopped_at_tell(&self, tell: u32, told: &[u8]) -> bool {
        self.status == 3
            && told.starts_with(self.err.as_slice())
            && self.tells == tell.saturating_add(1)
    }
}

/// Returns whether a command leaves what the case says, and reports that it cannot read if any one read fails. `run` runs it over the
/// devices that it gets.
pub fn stops_at_each_read<F: Fn(Devices) -> io::Result<Left>>(
    case: &Case<'_>,
    run: F,
) -> io::Result<bool>
    requires { F.IsAlwaysCallable run }
{
    let whole = run(SOUND)?;
    let mut stops = whole.is_of(case);
    for read in 0..whole.reads {
        let cut = run(Devices { read, ..SOUND })?;
        stops = cut.is(3, b"", b"cannot read demo\n") && stops;
    }
    Ok(stops)
}

/// Returns whether a command leaves what the case says, with a buffer of this size, and stops at once and reports that it cannot write if
/// any one write or flush fails.
pub fn stops_at_each_write<F: Fn(Devices) -> io::Result<Left>>(
    case: &Case<'_>,
    room: usize,
    run: F,
) -> io::Result<bool>
    requires { F.IsAlwaysCallable run }
{
    let whole = run(Devices { room, ..SOUND })?;
    let mut stops = whole.is_of(case);
    for write in 0..whole.writes {
        let cut = run(Devices {
            room,
            write,
            ..SOUND
        })?;
        stops = cut.stopped_at_write(write, case.out, case.unwritten) && stops;
    }
    Ok(stops)
}

/// Returns whether a command leaves what the case says, and stops at once if any one write on standard error fails: with everything
/// printed, or with nothing if the write is among the first `before` bytes.
pub fn stops_at_each_tell<F: Fn(Devices) -> io::Result<Left>>(
    case: &Case<'_>,
    before: usize,
    run: F,
) -> io::Result<bool>
    requires { F.IsAlwaysCallable run }
{
    let whole = run(SOUND)?;
    let mut stops = whole.is_of(case);
    for tell in 0..whole.tells {
        let cut = run(Devices { tell, ..SOUND })?;
        let printed = if cut.err.len() < before {
            b""
        } else {
            case.out
        };
        let is_printed = cut.out.as_slice() == printed;
        stops = is_printed && cut.stopped_at_tell(tell, case.err) && stops;
    }
    Ok(stops)
}
