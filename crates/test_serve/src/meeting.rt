//! A session that puts and is answered while another one is in a provider.
use bc_analyses::{Providers, find_values, providers};
use bc_cons::Facts;
use cli_serve::{Service, serve_over};
use std::alloc::Global;
use std::io::{BufReader, BufWriter, Read, Write};
use std::sync::atomic::AtomicU32;
use std::sync::atomic::Ordering::SeqCst;
use std::sync::{Arc, Wait};
use std::test::Fail;
use std::thread::Threads;
use std::time::{Clock, Duration};
use std::{io, thread};
use test_devices::{Output, SOUND};

/// The most turns of a wait, each of one millisecond.
const MOST_TURNS: u32 = 10_000;

/// The lines of session 0, a put and then an ask, and the answers to all lines.
const TALKS: [(&[u8], &[u8]); 2] = [
    (
        b"{\"call\":\"put\",\"name\":\"f\",\"text\":\"fn()->int{bb0{_0=1;return;}}\"}
{\"call\":\"ask\",\"name\":\"f\"}
",
        b"{\"id\":null,\"number\":0,\"reply\":\"added\",\"session\":0}
{\"id\":null,\"number\":0,\"reply\":\"replaced\",\"session\":1}
{\"id\":null,\"number\":1,\"outcome\":{\"bodies\":[{\"errors\":[],\"name\":\"f\"}],\"kind\":\"report\"},\"session\":0}
",
    ),
    (
        b"{\"call\":\"put\",\"name\":\"f\",\"text\":\"fn()->int{bb0{_0=1;return;}}\"}
{\"call\":\"askall\"}
",
        b"{\"id\":null,\"number\":0,\"reply\":\"added\",\"session\":0}
{\"id\":null,\"number\":0,\"reply\":\"replaced\",\"session\":1}
{\"id\":null,\"number\":1,\"roots\":[{\"name\":\"f\",\"outcome\":{\"bodies\":[{\"errors\":[],\"name\":\"f\"}],\"kind\":\"report\"}}],\"session\":0}
",
    ),
];

/// The put of session 1, once session 0 is in its solver.
const PUT: &[u8] =
    b"{\"session\":1,\"call\":\"put\",\"name\":\"f\",\"text\":\"fn()->int{bb0{_0=2;return;}}\"}\n";

/// The number of calls of the solver, of answers that were flushed, and of waits that were given up.
#[derive(Drop)]
struct Meeting {
    solving: AtomicU32,
    answers: AtomicU32,
    late: AtomicU32,
}

impl Meeting {
    fn new() -> Meeting {
        Meeting {
            solving: AtomicU32::new(0),
            answers: AtomicU32::new(0),
            late: AtomicU32::new(0),
        }
    }

    /// Waits until something was done this many times, or gives up.
    fn hold<C: Clock>(&self, clock: &C, done: &AtomicU32, times: u32) {
        for _turn in 0..MOST_TURNS {
            if done.load(SeqCst) >= times {
                return;
            }
            thread::sleep(clock, Duration::from_millis(1));
        }
        self.late.fetch_add(1, SeqCst);
    }

    /// Counts a call of the solver, and waits in it until two lines are answered: the put of session 0, and that of session 1.
    fn solve<C: Clock>(&self, clock: &C) {
        self.solving.fetch_add(1, SeqCst);
        self.hold(clock, &self.answers, 2);
    }
}

/// An input whose second part comes once the solver was called.
#[derive(Drop)]
struct Parted<'a, R> {
    rt: &'a R,
    meeting: &'a Meeting,
    first: &'a [u8],
    second: &'a [u8],
}

impl<R: Clock> Read for Parted<'_, R> {
    fn read(&mut self, buf: &mut [u8]) -> io::Result<usize> {
        if self.first.is_empty() {
            self.meeting.hold(self.rt, &self.meeting.solving, 1);
            self.first = self.second;
            self.second = b"";
        }
        let count = buf.len().min(self.first.len());
        let (front, rest) = self.first.split_at(count);
        buf[..count].copy_from_slice(front);
        self.first = rest;
        Ok(count)
    }
}

/// An output that counts its flushes, one for each answer.
#[derive(Drop)]
struct Counted<'a> {
    meeting: &'a Meeting,
    taken: Vec<u8>,
}

impl Write for Counted<'_> {
    fn write(&mut self, buf: &[u8]) -> io::Result<usize> {
        self.taken.extend_from_slice(buf)?;
        Ok(buf.len())
    }

    fn flush(&mut self) -> io::Result<()> {
        self.meeting.answers.fetch_add(1, SeqCst);
        Ok(())
    }
}

/// Has two sessions answer these lines, then the put of session 1, which comes once the solver is called. Returns their answers.
fn converse<R: AllocGlobal + Clock + Threads + Wait + Sync>(
    rt: &R,
    providers: &Providers,
    meeting: &Meeting,
    lines: &[u8],
) -> io::Result<Vec<u8>> {
    let alloc = rt.alloc();
    let input = Parted {
        rt,
        meeting,
        first: lines,
        second: PUT,
    };
    let mut input = BufReader::new(alloc, input)?;
    let taken = Vec::new(alloc);
    let mut out = BufWriter::new(alloc, Counted { meeting, taken })?;
    let mut err = Output::new(alloc, SOUND.tell);
    let service = Service::new(providers, 2, 10);
    let _status = serve_over(rt, &service, &mut input, &mut out, &mut err);
    let (out, _unwritten) = out.into_parts();
    Ok(out.taken)
}

/// Catches sessions of `serve` that hold the lock while they ask, for one name or for all: session 0 stays in its solver until the put of
/// session 1 is answered.
#[test]
fn a_put_is_answered_while_another_session_asks(rt: HostRuntime) -> Result<(), Fail> {
    let Ok(meeting) = Arc::new(rt.alloc(), Meeting::new()) else {
        return Err("memory")?;
    };
    let to_solve = Arc::try_clone(&meeting)?;
    let providers = providers!(rt.alloc(), move |alloc: Global, facts: &Facts| {
        to_solve.solve(&rt);
        find_values(alloc, facts)
    });
    for (lines, answers) in TALKS {
        meeting.solving.store(0, SeqCst);
        meeting.answers.store(0, SeqCst);
        let out = converse(&rt, &providers, &meeting, lines)?;
        assert_eq!(rt; out.as_slice(), answers);
    }
    assert_eq!(rt; meeting.late.load(SeqCst), 0, "nobody waits too long");
    Ok(())
}
