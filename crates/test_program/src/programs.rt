//! The whole program over readers and writers in memory.
use bc_analyses::providers;
use cli_line::{USAGE, read_line};
use cli_program::{Engine, Inputs, obey_line, run_program};
use std::io;
use std::io::{BufWriter, ErrorKind};
use std::sync::Wait;
use std::test::Fail;
use std::thread::Threads;
use test_devices::{
    Case, Devices, Input, Left, Output, SOUND, stops_at_each_tell, stops_at_each_write,
};
use test_fixtures::want_memory;

/// A body without an error, and one that writes a local while it is borrowed.
const GOOD: &[u8] = b"@put f\nfn()->int{bb0{_0=1;return;}}\n";

const CONFLICT: &[u8] =
    b"@put g\nfn () -> int { let _1: int; let _2: &'?0 int; bb0 { _1 = 1; _2 = &'?1 _1; _1 = 2; _0 = copy _2.*; return; } }\n";

const CALLS: &[u8] = b"@0 ask h\n";

const CONFLICT_REPORT: &str =
    "ask g\ng 1\n  conflict bb0[2] access 0 loan bb0[1]\n    chain '?1 '?0\n";

const NO_BODY: &str = "0 0 ask h\nno body\n";

/// The files that exist, with their names.
const FILES: [(&str, &[u8]); 2] = [("good", GOOD), ("conflict", CONFLICT)];

/// Opens these files, as devices read them; others cannot be opened.
#[derive(Drop)]
struct Named {
    devices: Devices,
}

impl Inputs for Named {
    type Input = Input<'static>;

    fn open(&self, name: &str) -> io::Result<Input<'static>> {
        for (own, file) in FILES {
            if own == name {
                return Ok(Input::new(file, self.devices));
            }
        }
        Err(ErrorKind::NotFound.into())
    }
}

/// Returns what devices have after the program ended with this status.
fn left_of(status: u8, out: BufWriter<Output>, err: Output) -> Left {
    let (out, _unwritten) = out.into_parts();
    Left {
        status,
        is_flushed: out.is_flushed(),
        reads: 0,
        writes: out.calls(),
        tells: err.calls(),
        out: out.into_taken(),
        err: err.into_taken(),
    }
}

/// Returns what the program leaves for these words, with these bytes as standard input.
fn leave<R: AllocGlobal + Threads + Wait + Sync>(
    rt: &R,
    words: &[&str],
    standard: &[u8],
    devices: Devices,
) -> io::Result<Left> {
    let alloc = rt.alloc();
    let mut standard = standard;
    let out = Output::new(alloc, devices.write);
    let mut out = BufWriter::with_capacity(alloc, devices.room, out)?;
    let mut err = Output::new(alloc, devices.tell);
    let files = Named { devices };
    let ended = run_program(rt, words, &files, &mut standard, &mut out, &mut err);
    Ok(left_of(ended.unwrap_or(3), out, err))
}

/// Words with a printed answer, standard input, the status, and what is printed.
const PRINTED: [(&[&str], &[u8], u8, &str); 4] = [
    (&["--help"], b"", 0, USAGE),
    (&["--version"], b"", 0, "nlldb 0.1.0\n"),
    (
        &["check", "conflict", "--solver", "plain"],
        b"",
        1,
        CONFLICT_REPORT,
    ),
    (&["run", "-"], CALLS, 2, NO_BODY),
];

#[test]
fn each_write_of_the_program_fails_in_turn(rt: HostRuntime) -> Result<(), Fail> {
    for (number, (words, file, status, out)) in PRINTED.iter().enumerate() {
        let case = Case {
            words,
            file,
            status: *status,
            out: out.as_bytes(),
            err: b"",
            unwritten: b"cannot write\n",
            wants_memory: false,
        };
        for room in [8, 8192] {
            let stops = stops_at_each_write(&case, room, |devices| {
                leave(&rt, case.words, case.file, devices)
            })?;
            assert!(rt; stops, "line {number}");
        }
    }
    Ok(())
}

/// Words that are answered by a line on standard error.
const TOLD: [Case<'static>; 2] = [
    Case {
        words: &["help"],
        file: b"",
        status: 3,
        out: b"",
        err: b"wrong use\n",
        unwritten: b"",
        wants_memory: false,
    },
    Case {
        words: &["run", "none"],
        file: b"",
        status: 3,
        out: b"",
        err: b"cannot read none\n",
        unwritten: b"",
        wants_memory: false,
    },
];

#[test]
fn each_line_of_the_program_fails_in_turn(rt: HostRuntime) -> Result<(), Fail> {
    for (number, case) in TOLD.iter().enumerate() {
        let stops = stops_at_each_tell(case, 0, |devices| {
            leave(&rt, case.words, case.file, devices)
        })?;
        assert!(rt; stops, "case {number}");
    }
    Ok(())
}

#[test]
fn tells_that_a_file_cannot_be_read(rt: HostRuntime) -> Result<(), Fail> {
    let left = leave(&rt, &["check", "good"], b"", Devices { read: 1, ..SOUND })?;
    assert!(rt; left.is(3, b"", b"cannot read good\n"));
    Ok(())
}

#[test]
fn tells_want_of_memory(rt: HostRuntime) -> Result<(), Fail> {
    let alloc = rt.alloc();
    let line = read_line(alloc, &["check", "good"])?;
    let mut out = BufWriter::new(alloc, Output::new(alloc, SOUND.write))?;
    let mut err = Output::new(alloc, SOUND.tell);
    let files = Named { devices: SOUND };
    let providers = providers!(alloc, want_memory);
    let mut standard = b"".as_slice();
    let engine = Engine {
        rt: &rt,
        providers: &providers,
    };
    let status = obey_line(&engine, &line, &files, &mut standard, &mut out, &mut err)?;
    assert!(rt; left_of(status, out, err).is(3, b"", b"no memory\n"));
    Ok(())
}
