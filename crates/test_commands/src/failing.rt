//! `check` and `run` over readers and writers, with each call failing in turn.
use crate::command::leave_with;
use crate::{checks, runs};
use bc_analyses::providers;
use std::io;
use std::sync::Wait;
use std::test::Fail;
use std::thread::Threads;
use test_devices::{
    Case, Devices, Left, stops_at_each_read, stops_at_each_tell, stops_at_each_write,
};
use test_fixtures::want_memory;

/// A body that writes a local while it is borrowed.
const CONFLICT: &[u8] =
    b"@put f\nfn () -> int { let _1: int; let _2: &'?0 int; bb0 { _1 = 1; _2 = &'?1 _1; _1 = 2; _0 = copy _2.*; return; } }\n";

/// Cases of `check`: files with an error, with a put that stores nothing, with a fault, and empty. Some are printed as text and as JSON,
/// and in some an ask is out of memory: the first one, and the second one, with four jobs and with one.
const CHECKS: [Case<'static>; 10] = [
    Case {
        words: checks::TEXT,
        file: CONFLICT,
        status: 1,
        out: b"ask f\nf 1\n  conflict bb0[2] access 0 loan bb0[1]\n    chain '?1 '?0\n",
        err: b"",
        unwritten: b"cannot write\n",
        wants_memory: false,
    },
    Case {
        words: checks::JSON,
        file: CONFLICT,
        status: 1,
        out: b"{\"ask\":\"f\",\"outcome\":{\"bodies\":[{\"errors\":[{\"access\":0,\"at\":\"bb0[2]\",\"chain\":[\"'?1\",\"'?0\"],\"kind\":\"conflict\",\"loan\":\"bb0[1]\"}],\"name\":\"f\"}],\"kind\":\"report\"}}\n",
        err: b"",
        unwritten: b"cannot write\n",
        wants_memory: false,
    },
    Case {
        words: checks::TEXT,
        file: checks::FILE,
        status: 2,
        out: checks::REPORTS,
        err: checks::REFUSED,
        unwritten: b"put f/0 wrongkind\ncannot write\n",
        wants_memory: false,
    },
    Case {
        words: checks::JSON,
        file: checks::FILE,
        status: 2,
        out: checks::JSON_REPORTS,
        err: checks::REFUSED,
        unwritten: b"put f/0 wrongkind\ncannot write\n",
        wants_memory: false,
    },
    Case {
        words: checks::TEXT,
        file: b"@put f\nfn()->int{bb0{return;}}\nx\n@put 9\n",
        status: 2,
        out: b"",
        err: b"line 1: grammar at 24\n",
        unwritten: b"",
        wants_memory: false,
    },
    Case {
        words: checks::JSON,
        file: b"x",
        status: 2,
        out: b"",
        err: b"line 1: bad header\n",
        unwritten: b"",
        wants_memory: false,
    },
    Case {
        words: checks::TEXT,
        file: b"",
        status: 0,
        out: b"",
        err: b"",
        unwritten: b"cannot write\n",
        wants_memory: false,
    },
    Case {
        words: checks::TEXT,
        file: checks::FILE,
        status: 3,
        out: b"",
        err: b"put f/0 wrongkind\nno memory\n",
        unwritten: b"put f/0 wrongkind\ncannot write\n",
        wants_memory: true,
    },
    Case {
        words: checks::FOUR_JOBS,
        file: b"@put a\nclosure[]()->int{bb0{return;}}\n@put f\nfn()->int{bb0{_0=1;return;}}\n",
        status: 3,
        out: b"ask a\nno body\n",
        err: b"put a wrongkind\nno memory\n",
        unwritten: b"put a wrongkind\ncannot write\n",
        wants_memory: true,
    },
    Case {
        words: checks::ONE_JOB,
        file: b"@put a\nclosure[]()->int{bb0{return;}}\n@put f\nfn()->int{bb0{_0=1;return;}}\n",
        status: 3,
        out: b"ask a\nno body\n",
        err: b"put a wrongkind\nno memory\n",
        unwritten: b"put a wrongkind\ncannot write\n",
        wants_memory: true,
    },
];

/// Cases of `run`: files without an error, with one, with a fault, and empty, and one whose session stops. Some are printed as text and as
/// JSON.
const RUNS: [Case<'static>; 7] = [
    Case {
        words: runs::ONE,
        file: runs::FILE,
        status: 0,
        out: runs::HISTORY,
        err: b"",
        unwritten: b"cannot write\n",
        wants_memory: false,
    },
    Case {
        words: runs::TWO,
        file: b"@1 put f\nfn () -> int { let _1: int; let _2: &'?0 int; bb0 { _1 = 1; _2 = &'?1 _1; _1 = 2; _0 = copy _2.*; return; } }\n@1 ask f\n",
        status: 1,
        out: b"1 0 put f added\n1 1 ask f\nf 1\n  conflict bb0[2] access 0 loan bb0[1]\n    chain '?1 '?0\n",
        err: b"",
        unwritten: b"cannot write\n",
        wants_memory: false,
    },
    Case {
        words: runs::ONE,
        file: b"@0 ask f\nx\n",
        status: 2,
        out: b"",
        err: b"line 1: text after call\n",
        unwritten: b"",
        wants_memory: false,
    },
    Case {
        words: runs::ONE,
        file: b"",
        status: 0,
        out: b"",
        err: b"",
        unwritten: b"cannot write\n",
        wants_memory: false,
    },
    Case {
        words: runs::ONE,
        file: runs::FILE,
        status: 3,
        out: b"0 0 put f added\n",
        err: b"session 0 stopped: no memory\n",
        unwritten: b"cannot write\n",
        wants_memory: true,
    },
    Case {
        words: runs::ONE_JSON,
        file: runs::FILE,
        status: 0,
        out: runs::JSON_HISTORY,
        err: b"",
        unwritten: b"cannot write\n",
        wants_memory: false,
    },
    Case {
        words: runs::ONE_JSON,
        file: runs::FILE,
        status: 3,
        out: b"{\"number\":0,\"reply\":\"added\",\"session\":0}\n",
        err: b"session 0 stopped: no memory\n",
        unwritten: b"cannot write\n",
        wants_memory: true,
    },
];

/// Returns what the command of a case leaves over these devices.
fn leave_case<R: AllocGlobal + Threads + Wait + Sync>(
    rt: &R,
    case: &Case<'_>,
    devices: Devices,
) -> io::Result<Left> {
    let providers = if case.wants_memory {
        providers!(rt.alloc(), want_memory)
    } else {
        providers!(rt.alloc())
    };
    leave_with(rt, &providers, case.words, case.file, devices)
}

#[test]
fn each_read_fails_in_turn(rt: HostRuntime) -> Result<(), Fail> {
    for (number, case) in CHECKS.iter().chain(RUNS.iter()).enumerate() {
        let stops = stops_at_each_read(case, |devices| leave_case(&rt, case, devices))?;
        assert!(rt; stops, "case {number}");
    }
    Ok(())
}

/// Lets each write and each flush fail in turn: of a device that sees each write at once, of one whose buffer is emptied in between, and of
/// one whose buffer is emptied once.
#[test]
fn each_write_fails_in_turn(rt: HostRuntime) -> Result<(), Fail> {
    for (number, case) in CHECKS.iter().chain(RUNS.iter()).enumerate() {
        for room in [0, 8, 8192] {
            let stops = stops_at_each_write(case, room, |devices| leave_case(&rt, case, devices))?;
            assert!(rt; stops, "case {number}");
        }
    }
    Ok(())
}

/// Lets each write on standard error fail in turn: of the line of a put, of a fault, and of a session that stopped. If the line of a put
/// fails, `check` has printed nothing; if its last line fails, it has printed all before that. `run` has printed its history.
#[test]
fn each_line_fails_in_turn(rt: HostRuntime) -> Result<(), Fail> {
    for (number, case) in CHECKS.iter().enumerate() {
        let puts = case.unwritten.len().saturating_sub(b"cannot write\n".len());
        let stops = stops_at_each_tell(case, puts, |devices| leave_case(&rt, case, devices))?;
        assert!(rt; stops, "case {number} of check");
    }
    for (number, case) in RUNS.iter().enumerate() {
        let stops = stops_at_each_tell(case, 0, |devices| leave_case(&rt, case, devices))?;
        assert!(rt; stops, "case {number} of run");
    }
    Ok(())
}
