//! The command `print` over readers and writers in memory, which may fail at one call.
use cli_line::{Line, read_line};
use cli_print::print_over;
use std::alloc::Global;
use std::io;
use std::io::{BufWriter, ErrorKind};
use std::test::Fail;
use test_devices::{
    Case, Devices, Input, Left, Output, stops_at_each_read, stops_at_each_tell, stops_at_each_write,
};

/// Files with a fault after a good section, with declarations and bodies, with a header line that `check` does not take, with texts without
/// a token, and empty; and faults with their positions, one of which has no byte.
const PRINTS: [Case<'static>; 8] = [
    Case {
        words: &["print", "demo"],
        file: b"@types\nstruct S<+'a> drop { &'a int; }\nextern f()->int;\n@put f/0\nclosure['static: int]",
        status: 2,
        out: b"",
        err: b"line 4: grammar at 8\n",
        unwritten: b"",
        wants_memory: false,
    },
    Case {
        words: &["print", "demo"],
        file: b"@types\nstruct S<+'a> drop { &'a int; }\nextern f()->int;\n@put f/0\n\nclosure[int]()->int{bb0{_0=copy _1;\nreturn;}}\n@put g\nfn()->int{bb0{return;}}",
        status: 0,
        out: b"@types\nstruct S < + 'a > drop { & 'a int ; } extern f ( ) -> int ;\n@put f/0\nclosure [ int ] ( ) -> int { bb0 { _0 = copy _1 ; return ; } }\n@put g\nfn ( ) -> int { bb0 { return ; } }\n",
        err: b"",
        unwritten: b"cannot write\n",
        wants_memory: false,
    },
    Case {
        words: &["print", "demo"],
        file: b"@put f\nfn()->int{bb0{return;}}\n@ask f\n",
        status: 2,
        out: b"",
        err: b"line 3: bad header\n",
        unwritten: b"",
        wants_memory: false,
    },
    Case {
        words: &["print", "demo"],
        file: b"@types\n@types\n\n \n@put f\nfn()->int{bb0{return;}}\n",
        status: 0,
        out: b"@types\n\n@types\n\n@put f\nfn ( ) -> int { bb0 { return ; } }\n",
        err: b"",
        unwritten: b"cannot write\n",
        wants_memory: false,
    },
    Case {
        words: &["print", "demo"],
        file: b"",
        status: 0,
        out: b"",
        err: b"",
        unwritten: b"cannot write\n",
        wants_memory: false,
    },
    Case {
        words: &["print", "demo", "--positions"],
        file: b"@types\nstruct S<+'a> drop { &'a int; }\nextern f()->int;\n@put f/0\nclosure\n['static: int]",
        status: 2,
        out: b"",
        err: b"line 4: grammar at 9 (line 6, column 2)\n",
        unwritten: b"",
        wants_memory: false,
    },
    Case {
        words: &["print", "--positions", "demo"],
        file: b"@put f\nfn()->int{bb0{return;}}\n@ask f\n",
        status: 2,
        out: b"",
        err: b"line 3: bad header\n",
        unwritten: b"",
        wants_memory: false,
    },
    Case {
        words: &["print", "--positions", "demo"],
        file: b"@put f\nfn()->int{bb0{return;}}\n",
        status: 0,
        out: b"@put f\nfn ( ) -> int { bb0 { return ; } }\n",
        err: b"",
        unwritten: b"cannot write\n",
        wants_memory: false,
    },
];

/// Returns the command line of these words.
fn line_of(alloc: Global, words: &[&str]) -> io::Result<Line> {
    match read_line(alloc, words) {
        Ok(line) => Ok(line),
        Err(_) => Err(ErrorKind::Other.into()),
    }
}

/// Returns what the command of these words leaves of a file over these devices, run as the program runs it.
fn leave_print(
    rt: &HostRuntime,
    words: &[&str],
    file: &[u8],
    devices: Devices,
) -> io::Result<Left> {
    let alloc = rt.alloc();
    let line = line_of(alloc, words)?;
    let Line::Print(print) = &line else {
        return Err(ErrorKind::Other.into());
    };
    let mut input = Input::new(file, devices);
    let out = Output::new(alloc, devices.write);
    let mut out = BufWriter::with_capacity(alloc, devices.room, out)?;
    let mut err = Output::new(alloc, devices.tell);
    let status = print_over(alloc, print, &mut input, &mut out, &mut err);
    let (out, _unwritten) = out.into_parts();
    Ok(Left::of(status, &input, out, err))
}

/// Each text is printed in its one spelling; then each read, each write and flush, and each write on standard error fails in turn.
#[test]
fn each_call_of_print_fails_in_turn(rt: HostRuntime) -> Result<(), Fail> {
    for (number, case) in PRINTS.iter().enumerate() {
        let reads = stops_at_each_read(
            case,
            |devices| leave_print(&rt, case.words, case.file, devices),
        )?;
        assert!(rt; reads, "reads of case {number}");
        for room in [0, 8, 8192] {
            let writes = stops_at_each_write(
                case,
                room,
                |devices| leave_print(&rt, case.words, case.file, devices),
            )?;
            assert!(rt; writes, "writes of case {number}");
        }
        let tells = stops_at_each_tell(
            case,
            0,
            |devices| leave_print(&rt, case.words, case.file, devices),
        )?;
        assert!(rt; tells, "lines of case {number}");
    }
    Ok(())
}
