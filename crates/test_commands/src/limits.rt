//! The line and status of each stop, and the number of calls that a file may make.
use cli_file::{FaultKind, FileFault, Stop, find_capacity, stop_with};

/// Returns whether a stop has this line on standard error, and this status.
fn is_told(rt: &HostRuntime, stop: &Stop, line: &[u8], status: u8) -> bool {
    let mut err = Vec::new(rt.alloc());
    let found = stop_with("demo", stop, &mut err);
    found.is_ok_and(|found| found == status) && err.as_slice() == line
}

#[test]
fn each_stop_has_its_line_and_its_status(rt: HostRuntime) {
    let fault = FileFault {
        line: 4,
        kind: FaultKind::Grammar { at: 3 },
        position: None,
    };
    for (stop, line, status) in [
        (Stop::WrongUse, b"wrong use\n".as_slice(), 3),
        (Stop::CannotRead, b"cannot read demo\n".as_slice(), 3),
        (Stop::CannotWrite, b"cannot write\n".as_slice(), 3),
        (Stop::CannotTell, b"".as_slice(), 3),
        (Stop::NoMemory, b"no memory\n".as_slice(), 3),
        (Stop::File(fault), b"line 4: grammar at 3\n".as_slice(), 2),
        (Stop::TooManyCalls, b"too many calls\n".as_slice(), 3),
        (Stop::HistoryFull, b"history full\n".as_slice(), 3),
        (Stop::Foreign, b"close: foreign\n".as_slice(), 3),
        (Stop::Audit, b"close: audit\n".as_slice(), 3),
    ] {
        assert!(rt; is_told(&rt, &stop, line, status));
    }
}

#[test]
fn a_file_makes_a_million_calls_and_no_more(rt: HostRuntime) {
    assert!(rt; matches!(find_capacity(0, 0), Ok(1)));
    assert!(rt; matches!(find_capacity(999_998, 2), Ok(1_000_000)));
    assert!(rt; matches!(find_capacity(999_999, 2), Err(Stop::TooManyCalls)));
    assert!(rt; matches!(find_capacity(1, 1_000_000), Err(Stop::TooManyCalls)));
}
