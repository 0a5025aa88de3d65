//! A conversation over readers and writers, with each call failing in turn.
use crate::command::leave;
use crate::talks::{ANSWERS, LINES};
use std::test::Fail;
use test_devices::{Case, Devices, SOUND, stops_at_each_write};

/// Lets each read fail in turn: what was read before is answered.
#[test]
fn each_read_fails_in_turn(rt: HostRuntime) -> Result<(), Fail> {
    let whole = leave(&rt, LINES, SOUND)?;
    for read in 0..whole.reads {
        let cut = leave(&rt, LINES, Devices { read, ..SOUND })?;
        let told = cut.status == 3 && cut.err.as_slice() == b"cannot read\n".as_slice();
        assert!(rt;
            told && ANSWERS.starts_with(cut.out.as_slice()),
            "read {read}"
        );
    }
    Ok(())
}

/// The conversation, with one writer for all answers.
const CASE: Case<'static> = Case {
    words: &["serve"],
    file: LINES,
    status: 0,
    out: ANSWERS,
    err: b"",
    unwritten: b"cannot write\n",
    wants_memory: false,
};

/// Lets each line be answered, then each write and each flush fail in turn, of a device that sees each write at once and of one with a
/// buffer: nothing more is written.
#[test]
fn each_write_fails_in_turn(rt: HostRuntime) -> Result<(), Fail> {
    for room in [0, 8192] {
        let stops = stops_at_each_write(&CASE, room, |devices| leave(&rt, LINES, devices))?;
        assert!(rt; stops, "room {room}");
    }
    Ok(())
}

/// Lets standard error fail after the input did: the status is still 3.
#[test]
fn a_line_that_cannot_be_told_leaves_the_status(rt: HostRuntime) -> Result<(), Fail> {
    let cut = leave(
        &rt,
        LINES,
        Devices {
            read: 0,
            tell: 0,
            ..SOUND
        },
    )?;
    assert!(rt; cut.is(3, b"", b""));
    Ok(())
}
