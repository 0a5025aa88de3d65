//! What the program reports if standard error is a buffer.
use bc_analyses::providers;
use cli_line::read_line;
use cli_program::{Engine, Inputs, obey_line, run_on_system, run_program};
use std::alloc::Global;
use std::io;
use std::io::{BufWriter, ErrorKind};
use std::sync::Wait;
use std::test::Fail;
use std::thread::Threads;
use test_devices::{Output, SOUND};

/// Opens no file.
#[derive(Clone, Copy)]
struct NoFiles;

impl Inputs for NoFiles {
    type Input = &'static [u8];

    fn open(&self, _name: &str) -> io::Result<&'static [u8]> {
        Err(ErrorKind::NotFound.into())
    }
}

/// Words, and what the program reports for them if standard input has one letter.
const TOLD: [(&[&str], &[u8]); 5] = [
    (&["good"], b"wrong use\n"),
    (&["check", "none"], b"cannot read none\n"),
    (&["run", "-"], b"line 1: bad header\n"),
    (&["print", "-"], b"line 1: bad header\n"),
    (&["--version"], b""),
];

/// Returns a buffer over a writer that never fails.
fn buffer(alloc: Global) -> io::Result<BufWriter<Output>> {
    BufWriter::with_capacity(alloc, SOUND.room, Output::new(alloc, SOUND.tell))
}

/// Returns what the writer of a buffer has taken.
fn taken(buffer: BufWriter<Output>) -> Vec<u8> {
    let (out, _unwritten) = buffer.into_parts();
    out.into_taken()
}

/// Returns what standard error has after the program ran on these words.
fn told_of_words<R: AllocGlobal + Threads + Wait + Sync>(
    rt: &R,
    words: &[&str],
) -> io::Result<Vec<u8>> {
    let mut standard = b"x".as_slice();
    let (mut out, mut err) = (buffer(rt.alloc())?, buffer(rt.alloc())?);
    run_program(rt, words, &NoFiles, &mut standard, &mut out, &mut err)?;
    Ok(taken(err))
}

/// Catches a line that is left in the buffer when the program has ended.
#[test]
fn what_is_told_of_words_is_handed_on(rt: HostRuntime) -> Result<(), Fail> {
    for (words, told) in TOLD {
        assert!(rt; told_of_words(&rt, words)?.as_slice() == told);
    }
    Ok(())
}

/// Catches a line that is left in the buffer when the command of a line has ended.
#[test]
fn what_is_told_of_a_line_is_handed_on(rt: HostRuntime) -> Result<(), Fail> {
    let alloc = rt.alloc();
    let line = read_line(alloc, &["check", "none"])?;
    let providers = providers!(alloc);
    let mut standard = b"x".as_slice();
    let (mut out, mut err) = (buffer(alloc)?, buffer(alloc)?);
    let engine = Engine {
        rt: &rt,
        providers: &providers,
    };
    obey_line(&engine, &line, &NoFiles, &mut standard, &mut out, &mut err)?;
    assert!(rt; taken(err).as_slice() == b"cannot read none\n".as_slice());
    Ok(())
}

/// Catches a line that is left in the buffer when the program of the system has ended. The words of a test are no command line.
#[test]
fn what_is_told_on_the_system_is_handed_on(rt: HostRuntime) -> Result<(), Fail> {
    let alloc = rt.alloc();
    let mut err = buffer(alloc)?;
    let out = Output::new(alloc, SOUND.write);
    assert_eq!(rt; run_on_system(&rt, b"x".as_slice(), out, &mut err), 3);
    assert!(rt; taken(err).as_slice() == b"wrong use\n".as_slice());
    Ok(())
}
