//! Running a command over readers and writers in memory.
use bc_prov::Providers;
use cli_check::check_over;
use cli_line::{Line, read_line};
use cli_run::run_over;
use std::alloc::Global;
use std::io;
use std::io::{BufWriter, ErrorKind};
use std::sync::Wait;
use std::thread::Threads;
use test_devices::{Devices, Input, Left, Output};

/// Returns the command line of these words.
fn line_of(alloc: Global, words: &[&str]) -> io::Result<Line> {
    match read_line(alloc, words) {
        Ok(line) => Ok(line),
        Err(_) => Err(ErrorKind::Other.into()),
    }
}

/// Runs the command of these words on this file over these devices, with these providers, as the program runs it, and returns what it
/// leaves. The output is buffered, and what the buffer still holds at the end is dropped. The status is 3 if standard error fails.
pub fn leave_with<R: AllocGlobal + Threads + Wait + Sync>(
    rt: &R,
    providers: &Providers,
    words: &[&str],
    file: &[u8],
    devices: Devices,
) -> io::Result<Left> {
    let alloc = rt.alloc();
    let line = line_of(alloc, words)?;
    let mut input = Input::new(file, devices);
    let out = Output::new(alloc, devices.write);
    let mut out = BufWriter::with_capacity(alloc, devices.room, out)?;
    let mut err = Output::new(alloc, devices.tell);
    let status = match &line {
        Line::Check(_) => check_over(rt, providers, &line, &mut input, &mut out, &mut err),
        Line::Run(_) => run_over(rt, providers, &line, &mut input, &mut out, &mut err),
        Line::Serve(_) | Line::Print(_) => return Err(ErrorKind::Other.into()),
    };
    let (out, _unwritten) = out.into_parts();
    Ok(Left::of(status, &input, out, err))
}
