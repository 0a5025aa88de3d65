//! Running `serve` over readers and writers in memory.
use bc_analyses::providers;
use cli_serve::{Service, serve_over};
use std::io;
use std::io::{BufReader, BufWriter};
use std::sync::Wait;
use std::thread::Threads;
use test_devices::{Devices, Input, Left, Output};

/// Runs the command with one session on this input over these devices, with the program's providers, as the program runs it, and returns
/// what it leaves. The output is buffered, and what the buffer still holds at the end is dropped.
pub fn leave<R: AllocGlobal + Threads + Wait + Sync>(
    rt: &R,
    input: &[u8],
    devices: Devices,
) -> io::Result<Left> {
    let alloc = rt.alloc();
    let providers = providers!(alloc);
    let mut input = BufReader::new(alloc, Input::new(input, devices))?;
    let out = Output::new(alloc, devices.write);
    let mut out = BufWriter::with_capacity(alloc, devices.room, out)?;
    let mut err = Output::new(alloc, devices.tell);
    let service = Service::new(&providers, 1, 1000);
    let status = serve_over(rt, &service, &mut input, &mut out, &mut err);
    let (out, _unwritten) = out.into_parts();
    Ok(Left::of(status, input.get_ref(), out, err))
}
