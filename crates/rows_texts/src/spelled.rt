//! How a row spells its text: as it is, except that two `\` enclose an escape. `\8 .*\` is `.*` eight times, and there `#` is the number of
//! the turn, from 1. `\c3\` is the byte of that number in base 16.
use std::alloc::Global;
use std::io::{self, Write};

/// Appends a piece, with the number of the turn for each `#` in it.
fn push_turn(text: &mut Vec<u8>, turn: u32, piece: &str) -> io::Result<()> {
    for byte in piece.bytes() {
        match byte {
            b'#' => write!(text, "{turn}")?,
            _ => text.push(byte)?,
        }
    }
    Ok(())
}

/// Appends a piece `count` times.
fn push_turns(text: &mut Vec<u8>, count: u32, piece: &str) -> io::Result<()> {
    for before in 0..count {
        push_turn(text, before.saturating_add(1), piece)?;
    }
    Ok(())
}

fn push_escape(text: &mut Vec<u8>, escape: &str) -> anyhow::Result<()> {
    match escape.split_once(' ') {
        Some((count, piece)) => push_turns(text, count.parse()?, piece)?,
        None => text.push(u8::from_str_radix(escape, 16)?)?,
    }
    Ok(())
}

/// Returns the text that is spelled like this.
pub fn text_of(alloc: Global, spelled: &str) -> anyhow::Result<Vec<u8>> {
    let mut text = Vec::new(alloc);
    for (index, part) in spelled.split('\\').enumerate() {
        if index % 2 == 0 {
            text.extend_from_slice(part.as_bytes())?;
        } else {
            push_escape(&mut text, part)?;
        }
    }
    Ok(text)
}
