//! A row is a line: a question, a space, and a text, which is empty after the question alone. `name` asks which name the text is, and
//! `points` where the points of the unit that it spells begin. Lines that begin with `#`, and empty ones, are no rows.
use crate::spelled::text_of;
use anyhow::bail;
use bc_names::Name;
use bc_places::point_places;
use bc_text::ReadFault;
use std::alloc::Global;
use std::io::{self, Write};

/// Writes why a text cannot be read, in the words of a report.
fn write_fault<W: Write>(fault: &ReadFault, out: &mut W) -> io::Result<()> {
    match fault {
        ReadFault::TooLong => writeln!(out, "too long"),
        ReadFault::NotAscii { at } => writeln!(out, "not ascii at {at}"),
        ReadFault::Token { at } => writeln!(out, "token at {at}"),
        ReadFault::Grammar { at } => writeln!(out, "grammar at {at}"),
        ReadFault::Limit { at } => writeln!(out, "limit at {at}"),
        ReadFault::NoMemory => writeln!(out, "no memory"),
    }
}

fn write_name<W: Write>(text: &[u8], out: &mut W) -> io::Result<()> {
    match Name::read(text) {
        Some(name) => writeln!(out, "{name} at depth {}", name.depth()),
        None => writeln!(out, "none"),
    }
}

fn write_places<W: Write>(places: &[usize], out: &mut W) -> io::Result<()> {
    write!(out, "begin at")?;
    for place in places {
        write!(out, " {place}")?;
    }
    writeln!(out)
}

fn write_points<W: Write>(alloc: Global, text: &[u8], out: &mut W) -> io::Result<()> {
    match point_places(alloc, text) {
        Ok(places) => write_places(&places, out),
        Err(fault) => write_fault(&fault, out),
    }
}

/// Writes a line, and below a row its answer.
pub fn show_line<W: Write>(alloc: Global, line: &str, out: &mut W) -> anyhow::Result<()> {
    writeln!(out, "{line}")?;
    if line.is_empty() || line.starts_with('#') {
        return Ok(());
    }
    let (question, spelled) = line.split_once(' ').unwrap_or((line, ""));
    let text = text_of(alloc, spelled)?;
    write!(out, "  ")?;
    match question {
        "name" => write_name(&text, out)?,
        "points" => write_points(alloc, &text, out)?,
        _ => bail!("nothing is called {question}"),
    }
    Ok(())
}
