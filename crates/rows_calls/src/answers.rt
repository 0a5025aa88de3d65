//! The answers to rows, as lines.
use anyhow::{Error, Result};
use bc_prov::{Listing, Outcome};
use bc_report::write_report;
use std::alloc::Global;
use std::io::Write;

/// The lines that answer a row, or why it is refused.
pub type Answer = Result<Vec<u8>>;

/// Returns a line of this text.
pub fn line(alloc: Global, text: &str) -> Answer {
    marked(alloc, "", text)
}

/// Returns a line with a mark and this text.
pub fn marked(alloc: Global, mark: &str, text: &str) -> Answer {
    let mut line = Vec::new(alloc);
    writeln!(line, "{mark}{text}")?;
    Ok(line)
}

/// Returns a line with a count of something.
pub fn counted(alloc: Global, count: usize, what: &str) -> Answer {
    let mut line = Vec::new(alloc);
    writeln!(line, "{count} {what}")?;
    Ok(line)
}

/// Returns the line that says why something is refused.
pub fn refusal(alloc: Global, why: &Error) -> Answer {
    let mut line = Vec::new(alloc);
    writeln!(line, "{why}")?;
    Ok(line)
}

/// Returns the report of an outcome.
pub fn report(alloc: Global, outcome: &Outcome) -> Answer {
    let mut lines = Vec::new(alloc);
    write_report(outcome, &mut lines)?;
    Ok(lines)
}

/// Returns the number of listed roots, and the name and report of each.
pub fn listed(alloc: Global, listing: &Listing) -> Answer {
    let mut lines = counted(alloc, listing.len(), "roots")?;
    for row in listing.as_slice() {
        let name = row.0;
        writeln!(lines, "root {name}")?;
        write_report(row.1.get(), &mut lines)?;
    }
    Ok(lines)
}
