//! The calls of a file, each with its session.
ghost use Rattle.std.specs.Prelude.{◌≡◌, ◌≤◌, ◌==◌, ◌||◌};
ghost use Rattle.cli_file.specs.Parts.{sections_of};
ghost use Rattle.cli_file.specs.Left.{part_of};
ghost use Rattle.std.specs.List.{list_all};
ghost use Rattle.cli_run.specs.Calls.{GivesText, GivesOne, GivesAll, GivesTold};

use crate::header::read_header;
use bc_calls::Call;
use bc_names::Name;
use cli_file::{
    FaultKind, Heading, Section, Sections, Stop, locate, read_body, read_declarations, stop_at,
};
use std::alloc::Global;

/// A call of a file, and the session that is to make it.
#[derive(Drop)]
pub struct SessionCall {
    pub session: u8,
    pub call: Call,
}

/// Returns whether a byte is a space or a line feed.
fn is_blank_byte(byte: u8) -> bool
    ensures { result ≡ (byte == 32 || byte == 10) }
{
    byte == b' ' || byte == b'\n'
}

/// Returns whether a text has only spaces and line feeds.
fn is_blank(text: &[u8]) -> bool
    ensures { result ≡ list_all (λ b. b == 32 || b == 10) text.now }
{
    text.iter().all(|byte| is_blank_byte(*byte))
}

/// Returns the call that removes the body of a name, of a section with a blank text.
fn read_remove(section: &Section<'_>, name: Name) -> Result<Call, Stop>
    ensures { GivesText (Heading.Remove name) (part_of section.now) result }
{
    if !is_blank(section.text) {
        return Err(stop_at(section, FaultKind::TextAfterCall));
    }
    Ok(Call::Remove(name))
}

/// Returns the call that asks for a name, of a section with a blank text.
fn read_ask(section: &Section<'_>, name: Name) -> Result<Call, Stop>
    ensures { GivesText (Heading.Ask name) (part_of section.now) result }
{
    if !is_blank(section.text) {
        return Err(stop_at(section, FaultKind::TextAfterCall));
    }
    Ok(Call::Ask(name))
}

/// Returns the call that asks for all roots, of a section with a blank text.
fn read_all(section: &Section<'_>) -> Result<Call, Stop>
    ensures { GivesText Heading.All (part_of section.now) result }
{
    if !is_blank(section.text) {
        return Err(stop_at(section, FaultKind::TextAfterCall));
    }
    Ok(Call::All)
}

/// Returns the call of a section with this heading.
fn read_text(alloc: Global, section: &Section<'_>, heading: Heading) -> Result<Call, Stop>
    ensures { GivesText heading (part_of section.now) result }
{
    match heading {
        Heading::Types => Ok(Call::Types(read_declarations(alloc, section)?)),
        Heading::Put(name) => Ok(Call::Put(name, read_body(alloc, section)?)),
        Heading::Remove(name) => read_remove(section, name),
        Heading::Ask(name) => read_ask(section, name),
        Heading::All => read_all(section),
    }
}

/// Returns the call of a section, and the session that is to make it, of the given number of sessions.
fn read_call(alloc: Global, section: &Section<'_>, sessions: u8) -> Result<SessionCall, Stop>
    requires { sessions ≤ 16 }
    ensures { GivesOne sessions (part_of section.now) result }
{
    let Some((session, heading)) = read_header(section.header, sessions) else {
        return Err(stop_at(section, FaultKind::BadHeader));
    };
    let call = read_text(alloc, section, heading)?;
    Ok(SessionCall { session, call })
}

/// Returns the calls of a file for the given number of sessions, in the order of its sections. Returns `File` with the first fault of the
/// file if it has one, or `NoMemory`.
pub fn read_calls(alloc: Global, file: &[u8], sessions: u8) -> Result<Vec<SessionCall>, Stop>
    requires { sessions ≤ 16 }
    ensures { GivesAll sessions (sections_of file.now) result }
{
    let mut calls = Vec::new(alloc);
    for section in Sections::of(file) {
        calls.push(read_call(alloc, &section, sessions)?)?;
    }
    Ok(calls)
}

/// Returns the calls of a file for the given number of sessions, in the order of its sections. Returns `File` with the first fault of the
/// file if it has one, and with its position there if `positions` says so, or `NoMemory`.
pub fn read_told_calls(
    alloc: Global,
    sessions: u8,
    positions: bool,
    file: &[u8],
) -> Result<Vec<SessionCall>, Stop>
    requires { sessions ≤ 16 }
    ensures { GivesTold sessions positions file.now result }
{
    match read_calls(alloc, file, sessions) {
        Ok(calls) => Ok(calls),
        Err(stop) => Err(locate(positions, file, stop)),
    }
}
