//! The changes that a file of `check` makes.
ghost use Rattle.std.specs.Prelude.{◌≡◌, ◌↔◌, IsTrue, IfSome, IfNone, None, map, codes};
ghost use Rattle.bc_text.specs.Reading.{read, read_types};
ghost use Rattle.cli_file.specs.declared.heading.Heading.{Heading};
ghost use Rattle.cli_file.specs.Parts.{sections_of};
ghost use Rattle.cli_file.specs.Left.{part_of};
ghost use Rattle.cli_file.specs.Headings.{IsHeader};
ghost use Rattle.cli_file.specs.Sections.{GivesRead, IsBlank, stop_of};
ghost use Rattle.cli_file.specs.Changes.{GivesChange, GivesChanges, GivesTold};

use crate::fault::{FaultKind, FileFault};
use crate::heading::{Heading, behind, read_heading};
use crate::location::locate;
use crate::section::{Section, Sections};
use crate::stop::Stop;
use bc_names::Name;
use bc_prov::{Shared, share};
use bc_syntax::{Types, Unit};
use bc_text::{ReadFault, read_types, read_unit};
use std::alloc::Global;

/// A change that a section makes: it stores declarations, or a body under a name.
#[derive(Drop)]
pub enum FileChange {
    Types(Shared<Types>),
    Put(Name, Shared<Unit>),
}

/// Returns why a command stops at a section whose text cannot be read: a fault of the file at the line of the section's header, or
/// `NoMemory`.
fn text_stop(line: usize, fault: ReadFault) -> Stop
    ensures { result ≡ stop_of line fault }
{
    let kind = match fault {
        ReadFault::TooLong => FaultKind::TooLong,
        ReadFault::NotAscii { at } => FaultKind::NotAscii { at },
        ReadFault::Token { at } => FaultKind::Token { at },
        ReadFault::Grammar { at } => FaultKind::Grammar { at },
        ReadFault::Limit { at } => FaultKind::Limit { at },
        ReadFault::NoMemory => return Stop::NoMemory,
    };
    Stop::File(FileFault {
        line,
        kind,
        position: None,
    })
}

/// Returns the declarations that the text of a section spells. Returns `File` with the text's fault, at the line of the section's header, or
/// `NoMemory`.
pub fn read_declarations(alloc: Global, section: &Section<'_>) -> Result<Shared<Types>, Stop>
    ensures { GivesRead (read_types section.now.text.now) (part_of section.now) result }
{
    let types = match read_types(alloc, section.text) {
        Ok(types) => types,
        Err(fault) => return Err(text_stop(section.line, fault)),
    };
    Ok(share(alloc, types)?)
}

/// Returns the unit that the text of a section spells. Returns `File` with the text's fault, at the line of the section's header, or
/// `NoMemory`.
pub fn read_body(alloc: Global, section: &Section<'_>) -> Result<Shared<Unit>, Stop>
    ensures { GivesRead (read section.now.text.now) (part_of section.now) result }
{
    let unit = match read_unit(alloc, section.text) {
        Ok(unit) => unit,
        Err(fault) => return Err(text_stop(section.line, fault)),
    };
    Ok(share(alloc, unit)?)
}

/// Returns why a command stops at a section with this fault: a fault of the file at the line of the section's header.
pub fn stop_at(section: &Section<'_>, kind: FaultKind) -> Stop
    ensures { result ≡ Stop.File (record { line = section.now.line; kind = kind; position = None }) }
{
    let line = section.line;
    Stop::File(FileFault {
        line,
        kind,
        position: None,
    })
}

/// Returns the heading of a header line that names no session, or `None` exactly if it has none.
fn read_header(header: &[u8]) -> Option<Heading>
    ensures found { IfSome result (λ heading. IsHeader None heading header.now) }
    ensures none { IfNone result ((heading : Heading) → ¬ IsHeader None heading header.now) }
{
    read_heading(behind(header, b"@")?)
}

/// Returns the change of a section with this heading.
fn read_asked(alloc: Global, section: &Section<'_>, heading: Heading) -> Result<FileChange, Stop>
    requires { IsHeader None heading section.now.header.now }
    ensures { GivesChange (part_of section.now) result }
{
    match heading {
        Heading::Types => Ok(FileChange::Types(read_declarations(alloc, section)?)),
        Heading::Put(name) => Ok(FileChange::Put(name, read_body(alloc, section)?)),
        Heading::Remove(_) => Err(stop_at(section, FaultKind::BadHeader)),
        Heading::Ask(_) => Err(stop_at(section, FaultKind::BadHeader)),
        Heading::All => Err(stop_at(section, FaultKind::BadHeader)),
    }
}

/// Returns the change that a section makes.
pub(crate) fn read_change(alloc: Global, section: &Section<'_>) -> Result<FileChange, Stop>
    ensures { GivesChange (part_of section.now) result }
{
    match read_header(section.header) {
        Some(heading) => read_asked(alloc, section, heading),
        None => Err(stop_at(section, FaultKind::BadHeader)),
    }
}

/// Returns the changes that a file makes, in the order of its sections. Returns `File` with the first fault of the file if it has one, or
/// `NoMemory`.
pub fn read_changes(alloc: Global, file: &[u8]) -> Result<Vec<FileChange>, Stop>
    ensures { GivesChanges (sections_of file.now) result }
{
    let mut changes = Vec::new(alloc);
    for section in Sections::of(file) {
        changes.push(read_change(alloc, &section)?)?;
    }
    Ok(changes)
}

/// Returns the changes that a file makes, in the order of its sections. Returns `File` with the first fault of the file if it has one, and
/// with its position there if `positions` says so, or `NoMemory`.
pub fn read_told_changes(
    alloc: Global,
    positions: bool,
    file: &[u8],
) -> Result<Vec<FileChange>, Stop>
    ensures { GivesTold positions file.now result }
{
    match read_changes(alloc, file) {
        Ok(changes) => Ok(changes),
        Err(stop) => Err(locate(positions, file, stop)),
    }
}
