//! Threads that share the reading of a file's sections.
ghost use Rattle.std.specs.Prelude.{◌≡◌, IfOk};
ghost use Rattle.cli_file.specs.Parts.{sections_of};
ghost use Rattle.cli_file.specs.Left.{part_of};
ghost use Rattle.cli_file.specs.Changes.{GivesChange, GivesChanges, GivesTold};

use crate::file::{FileChange, read_change, read_told_changes};
use crate::location::locate;
use crate::section::{Section, Sections};
use crate::stop::Stop;
use std::alloc::{AllocError, Global};
use std::marker::Model;
use std::thread;
use std::thread::Threads;

/// A section of a file, and what it was read as, once it was read. Contracts see the section. What was read is always what the section
/// spells.
#[derive(Drop)]
struct PendingSection<'a> {
    section: Section<'a>,
    read: Option<Result<FileChange, Stop>>,
}

impl<'a> Model for PendingSection<'a> {
    ghost use Rattle.std.specs.Prelude.{IfSome};
    ghost use Rattle.cli_file.specs.Parts.{Part};
    ghost use Rattle.cli_file.specs.Left.{part_of};
    ghost use Rattle.cli_file.specs.Changes.{GivesChange};

    ghost Value = { Part };

    ghost view = { λ pending. part_of pending.section };

    ghost invariant = { λ pending. IfSome pending.read (λ read. GivesChange (part_of pending.section) read) };
}

impl<'a> PendingSection<'a> {
    /// Returns a section that was not read yet.
    fn new(section: Section<'a>) -> PendingSection<'a>
        ensures { result ≡ part_of section.entry }
    {
        PendingSection {
            section,
            read: None,
        }
    }

    /// Reads the section, and keeps the result.
    fn read(&mut self, alloc: Global)
        ensures { self.new ≡ self.old }
    {
        let read = read_change(alloc, &self.section);
        self.read = Some(read);
    }

    /// Returns the change that the section makes. It is read now if it was not read yet.
    fn into_change(self, alloc: Global) -> Result<FileChange, Stop>
        ensures { GivesChange self.entry result }
    {
        match self.read {
            Some(read) => read,
            None => read_change(alloc, &self.section),
        }
    }
}

/// Returns the sections of a file, none of them read yet.
fn list_sections<'a>(alloc: Global, file: &'a [u8]) -> Result<Vec<PendingSection<'a>>, AllocError>
    ensures { IfOk result (λ sections. sections.items ≡ sections_of file.now) }
{
    let mut sections = Vec::new(alloc);
    for section in Sections::of(file) {
        sections.push(PendingSection::new(section))?;
    }
    Ok(sections)
}

/// Reads each of these sections, in at most `threads` threads.
fn read_each<R: Threads + Sync>(
    rt: &R,
    alloc: Global,
    threads: usize,
    sections: &mut [PendingSection<'_>],
)
    ensures { sections.new ≡ sections.old }
{
    let threads = threads.max(1);
    thread::for_each_mut(
        rt,
        sections,
        threads,
        &|_index: usize, section: &mut PendingSection<'_>|
            ensures { section.new ≡ section.old }
        { section.read(alloc) },
    );
}

/// Returns the sections of a file, all of them read, in at most `threads` threads.
fn read_sections<'a, R: Threads + Sync>(
    rt: &R,
    alloc: Global,
    threads: usize,
    file: &'a [u8],
) -> Result<Vec<PendingSection<'a>>, AllocError>
    ensures { IfOk result (λ sections. sections.items ≡ sections_of file.now) }
{
    let mut sections = list_sections(alloc, file)?;
    read_each(rt, alloc, threads, &mut sections);
    Ok(sections)
}

/// Returns the changes that these sections make, in their order. Returns `File` with their first fault if one has a fault, or `NoMemory`.
fn gather(alloc: Global, sections: Vec<PendingSection<'_>>) -> Result<Vec<FileChange>, Stop>
    ensures { GivesChanges sections.entry.items result }
{
    let mut changes = Vec::new(alloc);
    // Sections after a fault were read too. Gathered in order, the first fault still comes first.
    for section in sections {
        changes.push(section.into_change(alloc)?)?;
    }
    Ok(changes)
}

/// Returns the changes that a file makes, as `read_changes` does. At most `threads` threads share the reading of its sections.
fn read_changes_ahead<R: Threads + Sync>(
    rt: &R,
    alloc: Global,
    threads: usize,
    file: &[u8],
) -> Result<Vec<FileChange>, Stop>
    ensures { GivesChanges (sections_of file.now) result }
{
    let sections = read_sections(rt, alloc, threads, file)?;
    gather(alloc, sections)
}

/// Returns the changes that a file makes, in the order of its sections. If there are several threads, they share the reading of the
/// sections. Returns `File` with the first fault of the file if it has one, and with its position there if `positions` says so, or
/// `NoMemory`.
pub fn read_changes_by<R: Threads + Sync>(
    rt: &R,
    alloc: Global,
    threads: usize,
    positions: bool,
    file: &[u8],
) -> Result<Vec<FileChange>, Stop>
    ensures { GivesTold positions file.now result }
{
    if threads <= 1 {
        return read_told_changes(alloc, positions, file);
    }
    match read_changes_ahead(rt, alloc, threads, file) {
        Ok(changes) => Ok(changes),
        Err(stop) => Err(locate(positions, file, stop)),
    }
}
