//! The forms in which the answers of a file are printed.
ghost use Rattle.std.specs.Prelude.{◌≡◌, ◌++◌, ◌↔◌, IfOk, IfErr, OnOk, IsTrue, map};
ghost use Rattle.cli_file.specs.Parts.{sections_of};
ghost use Rattle.cli_file.specs.Left.{part_of};
ghost use Rattle.cli_file.specs.Changes.{seen};
ghost use Rattle.cli_check.specs.Forms.{does_suit, source_put, sources_of, form_of};

use bc_memo::suits;
use bc_source::{Source, Sources};
use cli_file::{FileChange, Section, Sections, Stop};
use cli_line::CheckLine;
use std::alloc::{AllocError, Global};

/// The form in which the answers of a file are printed: as text, as JSON, or as text with the lines of the file that explain its errors.
#[derive(Drop)]
pub(crate) enum Form<'a> {
    Text,
    Json,
    Sourced(Sources<'a>),
}

/// Appends the text of a section to the sources if its change puts a unit that suits its name.
fn push_source<'a>(
    alloc: Global,
    sources: &mut Sources<'a>,
    section: &Section<'a>,
    change: &FileChange,
) -> Result<(), AllocError>
    ensures { OnOk result (sources.new ≡ sources.old ++ source_put (part_of section.now) (seen change.now)) }
{
    match change {
        FileChange::Types(_) => Ok(()),
        FileChange::Put(name, unit) => {
            if suits(alloc, unit.get(), name)? {
                sources.push(Source::new(*name, section.line, section.text))?;
            }
            Ok(())
        }
    }
}

/// Returns the texts of those sections of a file that put units that suit their names. `changes` are what the sections make.
fn find_sources<'a>(
    alloc: Global,
    file: &'a [u8],
    changes: &[FileChange],
) -> Result<Sources<'a>, AllocError>
    ensures { IfOk result (λ sources. sources ≡ sources_of (sections_of file.now) (map seen changes.now)) }
{
    let mut sources = Sources::new(alloc);
    let mut sections = Sections::of(file);
    for change in changes {
        let Some(section) = sections.next() else {
            return Ok(sources);
        };
        push_source(alloc, &mut sources, &section, change)?;
    }
    Ok(sources)
}

/// Returns the form that a line asks for, with the texts of a file that makes these changes. Returns `NoMemory` if there is no room for the
/// texts.
pub(crate) fn find_form<'a>(
    alloc: Global,
    line: &CheckLine,
    file: &'a [u8],
    changes: &[FileChange],
) -> Result<Form<'a>, Stop>
    ensures found { IfOk result (λ form. form ≡ form_of line.now (sections_of file.now) (map seen changes.now)) }
    ensures stop { IfErr result (λ stop. stop ≡ Stop.NoMemory) }
{
    if line.json() {
        return Ok(Form::Json);
    }
    if !line.source() {
        return Ok(Form::Text);
    }
    match find_sources(alloc, file, changes) {
        Ok(sources) => Ok(Form::Sourced(sources)),
        Err(_) => Err(Stop::NoMemory),
    }
}
