//! Printing sections.
ghost use Rattle.std.specs.Prelude.{OnOk, map};
ghost use Rattle.std.specs.Io.KnownBytes.{Appends};
ghost use Rattle.cli_file.specs.Changes.{seen};
ghost use Rattle.cli_file.specs.Parts.{sections_of};
ghost use Rattle.cli_print.specs.Printed.{text_of, section_text, file_text};

use bc_print::{print_types, print_unit};
use cli_file::{FileChange, Sections};
use std::io;
use std::io::Write;

/// Writes the declarations or the unit that a change stores, in their one spelling.
fn print_change<O: Write>(change: &FileChange, out: &mut O) -> io::Result<()>
    ensures { OnOk result (Appends (O.contents out.old) (O.contents out.new) (text_of (seen change.now))) }
{
    match change {
        FileChange::Types(types) => Ok(print_types(types.get(), out)?),
        FileChange::Put(_, unit) => Ok(print_unit(unit.get(), out)?),
    }
}

/// Writes a section: its header line, then what its change stores.
fn print_section<O: Write>(header: &[u8], change: &FileChange, out: &mut O) -> io::Result<()>
    ensures { OnOk result (Appends (O.contents out.old) (O.contents out.new) (section_text header.now (seen change.now))) }
{
    out.write_all(header)?;
    out.write_all(b"\n")?;
    print_change(change, out)
}

/// Writes the sections of a file, each with what its change stores.
pub fn print_sections<O: Write>(file: &[u8], changes: &[FileChange], out: &mut O) -> io::Result<()>
    ensures { OnOk result (Appends (O.contents out.old) (O.contents out.new) (file_text (sections_of file.now) (map seen changes.now))) }
{
    let mut rest = changes;
    for section in Sections::of(file) {
        let Some((change, others)) = rest.split_first() else {
            return Ok(());
        };
        print_section(section.header, change, out)?;
        rest = others;
    }
    Ok(())
}
