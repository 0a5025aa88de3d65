//! The line of a body, and the lines of outcomes that are no report.
ghost use Rattle.std.specs.Prelude.{◌++◌, OnOk, codes, decimal};
ghost use Rattle.std.specs.Io.KnownBytes.{Appends};
ghost use Rattle.bc_names.specs.Names.{name_text};
ghost use Rattle.bc_mir.specs.Lines.{place_text};
ghost use Rattle.bc_report.specs.Text.{line};
ghost use Rattle.bc_report.specs.Report.{body_line};

use crate::parts::{write_name, write_number, write_place};
use bc_mir::Where;
use bc_names::Name;
use bc_prov::BodyErrors;
use bc_writer::{WriterFault, write_bytes};
use std::io::Write;

/// Writes the line of a body: its name and the number of its errors. Returns `WriterFault` only if a write fails.
pub fn write_body_line<W: Write>(body: &BodyErrors, out: &mut W) -> Result<(), WriterFault>
    ensures { OnOk result (Appends (W.contents out.old) (W.contents out.new) (body_line body.now)) }
{
    let errors = body.errors.get();
    let count = errors.len();
    write_name(&body.name, out)?;
    write_bytes(b" ", out)?;
    write_number(count as u128, out)?;
    write_bytes(b"\n", out)
}

/// Writes the line that says which body is missing.
pub(crate) fn write_missing<W: Write>(name: &Name, out: &mut W) -> Result<(), WriterFault>
    ensures { OnOk result (Appends (W.contents out.old) (W.contents out.new) (line (codes "missing " ++ name_text name.now))) }
{
    write_bytes(b"missing ", out)?;
    write_name(name, out)?;
    write_bytes(b"\n", out)
}

/// Writes the line that says which declaration is bad.
pub(crate) fn write_bad_declaration<W: Write>(index: usize, out: &mut W) -> Result<(), WriterFault>
    ensures { OnOk result (Appends (W.contents out.old) (W.contents out.new) (line (codes "bad declaration " ++ decimal index))) }
{
    write_bytes(b"bad declaration ", out)?;
    write_number(index as u128, out)?;
    write_bytes(b"\n", out)
}

/// Writes the line that says which body breaks a typing rule, and where.
pub(crate) fn write_ill<W: Write>(name: &Name, place: Where, out: &mut W) -> Result<(), WriterFault>
    ensures { OnOk result (Appends (W.contents out.old) (W.contents out.new) (line (codes "ill " ++ name_text name.now ++ codes " at " ++ place_text place))) }
{
    write_bytes(b"ill ", out)?;
    write_name(name, out)?;
    write_bytes(b" at ", out)?;
    write_place(place, out)?;
    write_bytes(b"\n", out)
}
