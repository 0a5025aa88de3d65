//! How numbers, names and places are written.
ghost use Rattle.std.specs.Prelude.{OnOk, decimal};
ghost use Rattle.std.specs.Io.KnownBytes.{Appends};
ghost use Rattle.bc_names.specs.Names.{name_text, segment_text};
ghost use Rattle.bc_bodies.specs.Lines.{point_text};
ghost use Rattle.bc_mir.specs.Lines.{place_text};

use crate::texts::put_point;
use bc_mir::{Point, Where};
use bc_names::Name;
use bc_writer::{WriterFault, write_bytes};
use itoa::Buffer;
use std::io::Write;

/// The most bytes of a point.
const POINT: usize = 44;

/// Writes the digits of a number. Returns `WriterFault` only if a write fails.
pub fn write_number<W: Write>(number: u128, out: &mut W) -> Result<(), WriterFault>
    ensures { OnOk result (Appends (W.contents out.old) (W.contents out.new) (decimal number)) }
{
    write_bytes(Buffer::new().format(number).as_bytes(), out)
}

/// Writes a segment of a name, with the `/` before it.
fn write_segment<W: Write>(number: u8, out: &mut W) -> Result<(), WriterFault>
    ensures { OnOk result (Appends (W.contents out.old) (W.contents out.new) (segment_text number)) }
{
    write_bytes(b"/", out)?;
    write_number(u128::from(number), out)
}

/// Writes a name in its one spelling.
pub(crate) fn write_name<W: Write>(name: &Name, out: &mut W) -> Result<(), WriterFault>
    ensures { OnOk result (Appends (W.contents out.old) (W.contents out.new) (name_text name.now)) }
{
    write_bytes(name.root(), out)?;
    let segments = name.segments();
    for segment in segments {
        write_segment(*segment, out)?;
    }
    Ok(())
}

/// Writes a point, such as `bb0[2]`.
fn write_point<W: Write>(point: Point, out: &mut W) -> Result<(), WriterFault>
    ensures { OnOk result (Appends (W.contents out.old) (W.contents out.new) (point_text point)) }
{
    let mut text = [0; POINT];
    let start = put_point(point, &mut text, POINT);
    write_bytes(&text[start..], out)
}

/// Writes the place of a misfit: `header`, or a point.
pub(crate) fn write_place<W: Write>(place: Where, out: &mut W) -> Result<(), WriterFault>
    ensures { OnOk result (Appends (W.contents out.old) (W.contents out.new) (place_text place)) }
{
    match place {
        Where::Header => write_bytes(b"header", out),
        Where::At(point) => write_point(point, out),
    }
}
