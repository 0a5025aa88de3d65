//! Names in one line.
ghost use Rattle.std.specs.Prelude.{◌≡◌, map, OnOk};
ghost use Rattle.std.specs.Char.{is_ascii_control};
ghost use Rattle.std.specs.List.{list_any};
ghost use Rattle.std.specs.Io.KnownBytes.{Appends};
ghost use Rattle.cli_file.specs.OneLine.{in_one_line};

use std::io;
use std::io::Write;

/// Returns what is printed for a byte in a line.
fn in_one_line(byte: u8) -> u8
    ensures { result ≡ in_one_line byte }
{
    if byte.is_ascii_control() { b'?' } else { byte }
}

/// Returns whether some bytes have a control character.
fn have_control(bytes: &[u8]) -> bool
    ensures { result ≡ list_any is_ascii_control bytes.now }
{
    bytes.iter().any(|byte| byte.is_ascii_control())
}

/// Writes a name in one line: each control character as `?`. Returns the writer's fault if it fails.
pub(crate) fn write_in_one_line<W: Write>(name: &str, out: &mut W) -> io::Result<()>
    ensures { OnOk result (Appends (W.contents out.old) (W.contents out.new) (map in_one_line name.now)) }
{
    let bytes = name.as_bytes();
    if !have_control(bytes) {
        return out.write_all(bytes);
    }
    for byte in bytes {
        out.write_all(&[in_one_line(*byte)])?;
    }
    Ok(())
}
