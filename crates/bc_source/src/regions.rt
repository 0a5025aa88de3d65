//! The names of the universal regions that an error mentions.
ghost use Rattle.std.specs.Prelude.{◌≡◌, ◌≤◌, ◌+◌, ◌++◌, [], length, get_or, codes, OnOk};
ghost use Rattle.std.specs.List.{list_any};
ghost use Rattle.std.specs.Io.KnownBytes.{Appends};
ghost use Rattle.bc_syntax.specs.Universals.{universal_names};
ghost use Rattle.bc_report.specs.Text.{line as ended};
ghost use Rattle.bc_source.specs.Regions.{is_universal, tells_of, tells_of_some, named, all_named, regions_text, regions_line};

use bc_judge::BorrowError;
use bc_report::write_number;
use bc_syntax::{Region, RegionName};
use bc_writer::{WriterFault, write_bytes};
use std::io::Write;

/// Returns whether a region is the universal one of this number.
fn is_universal(number: usize, region: Region) -> bool
    ensures { result ≡ is_universal number region }
{
    match region {
        Region::Universal(other) => other as usize == number,
        Region::Variable(_) => false,
    }
}

/// Returns whether the universal region of this number is among these.
fn is_among(number: usize, regions: &[Region]) -> bool
    ensures { result ≡ list_any (is_universal number) regions.now }
{
    regions.iter().any(|region| is_universal(number, *region))
}

/// Returns whether an error, or its chain, mentions the universal region of this number.
fn tells_of(error: &BorrowError, number: usize) -> bool
    ensures { result ≡ tells_of error.now number }
{
    match error {
        BorrowError::Conflict {
            at: _,
            access: _,
            loan: _,
            chain,
        } => is_among(number, chain.as_slice()),
        BorrowError::Lifetime {
            longer,
            shorter,
            chain,
        } => {
            *longer as usize == number
                || *shorter as usize == number
                || is_among(number, chain.as_slice())
        }
    }
}

/// Returns whether an error mentions one of the first `count` universal regions.
fn tells_of_some(error: &BorrowError, count: usize) -> bool
    ensures { result ≡ tells_of_some error.now count }
{
    let mut tells = false;
    for number in 0..count {
        tells = tells || tells_of(error, number);
    }
    tells
}

/// Returns the name of a universal region, without its `'`.
fn name_of(regions: &[RegionName], number: usize) -> &[u8]
    requires { number ≤ length regions.now }
    ensures { result.now ≡ get_or (universal_names regions.now) number [] }
{
    if number == 0 {
        return b"static";
    }
    regions[number - 1].bytes.as_slice()
}

/// Writes a region's number and name if the error mentions it.
fn write_named<W: Write>(
    error: &BorrowError,
    regions: &[RegionName],
    number: usize,
    out: &mut W,
) -> Result<(), WriterFault>
    requires { number ≤ length regions.now }
    ensures { OnOk result (Appends (W.contents out.old) (W.contents out.new) (named error.now (universal_names regions.now) number)) }
{
    if !tells_of(error, number) {
        return Ok(());
    }
    write_bytes(b" ", out)?;
    write_number(number as u128, out)?;
    write_bytes(b" '", out)?;
    write_bytes(name_of(regions, number), out)
}

/// Writes the numbers and names of the universal regions that an error mentions, by number.
#[tactic(auto, unfolding(crate::specs::Regions::regions_text))]
fn write_all_named<W: Write>(
    error: &BorrowError,
    regions: &[RegionName],
    out: &mut W,
) -> Result<(), WriterFault>
    ensures { OnOk result (Appends (W.contents out.old) (W.contents out.new) (regions_text regions.now error.now)) }
{
    let count = regions.len() + 1;
    for number in 0..count {
        write_named(error, regions, number, out)?;
    }
    Ok(())
}

/// Writes the word `regions`, then the universal regions that an error mentions.
fn write_words<W: Write>(
    error: &BorrowError,
    regions: &[RegionName],
    out: &mut W,
) -> Result<(), WriterFault>
    ensures { OnOk result (Appends (W.contents out.old) (W.contents out.new) (codes "    regions" ++ regions_text regions.now error.now)) }
{
    write_bytes(b"    regions", out)?;
    write_all_named(error, regions, out)
}

/// Writes the line of the universal regions that an error mentions.
fn write_line<W: Write>(
    error: &BorrowError,
    regions: &[RegionName],
    out: &mut W,
) -> Result<(), WriterFault>
    ensures { OnOk result (Appends (W.contents out.old) (W.contents out.new) (ended (codes "    regions" ++ regions_text regions.now error.now))) }
{
    write_words(error, regions, out)?;
    write_bytes(b"\n", out)
}

/// Writes the line of the universal regions that an error mentions, with the names that the unit declares; nothing if it mentions none.
#[tactic(auto, unfolding(crate::specs::Regions::regions_line))]
pub(crate) fn write_regions<W: Write>(
    error: &BorrowError,
    regions: &[RegionName],
    out: &mut W,
) -> Result<(), WriterFault>
    ensures { OnOk result (Appends (W.contents out.old) (W.contents out.new) (regions_line regions.now error.now)) }
{
    if !tells_of_some(error, regions.len() + 1) {
        return Ok(());
    }
    write_line(error, regions, out)
}
