//! A text with the unit that it spells.
ghost use Rattle.std.specs.Prelude.{◌≡◌, ◌≤◌, drop, slice_get, IfOk, IfSome, Ok};
ghost use Rattle.std.specs.Option.{option_map};
ghost use Rattle.bc_syntax.specs.Fits.{point_count};
ghost use Rattle.bc_text.specs.Reading.{read};
ghost use Rattle.bc_places.specs.Places.{places_of};
ghost use Rattle.bc_position.specs.Positions.{position_in};
ghost use Rattle.bc_source.specs.declared.starts.Start.{Start};
ghost use Rattle.bc_source.specs.Points.{place_of};
ghost use Rattle.bc_source.specs.Sources.{unit_of, unit_under};

use crate::source::{Source, Sources};
use crate::starts::{Start, starts_in};
use bc_mir::Point;
use bc_names::Name;
use bc_places::point_places;
use bc_syntax::{Block, RegionName, Unit};
use bc_text::{ReadFault, read_unit};
use std::alloc::{AllocError, Global};
use std::marker::Model;

/// A text with the unit that it spells, and the places of its points. A contract sees the number of lines of the file before the text, its
/// bytes and the unit.
pub(crate) struct SourceUnit<'a> {
    line: usize,
    text: &'a [u8],
    unit: Unit,
    starts: Vec<Start>,
}

impl Drop for SourceUnit<'_> {
    fn drop(self) {
        let Self {
            line: _,
            text: _,
            unit: _,
            starts: _,
        } = self;
    }
}

impl<'a> Model for SourceUnit<'a> {
    ghost use Rattle.std.specs.Prelude.{◌≡◌, map};
    ghost use Rattle.bc_places.specs.Places.{places_of};
    ghost use Rattle.bc_source.specs.Points.{start_in};
    ghost use Rattle.bc_source.specs.Sources.{UnitParts};

    ghost Value = { UnitParts };

    ghost view = { λ s. record { line = s.line; text = s.text.now; unit = s.unit } };

    ghost invariant = { λ s. s.starts.items ≡ map (start_in s.text.now) (places_of s.text.now s.unit) };
}

/// Returns the number of points of some blocks.
fn count_points(blocks: &[Block]) -> usize
    requires { point_count blocks.now ≤ 4096 }
    ensures { result ≡ point_count blocks.now }
{
    let mut count = 0;
    for block in blocks {
        count += block.statements.len() + 1;
    }
    count
}

/// Returns the start at this index after the first `before`, or `None` if there is none.
fn start_behind(starts: &[Start], before: usize, index: usize) -> Option<Start>
    ensures { result ≡ slice_get (drop before starts.now) index }
{
    let behind = &starts[before.min(starts.len())..];
    match behind.get(index) {
        Some(start) => Some(*start),
        None => None,
    }
}

impl<'a> SourceUnit<'a> {
    /// Returns the number of lines of the file before the text.
    pub(crate) fn line(&self) -> usize
        ensures { result ≡ self.now.line }
    {
        self.line
    }

    /// Returns the bytes of the text.
    pub(crate) fn text(&self) -> &'a [u8]
        ensures { result.now ≡ self.now.text }
    {
        self.text
    }

    /// Returns the regions that the unit declares.
    pub(crate) fn regions(&self) -> &[RegionName]
        ensures { result.now ≡ self.now.unit.header.signature.regions }
    {
        self.unit.body().header.signature.regions.as_slice()
    }

    /// Returns where a point begins, or `None` if the unit has no such point.
    pub(crate) fn start_of(&self, point: Point) -> Option<Start>
        ensures at { option_map (λ (start : Start). start.at) result ≡ place_of self.now point }
        ensures position { IfSome result (λ start. start.position ≡ position_in self.now.text start.at) }
    {
        let blocks = self.unit.body().blocks.as_slice();
        let before = count_points(&blocks[..point.block.min(blocks.len())]);
        start_behind(&self.starts, before, point.index)
    }
}

/// Returns the places of the points of a text that spells this unit.
fn places_in(alloc: Global, text: &[u8], unit: &Unit) -> Result<Vec<usize>, AllocError>
    requires { read text.now ≡ Ok unit.now }
    ensures { IfOk result (λ places. places.items ≡ places_of text.now unit.now) }
{
    match point_places(alloc, text) {
        Ok(places) => Ok(places),
        Err(_) => Err(AllocError),
    }
}

/// Returns the unit that a text spells, with the places of its points, or `None` if the text spells none.
pub(crate) fn unit_of<'a>(
    alloc: Global,
    source: &Source<'a>,
) -> Result<Option<SourceUnit<'a>>, AllocError>
    ensures { IfOk result (λ unit. unit ≡ unit_of source.now) }
{
    let line = source.line();
    let text = source.text();
    let unit = match read_unit(alloc, text) {
        Ok(unit) => unit,
        Err(ReadFault::NoMemory) => return Err(AllocError),
        Err(_) => return Ok(None),
    };
    let places = places_in(alloc, text, &unit)?;
    let starts = starts_in(alloc, text, &places)?;
    Ok(Some(SourceUnit {
        line,
        text,
        unit,
        starts,
    }))
}

/// Returns the unit that the last text of a name spells, with the places of its points, or `None` if there is none.
pub(crate) fn unit_under<'a>(
    alloc: Global,
    sources: &Sources<'a>,
    name: &Name,
) -> Result<Option<SourceUnit<'a>>, AllocError>
    ensures { IfOk result (λ unit. unit ≡ unit_under sources.now name.now) }
{
    match sources.last_of(name) {
        Some(source) => unit_of(alloc, source),
        None => Ok(None),
    }
}
