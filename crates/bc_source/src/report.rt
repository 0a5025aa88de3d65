//! The text of an outcome, with the texts of the points in its errors.
ghost use Rattle.std.specs.Prelude.{◌≡◌, ◌++◌, map, IfOk, OnOk};
ghost use Rattle.std.specs.Io.KnownBytes.{Appends};
ghost use Rattle.bc_judge.specs.declared.error.BorrowError.{BorrowError};
ghost use Rattle.bc_source.specs.Report.{points_lines, source_lines, sourced_error, unit_for, sourced, sourced_bodies, sourced_lines, report_with};

use crate::points::write_point;
use crate::regions::write_regions;
use crate::source::Sources;
use crate::unit::{SourceUnit, unit_under};
use bc_judge::BorrowError;
use bc_prov::{BodyErrors, Outcome};
use bc_report::{write_body_line, write_explained, write_report};
use bc_writer::WriterFault;
use std::alloc::{AllocError, Global};
use std::io::Write;
use std::marker::Model;

/// The errors of a body, with the text of its unit if there are errors and the text is known. A contract sees both.
pub struct SourcedBody<'a> {
    body: &'a BodyErrors,
    unit: Option<SourceUnit<'a>>,
}

impl Drop for SourcedBody<'_> {
    fn drop(self) {
        let Self { body: _, unit: _ } = self;
    }
}

impl<'a> Model for SourcedBody<'a> {
    ghost use Rattle.bc_source.specs.Report.{SourcedParts};

    ghost Value = { SourcedParts };

    ghost view = { λ s. record { body = s.body.now; unit = s.unit } };
}

/// Returns the unit that explains the errors of a body, or `None` if it has no errors or the last text of its name spells no unit.
fn unit_for<'a>(
    alloc: Global,
    sources: &Sources<'a>,
    body: &BodyErrors,
) -> Result<Option<SourceUnit<'a>>, AllocError>
    ensures { IfOk result (λ unit. unit ≡ unit_for sources.now body.now.name body.now.errors) }
{
    if body.errors.get().is_empty() {
        return Ok(None);
    }
    unit_under(alloc, sources, &body.name)
}

/// Returns the bodies, each with the text of its unit.
fn source_bodies<'a>(
    alloc: Global,
    bodies: &'a [BodyErrors],
    sources: &Sources<'a>,
) -> Result<Vec<SourcedBody<'a>>, AllocError>
    ensures { IfOk result (λ found. found.items ≡ map (sourced sources.now) bodies.now) }
{
    let mut found = Vec::new(alloc);
    for body in bodies {
        let unit = unit_for(alloc, sources, body)?;
        found.push(SourcedBody { body, unit })?;
    }
    Ok(found)
}

/// Returns the bodies of a report, each with the text of its unit, for `write_sourced_report`. Any other outcome has none.
pub fn find_bodies<'a>(
    alloc: Global,
    outcome: &'a Outcome,
    sources: &Sources<'a>,
) -> Result<Vec<SourcedBody<'a>>, AllocError>
    ensures { IfOk result (λ found. found.items ≡ sourced_bodies sources.now outcome.now) }
{
    match outcome {
        Outcome::NoBody | Outcome::Missing(_) | Outcome::BadTypes(_) | Outcome::Ill(_, _) => {
            Ok(Vec::new(alloc))
        }
        Outcome::Report(bodies) => source_bodies(alloc, bodies.as_slice(), sources),
    }
}

/// Writes the lines of a conflict's point and of its loan's point. A lifetime error has no points.
#[tactic(auto, unfolding(crate::specs::Report::points_lines))]
fn write_points<W: Write>(
    error: &BorrowError,
    source: &SourceUnit<'_>,
    out: &mut W,
) -> Result<(), WriterFault>
    ensures { OnOk result (Appends (W.contents out.old) (W.contents out.new) (points_lines source.now error.now)) }
{
    match error {
        BorrowError::Conflict {
            at,
            access: _,
            loan,
            chain: _,
        } => {
            write_point("point", source, *at, out)?;
            write_point("loan", source, *loan, out)
        }
        BorrowError::Lifetime {
            longer: _,
            shorter: _,
            chain: _,
        } => Ok(()),
    }
}

/// Writes the lines that follow an error and its chain: those of its points, then that of its universal regions.
#[tactic(auto, unfolding(crate::specs::Report::source_lines))]
fn write_source<W: Write>(
    error: &BorrowError,
    source: &SourceUnit<'_>,
    out: &mut W,
) -> Result<(), WriterFault>
    ensures { OnOk result (Appends (W.contents out.old) (W.contents out.new) (source_lines source.now error.now)) }
{
    write_points(error, source, out)?;
    write_regions(error, source.regions(), out)
}

/// Writes the lines of an error of a body, with its places if the unit is known.
fn write_sourced_error<W: Write>(
    error: &BorrowError,
    unit: &Option<SourceUnit<'_>>,
    out: &mut W,
) -> Result<(), WriterFault>
    ensures { OnOk result (Appends (W.contents out.old) (W.contents out.new) (sourced_error unit.now error.now)) }
{
    write_explained(error, out)?;
    match unit {
        Some(source) => write_source(error, source, out),
        None => Ok(()),
    }
}

/// Writes the line of a body, then the lines of each of its errors.
fn write_sourced_body<W: Write>(sourced: &SourcedBody<'_>, out: &mut W) -> Result<(), WriterFault>
    ensures { OnOk result (Appends (W.contents out.old) (W.contents out.new) (sourced_lines sourced.now)) }
{
    write_body_line(sourced.body, out)?;
    let errors = sourced.body.errors.get().as_slice();
    for error in errors {
        write_sourced_error(error, &sourced.unit, out)?;
    }
    Ok(())
}

/// Writes an outcome as text, with the places of each error. After an error and its chain come the lines of its points and the names of its
/// regions, if the body's text is known. `bodies` is what `find_bodies` returned for the outcome. Returns `WriterFault` only if a write
/// fails.
pub fn write_sourced_report<W: Write>(
    outcome: &Outcome,
    bodies: &[SourcedBody<'_>],
    out: &mut W,
) -> Result<(), WriterFault>
    ensures { OnOk result (Appends (W.contents out.old) (W.contents out.new) (report_with bodies.now outcome.now)) }
{
    match outcome {
        Outcome::NoBody | Outcome::Missing(_) | Outcome::BadTypes(_) | Outcome::Ill(_, _) => {
            write_report(outcome, out)
        }
        Outcome::Report(_) => {
            for body in bodies {
                write_sourced_body(body, out)?;
            }
            Ok(())
        }
    }
}
