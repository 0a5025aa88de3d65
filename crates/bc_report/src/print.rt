//! The text form of an outcome.
ghost use Rattle.std.specs.Prelude.{◌≤◌, ◌++◌, length, OnOk};
ghost use Rattle.std.specs.Io.KnownBytes.{Appends};
ghost use Rattle.bc_judge.specs.Lines.{next_region};
ghost use Rattle.bc_report.specs.Report.{error_line, chain_line, error_lines, body_lines, report};

use crate::line::put;
use crate::one_line::{write_bad_declaration, write_body_line, write_ill, write_missing};
use crate::texts::{put_error, put_region, put_regions};
use bc_judge::BorrowError;
use bc_prov::{BodyErrors, Outcome};
use bc_syntax::Region;
use bc_writer::{WriterFault, write_bytes};
use std::io::Write;

/// The most bytes of an error's line.
const ERROR: usize = 134;

/// The bytes that are kept for a region of a chain: 3 before its number, and 20 digits.
const REGION: usize = 23;

/// The most regions of a chain that is written together with its error.
const TOGETHER: usize = 8;

/// The most bytes of an error and such a chain, with the 10 between them.
const LINES: usize = ERROR + 10 + 8 * TOGETHER;

/// Writes the line of an error and that of its chain, of at most eight regions, by one call of the writer.
#[tactic(auto, unfolding(crate::specs::Report::error_line, crate::specs::Report::chain_line))]
fn write_together<W: Write>(
    error: &BorrowError,
    chain: &[Region],
    out: &mut W,
) -> Result<(), WriterFault>
    requires { length chain.now ≤ 8 }
    ensures { OnOk result (Appends (W.contents out.old) (W.contents out.new) (error_line error.now ++ chain_line chain.now)) }
{
    let mut lines = [0; LINES];
    let end = put(b"\n", &mut lines, LINES);
    let end = put_regions(chain, &mut lines, end);
    let end = put(b"\n    chain", &mut lines, end);
    let end = put_error(error, &mut lines, end);
    let start = put(b"  ", &mut lines, end);
    write_bytes(&lines[start..], out)
}

/// Writes the line of an error.
#[tactic(auto, unfolding(crate::specs::Report::error_line))]
fn write_error<W: Write>(error: &BorrowError, out: &mut W) -> Result<(), WriterFault>
    ensures { OnOk result (Appends (W.contents out.old) (W.contents out.new) (error_line error.now)) }
{
    let mut line = [0; ERROR];
    let end = put(b"\n", &mut line, ERROR);
    let end = put_error(error, &mut line, end);
    let start = put(b"  ", &mut line, end);
    write_bytes(&line[start..], out)
}

/// Writes a space and a region of a chain.
fn write_region<W: Write>(region: Region, out: &mut W) -> Result<(), WriterFault>
    ensures { OnOk result (Appends (W.contents out.old) (W.contents out.new) (next_region region)) }
{
    let mut line = [0; REGION];
    let start = put_region(region, &mut line, REGION);
    write_bytes(&line[start..], out)
}

/// Writes the line of a chain, of any length, region by region.
#[tactic(auto, unfolding(crate::specs::Report::chain_line))]
fn write_chain<W: Write>(regions: &[Region], out: &mut W) -> Result<(), WriterFault>
    ensures { OnOk result (Appends (W.contents out.old) (W.contents out.new) (chain_line regions.now)) }
{
    write_bytes(b"    chain", out)?;
    for region in regions {
        write_region(*region, out)?;
    }
    write_bytes(b"\n", out)
}

/// Writes the line of an error, then that of its chain. Returns `WriterFault` only if a write fails.
#[tactic(auto, unfolding(crate::specs::Report::error_lines))]
pub fn write_explained<W: Write>(error: &BorrowError, out: &mut W) -> Result<(), WriterFault>
    ensures { OnOk result (Appends (W.contents out.old) (W.contents out.new) (error_lines error.now)) }
{
    let chain = error.chain();
    if chain.len() <= TOGETHER {
        return write_together(error, chain, out);
    }
    write_error(error, out)?;
    write_chain(chain, out)
}

/// Writes the line of a body, then the lines of each of its errors.
fn write_body<W: Write>(body: &BodyErrors, out: &mut W) -> Result<(), WriterFault>
    ensures { OnOk result (Appends (W.contents out.old) (W.contents out.new) (body_lines body.now)) }
{
    write_body_line(body, out)?;
    let errors = body.errors.get().as_slice();
    for error in errors {
        write_explained(error, out)?;
    }
    Ok(())
}

/// Writes an outcome as text, as `check` prints it after `ask NAME`. Returns `WriterFault` only if a write fails.
pub fn write_report<W: Write>(outcome: &Outcome, out: &mut W) -> Result<(), WriterFault>
    ensures { OnOk result (Appends (W.contents out.old) (W.contents out.new) (report outcome.now)) }
{
    match outcome {
        Outcome::NoBody => write_bytes(b"no body\n", out),
        Outcome::Missing(name) => write_missing(name, out),
        Outcome::BadTypes(index) => write_bad_declaration(*index, out),
        Outcome::Ill(name, place) => write_ill(name, *place, out),
        Outcome::Report(bodies) => {
            for body in bodies.as_slice() {
                write_body(body, out)?;
            }
            Ok(())
        }
    }
}
