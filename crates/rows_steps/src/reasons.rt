//! Why: `reasons.txt`, rows of declarations and a body, and `declarations.txt`, rows of declarations.
//!
//! Below a body come its points with their accesses, each with the part that makes it, and then why a region is in use before a point: by
//! number, the region, the point, and the local with the path to its use. Below declarations come the first bad one and the rule that it
//! breaks.

use crate::rows::named;
use crate::steps::{show_access, typed};
use bc_breaches::{BadDeclaration, DeclarationBreach, bad_declaration};
use bc_mir::{Step, Typed};
use bc_points::accesses;
use bc_reasons::{AccessReason, Part, UseReason, access_reason, use_reason};
use bc_syntax::Region;
use bc_text::read_types;
use std::alloc::Global;
use std::io::{ErrorKind, Write};
use std::{fs, io};

fn show_part<W: Write>(part: Part, out: &mut W) -> io::Result<()> {
    match part {
        Part::Operand(number) => write!(out, "operand {number}"),
        Part::Borrowed => write!(out, "borrowed"),
        Part::Invoked => write!(out, "invoked"),
        Part::Target => write!(out, "target"),
        Part::Drop => write!(out, "drop"),
        Part::Dead => write!(out, "dead"),
        Part::Return => write!(out, "return"),
    }
}

fn show_access_reason<W: Write>(reason: &AccessReason<'_>, out: &mut W) -> io::Result<()> {
    show_access(&reason.access, out)?;
    write!(out, " by ")?;
    show_part(reason.part, out)
}

fn show_accesses<W: Write>(
    alloc: Global,
    typed: &Typed,
    number: usize,
    step: &Step,
    out: &mut W,
) -> io::Result<()> {
    write!(out, "point {number}")?;
    let count = accesses(alloc, typed, &step.instruction)?.len();
    for number in 0..count {
        if let Some(reason) = access_reason(alloc, typed, &step.instruction, number)? {
            show_access_reason(&reason, out)?;
        }
    }
    writeln!(out)
}

fn show_path<W: Write>(local: usize, path: &[usize], out: &mut W) -> io::Result<()> {
    write!(out, "_{local} along")?;
    for point in path {
        write!(out, " {point}")?;
    }
    writeln!(out)
}

fn show_use<W: Write>(
    alloc: Global,
    typed: &Typed,
    region: usize,
    point: usize,
    out: &mut W,
) -> io::Result<()> {
    match use_reason(alloc, typed, region, point)? {
        Some(UseReason::Universal) => writeln!(out, "use {region} at {point}: universal"),
        Some(UseReason::Live { local, path }) => {
            write!(out, "use {region} at {point}: ")?;
            show_path(local, path.as_slice(), out)
        }
        None => Ok(()),
    }
}

fn show_body<W: Write>(alloc: Global, typed: &Typed, out: &mut W) -> io::Result<()> {
    for (number, step) in typed.steps().iter().enumerate() {
        show_accesses(alloc, typed, number, step, out)?;
    }
    // The regions of the rows have numbers below 4.
    for region in 0..4 {
        for point in 0..typed.steps().len() {
            show_use(alloc, typed, region, point, out)?;
        }
    }
    Ok(())
}

fn show_row<W: Write>(alloc: Global, row: &str, out: &mut W) -> io::Result<()> {
    let (name, sections) = named(row);
    writeln!(out, "#{name}")?;
    let typed = typed(alloc, sections)?;
    show_body(alloc, &typed, out)
}

fn show_region<W: Write>(region: Region, out: &mut W) -> io::Result<()> {
    match region {
        Region::Universal(number) => write!(out, "region {number}"),
        Region::Variable(number) => write!(out, "variable {number}"),
    }
}

fn show_breach<W: Write>(breach: DeclarationBreach, out: &mut W) -> io::Result<()> {
    match breach {
        DeclarationBreach::Name => write!(out, "name"),
        DeclarationBreach::Mention { ty } => write!(out, "type {ty}"),
        DeclarationBreach::Variance { field, region } => {
            write!(out, "field {field}, ")?;
            show_region(region, out)
        }
    }
}

fn show_bad<W: Write>(found: Option<BadDeclaration>, out: &mut W) -> io::Result<()> {
    match found {
        Some(bad) => {
            let number = bad.number;
            write!(out, "bad {number}: ")?;
            show_breach(bad.breach, out)?;
            writeln!(out)
        }
        None => writeln!(out, "good"),
    }
}

/// Writes a row of declarations. Returns `InvalidData` if they cannot be read.
fn show_declarations<W: Write>(alloc: Global, row: &str, out: &mut W) -> io::Result<()> {
    let (name, text) = named(row);
    writeln!(out, "#{name}")?;
    match read_types(alloc, text.as_bytes()) {
        Ok(types) => show_bad(bad_declaration(types.declarations()), out),
        Err(_) => Err(ErrorKind::InvalidData.into()),
    }
}

/// Writes why accesses are made and regions are in use in the body of each row of `reasons.txt`, and which declaration of each row of
/// `declarations.txt` is bad, and why. Fails as `show_steps` does.
pub fn show_why<W: Write>(rt: &HostRuntime, out: &mut W) -> io::Result<()> {
    let bodies = fs::read_to_string(rt, "reasons.txt")?;
    for row in bodies.split('#').skip(1) {
        show_row(rt.alloc(), row, out)?;
    }
    let declarations = fs::read_to_string(rt, "declarations.txt")?;
    for row in declarations.split('#').skip(1) {
        show_declarations(rt.alloc(), row, out)?;
    }
    Ok(())
}
