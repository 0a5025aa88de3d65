//! Prints units.
#![tactic(auto, using(crate::proofs::Printings::writes_both, crate::proofs::Printings::writes_token, crate::proofs::Printings::writes_nothing))]

ghost use Rattle.std.specs.Prelude.{◌≡◌, ◌+◌, ◌≤◌, OnOk, length, []};
ghost use Rattle.std.specs.Io.KnownBytes.{Appends};
ghost use Rattle.bc_syntax.specs.Locals.{locals_of};
ghost use Rattle.bc_print.specs.Printing.{Writes, printed};
ghost use Rattle.bc_syntax.specs.Spelling as spell;

use crate::names::write_ty;
use crate::points::write_blocks;
use crate::tokens::{write_angled, write_commas, write_numbered, write_symbol};
use bc_syntax::{
    Body, Header, Numbering, Outlives, RegionName, Signature, Symbol, Ty, Unit, UnitKind,
};
use bc_writer::{WriterFault, write_bytes};
use std::io::Write;

/// Writes `where` and the clauses, or nothing if there are none.
pub fn write_clauses<W: Write>(
    regions: &[RegionName],
    clauses: &[Outlives],
    out: &mut W,
) -> Result<(), WriterFault>
    ensures { OnOk result (Writes (W.contents out.old) (W.contents out.new) (spell.clauses regions.now clauses.now)) }
{
    if clauses.is_empty() {
        return Ok(());
    }
    write_symbol(Symbol::Where, out)?;
    write_commas(regions, clauses, out)
}

/// Writes the types of parameters, in parentheses.
pub fn write_parameters<W: Write>(
    regions: &[RegionName],
    parameters: &[Ty],
    out: &mut W,
) -> Result<(), WriterFault>
    ensures { OnOk result (Writes (W.contents out.old) (W.contents out.new) (spell.parameters regions.now parameters.now)) }
{
    write_symbol(Symbol::OpenParen, out)?;
    write_commas(regions, parameters, out)?;
    write_symbol(Symbol::CloseParen, out)
}

/// Writes the parameters, `->` and the result of a signature.
fn write_function_ty<W: Write>(signature: &Signature, out: &mut W) -> Result<(), WriterFault>
    ensures { OnOk result (Writes (W.contents out.old) (W.contents out.new) (spell.function_ty signature.now)) }
{
    let regions = signature.regions.as_slice();
    write_parameters(regions, signature.parameters.as_slice(), out)?;
    write_symbol(Symbol::Arrow, out)?;
    write_ty(regions, &signature.result, out)
}

/// Writes the signature of an extern function, after its name.
pub fn write_signature<W: Write>(signature: &Signature, out: &mut W) -> Result<(), WriterFault>
    ensures { OnOk result (Writes (W.contents out.old) (W.contents out.new) (spell.signature signature.now)) }
{
    let regions = signature.regions.as_slice();
    write_angled(regions, regions, out)?;
    write_clauses(regions, signature.clauses.as_slice(), out)?;
    write_function_ty(signature, out)
}

fn kind_word(kind: UnitKind) -> Symbol
    ensures { result ≡ spell.kind_word kind }
{
    match kind {
        UnitKind::Function => Symbol::Fn,
        UnitKind::Closure => Symbol::Closure,
    }
}

/// Writes the types of captures, in brackets.
fn write_bracketed<W: Write>(
    regions: &[RegionName],
    captures: &[Ty],
    out: &mut W,
) -> Result<(), WriterFault>
    ensures { OnOk result (Writes (W.contents out.old) (W.contents out.new) (spell.bracketed regions.now captures.now)) }
{
    write_symbol(Symbol::OpenBracket, out)?;
    write_commas(regions, captures, out)?;
    write_symbol(Symbol::CloseBracket, out)
}

/// Writes the captures of a closure, or nothing for a function.
fn write_captures<W: Write>(header: &Header, out: &mut W) -> Result<(), WriterFault>
    ensures { OnOk result (Writes (W.contents out.old) (W.contents out.new) (spell.captures header.now)) }
{
    match header.kind {
        UnitKind::Function => Ok(()),
        UnitKind::Closure => {
            let regions = header.signature.regions.as_slice();
            write_bracketed(regions, header.captures.as_slice(), out)
        }
    }
}

/// Writes what follows the first word of a unit, up to its body.
fn write_header_rest<W: Write>(header: &Header, out: &mut W) -> Result<(), WriterFault>
    ensures { OnOk result (Writes (W.contents out.old) (W.contents out.new) (spell.header_rest header.now)) }
{
    let signature = &header.signature;
    let regions = signature.regions.as_slice();
    write_angled(regions, regions, out)?;
    let clauses = signature.clauses.as_slice();
    write_clauses(regions, clauses, out)?;
    write_captures(header, out)?;
    write_function_ty(signature, out)
}

fn write_let<W: Write>(
    regions: &[RegionName],
    number: u64,
    ty: &Ty,
    out: &mut W,
) -> Result<(), WriterFault>
    ensures { OnOk result (Writes (W.contents out.old) (W.contents out.new) (spell.declared regions.now number ty.now)) }
{
    write_symbol(Symbol::Let, out)?;
    write_numbered(Numbering::Local, number, out)?;
    write_symbol(Symbol::Colon, out)?;
    write_ty(regions, ty, out)?;
    write_symbol(Symbol::Semicolon, out)
}

/// Writes `let` locals, numbered from `first` on.
fn write_lets<W: Write>(
    regions: &[RegionName],
    first: usize,
    lets: &[Ty],
    out: &mut W,
) -> Result<(), WriterFault>
    requires { first + length lets.now ≤ 256 }
    ensures { OnOk result (Writes (W.contents out.old) (W.contents out.new) (spell.lets regions.now first lets.now)) }
{
    for (index, ty) in lets.iter().enumerate() {
        write_let(regions, (first + index) as u64, ty, out)?;
    }
    Ok(())
}

/// Writes the body after a header.
fn write_body<W: Write>(body: &Body, out: &mut W) -> Result<(), WriterFault>
    requires { length (locals_of body.now) ≤ 256 }
    ensures { OnOk result (Writes (W.contents out.old) (W.contents out.new) (spell.body body.now)) }
{
    let regions = body.header.signature.regions.as_slice();
    let first_let = body.header.first_let();
    write_symbol(Symbol::OpenBrace, out)?;
    write_lets(regions, first_let, body.lets.as_slice(), out)?;
    write_blocks(regions, body.blocks.as_slice(), out)?;
    write_symbol(Symbol::CloseBrace, out)
}

/// Writes the text of a unit: exactly the tokens of its spelling, with one space between two and a line feed after the last. Returns
/// `WriterFault` only if a write fails.
pub fn print_unit<W: Write>(unit: &Unit, out: &mut W) -> Result<(), WriterFault>
    ensures { OnOk result (Appends (W.contents out.old) (W.contents out.new) (printed (spell.unit unit.now))) }
{
    let body = unit.body();
    write_bytes(kind_word(body.header.kind).text(), out)?;
    write_header_rest(&body.header, out)?;
    write_body(body, out)?;
    write_bytes(b"\n", out)
}
