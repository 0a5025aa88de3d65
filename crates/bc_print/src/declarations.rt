//! Prints declarations.
#![tactic(auto, using(crate::proofs::Printings::writes_both, crate::proofs::Printings::writes_token, crate::proofs::Printings::writes_nothing))]

ghost use Rattle.std.specs.Prelude.{◌≡◌, ◌∷◌, OnOk, length, [], true};
ghost use Rattle.std.specs.List.{flat_map, zip, list_all};
ghost use Rattle.std.specs.Io.KnownBytes.{Appends};
ghost use Rattle.bc_syntax.specs.Fits.{declaration_fits};
ghost use Rattle.bc_print.specs.Printing.{Writes, texts, printed};
ghost use Rattle.bc_print.specs.PrintedTypes.{comma_before, first_word, behind_word};
ghost use Rattle.bc_syntax.specs.Spelling as spell;

use crate::names::{write_item_name, write_ty};
use crate::tokens::{write_named, write_symbol};
use crate::units::write_signature;
use bc_syntax::{
    Declaration, ExternDeclaration, RegionName, StructDeclaration, Symbol, Ty, Types, Variance,
};
use bc_writer::{WriterFault, write_bytes};
use std::io::Write;

/// Writes a comma, except before item 0.
fn write_comma_before<W: Write>(index: usize, out: &mut W) -> Result<(), WriterFault>
    ensures { OnOk result (Writes (W.contents out.old) (W.contents out.new) (comma_before index)) }
{
    if index == 0 {
        return Ok(());
    }
    write_symbol(Symbol::Comma, out)
}

fn write_variance<W: Write>(variance: Variance, out: &mut W) -> Result<(), WriterFault>
    ensures { OnOk result (Writes (W.contents out.old) (W.contents out.new) (spell.variance variance)) }
{
    match variance {
        Variance::Covariant => write_symbol(Symbol::Plus, out),
        Variance::Invariant => write_symbol(Symbol::Equals, out),
    }
}

/// Writes regions with their variances, separated by commas.
fn write_marks<W: Write>(
    variances: &[Variance],
    names: &[RegionName],
    out: &mut W,
) -> Result<(), WriterFault>
    requires { length variances.now ≡ length names.now }
    ensures { OnOk result (Writes (W.contents out.old) (W.contents out.new) (spell.commas spell.mark (zip variances.now names.now))) }
{
    for (index, name) in names.iter().enumerate() {
        write_comma_before(index, out)?;
        write_variance(variances[index], out)?;
        write_named(name.bytes.as_slice(), out)?;
    }
    Ok(())
}

/// Writes regions with their variances in `<` and `>`, or nothing if there are none.
fn write_angled_marks<W: Write>(
    variances: &[Variance],
    names: &[RegionName],
    out: &mut W,
) -> Result<(), WriterFault>
    requires { length variances.now ≡ length names.now }
    ensures { OnOk result (Writes (W.contents out.old) (W.contents out.new) (spell.angled spell.mark (zip variances.now names.now))) }
{
    if names.is_empty() {
        return Ok(());
    }
    write_symbol(Symbol::Less, out)?;
    write_marks(variances, names, out)?;
    write_symbol(Symbol::Greater, out)
}

fn write_drop_word<W: Write>(has_drop: bool, out: &mut W) -> Result<(), WriterFault>
    ensures { OnOk result (Writes (W.contents out.old) (W.contents out.new) (spell.drop_word has_drop)) }
{
    if has_drop {
        write_symbol(Symbol::Drop, out)
    } else {
        Ok(())
    }
}

fn write_fields<W: Write>(
    regions: &[RegionName],
    fields: &[Ty],
    out: &mut W,
) -> Result<(), WriterFault>
    ensures { OnOk result (Writes (W.contents out.old) (W.contents out.new) (flat_map (spell.field regions.now) fields.now)) }
{
    for field in fields {
        write_ty(regions, field, out)?;
        write_symbol(Symbol::Semicolon, out)?;
    }
    Ok(())
}

fn write_braced_fields<W: Write>(
    declaration: &StructDeclaration,
    out: &mut W,
) -> Result<(), WriterFault>
    ensures { OnOk result (Writes (W.contents out.old) (W.contents out.new) (spell.fields declaration.now)) }
{
    write_symbol(Symbol::OpenBrace, out)?;
    write_fields(
        declaration.regions.as_slice(),
        declaration.fields.as_slice(),
        out,
    )?;
    write_symbol(Symbol::CloseBrace, out)
}

/// Writes what follows the word `struct`.
fn write_struct_rest<W: Write>(
    declaration: &StructDeclaration,
    out: &mut W,
) -> Result<(), WriterFault>
    requires { length declaration.now.variances ≡ length declaration.now.regions }
    ensures { OnOk result (Writes (W.contents out.old) (W.contents out.new) (spell.struct_rest declaration.now)) }
{
    write_item_name(&declaration.name, out)?;
    write_angled_marks(
        declaration.variances.as_slice(),
        declaration.regions.as_slice(),
        out,
    )?;
    write_drop_word(declaration.has_drop, out)?;
    write_braced_fields(declaration, out)
}

/// Writes what follows the word `extern`.
fn write_extern_rest<W: Write>(
    declaration: &ExternDeclaration,
    out: &mut W,
) -> Result<(), WriterFault>
    ensures { OnOk result (Writes (W.contents out.old) (W.contents out.new) (spell.extern_rest declaration.now)) }
{
    write_item_name(&declaration.name, out)?;
    write_signature(&declaration.signature, out)?;
    write_symbol(Symbol::Semicolon, out)
}

fn first_word(declaration: &Declaration) -> Symbol
    ensures { result ≡ first_word declaration.now }
{
    match declaration {
        Declaration::Struct(_) => Symbol::Struct,
        Declaration::Extern(_) => Symbol::Extern,
    }
}

fn write_behind_word<W: Write>(declaration: &Declaration, out: &mut W) -> Result<(), WriterFault>
    requires { declaration_fits declaration.now ≡ true }
    ensures { OnOk result (Writes (W.contents out.old) (W.contents out.new) (behind_word declaration.now)) }
{
    match declaration {
        Declaration::Struct(declaration) => write_struct_rest(declaration, out),
        Declaration::Extern(declaration) => write_extern_rest(declaration, out),
    }
}

fn write_declarations<W: Write>(
    declarations: &[Declaration],
    out: &mut W,
) -> Result<(), WriterFault>
    requires { list_all declaration_fits declarations.now ≡ true }
    ensures { OnOk result (Writes (W.contents out.old) (W.contents out.new) (flat_map spell.declaration declarations.now)) }
{
    for declaration in declarations {
        write_symbol(first_word(declaration), out)?;
        write_behind_word(declaration, out)?;
    }
    Ok(())
}

/// Writes declarations, with no space before the first.
fn write_all_declarations<W: Write>(
    declarations: &[Declaration],
    out: &mut W,
) -> Result<(), WriterFault>
    requires { list_all declaration_fits declarations.now ≡ true }
    ensures { OnOk result (Appends (W.contents out.old) (W.contents out.new) (texts (flat_map spell.declaration declarations.now))) }
{
    if let Some((first, others)) = declarations.split_first() {
        write_bytes(first_word(first).text(), out)?;
        write_behind_word(first, out)?;
        write_declarations(others, out)?;
    }
    Ok(())
}

/// Writes the text of declarations: exactly the tokens of their spelling, with one space between two and a line feed after the last.
/// Returns `WriterFault` only if a write fails.
pub fn print_types<W: Write>(types: &Types, out: &mut W) -> Result<(), WriterFault>
    ensures { OnOk result (Appends (W.contents out.old) (W.contents out.new) (printed (spell.types types.now))) }
{
    write_all_declarations(types.declarations(), out)?;
    write_bytes(b"\n", out)
}
