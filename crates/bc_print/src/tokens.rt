//! Prints tokens, and lists of printable values.
ghost use Rattle.std.specs.Prelude.{◌≡◌, ◌∷◌, [], OnOk};
ghost use Rattle.bc_print.specs.Printing.{Writes, mark};
ghost use Rattle.bc_syntax.specs.Token.{Numbered, Word, Region};
ghost use Rattle.bc_syntax.specs.Spelling as spell;

use bc_syntax::{Numbering, RegionName, Symbol};
use bc_writer::{WriterFault, write_bytes};
use itoa::Buffer;
use std::io::Write;

/// Writes a space and a symbol.
#[tactic(auto, unfolding(crate::specs::Printing::spaced))]
pub fn write_symbol<W: Write>(symbol: Symbol, out: &mut W) -> Result<(), WriterFault>
    ensures { OnOk result (Writes (W.contents out.old) (W.contents out.new) (spell.symbol symbol)) }
{
    write_bytes(b" ", out)?;
    write_bytes(symbol.text(), out)
}

/// Returns a space and what comes before a number of this kind.
#[tactic(auto)]
fn spaced_mark(numbering: Numbering) -> &'static [u8]
    ensures { result.now ≡ 32 ∷ mark numbering }
{
    match numbering {
        Numbering::Number => b" ",
        Numbering::Local => b" _",
        Numbering::Label => b" bb",
        Numbering::Variable => b" '?",
    }
}

/// Writes a space and a number, a local, a label or a variable.
#[tactic(auto, unfolding(crate::specs::Printing::spaced))]
pub fn write_numbered<W: Write>(
    numbering: Numbering,
    number: u64,
    out: &mut W,
) -> Result<(), WriterFault>
    ensures { OnOk result (Writes (W.contents out.old) (W.contents out.new) (Numbered numbering number ∷ [])) }
{
    write_bytes(spaced_mark(numbering), out)?;
    write_bytes(Buffer::new().format(number).as_bytes(), out)
}

/// Writes a space and a word.
#[tactic(auto, unfolding(crate::specs::Printing::spaced))]
pub fn write_word<W: Write>(name: &[u8], out: &mut W) -> Result<(), WriterFault>
    ensures { OnOk result (Writes (W.contents out.old) (W.contents out.new) (Word name.now ∷ [])) }
{
    write_bytes(b" ", out)?;
    write_bytes(name, out)
}

/// Writes a space and a region, by its name.
#[tactic(auto, unfolding(crate::specs::Printing::spaced))]
pub fn write_named<W: Write>(name: &[u8], out: &mut W) -> Result<(), WriterFault>
    ensures { OnOk result (Writes (W.contents out.old) (W.contents out.new) (Region name.now ∷ [])) }
{
    write_bytes(b" '", out)?;
    write_bytes(name, out)
}

/// A value that can be printed, given the declared regions.
pub trait Spelled {
    ghost use Rattle.std.specs.Prelude.{List};
    ghost use Rattle.bc_syntax.specs.declared.syntax.RegionName.{RegionName};
    ghost use Rattle.bc_syntax.specs.Token.{Token};

    ghost spelling: { List RegionName → Self → List Token };

    /// Writes the tokens of the value, a space before each.
    fn write_tokens<W: Write>(&self, regions: &[RegionName], out: &mut W) -> Result<(), WriterFault>
        ensures { OnOk result (Writes (W.contents out.old) (W.contents out.new) (spelling regions.now self.now)) };
}

fn write_next<T: Spelled, W: Write>(
    regions: &[RegionName],
    items: &[T],
    out: &mut W,
) -> Result<(), WriterFault>
    ensures { OnOk result (Writes (W.contents out.old) (W.contents out.new) (spell.behind_commas (T.spelling regions.now) items.now)) }
{
    for item in items {
        write_symbol(Symbol::Comma, out)?;
        item.write_tokens(regions, out)?;
    }
    Ok(())
}

/// Writes items, separated by commas.
pub fn write_commas<T: Spelled, W: Write>(
    regions: &[RegionName],
    items: &[T],
    out: &mut W,
) -> Result<(), WriterFault>
    ensures { OnOk result (Writes (W.contents out.old) (W.contents out.new) (spell.commas (T.spelling regions.now) items.now)) }
{
    if let Some((first, others)) = items.split_first() {
        first.write_tokens(regions, out)?;
        write_next(regions, others, out)?;
    }
    Ok(())
}

/// Writes items in `<` and `>`, separated by commas, or nothing if there are none.
pub fn write_angled<T: Spelled, W: Write>(
    regions: &[RegionName],
    items: &[T],
    out: &mut W,
) -> Result<(), WriterFault>
    ensures { OnOk result (Writes (W.contents out.old) (W.contents out.new) (spell.angled (T.spelling regions.now) items.now)) }
{
    if items.is_empty() {
        return Ok(());
    }
    write_symbol(Symbol::Less, out)?;
    write_commas(regions, items, out)?;
    write_symbol(Symbol::Greater, out)
}
