//! Prints regions, names, references and types.
#![tactic(auto, using(crate::proofs::Printings::writes_both, crate::proofs::Printings::writes_token, crate::proofs::Printings::writes_nothing))]

ghost use Rattle.std.specs.Prelude.{◌≡◌, OnOk, get_or, []};
ghost use Rattle.std.specs.List.{flat_map};
ghost use Rattle.bc_print.specs.Printing.{Writes};
ghost use Rattle.bc_syntax.specs.Spelling as spell;
ghost use Rattle.bc_syntax.specs.Universals.{universal_names};

use crate::tokens::{Spelled, write_angled, write_named, write_numbered, write_symbol, write_word};
use bc_syntax::{
    Base, ClosureInstance, Instance, ItemName, Mutability, Numbering, Outlives, Reference, Region,
    RegionName, Symbol, Ty,
};
use bc_writer::WriterFault;
use std::io::Write;

/// Returns the name of a universal region.
fn universal_name(regions: &[RegionName], number: u8) -> &[u8]
    ensures { result.now ≡ get_or (universal_names regions.now) number [] }
{
    if number == 0 {
        return b"static";
    }
    match regions.get(usize::from(number) - 1) {
        Some(name) => name.bytes.as_slice(),
        None => &[],
    }
}

/// Writes a universal region.
pub fn write_universal<W: Write>(
    regions: &[RegionName],
    number: u8,
    out: &mut W,
) -> Result<(), WriterFault>
    ensures { OnOk result (Writes (W.contents out.old) (W.contents out.new) (spell.universal regions.now number)) }
{
    write_named(universal_name(regions, number), out)
}

/// Writes a region.
pub fn write_region<W: Write>(
    regions: &[RegionName],
    region: Region,
    out: &mut W,
) -> Result<(), WriterFault>
    ensures { OnOk result (Writes (W.contents out.old) (W.contents out.new) (spell.region regions.now region)) }
{
    match region {
        Region::Universal(number) => write_universal(regions, number, out),
        Region::Variable(number) => write_numbered(Numbering::Variable, u64::from(number), out),
    }
}

/// Writes the name of a struct or of an extern function.
pub fn write_item_name<W: Write>(name: &ItemName, out: &mut W) -> Result<(), WriterFault>
    ensures { OnOk result (Writes (W.contents out.old) (W.contents out.new) (spell.item_name name.now)) }
{
    write_word(name.bytes.as_slice(), out)
}

impl Spelled for Region {
    ghost spelling = { spell.region };

    fn write_tokens<W: Write>(
        &self,
        regions: &[RegionName],
        out: &mut W,
    ) -> Result<(), WriterFault> {
        write_region(regions, *self, out)
    }
}

impl Spelled for RegionName {
    ghost spelling = { λ _ name. spell.region_name name };

    fn write_tokens<W: Write>(
        &self,
        _regions: &[RegionName],
        out: &mut W,
    ) -> Result<(), WriterFault> {
        write_named(self.bytes.as_slice(), out)
    }
}

impl Spelled for Outlives {
    ghost spelling = { spell.clause };

    fn write_tokens<W: Write>(
        &self,
        regions: &[RegionName],
        out: &mut W,
    ) -> Result<(), WriterFault> {
        write_universal(regions, self.longer, out)?;
        write_symbol(Symbol::Colon, out)?;
        write_universal(regions, self.shorter, out)
    }
}

/// Writes the name and the region arguments of a struct or of an extern function.
pub fn write_instance<W: Write>(
    regions: &[RegionName],
    instance: &Instance,
    out: &mut W,
) -> Result<(), WriterFault>
    ensures { OnOk result (Writes (W.contents out.old) (W.contents out.new) (spell.instance regions.now instance.now)) }
{
    write_item_name(&instance.name, out)?;
    write_angled(regions, instance.regions.as_slice(), out)
}

/// Writes the number of a closure, with its region arguments.
fn write_closure_number<W: Write>(
    regions: &[RegionName],
    closure: &ClosureInstance,
    out: &mut W,
) -> Result<(), WriterFault>
    ensures { OnOk result (Writes (W.contents out.old) (W.contents out.new) (spell.closure_number regions.now closure.now)) }
{
    write_numbered(Numbering::Number, u64::from(closure.number), out)?;
    write_angled(regions, closure.regions.as_slice(), out)
}

/// Writes `closure` and the number of a closure, with its region arguments.
pub fn write_closure_instance<W: Write>(
    regions: &[RegionName],
    closure: &ClosureInstance,
    out: &mut W,
) -> Result<(), WriterFault>
    ensures { OnOk result (Writes (W.contents out.old) (W.contents out.new) (spell.closure_instance regions.now closure.now)) }
{
    write_symbol(Symbol::Closure, out)?;
    write_closure_number(regions, closure, out)
}

fn write_mutability<W: Write>(mutability: Mutability, out: &mut W) -> Result<(), WriterFault>
    ensures { OnOk result (Writes (W.contents out.old) (W.contents out.new) (spell.mutability mutability)) }
{
    match mutability {
        Mutability::Shared => Ok(()),
        Mutability::Mutable => write_symbol(Symbol::Mut, out),
    }
}

/// Writes a reference without its `&`: a region, and `mut` or nothing.
pub fn write_reference<W: Write>(
    regions: &[RegionName],
    reference: Reference,
    out: &mut W,
) -> Result<(), WriterFault>
    ensures { OnOk result (Writes (W.contents out.old) (W.contents out.new) (spell.reference regions.now reference)) }
{
    write_region(regions, reference.region, out)?;
    write_mutability(reference.mutability, out)
}

fn write_references<W: Write>(
    regions: &[RegionName],
    references: &[Reference],
    out: &mut W,
) -> Result<(), WriterFault>
    ensures { OnOk result (Writes (W.contents out.old) (W.contents out.new) (flat_map (spell.behind regions.now) references.now)) }
{
    for reference in references {
        write_symbol(Symbol::Ampersand, out)?;
        write_reference(regions, *reference, out)?;
    }
    Ok(())
}

fn write_base<W: Write>(regions: &[RegionName], base: &Base, out: &mut W) -> Result<(), WriterFault>
    ensures { OnOk result (Writes (W.contents out.old) (W.contents out.new) (spell.base regions.now base.now)) }
{
    match base {
        Base::Int => write_symbol(Symbol::Int, out),
        Base::Struct(instance) => write_instance(regions, instance, out),
        Base::Closure(closure) => write_closure_instance(regions, closure, out),
    }
}

/// Writes a type.
pub fn write_ty<W: Write>(regions: &[RegionName], ty: &Ty, out: &mut W) -> Result<(), WriterFault>
    ensures { OnOk result (Writes (W.contents out.old) (W.contents out.new) (spell.ty regions.now ty.now)) }
{
    write_references(regions, ty.references.as_slice(), out)?;
    write_base(regions, &ty.base, out)
}

impl Spelled for Ty {
    ghost spelling = { spell.ty };

    fn write_tokens<W: Write>(
        &self,
        regions: &[RegionName],
        out: &mut W,
    ) -> Result<(), WriterFault> {
        write_ty(regions, self, out)
    }
}
