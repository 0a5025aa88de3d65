//! Reads declarations, and whole texts of them.
ghost use Rattle.std.specs.Prelude.{◌≡◌, ◌+◌, ◌<◌, ◌≤◌, ◌-◌, ℕ, length, [], Ok, Err, IfOk, ◌↔◌, false};
ghost use Rattle.std.specs.List.{zip, filter};
ghost use Rattle.bc_tokens.specs.Parser.{Reads, declared_from, declared_list};
ghost use Rattle.bc_text.specs.Reading.{Answers, ReadsMarks, begins_mark, structs_in};
ghost use Rattle.bc_text.specs.Spells.{SpellsTypes};
ghost use Rattle.bc_syntax.specs.Fits.{TypesFit};
ghost use Rattle.bc_syntax.specs.declared.syntax.Declaration.{Declaration as DeclarationValue};
ghost use Rattle.std.specs.Prelude.{List};
ghost use Rattle.bc_text.specs.declared.fault.ReadFault.TheVariants.{TooLong};
ghost use Rattle.bc_text.specs.Reading as spec;

use crate::fault::ReadFault;
use crate::reader::{MAX_TEXT, signature};
use crate::regions::{item_name, new_region, refuse_past};
use crate::types::{begins_ty, ty};
use bc_syntax::{
    Declaration, ExternDeclaration, ItemName, RegionName, Sequence, StructDeclaration, Symbol, Ty,
    Types, Variance, is_struct,
};
use bc_tokens::{Cursor, Refusal};
use std::alloc::Global;

/// The regions of a struct, with their variances.
#[derive(Drop)]
struct Marks {
    variances: Sequence<Variance>,
    regions: Sequence<RegionName>,
}

#[tactic(auto, unfolding(crate::specs::Reading::variance))]
fn variance(cursor: &mut Cursor<'_>) -> Result<Variance, Refusal>
    ensures { Reads (spec.variance cursor.old) result cursor.new }
{
    if cursor.eat(Symbol::Plus) {
        return Ok(Variance::Covariant);
    }
    cursor.expect(Symbol::Equals)?;
    Ok(Variance::Invariant)
}

fn begins_mark(cursor: &Cursor<'_>) -> bool
    ensures { result ≡ begins_mark cursor.now }
{
    cursor.sees(Symbol::Plus) || cursor.sees(Symbol::Equals)
}

/// Reads a mark: a variance, and a region that no earlier mark declares.
#[tactic(auto, unfolding(crate::specs::Reading::mark))]
fn mark(
    alloc: Global,
    cursor: &mut Cursor<'_>,
    before: &Marks,
) -> Result<(Variance, RegionName), Refusal>
    requires { length before.now.variances ≡ length before.now.regions }
    ensures { Reads (spec.mark (zip before.now.variances before.now.regions) cursor.old) result cursor.new }
{
    let variance = variance(cursor)?;
    let region = new_region(alloc, cursor, before.regions.as_slice())?;
    Ok((variance, region))
}

fn some_marks(alloc: Global, cursor: &mut Cursor<'_>) -> Result<Marks, Refusal>
    ensures lengths { IfOk result (λ m. (length m.variances ≡ length m.regions) × (length m.regions ≤ 8)) }
    ensures reads { ReadsMarks (declared_from begins_mark spec.mark 8 [] cursor.old) result cursor.new }
{
    let mut found = Marks {
        variances: Sequence::new(alloc),
        regions: Sequence::new(alloc),
    };
    for _turn in 0..8u8 {
        let (variance, region) = mark(alloc, cursor, &found)?;
        found.variances.push(variance)?;
        found.regions.push(region)?;
        if !cursor.eat(Symbol::Comma) {
            return Ok(found);
        }
    }
    Err(refuse_past(begins_mark(cursor), cursor))
}

#[tactic(auto, unfolding(bc_tokens::specs::Parser::declared_list))]
fn declared_marks(alloc: Global, cursor: &mut Cursor<'_>) -> Result<Marks, Refusal>
    ensures lengths { IfOk result (λ m. (length m.variances ≡ length m.regions) × (length m.regions ≤ 8)) }
    ensures reads { ReadsMarks (declared_list begins_mark spec.mark 8 cursor.old) result cursor.new }
{
    if !cursor.eat(Symbol::Less) {
        return Ok(Marks {
            variances: Sequence::new(alloc),
            regions: Sequence::new(alloc),
        });
    }
    match some_marks(alloc, cursor) {
        Ok(found) => match cursor.expect(Symbol::Greater) {
            Ok(()) => Ok(found),
            Err(refusal) => Err(refusal),
        },
        Err(refusal) => Err(refusal),
    }
}

fn some_fields(
    alloc: Global,
    cursor: &mut Cursor<'_>,
    regions: &[RegionName],
) -> Result<Sequence<Ty>, Refusal>
    requires { length regions.now ≤ 15 }
    ensures { Reads (spec.fields_from regions.now 16 [] cursor.old) result cursor.new }
{
    let mut found = Sequence::new(alloc);
    for _turn in 0..16u8 {
        if !begins_ty(cursor) {
            return Ok(found);
        }
        let ty = ty(alloc, cursor, false, regions)?;
        cursor.expect(Symbol::Semicolon)?;
        found.push(ty)?;
    }
    if begins_ty(cursor) {
        return Err(Refusal::Limit {
            at: cursor.position(),
        });
    }
    Ok(found)
}

#[tactic(auto, unfolding(crate::specs::Reading::fields))]
fn fields(
    alloc: Global,
    cursor: &mut Cursor<'_>,
    regions: &[RegionName],
) -> Result<Sequence<Ty>, Refusal>
    requires { length regions.now ≤ 15 }
    ensures { Reads (spec.fields regions.now cursor.old) result cursor.new }
{
    cursor.expect(Symbol::OpenBrace)?;
    let fields = some_fields(alloc, cursor, regions)?;
    cursor.expect(Symbol::CloseBrace)?;
    Ok(fields)
}

#[tactic(auto, unfolding(crate::specs::Reading::struct_of))]
fn struct_of(
    alloc: Global,
    cursor: &mut Cursor<'_>,
    name: ItemName,
    marks: Marks,
) -> Result<StructDeclaration, Refusal>
    requires lengths { length marks.variances ≡ length marks.regions }
    requires few { length marks.regions ≤ 8 }
    ensures { Reads (spec.struct_of name (zip marks.variances marks.regions) cursor.old) result cursor.new }
{
    let has_drop = cursor.eat(Symbol::Drop);
    let fields = fields(alloc, cursor, marks.regions.as_slice())?;
    Ok(StructDeclaration {
        name,
        regions: marks.regions,
        variances: marks.variances,
        has_drop,
        fields,
    })
}

#[tactic(auto, unfolding(crate::specs::Reading::struct_declaration))]
fn struct_declaration(alloc: Global, cursor: &mut Cursor<'_>) -> Result<StructDeclaration, Refusal>
    ensures { Reads (spec.struct_declaration cursor.old) result cursor.new }
{
    let name = item_name(alloc, cursor)?;
    let marks = declared_marks(alloc, cursor)?;
    struct_of(alloc, cursor, name, marks)
}

#[tactic(auto, unfolding(crate::specs::Reading::extern_declaration))]
fn extern_declaration(alloc: Global, cursor: &mut Cursor<'_>) -> Result<ExternDeclaration, Refusal>
    ensures { Reads (spec.extern_declaration cursor.old) result cursor.new }
{
    let name = item_name(alloc, cursor)?;
    let signature = signature(alloc, cursor, 8)?;
    cursor.expect(Symbol::Semicolon)?;
    Ok(ExternDeclaration { name, signature })
}

#[tactic(auto, unfolding(crate::specs::Reading::declaration))]
fn declaration(
    alloc: Global,
    cursor: &mut Cursor<'_>,
    found: &[Declaration],
    structs: usize,
) -> Result<Declaration, Refusal>
    requires structs { structs ≡ structs_in found.now }
    requires within { structs ≤ length found.now }
    ensures reads { Reads (spec.declaration found.now cursor.old) result cursor.new }
{
    if cursor.sees(Symbol::Struct) {
        if structs >= 64 {
            return Err(refuse_past(true, cursor));
        }
        cursor.expect(Symbol::Struct)?;
        return Ok(Declaration::Struct(struct_declaration(alloc, cursor)?));
    }
    if found.len() - structs >= 64 {
        return Err(refuse_past(true, cursor));
    }
    cursor.expect(Symbol::Extern)?;
    Ok(Declaration::Extern(extern_declaration(alloc, cursor)?))
}

fn begins_declaration(cursor: &Cursor<'_>) -> bool
    ensures { result ≡ spec.begins_declaration cursor.now }
{
    cursor.sees(Symbol::Struct) || cursor.sees(Symbol::Extern)
}

fn declarations(alloc: Global, cursor: &mut Cursor<'_>) -> Result<Sequence<Declaration>, Refusal>
    ensures { Reads (spec.declarations_from 129 [] cursor.old) result cursor.new }
{
    let mut found = Sequence::new(alloc);
    let mut structs = 0usize;
    for _turn in 0..129u8 {
        if !begins_declaration(cursor) {
            return Ok(found);
        }
        let declaration = declaration(alloc, cursor, found.as_slice(), structs)?;
        if is_struct(&declaration) {
            structs += 1;
        }
        found.push(declaration)?;
    }
    Err(cursor.fault())
}

#[tactic(auto, unfolding(crate::specs::Reading::types))]
fn types(alloc: Global, cursor: &mut Cursor<'_>) -> Result<Sequence<Declaration>, Refusal>
    ensures { Reads (spec.types cursor.old) result cursor.new }
{
    let found = declarations(alloc, cursor)?;
    cursor.at_end()?;
    Ok(found)
}

#[tactic(auto, unfolding(crate::specs::Reading::read_types, crate::specs::Reading::read_whole))]
fn read_whole_types(alloc: Global, bytes: &[u8]) -> Result<Types, ReadFault>
    ensures exact { Answers result (spec.read_types bytes.now) }
    ensures too_long { (result ≡ Err TooLong) ↔ (1048576 < length bytes.now) }
{
    if bytes.len() > MAX_TEXT {
        return Err(ReadFault::TooLong);
    }
    let mut cursor = Cursor::new(bytes, 0);
    Ok(Types::of_fitting(types(alloc, &mut cursor)?))
}

/// Reads the declarations that a text spells. Returns `TooLong` exactly if the text has more than 1,048,576 bytes; `NotAscii`, `Token`,
/// `Grammar` or `Limit` with the place of the first bad token; and `NoMemory` only if out of memory.
#[tactic(auto, unfolding(crate::specs::Reading::read_types))]
pub fn read_types(alloc: Global, bytes: &[u8]) -> Result<Types, ReadFault>
    // The text spells what is read.
    ensures found { IfOk result (λ types. SpellsTypes bytes.now types × TypesFit types) }
    // What the text spells is read, unless out of memory.
    ensures only { (types : List DeclarationValue) → SpellsTypes bytes.now types → TypesFit types → Answers result (Ok types) }
    // The fault is the first one from the left.
    ensures exact { Answers result (spec.read_types bytes.now) }
    ensures too_long { (result ≡ Err TooLong) ↔ (1048576 < length bytes.now) }
{
    read_whole_types(alloc, bytes)
}
