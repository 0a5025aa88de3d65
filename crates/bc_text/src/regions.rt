//! Reads regions and names, and items with region arguments.
ghost use Rattle.std.specs.Prelude.{◌≡◌, ◌≤◌, length, [], if◌then◌else◌, IfOk};
ghost use Rattle.bc_tokens.specs.Parser.{Reads, separated_from, angled_list, declared_from, declared_list, position, fault, sees_region};
ghost use Rattle.bc_tokens.specs.declared.refusal.Refusal.TheVariants.{Limit};
ghost use Rattle.bc_text.specs.Reading as spec;

use crate::universals::number_of;
use bc_syntax::{
    ClosureInstance, Instance, ItemName, Numbering, Region, RegionName, Sequence, ShortSequence,
    Symbol, is_new, is_word,
};
use bc_tokens::{Cursor, Refusal};
use std::alloc::Global;

/// Returns `Limit` if an item begins here, otherwise the fault of the next token.
pub fn refuse_past(begins: bool, cursor: &Cursor<'_>) -> Refusal
    ensures { result ≡ (if begins then Limit (position cursor.now) else fault cursor.now) }
{
    if begins {
        Refusal::Limit {
            at: cursor.position(),
        }
    } else {
        cursor.fault()
    }
}

/// Reads a universal region, and returns its number. Returns `Grammar` if it is not declared.
#[tactic(auto, unfolding(crate::specs::Reading::universal))]
pub fn universal(cursor: &mut Cursor<'_>, regions: &[RegionName]) -> Result<u8, Refusal>
    requires { length regions.now ≤ 15 }
    ensures { Reads (spec.universal regions.now cursor.old) result cursor.new }
{
    let at = cursor.position();
    let name = cursor.region_name()?;
    match number_of(regions, name) {
        Some(number) => Ok(number),
        None => Err(Refusal::Grammar { at }),
    }
}

/// Reads a universal region or, if `variables` is set, a variable.
#[inline(always)]
#[tactic(auto, unfolding(crate::specs::Reading::region))]
pub fn region(
    cursor: &mut Cursor<'_>,
    variables: bool,
    regions: &[RegionName],
) -> Result<Region, Refusal>
    requires { length regions.now ≤ 15 }
    ensures { Reads (spec.region variables regions.now cursor.old) result cursor.new }
{
    if variables && cursor.sees_numbered(Numbering::Variable) {
        let variable = cursor.numbered(Numbering::Variable, 1023)?;
        return Ok(Region::Variable(variable as u16));
    }
    Ok(Region::Universal(universal(cursor, regions)?))
}

fn begins_region(cursor: &Cursor<'_>, variables: bool) -> bool
    ensures { result ≡ spec.begins_region variables cursor.now }
{
    cursor.sees_region() || (variables && cursor.sees_numbered(Numbering::Variable))
}

/// Reads a region to declare. Returns `Grammar` if it is `'static`, or among those before.
#[tactic(auto, unfolding(crate::specs::Reading::new_region))]
pub fn new_region(
    alloc: Global,
    cursor: &mut Cursor<'_>,
    before: &[RegionName],
) -> Result<RegionName, Refusal>
    ensures { Reads (spec.new_region before.now cursor.old) result cursor.new }
{
    let at = cursor.position();
    let bytes = ShortSequence::of(alloc, cursor.region_name()?)?;
    let name = RegionName { bytes };
    if is_new(before, &name) {
        Ok(name)
    } else {
        Err(Refusal::Grammar { at })
    }
}

fn some_new_regions(
    alloc: Global,
    cursor: &mut Cursor<'_>,
    limit: u8,
) -> Result<Sequence<RegionName>, Refusal>
    ensures few { IfOk result (λ found. length found ≤ limit) }
    ensures reads { Reads (declared_from sees_region spec.new_region limit [] cursor.old) result cursor.new }
{
    let mut found = Sequence::new(alloc);
    for _turn in 0..limit {
        let name = new_region(alloc, cursor, found.as_slice())?;
        found.push(name)?;
        if !cursor.eat(Symbol::Comma) {
            return Ok(found);
        }
    }
    Err(refuse_past(cursor.sees_region(), cursor))
}

/// Reads at most `limit` regions to declare, in `<` and `>`, or none if no `<` comes.
#[tactic(auto, unfolding(bc_tokens::specs::Parser::declared_list))]
pub fn new_regions(
    alloc: Global,
    cursor: &mut Cursor<'_>,
    limit: u8,
) -> Result<Sequence<RegionName>, Refusal>
    ensures few { IfOk result (λ found. length found ≤ limit) }
    ensures reads { Reads (declared_list sees_region spec.new_region limit cursor.old) result cursor.new }
{
    if !cursor.eat(Symbol::Less) {
        return Ok(Sequence::new(alloc));
    }
    let found = some_new_regions(alloc, cursor, limit)?;
    cursor.expect(Symbol::Greater)?;
    Ok(found)
}

/// Reads the name of a struct or of an extern function.
#[tactic(auto, unfolding(crate::specs::Reading::item_name))]
pub fn item_name(alloc: Global, cursor: &mut Cursor<'_>) -> Result<ItemName, Refusal>
    ensures { Reads (spec.item_name cursor.old) result cursor.new }
{
    let at = cursor.position();
    let name = cursor.word()?;
    if is_word(name) {
        let bytes = ShortSequence::of(alloc, name)?;
        Ok(ItemName { bytes })
    } else {
        Err(Refusal::Grammar { at })
    }
}

fn some_regions(
    alloc: Global,
    cursor: &mut Cursor<'_>,
    variables: bool,
    regions: &[RegionName],
) -> Result<ShortSequence<Region, 4>, Refusal>
    requires { length regions.now ≤ 15 }
    ensures { Reads (separated_from (spec.begins_region variables) (spec.region variables regions.now) 15 [] cursor.old) result cursor.new }
{
    let mut found = ShortSequence::new(alloc);
    for _turn in 0..15u8 {
        found.push(region(cursor, variables, regions)?)?;
        if !cursor.eat(Symbol::Comma) {
            return Ok(found);
        }
    }
    Err(refuse_past(begins_region(cursor, variables), cursor))
}

/// Reads regions in `<` and `>`, or none if no `<` comes.
#[tactic(auto, unfolding(bc_tokens::specs::Parser::declared_list))]
pub fn arguments(
    alloc: Global,
    cursor: &mut Cursor<'_>,
    variables: bool,
    regions: &[RegionName],
) -> Result<ShortSequence<Region, 4>, Refusal>
    requires { length regions.now ≤ 15 }
    ensures { Reads (angled_list (spec.begins_region variables) (spec.region variables regions.now) 15 cursor.old) result cursor.new }
{
    if !cursor.eat(Symbol::Less) {
        return Ok(ShortSequence::new(alloc));
    }
    let found = some_regions(alloc, cursor, variables, regions)?;
    cursor.expect(Symbol::Greater)?;
    Ok(found)
}

/// Reads the name and the region arguments of a struct or of an extern function.
#[tactic(auto, unfolding(crate::specs::Reading::instance))]
pub fn instance(
    alloc: Global,
    cursor: &mut Cursor<'_>,
    variables: bool,
    regions: &[RegionName],
) -> Result<Instance, Refusal>
    requires { length regions.now ≤ 15 }
    ensures { Reads (spec.instance variables regions.now cursor.old) result cursor.new }
{
    let name = item_name(alloc, cursor)?;
    let regions = arguments(alloc, cursor, variables, regions)?;
    Ok(Instance { name, regions })
}

/// Reads the number and the region arguments of a closure, after `closure`.
#[tactic(auto, unfolding(crate::specs::Reading::closure_instance))]
pub fn closure_instance(
    alloc: Global,
    cursor: &mut Cursor<'_>,
    regions: &[RegionName],
) -> Result<ClosureInstance, Refusal>
    requires { length regions.now ≤ 15 }
    ensures { Reads (spec.closure_instance regions.now cursor.old) result cursor.new }
{
    let number = cursor.numbered(Numbering::Number, 63)? as u8;
    let regions = arguments(alloc, cursor, true, regions)?;
    Ok(ClosureInstance { number, regions })
}
