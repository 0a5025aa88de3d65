//! Reads types and references.
ghost use Rattle.std.specs.Prelude.{◌≡◌, ◌≤◌, length, [], IfOk, Ok, false};
ghost use Rattle.bc_tokens.specs.Parser.{Reads, separated_from, closed_list};
ghost use Rattle.bc_text.specs.Reading as spec;

use crate::regions::{closure_instance, instance, refuse_past, region};
use bc_syntax::{Base, Mutability, Reference, RegionName, Sequence, ShortSequence, Symbol, Ty};
use bc_tokens::{Cursor, Refusal};
use std::alloc::Global;

#[inline(always)]
#[tactic(auto, unfolding(crate::specs::Reading::mutability))]
fn mutability(cursor: &mut Cursor<'_>) -> Mutability
    ensures { spec.mutability cursor.old ≡ Ok (result, cursor.new) }
{
    if cursor.eat(Symbol::Mut) {
        Mutability::Mutable
    } else {
        Mutability::Shared
    }
}

/// Reads a reference after its `&`: a region, and `mut` or nothing.
#[inline(always)]
#[tactic(auto, unfolding(crate::specs::Reading::reference))]
pub fn reference(
    cursor: &mut Cursor<'_>,
    variables: bool,
    regions: &[RegionName],
) -> Result<Reference, Refusal>
    requires { length regions.now ≤ 15 }
    ensures { Reads (spec.reference variables regions.now cursor.old) result cursor.new }
{
    let region = region(cursor, variables, regions)?;
    let mutability = mutability(cursor);
    Ok(Reference { region, mutability })
}

/// Returns whether a type may begin here.
pub fn begins_ty(cursor: &Cursor<'_>) -> bool
    ensures { result ≡ spec.begins_ty cursor.now }
{
    cursor.sees(Symbol::Ampersand) || cursor.sees(Symbol::Int) || cursor.sees_word()
}

#[tactic(auto, unfolding(crate::specs::Reading::base))]
fn base(
    alloc: Global,
    cursor: &mut Cursor<'_>,
    variables: bool,
    regions: &[RegionName],
) -> Result<Base, Refusal>
    requires { length regions.now ≤ 15 }
    ensures { Reads (spec.base variables regions.now cursor.old) result cursor.new }
{
    if cursor.eat(Symbol::Int) {
        Ok(Base::Int)
    } else {
        Ok(Base::Struct(instance(alloc, cursor, variables, regions)?))
    }
}

/// Reads a type.
#[tactic(auto, unfolding(crate::specs::Reading::ty))]
pub fn ty(
    alloc: Global,
    cursor: &mut Cursor<'_>,
    variables: bool,
    regions: &[RegionName],
) -> Result<Ty, Refusal>
    requires { length regions.now ≤ 15 }
    ensures { Reads (spec.ty variables regions.now cursor.old) result cursor.new }
{
    let mut references = ShortSequence::new(alloc);
    for _turn in 0..8u8 {
        if !cursor.eat(Symbol::Ampersand) {
            let base = base(alloc, cursor, variables, regions)?;
            return Ok(Ty { references, base });
        }
        references.push(reference(cursor, variables, regions)?)?;
    }
    Err(refuse_past(begins_ty(cursor), cursor))
}

/// Reads the type of a `let` local: a closure, or any other type.
#[tactic(auto, unfolding(crate::specs::Reading::let_type))]
pub fn let_type(
    alloc: Global,
    cursor: &mut Cursor<'_>,
    regions: &[RegionName],
) -> Result<Ty, Refusal>
    requires { length regions.now ≤ 15 }
    ensures { Reads (spec.let_type regions.now cursor.old) result cursor.new }
{
    if cursor.eat(Symbol::Closure) {
        let base = Base::Closure(closure_instance(alloc, cursor, regions)?);
        let references = ShortSequence::new(alloc);
        return Ok(Ty { references, base });
    }
    ty(alloc, cursor, true, regions)
}

fn some_tys(
    alloc: Global,
    cursor: &mut Cursor<'_>,
    regions: &[RegionName],
) -> Result<Sequence<Ty>, Refusal>
    requires { length regions.now ≤ 15 }
    ensures few { IfOk result (λ found. length found ≤ 16) }
    ensures reads { Reads (separated_from spec.begins_ty (spec.ty false regions.now) 16 [] cursor.old) result cursor.new }
{
    let mut found = Sequence::new(alloc);
    for _turn in 0..16u8 {
        found.push(ty(alloc, cursor, false, regions)?)?;
        if !cursor.eat(Symbol::Comma) {
            return Ok(found);
        }
    }
    Err(refuse_past(begins_ty(cursor), cursor))
}

/// Reads the types of parameters, in parentheses.
#[tactic(auto, unfolding(bc_tokens::specs::Parser::closed_list, crate::specs::Reading::parameters))]
pub fn parameters(
    alloc: Global,
    cursor: &mut Cursor<'_>,
    regions: &[RegionName],
) -> Result<Sequence<Ty>, Refusal>
    requires { length regions.now ≤ 15 }
    ensures few { IfOk result (λ found. length found ≤ 16) }
    ensures reads { Reads (spec.parameters regions.now cursor.old) result cursor.new }
{
    cursor.expect(Symbol::OpenParen)?;
    if cursor.eat(Symbol::CloseParen) {
        return Ok(Sequence::new(alloc));
    }
    let found = some_tys(alloc, cursor, regions)?;
    cursor.expect(Symbol::CloseParen)?;
    Ok(found)
}

/// Reads the types of captures, in brackets.
#[tactic(auto, unfolding(bc_tokens::specs::Parser::closed_list, crate::specs::Reading::captures))]
pub fn captures(
    alloc: Global,
    cursor: &mut Cursor<'_>,
    regions: &[RegionName],
) -> Result<Sequence<Ty>, Refusal>
    requires { length regions.now ≤ 15 }
    ensures few { IfOk result (λ found. length found ≤ 16) }
    ensures reads { Reads (spec.captures regions.now cursor.old) result cursor.new }
{
    cursor.expect(Symbol::OpenBracket)?;
    if cursor.eat(Symbol::CloseBracket) {
        return Ok(Sequence::new(alloc));
    }
    let found = some_tys(alloc, cursor, regions)?;
    cursor.expect(Symbol::CloseBracket)?;
    Ok(found)
}
