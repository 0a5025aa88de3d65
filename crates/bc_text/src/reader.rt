//! Reads headers, bodies and whole texts of units.
ghost use Rattle.std.specs.Prelude.{◌≡◌, ◌+◌, ◌<◌, ◌≤◌, ◌^◌, length, [], Ok, Err, IfOk, ◌↔◌};
ghost use Rattle.bc_tokens.specs.Parser.{Reads, separated_from, opened_list, sees_region};
ghost use Rattle.bc_text.specs.Reading.{Answers};
ghost use Rattle.bc_text.specs.Spells.{Spells};
ghost use Rattle.bc_syntax.specs.Fits.{Fits};
ghost use Rattle.bc_syntax.specs.declared.syntax.Body.{Body};
ghost use Rattle.bc_text.specs.declared.fault.ReadFault.TheVariants.{TooLong};
ghost use Rattle.bc_text.specs.Reading as spec;

use crate::blocks::blocks;
use crate::fault::ReadFault;
use crate::regions::{new_regions, refuse_past, universal};
use crate::types::{captures, let_type, parameters, ty};
use bc_syntax::{
    Body, Header, Numbering, Outlives, RegionName, Sequence, Signature, Symbol, Ty, Unit, UnitKind,
};
use bc_tokens::{Cursor, Refusal};
use std::alloc::Global;

#[tactic(auto, unfolding(crate::specs::Reading::clause))]
fn clause(cursor: &mut Cursor<'_>, regions: &[RegionName]) -> Result<Outlives, Refusal>
    requires { length regions.now ≤ 15 }
    ensures { Reads (spec.clause regions.now cursor.old) result cursor.new }
{
    let longer = universal(cursor, regions)?;
    cursor.expect(Symbol::Colon)?;
    let shorter = universal(cursor, regions)?;
    Ok(Outlives { longer, shorter })
}

fn some_clauses(
    alloc: Global,
    cursor: &mut Cursor<'_>,
    regions: &[RegionName],
) -> Result<Sequence<Outlives>, Refusal>
    requires { length regions.now ≤ 15 }
    ensures { Reads (separated_from sees_region (spec.clause regions.now) 32 [] cursor.old) result cursor.new }
{
    let mut found = Sequence::new(alloc);
    for _turn in 0..32u8 {
        found.push(clause(cursor, regions)?)?;
        if !cursor.eat(Symbol::Comma) {
            return Ok(found);
        }
    }
    Err(refuse_past(cursor.sees_region(), cursor))
}

#[tactic(auto, unfolding(bc_tokens::specs::Parser::opened_list, crate::specs::Reading::clauses))]
fn clauses(
    alloc: Global,
    cursor: &mut Cursor<'_>,
    regions: &[RegionName],
) -> Result<Sequence<Outlives>, Refusal>
    requires { length regions.now ≤ 15 }
    ensures { Reads (spec.clauses regions.now cursor.old) result cursor.new }
{
    if cursor.eat(Symbol::Where) {
        some_clauses(alloc, cursor, regions)
    } else {
        Ok(Sequence::new(alloc))
    }
}

/// Reads parameters and result, and returns the signature with these regions and clauses.
#[tactic(auto, unfolding(crate::specs::Reading::function_ty))]
fn function_ty(
    alloc: Global,
    cursor: &mut Cursor<'_>,
    regions: Sequence<RegionName>,
    clauses: Sequence<Outlives>,
) -> Result<Signature, Refusal>
    requires { length regions ≤ 15 }
    ensures few { IfOk result (λ f. length f.parameters ≤ 16) }
    ensures regions { IfOk result (λ f. f.regions ≡ regions) }
    ensures reads { Reads (spec.function_ty regions clauses cursor.old) result cursor.new }
{
    let names = regions.as_slice();
    let parameters = parameters(alloc, cursor, names)?;
    cursor.expect(Symbol::Arrow)?;
    let result = ty(alloc, cursor, false, names)?;
    Ok(Signature {
        regions,
        clauses,
        parameters,
        result,
    })
}

/// Reads the rest of a signature, after its regions.
#[tactic(auto, unfolding(crate::specs::Reading::behind_regions))]
fn behind_regions(
    alloc: Global,
    cursor: &mut Cursor<'_>,
    regions: Sequence<RegionName>,
) -> Result<Signature, Refusal>
    requires { length regions ≤ 15 }
    ensures few { IfOk result (λ f. length f.parameters ≤ 16) }
    ensures regions { IfOk result (λ f. f.regions ≡ regions) }
    ensures reads { Reads (spec.behind_regions regions cursor.old) result cursor.new }
{
    let clauses = clauses(alloc, cursor, regions.as_slice())?;
    function_ty(alloc, cursor, regions, clauses)
}

/// Reads a signature that declares at most `limit` regions.
#[tactic(auto, unfolding(crate::specs::Reading::signature))]
pub fn signature(alloc: Global, cursor: &mut Cursor<'_>, limit: u8) -> Result<Signature, Refusal>
    requires { limit ≤ 15 }
    ensures few { IfOk result (λ f. length f.parameters ≤ 16) }
    ensures regions { IfOk result (λ f. length f.regions ≤ 15) }
    ensures reads { Reads (spec.signature limit cursor.old) result cursor.new }
{
    let regions = new_regions(alloc, cursor, limit)?;
    behind_regions(alloc, cursor, regions)
}

#[tactic(auto, unfolding(crate::specs::Reading::function_header))]
fn function_header(alloc: Global, cursor: &mut Cursor<'_>) -> Result<Header, Refusal>
    ensures few { IfOk result (λ h. length h.captures + length h.signature.parameters ≤ 32) }
    ensures regions { IfOk result (λ h. length h.signature.regions ≤ 15) }
    ensures reads { Reads (spec.function_header cursor.old) result cursor.new }
{
    let signature = signature(alloc, cursor, 15)?;
    Ok(Header {
        kind: UnitKind::Function,
        captures: Sequence::new(alloc),
        signature,
    })
}

/// Reads the rest of a closure's header, after its regions.
#[tactic(auto, unfolding(crate::specs::Reading::closure_behind))]
fn closure_behind(
    alloc: Global,
    cursor: &mut Cursor<'_>,
    regions: Sequence<RegionName>,
) -> Result<Header, Refusal>
    requires { length regions ≤ 15 }
    ensures few { IfOk result (λ h. length h.captures + length h.signature.parameters ≤ 32) }
    ensures regions { IfOk result (λ h. h.signature.regions ≡ regions) }
    ensures reads { Reads (spec.closure_behind regions cursor.old) result cursor.new }
{
    let clauses = clauses(alloc, cursor, regions.as_slice())?;
    let captures = captures(alloc, cursor, regions.as_slice())?;
    let signature = function_ty(alloc, cursor, regions, clauses)?;
    Ok(Header {
        kind: UnitKind::Closure,
        captures,
        signature,
    })
}

#[tactic(auto, unfolding(crate::specs::Reading::closure_header))]
fn closure_header(alloc: Global, cursor: &mut Cursor<'_>) -> Result<Header, Refusal>
    ensures few { IfOk result (λ h. length h.captures + length h.signature.parameters ≤ 32) }
    ensures regions { IfOk result (λ h. length h.signature.regions ≤ 15) }
    ensures reads { Reads (spec.closure_header cursor.old) result cursor.new }
{
    let regions = new_regions(alloc, cursor, 15)?;
    closure_behind(alloc, cursor, regions)
}

#[tactic(auto, unfolding(crate::specs::Reading::header))]
fn header(alloc: Global, cursor: &mut Cursor<'_>) -> Result<Header, Refusal>
    ensures few { IfOk result (λ h. length h.captures + length h.signature.parameters ≤ 32) }
    ensures regions { IfOk result (λ h. length h.signature.regions ≤ 15) }
    ensures reads { Reads (spec.header cursor.old) result cursor.new }
{
    if cursor.eat(Symbol::Fn) {
        return function_header(alloc, cursor);
    }
    cursor.expect(Symbol::Closure)?;
    closure_header(alloc, cursor)
}

#[tactic(auto, unfolding(crate::specs::Reading::declared_ty))]
fn declared_ty(
    alloc: Global,
    cursor: &mut Cursor<'_>,
    regions: &[RegionName],
) -> Result<Ty, Refusal>
    requires { length regions.now ≤ 15 }
    ensures { Reads (spec.declared_ty regions.now cursor.old) result cursor.new }
{
    cursor.expect(Symbol::Colon)?;
    let ty = let_type(alloc, cursor, regions)?;
    cursor.expect(Symbol::Semicolon)?;
    Ok(ty)
}

#[tactic(auto, unfolding(crate::specs::Reading::let_ty))]
fn let_ty(
    alloc: Global,
    cursor: &mut Cursor<'_>,
    regions: &[RegionName],
    next: u16,
) -> Result<Ty, Refusal>
    requires { length regions.now ≤ 15 }
    ensures { Reads (spec.let_ty regions.now next cursor.old) result cursor.new }
{
    let at = cursor.position();
    let local = cursor.numbered(Numbering::Local, 255)?;
    if local == u32::from(next) {
        declared_ty(alloc, cursor, regions)
    } else {
        Err(Refusal::Grammar { at })
    }
}

fn lets(
    alloc: Global,
    cursor: &mut Cursor<'_>,
    regions: &[RegionName],
    first: u16,
) -> Result<Sequence<Ty>, Refusal>
    requires regions { length regions.now ≤ 15 }
    requires first { first ≤ 256 }
    ensures reads { Reads (spec.lets_from regions.now first 256 [] cursor.old) result cursor.new }
    ensures few { IfOk result (λ found. length found ≤ 256) }
{
    let mut found = Sequence::new(alloc);
    for turn in 0..256u16 {
        if !cursor.eat(Symbol::Let) {
            return Ok(found);
        }
        found.push(let_ty(alloc, cursor, regions, first + turn)?)?;
    }
    Err(cursor.fault())
}

/// Reads the body after a header, and the end.
#[tactic(auto, unfolding(crate::specs::Reading::body_of))]
fn body_of(alloc: Global, cursor: &mut Cursor<'_>, header: Header) -> Result<Body, Refusal>
    requires few { length header.captures + length header.signature.parameters ≤ 32 }
    requires regions { length header.signature.regions ≤ 15 }
    ensures { Reads (spec.body_of header cursor.old) result cursor.new }
{
    cursor.expect(Symbol::OpenBrace)?;
    let first = header.first_let() as u16;
    let regions = header.signature.regions.as_slice();
    let lets = lets(alloc, cursor, regions, first)?;
    let locals = first + lets.len() as u16;
    let blocks = blocks(alloc, cursor, regions, locals)?;
    cursor.expect(Symbol::CloseBrace)?;
    cursor.at_end()?;
    Ok(Body {
        header,
        lets,
        blocks,
    })
}

#[tactic(auto, unfolding(crate::specs::Reading::unit))]
fn body(alloc: Global, cursor: &mut Cursor<'_>) -> Result<Body, Refusal>
    ensures { Reads (spec.unit cursor.old) result cursor.new }
{
    let header = header(alloc, cursor)?;
    body_of(alloc, cursor, header)
}

#[tactic(auto, unfolding(crate::specs::Reading::read, crate::specs::Reading::read_whole))]
fn read_whole(alloc: Global, bytes: &[u8]) -> Result<Unit, ReadFault>
    ensures exact { Answers result (spec.read bytes.now) }
    ensures too_long { (result ≡ Err TooLong) ↔ (1048576 < length bytes.now) }
{
    if bytes.len() > MAX_TEXT {
        return Err(ReadFault::TooLong);
    }
    let mut cursor = Cursor::new(bytes, 0);
    Ok(Unit::of_fitting(body(alloc, &mut cursor)?))
}

/// The most bytes that a text may have.
pub const MAX_TEXT: usize = 1_048_576;

/// Reads the unit that a text spells. Returns `TooLong` exactly if the text has more than 1,048,576 bytes; `NotAscii`, `Token`, `Grammar`
/// or `Limit` with the place of the first bad token; and `NoMemory` only if out of memory. (A textual form of the MIR of the
/// rustc-dev-guide, "The MIR".)
#[tactic(auto, unfolding(crate::specs::Reading::read))]
pub fn read_unit(alloc: Global, bytes: &[u8]) -> Result<Unit, ReadFault>
    // The text spells what is read.
    ensures found { IfOk result (λ u. Spells bytes.now u × Fits u) }
    // What the text spells is read, unless out of memory.
    ensures only { (u : Body) → Spells bytes.now u → Fits u → Answers result (Ok u) }
    // The fault is the first one from the left.
    ensures exact { Answers result (spec.read bytes.now) }
    ensures too_long { (result ≡ Err TooLong) ↔ (1048576 < length bytes.now) }
{
    read_whole(alloc, bytes)
}
