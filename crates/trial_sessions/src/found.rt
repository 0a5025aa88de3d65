//! What is found for a body, for a snapshot and in a book.
ghost use Rattle.std.specs.Prelude.{◌≡◌, [], IfOk};

use crate::held::put;
use anyhow::{Result, bail};
use bc_book::Book;
use bc_calls::{Begun, no_declarations};
use bc_cons::Requirements;
use bc_memo::Shelf;
use bc_mir::{KidHeader, Typed};
use bc_names::Name;
use bc_outcomes::{piece, report, report_pieces};
use bc_points::accesses;
use bc_prov::{Check, Piece, Pieces, Providers, Shared, Snapshot, share};
use bc_syntax::{Sequence, Unit, UnitKind};
use bc_versions::Waiting;
use std::alloc::{AllocError, Global};
use std::sync::Wait;
use test_fixtures::{
    CLOSURE_WRITES, INVOKES, Sight, WRITES_WHILE_BORROWED, good_types, name, refusing, shared_unit,
    typed_alone,
};

const DECLARED: &[u8] =
    b"struct G<+'a> drop { &'a int; } struct P<='a,+'b> { &'b mut &'a int; G<'b>; int; } extern k<'a,'b> where 'a: 'b (&'a mut &'b int, int) -> &'b int;";

/// A body with calls, drops and types that have regions, over `DECLARED`.
const BODY: &[u8] =
    b"fn <'a,'b> where 'a: 'b (&'b mut &'a int, int) -> &'a int { let _3: P<'?0,'?1>; let _4: &'?2 int; let _5: G<'?3>; let _6: int; let _7: &'?4 mut &'?5 int; bb0 { _6 = 1; _4 = &'?6 _6; _5 = G<'?7>(copy _4); _7 = &'?8 mut _1.*; _6 = 2; if copy _2 bb1 bb2; } bb1 { _3 = P<'?9,'?10>(move _7, move _5, 7); _6 = calc(copy _2, copy _2, copy _2, copy _2, copy _2); dead _7; drop _3; goto bb3; } bb2 { _4 = call k<'?11,'?12>(move _7, copy _2) bb3; } bb3 { _0 = copy _4; nop; return; } }";

/// A function that creates a closure with regions, that closure, and one in its place that requires something.
const CREATES: &[u8] =
    b"fn <'a,'b,'c> (&'a int, &'c mut &'b int) -> int { let _3: closure 0<'a,'b,'c>; bb0 { _3 = closure 0<'a,'b,'c>(copy _1, move _2); _0 = invoke _3() bb1; } bb1 { return; } }";

const REQUIRES_NOTHING: &[u8] =
    b"closure <'x,'y,'z> [&'x int, &'z mut &'y int] () -> int { bb0 { _0 = 0; return; } }";

const REQUIRES: &[u8] =
    b"closure <'x,'y,'z> [&'x int, &'z mut &'y int] () -> int { bb0 { _2.* = copy _1; _0 = 0; return; } }";

/// Returns `BODY`, typed.
fn typed(alloc: Global) -> Result<Typed> {
    let types = good_types(alloc, DECLARED)?;
    let unit = shared_unit(alloc, BODY)?;
    typed_alone(alloc, &types, &unit)
}

/// Returns the number of accesses that the points of a body make.
fn count_accesses(alloc: Global, typed: &Typed) -> Result<usize, AllocError> {
    let mut made: usize = 0;
    for step in typed.steps() {
        made = made.saturating_add(accesses(alloc, typed, &step.instruction)?.len());
    }
    Ok(made)
}

/// Returns the number of demands that make the types of a body's locals subtypes of themselves.
fn count_demands(alloc: Global, typed: &Typed) -> Result<usize, AllocError> {
    let mut demands = Vec::new(alloc);
    for local in typed.locals() {
        typed.push_subtype(&mut demands, local, local)?;
    }
    Ok(demands.len())
}

/// Returns whether the points and the locals of `BODY` are right.
fn is_typed(alloc: Global) -> Result<bool> {
    let typed = typed(alloc)?;
    let made = count_accesses(alloc, &typed)?;
    let demands = count_demands(alloc, &typed)?;
    Ok(made == 33 && demands == 12)
}

/// Returns a closure that requires nothing, as closure 0 of its creator.
fn child(alloc: Global, closure: &Unit) -> Result<(KidHeader<'_>, Requirements)>
    ensures { IfOk result (λ kid. (kid.0.number ≡ 0) × (kid.1.pairs ≡ [])) }
{
    let pairs = Sequence::new(alloc);
    match closure.body().header.kind {
        UnitKind::Closure => Ok((KidHeader::of(0, closure), Requirements { pairs })),
        UnitKind::Function => bail!("the child is a function"),
    }
}

/// Returns the piece of a snapshot's body, which creates no closure, or closure 0 alone, which requires nothing.
fn piece_in(alloc: Global, providers: &Providers, snapshot: &Snapshot) -> Result<Piece> {
    let types = snapshot.types();
    let Check::Good(_) = types.get().found() else {
        bail!("a declaration is bad");
    };
    let [(_, unit), closures @ ..] = snapshot.units() else {
        bail!("nothing is held");
    };
    let children = unit.get().body().children(alloc)?;
    let mut kids = Vec::new(alloc);
    match (children.as_slice(), closures) {
        ([], _) => Ok(piece(alloc, providers, types, unit, &kids)?),
        ([0], [(_, closure), ..]) => {
            kids.push(child(alloc, closure.get())?)?;
            Ok(piece(alloc, providers, types, unit, &kids)?)
        }
        _ => bail!("the body creates other closures"),
    }
}

/// Returns the number of errors in the piece of a name's body.
fn errors_at(alloc: Global, providers: &Providers, shelf: &Shelf, at: &[u8]) -> Result<usize> {
    let snapshot = shelf.part(alloc, &name(at)?)?.snapshot;
    let piece = piece_in(alloc, providers, &snapshot)?;
    Ok(piece.errors().get().len())
}

/// Returns whether the report of a snapshot has two bodies and one error.
fn is_report(
    alloc: Global,
    providers: &Providers,
    snapshot: &Snapshot,
) -> Result<bool, AllocError> {
    let outcome = report(alloc, providers, snapshot)?;
    Ok(Sight::of(&outcome) == Sight::Report(2, 1))
}

/// Returns a snapshot that carries its outcome.
fn carrying(
    alloc: Global,
    providers: &Providers,
    snapshot: Snapshot,
) -> Result<Snapshot, AllocError> {
    let outcome = report(alloc, providers, &snapshot)?;
    let outcome = share(alloc, outcome)?;
    Ok(snapshot.carry(outcome))
}

/// Returns a snapshot that carries the pieces of its bodies.
fn carrying_pieces(
    alloc: Global,
    providers: &Providers,
    snapshot: Snapshot,
) -> Result<Snapshot, AllocError> {
    let (_, pieces) = report_pieces(alloc, providers, &snapshot)?;
    Ok(snapshot.carry_pieces(pieces))
}

/// Returns whether a report runs out of memory if its providers always do, and so asks these.
fn wants_memory(alloc: Global, snapshot: &Snapshot) -> Result<bool, AllocError> {
    let providers = refusing!(alloc);
    Ok(report(alloc, &providers, snapshot).is_err())
}

/// Returns whether the report of `f` is right.
fn is_reported(alloc: Global, providers: &Providers, shelf: &Shelf) -> Result<bool> {
    let snapshot = shelf.part(alloc, &name(b"f")?)?.snapshot;
    Ok(is_report(alloc, providers, &snapshot)? && wants_memory(alloc, &snapshot)?)
}

/// Returns whether the report of `f` is right if the snapshot carries it.
fn is_carried(alloc: Global, providers: &Providers, shelf: &Shelf) -> Result<bool> {
    let snapshot = shelf.part(alloc, &name(b"f")?)?.snapshot;
    let snapshot = carrying(alloc, providers, snapshot)?;
    Ok(is_report(alloc, providers, &snapshot)?)
}

/// Returns whether the report of a snapshot is right without any provider: these are always out of memory.
fn asks_none(alloc: Global, snapshot: &Snapshot) -> Result<bool, AllocError> {
    let providers = refusing!(alloc);
    is_report(alloc, &providers, snapshot)
}

/// Returns whether the report of `f` is right if the snapshot carries the pieces of its bodies, for which no provider is asked.
fn is_of_pieces(alloc: Global, providers: &Providers, shelf: &Shelf) -> Result<bool> {
    let snapshot = shelf.part(alloc, &name(b"f")?)?.snapshot;
    let snapshot = carrying_pieces(alloc, providers, snapshot)?;
    Ok(asks_none(alloc, &snapshot)?)
}

/// Returns a shelf with `CREATES` and its closure.
fn creator_over(alloc: Global, closure: &[u8]) -> Result<Shelf> {
    let mut shelf = Shelf::new(alloc, no_declarations(alloc)?, 1)?;
    put(alloc, &mut shelf, b"f", CREATES, 1)?;
    put(alloc, &mut shelf, b"f/0", closure, 2)?;
    Ok(shelf)
}

/// Returns the pieces of `CREATES` and of its closure.
fn pieces_over(alloc: Global, providers: &Providers, closure: &[u8]) -> Result<Pieces> {
    let shelf = creator_over(alloc, closure)?;
    let snapshot = shelf.part(alloc, &name(b"f")?)?.snapshot;
    let (_, pieces) = report_pieces(alloc, providers, &snapshot)?;
    Ok(pieces)
}

/// Returns a snapshot of `CREATES` over the closure that requires nothing. It carries the pieces over both closures, in this order.
fn carrying_both(
    alloc: Global,
    providers: &Providers,
    first: &[u8],
    second: &[u8],
) -> Result<Snapshot> {
    let mut pieces = pieces_over(alloc, providers, first)?;
    pieces.append(&mut pieces_over(alloc, providers, second)?)?;
    let shelf = creator_over(alloc, REQUIRES_NOTHING)?;
    let snapshot = shelf.part(alloc, &name(b"f")?)?.snapshot;
    Ok(snapshot.carry_pieces(pieces))
}

/// Returns whether the report of a snapshot has two bodies without an error, and no provider is asked.
fn is_clean_by_pieces(alloc: Global, snapshot: &Snapshot) -> Result<bool> {
    let refusing = refusing!(alloc);
    let outcome = report(alloc, &refusing, snapshot)?;
    Ok(Sight::of(&outcome) == Sight::Report(2, 0))
}

/// Returns whether the piece that fits is taken, of the two that are carried, in either order.
fn is_of_either(alloc: Global, providers: &Providers) -> Result<bool> {
    let second = carrying_both(alloc, providers, REQUIRES, REQUIRES_NOTHING)?;
    let first = carrying_both(alloc, providers, REQUIRES_NOTHING, REQUIRES)?;
    Ok(is_clean_by_pieces(alloc, &second)? && is_clean_by_pieces(alloc, &first)?)
}

/// Returns a shelf with a function and its closure.
fn shelf(alloc: Global) -> Result<Shelf> {
    let mut shelf = Shelf::new(alloc, no_declarations(alloc)?, 1)?;
    put(alloc, &mut shelf, b"f", INVOKES, 1)?;
    put(alloc, &mut shelf, b"f/0", CLOSURE_WRITES, 2)?;
    Ok(shelf)
}

/// Returns whether the pieces of a function and of its closure are right, and the reports of the function.
fn is_over(alloc: Global, providers: &Providers, shelf: &Shelf) -> Result<bool> {
    let outer = errors_at(alloc, providers, shelf, b"f")?;
    let inner = errors_at(alloc, providers, shelf, b"f/0")?;
    let is_anew = is_reported(alloc, providers, shelf)?;
    let is_carried = is_carried(alloc, providers, shelf)?;
    let is_of_pieces = is_of_pieces(alloc, providers, shelf)?;
    Ok(outer == 0 && inner == 1 && is_anew && is_carried && is_of_pieces)
}

/// Returns a snapshot of a name in a new book, in which the unit of a text is stored there.
fn begun<R: Wait>(rt: &R, alloc: Global, at: Name, text: &[u8]) -> Result<Begun> {
    let unit = Shared::new(shared_unit(alloc, text)?);
    let mut book = Book::new(alloc, Waiting::new(rt), 9, 1)?;
    book.put(rt, alloc, 0, at, unit)?;
    Ok(book.snapshot(alloc, &at)?)
}

/// Returns whether what a snapshot of a book finds is right.
fn is_begun<R: Wait>(rt: &R, alloc: Global, providers: &Providers) -> Result<bool> {
    let begun = begun(rt, alloc, name(b"f")?, WRITES_WHILE_BORROWED)?;
    let found = begun.find(alloc, providers)?;
    Ok(Sight::of(found.outcome.get()) == Sight::Report(1, 1))
}

/// Returns whether everything that is found is right. Fails if a call is refused.
pub(crate) fn is_well<R: AllocGlobal + Wait>(rt: &R, providers: &Providers) -> Result<bool> {
    let alloc = rt.alloc();
    let is_typed = is_typed(alloc)?;
    let is_begun = is_begun(rt, alloc, providers)?;
    let shelf = shelf(alloc)?;
    let is_over = is_over(alloc, providers, &shelf)?;
    let is_of_either = is_of_either(alloc, providers)?;
    Ok(is_typed && is_begun && is_over && is_of_either)
}
