//! The walk over the bodies from a name on, each before its closures.
ghost use Rattle.std.specs.Prelude.{◌≡◌, ◌≢◌, ◌<◌, ◌≤◌, ◌↔◌, ◌++◌, [], true, length, map, nat_le, Some, None, IfOk, IfSome, IsTrue, OnOk};
ghost use Rattle.std.specs.List.{AllByRecursion, list_all};
ghost use Rattle.bc_syntax.specs.Children.{children_of};
ghost use Rattle.bc_mir.specs.Typing.{misfit};
ghost use Rattle.bc_mir.specs.declared.typed.Where.{Where};
ghost use Rattle.bc_prov.specs.Outcome.{fault_at, units_at};
ghost use Rattle.bc_prov.specs.Pieces.{IsPiece, IsPieceFor};
ghost use Rattle.bc_prov.specs.State.{AreSuited, at_name, number_of_child};
ghost use Rattle.bc_outcomes.specs.Visits.{AreKids, ChildKid, IsLooked, child_of_kid, mir_in, state_in, visit_of};

use crate::checked::CheckedSnapshot;
use crate::visit::Visit;
use bc_mir::{Child, IllFault, KidHeader, type_unit};
use bc_names::Name;
use bc_prov::{Outcome, Piece, Shared, share};
use bc_syntax::Unit;
use std::alloc::{AllocError, Global};

/// A stored closure of a body: its number and its unit.
#[derive(Clone, Copy)]
struct Kid<'a> {
    number: u8,
    unit: &'a Shared<Unit>,
}

/// The closures of a body, or the first one that is not stored.
enum Kids<'a> {
    Stored(Vec<Kid<'a>>),
    Absent(Name),
}

/// What a body alone gives: its visit with its closures, or its fault.
enum BodyVisit<'a> {
    Fitting(Visit, Vec<Kid<'a>>),
    Faulty(Outcome),
}

/// Returns the closures of these numbers, or the first one that is not stored.
fn find_kids<'a>(
    alloc: Global,
    checked: &CheckedSnapshot<'a>,
    name: Name,
    numbers: &[u8],
) -> Result<Kids<'a>, AllocError>
    requires suited { AreSuited (at_name checked.now.snapshot.now.units) }
    requires few { numbers.now ≢ [] → length name.segments < 7 }
    requires low { list_all (λ number. nat_le number 63) numbers.now ≡ true }
    ensures { IfOk result (AreKids (state_in checked.now) name numbers.now) }
{
    let mut kids = Vec::new(alloc);
    for number in numbers {
        let child = name.child(*number).unwrap();
        match checked.snapshot.unit(&child) {
            Some(unit) => kids.push(Kid {
                number: *number,
                unit,
            })?,
            None => return Ok(Kids::Absent(child)),
        }
    }
    Ok(Kids::Stored(kids))
}

/// Returns the numbers and headers of closures.
fn headers<'a>(alloc: Global, kids: &[Kid<'a>]) -> Result<Vec<KidHeader<'a>>, AllocError>
    requires { AllByRecursion ChildKid kids.now }
    ensures { IfOk result (λ headers. headers.items ≡ map child_of_kid kids.now) }
{
    let mut headers = Vec::new(alloc);
    for kid in kids {
        headers.push(KidHeader::of(kid.number, kid.unit.get()))?;
    }
    Ok(headers)
}

/// Returns whether children have the numbers and headers of these closures, in the same order.
fn have_headers(children: &[Child], kids: &[Kid<'_>]) -> bool
    ensures { IsTrue result ↔ (children.now ≡ map child_of_kid kids.now) }
{
    match children {
        [] => kids.is_empty(),
        [child, more @ ..] => match kids {
            [] => false,
            [kid, rest @ ..] => has_header(child, kid) && have_headers(more, rest),
        },
    }
}

/// Returns whether a child has the number and header of this closure.
fn has_header(child: &Child, kid: &Kid<'_>) -> bool
    ensures { IsTrue result ↔ (child.now ≡ child_of_kid kid.now) }
{
    child.number == kid.number && child.header == kid.unit.get().body().header
}

/// Returns whether a piece was found from children with the headers of these closures.
fn is_with(piece: &Shared<Piece>, kids: &[Kid<'_>]) -> bool
    ensures with { IsTrue result ↔ (piece.now.mir.children ≡ map child_of_kid kids.now) }
    ensures right { IsPiece piece.now }
{
    have_headers(piece.get().typed().get().children(), kids)
}

/// Returns a piece of the body at a name that was found from children with the headers of these closures, if the snapshot has one: the kept
/// piece, otherwise the first such carried one.
fn piece_with<'a>(
    checked: &CheckedSnapshot<'a>,
    name: &Name,
    kids: &[Kid<'_>],
) -> Option<&'a Shared<Piece>>
    ensures over { IfSome result (λ piece. IsPieceFor checked.now.snapshot.now.types (at_name checked.now.snapshot.now.units name.now) piece.now) }
    ensures from { IfSome result (λ piece. piece.now.mir.children ≡ map child_of_kid kids.now) }
    ensures right { IfSome result (λ piece. IsPiece piece.now) }
{
    if let Some(piece) = checked.snapshot.kept_piece(name) {
        if is_with(piece, kids) {
            return Some(piece);
        }
    }
    for entry in checked.snapshot.carried_pieces(name) {
        if is_with(&entry.1, kids) {
            return Some(&entry.1);
        }
    }
    None
}

/// Returns the visit of a body with these closures. If the snapshot has a piece that was found from children with their headers, its typed
/// unit is reused; otherwise the unit is typed. Returns `Ill` with the place of the first misfit if a typing rule fails.
fn visited(
    alloc: Global,
    checked: &CheckedSnapshot<'_>,
    name: Name,
    unit: &Shared<Unit>,
    kids: &[Kid<'_>],
) -> Result<Visit, IllFault>
    requires kids { AllByRecursion ChildKid kids.now }
    requires numbers { map number_of_child (map child_of_kid kids.now) ≡ children_of unit.now }
    requires held { at_name checked.now.snapshot.now.units name ≡ Some unit.now }
    ensures ok { IfOk result (λ visit. visit ≡ record { name = name; unit = unit.now; typed = mir_in checked.now kids.now unit.now }) }
    ensures fits { OnOk result (misfit (mir_in checked.now kids.now unit.now) ≡ None) }
    ensures ill { (place : Where) → result ≡ Err (IllFault.Ill place) → misfit (mir_in checked.now kids.now unit.now) ≡ Some place }
{
    if let Some(piece) = piece_with(checked, &name, kids) {
        return Ok(Visit::of_piece(name, piece)?);
    }
    let headers = headers(alloc, kids)?;
    let typed = type_unit(alloc, checked.types, unit.get(), &headers)?;
    let typed = share(alloc, typed)?;
    let unit = unit.clone()?;
    Ok(Visit::of(name, unit, typed))
}

/// Looks at a body alone: first for a child that is not stored, then for a misfit.
fn look<'a>(
    alloc: Global,
    checked: &CheckedSnapshot<'a>,
    name: Name,
    unit: &Shared<Unit>,
) -> Result<BodyVisit<'a>, AllocError>
    requires short { length name.segments ≤ 7 }
    requires suited { AreSuited (at_name checked.now.snapshot.now.units) }
    requires held { at_name checked.now.snapshot.now.units name ≡ Some unit.now }
    ensures { IfOk result (IsLooked (state_in checked.now) name unit.now) }
{
    let numbers = checked.snapshot.children_of(alloc, &name, unit)?;
    match find_kids(alloc, checked, name, &numbers)? {
        Kids::Absent(child) => Ok(BodyVisit::Faulty(Outcome::Missing(child))),
        Kids::Stored(kids) => match visited(alloc, checked, name, unit, &kids) {
            Ok(visit) => Ok(BodyVisit::Fitting(visit, kids)),
            Err(IllFault::Ill(place)) => Ok(BodyVisit::Faulty(Outcome::Ill(name, place))),
            Err(IllFault::NoMemory) => Err(AllocError),
        },
    }
}

/// Visits the bodies from a name on, and appends each visit. Returns the first fault, if there is one.
pub(crate) fn walk(
    alloc: Global,
    checked: &CheckedSnapshot<'_>,
    name: Name,
    unit: &Shared<Unit>,
    visits: &mut Vec<Visit>,
) -> Result<Option<Outcome>, AllocError>
    requires short { length name.segments ≤ 7 }
    requires suited { AreSuited (at_name checked.now.snapshot.now.units) }
    requires held { at_name checked.now.snapshot.now.units name ≡ Some unit.now }
    ensures fault { IfOk result (λ fault. fault ≡ fault_at (state_in checked.now) name) }
    ensures visits { result ≡ Ok None → visits.new.items ≡ visits.old.items ++ map (visit_of (state_in checked.now)) (units_at (state_in checked.now) name) }
{
    match look(alloc, checked, name, unit)? {
        BodyVisit::Faulty(fault) => Ok(Some(fault)),
        BodyVisit::Fitting(visit, kids) => {
            visits.push(visit)?;
            for kid in &kids {
                let child = name.child(kid.number).unwrap();
                let below = walk(alloc, checked, child, kid.unit, visits)?;
                if below.is_some() {
                    return Ok(below);
                }
            }
            Ok(None)
        }
    }
}
