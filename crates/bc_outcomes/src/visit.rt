//! The visit of a body.
ghost use Rattle.std.specs.Prelude.{◌≡◌, ◌↔◌, IfOk, IfSome, IsTrue, Some};
ghost use Rattle.bc_cons.specs.Requirements.{AreOfChildren};
ghost use Rattle.bc_prov.specs.Pieces.{IsFitted, IsFoundFrom, IsPiece, IsPieceFor};
ghost use Rattle.bc_prov.specs.State.{at_name};

use bc_cons::Requirements;
use bc_mir::{Child, Typed};
use bc_names::Name;
use bc_prov::{Piece, Providers, Shared, Snapshot, piece_of, share};
use bc_syntax::Unit;
use std::alloc::{AllocError, Global};
use std::marker::Model;

/// A visited body: its name, its unit, and the typed unit.
pub(crate) struct Visit {
    name: Name,
    unit: Shared<Unit>,
    typed: Shared<Typed>,
}

impl Drop for Visit {
    fn drop(self) {
        let Self {
            name: _,
            unit: _,
            typed: _,
        } = self;
    }
}

impl Model for Visit {
    ghost use Rattle.bc_prov.specs.Pieces.{IsFitted};
    ghost use Rattle.bc_outcomes.specs.Visited.{VisitView};

    ghost Value = { VisitView };

    ghost view = { λ v. record { name = v.name; unit = v.unit; typed = v.typed } };

    ghost invariant = { λ v. IsFitted v.typed.types v.unit v.typed };
}

/// A piece of a body that a snapshot has, and whether the snapshot keeps it. Otherwise it is carried.
#[derive(Clone, Copy)]
struct CandidatePiece<'a> {
    piece: &'a Shared<Piece>,
    is_kept: bool,
}

/// Returns whether two children have the same number and the same header.
fn same_child(one: &Child, other: &Child) -> bool
    ensures { IsTrue result ↔ (one.now ≡ other.now) }
{
    one.number == other.number && one.header == other.header
}

/// Returns whether two lists have children with the same numbers and headers, in the same order.
fn same_children(one: &[Child], other: &[Child]) -> bool
    ensures { IsTrue result ↔ (one.now ≡ other.now) }
{
    match one {
        [] => other.is_empty(),
        [first, more @ ..] => match other {
            [] => false,
            [second, rest @ ..] => same_child(first, second) && same_children(more, rest),
        },
    }
}

/// Returns whether a piece was found from these children, with these requirements.
fn is_from(piece: &Shared<Piece>, children: &[Child], kids: &[(u8, Requirements)]) -> bool
    ensures from { IsTrue result ↔ ((piece.now.mir.children ≡ children.now) × (piece.now.kids ≡ kids.now)) }
    ensures right { IsPiece piece.now }
{
    let piece = piece.get();
    piece.is_from(kids) && same_children(piece.typed().get().children(), children)
}

/// Returns a piece of the body at a name that was found from these children, with these requirements, if the snapshot has one: the kept
/// piece, otherwise the first such carried one.
fn piece_from<'a>(
    snapshot: &'a Snapshot,
    name: &Name,
    children: &[Child],
    kids: &[(u8, Requirements)],
) -> Option<CandidatePiece<'a>>
    ensures over { IfSome result (λ had. IsPieceFor snapshot.now.types (at_name snapshot.now.units name.now) had.piece.now) }
    ensures from { IfSome result (λ had. (had.piece.now.mir.children ≡ children.now) × (had.piece.now.kids ≡ kids.now)) }
    ensures right { IfSome result (λ had. IsPiece had.piece.now) }
{
    if let Some(piece) = snapshot.kept_piece(name) {
        if is_from(piece, children, kids) {
            return Some(CandidatePiece {
                piece,
                is_kept: true,
            });
        }
    }
    for entry in snapshot.carried_pieces(name) {
        if is_from(&entry.1, children, kids) {
            return Some(CandidatePiece {
                piece: &entry.1,
                is_kept: false,
            });
        }
    }
    None
}

impl Visit {
    /// Makes the visit of a typed body.
    pub(crate) fn of(name: Name, unit: Shared<Unit>, typed: Shared<Typed>) -> Visit
        requires { IsFitted typed.types unit typed }
        ensures { result ≡ record { name = name; unit = unit; typed = typed } }
    {
        Visit { name, unit, typed }
    }

    /// Makes the visit of a body from a piece, which has its unit typed.
    pub(crate) fn of_piece(name: Name, piece: &Shared<Piece>) -> Result<Visit, AllocError>
        ensures { IfOk result (λ visit. visit ≡ record { name = name; unit = piece.now.unit; typed = piece.now.mir }) }
    {
        let unit = piece.get().unit().clone()?;
        let typed = piece.get().typed().clone()?;
        Ok(Visit { name, unit, typed })
    }

    /// Returns the children with their headers, ascending by number.
    pub(crate) fn children(&self) -> &[Child]
        ensures { result.now ≡ self.now.typed.children }
    {
        self.typed.get().children()
    }

    /// Returns the body's piece with its name, given what each child requires, and whether the snapshot keeps it. A piece of the snapshot
    /// is reused if all that it was found from is there; otherwise a new one is made. Returns `AllocError` also if a provider does.
    pub(crate) fn judged(
        self,
        alloc: Global,
        providers: &Providers,
        snapshot: &Snapshot,
        kids: Vec<(u8, Requirements)>,
    ) -> Result<((Name, Shared<Piece>), bool), AllocError>
        requires types { snapshot.now.types ≡ self.typed.types }
        requires held { at_name snapshot.now.units self.name ≡ Some self.unit }
        requires kids { AreOfChildren self.typed.children kids.items }
        ensures named { IfOk result (λ found. found.0.0 ≡ self.name) }
        ensures found { IfOk result (λ found. IsFoundFrom snapshot.now.types self.unit self.typed kids.items found.0.1) }
    {
        let Visit { name, unit, typed } = self;
        if let Some(had) = piece_from(snapshot, &name, typed.get().children(), &kids) {
            return Ok(((name, had.piece.clone()?), had.is_kept));
        }
        let types = snapshot.types().clone()?;
        let piece = piece_of(alloc, providers, types, unit, typed, kids)?;
        Ok(((name, share(alloc, piece)?), false))
    }
}
