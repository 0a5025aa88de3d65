//! The outcome of a snapshot.
ghost use Rattle.std.specs.Prelude.{◌≡◌, [], None, Some, IfOk, IfSome};
ghost use Rattle.bc_prov.specs.Outcome.{IsOutcomeAfter, IsOutcomeIn, IsOutcomeOf, fault_at};
ghost use Rattle.bc_outcomes.specs.Reported.{AreAmongPiecesOf, ArePiecesOf};
ghost use Rattle.bc_prov.specs.Pieces.{ArePieces, AreSomeOf, rows_of};
ghost use Rattle.bc_prov.specs.State.{AreSuited, at_name, state_of};
ghost use Rattle.bc_outcomes.specs.Visits.{state_in};

use crate::checked::CheckedSnapshot;
use crate::verdicts::{PieceLists, errors_of};
use crate::walk::walk;
use bc_prov::{Check, Outcome, PieceSet, Pieces, Providers, Shared, Snapshot, share};
use bc_syntax::{Sequence, Unit};
use std::alloc::{AllocError, Global};

/// Returns the outcome of the snapshot's root, which holds this unit, over good declarations. With a report come the pieces of its bodies.
fn outcome_held(
    alloc: Global,
    providers: &Providers,
    checked: &CheckedSnapshot<'_>,
    unit: &Shared<Unit>,
) -> Result<(Outcome, PieceLists), AllocError>
    requires suited { AreSuited (at_name checked.now.snapshot.now.units) }
    requires held { at_name checked.now.snapshot.now.units checked.now.snapshot.now.root ≡ Some unit.now }
    ensures outcome { IfOk result (λ found. IsOutcomeAfter (state_in checked.now) checked.now.snapshot.now.root
        (fault_at (state_in checked.now) checked.now.snapshot.now.root) found.0) }
    ensures pieces { IfOk result (λ found. ArePiecesOf (state_in checked.now) checked.now.snapshot.now.root None found.0 found.1.all.items) }
    ensures unkept { IfOk result (λ found. AreSomeOf found.1.all.items found.1.unkept.items) }
{
    let mut visits = Vec::new(alloc);
    let root = checked.snapshot.root();
    // Nothing uses the bytes. The contract of this call says that a name has at most seven segments, as `walk` requires.
    let _bytes = root.root();
    match walk(alloc, checked, *root, unit, &mut visits)? {
        Some(fault) => Ok((fault, PieceLists::none(alloc))),
        None => {
            let pieces = checked.pieces_of(alloc, providers, visits)?;
            let found = errors_of(alloc, &pieces.all)?;
            Ok((Outcome::Report(Sequence::from(found)), pieces))
        }
    }
}

/// Returns the outcome of the snapshot's root over good declarations, with its pieces.
fn outcome_among(
    alloc: Global,
    providers: &Providers,
    checked: &CheckedSnapshot<'_>,
) -> Result<(Outcome, PieceLists), AllocError>
    ensures outcome { IfOk result (λ found. IsOutcomeOf (state_in checked.now) checked.now.snapshot.now.root
        (at_name checked.now.snapshot.now.units checked.now.snapshot.now.root) found.0) }
    ensures pieces { IfOk result (λ found. ArePiecesOf (state_in checked.now) checked.now.snapshot.now.root None found.0 found.1.all.items) }
    ensures unkept { IfOk result (λ found. AreSomeOf found.1.all.items found.1.unkept.items) }
{
    match checked.snapshot.unit(checked.snapshot.root()) {
        Some(unit) => outcome_held(alloc, providers, checked, unit),
        None => Ok((Outcome::NoBody, PieceLists::none(alloc))),
    }
}

/// Copies an outcome.
fn copy(outcome: &Outcome) -> Result<Outcome, AllocError>
    ensures { IfOk result (λ copy. copy ≡ outcome.now) }
{
    outcome.clone()
}

/// Finds the outcome of the snapshot's root, even if the snapshot carries one, with its pieces.
fn worked_out(
    alloc: Global,
    providers: &Providers,
    snapshot: &Snapshot,
) -> Result<(Outcome, PieceLists), AllocError>
    ensures outcome { IfOk result (λ found. IsOutcomeIn (state_of snapshot.now.types snapshot.now.units) snapshot.now.root found.0) }
    ensures pieces { IfOk result (λ found. ArePiecesOf (state_of snapshot.now.types snapshot.now.units) snapshot.now.root None found.0 found.1.all.items) }
    ensures unkept { IfOk result (λ found. AreSomeOf found.1.all.items found.1.unkept.items) }
{
    match snapshot.types().get().found() {
        Check::Good(types) => outcome_among(alloc, providers, &CheckedSnapshot { types, snapshot }),
        Check::Bad(index) => Ok((Outcome::BadTypes(*index), PieceLists::none(alloc))),
    }
}

/// Returns the outcome of the root of a snapshot, as `report` does, with pieces. A report that is not carried comes with the pieces of its
/// bodies, one for each, in the order of the visit, and any other outcome with none. A piece of the snapshot is reused if all that it was
/// found from is there; otherwise a new one is made, with the providers. Returns `AllocError` also if a provider does. (rustc-dev-guide,
/// "Queries" and "Incremental compilation".)
///
/// Besides `report` only tests of this repository call it: an ask calls `find_outcome`, which shares the outcome and leaves out pieces that
/// are kept.
pub fn report_pieces(
    alloc: Global,
    providers: &Providers,
    snapshot: &Snapshot,
) -> Result<(Outcome, Pieces), AllocError>
    ensures outcome { IfOk result (λ found. IsOutcomeIn (state_of snapshot.now.types snapshot.now.units) snapshot.now.root found.0) }
    ensures pieces { IfOk result (λ found. ArePiecesOf (state_of snapshot.now.types snapshot.now.units)
        snapshot.now.root snapshot.now.carried found.0 found.1.items) }
{
    match snapshot.carried() {
        Some(outcome) => Ok((copy(outcome.get())?, Vec::new(alloc))),
        None => {
            let (outcome, found) = worked_out(alloc, providers, snapshot)?;
            Ok((outcome, found.all))
        }
    }
}

/// Returns the outcome of the root of a snapshot. If the snapshot carries one, this is a copy of it, and no provider is called.
///
/// Otherwise the outcome is `BadTypes` with the first bad declaration if one is bad, and `NoBody` if none is and the root holds no body.
/// Otherwise bodies are visited from the root on, each before its closures, and these ascending. A body has the fault `Missing` with the
/// least child that is not stored, if there is one, or `Ill` with the first misfit. The first fault is the outcome, and no provider is
/// called. Without a fault the outcome is `Report`, with the errors of every visited body. If the snapshot has a piece of a body, and all
/// that it was found from is there, these are the piece's errors, and no provider is called for the body. Returns `AllocError` also if a
/// provider does. (The errors are RFC 2094's, "Borrow checker phase 1", "Borrow checker phase 2" and "Named lifetimes".)
///
/// Only tests of this repository call it: an ask calls `find_outcome`.
pub fn report(
    alloc: Global,
    providers: &Providers,
    snapshot: &Snapshot,
) -> Result<Outcome, AllocError>
    ensures { IfOk result (IsOutcomeIn (state_of snapshot.now.types snapshot.now.units) snapshot.now.root) }
{
    let found = report_pieces(alloc, providers, snapshot)?;
    Ok(found.0)
}

/// The outcome of a snapshot's name, which may have other owners. With a report come the pieces of its bodies that the snapshot does not
/// keep yet, each with its body's name.
#[derive(Drop)]
pub struct AskResult {
    pub outcome: Shared<Outcome>,
    pub pieces: Option<PieceSet>,
}

impl AskResult {
    /// Wraps an outcome that comes without pieces.
    pub fn without_pieces(outcome: Shared<Outcome>) -> AskResult
        ensures outcome { result.outcome ≡ outcome }
        ensures pieces { result.pieces ≡ None }
    {
        AskResult {
            outcome,
            pieces: None,
        }
    }
}

/// Returns the outcome of the root of a snapshot. If the snapshot carries one, this is one more owner of it, and no provider is called.
/// Otherwise it is what `report` finds, with the pieces of its bodies that the snapshot does not keep. Returns `AllocError` also if a
/// provider does, or if the carried outcome has too many owners.
pub fn find_outcome(
    alloc: Global,
    providers: &Providers,
    snapshot: &Snapshot,
) -> Result<AskResult, AllocError>
    ensures outcome { IfOk result (λ found. IsOutcomeIn (state_of snapshot.now.types snapshot.now.units) snapshot.now.root found.outcome) }
    ensures pieces { IfOk result (λ found. AreAmongPiecesOf (state_of snapshot.now.types snapshot.now.units)
        snapshot.now.root snapshot.now.carried found.outcome (rows_of found.pieces)) }
    ensures over { IfOk result (λ found. IfSome found.pieces (λ set. set.types ≡ snapshot.now.types)) }
    ensures fit { IfOk result (λ found. ArePieces snapshot.now.types snapshot.now.units (rows_of found.pieces)) }
    ensures carried { IfSome snapshot.now.carried (λ outcome. IfOk result (λ found. (found.outcome ≡ outcome) × (found.pieces ≡ None))) }
{
    match snapshot.carried() {
        Some(outcome) => Ok(AskResult::without_pieces(outcome.clone()?)),
        None => found_anew(alloc, providers, snapshot),
    }
}

/// Returns the outcome of the root of a snapshot that carries none, with the pieces that the snapshot does not keep.
fn found_anew(
    alloc: Global,
    providers: &Providers,
    snapshot: &Snapshot,
) -> Result<AskResult, AllocError>
    requires { snapshot.now.carried ≡ None }
    ensures outcome { IfOk result (λ found. IsOutcomeIn (state_of snapshot.now.types snapshot.now.units) snapshot.now.root found.outcome) }
    ensures pieces { IfOk result (λ found. AreAmongPiecesOf (state_of snapshot.now.types snapshot.now.units)
        snapshot.now.root None found.outcome (rows_of found.pieces)) }
    ensures over { IfOk result (λ found. IfSome found.pieces (λ set. set.types ≡ snapshot.now.types)) }
    ensures fit { IfOk result (λ found. ArePieces snapshot.now.types snapshot.now.units (rows_of found.pieces)) }
{
    let (outcome, pieces) = worked_out(alloc, providers, snapshot)?;
    let outcome = share(alloc, outcome)?;
    let types = snapshot.types().clone()?;
    Ok(AskResult {
        outcome,
        pieces: Some(PieceSet::of(types, pieces.unkept)),
    })
}
