//! Judging visited bodies, from the last to the first.
ghost use Rattle.std.specs.Prelude.{◌≡◌, ◌≤◌, [], ◌∷◌, ◌++◌, if◌then◌else◌, length, map, IfOk, OnOk};
ghost use Rattle.std.specs.List.{AllZip};
ghost use Rattle.bc_prov.specs.Outcome.{units_at};
ghost use Rattle.bc_prov.specs.Pieces.{AreSomeOf};
ghost use Rattle.bc_outcomes.specs.Reported.{IsPieceAt, errors_in};
ghost use Rattle.bc_prov.specs.State.{number_of_child};
ghost use Rattle.bc_outcomes.specs.Visits.{IsSound, state_in, visit_of};

use crate::checked::CheckedSnapshot;
use crate::stack::Stack;
use crate::visit::Visit;
use bc_cons::Requirements;
use bc_mir::Child;
use bc_names::Name;
use bc_prov::{BodyErrors, Piece, Pieces, Providers, Shared};
use std::alloc::{AllocError, Global};

/// The pieces of bodies, one for each, in the order of a visit, and those of them that the snapshot does not keep.
#[derive(Drop)]
pub(crate) struct PieceLists {
    pub(crate) all: Pieces,
    pub(crate) unkept: Pieces,
}

impl PieceLists {
    /// Returns no pieces.
    pub(crate) fn none(alloc: Global) -> PieceLists
        ensures all { result.all.items ≡ [] }
        ensures unkept { AreSomeOf result.all.items result.unkept.items }
    {
        PieceLists {
            all: Vec::new(alloc),
            unkept: Vec::new(alloc),
        }
    }
}

/// Takes from the front what each child of a body requires, the least child's first, and returns it with the child's number.
pub(crate) fn take_kids(
    alloc: Global,
    children: &[Child],
    required: &mut Stack<Requirements>,
) -> Result<Vec<(u8, Requirements)>, AllocError>
    requires { length children.now ≤ length required.old }
    ensures numbers { IfOk result (λ taken. map (λ k. k.0) taken.items ≡ map number_of_child children.now) }
    ensures rest { IfOk result (λ taken. required.old ≡ map (λ k. k.1) taken.items ++ required.new) }
{
    let mut taken = Vec::new(alloc);
    for child in children {
        let requirements = required.pop().unwrap();
        taken.push((child.number, requirements))?;
    }
    Ok(taken)
}

pub(crate) fn copy_requirements(requirements: &Requirements) -> Result<Requirements, AllocError>
    ensures { IfOk result (λ copy. copy ≡ requirements.now) }
{
    Ok(Requirements {
        pairs: requirements.pairs.clone()?,
    })
}

/// Puts one more owner of a body's piece at the front, unless the snapshot keeps the piece.
fn push_unkept(
    unkept: &mut Stack<(Name, Shared<Piece>)>,
    piece: &(Name, Shared<Piece>),
    is_kept: bool,
) -> Result<(), AllocError>
    ensures { OnOk result (unkept.new ≡ (if is_kept then unkept.old else piece.now ∷ unkept.old)) }
{
    if is_kept {
        return Ok(());
    }
    let again = piece.1.clone()?;
    unkept.push((piece.0, again))
}

/// Puts a judged body's piece, and what the body requires, at the front of their lists. Unless the snapshot keeps the piece, it comes to
/// the front of the unkept ones, too.
fn push_judged(
    required: &mut Stack<Requirements>,
    found: &mut Stack<(Name, Shared<Piece>)>,
    unkept: &mut Stack<(Name, Shared<Piece>)>,
    piece: (Name, Shared<Piece>),
    is_kept: bool,
) -> Result<(), AllocError>
    ensures required { OnOk result (required.new ≡ piece.1.verdict.requirements ∷ required.old) }
    ensures found { OnOk result (found.new ≡ piece ∷ found.old) }
    ensures unkept { OnOk result (unkept.new ≡ (if is_kept then unkept.old else piece ∷ unkept.old)) }
{
    let requirements = copy_requirements(piece.1.get().requirements())?;
    required.push(requirements)?;
    push_unkept(unkept, &piece, is_kept)?;
    found.push(piece)?;
    Ok(())
}

impl CheckedSnapshot<'_> {
    /// Judges the bodies that were visited from the root on, and puts their pieces into two empty lists: all, and those that the snapshot
    /// does not keep. A body is visited after its creator, so the last is judged first. What bodies require stays in a list until their
    /// creator takes it, that of the next body in front. Returns `AllocError` also if a provider does.
    fn judge_visits(
        &self,
        alloc: Global,
        providers: &Providers,
        visits: Vec<Visit>,
        found: &mut Stack<(Name, Shared<Piece>)>,
        unkept: &mut Stack<(Name, Shared<Piece>)>,
    ) -> Result<(), AllocError>
        requires sound { IsSound (state_in self.now) self.now.snapshot.now.root }
        requires visits { visits.items ≡ map (visit_of (state_in self.now)) (units_at (state_in self.now) self.now.snapshot.now.root) }
        requires found { found.old ≡ [] }
        requires unkept { unkept.old ≡ [] }
        ensures pieces { OnOk result (AllZip (IsPieceAt (state_in self.now)) (units_at (state_in self.now) self.now.snapshot.now.root) found.new) }
        ensures unkept { OnOk result (AreSomeOf found.new unkept.new) }
    {
        let mut visits = visits;
        let mut required = Stack::new(alloc);
        while let Some(visit) = visits.pop() {
            let kids = take_kids(alloc, visit.children(), &mut required)?;
            let (piece, is_kept) = visit.judged(alloc, providers, self.snapshot, kids)?;
            push_judged(&mut required, found, unkept, piece, is_kept)?;
        }
        Ok(())
    }

    /// Returns the pieces of the bodies that were visited from the root on, in that order. Returns `AllocError` also if a provider does.
    pub(crate) fn pieces_of(
        &self,
        alloc: Global,
        providers: &Providers,
        visits: Vec<Visit>,
    ) -> Result<PieceLists, AllocError>
        requires sound { IsSound (state_in self.now) self.now.snapshot.now.root }
        requires visits { visits.items ≡ map (visit_of (state_in self.now)) (units_at (state_in self.now) self.now.snapshot.now.root) }
        ensures pieces { IfOk result (λ lists. AllZip (IsPieceAt (state_in self.now))
            (units_at (state_in self.now) self.now.snapshot.now.root) lists.all.items) }
        ensures unkept { IfOk result (λ lists. AreSomeOf lists.all.items lists.unkept.items) }
    {
        let mut found = Stack::new(alloc);
        let mut unkept = Stack::new(alloc);
        self.judge_visits(alloc, providers, visits, &mut found, &mut unkept)?;
        Ok(PieceLists {
            all: found.into_vec(),
            unkept: unkept.into_vec(),
        })
    }
}

/// Returns the errors of each body, as one more owner of the list in its piece.
pub(crate) fn errors_of(
    alloc: Global,
    pieces: &[(Name, Shared<Piece>)],
) -> Result<Vec<BodyErrors>, AllocError>
    ensures { IfOk result (λ found. found.items ≡ map errors_in pieces.now) }
{
    let mut found = Vec::with_capacity(alloc, pieces.len())?;
    for piece in pieces {
        let errors = piece.1.get().errors().clone()?;
        found.push(BodyErrors {
            name: piece.0,
            errors,
        })?;
    }
    Ok(found)
}
