//! The conflicts of a body (RFC 2094, "Borrow checker phase 2").
ghost use Rattle.std.specs.Prelude.{◌≡◌, ◌++◌, ℕ, Bool, true, IfOk, OnOk};
ghost use Rattle.std.specs.List.{flat_map, enumerate_from};
ghost use Rattle.bc_flow.specs.BitSet.{has};
ghost use Rattle.bc_flow.specs.Flow.{holds};
ghost use Rattle.bc_loans.specs.Loans.{loans_of};
ghost use Rattle.bc_judge.specs.Candidates.{HaveCandidates, AreCandidates};
ghost use Rattle.bc_judge.specs.Conflicts.{conflict_with, conflicts_of_access, conflicts_at, conflicts_of_step, conflicts_of};

use crate::candidates::{candidate_rows, next_in_both, row_number};
use crate::relevance::is_conflict;
use bc_flow::{BitRow, BitTable};
use bc_loans::loans;
use bc_mir::{Step, Typed};
use bc_points::{Access, Loan, push_accesses};
use bc_syntax::Region;
use std::alloc::{AllocError, Global};

/// An access that a loan in scope makes illegal: the numbers of its point, of the access there, and of the point that makes the loan, with
/// the loan's region.
#[derive(Clone, Copy)]
pub(crate) struct Conflict {
    pub(crate) point: usize,
    pub(crate) access: usize,
    pub(crate) maker: usize,
    pub(crate) region: Region,
}

/// A body with its loans, and for each kind of access and each local, by `row_number`, a row of the loans that such an access may conflict
/// with.
#[derive(Drop)]
struct BodyLoans<'a> {
    typed: &'a Typed,
    loans: &'a [(usize, Loan<'a>)],
    rows: BitTable,
    ghost all: { loans.now ≡ loans_of typed.now },
    ghost candidates: { HaveCandidates loans.now rows },
}

/// An access, with the number of its point and its number among the accesses of the point.
#[derive(Clone, Copy)]
struct PointAccess<'a> {
    point: usize,
    number: usize,
    access: &'a Access<'a>,
}

/// Appends the conflict of an access with a loan in scope, if they conflict.
fn push_conflict(
    conflicts: &mut Vec<Conflict>,
    typed: &Typed,
    here: PointAccess<'_>,
    maker: usize,
    loan: &Loan<'_>,
) -> Result<(), AllocError>
    ensures { OnOk result ((scope : ℕ → Bool) (n : ℕ) → scope n ≡ true →
        conflicts.new.items
        ≡ conflicts.old.items ++ conflict_with typed.now scope here.entry.point (here.entry.number, here.entry.access.now) (n, (maker, loan.now))) }
{
    if is_conflict(typed, here.access, loan) {
        conflicts.push(Conflict {
            point: here.point,
            access: here.number,
            maker,
            region: loan.region,
        })?;
    }
    Ok(())
}

impl<'a> BodyLoans<'a> {
    /// Returns a body with its loans.
    fn of(
        alloc: Global,
        typed: &'a Typed,
        loans: &'a [(usize, Loan<'a>)],
    ) -> Result<BodyLoans<'a>, AllocError>
        requires { loans.now ≡ loans_of typed.now }
        ensures { IfOk result (λ body. body.typed.now ≡ typed.now) }
    {
        let rows = candidate_rows(alloc, loans)?;
        Ok(BodyLoans { typed, loans, rows })
    }

    /// Appends the conflicts of an access with those of its candidates that are in `scope`: the loans in scope on entry to its point.
    fn push_candidates(
        &self,
        conflicts: &mut Vec<Conflict>,
        candidates: &BitRow<'_>,
        scope: &BitRow<'_>,
        here: PointAccess<'_>,
    ) -> Result<(), AllocError>
        requires candidates { AreCandidates self.now.typed.now here.access.now self.now.loans.now candidates.now }
        ensures { OnOk result (conflicts.new.items
            ≡ conflicts.old.items ++ conflicts_of_access self.now.typed.now (has scope.now) here.entry.point (here.entry.number, here.entry.access.now)) }
    {
        let mut from = 0;
        while let Some(member) = next_in_both(candidates, scope, from) {
            let Some((maker, loan)) = self.loans.get(member) else {
                return Ok(());
            };
            push_conflict(conflicts, self.typed, here, *maker, loan)?;
            from = member + 1;
        }
        Ok(())
    }

    /// Appends the conflicts of an access with the loans in `scope`: those in scope on entry to its point.
    fn push_access(
        &self,
        conflicts: &mut Vec<Conflict>,
        scope: &BitRow<'_>,
        here: PointAccess<'_>,
    ) -> Result<(), AllocError>
        ensures { OnOk result (conflicts.new.items
            ≡ conflicts.old.items ++ conflicts_of_access self.now.typed.now (has scope.now) here.entry.point (here.entry.number, here.entry.access.now)) }
    {
        let access = here.access;
        let reached = row_number(access.kind, access.place.local());
        match self.rows.get(reached) {
            Some(candidates) => self.push_candidates(conflicts, &candidates, scope, here),
            None => Ok(()),
        }
    }

    /// Appends the conflicts of the accesses of a point with the loans in `scope`.
    fn push_conflicts(
        &self,
        conflicts: &mut Vec<Conflict>,
        scope: &BitRow<'_>,
        point: usize,
        accesses: &[Access<'_>],
    ) -> Result<(), AllocError>
        ensures { OnOk result (conflicts.new.items
            ≡ conflicts.old.items ++ flat_map (conflicts_of_access self.now.typed.now (has scope.now) point) (enumerate_from 0 accesses.now)) }
    {
        for (number, access) in accesses.iter().enumerate() {
            let here = PointAccess {
                point,
                number,
                access,
            };
            self.push_access(conflicts, scope, here)?;
        }
        Ok(())
    }

    /// Appends the conflicts of a numbered point with the loans in `scope`: those in scope on entry to it. `accesses` is a buffer, which is
    /// cleared before use.
    fn push_step<'s>(
        &self,
        alloc: Global,
        conflicts: &mut Vec<Conflict>,
        accesses: &mut Vec<Access<'s>>,
        scope: &BitRow<'_>,
        here: (usize, &'s Step),
    ) -> Result<(), AllocError>
        ensures { OnOk result (conflicts.new.items ≡ conflicts.old.items ++ conflicts_at self.now.typed.now (has scope.now) (here.entry.0, here.entry.1.now)) }
    {
        if scope.next_member(0).is_none() {
            return Ok(());
        }
        accesses.clear();
        push_accesses(alloc, accesses, self.typed, &here.1.instruction)?;
        self.push_conflicts(conflicts, scope, here.0, accesses)
    }

    /// Appends the conflicts of a numbered point. `scopes` has for each point the loans in scope on entry to it.
    fn push_point<'s>(
        &self,
        alloc: Global,
        conflicts: &mut Vec<Conflict>,
        accesses: &mut Vec<Access<'s>>,
        scopes: &BitTable,
        here: (usize, &'s Step),
    ) -> Result<(), AllocError>
        ensures { OnOk result (conflicts.new.items ≡
            conflicts.old.items ++ conflicts_of_step self.now.typed.now (holds scopes.now) (here.entry.0, here.entry.1.now)) }
    {
        match scopes.get(here.0) {
            Some(scope) => self.push_step(alloc, conflicts, accesses, &scope, here),
            None => Ok(()),
        }
    }
}

/// Returns the conflicts of a body, in order. `scopes` has for each point the loans in scope on entry to it.
pub(crate) fn conflicts(
    alloc: Global,
    typed: &Typed,
    scopes: &BitTable,
) -> Result<Vec<Conflict>, AllocError>
    ensures { IfOk result (λ conflicts. conflicts.items ≡ conflicts_of typed.now (holds scopes.now)) }
{
    let loans = loans(alloc, typed)?;
    let body = BodyLoans::of(alloc, typed, &loans)?;
    let mut conflicts = Vec::new(alloc);
    let mut accesses = Vec::new(alloc);
    for (point, step) in typed.steps().iter().enumerate() {
        body.push_point(alloc, &mut conflicts, &mut accesses, scopes, (point, step))?;
    }
    Ok(conflicts)
}
