//! Errors with the chains that explain them.
ghost use Rattle.std.specs.Prelude.{◌≡◌, ◌++◌, ◌∷◌, [], ℕ, List, map, filter, IfOk, OnOk};
ghost use Rattle.bc_syntax.specs.declared.syntax.Region.{Region as ARegion};
ghost use Rattle.bc_flow.specs.Flow.{holds};
ghost use Rattle.bc_solve.specs.Chains.{TellsChains};
ghost use Rattle.bc_judge.specs.Conflicts.{conflicts_of};
ghost use Rattle.bc_judge.specs.Lifetimes.{is_lifetime_error};
ghost use Rattle.bc_judge.specs.Errors.{point_of, conflict_error, lifetime_error};
ghost use Rattle.bc_judge.specs.Explained.{IsInside, HasEnd, AreInside, HaveEnds};

use crate::conflicts::{Conflict, conflicts};
use crate::error::BorrowError;
use crate::lifetimes::lifetimes;
use bc_cons::Facts;
use bc_flow::BitTable;
use bc_mir::{Point, Step, Typed};
use bc_points::region_number;
use bc_solve::Explainer;
use bc_syntax::{Outlives, Sequence};
use std::alloc::{AllocError, Global};

/// Returns the point of a number, as it is printed, or `bb0[0]` if there is no such point.
fn printed(steps: &[Step], point: usize) -> Point
    ensures { result ≡ point_of steps.now point }
{
    match steps.get(point) {
        Some(step) => step.point,
        None => Point { block: 0, index: 0 },
    }
}

/// Appends the error of a conflict.
fn push_conflict_error(
    alloc: Global,
    errors: &mut Vec<BorrowError>,
    explainer: &mut Explainer<'_>,
    typed: &Typed,
    conflict: Conflict,
) -> Result<(), AllocError>
    requires { IsInside typed.now explainer.old conflict }
    ensures kept { explainer.new ≡ explainer.old }
    ensures pushed { OnOk result ((chain : ℕ → ℕ → List ARegion) → TellsChains explainer.old chain →
        errors.new.items ≡ errors.old.items ++ conflict_error typed.now chain conflict ∷ []) }
{
    let region = region_number(typed.universals(), conflict.region);
    let chain = explainer.chain(alloc, region, conflict.point)?;
    errors.push(BorrowError::Conflict {
        at: printed(typed.steps(), conflict.point),
        access: conflict.access,
        loan: printed(typed.steps(), conflict.maker),
        chain: Sequence::from(chain),
    })?;
    Ok(())
}

/// Appends the errors of conflicts, in order.
fn push_conflict_errors(
    alloc: Global,
    errors: &mut Vec<BorrowError>,
    explainer: &mut Explainer<'_>,
    typed: &Typed,
    conflicts: &[Conflict],
) -> Result<(), AllocError>
    requires { AreInside typed.now explainer.old conflicts.now }
    ensures kept { explainer.new ≡ explainer.old }
    ensures pushed { OnOk result ((chain : ℕ → ℕ → List ARegion) → TellsChains explainer.old chain →
        errors.new.items ≡ errors.old.items ++ map (conflict_error typed.now chain) conflicts.now) }
{
    for conflict in conflicts {
        push_conflict_error(alloc, errors, explainer, typed, *conflict)?;
    }
    Ok(())
}

/// Appends the error of a failure.
fn push_lifetime_error(
    alloc: Global,
    errors: &mut Vec<BorrowError>,
    explainer: &mut Explainer<'_>,
    typed: &Typed,
    failure: Outlives,
) -> Result<(), AllocError>
    requires { HasEnd typed.now explainer.old failure }
    ensures kept { explainer.new ≡ explainer.old }
    ensures pushed { OnOk result ((chain : ℕ → ℕ → List ARegion) → TellsChains explainer.old chain →
        errors.new.items ≡ errors.old.items ++ lifetime_error typed.now chain failure ∷ []) }
{
    let longer = failure.longer;
    let shorter = failure.shorter;
    let end = typed.steps().len() + usize::from(shorter);
    let chain = explainer.chain(alloc, usize::from(longer), end)?;
    errors.push(BorrowError::Lifetime {
        longer,
        shorter,
        chain: Sequence::from(chain),
    })?;
    Ok(())
}

/// Appends the errors of failures, in order.
fn push_lifetime_errors(
    alloc: Global,
    errors: &mut Vec<BorrowError>,
    explainer: &mut Explainer<'_>,
    typed: &Typed,
    failures: &[Outlives],
) -> Result<(), AllocError>
    requires { HaveEnds typed.now explainer.old failures.now }
    ensures kept { explainer.new ≡ explainer.old }
    ensures pushed { OnOk result ((chain : ℕ → ℕ → List ARegion) → TellsChains explainer.old chain →
        errors.new.items ≡ errors.old.items ++ map (lifetime_error typed.now chain) failures.now) }
{
    for failure in failures {
        push_lifetime_error(alloc, errors, explainer, typed, *failure)?;
    }
    Ok(())
}

/// Returns the errors of conflicts, and then those of failures, in order. If there are none, it makes no explainer.
fn explained(
    alloc: Global,
    typed: &Typed,
    facts: &Facts,
    conflicts: &[Conflict],
    failures: &[Outlives],
) -> Result<Vec<BorrowError>, AllocError>
    requires conflicts { AreInside typed.now facts.now conflicts.now }
    requires failures { HaveEnds typed.now facts.now failures.now }
    ensures { IfOk result (λ errors. (chain : ℕ → ℕ → List ARegion) → TellsChains facts.now chain →
        errors.items ≡ map (conflict_error typed.now chain) conflicts.now ++ map (lifetime_error typed.now chain) failures.now) }
{
    let mut errors = Vec::new(alloc);
    if conflicts.is_empty() && failures.is_empty() {
        return Ok(errors);
    }
    let mut explainer = Explainer::new(alloc, facts)?;
    push_conflict_errors(alloc, &mut errors, &mut explainer, typed, conflicts)?;
    push_lifetime_errors(alloc, &mut errors, &mut explainer, typed, failures)?;
    Ok(errors)
}

/// Returns the errors of a body, each with the chain that explains it: those of its conflicts with the loans in `scopes`, and then those of
/// the failures that are no requirements.
pub(crate) fn errors_over(
    alloc: Global,
    typed: &Typed,
    facts: &Facts,
    scopes: &BitTable,
    failures: &[Outlives],
) -> Result<Vec<BorrowError>, AllocError>
    requires conflicts { AreInside typed.now facts.now (conflicts_of typed.now (holds scopes.now)) }
    requires failures { HaveEnds typed.now facts.now (filter (is_lifetime_error typed.now) failures.now) }
    ensures { IfOk result (λ errors. (chain : ℕ → ℕ → List ARegion) → TellsChains facts.now chain →
        errors.items ≡ map (conflict_error typed.now chain) (conflicts_of typed.now (holds scopes.now))
        ++ map (lifetime_error typed.now chain) (filter (is_lifetime_error typed.now) failures.now)) }
{
    let conflicts = conflicts(alloc, typed, scopes)?;
    let lifetimes = lifetimes(alloc, typed, failures)?;
    explained(alloc, typed, facts, &conflicts, &lifetimes)
}
