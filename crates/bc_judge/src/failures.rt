//! Universal regions that must outlive others and are not known to (RFC 2094, "Named lifetimes": errors of universal regions).
ghost use Rattle.std.specs.Prelude.{◌≡◌, ◌++◌, IfOk, OnOk};
ghost use Rattle.bc_flow.specs.Flow.{holds};
ghost use Rattle.bc_judge.specs.Lifetimes.{end_of, failure_of, failures_from, failures_of};

use crate::known::KnownRelations;
use bc_mir::Typed;
use bc_solve::Values;
use bc_syntax::Outlives;
use std::alloc::{AllocError, Global};

/// Returns whether the value of a universal region has the end of another.
fn has_end(typed: &Typed, values: &Values, longer: u8, shorter: u8) -> bool
    ensures { result ≡ holds values.now longer (end_of typed.now shorter) }
{
    values.contains(
        usize::from(longer),
        typed.steps().len() + usize::from(shorter),
    )
}

/// Appends the failure of two regions, if there is one.
fn push_failure(
    failures: &mut Vec<Outlives>,
    typed: &Typed,
    values: &Values,
    known: &KnownRelations,
    longer: u8,
    shorter: u8,
) -> Result<(), AllocError>
    ensures { OnOk result (failures.new.items
        ≡ failures.old.items ++ failure_of typed.now (holds values.now) (holds known.now) longer shorter) }
{
    if has_end(typed, values, longer, shorter)
        && !known.contains(usize::from(longer), usize::from(shorter))
    {
        failures.push(Outlives { longer, shorter })?;
    }
    Ok(())
}

/// Appends the failures of a region.
fn push_failures(
    failures: &mut Vec<Outlives>,
    typed: &Typed,
    values: &Values,
    known: &KnownRelations,
    longer: u8,
) -> Result<(), AllocError>
    ensures { OnOk result (failures.new.items
        ≡ failures.old.items ++ failures_from typed.now (holds values.now) (holds known.now) longer) }
{
    for shorter in 0..typed.universals() {
        push_failure(failures, typed, values, known, longer, shorter)?;
    }
    Ok(())
}

/// Returns the failures of a body in order, given the values of regions and the known relations.
pub(crate) fn failures(
    alloc: Global,
    typed: &Typed,
    values: &Values,
    known: &KnownRelations,
) -> Result<Vec<Outlives>, AllocError>
    ensures { IfOk result (λ failures. failures.items ≡ failures_of typed.now (holds values.now) (holds known.now)) }
{
    let mut failures = Vec::new(alloc);
    for longer in 0..typed.universals() {
        push_failures(&mut failures, typed, values, known, longer)?;
    }
    Ok(failures)
}
