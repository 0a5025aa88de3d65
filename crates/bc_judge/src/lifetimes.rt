//! Failures as lifetime errors and as requirements (RFC 2094, "Named lifetimes"; rustc-dev-guide, "Propagating closure
//! constraints").
ghost use Rattle.std.specs.Prelude.{◌≡◌, ◌==◌, filter, IfOk};
ghost use Rattle.std.specs.List.{list_any};
ghost use Rattle.bc_cons.specs.Requirements.{is_static_or as static_or, may_go_up as goes_up};
ghost use Rattle.bc_judge.specs.Lifetimes.{is_required_in as required_in, is_required as required, is_lifetime_error};

use bc_cons::Requirements;
use bc_mir::Typed;
use bc_syntax::{Outlives, Sequence, UnitKind};
use std::alloc::{AllocError, Global};

fn is_among(externals: &[usize], number: usize) -> bool
    ensures { result ≡ list_any (λ external. external == number) externals.now }
{
    externals.iter().any(|external| *external == number)
}

/// Returns whether a region is `'static` (0) or one of these.
fn is_static_or(externals: &[usize], number: u8) -> bool
    ensures { result ≡ static_or externals.now number }
{
    number == 0 || is_among(externals, usize::from(number))
}

/// Returns whether a pair is between these regions and `'static` alone.
fn may_go_up(externals: &[usize], pair: Outlives) -> bool
    ensures { result ≡ goes_up externals.now pair }
{
    is_static_or(externals, pair.longer) && is_static_or(externals, pair.shorter)
}

/// Returns whether a failure is a requirement of a unit of this kind with these external regions.
fn is_required_in(kind: UnitKind, externals: &[usize], failure: Outlives) -> bool
    ensures { result ≡ required_in kind externals.now failure }
{
    match kind {
        UnitKind::Function => false,
        UnitKind::Closure => may_go_up(externals, failure),
    }
}

/// Returns whether a failure is a requirement of a body.
fn is_required(typed: &Typed, failure: Outlives) -> bool
    ensures { result ≡ required typed.now failure }
{
    is_required_in(typed.kind(), typed.externals(), failure)
}

/// Returns the failures that are errors, in order.
pub(crate) fn lifetimes(
    alloc: Global,
    typed: &Typed,
    failures: &[Outlives],
) -> Result<Vec<Outlives>, AllocError>
    ensures { IfOk result (λ lifetimes. lifetimes.items ≡ filter (is_lifetime_error typed.now) failures.now) }
{
    let mut lifetimes = Vec::new(alloc);
    for failure in failures {
        if !is_required(typed, *failure) {
            lifetimes.push(*failure)?;
        }
    }
    Ok(lifetimes)
}

/// Returns the failures that are requirements, in order.
pub(crate) fn requirements(
    alloc: Global,
    typed: &Typed,
    failures: &[Outlives],
) -> Result<Requirements, AllocError>
    ensures { IfOk result (λ requirements. requirements.pairs ≡ filter (required typed.now) failures.now) }
{
    let mut pairs = Sequence::new(alloc);
    for failure in failures {
        if is_required(typed, *failure) {
            pairs.push(*failure)?;
        }
    }
    Ok(Requirements { pairs })
}
