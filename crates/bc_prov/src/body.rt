//! The analysis of one body.
ghost use Rattle.std.specs.Prelude.{IfOk};
ghost use Rattle.bc_cons.specs.Requirements.{AreOfChildren, MayGoUp};
ghost use Rattle.bc_prov.specs.Verdicts.{IsVerdictOf};

use crate::providers::Providers;
use bc_cons::{Requirements, constraints};
use bc_judge::{Verdict, judge};
use bc_mir::Typed;
use std::alloc::{AllocError, Global};

/// Returns the verdict on a typed body, given what each child requires, ascending. It finds liveness, outlives constraints, region values,
/// loans in scope, then what conflicts or fails. Returns `AllocError` also if a provider does. (RFC 2094 as a whole.)
pub(crate) fn verdict_on(
    alloc: Global,
    providers: &Providers,
    typed: &Typed,
    kids: &[(u8, Requirements)],
) -> Result<Verdict, AllocError>
    requires { AreOfChildren typed.now.children kids.now }
    ensures verdict { IfOk result (IsVerdictOf typed.now kids.now) }
    ensures external { IfOk result (λ verdict. MayGoUp typed.now.externals verdict.requirements) }
{
    let live = providers.live(alloc, typed)?;
    let facts = constraints(alloc, typed, &live, kids)?;
    let values = providers.solve(alloc, &facts)?;
    let scopes = providers.in_scope(alloc, typed, &values)?;
    let verdict = judge(alloc, typed, &facts, &values, &scopes)?;
    Ok(verdict)
}
