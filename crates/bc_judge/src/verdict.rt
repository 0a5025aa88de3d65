//! The verdict on a body.
ghost use Rattle.std.specs.Prelude.{◌↔◌, IfOk};
ghost use Rattle.std.specs.List.{Contains};
ghost use Rattle.bc_flow.specs.Flow.{holds};
ghost use Rattle.bc_syntax.specs.declared.syntax.Outlives.{Outlives};
ghost use Rattle.bc_cons.specs.Requirements.{MayGoUp};
ghost use Rattle.bc_solve.specs.Values.{AreValues};
ghost use Rattle.bc_solve.specs.Chains.{Explains};
ghost use Rattle.bc_loans.specs.Scope.{AreScopes};
ghost use Rattle.bc_judge.specs.Errors.{AreErrors, AreRequirements, IsError, IsRequirement};
ghost use Rattle.bc_judge.specs.declared.error.BorrowError.{BorrowError as AnError};

use crate::error::BorrowError;
use crate::explained::errors_over;
use crate::failures::failures;
use crate::known::known_relations;
use crate::lifetimes::requirements;
use bc_cons::{Facts, Requirements};
use bc_loans::Scopes;
use bc_mir::Typed;
use bc_solve::Values;
use bc_syntax::Sequence;
use std::alloc::{AllocError, Global};

/// The verdict on a body: its errors in order, and the relations between its external regions that its creator has to meet. (RFC 2094,
/// "Borrow checker phase 2" and "Named lifetimes"; rustc-dev-guide, "Propagating closure constraints".)
#[derive(Drop)]
pub struct Verdict {
    pub errors: Sequence<BorrowError>,
    pub requirements: Requirements,
}

/// Returns the verdict on a body: all its errors, and all that it requires of its creator, each once and in order. The errors are the
/// conflicts by point, access and loan, and then the lifetime errors by longer and shorter region, each with the chain that explains it.
/// The requirements are ordered by longer and shorter region. In a function, each failure is a lifetime error. In a closure, a failure
/// between external regions and `'static` alone is a requirement, and any other is an error. The values must be those of the facts, and the
/// scopes those of the values. (RFC 2094, "Borrow checker phase 2" and "Named lifetimes"; rustc-dev-guide, "Propagating closure
/// constraints".)
pub fn judge(
    alloc: Global,
    typed: &Typed,
    facts: &Facts,
    values: &Values,
    scopes: &Scopes,
) -> Result<Verdict, AllocError>
    requires values { AreValues facts.now values.now }
    requires scopes { AreScopes typed.now values.now scopes.now }
    ensures errors { IfOk result (λ verdict. AreErrors typed.now (Explains facts.now) (holds scopes.now) (holds values.now) verdict.errors) }
    // The list has an error exactly if it is a conflict, or a failure that is no requirement.
    ensures error { IfOk result (λ verdict. (e : AnError) → Contains verdict.errors e ↔
        IsError typed.now (Explains facts.now) (holds scopes.now) (holds values.now) e) }
    ensures requirements { IfOk result (λ verdict. AreRequirements typed.now (holds values.now) verdict.requirements) }
    // A pair is required exactly if it is a failure of a closure between its external regions and `'static` alone.
    ensures requirement { IfOk result (λ verdict. (r : Outlives) → Contains verdict.requirements.pairs r ↔ IsRequirement typed.now (holds values.now) r) }
    ensures external { IfOk result (λ verdict. MayGoUp typed.now.externals verdict.requirements) }
{
    let known = known_relations(alloc, typed)?;
    let failures = failures(alloc, typed, values, &known)?;
    let errors = errors_over(alloc, typed, facts, scopes.rows(), &failures)?;
    let requirements = requirements(alloc, typed, &failures)?;
    Ok(Verdict {
        errors: Sequence::from(errors),
        requirements,
    })
}
