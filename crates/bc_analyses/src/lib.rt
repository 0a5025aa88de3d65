//! The program's providers: the three analyses of a body. Each `find_*` calls one analysis, and its one clause is what `Providers::new`
//! requires of a closure. So `providers!` has nothing to prove wherever it is used.
#![tactic(auto)]

ghost use Rattle.std.specs.Prelude.{IfOk};
ghost use Rattle.bc_solve.specs.Values.{AreValues};
ghost use Rattle.bc_loans.specs.Scope.{AreScopes};
ghost use Rattle.bc_prov.specs.Facts.{AreLive};

use bc_cons::Facts;
use bc_live::{LiveSets, live};
use bc_loans::{Scopes, in_scope};
use bc_mir::Typed;
pub use bc_prov::Providers;
use bc_solve::{Values, solve_components, solve_plain};
use std::alloc::{AllocError, Global};

/// Returns, for each local of a body, the points on entry to which it is live. This is `bc_live::live` with the contract of a provider.
/// (RFC 2094, "Liveness".)
pub fn find_live(alloc: Global, typed: &Typed) -> Result<LiveSets, AllocError>
    ensures { IfOk result (AreLive typed.now) }
{
    let sets = live(alloc, typed)?;
    Ok(sets)
}

/// Returns the values of regions. This is `bc_solve::solve_components` with the contract of a provider. (RFC 2094, "Solving constraints".)
pub fn find_values(alloc: Global, facts: &Facts) -> Result<Values, AllocError>
    ensures { IfOk result (AreValues facts.now) }
{
    let values = solve_components(alloc, facts)?;
    Ok(values)
}

/// Returns the values of regions. This is `bc_solve::solve_plain` with the contract of a provider. (RFC 2094, "Solving constraints".)
pub fn find_plain_values(alloc: Global, facts: &Facts) -> Result<Values, AllocError>
    ensures { IfOk result (AreValues facts.now) }
{
    let values = solve_plain(alloc, facts)?;
    Ok(values)
}

/// Returns the loans in scope, given the values of regions. This is `bc_loans::in_scope` with the contract of a provider. (RFC 2094,
/// "Borrow checker phase 1: computing loans in scope".)
pub fn find_scopes(alloc: Global, typed: &Typed, values: &Values) -> Result<Scopes, AllocError>
    ensures { IfOk result (AreScopes typed.now values.now) }
{
    let scopes = in_scope(alloc, typed, values)?;
    Ok(scopes)
}

/// Makes providers with the named allocator. They call `find_live`, `find_scopes` and the named solver, or `find_values` if none is named.
/// If out of memory, the calling function returns `AllocError`. This is a macro because no function may return a closure that it stores.
/// (rustc-dev-guide, "Queries": providers.)
#[macro_export]
macro_rules! providers {
    ($alloc:expr) => {
        $crate::providers!($alloc, $crate::find_values)
    };
    ($alloc:expr, $solve:expr) => {
        $crate::Providers::new(
            Box::new($alloc, $crate::find_live)?,
            Box::new($alloc, $solve)?,
            Box::new($alloc, $crate::find_scopes)?,
        )
    };
}
