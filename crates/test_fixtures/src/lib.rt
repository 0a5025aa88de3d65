//! What the tests of the database share, and some programs with them: bodies, what texts spell, summaries of outcomes, providers that are
//! always out of memory, calls that are repeated if they are refused, and the first steps of an analysis. The crate is below the database,
//! so the two are proved side by side.
#![tactic(auto)]

ghost use Rattle.std.specs.Prelude.{IfOk};
ghost use Rattle.bc_solve.specs.Values.{AreValues};
ghost use Rattle.bc_loans.specs.Scope.{AreScopes};
ghost use Rattle.bc_prov.specs.Facts.{AreLive};

mod alone;
mod bodies;
mod outcomes;
mod refused;
mod texts;

pub use alone::{good_types, typed_alone};
use bc_cons::Facts;
use bc_live::LiveSets;
use bc_loans::Scopes;
use bc_mir::Typed;
pub use bc_prov::Providers;
use bc_solve::Values;
pub use bodies::{
    CLOSURE, CLOSURE_WRITES, INVOKES, MARKED_INVARIANT, WRITES_LAST, WRITES_WHILE_BORROWED,
};
pub use outcomes::Sight;
pub use refused::again;
use std::alloc::{AllocError, Global};
pub use texts::{name, shared_types, shared_unit};

/// Returns `AllocError`, always: a solver that is out of memory.
pub fn want_memory(_alloc: Global, _facts: &Facts) -> Result<Values, AllocError>
    ensures { IfOk result (AreValues _facts.now) }
{
    Err(AllocError)
}

/// Returns `AllocError`, always: a liveness analysis that is out of memory.
pub fn no_live(_alloc: Global, _typed: &Typed) -> Result<LiveSets, AllocError>
    ensures { IfOk result (AreLive _typed.now) }
{
    Err(AllocError)
}

/// Returns `AllocError`, always: an analysis of loans in scope that is out of memory.
pub fn no_scopes(_alloc: Global, _typed: &Typed, _values: &Values) -> Result<Scopes, AllocError>
    ensures { IfOk result (AreScopes _typed.now _values.now) }
{
    Err(AllocError)
}

/// Makes providers that always return `AllocError`, with the given allocator. If there is no room for them, the function that uses it
/// returns `AllocError`. It is a macro, as `providers!` of `bc_analyses` is.
#[macro_export]
macro_rules! refusing {
    ($alloc:expr) => {
        $crate::Providers::new(
            Box::new($alloc, $crate::no_live)?,
            Box::new($alloc, $crate::want_memory)?,
            Box::new($alloc, $crate::no_scopes)?,
        )
    };
}
