//! The three analyses of a body, as stored closures.
ghost use Rattle.std.specs.Prelude.{IfOk};
ghost use Rattle.bc_solve.specs.Values.{AreValues};
ghost use Rattle.bc_loans.specs.Scope.{AreScopes};
ghost use Rattle.bc_prov.specs.Facts.{AnswersLiveness, AnswersScopes, AnswersValues, AreLive};

use bc_cons::Facts;
use bc_live::LiveSets;
use bc_loans::Scopes;
use bc_mir::Typed;
use bc_solve::Values;
use std::alloc::{AllocError, Global};

/// A stored closure that finds, for each local of a body, the points on entry to which it is live. (RFC 2094, "Liveness".)
pub type Liveness = Box<dyn Fn(Global, &Typed) -> Result<LiveSets, AllocError> + Send + Sync>;

/// A stored closure that finds the values of regions. (RFC 2094, "Solving constraints".)
pub type Solver = Box<dyn Fn(Global, &Facts) -> Result<Values, AllocError> + Send + Sync>;

/// A stored closure that finds the loans in scope, given the values of regions. (RFC 2094, "Borrow checker phase 1: computing loans in
/// scope".)
pub type Scoping = Box<dyn Fn(Global, &Typed, &Values) -> Result<Scopes, AllocError> + Send + Sync>;

/// The three analyses of a body, as stored closures. The type guarantees that each may be called on every value of its input, and returns
/// only what its definition says, or `AllocError`. Threads share one by reference. (rustc-dev-guide, "Queries": providers, which are
/// installed from outside.)
#[derive(Drop)]
pub struct Providers {
    live: Liveness,
    solve: Solver,
    in_scope: Scoping,
    ghost live_callable: { Liveness.IsAlwaysCallable live },
    ghost live_right: { AnswersLiveness (Liveness.post live) },
    ghost solve_callable: { Solver.IsAlwaysCallable solve },
    ghost solve_right: { AnswersValues (Solver.post solve) },
    ghost in_scope_callable: { Scoping.IsAlwaysCallable in_scope },
    ghost in_scope_right: { AnswersScopes (Scoping.post in_scope) },
}

impl Providers {
    /// Stores these closures as providers. Requires that each may be called on every value of its input, and returns only liveness, values
    /// or loans in scope as they are defined, or `AllocError`.
    pub fn new(live: Liveness, solve: Solver, in_scope: Scoping) -> Providers
        requires live_callable { Liveness.IsAlwaysCallable live }
        requires live_right { AnswersLiveness (Liveness.post live) }
        requires solve_callable { Solver.IsAlwaysCallable solve }
        requires solve_right { AnswersValues (Solver.post solve) }
        requires in_scope_callable { Scoping.IsAlwaysCallable in_scope }
        requires in_scope_right { AnswersScopes (Scoping.post in_scope) }
    {
        Providers {
            live,
            solve,
            in_scope,
        }
    }

    /// Returns the liveness of a body.
    pub(crate) fn live(&self, alloc: Global, typed: &Typed) -> Result<LiveSets, AllocError>
        ensures { IfOk result (AreLive typed.now) }
    {
        (self.live)(alloc, typed)
    }

    /// Returns the values of regions, given their facts.
    pub(crate) fn solve(&self, alloc: Global, facts: &Facts) -> Result<Values, AllocError>
        ensures { IfOk result (AreValues facts.now) }
    {
        (self.solve)(alloc, facts)
    }

    /// Returns the loans in scope of a body, given the values of its regions.
    pub(crate) fn in_scope(
        &self,
        alloc: Global,
        typed: &Typed,
        values: &Values,
    ) -> Result<Scopes, AllocError>
        ensures { IfOk result (AreScopes typed.now values.now) }
    {
        (self.in_scope)(alloc, typed, values)
    }
}
