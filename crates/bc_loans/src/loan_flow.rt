//! What decides where the loans of a body flow.
ghost use Rattle.std.specs.Prelude.{◌≡◌, ◌<◌, ℕ, length, IfOk};
ghost use Rattle.std.specs.List.{All};
ghost use Rattle.bc_flow.specs.Chains.{AreChains};
ghost use Rattle.bc_flow.specs.Graph.{AreWithin};
ghost use Rattle.bc_points.specs.declared.loan.Loan.{Loan as LoanValue};

use crate::loan_set::LoanSet;
use bc_flow::{Edge, EdgeChains, edge_chains};
use bc_mir::Step;
use bc_points::Loan;
use bc_solve::Values;
use std::alloc::{AllocError, Global};

/// What decides where the loans of a body flow: the loans, the values of their regions, the points, and the edges between points.
#[derive(Drop)]
pub(crate) struct LoanFlow<'a> {
    pub set: LoanSet<'a>,
    pub universals: u8,
    pub values: &'a Values,
    pub steps: &'a [Step],
    pub edges: &'a [Edge],
    pub chains: EdgeChains,
    ghost makers: { All (λ (made : ℕ × LoanValue). made.0 < length steps.now) set.loans.now },
    ghost within: { AreWithin edges.now (length steps.now) },
    ghost chained: { AreChains 0 (length steps.now) edges.now chains.first.items chains.next.items },
}

impl<'a> LoanFlow<'a> {
    /// Returns the flow of these loans along these edges, within the values of their regions. Points must make the loans, and edges must
    /// lead between points.
    pub(crate) fn of(
        alloc: Global,
        universals: u8,
        loans: &'a [(usize, Loan<'a>)],
        values: &'a Values,
        steps: &'a [Step],
        edges: &'a [Edge],
    ) -> Result<LoanFlow<'a>, AllocError>
        requires makers { All (λ (made : ℕ × LoanValue). made.0 < length steps.now) loans.now }
        requires within { AreWithin edges.now (length steps.now) }
        ensures loans { IfOk result (λ flow. flow.set.loans.now ≡ loans.now) }
        ensures universals { IfOk result (λ flow. flow.universals ≡ universals) }
        ensures values { IfOk result (λ flow. flow.values.now ≡ values.now) }
        ensures steps { IfOk result (λ flow. flow.steps.now ≡ steps.now) }
        ensures edges { IfOk result (λ flow. flow.edges.now ≡ edges.now) }
    {
        let set = LoanSet::of(alloc, loans)?;
        let chains = edge_chains(alloc, steps.len(), edges)?;
        Ok(LoanFlow {
            set,
            universals,
            values,
            steps,
            edges,
            chains,
        })
    }
}
