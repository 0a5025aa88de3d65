//! The loans in scope on entry to each point.
ghost use Rattle.std.specs.Prelude.{◌≡◌, ◌↔◌, ℕ, true, length, IfOk};
ghost use Rattle.bc_flow.specs.Flow.{holds, HaveSize};
ghost use Rattle.bc_loans.specs.Loans.{loans_of};
ghost use Rattle.bc_loans.specs.Scope.{IsInScope};

use crate::loan_flow::LoanFlow;
use crate::loan_list::loans;
use crate::sweeps::swept_rows;
use bc_flow::BitTable;
use bc_mir::Typed;
use bc_solve::Values;
use std::alloc::{AllocError, Global};
use std::marker::Model;

/// The loans in scope on entry to each point. Contracts see a row of loans for each point. (RFC 2094, "Borrow checker phase 1".)
#[derive(Drop)]
pub struct Scopes {
    rows: BitTable,
}

impl Model for Scopes {
    ghost use Rattle.std.specs.Prelude.{List, Bool};

    ghost Value = { List (List Bool) };

    ghost view = { λ scopes. scopes.rows };
}

impl Scopes {
    /// Returns whether a loan is in scope on entry to a point, both by number. The number of a loan is its index in the list of loans.
    /// Returns false if the unit has no such point or loan.
    ///
    /// Only tests of this repository call it: `bc_judge` takes whole rows.
    pub fn on_entry(&self, point: usize, loan: usize) -> bool
        ensures { result ≡ holds self.now point loan }
    {
        self.rows.holds(point, loan)
    }

    /// Returns a set for each point, in order: the loans in scope on entry to it.
    pub fn rows(&self) -> &BitTable
        ensures { result.now ≡ self.now }
    {
        &self.rows
    }
}

/// Returns the loans in scope on entry to each point, given the values of regions. A loan is in scope if a path of at least one step leads
/// to the point from the one that makes it. All points of the path after the first are in the value of the loan's region, and none before
/// the last overwrites a prefix of the loan's path. (RFC 2094, "Borrow checker phase 1: computing loans in scope".)
pub fn in_scope(alloc: Global, typed: &Typed, values: &Values) -> Result<Scopes, AllocError>
    ensures points { IfOk result (λ scopes. length scopes ≡ length typed.now.steps) }
    ensures loans { IfOk result (λ scopes. HaveSize (length (loans_of typed.now)) scopes) }
    ensures scopes { IfOk result (λ scopes. (l p : ℕ) → (holds scopes p l ≡ true) ↔ IsInScope typed.now (holds values.now) l p) }
{
    let loans = loans(alloc, typed)?;
    let edges = typed.edges(alloc)?;
    let flow = LoanFlow::of(
        alloc,
        typed.universals(),
        &loans,
        values,
        typed.steps(),
        &edges,
    )?;
    let rows = swept_rows(alloc, &flow)?;
    Ok(Scopes { rows })
}
