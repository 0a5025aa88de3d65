//! The loans of a unit in order.
ghost use Rattle.std.specs.Prelude.{◌≡◌, IfOk};
ghost use Rattle.std.specs.List.{flat_map, enumerate_from};
ghost use Rattle.bc_loans.specs.Loans.{loans_of_step, loans_of};

use bc_mir::{Step, Typed};
use bc_points::{Loan, loan_of};
use std::alloc::{AllocError, Global};

/// Returns the loans that steps make.
fn loans_of_steps(alloc: Global, steps: &[Step]) -> Result<Vec<(usize, Loan<'_>)>, AllocError>
    ensures { IfOk result (λ loans. loans.items ≡ flat_map loans_of_step (enumerate_from 0 steps.now)) }
{
    let mut loans = Vec::with_capacity(alloc, steps.len())?;
    for (point, step) in steps.iter().enumerate() {
        match loan_of(&step.instruction) {
            Some(loan) => loans.push((point, loan))?,
            None => {}
        }
    }
    Ok(loans)
}

/// Returns the loans of a unit, each with the number of the point that makes it, in the order of these points. Each borrow is one loan, and
/// the number of a loan is its index in this list. (RFC 2094, "Borrow checker phase 1".)
pub fn loans(alloc: Global, typed: &Typed) -> Result<Vec<(usize, Loan<'_>)>, AllocError>
    ensures { IfOk result (λ loans. loans.items ≡ loans_of typed.now) }
{
    loans_of_steps(alloc, typed.steps())
}
