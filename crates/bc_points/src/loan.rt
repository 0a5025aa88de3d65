//! Loans: what borrows make.
ghost use Rattle.std.specs.Prelude.{◌≡◌};
ghost use Rattle.bc_points.specs.Points.{loan_of as loan_made};

use crate::place_ref::PlaceRef;
use bc_mir::Instruction;
use bc_syntax::{Mutability, Region, Rvalue, Statement};

/// What a borrow makes: its region, its mutability, and the path that is borrowed (RFC 2094, "Borrow checker phase 1").
#[derive(Drop)]
pub struct Loan<'a> {
    pub region: Region,
    pub mutability: Mutability,
    pub path: PlaceRef<'a>,
}

/// Returns the loan that a point makes, or `None` if it does not borrow. (RFC 2094, "Borrow checker phase 1: computing loans in scope".)
pub fn loan_of(instruction: &Instruction) -> Option<Loan<'_>>
    ensures { result ≡ loan_made instruction.now }
{
    match instruction {
        Instruction::Statement(Statement::Assign(assignment)) => match &assignment.value {
            Rvalue::Borrow(borrow) => Some(Loan {
                region: borrow.reference.region,
                mutability: borrow.reference.mutability,
                path: PlaceRef::of(&borrow.place),
            }),
            Rvalue::Use(_) | Rvalue::Aggregate(_) | Rvalue::Closure(_) | Rvalue::Calc(_) => None,
        },
        Instruction::Statement(Statement::Dead(_) | Statement::Drop(_) | Statement::Nop)
        | Instruction::Terminator(_) => None,
    }
}
