//! Errors of bodies.
ghost use Rattle.std.specs.Prelude.{◌≡◌};
ghost use Rattle.bc_judge.specs.Errors.{chain_of};

use bc_mir::Point;
use bc_syntax::{Region, Sequence};

/// An error of a body: a conflict of an access with a loan, or a lifetime error.
///
/// `Conflict`: access number `access`, counted from 0, of the point `at` is illegal, because the loan that the point `loan` makes is in
/// scope there (RFC 2094, "Borrow checker phase 2"). `Lifetime`: the universal region `longer` must outlive `shorter`, and is not known to
/// (RFC 2094, "Named lifetimes"). Both are numbers, and 0 is `'static`.
///
/// `chain` explains the error: each of its regions must outlive the next. It leads from the loan's region to one that has the point of its
/// own, or from `longer` to one that has the end of `shorter` of its own, and not because it must outlive another. It is the first of the
/// shortest such lists. (rustc-dev-guide, "Region inference (NLL)", on the constraints that errors are explained by.)
#[derive(PartialEq)]
pub enum BorrowError {
    Conflict {
        at: Point,
        access: usize,
        loan: Point,
        chain: Sequence<Region>,
    },
    Lifetime {
        longer: u8,
        shorter: u8,
        chain: Sequence<Region>,
    },
}

impl Drop for BorrowError {
    fn drop(self) {
        match self {
            Self::Conflict {
                at: _,
                access: _,
                loan: _,
                chain: _,
            } => {}
            Self::Lifetime {
                longer: _,
                shorter: _,
                chain: _,
            } => {}
        }
    }
}

impl BorrowError {
    /// Returns the chain that explains the error.
    pub fn chain(&self) -> &[Region]
        ensures { result.now ≡ chain_of self.now }
    {
        match self {
            BorrowError::Conflict {
                at: _,
                access: _,
                loan: _,
                chain,
            } => chain.as_slice(),
            BorrowError::Lifetime {
                longer: _,
                shorter: _,
                chain,
            } => chain.as_slice(),
        }
    }
}
