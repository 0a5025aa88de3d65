//! What an ask finds.
use crate::shared::Shared;
use bc_judge::BorrowError;
use bc_mir::Where;
use bc_names::Name;
use bc_syntax::Sequence;

/// The errors of one body, with its name. Conflicts come first, by point, access and loan, then lifetime errors, each with the chain that
/// explains it. The list is shared with the piece that it was found in. (RFC 2094, "Borrow checker phase 2: reporting errors" and "Named
/// lifetimes".)
#[derive(Clone, PartialEq)]
pub struct BodyErrors {
    pub name: Name,
    pub errors: Shared<Sequence<BorrowError>>,
}

impl Drop for BodyErrors {
    fn drop(self) {
        let Self { name: _, errors: _ } = self;
    }
}

/// The result of an ask: no body is stored under the name; the first child that is not stored; the first bad declaration, from 0; a body
/// that breaks a typing rule, and where; or the errors of each body, a body before its closures, and these ascending.
#[derive(Clone, PartialEq)]
pub enum Outcome {
    NoBody,
    Missing(Name),
    BadTypes(usize),
    Ill(Name, Where),
    Report(Sequence<BodyErrors>),
}

impl Drop for Outcome {
    fn drop(self) {
        match self {
            Self::NoBody => {}
            Self::Missing(_) => {}
            Self::BadTypes(_) => {}
            Self::Ill(_, _) => {}
            Self::Report(_) => {}
        }
    }
}

/// Names with their outcomes, each outcome shared. A contract sees a list of names and outcomes.
pub type Listing = Sequence<(Name, Shared<Outcome>)>;
