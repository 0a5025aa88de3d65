//! What demands that a region outlives another.
ghost use Rattle.std.specs.Prelude.{◌≡◌, ◌++◌, ◌==◌, ◌&&◌, OnOk};
ghost use Rattle.bc_reasons.specs.Demands.{as_demand, demands_by, is_of as of_link};

use bc_cons::NumberedConstraint;
use bc_mir::Constraint;
use bc_points::region_number;
use bc_types::is_same_region;
use std::alloc::AllocError;

/// The rule by which a point demands that a region outlives another.
///
/// `Assignment` and `Borrow`: the value of an assignment is a subtype of its target; `Borrow` if the value is a borrow (RFC 2094,
/// "Subtyping"). `Reborrow`: a borrow does not outlive a reference that its place dereferences (RFC 2094, "Reborrow constraints").
/// `Argument`: an operand, by its number from 0, is a subtype of its field, capture or parameter (RFC 2094, "Subtyping"). `Result`: the
/// result of a call or an `invoke` is a subtype of its destination. `Clause`: a clause of the function that is called. `WellFormed`: the
/// types of the parameters are well-formed (RFC 1214). `Creation`: what a closure that is created requires, and its clauses between
/// external regions and `'static`; `Invocation`: the other clauses of a closure that is called (rustc-dev-guide, "Propagating closure
/// constraints").
#[derive(Clone, Copy)]
pub enum Rule {
    Assignment,
    Borrow,
    Reborrow,
    Argument(usize),
    Result,
    Clause,
    WellFormed,
    Creation,
    Invocation,
}

/// What demands that a region outlives another: a point, by its number, with the rule; or the type of a `let` local, by its number, since
/// it is well-formed (RFC 1214).
#[derive(Clone, Copy)]
pub enum LinkReason {
    Point { point: usize, rule: Rule },
    Local { local: usize },
}

/// A constraint of a body, with what demands it.
#[derive(Clone, Copy)]
pub struct Demand {
    pub reason: LinkReason,
    pub constraint: NumberedConstraint,
}

impl Demand {
    /// Returns whether the demand is of this constraint.
    pub fn is_of(&self, link: NumberedConstraint) -> bool
        ensures { result ≡ of_link link self.now }
    {
        self.constraint.longer == link.longer && self.constraint.shorter == link.shorter
    }
}

fn numbered_demand(universals: u8, reason: LinkReason, pair: Constraint) -> Demand
    ensures { result ≡ as_demand universals reason pair }
{
    Demand {
        reason,
        constraint: NumberedConstraint {
            longer: region_number(universals, pair.longer),
            shorter: region_number(universals, pair.shorter),
        },
    }
}

/// Appends pairs as demands of one reason, without those of a region with itself.
pub(crate) fn push_demands(
    demands: &mut Vec<Demand>,
    universals: u8,
    reason: LinkReason,
    pairs: &[Constraint],
) -> Result<(), AllocError>
    ensures { OnOk result (demands.new.items ≡ demands.old.items ++ demands_by universals reason pairs.now) }
{
    for pair in pairs {
        if !is_same_region(pair.longer, pair.shorter) {
            demands.push(numbered_demand(universals, reason, *pair))?;
        }
    }
    Ok(())
}
