//! What demands the constraints of a body, and which demand of a constraint is the first.
ghost use Rattle.std.specs.Prelude.{◌≡◌, ◌+◌, ◌≤◌, ◌++◌, length, map, IfOk, OnOk, MatchOption};
ghost use Rattle.std.specs.List.{flat_map, enumerate_from};
ghost use Rattle.bc_mir.specs.WellFormed.{let_types};
ghost use Rattle.bc_cons.specs.Facts.{MustOutlive};
ghost use Rattle.bc_cons.specs.Constraints.{constraints_of};
ghost use Rattle.bc_reasons.specs.Demands.{step_demands, local_demands, demands_of, first_reason as reason_of_first, IsFirstReason};

use crate::demand::{Demand, LinkReason, push_demands};
use crate::pairs::push_type_pairs;
use crate::points::{Here, push_point};
use bc_cons::{NumberedConstraint, Requirements};
use bc_mir::Typed;
use std::alloc::{AllocError, Global};
use std::marker::Model;

/// Appends what the points demand, in order.
fn push_points(
    alloc: Global,
    demands: &mut Vec<Demand>,
    typed: &Typed,
    kids: &[(u8, Requirements)],
) -> Result<(), AllocError>
    ensures { OnOk result (demands.new.items
        ≡ demands.old.items ++ flat_map (step_demands typed.now kids.now) (enumerate_from 0 typed.now.steps)) }
{
    for (point, step) in typed.steps().iter().enumerate() {
        let here = Here { typed, point };
        push_point(alloc, demands, here, kids, &step.instruction)?;
    }
    Ok(())
}

/// Returns the number of the first `let` local: the result, the captures and the parameters come before it.
fn first_let(typed: &Typed) -> usize
    ensures value { result ≡ typed.now.first_let }
    ensures within { result + length (let_types typed.now) ≤ 256 }
{
    1 + typed.inputs().len()
}

/// Appends what the types of the `let` locals demand, in order.
fn push_locals(alloc: Global, demands: &mut Vec<Demand>, typed: &Typed) -> Result<(), AllocError>
    ensures { OnOk result (demands.new.items
        ≡ demands.old.items ++ flat_map (local_demands typed.now) (enumerate_from 0 (let_types typed.now))) }
{
    let first = first_let(typed);
    let mut pairs = Vec::new(alloc);
    for (number, ty) in typed.lets().iter().enumerate() {
        let local = first + number;
        pairs.clear();
        push_type_pairs(alloc, &mut pairs, typed, ty)?;
        push_demands(
            demands,
            typed.universals(),
            LinkReason::Local { local },
            &pairs,
        )?;
    }
    Ok(())
}

/// Returns all demands of a body, in order.
fn all_demands(
    alloc: Global,
    typed: &Typed,
    kids: &[(u8, Requirements)],
) -> Result<Vec<Demand>, AllocError>
    ensures { IfOk result (λ demands. demands.items ≡ demands_of typed.now kids.now) }
{
    let mut demands = Vec::new(alloc);
    push_points(alloc, &mut demands, typed, kids)?;
    push_locals(alloc, &mut demands, typed)?;
    Ok(demands)
}

/// What demands each constraint of a body. Contracts see the demands as a list, in order: for each point those of its rules, and then those
/// of the types of the `let` locals.
///
/// At an assignment the rules come in this order: the operands for fields or captures, the clauses of a closure that is created, the value
/// for the target, what that closure requires, the reborrow. At a call or an `invoke`: the operands for parameters, the types of the
/// parameters, the clauses, the result. A constraint is listed as often as it is demanded. The header demands nothing: the body relies on
/// it. (RFC 2094, "Subtyping" and "Reborrow constraints"; RFC 1214; rustc-dev-guide, "Propagating closure constraints".)
#[derive(Drop)]
pub struct Demands {
    list: Vec<Demand>,
}

impl Model for Demands {
    ghost use Rattle.std.specs.Prelude.{List};
    ghost use Rattle.bc_reasons.specs.declared.demand.Demand.{Demand};

    ghost Value = { List Demand };

    ghost view = { λ demands. demands.list.items };
}

impl Demands {
    /// Returns the demands of a body. `requirements` has one entry for each child, ascending, as for `constraints`. The constraints of the
    /// demands, in order, are the constraints of the body.
    pub fn of(
        alloc: Global,
        typed: &Typed,
        requirements: &[(u8, Requirements)],
    ) -> Result<Demands, AllocError>
        ensures listed { IfOk result (λ demands. demands ≡ demands_of typed.now requirements.now) }
        ensures constraints { IfOk result (λ demands. map (λ demand. demand.constraint) demands ≡ constraints_of typed.now requirements.now) }
    {
        let list = all_demands(alloc, typed, requirements)?;
        Ok(Demands { list })
    }

    /// Returns the demands, in order.
    pub fn as_slice(&self) -> &[Demand]
        ensures { result.now ≡ self.now }
    {
        &self.list
    }

    /// Returns the reason of the first demand of a constraint, or `None` exactly if no demand is of it. A link of a chain is the constraint
    /// that a region of the chain outlives the next. (rustc-dev-guide, "Region inference (NLL)", on the constraints that errors are
    /// explained by.)
    pub fn first_reason(&self, link: NumberedConstraint) -> Option<LinkReason>
        ensures value { result ≡ reason_of_first link self.now }
        ensures first { MatchOption result
            (¬ (MustOutlive (map (λ demand. demand.constraint) self.now) link.longer link.shorter))
            (λ reason. IsFirstReason self.now link reason) }
    {
        match self.list.iter().find(|demand| demand.is_of(link)) {
            Some(demand) => Some(demand.reason),
            None => None,
        }
    }
}
