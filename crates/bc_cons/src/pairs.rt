//! The pairs of regions that each point demands.
ghost use Rattle.std.specs.Prelude.{◌≡◌, ◌++◌, map, OnOk};
ghost use Rattle.bc_types.specs.Subtype.{outlives};
ghost use Rattle.bc_cons.specs.Constraints.{reborrow_pairs, required_of, required_pairs, pairs_at};
ghost use Rattle.bc_cons.specs.Requirements.{required_by as required_here};

use crate::requirements::Requirements;
use bc_mir::{Constraint as RegionConstraint, Instruction, Typed, arguments};
use bc_points::{
    from_last_shared, push_assignment_pairs, push_call_pairs, push_clauses, push_invocation_pairs,
};
use bc_syntax::{Creation, Header, Outlives, Reference, Region, Rvalue, Statement, Terminator};
use std::alloc::{AllocError, Global};

/// Appends, for each reference, that its region outlives `region`.
fn push_outlives(
    pairs: &mut Vec<RegionConstraint>,
    references: &[Reference],
    region: Region,
) -> Result<(), AllocError>
    ensures { OnOk result (pairs.new.items ≡ pairs.old.items ++ map (λ reference. outlives reference.region region) references.now) }
{
    for reference in references {
        pairs.push(RegionConstraint {
            longer: reference.region,
            shorter: region,
        })?;
    }
    Ok(())
}

/// Appends the pairs of a reborrow. `references` is a buffer, which is cleared first.
fn push_reborrow(
    alloc: Global,
    pairs: &mut Vec<RegionConstraint>,
    references: &mut Vec<Reference>,
    typed: &Typed,
    rvalue: &Rvalue,
) -> Result<(), AllocError>
    ensures { OnOk result (pairs.new.items ≡ pairs.old.items ++ reborrow_pairs typed.now rvalue.now) }
{
    match rvalue {
        Rvalue::Borrow(borrow) => {
            references.clear();
            typed.push_references_of_place(alloc, references, &borrow.place)?;
            let supporting = from_last_shared(references.as_slice());
            push_outlives(pairs, supporting, borrow.reference.region)
        }
        Rvalue::Use(_) | Rvalue::Aggregate(_) | Rvalue::Closure(_) | Rvalue::Calc(_) => Ok(()),
    }
}

/// Returns what the child of a number requires.
fn required_by(kids: &[(u8, Requirements)], number: u8) -> &[Outlives]
    ensures { result.now ≡ required_here kids.now number }
{
    match kids {
        [] => &[],
        [kid, more @ ..] => {
            if kid.0 == number {
                kid.1.pairs.as_slice()
            } else {
                required_by(more, number)
            }
        }
    }
}

/// Appends what a closure requires, with its external regions replaced by those of the creation.
fn push_required_of(
    alloc: Global,
    pairs: &mut Vec<RegionConstraint>,
    creation: &Creation,
    required: &[Outlives],
    header: &Header,
) -> Result<(), AllocError>
    ensures { OnOk result (pairs.new.items ≡ pairs.old.items ++ required_of creation.now required.now header.now) }
{
    let given = arguments(alloc, header, creation.closure.regions.as_slice(), &[])?;
    push_clauses(pairs, &given, required)
}

/// Appends what the creation of a closure demands because the closure requires it.
fn push_required(
    alloc: Global,
    pairs: &mut Vec<RegionConstraint>,
    typed: &Typed,
    kids: &[(u8, Requirements)],
    rvalue: &Rvalue,
) -> Result<(), AllocError>
    ensures { OnOk result (pairs.new.items ≡ pairs.old.items ++ required_pairs typed.now kids.now rvalue.now) }
{
    match rvalue {
        Rvalue::Closure(creation) => {
            let creation = creation.get();
            match typed.child(creation.closure.number) {
                Some(header) => {
                    let required = required_by(kids, creation.closure.number);
                    push_required_of(alloc, pairs, creation, required, header)
                }
                None => Ok(()),
            }
        }
        Rvalue::Use(_) | Rvalue::Borrow(_) | Rvalue::Aggregate(_) | Rvalue::Calc(_) => Ok(()),
    }
}

/// Appends the pairs of a point, given its instruction. `references` is a buffer, which is cleared before use.
pub(crate) fn push_pairs_at(
    alloc: Global,
    pairs: &mut Vec<RegionConstraint>,
    references: &mut Vec<Reference>,
    typed: &Typed,
    kids: &[(u8, Requirements)],
    instruction: &Instruction,
) -> Result<(), AllocError>
    ensures { OnOk result (pairs.new.items ≡ pairs.old.items ++ pairs_at typed.now kids.now instruction.now) }
{
    match instruction {
        Instruction::Statement(Statement::Assign(assignment)) => {
            push_assignment_pairs(alloc, pairs, typed, assignment)?;
            push_required(alloc, pairs, typed, kids, &assignment.value)?;
            push_reborrow(alloc, pairs, references, typed, &assignment.value)
        }
        Instruction::Terminator(Terminator::Call(call)) => {
            push_call_pairs(alloc, pairs, typed, call.get())
        }
        Instruction::Terminator(Terminator::Invoke(invocation)) => {
            push_invocation_pairs(alloc, pairs, typed, invocation.get())
        }
        Instruction::Statement(Statement::Dead(_) | Statement::Drop(_) | Statement::Nop)
        | Instruction::Terminator(
            Terminator::Goto(_) | Terminator::If(_) | Terminator::Return | Terminator::Stop,
        ) => Ok(()),
    }
}
