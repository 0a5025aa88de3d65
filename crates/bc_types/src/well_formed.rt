//! What the references of well-formed types demand.
ghost use Rattle.std.specs.Prelude.{◌≡◌, ◌++◌, map, OnOk};
ghost use Rattle.bc_types.specs.Mentions.{regions_of_references, regions_of_base};
ghost use Rattle.bc_types.specs.Subtype.{outlives};
ghost use Rattle.bc_types.specs.WellFormed.{each_outlives, reference_pairs, replaced_pair as pair_replaced};

use crate::subtype::{Constraint, push_outlives};
use bc_shapes::replace_region;
use bc_syntax::{Base, Reference, Region};
use std::alloc::AllocError;

/// Appends the constraints that each region outlives `shorter`.
fn push_each_outlives(
    constraints: &mut Vec<Constraint>,
    regions: &[Region],
    shorter: Region,
) -> Result<(), AllocError>
    ensures { OnOk result (constraints.new.items ≡ constraints.old.items ++ each_outlives regions.now shorter) }
{
    for region in regions {
        push_outlives(constraints, *region, shorter)?;
    }
    Ok(())
}

/// Appends the constraints that each reference's region outlives `shorter`.
fn push_references_outlive(
    constraints: &mut Vec<Constraint>,
    references: &[Reference],
    shorter: Region,
) -> Result<(), AllocError>
    ensures { OnOk result (constraints.new.items
        ≡ constraints.old.items ++ map (λ reference. outlives reference.region shorter) references.now) }
{
    for reference in references {
        push_outlives(constraints, reference.region, shorter)?;
    }
    Ok(())
}

/// Appends the constraints that each argument of a base outlives `shorter`.
fn push_base_outlives(
    constraints: &mut Vec<Constraint>,
    base: &Base,
    shorter: Region,
) -> Result<(), AllocError>
    ensures { OnOk result (constraints.new.items
        ≡ constraints.old.items ++ each_outlives (regions_of_base base.now) shorter) }
{
    match base {
        Base::Int => Ok(()),
        Base::Struct(instance) => {
            push_each_outlives(constraints, instance.regions.as_slice(), shorter)
        }
        Base::Closure(closure) => {
            push_each_outlives(constraints, closure.regions.as_slice(), shorter)
        }
    }
}

/// Appends the constraints that each region inside a pointee outlives `shorter`, the reference's region.
fn push_behind(
    constraints: &mut Vec<Constraint>,
    references: &[Reference],
    base: &Base,
    shorter: Region,
) -> Result<(), AllocError>
    ensures { OnOk result (constraints.new.items
        ≡ constraints.old.items ++ each_outlives (regions_of_references references.now ++ regions_of_base base.now) shorter) }
{
    push_references_outlive(constraints, references, shorter)?;
    push_base_outlives(constraints, base, shorter)
}

/// Appends what the references of a type demand, the outermost first.
pub(crate) fn push_reference_pairs(
    constraints: &mut Vec<Constraint>,
    references: &[Reference],
    base: &Base,
) -> Result<(), AllocError>
    ensures { OnOk result (constraints.new.items ≡ constraints.old.items ++ reference_pairs references.now base.now) }
{
    match references {
        [] => Ok(()),
        [reference, more @ ..] => {
            push_behind(constraints, more, base, reference.region)?;
            push_reference_pairs(constraints, more, base)
        }
    }
}

fn replaced_pair(arguments: &[Region], pair: Constraint) -> Constraint
    ensures { result ≡ pair_replaced arguments.now pair }
{
    Constraint {
        longer: replace_region(arguments, pair.longer),
        shorter: replace_region(arguments, pair.shorter),
    }
}

/// Appends pairs of a declaration, with its regions replaced by arguments.
pub(crate) fn push_replaced_pairs(
    constraints: &mut Vec<Constraint>,
    arguments: &[Region],
    pairs: &[Constraint],
) -> Result<(), AllocError>
    ensures { OnOk result (constraints.new.items ≡ constraints.old.items ++ map (pair_replaced arguments.now) pairs.now) }
{
    for pair in pairs {
        constraints.push(replaced_pair(arguments, *pair))?;
    }
    Ok(())
}
