//! Subtypes with variance (RFC 2094, "Subtyping"; rustc-dev-guide, "Variance").
ghost use Rattle.std.specs.Prelude.{◌≡◌, ◌++◌, ◌∷◌, OnOk};
ghost use Rattle.bc_types.specs.Subtyping.{related, related_arguments, related_regions, related_closures, related_bases, related_types, sub};

use crate::good::is_invariant;
use crate::good_types::GoodTypes;
use crate::subtype::{Constraint, push_outlives};
use bc_shapes::{TyRef, is_mutable};
use bc_syntax::{Base, ClosureInstance, Reference, Region, Variance};
use std::alloc::AllocError;

fn push_related(
    constraints: &mut Vec<Constraint>,
    invariant: bool,
    longer: Region,
    shorter: Region,
) -> Result<(), AllocError>
    ensures { OnOk result (constraints.new.items ≡ constraints.old.items ++ related invariant longer shorter) }
{
    push_outlives(constraints, longer, shorter)?;
    if invariant {
        push_outlives(constraints, shorter, longer)?;
    }
    Ok(())
}

fn push_related_arguments(
    constraints: &mut Vec<Constraint>,
    invariant: bool,
    variances: &[Variance],
    regions: &[Region],
    others: &[Region],
) -> Result<(), AllocError>
    ensures { OnOk result (constraints.new.items ≡ constraints.old.items ++ related_arguments invariant variances.now regions.now others.now) }
{
    match variances {
        [] => Ok(()),
        [variance, variances @ ..] => match regions {
            [] => Ok(()),
            [region, more @ ..] => match others {
                [] => Ok(()),
                [other, rest @ ..] => {
                    let both = invariant || is_invariant(*variance);
                    push_related(constraints, both, *region, *other)?;
                    push_related_arguments(constraints, invariant, variances, more, rest)
                }
            },
        },
    }
}

/// Relates the regions of two closures both ways, each to the one in its place.
fn push_related_regions(
    constraints: &mut Vec<Constraint>,
    regions: &[Region],
    others: &[Region],
) -> Result<(), AllocError>
    ensures { OnOk result (constraints.new.items ≡ constraints.old.items ++ related_regions regions.now others.now) }
{
    match regions {
        [] => Ok(()),
        [region, more @ ..] => match others {
            [] => Ok(()),
            [other, rest @ ..] => {
                push_related(constraints, true, *region, *other)?;
                push_related_regions(constraints, more, rest)
            }
        },
    }
}

fn push_related_closures(
    constraints: &mut Vec<Constraint>,
    closure: &ClosureInstance,
    other: &Base,
) -> Result<(), AllocError>
    ensures { OnOk result (constraints.new.items ≡ constraints.old.items ++ related_closures closure.now other.now) }
{
    match other {
        Base::Int | Base::Struct(_) => Ok(()),
        Base::Closure(other) => push_related_regions(
            constraints,
            closure.regions.as_slice(),
            other.regions.as_slice(),
        ),
    }
}

fn push_related_bases(
    constraints: &mut Vec<Constraint>,
    types: &GoodTypes,
    invariant: bool,
    base: &Base,
    other: &Base,
) -> Result<(), AllocError>
    ensures { OnOk result (constraints.new.items ≡ constraints.old.items ++ related_bases types.now invariant base.now other.now) }
{
    match base {
        Base::Int => Ok(()),
        Base::Struct(instance) => match other {
            Base::Int | Base::Closure(_) => Ok(()),
            Base::Struct(other) => match types.struct_of(&instance.name) {
                Some(declaration) => push_related_arguments(
                    constraints,
                    invariant,
                    declaration.variances.as_slice(),
                    instance.regions.as_slice(),
                    other.regions.as_slice(),
                ),
                None => Ok(()),
            },
        },
        Base::Closure(closure) => push_related_closures(constraints, closure, other),
    }
}

fn push_related_types(
    constraints: &mut Vec<Constraint>,
    types: &GoodTypes,
    invariant: bool,
    value: &TyRef<'_>,
    target: &TyRef<'_>,
) -> Result<(), AllocError>
    ensures { OnOk result (constraints.new.items
        ≡ constraints.old.items ++ related_types types.now invariant value.now.references value.now.base target.now.references target.now.base) }
{
    match value.references() {
        [] => push_related_bases(constraints, types, invariant, value.base(), target.base()),
        [one, more @ ..] => match target.references() {
            [] => Ok(()),
            [first, rest @ ..] => {
                let behind = invariant || is_mutable(one.mutability);
                push_related(constraints, invariant, one.region, first.region)?;
                push_related_types(
                    constraints,
                    types,
                    behind,
                    &TyRef::behind(more, value.base()),
                    &TyRef::behind(rest, target.base()),
                )
            }
        },
    }
}

/// Appends the constraints that make the first type a subtype of the second, if both have one shape. (RFC 2094, "Subtyping".)
pub fn push_sub(
    constraints: &mut Vec<Constraint>,
    types: &GoodTypes,
    value: &TyRef<'_>,
    target: &TyRef<'_>,
) -> Result<(), AllocError>
    ensures { OnOk result (constraints.new.items ≡ constraints.old.items ++ sub types.now value.now target.now) }
{
    push_related_types(constraints, types, false, value, target)
}

/// Appends the constraints that make a reference to the first type a subtype of the second, if both have one shape. (RFC 2094,
/// "Subtyping".)
pub fn push_sub_reference(
    constraints: &mut Vec<Constraint>,
    types: &GoodTypes,
    reference: Reference,
    pointee: &TyRef<'_>,
    target: &TyRef<'_>,
) -> Result<(), AllocError>
    ensures { OnOk result (constraints.new.items
        ≡ constraints.old.items ++ sub types.now (record { references = reference ∷ pointee.now.references; base = pointee.now.base }) target.now) }
{
    match target.references() {
        [] => Ok(()),
        [first, rest @ ..] => {
            let behind = is_mutable(reference.mutability);
            push_related(constraints, false, reference.region, first.region)?;
            push_related_types(
                constraints,
                types,
                behind,
                pointee,
                &TyRef::behind(rest, target.base()),
            )
        }
    }
}
