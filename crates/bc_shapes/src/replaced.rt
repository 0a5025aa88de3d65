//! Replaces a declaration's regions by arguments.
ghost use Rattle.std.specs.Prelude.{◌≡◌, ◌++◌, ◌∷◌, map, IfOk, OnOk};
ghost use Rattle.std.specs.List.{Contains};
ghost use Rattle.bc_shapes.specs.Replaced.{replaced_region, replaced_reference, replaced_instance, replaced_closure, replaced_base, replaced_ty};

use bc_syntax::{Base, ClosureInstance, Instance, ItemName, Reference, Region, ShortSequence, Ty};
use std::alloc::{AllocError, Global};

/// Returns the argument for a declared region by its number: `'static` for 0, and for a number past the last argument.
pub fn argument_of(arguments: &[Region], number: usize) -> Region
    ensures value { result ≡ replaced_region arguments.now (Region.Universal number) }
    ensures given { Contains (Region.Universal 0 ∷ arguments.now) result }
{
    if number == 0 {
        Region::Universal(0)
    } else {
        match arguments.get(number - 1) {
            Some(argument) => *argument,
            None => Region::Universal(0),
        }
    }
}

/// Returns what replaces a region of a declaration: the first argument for the first declared region, and so on. Anything else becomes
/// `'static`, so the result is always `'static` or an argument.
pub fn replace_region(arguments: &[Region], region: Region) -> Region
    ensures value { result ≡ replaced_region arguments.now region }
    ensures given { Contains (Region.Universal 0 ∷ arguments.now) result }
{
    match region {
        Region::Universal(number) => argument_of(arguments, usize::from(number)),
        Region::Variable(_) => Region::Universal(0),
    }
}

fn push_replaced_references(
    references: &mut ShortSequence<Reference, 7>,
    arguments: &[Region],
    more: &[Reference],
) -> Result<(), AllocError>
    ensures { OnOk result (references.new ≡ references.old ++ map (replaced_reference arguments.now) more.now) }
{
    for reference in more {
        references.push(Reference {
            region: replace_region(arguments, reference.region),
            mutability: reference.mutability,
        })?;
    }
    Ok(())
}

fn push_replaced_regions(
    regions: &mut ShortSequence<Region, 4>,
    arguments: &[Region],
    more: &[Region],
) -> Result<(), AllocError>
    ensures { OnOk result (regions.new ≡ regions.old ++ map (replaced_region arguments.now) more.now) }
{
    for region in more {
        regions.push(replace_region(arguments, *region))?;
    }
    Ok(())
}

/// Returns a copy of a name.
pub fn copy_name(name: &ItemName) -> Result<ItemName, AllocError>
    ensures { IfOk result (λ copy. copy ≡ name.now) }
{
    name.clone()
}

fn replace_instance(
    alloc: Global,
    arguments: &[Region],
    instance: &Instance,
) -> Result<Instance, AllocError>
    ensures { IfOk result (λ replaced. replaced ≡ replaced_instance arguments.now instance.now) }
{
    let mut regions = ShortSequence::new(alloc);
    push_replaced_regions(&mut regions, arguments, instance.regions.as_slice())?;
    Ok(Instance {
        name: copy_name(&instance.name)?,
        regions,
    })
}

fn replace_closure(
    alloc: Global,
    arguments: &[Region],
    closure: &ClosureInstance,
) -> Result<ClosureInstance, AllocError>
    ensures { IfOk result (λ replaced. replaced ≡ replaced_closure arguments.now closure.now) }
{
    let mut regions = ShortSequence::new(alloc);
    push_replaced_regions(&mut regions, arguments, closure.regions.as_slice())?;
    Ok(ClosureInstance {
        number: closure.number,
        regions,
    })
}

fn replace_base(alloc: Global, arguments: &[Region], base: &Base) -> Result<Base, AllocError>
    ensures { IfOk result (λ replaced. replaced ≡ replaced_base arguments.now base.now) }
{
    match base {
        Base::Int => Ok(Base::Int),
        Base::Struct(instance) => Ok(Base::Struct(replace_instance(alloc, arguments, instance)?)),
        Base::Closure(closure) => Ok(Base::Closure(replace_closure(alloc, arguments, closure)?)),
    }
}

/// Returns a type of a declaration with each region replaced by its argument.
pub fn replace_ty(alloc: Global, arguments: &[Region], ty: &Ty) -> Result<Ty, AllocError>
    ensures { IfOk result (λ replaced. replaced ≡ replaced_ty arguments.now ty.now) }
{
    let mut references = ShortSequence::new(alloc);
    push_replaced_references(&mut references, arguments, ty.references.as_slice())?;
    Ok(Ty {
        references,
        base: replace_base(alloc, arguments, &ty.base)?,
    })
}
