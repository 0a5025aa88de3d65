//! The regions that occur in types.
ghost use Rattle.std.specs.Prelude.{◌≡◌};
ghost use Rattle.bc_types.specs.Mentions.{regions_of_base};

use bc_syntax::{Base, Region};

/// Returns the regions of a base: the arguments of a struct or a closure, and none for `int`.
pub fn base_regions(base: &Base) -> &[Region]
    ensures { result.now ≡ regions_of_base base.now }
{
    match base {
        Base::Int => &[],
        Base::Struct(instance) => instance.regions.as_slice(),
        Base::Closure(closure) => closure.regions.as_slice(),
    }
}
