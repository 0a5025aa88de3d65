//! Regions that outlive others (RFC 2094, "Subtyping").
ghost use Rattle.std.specs.Prelude.{◌≡◌, ◌++◌, ◌∷◌, [], OnOk};
ghost use Rattle.bc_types.specs.Subtype.{same_region};

use bc_syntax::Region;
use std::alloc::AllocError;

/// A region and one that it outlives: the value of `longer` contains that of `shorter`. (RFC 2094, "Subtyping".)
#[derive(Clone, Copy, Debug, PartialEq, Eq)]
pub struct Constraint {
    pub longer: Region,
    pub shorter: Region,
}

/// Returns whether two regions are equal.
pub fn is_same_region(first: Region, second: Region) -> bool
    ensures { result ≡ same_region first second }
{
    first == second
}

/// Appends the constraint that `longer` outlives `shorter`. (RFC 2094, "Subtyping".)
pub fn push_outlives(
    constraints: &mut Vec<Constraint>,
    longer: Region,
    shorter: Region,
) -> Result<(), AllocError>
    ensures { OnOk result (constraints.new.items ≡ constraints.old.items ++ record { longer = longer; shorter = shorter } ∷ []) }
{
    constraints.push(Constraint { longer, shorter })?;
    Ok(())
}
