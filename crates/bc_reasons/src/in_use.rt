//! Why a region is in use at a point (RFC 2094, "Liveness").
ghost use Rattle.std.specs.Prelude.{◌≡◌, ℕ, Bool, true, IfOk, IsSome, MatchOption};
ghost use Rattle.bc_live.specs.Live.{IsLive};
ghost use Rattle.bc_cons.specs.Starts.{mentions as mention_test, starts_with};
ghost use Rattle.bc_reasons.specs.Paths.{IsFirstUsePath};
ghost use Rattle.bc_reasons.specs.Uses.{has_region as region_test, IsUseReason, IsUnused, TellsLive};

use crate::paths::use_path;
use bc_mir::{Typed, base_regions};
use bc_points::region_number;
use bc_syntax::{Sequence, Ty};
use std::alloc::{AllocError, Global};

/// Why a region is in use at a point: it is universal, and so in use at each point; or a local, by its number, has the region in its type
/// and is live on entry to the point. Then the path leads from the point to one that uses the local, and no earlier point of it defines the
/// local. (RFC 2094, "Liveness".)
#[derive(Drop)]
pub enum UseReason {
    Universal,
    Live { local: usize, path: Sequence<usize> },
}

/// Returns whether a type has a region, by its number.
fn mentions(universals: u8, region: usize, ty: &Ty) -> bool
    ensures { result ≡ mention_test universals region ty.now }
{
    ty.references.as_slice().iter().any(|reference| region_number(universals, reference.region)
        == region)
        || base_regions(&ty.base)
            .iter()
            .any(|other| region_number(universals, *other) == region)
}

/// Returns whether the type of a local has a region, both by number. Returns false if there is no such local.
fn has_region(typed: &Typed, region: usize, local: usize) -> bool
    ensures { result ≡ region_test typed.now region local }
{
    match typed.locals().get(local) {
        Some(ty) => mentions(typed.universals(), region, ty),
        None => false,
    }
}

/// Returns the path from a point to the nearest use of a local, or `None` if the local is not live there or does not have the region in its
/// type.
fn path_with_region(
    alloc: Global,
    typed: &Typed,
    region: usize,
    local: usize,
    point: usize,
) -> Result<Option<Vec<usize>>, AllocError>
    ensures { IfOk result (λ found. MatchOption found
        (region_test typed.now region local ≡ true → ¬ (IsLive typed.now local point))
        (λ path. (region_test typed.now region local ≡ true) × IsFirstUsePath typed.now local point path.items)) }
{
    if has_region(typed, region, local) {
        use_path(alloc, typed, local, point)
    } else {
        Ok(None)
    }
}

/// Returns why a region is in use at a point, both by number: that it is universal; or the least local that has it in its type and is live
/// on entry to the point, with the path to the nearest use of that local (see `use_path`). Returns `None` exactly if the region is a
/// variable and no such local is live there. The last region of a chain to a point is in use at that point. (RFC 2094, "Liveness".)
pub fn use_reason(
    alloc: Global,
    typed: &Typed,
    region: usize,
    point: usize,
) -> Result<Option<UseReason>, AllocError>
    ensures reason { IfOk result (λ found. MatchOption found
        (IsUnused typed.now region point)
        (λ reason. IsUseReason typed.now region point reason)) }
    // So there is a reason wherever the region starts with the point.
    ensures starts { IfOk result (λ found. (live : ℕ → ℕ → Bool) → TellsLive typed.now live →
        starts_with typed.now live region point ≡ true → IsSome found) }
{
    if region < usize::from(typed.universals()) {
        return Ok(Some(UseReason::Universal));
    }
    for local in 0..typed.locals().len() {
        match path_with_region(alloc, typed, region, local, point)? {
            Some(path) => {
                let path = Sequence::from(path);
                return Ok(Some(UseReason::Live { local, path }));
            }
            None => {}
        }
    }
    Ok(None)
}
