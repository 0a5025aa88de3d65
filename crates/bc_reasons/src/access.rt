//! What an access is, and which part of its point makes it.
ghost use Rattle.std.specs.Prelude.{◌≡◌, slice_get, IfOk};
ghost use Rattle.std.specs.Option.{option_map};
ghost use Rattle.bc_points.specs.Accesses.{accesses_of};
ghost use Rattle.bc_reasons.specs.Parts.{access_reasons};

use crate::part::{Part, access_parts};
use bc_mir::{Instruction, Typed};
use bc_points::{Access, accesses};
use std::alloc::{AllocError, Global};

/// An access of a point, and the part of the instruction that makes it. (RFC 2094, "Borrow checker phase 2: reporting errors".)
#[derive(Drop)]
pub struct AccessReason<'a> {
    pub access: Access<'a>,
    pub part: Part,
}

/// Returns the access of a number, counted from 0 as in an error, of a point, given its instruction: whether it reads or writes which
/// place, how deeply, and which part of the instruction makes it. Returns `None` exactly if the point has no such access. (RFC 2094,
/// "Borrow checker phase 2: reporting errors".)
pub fn access_reason<'a>(
    alloc: Global,
    typed: &Typed,
    instruction: &'a Instruction,
    number: usize,
) -> Result<Option<AccessReason<'a>>, AllocError>
    ensures reason { IfOk result (λ found. found ≡ slice_get (access_reasons typed.now instruction.now) number) }
    // The accesses with their parts, in order, are the accesses of the point.
    ensures access { IfOk result (λ found. option_map (λ reason. reason.access) found ≡ slice_get (accesses_of typed.now instruction.now) number) }
{
    let mut accesses = accesses(alloc, typed, instruction)?;
    let parts = access_parts(alloc, typed, instruction)?;
    if number >= accesses.len() {
        return Ok(None);
    }
    match parts.get(number) {
        Some(part) => Ok(Some(AccessReason {
            access: accesses.swap_remove(number),
            part: *part,
        })),
        None => Ok(None),
    }
}
