//! The places of the points of a text.
ghost use Rattle.std.specs.Prelude.{◌≡◌, ◌≢◌, IfOk, IfErr, Ok, Err, length};
ghost use Rattle.bc_syntax.specs.declared.syntax.Body.{Body};
ghost use Rattle.bc_syntax.specs.Fits.{point_count};
ghost use Rattle.bc_text.specs.Reading.{read};
ghost use Rattle.bc_places.specs.Places.{places_of};

use crate::walk::noted_places;
use bc_text::{ReadFault, read_unit};
use std::alloc::Global;

/// Returns the places in a text at which the points of its unit begin, as bytes counted from 0: block by block, the statements of each and
/// then its terminator. Returns the fault of `read_unit` if that refuses the text, and `NoMemory` also if out of memory for the places. (A
/// textual form of the MIR of the rustc-dev-guide, "The MIR".)
pub fn point_places(alloc: Global, text: &[u8]) -> Result<Vec<usize>, ReadFault>
    ensures found { IfOk result (λ places. (u : Body) × (read text.now ≡ Ok u) × (places.items ≡ places_of text.now u)) }
    // One place for each point.
    ensures each { IfOk result (λ places. (u : Body) → read text.now ≡ Ok u → length places.items ≡ point_count u.blocks) }
    ensures fault { IfErr result (λ fault. fault ≢ ReadFault.NoMemory → read text.now ≡ Err fault) }
{
    let _unit = read_unit(alloc, text)?;
    match noted_places(alloc, text) {
        Ok(places) => Ok(places),
        Err(_) => Err(ReadFault::NoMemory),
    }
}
