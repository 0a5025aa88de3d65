//! The value of a line.
ghost use Rattle.std.specs.Prelude.{◌≡◌, Ok, Err, IfOk, IfErr};
ghost use Rattle.serde_json.specs.View.{view as data_of};
ghost use Rattle.cli_requests.specs.Faults.{Stops};
ghost use Rattle.cli_requests.specs.Lines.{value_of};

use crate::fault::{RequestFault, RequestStop};
use crate::request::MOST_REQUEST_BYTES;
use serde_json::Value;
use std::alloc::Global;

/// Returns the JSON value of a line. Stops with `TooLong` if the line has more than `MOST_REQUEST_BYTES` bytes, otherwise with `NotJson` if
/// it is not JSON.
#[tactic(auto, using(crate::proofs::Values::too_long, crate::proofs::Values::has_value, crate::proofs::Values::has_no_value))]
pub(crate) fn read_line(alloc: Global, line: &[u8]) -> Result<Value, RequestStop>
    ensures read { IfOk result (λ value. value_of line.now ≡ Ok (data_of value)) }
    ensures unread { IfErr result (Stops (λ fault. value_of line.now ≡ Err fault)) }
{
    if line.len() > MOST_REQUEST_BYTES {
        return Err(RequestStop::Fault(RequestFault::TooLong));
    }
    match Value::from_slice(alloc, line) {
        Ok(value) => Ok(value),
        Err(fault) => {
            if fault.is_memory() {
                return Err(RequestStop::NoMemory);
            }
            Err(RequestStop::Fault(RequestFault::NotJson))
        }
    }
}
