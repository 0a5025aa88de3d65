//! The JSON values of calls that were made.
ghost use Rattle.std.specs.Prelude.{IfOk};
ghost use Rattle.serde_json.specs.View.{view as data_of};
ghost use Rattle.cli_requests.specs.Ids.{id_data};
ghost use Rattle.cli_answers.specs.Answers.{IsEntryOf};

use crate::members::new_members;
use bc_calls::Event;
use cli_entries::put_entry;
use cli_requests::Id;
use serde_json::Value;
use std::alloc::{AllocError, Global};

/// Returns the object of a call with its reply.
pub(crate) fn entry_value(
    alloc: Global,
    id: &Id,
    session: Option<u8>,
    number: usize,
    event: &Event,
) -> Result<Value, AllocError>
    ensures { IfOk result (λ value. IsEntryOf (id_data id.now) session number event.now (data_of value)) }
{
    let mut members = new_members(alloc, id, session)?;
    put_entry(&mut members, alloc, number, event)?;
    Ok(Value::Object(members))
}
