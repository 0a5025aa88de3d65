//! The JSON values of faults.
ghost use Rattle.std.specs.Prelude.{◌≡◌, IfOk};
ghost use Rattle.serde_json.specs.View.{view as data_of};
ghost use Rattle.cli_requests.specs.Ids.{id_data};
ghost use Rattle.cli_answers.specs.Answers.{fault_data, text_data, wrong_data};

use crate::members::new_members;
use crate::words::kind_name;
use bc_json::{put_number, put_string};
use cli_requests::{Id, RequestFault, TextFault};
use serde_json::Value;
use std::alloc::{AllocError, Global};

/// Returns the object of a fault in these words.
pub(crate) fn fault_value(
    alloc: Global,
    id: &Id,
    session: Option<u8>,
    words: &str,
) -> Result<Value, AllocError>
    ensures { IfOk result (λ value. data_of value ≡ fault_data (id_data id.now) session words.now) }
{
    let mut members = new_members(alloc, id, session)?;
    put_string(&mut members, alloc, "fault", words)?;
    Ok(Value::Object(members))
}

/// Returns the object of a fault that a text has, with its place.
fn text_value(
    alloc: Global,
    id: &Id,
    session: Option<u8>,
    fault: &TextFault,
) -> Result<Value, AllocError>
    ensures { IfOk result (λ value. data_of value ≡ text_data (id_data id.now) session fault.now) }
{
    let mut members = new_members(alloc, id, session)?;
    put_number(&mut members, alloc, "at", fault.at)?;
    put_number(&mut members, alloc, "column", fault.position.column)?;
    put_string(&mut members, alloc, "fault", kind_name(fault.kind))?;
    put_number(&mut members, alloc, "line", fault.position.line)?;
    Ok(Value::Object(members))
}

/// Returns the object that says what is wrong with a request.
pub(crate) fn wrong_value(
    alloc: Global,
    id: &Id,
    session: Option<u8>,
    fault: &RequestFault,
) -> Result<Value, AllocError>
    ensures { IfOk result (λ value. data_of value ≡ wrong_data (id_data id.now) session fault.now) }
{
    match fault {
        RequestFault::NotJson => fault_value(alloc, id, session, "not json"),
        RequestFault::TooLong => fault_value(alloc, id, session, "too long"),
        RequestFault::BadSession => fault_value(alloc, id, session, "bad session"),
        RequestFault::BadCall => fault_value(alloc, id, session, "bad call"),
        RequestFault::BadName => fault_value(alloc, id, session, "bad name"),
        RequestFault::BadText => fault_value(alloc, id, session, "bad text"),
        RequestFault::Text(fault) => text_value(alloc, id, session, fault),
    }
}
