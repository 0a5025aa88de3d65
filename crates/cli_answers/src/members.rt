//! The members of an object.
ghost use Rattle.std.specs.Prelude.{◌≡◌, codes, IfOk};
ghost use Rattle.serde_json.specs.Data.{member, no_members};
ghost use Rattle.serde_json.specs.View.{members_view, view as data_of};
ghost use Rattle.cli_requests.specs.Ids.{id_data};
ghost use Rattle.cli_answers.specs.Answers.{session_data};

use cli_requests::Id;
use serde_json::{Map, Value, put};
use std::alloc::{AllocError, Global};

/// Returns the number of a session, or `null` for none.
fn session_value(session: Option<u8>) -> Value
    ensures { data_of result ≡ session_data session }
{
    match session {
        Some(session) => Value::from(session),
        None => Value::Null,
    }
}

/// Returns the members that each answer has: the id of its request, and the session that the request names.
pub(crate) fn new_members(
    alloc: Global,
    id: &Id,
    session: Option<u8>,
) -> Result<Map<String, Value>, AllocError>
    ensures { IfOk result (λ members. members_view members.entries
        ≡ member (codes "id") (id_data id.now) (member (codes "session") (session_data session) no_members)) }
{
    let mut members = Map::new(alloc);
    put(&mut members, alloc, "id", id.value().clone()?)?;
    put(&mut members, alloc, "session", session_value(session))?;
    Ok(members)
}
