//! The session that a line names.
ghost use Rattle.std.specs.Prelude.{◌≡◌, ◌<◌, codes, IfSome};
ghost use Rattle.serde_json.specs.Find.{get};
ghost use Rattle.serde_json.specs.View.{view as data_of};
ghost use Rattle.cli_requests.specs.Sessions.{number_of, session_at};

use serde_json::Value;

/// Returns the number in the member `session` of a value, or 0 if there is no such member. Returns `None` if the member is no whole number.
fn find_number(value: &Value) -> Option<u64>
    ensures { result ≡ number_of (get (codes "session") (data_of value.now)) }
{
    match value.get("session") {
        Some(member) => member.as_u64(),
        None => Some(0),
    }
}

/// Returns the session that a value names, if it is one of `sessions`.
pub(crate) fn session_of(value: &Value, sessions: u8) -> Option<u8>
    ensures which { result ≡ session_at sessions (data_of value.now) }
    ensures below { IfSome result (λ session. session < sessions) }
{
    let number = find_number(value)?;
    if number >= u64::from(sessions) {
        return None;
    }
    Some(number as u8)
}
