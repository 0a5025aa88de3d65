//! The members of an entry, and its line.
ghost use Rattle.std.specs.Prelude.{◌≡◌, IfOk, OnOk, string_bytes};
ghost use Rattle.serde_json.specs.View.{members_view};
ghost use Rattle.bc_json.specs.Texts.{HasText};
ghost use Rattle.cli_entries.specs.Replies.{PutsEntry};
ghost use Rattle.cli_entries.specs.Json.{entry_json};

use crate::replies::{reply_key, reply_value};
use bc_calls::{Entry, Event};
use serde_json::{Map, Value, put};
use std::alloc::{AllocError, Global};

/// Puts a call with its reply into an object: `number`, the number of calls that its session had made before, and the reply. The reply is
/// the word `reply` for declarations, a put and a removal, `outcome` for an ask, and `roots`, a list of objects with `name` and `outcome`,
/// for an ask for all. (RFC 8259 for the text of JSON.)
pub fn put_entry(
    members: &mut Map<String, Value>,
    alloc: Global,
    number: usize,
    event: &Event,
) -> Result<(), AllocError>
    ensures { OnOk result (PutsEntry number event.now (members_view members.old.entries) (members_view members.new.entries)) }
{
    let reply = reply_value(alloc, event)?;
    put(members, alloc, "number", Value::from(number))?;
    put(members, alloc, reply_key(event), reply)
}

/// Returns the object of an entry.
fn entry_value(alloc: Global, entry: &Entry) -> Result<Value, AllocError>
    ensures { IfOk result (λ value. HasText value (entry_json entry.now)) }
{
    let mut members = Map::new(alloc);
    put(&mut members, alloc, "session", Value::from(entry.session))?;
    put_entry(&mut members, alloc, entry.number as usize, &entry.event)?;
    Ok(Value::Object(members))
}

/// Returns the line of an entry, without its line feed: one object of JSON, compact, its keys in byte order. It has the number of the
/// session that made the call, from 0, and what `put_entry` puts. (RFC 8259 for the text of JSON.)
pub fn entry_line(alloc: Global, entry: &Entry) -> Result<String, AllocError>
    ensures { IfOk result (λ line. string_bytes line ≡ entry_json entry.now) }
{
    let value = entry_value(alloc, entry)?;
    value.to_string(alloc)
}
