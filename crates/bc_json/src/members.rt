//! Members of an object.
ghost use Rattle.std.specs.Prelude.{◌≡◌, OnOk};
ghost use Rattle.serde_json.specs.Data.{number, unsigned, string, put as with_member};
ghost use Rattle.serde_json.specs.View.{members_view};
ghost use Rattle.bc_names.specs.Names.{name_text};
ghost use Rattle.bc_bodies.specs.Lines.{point_text};
ghost use Rattle.bc_mir.specs.Lines.{place_text};

use bc_mir::{Point, Where};
use bc_names::Name;
use serde_json::{Map, ToValue, Value, put};
use std::alloc::{AllocError, Global};

/// Puts a string into an object, under a key. (RFC 8259 for the text of JSON.)
pub fn put_string(
    members: &mut Map<String, Value>,
    alloc: Global,
    key: &str,
    text: &str,
) -> Result<(), AllocError>
    ensures { OnOk result (members_view members.new.entries
        ≡ with_member key.now (string text.now) (members_view members.old.entries)) }
{
    let value = text.to_value(alloc)?;
    put(members, alloc, key, value)
}

/// Puts the name of a body into an object, under a key. (RFC 8259 for the text of JSON.)
pub fn put_name(
    members: &mut Map<String, Value>,
    alloc: Global,
    key: &str,
    name: &Name,
) -> Result<(), AllocError>
    ensures { OnOk result (members_view members.new.entries
        ≡ with_member key.now (string (name_text name.now)) (members_view members.old.entries)) }
{
    let text = format!(in alloc; "{name}")?;
    put(members, alloc, key, Value::String(text))
}

/// Puts a point, such as `bb0[2]`, into an object, under a key.
pub(crate) fn put_point(
    members: &mut Map<String, Value>,
    alloc: Global,
    key: &str,
    point: Point,
) -> Result<(), AllocError>
    ensures { OnOk result (members_view members.new.entries
        ≡ with_member key.now (string (point_text point)) (members_view members.old.entries)) }
{
    let text = format!(in alloc; "{point}")?;
    put(members, alloc, key, Value::String(text))
}

/// Puts a number into an object, under a key. (RFC 8259 for the text of JSON.)
pub fn put_number(
    members: &mut Map<String, Value>,
    alloc: Global,
    key: &str,
    value: usize,
) -> Result<(), AllocError>
    ensures { OnOk result (members_view members.new.entries
        ≡ with_member key.now (number (unsigned value)) (members_view members.old.entries)) }
{
    let value = value.to_value(alloc)?;
    put(members, alloc, key, value)
}

/// Puts the place of a misfit, `header` or a point, into an object, under a key.
pub(crate) fn put_place(
    members: &mut Map<String, Value>,
    alloc: Global,
    key: &str,
    place: &Where,
) -> Result<(), AllocError>
    ensures { OnOk result (members_view members.new.entries
        ≡ with_member key.now (string (place_text place.now)) (members_view members.old.entries)) }
{
    let text = format!(in alloc; "{place}")?;
    put(members, alloc, key, Value::String(text))
}
