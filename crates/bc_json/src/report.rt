//! The line of a root and its outcome.
ghost use Rattle.std.specs.Prelude.{◌≡◌, IfOk, string_bytes};
ghost use Rattle.bc_json.specs.Json.{json_line};
ghost use Rattle.bc_json.specs.Texts.{HasText};

use crate::members::put_name;
use crate::outcomes::outcome_value;
use bc_names::Name;
use bc_prov::Outcome;
use serde_json::{Map, Value, put};
use std::alloc::{AllocError, Global};

/// Returns the object of a root's name and its outcome.
fn line_value(alloc: Global, name: &Name, outcome: &Outcome) -> Result<Value, AllocError>
    ensures { IfOk result (λ value. HasText value (json_line name.now outcome.now)) }
{
    let outcome = outcome_value(alloc, outcome)?;
    let mut members = Map::new(alloc);
    put_name(&mut members, alloc, "ask", name)?;
    put(&mut members, alloc, "outcome", outcome)?;
    Ok(Value::Object(members))
}

/// Returns the outcome of the root of this name as one line of JSON, without its line feed. It is compact, and the keys of each object are
/// in byte order. (RFC 8259 for the text of JSON.)
pub fn json_report(alloc: Global, name: &Name, outcome: &Outcome) -> Result<String, AllocError>
    ensures { IfOk result (λ line. string_bytes line ≡ json_line name.now outcome.now) }
{
    let line = line_value(alloc, name, outcome)?;
    line.to_string(alloc)
}
