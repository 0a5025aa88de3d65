//! The JSON values of outcomes.
ghost use Rattle.std.specs.Prelude.{map, IfOk};
ghost use Rattle.bc_prov.specs.declared.outcome.Outcome.TheVariants.{NoBody, Missing, BadTypes, Ill, Report};
ghost use Rattle.bc_json.specs.Json.{body_json, outcome_json};
ghost use Rattle.bc_json.specs.Texts.{HasText, array_text};

use crate::errors::errors_value;
use crate::members::{put_name, put_number, put_place, put_string};
use bc_mir::Where;
use bc_names::Name;
use bc_prov::{BodyErrors, Outcome};
use serde_json::{Map, Value, put};
use std::alloc::{AllocError, Global};

/// Returns the object of a body: its name and its errors.
fn body_value(alloc: Global, body: &BodyErrors) -> Result<Value, AllocError>
    ensures { IfOk result (λ value. HasText value (body_json body.now)) }
{
    let errors = errors_value(alloc, body.errors.get().as_slice())?;
    let mut members = Map::new(alloc);
    put(&mut members, alloc, "errors", errors)?;
    put_name(&mut members, alloc, "name", &body.name)?;
    Ok(Value::Object(members))
}

/// Returns the array of bodies, in order.
fn bodies_value(alloc: Global, bodies: &[BodyErrors]) -> Result<Value, AllocError>
    ensures { IfOk result (λ value. HasText value (array_text (map body_json bodies.now))) }
{
    let mut values = Vec::new(alloc);
    for body in bodies {
        values.push(body_value(alloc, body)?)?;
    }
    Ok(Value::Array(values))
}

/// Returns the object of the outcome that nothing is stored under the name.
fn no_body_value(alloc: Global) -> Result<Value, AllocError>
    ensures { IfOk result (λ value. HasText value (outcome_json NoBody)) }
{
    let mut members = Map::new(alloc);
    put_string(&mut members, alloc, "kind", "nobody")?;
    Ok(Value::Object(members))
}

/// Returns the object of a closure that is not stored.
fn missing_value(alloc: Global, name: &Name) -> Result<Value, AllocError>
    ensures { IfOk result (λ value. HasText value (outcome_json (Missing name.now))) }
{
    let mut members = Map::new(alloc);
    put_string(&mut members, alloc, "kind", "missing")?;
    put_name(&mut members, alloc, "name", name)?;
    Ok(Value::Object(members))
}

/// Returns the object of a bad declaration.
fn bad_types_value(alloc: Global, index: usize) -> Result<Value, AllocError>
    ensures { IfOk result (λ value. HasText value (outcome_json (BadTypes index))) }
{
    let mut members = Map::new(alloc);
    put_number(&mut members, alloc, "index", index)?;
    put_string(&mut members, alloc, "kind", "badtypes")?;
    Ok(Value::Object(members))
}

/// Returns the object of a body that breaks a typing rule.
fn ill_value(alloc: Global, name: &Name, place: &Where) -> Result<Value, AllocError>
    ensures { IfOk result (λ value. HasText value (outcome_json (Ill name.now place.now))) }
{
    let mut members = Map::new(alloc);
    put_place(&mut members, alloc, "at", place)?;
    put_string(&mut members, alloc, "kind", "ill")?;
    put_name(&mut members, alloc, "name", name)?;
    Ok(Value::Object(members))
}

/// Returns the object of a report.
fn report_value(alloc: Global, bodies: &[BodyErrors]) -> Result<Value, AllocError>
    ensures { IfOk result (λ value. HasText value (outcome_json (Report bodies.now))) }
{
    let bodies = bodies_value(alloc, bodies)?;
    let mut members = Map::new(alloc);
    put(&mut members, alloc, "bodies", bodies)?;
    put_string(&mut members, alloc, "kind", "report")?;
    Ok(Value::Object(members))
}

/// Returns the JSON value of an outcome: the object that `json_report` writes after `"outcome":`. It has no float, and its compact text is
/// exactly these bytes. (RFC 8259 for the text of JSON.)
pub fn outcome_value(alloc: Global, outcome: &Outcome) -> Result<Value, AllocError>
    ensures { IfOk result (λ value. HasText value (outcome_json outcome.now)) }
{
    match outcome {
        Outcome::NoBody => no_body_value(alloc),
        Outcome::Missing(name) => missing_value(alloc, name),
        Outcome::BadTypes(index) => bad_types_value(alloc, *index),
        Outcome::Ill(name, place) => ill_value(alloc, name, place),
        Outcome::Report(bodies) => report_value(alloc, bodies.as_slice()),
    }
}
