//! The JSON values of replies.
ghost use Rattle.std.specs.Prelude.{◌≡◌, List, IfOk};
ghost use Rattle.std.specs.List.{AllZip};
ghost use Rattle.serde_json.specs.Data.{Data, array};
ghost use Rattle.serde_json.specs.View.{items_of, view as data_of};
ghost use Rattle.cli_entries.specs.Replies.{reply_key, IsReplyData, IsRoot};

use crate::words::{put_word, remove_word};
use bc_calls::Event;
use bc_json::{outcome_value, put_name};
use bc_names::Name;
use bc_prov::{Outcome, Shared};
use serde_json::{Map, ToValue, Value, put};
use std::alloc::{AllocError, Global};

/// Returns the object of a root's name and its outcome.
fn root_value(alloc: Global, name: &Name, outcome: &Outcome) -> Result<Value, AllocError>
    ensures { IfOk result (λ value. IsRoot (name.now, outcome.now) (data_of value)) }
{
    let outcome = outcome_value(alloc, outcome)?;
    let mut members = Map::new(alloc);
    put_name(&mut members, alloc, "name", name)?;
    put(&mut members, alloc, "outcome", outcome)?;
    Ok(Value::Object(members))
}

/// Returns the array of roots with their outcomes, in order.
fn roots_value(alloc: Global, rows: &[(Name, Shared<Outcome>)]) -> Result<Value, AllocError>
    ensures { IfOk result (λ value. (roots : List Data) × AllZip IsRoot rows.now roots × (data_of value ≡ array (items_of roots))) }
{
    let mut values = Vec::new(alloc);
    for (name, outcome) in rows {
        values.push(root_value(alloc, name, outcome.get())?)?;
    }
    Ok(Value::Array(values))
}

/// Returns the key of a call's reply.
pub(crate) fn reply_key(event: &Event) -> &'static str
    ensures { result.now ≡ reply_key event.now }
{
    match event {
        Event::Types(_) | Event::Put(_, _, _) | Event::Remove(_, _) => "reply",
        Event::Ask(_, _) => "outcome",
        Event::All(_) => "roots",
    }
}

/// Returns the value of a call's reply.
pub(crate) fn reply_value(alloc: Global, event: &Event) -> Result<Value, AllocError>
    ensures { IfOk result (λ value. IsReplyData event.now (data_of value)) }
{
    match event {
        Event::Types(_) => "stored".to_value(alloc),
        Event::Put(_, _, reply) => put_word(*reply).to_value(alloc),
        Event::Remove(_, reply) => remove_word(*reply).to_value(alloc),
        Event::Ask(_, outcome) => outcome_value(alloc, outcome.get()),
        Event::All(listing) => roots_value(alloc, listing.get().as_slice()),
    }
}
