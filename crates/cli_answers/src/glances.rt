//! The JSON values of glances.
ghost use Rattle.std.specs.Prelude.{◌≡◌, IfOk, option_map};
ghost use Rattle.std.specs.Arc.{arc_value};
ghost use Rattle.serde_json.specs.View.{view as data_of};
ghost use Rattle.cli_requests.specs.Ids.{id_data};
ghost use Rattle.cli_answers.specs.declared.answer.Answer.TheVariants.{Glanced};
ghost use Rattle.cli_answers.specs.Answers.{IsAnswerOf, IsPublished, glance_data};

use crate::members::new_members;
use bc_json::outcome_value;
use bc_prov::Outcome;
use cli_requests::Id;
use serde_json::{Value, put};
use std::alloc::{AllocError, Global};
use std::sync::Arc;

/// Returns the object of the answer that is published for a name, or `null` if there is none.
fn published_value(
    alloc: Global,
    published: &Option<Arc<Outcome, Global>>,
) -> Result<Value, AllocError>
    ensures { IfOk result (λ value. IsPublished (option_map arc_value published.now) (data_of value)) }
{
    match published {
        Some(outcome) => outcome_value(alloc, &**outcome),
        None => Ok(Value::Null),
    }
}

/// Returns the object of a glance with this value as its outcome.
fn glance_object(
    alloc: Global,
    id: &Id,
    session: Option<u8>,
    published: Value,
) -> Result<Value, AllocError>
    ensures { IfOk result (λ value. data_of value ≡ glance_data (id_data id.now) session (data_of published)) }
{
    let mut members = new_members(alloc, id, session)?;
    put(&mut members, alloc, "outcome", published)?;
    Ok(Value::Object(members))
}

/// Returns the object of a glance.
pub(crate) fn glance_value(
    alloc: Global,
    id: &Id,
    session: Option<u8>,
    published: &Option<Arc<Outcome, Global>>,
) -> Result<Value, AllocError>
    ensures { IfOk result (λ value. IsAnswerOf (id_data id.now) session (Glanced published.now) (data_of value)) }
{
    let published = published_value(alloc, published)?;
    glance_object(alloc, id, session, published)
}
