//! The line of an answer.
ghost use Rattle.std.specs.Prelude.{IfOk, string_bytes};
ghost use Rattle.serde_json.specs.View.{view as data_of};
ghost use Rattle.cli_requests.specs.Ids.{id_data};
ghost use Rattle.cli_answers.specs.Answers.{IsAnswerLine, IsAnswerOf, IsLineOf};

use crate::answer::Answer;
use crate::entries::entry_value;
use crate::faults::{fault_value, wrong_value};
use crate::glances::glance_value;
use cli_entries::refusal_words;
use cli_requests::Id;
use serde_json::Value;
use std::alloc::{AllocError, Global};

/// Returns the object of an answer.
fn answer_value(
    alloc: Global,
    id: &Id,
    session: Option<u8>,
    answer: &Answer,
) -> Result<Value, AllocError>
    ensures { IfOk result (λ value. IsAnswerOf (id_data id.now) session answer.now (data_of value)) }
{
    match answer {
        Answer::Entered { number, event } => entry_value(alloc, id, session, *number, event),
        Answer::Glanced(published) => glance_value(alloc, id, session, published),
        Answer::Refused(refusal) => fault_value(alloc, id, session, refusal_words(*refusal)),
        Answer::Wrong(fault) => wrong_value(alloc, id, session, fault),
    }
}

/// Returns the one line of a value.
#[tactic(auto, using(crate::proofs::OneLine::one_line))]
fn line_of(alloc: Global, value: &Value) -> Result<String, AllocError>
    ensures { IfOk result (λ line. IsLineOf (data_of value.now) (string_bytes line)) }
{
    match value.to_string(alloc) {
        Ok(line) => Ok(line),
        Err(refused) => Err(refused),
    }
}

/// Returns the line that answers the request of this id, without its line feed. It is one object of JSON, compact, its keys in byte order,
/// with the id as it was sent. `session` is the session that the request names, if any. If the id has no float, the bytes are exactly those
/// of the object; a float in the id may have other digits, which read as the same float. (RFC 8259 for the text of JSON.)
pub fn answer_line(
    alloc: Global,
    id: &Id,
    session: Option<u8>,
    answer: &Answer,
) -> Result<String, AllocError>
    ensures { IfOk result (λ line. IsAnswerLine (id_data id.now) session answer.now (string_bytes line)) }
{
    let value = answer_value(alloc, id, session, answer)?;
    line_of(alloc, &value)
}
