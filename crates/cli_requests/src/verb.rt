//! The calls that a request can name.
ghost use Rattle.std.specs.Prelude.{◌≡◌, IfSome, IfNone};
ghost use Rattle.serde_json.specs.View.{view as data_of};
ghost use Rattle.cli_requests.specs.declared.verb.Verb.{Verb};
ghost use Rattle.cli_requests.specs.Asking.{Calls};

use crate::member::find_word;
use serde_json::Value;

/// The call that a request names in its member `call`.
#[derive(Clone, Copy, Debug)]
pub enum Verb {
    Types,
    Put,
    Remove,
    Ask,
    AskAll,
    Glance,
}

/// Returns the call that a value names in its member `call`, or `None` exactly if it names none.
pub(crate) fn find_verb(value: &Value) -> Option<Verb>
    ensures found { IfSome result (Calls (data_of value.now)) }
    ensures none { IfNone result ((verb : Verb) → ¬ Calls (data_of value.now) verb) }
{
    match find_word(value, "call")? {
        "types" => Some(Verb::Types),
        "put" => Some(Verb::Put),
        "remove" => Some(Verb::Remove),
        "ask" => Some(Verb::Ask),
        "askall" => Some(Verb::AskAll),
        "glance" => Some(Verb::Glance),
        _ => None,
    }
}
