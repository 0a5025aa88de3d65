//! The members of a request.
ghost use Rattle.std.specs.Prelude.{◌≡◌, codes, true, IfOk, IfErr, IfSome, IfNone, option_map};
ghost use Rattle.serde_json.specs.View.{view as data_of};
ghost use Rattle.bc_names.specs.Names.{NameParts};
ghost use Rattle.cli_requests.specs.Asking.{HasName, word};

use bc_names::Name;
use serde_json::Value;

/// Returns the member of this name, if it is a string.
pub(crate) fn find_word<'a>(value: &'a Value, key: &str) -> Option<&'a str>
    ensures { option_map (λ text. text.now) result ≡ word key.now (data_of value.now) }
{
    value.get(key).and_then(Value::as_str)
}

/// Returns the name in the member `name`, or `None` exactly if the member is no string or no name.
pub(crate) fn find_name(value: &Value) -> Option<Name>
    ensures found { IfSome result (HasName (data_of value.now)) }
    ensures none { IfNone result ((name : NameParts) → ¬ HasName (data_of value.now) name) }
{
    Name::read(find_word(value, "name")?.as_bytes())
}
