//! Reading requests.
ghost use Rattle.std.specs.Prelude.{◌≡◌, true, IfOk, IfErr, List, ℕ};
ghost use Rattle.serde_json.specs.View.{view as data_of};
ghost use Rattle.cli_requests.specs.declared.verb.Verb.{Verb};
ghost use Rattle.cli_requests.specs.Asking.{AsksFor, Calls, HasName, HasText};
ghost use Rattle.cli_requests.specs.Faults.{Stops, IsWrong, IsRightUpToText, takes_name};
ghost use Rattle.cli_requests.specs.Requests.{IsRequest};
ghost use Rattle.cli_requests.specs.Destinations.{IsParsed};

use crate::destination::ParsedLine;
use crate::fault::{RequestFault, RequestStop};
use crate::id::Id;
use crate::member::{find_name, find_word};
use crate::request::{Request, Wanted};
use crate::text::{read_body, read_declarations};
use crate::verb::{Verb, find_verb};
use bc_calls::Call;
use bc_names::Name;
use serde_json::Value;
use std::alloc::{AllocError, Global};

/// Returns the name in a request for this call, which needs one.
fn read_name(value: &Value, verb: Verb) -> Result<Name, RequestStop>
    requires calls { Calls (data_of value.now) verb }
    requires named { takes_name verb ≡ true }
    ensures read { IfOk result (HasName (data_of value.now)) }
    ensures unread { IfErr result (Stops (IsWrong (data_of value.now))) }
{
    match find_name(value) {
        Some(name) => Ok(name),
        None => Err(RequestStop::Fault(RequestFault::BadName)),
    }
}

/// Returns the text in a request for this call, which needs one.
fn read_text<'a>(value: &'a Value, verb: Verb) -> Result<&'a [u8], RequestStop>
    requires { IsRightUpToText (data_of value.now) verb }
    ensures read { IfOk result (λ text. HasText (data_of value.now) text.now) }
    ensures unread { IfErr result (Stops (IsWrong (data_of value.now))) }
{
    match find_word(value, "text") {
        Some(text) => Ok(text.as_bytes()),
        None => Err(RequestStop::Fault(RequestFault::BadText)),
    }
}

/// Returns what a request with the call `types` asks for.
fn read_types_call(alloc: Global, value: &Value) -> Result<Wanted, RequestStop>
    requires { Calls (data_of value.now) Verb.Types }
    ensures read { IfOk result (AsksFor (data_of value.now)) }
    ensures unread { IfErr result (Stops (IsWrong (data_of value.now))) }
{
    let text = match read_text(value, Verb::Types) {
        Ok(text) => text,
        Err(stop) => return Err(stop),
    };
    match read_declarations(alloc, text) {
        Ok(types) => Ok(Wanted::Call(Call::Types(types))),
        Err(stop) => Err(stop),
    }
}

/// Returns what a request with the call `put` asks for.
#[tactic(auto, using(crate::proofs::Texts::bad_body))]
fn read_put(alloc: Global, value: &Value) -> Result<Wanted, RequestStop>
    requires { Calls (data_of value.now) Verb.Put }
    ensures read { IfOk result (AsksFor (data_of value.now)) }
    ensures unread { IfErr result (Stops (IsWrong (data_of value.now))) }
{
    let name = match read_name(value, Verb::Put) {
        Ok(name) => name,
        Err(stop) => return Err(stop),
    };
    let text = match read_text(value, Verb::Put) {
        Ok(text) => text,
        Err(stop) => return Err(stop),
    };
    match read_body(alloc, text) {
        Ok(unit) => Ok(Wanted::Call(Call::Put(name, unit))),
        Err(stop) => Err(stop),
    }
}

/// Returns what a value asks for.
fn read_wanted(alloc: Global, value: &Value) -> Result<Wanted, RequestStop>
    ensures read { IfOk result (AsksFor (data_of value.now)) }
    ensures unread { IfErr result (Stops (IsWrong (data_of value.now))) }
{
    match find_verb(value) {
        Some(Verb::Types) => read_types_call(alloc, value),
        Some(Verb::Put) => read_put(alloc, value),
        Some(Verb::Remove) => match read_name(value, Verb::Remove) {
            Ok(name) => Ok(Wanted::Call(Call::Remove(name))),
            Err(stop) => Err(stop),
        },
        Some(Verb::Ask) => match read_name(value, Verb::Ask) {
            Ok(name) => Ok(Wanted::Call(Call::Ask(name))),
            Err(stop) => Err(stop),
        },
        Some(Verb::AskAll) => Ok(Wanted::Call(Call::All)),
        Some(Verb::Glance) => match read_name(value, Verb::Glance) {
            Ok(name) => Ok(Wanted::Glance(name)),
            Err(stop) => Err(stop),
        },
        None => Err(RequestStop::Fault(RequestFault::BadCall)),
    }
}

/// Returns the request of a line that was parsed. It is `Bad` at the first of these that is wrong: `call`, `name`, `text`. Members that the
/// call does not need are ignored.
#[tactic(auto, using(crate::proofs::Readings::good_request, crate::proofs::Readings::wrong_request))]
pub fn read_request(alloc: Global, line: &ParsedLine) -> Result<Request, AllocError>
    ensures reading { (sessions : ℕ) (bytes : List ℕ) → IsParsed sessions bytes line.now → IfOk result (IsRequest sessions bytes) }
{
    let id = Id::of(&line.value)?;
    match read_wanted(alloc, &line.value) {
        Ok(wanted) => Ok(Request::Good(id, line.session, wanted)),
        Err(RequestStop::Fault(fault)) => Ok(Request::Bad(id, Some(line.session), fault)),
        Err(RequestStop::NoMemory) => Err(AllocError),
    }
}
