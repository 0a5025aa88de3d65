//! The texts of declarations and units.
ghost use Rattle.std.specs.Prelude.{◌≡◌, Ok, IfOk, IfErr};
ghost use Rattle.bc_text.specs.Reading.{read, read_types};
ghost use Rattle.cli_requests.specs.declared.verb.Verb.{Verb};
ghost use Rattle.cli_requests.specs.Faults.{Stops, IsTextFault, Tells, text_fault};

use crate::fault::{RequestFault, RequestStop, TextFault, TextFaultKind};
use bc_position::position_of;
use bc_prov::{Shared, share};
use bc_syntax::{Types, Unit};
use bc_text::{ReadFault, read_types, read_unit};
use std::alloc::Global;

/// Returns the fault of this kind at the byte `at` of a text.
fn text_fault(kind: TextFaultKind, text: &[u8], at: usize) -> RequestStop
    ensures { result ≡ RequestStop.Fault (text_fault kind text.now at) }
{
    let position = position_of(text, at);
    RequestStop::Fault(RequestFault::Text(TextFault { kind, at, position }))
}

/// Returns the stop of a request whose text cannot be read for this cause.
fn stop_of(text: &[u8], cause: ReadFault) -> RequestStop
    ensures { Stops (Tells text.now cause) result }
{
    match cause {
        ReadFault::TooLong => RequestStop::Fault(RequestFault::TooLong),
        ReadFault::NotAscii { at } => text_fault(TextFaultKind::NotAscii, text, at),
        ReadFault::Token { at } => text_fault(TextFaultKind::Token, text, at),
        ReadFault::Grammar { at } => text_fault(TextFaultKind::Grammar, text, at),
        ReadFault::Limit { at } => text_fault(TextFaultKind::Limit, text, at),
        ReadFault::NoMemory => RequestStop::NoMemory,
    }
}

/// Returns the declarations that a text spells, or its fault.
pub(crate) fn read_declarations(alloc: Global, text: &[u8]) -> Result<Shared<Types>, RequestStop>
    ensures read { IfOk result (λ types. read_types text.now ≡ Ok types) }
    ensures unread { IfErr result (Stops (IsTextFault Verb.Types text.now)) }
{
    match read_types(alloc, text) {
        Ok(types) => match share(alloc, types) {
            Ok(types) => Ok(types),
            Err(_) => Err(RequestStop::NoMemory),
        },
        Err(cause) => Err(stop_of(text, cause)),
    }
}

/// Returns the unit that a text spells, or its fault.
pub(crate) fn read_body(alloc: Global, text: &[u8]) -> Result<Shared<Unit>, RequestStop>
    ensures read { IfOk result (λ unit. read text.now ≡ Ok unit) }
    ensures unread { IfErr result (Stops (IsTextFault Verb.Put text.now)) }
{
    match read_unit(alloc, text) {
        Ok(unit) => match share(alloc, unit) {
            Ok(unit) => Ok(unit),
            Err(_) => Err(RequestStop::NoMemory),
        },
        Err(cause) => Err(stop_of(text, cause)),
    }
}
