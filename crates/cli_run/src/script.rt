//! The scripts of sessions.
ghost use Rattle.std.specs.Prelude.{◌≡◌, ◌++◌, IfOk, OnOk};
ghost use Rattle.cli_run.specs.Calls.{calls_for, own_call, scripts};

use crate::file::SessionCall;
use bc_calls::Call;
use bc_scripts::Script;
use std::alloc::{AllocError, Global};

/// Returns a copy of a call, which shares the declarations or the unit.
fn copy_of(call: &Call) -> Result<Call, AllocError>
    ensures { IfOk result (λ copy. copy ≡ call.now) }
{
    match call {
        Call::Types(types) => Ok(Call::Types(types.clone()?)),
        Call::Put(name, unit) => Ok(Call::Put(*name, unit.clone()?)),
        Call::Remove(name) => Ok(Call::Remove(*name)),
        Call::Ask(name) => Ok(Call::Ask(*name)),
        Call::All => Ok(Call::All),
    }
}

/// Appends a call to a session's own if it is the session's.
fn push_own(own: &mut Vec<Call>, given: &SessionCall, session: u8) -> Result<(), AllocError>
    ensures { OnOk result (own.new.items ≡ own.old.items ++ own_call session given.now) }
{
    if given.session == session {
        own.push(copy_of(&given.call)?)?;
    }
    Ok(())
}

/// Returns the script of a session: its calls, in order.
fn script_of(alloc: Global, calls: &[SessionCall], session: u8) -> Result<Script, AllocError>
    ensures { IfOk result (λ script. script ≡ calls_for session calls.now) }
{
    let mut own = Vec::new(alloc);
    for given in calls {
        push_own(&mut own, given, session)?;
    }
    Ok(Script::new(own))
}

/// Returns the scripts of the given number of sessions, in order.
pub fn scripts_of(
    alloc: Global,
    calls: &[SessionCall],
    sessions: u8,
) -> Result<Vec<Script>, AllocError>
    ensures { IfOk result (λ list. list.items ≡ scripts sessions calls.now) }
{
    let mut list = Vec::new(alloc);
    for session in 0..sessions {
        list.push(script_of(alloc, calls, session)?)?;
    }
    Ok(list)
}
