//! The two owners of an event: one for its session's list, one for its caller.
ghost use Rattle.std.specs.Prelude.{◌≡◌, IfOk};

use crate::call::Event;
use std::alloc::AllocError;
use std::marker::Model;

/// Two owners of an event: one for the list of the session that made the call, and one for the session's caller. A contract sees one event,
/// since the type guarantees that both are the same.
#[derive(Drop)]
pub struct EventOwners {
    listed: Event,
    answered: Event,
}

impl Model for EventOwners {
    ghost use Rattle.std.specs.Prelude.{◌≡◌};
    ghost use Rattle.bc_calls.specs.declared.call.Event.{Event};

    ghost Value = { Event };

    ghost view = { λ t. t.listed };

    ghost invariant = { λ t. t.answered ≡ t.listed };
}

impl EventOwners {
    /// Makes two more owners of an event.
    pub fn of(event: &Event) -> Result<EventOwners, AllocError>
        ensures { IfOk result (λ owners. owners ≡ event.now) }
    {
        let listed = event.copy()?;
        let answered = event.copy()?;
        Ok(EventOwners { listed, answered })
    }

    /// Returns both owners of the event: for the session's list, and for its caller.
    pub fn into_owners(self) -> (Event, Event)
        ensures listed { result.0 ≡ self }
        ensures answered { result.1 ≡ self }
    {
        (self.listed, self.answered)
    }
}
