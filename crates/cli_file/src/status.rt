//! The statuses of calls.
ghost use Rattle.std.specs.Prelude.{◌≡◌, ◌≤◌};
ghost use Rattle.cli_file.specs.Statuses.{put_status, are_clean, outcome_status, rows_status, event_status};

use bc_calls::{Event, PutReply};
use bc_names::Name;
use bc_prov::{BodyErrors, Outcome, Shared};

/// Returns the status of a put with this reply: 2 if nothing was stored, otherwise 0.
pub fn put_status(reply: PutReply) -> u8
    ensures value { result ≡ put_status reply }
    ensures range { result ≤ 2 }
{
    match reply {
        PutReply::Added | PutReply::Replaced => 0,
        PutReply::Full | PutReply::WrongKind => 2,
    }
}

/// Returns whether no body has an error.
fn are_clean(bodies: &[BodyErrors]) -> bool
    ensures { result ≡ are_clean bodies.now }
{
    bodies.iter().all(|body| body.errors.get().len() == 0)
}

/// Returns the status of an ask with this outcome: 0, 1 for a report with an error, or 2 for no report.
pub fn outcome_status(outcome: &Outcome) -> u8
    ensures value { result ≡ outcome_status outcome.now }
    ensures range { result ≤ 2 }
{
    match outcome {
        Outcome::NoBody | Outcome::Missing(_) | Outcome::BadTypes(_) | Outcome::Ill(_, _) => 2,
        Outcome::Report(bodies) => { if are_clean(bodies.as_slice()) { 0 } else { 1 } }
    }
}

/// Returns the greatest status of the outcomes of some names.
fn rows_status(rows: &[(Name, Shared<Outcome>)]) -> u8
    ensures value { result ≡ rows_status rows.now }
    ensures range { result ≤ 2 }
{
    let mut status: u8 = 0;
    for row in rows {
        status = status.max(outcome_status(row.1.get()));
    }
    status
}

/// Returns the status of a call by its reply: 0; 1 for a report with an error; 2 for a put that stored nothing, and for an ask that found
/// no report. An ask for all has the greatest status of its outcomes.
pub fn event_status(event: &Event) -> u8
    ensures value { result ≡ event_status event.now }
    ensures range { result ≤ 2 }
{
    match event {
        Event::Types(_) | Event::Remove(_, _) => 0,
        Event::Put(_, _, reply) => put_status(*reply),
        Event::Ask(_, outcome) => outcome_status(outcome.get()),
        Event::All(listing) => rows_status(listing.get().as_slice()),
    }
}
