//! Whether a history agrees with the own lists of its sessions.
ghost use Rattle.std.specs.Prelude.{◌≡◌, ◌≢◌, ◌↔◌, ◌<◌, ◌∷◌, All, IsTrue, MatchOption, ℕ};
ghost use Rattle.std.specs.List.{Contains};
ghost use Rattle.bc_calls.specs.Calls.{calls};
ghost use Rattle.bc_share.specs.Closings.{Agrees, AreSessionsOf, numbers};

use crate::session::Session;
use bc_calls::{Entry, Event};
use bc_versions::Ending;

/// Returns the events after this one, if it is the first.
fn after_first<'a>(events: &'a [Event], event: &Event) -> Option<&'a [Event]>
    ensures { MatchOption result ((tail : _) → events.now ≢ event.now ∷ tail) (λ tail. events.now ≡ event.now ∷ tail.now) }
{
    let (first, tail) = events.split_first()?;
    if first.is(event) { Some(tail) } else { None }
}

/// Returns whether these are exactly a session's events in a history.
pub(crate) fn is_own(own: &[Event], number: u8, entries: &[Entry]) -> bool
    ensures { IsTrue result ↔ (own.now ≡ calls number entries.now) }
{
    let mut rest = own;
    for entry in entries {
        if entry.session == number {
            let Some(tail) = after_first(rest, &entry.event) else {
                return false;
            };
            rest = tail;
        }
    }
    rest.is_empty()
}

/// Returns whether one of the sessions has this number.
fn has_number<E: Ending>(sessions: &[Session<E>], number: u8) -> bool
    ensures { IsTrue result ↔ Contains (numbers sessions.now) number }
{
    for session in sessions {
        if session.number() == number {
            return true;
        }
    }
    false
}

/// Returns whether each number below `count` is a session's.
fn have_numbers<E: Ending>(sessions: &[Session<E>], count: u8) -> bool
    ensures { IsTrue result ↔ ((number : ℕ) → number < count → Contains (numbers sessions.now) number) }
{
    for number in 0..count {
        if !has_number(sessions, number) {
            return false;
        }
    }
    true
}

/// Returns whether all sessions have this tag.
fn have_tag<E: Ending>(sessions: &[Session<E>], tag: u64) -> bool
    ensures { IsTrue result ↔ All (λ s. s.tag ≡ tag) sessions.now }
{
    sessions.iter().all(|session| session.tag() == tag)
}

/// Returns whether these are the `count` sessions of the database with this tag, each once.
pub(crate) fn are_sessions<E: Ending>(tag: u64, count: u8, sessions: &[Session<E>]) -> bool
    ensures { IsTrue result ↔ AreSessionsOf tag count sessions.now }
{
    sessions.len() == usize::from(count) && have_tag(sessions, tag) && have_numbers(sessions, count)
}

/// Returns whether each session's own list is exactly its events in a history.
fn each_agrees<E: Ending>(sessions: &[Session<E>], entries: &[Entry]) -> bool
    ensures { IsTrue result ↔ All (λ s. s.own ≡ calls s.number entries.now) sessions.now }
{
    sessions.iter().all(|session| session.agrees(entries))
}

/// Returns whether each entry of a history belongs to one of the sessions.
fn each_is_theirs<E: Ending>(sessions: &[Session<E>], entries: &[Entry]) -> bool
    ensures { IsTrue result ↔ All (λ e. Contains (numbers sessions.now) e.session) entries.now }
{
    for entry in entries {
        if !has_number(sessions, entry.session) {
            return false;
        }
    }
    true
}

/// Returns whether a history agrees with these sessions: each one's own list is exactly its events there, and each entry belongs to one of
/// them.
pub(crate) fn agree<E: Ending>(sessions: &[Session<E>], entries: &[Entry]) -> bool
    ensures { IsTrue result ↔ Agrees sessions.now entries.now }
{
    each_agrees(sessions, entries) && each_is_theirs(sessions, entries)
}
