//! The router, which numbers the lines of each session.
ghost use Rattle.std.specs.Prelude.{◌≡◌, ◌≤◌, ◌<◌, IfOk, List, OnOk, length, option_map, ℕ};
ghost use Rattle.cli_input.specs.Lines.{ReadsNext, lines_of};
ghost use Rattle.cli_requests.specs.declared.request.TheConstants.{MOST_REQUEST_BYTES};
ghost use Rattle.cli_talk.specs.Wires.{Takes};
ghost use Rattle.cli_talk.specs.Turns.{IsWholeLine, wrong_answer};
ghost use Rattle.cli_talk.specs.Counted.{CountsSoFar, CountsWith};
ghost use Rattle.cli_talk.specs.Routed.{Routes};

use crate::answer::{Response, whole_line};
use crate::fault::TalkFault;
use crate::message::{Message, Talk};
use crate::replies::Replies;
use cli_answers::Answer;
use cli_input::{InputLine, read_input_line};
use cli_requests::{Destination, Id, MOST_REQUEST_BYTES, RequestFault, find_destination};
use std::alloc::Global;
use std::io::{BufRead, ErrorKind};

/// What the router did with the next line of an input.
#[derive(Drop)]
pub enum RoutedLine<M> {
    /// There is none: no line is left.
    End,
    /// The line names no session, and was answered what is wrong with it.
    Told,
    /// The line names a session. This is the message for the worker of the session.
    Sent(M),
}

/// Returns the next line of an input, or `None` if none is left.
fn next_line<I: BufRead>(alloc: Global, input: &mut I) -> Result<Option<InputLine>, TalkFault>
    ensures { IfOk result (λ line. ReadsNext MOST_REQUEST_BYTES (I.remaining input.old) (I.remaining input.new) line) }
{
    match read_input_line(alloc, input, MOST_REQUEST_BYTES) {
        Ok(line) => Ok(line),
        Err(fault) => match fault.kind() {
            ErrorKind::OutOfMemory => Err(TalkFault::NoMemory),
            _ => Err(TalkFault::CannotRead),
        },
    }
}

/// Writes the line of an answer.
fn give<P: Replies>(alloc: Global, answered: &Response, replies: &mut P) -> Result<(), TalkFault>
    ensures { OnOk result ((text : List ℕ) × IsWholeLine answered.now text × Takes (P.given replies.old) (P.given replies.new) text) }
{
    let Ok(text) = whole_line(alloc, answered) else {
        return Err(TalkFault::NoMemory);
    };
    match replies.reply(text.as_str()) {
        Ok(()) => Ok(()),
        Err(_) => Err(TalkFault::CannotWrite),
    }
}

/// Answers what is wrong with a line of this id, which names no session.
fn tell<P: Replies>(
    alloc: Global,
    id: Id,
    fault: RequestFault,
    replies: &mut P,
) -> Result<(), TalkFault>
    ensures { OnOk result ((text : List ℕ) × IsWholeLine (wrong_answer id fault) text × Takes (P.given replies.old) (P.given replies.new) text) }
{
    let answered = Response {
        id,
        session: None,
        answer: Answer::Wrong(fault),
    };
    give(alloc, &answered, replies)
}

/// Reads the next line of an input, of at most `MOST_REQUEST_BYTES` bytes. If the line names a session, it returns `Sent` with the message
/// for the worker of that session: the line, parsed as JSON, and its number among the lines that name the session. If it names none, it
/// answers what is wrong with the line, and returns `Told`. It returns `End` if no line is left. Nothing after the line is waited for.
/// `counts` has the number of earlier lines of each session: it is what `no_counts` returned, as the calls since then left it.
///
/// Returns `CannotRead` if the input fails, `NoMemory` if there is no room for the line, parsed, or for its answer, and `CannotWrite` if
/// the answer cannot be written.
pub fn route_line<L: Talk + Drop, I: BufRead, P: Replies>(
    alloc: Global,
    input: &mut I,
    sessions: u8,
    replies: &mut P,
    counts: &mut Vec<u64>,
) -> Result<RoutedLine<Message<L>>, TalkFault>
    requires sessions { sessions ≡ L.sessions }
    requires sized { length counts.old.items ≡ sessions }
    requires counted { CountsSoFar sessions counts.old.items L.lines (I.remaining input.old) }
    ensures sized { length counts.new.items ≡ sessions }
    ensures counted { IfOk result (CountsWith sessions counts.new.items L.lines (I.remaining input.new)) }
    ensures routed { Routes (λ m. m.line) sessions result I.remaining input.old input.new P.given replies.old replies.new }
{
    let line = match next_line(alloc, input) {
        Ok(Some(line)) => line,
        Ok(None) => return Ok(RoutedLine::End),
        Err(fault) => return Err(fault),
    };
    let Ok(destination) = find_destination(alloc, &line, sessions) else {
        return Err(TalkFault::NoMemory);
    };
    let parsed = match destination {
        Destination::Session(parsed) => parsed,
        Destination::Nowhere(id, fault) => {
            tell(alloc, id, fault, replies)?;
            return Ok(RoutedLine::Told);
        }
    };
    let place = usize::from(parsed.session());
    let number = counts[place];
    if number == u64::MAX {
        return Err(TalkFault::OutOfTurn);
    }
    let message = Message::new(number, parsed);
    counts[place] = number + 1;
    Ok(RoutedLine::Sent(message))
}

/// Returns the counts of lines before any line is read: 0 for each session. Fails only with `NoMemory`.
pub fn no_counts<L: Talk + Drop, I: BufRead>(
    alloc: Global,
    _input: &I,
    sessions: u8,
) -> Result<Vec<u64>, TalkFault>
    requires lines { L.lines ≡ option_map lines_of (I.remaining _input.now) }
    ensures sized { IfOk result (λ counts. length counts.items ≡ sessions) }
    ensures counted { IfOk result (λ counts. CountsSoFar sessions counts.items L.lines (I.remaining _input.now)) }
{
    match vec![in alloc; 0u64; usize::from(sessions)] {
        Ok(counts) => Ok(counts),
        Err(_) => Err(TalkFault::NoMemory),
    }
}
