//! The worker of a session.
ghost use Rattle.std.specs.Prelude.{◌≡◌, ◌||◌, IfOk, IsErrOf, OnErr, List, false, ℕ};
ghost use Rattle.cli_requests.specs.Destinations.{IsParsed};
ghost use Rattle.cli_talk.specs.Wires.{Takes};
ghost use Rattle.cli_talk.specs.Turns.{IsGiven, IsStill, StopsIn};
ghost use Rattle.cli_talk.specs.Talks.{HasAnswered, HasStopped};
ghost use Rattle.cli_talk.specs.Posts.{AnswersLine, LosesSome};

use crate::answer::{Response, answer_request, whole_line};
use crate::fault::TalkFault;
use crate::lost::{tell_unread, tell_untold};
use crate::message::{Messages, Talk};
use crate::replies::{Closed, Replies};
use bc_prov::Providers;
use bc_share::Session;
use bc_versions::Ending;
use cli_requests::{ParsedLine, read_request};
use std::alloc::Global;
use std::sync::Wait;

/// Writes the line of an answer of the session of this number, or reports that there is no memory for it. Returns whether the answer is
/// lost.
fn give_or_tell<P: Replies>(
    alloc: Global,
    number: u8,
    answered: &Response,
    replies: &mut P,
) -> Result<bool, Closed>
    ensures { IfOk result (λ lossy. (text : List ℕ) × IsGiven number lossy answered.now text × Takes (P.given replies.old) (P.given replies.new) text) }
{
    let Ok(text) = whole_line(alloc, answered) else {
        return match tell_untold(number, replies) {
            Ok(()) => Ok(true),
            Err(closed) => Err(closed),
        };
    };
    match replies.reply(text.as_str()) {
        Ok(()) => Ok(false),
        Err(closed) => Err(closed),
    }
}

/// What a worker is set up with: the providers, and the number of its session.
#[derive(Drop)]
pub struct Post<'a> {
    pub providers: &'a Providers,
    pub number: u8,
}

/// Answers a line of a worker's session, or reports that there is no memory for that. Returns whether an answer is lost.
fn serve_line<R: AllocGlobal + Wait, E: Ending, P: Replies>(
    rt: &R,
    post: &Post<'_>,
    line: &ParsedLine,
    session: &mut Session<E>,
    replies: &mut P,
) -> Result<bool, Closed>
    ensures answered { (sessions : ℕ) (bytes : List ℕ) → IsParsed sessions bytes line.now →
        IfOk result (λ lossy. AnswersLine sessions post.now.number lossy bytes session.old session.new (P.given replies.old) (P.given replies.new)) }
    ensures stopped { (sessions : ℕ) (bytes : List ℕ) → IsParsed sessions bytes line.now →
        OnErr result (StopsIn sessions bytes session.old session.new) }
{
    let alloc = rt.alloc();
    let Ok(request) = read_request(alloc, line) else {
        return match tell_unread(post.number, replies) {
            Ok(()) => Ok(false),
            Err(closed) => Err(closed),
        };
    };
    let answered = answer_request(rt, session, request, post.providers);
    match give_or_tell(alloc, post.number, &answered, replies) {
        Ok(lossy) => Ok(lossy),
        Err(closed) => Err(closed),
    }
}

/// Returns whether an answer is lost, before or now.
fn is_either(before: bool, now: bool) -> bool
    ensures { result ≡ (before || now) }
{
    before || now
}

/// Answers the messages for a worker's session, one line each, until no more come, and returns their number. Each line is answered before
/// the next message is taken: its call is made, or what is wrong with it is reported. A call that is refused is answered too. If there is
/// no memory to read a line, nothing is done for it, and its answer says so. If there is none for an answer, another line says that.
///
/// Returns `NoMemory` if an answer was lost; each message was answered by one line even then. Returns `OutOfTurn` at a message that is not
/// the next of its session, and `CannotWrite` if a line cannot be written. The lines before were answered then, except for lost answers,
/// and at most one more call was made, without a line.
pub fn serve_messages<L, M, R, E, P>(
    rt: &R,
    post: &Post<'_>,
    messages: &mut M,
    session: &mut Session<E>,
    replies: &mut P,
) -> Result<u64, TalkFault>
where
    L: Talk + Drop,
    M: Messages<L>,
    R: AllocGlobal + Wait,
    E: Ending,
    P: Replies,
    ensures answered { IfOk result (λ count. HasAnswered L.sessions post.now.number count false L.lines
        session.old session.new (P.given replies.old) (P.given replies.new)) }
    ensures lossy { IsErrOf result TalkFault.NoMemory → LosesSome L.sessions post.now.number L.lines
        session.old session.new (P.given replies.old) (P.given replies.new) }
    ensures stopped { OnErr result (HasStopped L.sessions post.now.number L.lines session.old session.new) }
    ensures still { IsStill session.old session.new }
{
    let mut lossy = false;
    'messages: for next in 0..u64::MAX {
        let Some(message) = messages.next() else {
            if lossy {
                return Err(TalkFault::NoMemory);
            }
            return Ok(next);
        };
        let (number, line) = (message.number(), message.line());
        let named = line.session();
        if named != post.number || number != next {
            return Err(TalkFault::OutOfTurn);
        }
        match serve_line(rt, post, line, session, replies) {
            Ok(lost) => lossy = is_either(lossy, lost),
            Err(_) => return Err(TalkFault::CannotWrite),
        }
    }
    Err(TalkFault::OutOfTurn)
}
