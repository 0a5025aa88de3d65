//! Answers to requests.
ghost use Rattle.std.specs.Prelude.{◌≡◌, IfOk, OnErr, length, string_bytes};
ghost use Rattle.bc_calls.specs.Calls.{call_of};
ghost use Rattle.bc_calls.specs.declared.call.Event.{Event};
ghost use Rattle.bc_book.specs.Operations.{IsCallOf};
ghost use Rattle.bc_share.specs.Sessions.{IsAnswered, IsSame};
ghost use Rattle.cli_talk.specs.Turns.{IsAnswerTo, IsReplyTo, IsWholeLine};

use bc_book::{Operation, Refusal};
use bc_calls::{Call, checked};
use bc_prov::Providers;
use bc_share::{MadeCall, Session, work_all};
use bc_versions::Ending;
use cli_answers::{Answer, answer_line};
use cli_requests::{Id, Request, Wanted};
use std::alloc::{AllocError, Global};
use std::sync::Wait;

/// The answer to a request, with the id and the session that its line repeats.
pub(crate) struct Response {
    pub id: Id,
    pub session: Option<u8>,
    pub answer: Answer,
}

// Handwritten, so that it is proved once.
impl Drop for Response {
    fn drop(self) {
        let Self {
            id: _,
            session: _,
            answer: _,
        } = self;
    }
}

/// Prepares a call for a session: checks declarations, and works on what is asked for, with no lock held. It is no call yet: the session's
/// own list stays as it is. Returns `AllocError` only if memory or the reading was refused, as a provider may report too.
fn prepare<'a, E: Ending>(
    alloc: Global,
    session: &mut Session<E>,
    call: Call,
    providers: &'a Providers,
) -> Result<Operation<&'a Providers>, AllocError>
    ensures prepared { IfOk result (λ operation. (event : Event) → IsCallOf operation event → call_of event ≡ call) }
    ensures kept { IsSame session.old session.new }
{
    match call {
        Call::Types(types) => Ok(Operation::Types(checked(alloc, types)?)),
        Call::Put(name, unit) => Ok(Operation::Put(name, unit)),
        Call::Remove(name) => Ok(Operation::Remove(name)),
        Call::Ask(name) => {
            let begun = session.begin(&name)?;
            let work = begun.work(alloc, providers)?;
            Ok(Operation::Settle(work, providers))
        }
        Call::All => {
            let begun = session.begin_all()?;
            let works = work_all(alloc, begun, providers)?;
            Ok(Operation::All(works, providers))
        }
    }
}

/// Makes a call. Fails as `Session::make` does, and with `NoMemory` if the call cannot be prepared.
fn make<R: AllocGlobal + Wait, E: Ending>(
    rt: &R,
    session: &mut Session<E>,
    call: Call,
    providers: &Providers,
) -> Result<MadeCall<()>, Refusal>
    ensures made { IfOk result (λ made. (call_of made.event ≡ call) × IsAnswered made.event session.old session.new) }
    ensures number { IfOk result (λ made. made.number ≡ length session.old.own) }
    ensures refused { OnErr result (IsSame session.old session.new) }
{
    let operation = prepare(rt.alloc(), session, call, providers)?;
    session.make(rt, operation)
}

/// Does what is asked of a session, and returns the answer.
fn answer_wanted<R: AllocGlobal + Wait, E: Ending>(
    rt: &R,
    session: &mut Session<E>,
    wanted: Wanted,
    providers: &Providers,
) -> Answer
    ensures { IsAnswerTo wanted result session.old session.new }
{
    match wanted {
        Wanted::Call(call) => match make(rt, session, call, providers) {
            Ok(made) => Answer::Entered {
                number: made.number,
                event: made.event,
            },
            Err(refusal) => Answer::Refused(refusal),
        },
        Wanted::Glance(name) => match session.glance(&name) {
            Ok(found) => Answer::Glanced(found),
            Err(_) => Answer::Refused(Refusal::NoMemory),
        },
    }
}

/// Returns the answer to a request: does what is asked of the session, or says what is wrong with the request.
pub(crate) fn answer_request<R: AllocGlobal + Wait, E: Ending>(
    rt: &R,
    session: &mut Session<E>,
    request: Request,
    providers: &Providers,
) -> Response
    ensures { IsReplyTo request result session.old session.new }
{
    match request {
        Request::Good(id, number, wanted) => Response {
            id,
            session: Some(number),
            answer: answer_wanted(rt, session, wanted, providers),
        },
        Request::Bad(id, session, fault) => Response {
            id,
            session,
            answer: Answer::Wrong(fault),
        },
    }
}

/// Returns the line of an answer, with its line feed.
pub(crate) fn whole_line(alloc: Global, answered: &Response) -> Result<String, AllocError>
    ensures { IfOk result (λ line. IsWholeLine answered.now (string_bytes line)) }
{
    let mut line = answer_line(alloc, &answered.id, answered.session, &answered.answer)?;
    line.push('\n')?;
    Ok(line)
}
