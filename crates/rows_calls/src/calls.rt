//! What rows make sessions do.
use crate::answers::{Answer, counted, line, listed, report};
use crate::cases::{Case, session_at};
use crate::rows::{Context, halves};
use anyhow::{Result, bail};
use bc_calls::{Call, PutReply, RemoveReply, Work};
use bc_names::Name;
use bc_prov::Shared;
use bc_share::{Session, work_all};
use bc_versions::Ending;
use std::mem;
use std::sync::Wait;
use test_fixtures::{name, shared_types, shared_unit};

impl Context<'_> {
    /// Returns the put that a name and the name of a text spell.
    fn put_of(&self, row: &str) -> Result<Call> {
        let (at, text) = halves(row);
        let at = name(at.as_bytes())?;
        let unit = shared_unit(self.alloc, self.text(text)?.as_bytes())?;
        Ok(Call::Put(at, Shared::new(unit)))
    }

    /// Returns the call that stores the declarations of a named text.
    fn types_of(&self, text: &str) -> Result<Call> {
        let types = shared_types(self.alloc, self.text(text)?.as_bytes())?;
        Ok(Call::Types(Shared::new(types)))
    }

    /// Returns the call that a row spells. Fails if it spells none.
    pub fn call(&self, row: &str) -> Result<Call> {
        let (verb, rest) = halves(row);
        match verb {
            "put" => self.put_of(rest),
            "types" => self.types_of(rest),
            "remove" => Ok(Call::Remove(name(rest.as_bytes())?)),
            "ask" => Ok(Call::Ask(name(rest.as_bytes())?)),
            "askall" => Ok(Call::All),
            _ => bail!("no session does this"),
        }
    }

    /// Returns the report that a session sees published for a name.
    fn glance<E: Ending>(&self, session: &mut Session<E>, at: &Name) -> Answer {
        match session.glance(at)? {
            Some(outcome) => report(self.alloc, &outcome),
            None => line(self.alloc, "no answer"),
        }
    }

    /// Begins an ask of a name, finds its outcome, and returns the number of pieces that were made for it.
    fn make<E: Ending>(&self, session: &mut Session<E>, at: &Name) -> Answer {
        let begun = session.begin(at)?;
        let found = begun.find(self.alloc, self.providers)?;
        let made = match &found.pieces {
            Some(set) => set.rows().len(),
            None => 0,
        };
        counted(self.alloc, made, "made")
    }

    /// Begins an ask of a name, works on it, and returns the report.
    fn work<E: Ending>(
        &self,
        session: &mut Session<E>,
        works: &mut Vec<Work>,
        at: &Name,
    ) -> Answer {
        let begun = session.begin(at)?;
        let work = begun.work(self.alloc, self.providers)?;
        let answer = report(self.alloc, work.outcome())?;
        works.push(work)?;
        Ok(answer)
    }

    /// Begins an ask of each root, and works on it.
    fn work_on_all<E: Ending>(&self, session: &mut Session<E>, works: &mut Vec<Work>) -> Answer {
        let begun = session.begin_all()?;
        works.append(&mut work_all(self.alloc, begun, self.providers)?)?;
        Ok(Vec::new(self.alloc))
    }

    /// Has a session make a call, and returns its answer.
    fn make_call<R: Wait, E: Ending>(
        &self,
        rt: &R,
        session: &mut Session<E>,
        call: Call,
    ) -> Answer {
        let alloc = self.alloc;
        match call {
            Call::Types(types) => {
                session.put_types(rt, types.into_arc())?;
                line(alloc, "stored")
            }
            Call::Put(name, unit) => {
                line(alloc, put_word(session.put(rt, name, unit.into_arc())?))
            }
            Call::Remove(name) => line(alloc, remove_word(session.remove(rt, name)?)),
            Call::Ask(name) => {
                let outcome = session.ask(rt, &name, self.providers)?;
                report(alloc, &outcome)
            }
            Call::All => {
                let listing = session.ask_all(rt, self.providers)?;
                listed(alloc, &listing)
            }
        }
    }

    /// Settles the last work that is kept, and returns the report.
    fn settle<R: Wait, E: Ending>(
        &self,
        rt: &R,
        session: &mut Session<E>,
        works: &mut Vec<Work>,
    ) -> Answer {
        let Some(work) = works.pop() else {
            bail!("no work was done");
        };
        let outcome = session.settle(rt, work, self.providers)?;
        report(self.alloc, &outcome)
    }

    /// Settles all works that are kept, as an ask for all.
    fn settle_all<R: Wait, E: Ending>(
        &self,
        rt: &R,
        session: &mut Session<E>,
        works: &mut Vec<Work>,
    ) -> Answer {
        let works = mem::replace(works, Vec::new(self.alloc));
        let listing = session.settle_all(rt, works, self.providers)?;
        listed(self.alloc, &listing)
    }

    /// Has a session read a name without a call, in one of three ways.
    fn read<E: Ending>(
        &self,
        session: &mut Session<E>,
        works: &mut Vec<Work>,
        verb: &str,
        text: &str,
    ) -> Answer {
        let at = name(text.as_bytes())?;
        match verb {
            "glance" => self.glance(session, &at),
            "make" => self.make(session, &at),
            _ => self.work(session, works, &at),
        }
    }

    /// Has a session do what a row says, and returns the answer.
    pub fn act<R: Wait, E: Ending>(
        &self,
        rt: &R,
        case: &mut Case<E>,
        who: &str,
        row: &str,
    ) -> Answer {
        let session = session_at(&mut case.opened, who)?;
        let works = &mut case.works;
        let (verb, rest) = halves(row);
        match verb {
            "glance" | "make" | "work" => self.read(session, works, verb, rest),
            "workall" => self.work_on_all(session, works),
            "settle" => self.settle(rt, session, works),
            "settleall" => self.settle_all(rt, session, works),
            _ => self.make_call(rt, session, self.call(row)?),
        }
    }
}

/// Returns the word of the reply to a put.
fn put_word(reply: PutReply) -> &'static str {
    match reply {
        PutReply::Added => "added",
        PutReply::Replaced => "replaced",
        PutReply::Full => "full",
        PutReply::WrongKind => "wrongkind",
    }
}

/// Returns the word of the reply to a removal.
fn remove_word(reply: RemoveReply) -> &'static str {
    match reply {
        RemoveReply::Removed => "removed",
        RemoveReply::Absent => "absent",
    }
}
