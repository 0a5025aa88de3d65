//! Scripts, which the sessions of a database make on threads, and the stages at which their asks pause.
use crate::answers::Answer;
use crate::cases::{Case, Opened};
use crate::gauges::Gauges;
use crate::rows::{Context, halves};
use crate::waits::Patience;
use anyhow::{Result, bail};
use bc_scripts::{End, Gate, Script, Stage, run_sessions};
use bc_share::Session;
use bc_versions::Ending;
use std::alloc::Global;
use std::io::Write;
use std::mem;
use std::sync::Wait;
use std::sync::atomic::AtomicU64;
use std::sync::atomic::Ordering::SeqCst;
use std::thread::Threads;
use std::time::Clock;

/// The number of times that session 0 came to a stage of an ask, and the number of calls of the solver when it last did.
#[derive(Drop)]
struct Mark {
    came: AtomicU64,
    solved: AtomicU64,
}

impl Mark {
    fn new() -> Mark {
        Mark {
            came: AtomicU64::new(0),
            solved: AtomicU64::new(0),
        }
    }

    /// Returns what is noted, between the name of the stage and an end.
    fn told(&self, alloc: Global, stage: &str, end: &str) -> Answer {
        let came = self.came.load(SeqCst);
        let solved = self.solved.load(SeqCst);
        let mut told = Vec::new(alloc);
        write!(told, "{stage} {came}, {solved} solved{end}")?;
        Ok(told)
    }
}

/// Where sessions are held up: session 0 at a stage of an ask until the other sessions have begun `first_awaits` asks; and each of the
/// others, after it has begun one, until session 0 has come to that stage and they all have begun `others_await`.
#[derive(Clone, Copy)]
struct Hold {
    stage: Stage,
    first_awaits: u64,
    others_await: u64,
}

impl Hold {
    /// Returns what some words spell, or `None` for no words.
    fn read(words: &str) -> Result<Option<Hold>> {
        let (stage, counts) = halves(words);
        let stage = match stage {
            "" => return Ok(None),
            "begun" => Stage::Begun,
            "worked" => Stage::Worked,
            _ => bail!("an Ask has no such stage"),
        };
        let (first, others) = halves(counts);
        Ok(Some(Hold {
            stage,
            first_awaits: first.parse()?,
            others_await: others.parse()?,
        }))
    }
}

/// A `Gate` that notes where session 0 comes, and may hold up sessions.
#[derive(Drop)]
struct Turnstile<'a, R> {
    rt: &'a R,
    gauges: &'a Gauges,
    patience: Patience,
    begun: Mark,
    worked: Mark,
    begun_beside: AtomicU64,
    hold: Option<Hold>,
}

impl<'a, R: Clock> Turnstile<'a, R> {
    /// Returns a turnstile that holds up sessions like this, or nobody.
    fn new(rt: &'a R, gauges: &'a Gauges, hold: Option<Hold>) -> Turnstile<'a, R> {
        Turnstile {
            rt,
            gauges,
            patience: Patience::new(),
            begun: Mark::new(),
            worked: Mark::new(),
            begun_beside: AtomicU64::new(0),
            hold,
        }
    }

    /// Returns what is noted for a stage.
    fn mark(&self, stage: Stage) -> &Mark {
        match stage {
            Stage::Begun => &self.begun,
            Stage::Worked => &self.worked,
        }
    }

    /// Notes session 0 at a stage, and may hold it up.
    fn hold_first(&self, stage: Stage) {
        let mark = self.mark(stage);
        mark.solved.store(self.gauges.solve.calls(), SeqCst);
        mark.came.fetch_add(1, SeqCst);
        if let Some(hold) = self.hold {
            if hold.stage == stage {
                self.patience
                    .hold(self.rt, &self.begun_beside, hold.first_awaits);
            }
        }
    }

    /// Notes an ask of another session, and may hold it up.
    fn hold_other(&self) {
        self.begun_beside.fetch_add(1, SeqCst);
        if let Some(hold) = self.hold {
            self.patience.hold(self.rt, &self.mark(hold.stage).came, 1);
            self.patience
                .hold(self.rt, &self.begun_beside, hold.others_await);
        }
    }

    /// Returns what is noted. Fails if a session waited too long.
    fn marks(&self, alloc: Global) -> Answer {
        self.patience.is_kept()?;
        let mut marks = self.begun.told(alloc, "begun", "; ")?;
        marks.append(&mut self.worked.told(alloc, "worked", "\n")?)?;
        Ok(marks)
    }
}

impl<'a, R: Clock> Gate for Turnstile<'a, R> {
    fn pause(&self, session: u8, stage: Stage) {
        if session == 0 {
            self.hold_first(stage);
        } else if stage == Stage::Begun {
            self.hold_other();
        }
    }
}

/// Writes how a script ended.
fn write_end(end: End, out: &mut Vec<u8>) -> Result<()> {
    match end {
        End::Done => out.extend_from_slice(b"done\n")?,
        End::Stopped { number, refusal } => writeln!(out, "stopped at {number}: {refusal}")?,
    }
    Ok(())
}

/// Puts sessions back, and returns how the script of each ended.
fn ends<E: Ending>(
    alloc: Global,
    ran: Vec<(Session<E>, End)>,
    sessions: &mut Vec<Session<E>>,
) -> Answer {
    let mut ends = Vec::new(alloc);
    for (session, end) in ran {
        write_end(end, &mut ends)?;
        sessions.push(session)?;
    }
    Ok(ends)
}

impl Context<'_> {
    /// Returns the script of the calls that a row spells, with a semicolon and a space between each two.
    fn script(&self, row: &str) -> Result<Script> {
        let mut calls = Vec::new(self.alloc);
        for call in row.split(';') {
            calls.push(self.call(call.strip_prefix(' ').unwrap_or(call))?)?;
        }
        Ok(Script::new(calls))
    }

    /// Gives the next session of a letter the script that a row spells.
    pub fn give_script<E: Ending>(&self, case: &mut Case<E>, row: &str) -> Answer {
        let (letter, calls) = halves(row);
        let script = self.script(calls)?;
        case.at(letter)?.scripts.push(script)?;
        Ok(Vec::new(self.alloc))
    }
}

/// Has each session make the calls of its script, on a thread of its own. Returns the sessions, each with how its script ended.
fn make_scripts<R: AllocGlobal + Clock + Sync + Threads + Wait, E: Ending + Send>(
    rt: &R,
    context: &Context<'_>,
    opened: &mut Opened<E>,
    gate: &Turnstile<'_, R>,
) -> Result<Vec<(Session<E>, End)>> {
    let alloc = context.alloc;
    let Some(db) = &opened.db else {
        bail!("this database was closed before");
    };
    let scripts = mem::replace(&mut opened.scripts, Vec::new(alloc));
    let sessions = mem::replace(&mut opened.sessions, Vec::new(alloc));
    if scripts.len() != sessions.len() {
        bail!("as many scripts as sessions");
    }
    match run_sessions(rt, db, sessions, scripts, context.providers, gate) {
        Ok(ran) => Ok(ran),
        Err(_) => bail!("no memory"),
    }
}

/// Has sessions make their scripts, held up or not. Returns how each ended, and where session 0 came.
fn run_held<R: AllocGlobal + Clock + Sync + Threads + Wait, E: Ending + Send>(
    rt: &R,
    context: &Context<'_>,
    opened: &mut Opened<E>,
    hold: Option<Hold>,
) -> Answer {
    let gate = Turnstile::new(rt, context.gauges, hold);
    let ran = make_scripts(rt, context, opened, &gate)?;
    let mut answer = ends(context.alloc, ran, &mut opened.sessions)?;
    answer.append(&mut gate.marks(context.alloc)?)?;
    Ok(answer)
}

impl Context<'_> {
    /// Has the sessions of a letter make their scripts. Returns how each ended, and where session 0 came.
    pub fn run<R: AllocGlobal + Clock + Sync + Threads + Wait, E: Ending + Send>(
        &self,
        rt: &R,
        case: &mut Case<E>,
        row: &str,
    ) -> Answer {
        let (letter, words) = halves(row);
        let hold = Hold::read(words)?;
        run_held(rt, self, case.at(letter)?, hold)
    }
}
