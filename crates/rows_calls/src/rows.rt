//! The lines of a file of rows.
use crate::answers::{Answer, counted, line, marked, refusal};
use crate::cases::Case;
use crate::gauges::Gauges;
use anyhow::{Result, bail};
use bc_prov::Providers;
use bc_share::Db;
use bc_versions::{Ending, Waiting};
use std::alloc::Global;
use std::sync::Wait;
use std::thread::Threads;
use std::time::Clock;

/// What the answers to rows need, and all lines of their file.
#[derive(Clone, Copy)]
pub struct Context<'a> {
    pub alloc: Global,
    pub gauges: &'a Gauges,
    pub providers: &'a Providers,
    pub rows: &'a str,
}

/// Returns what comes before the first space, and what comes after it, which is empty if there is none.
pub fn halves(text: &str) -> (&str, &str) {
    text.split_once(' ').unwrap_or((text, ""))
}

/// Returns the tag, the capacity and the number of sessions that a row spells.
fn sizes(row: &str) -> Result<(u64, u32, u8)> {
    let (tag, row) = halves(row);
    let (capacity, sessions) = halves(row);
    Ok((tag.parse()?, capacity.parse()?, sessions.parse()?))
}

/// Returns whether a line is a row: it is not empty, begins no case, and names no text.
fn is_row(line: &str) -> bool {
    !(line.is_empty() || line.starts_with('#') || line.starts_with("text "))
}

/// Returns the line as it is printed: after a mark if it is a row.
fn headed(alloc: Global, text: &str) -> Answer {
    if is_row(text) {
        return marked(alloc, "> ", text);
    }
    line(alloc, text)
}

/// Returns the number of turns of a line, and its row.
fn turns(line: &str) -> (u32, &str) {
    let (word, rest) = halves(line);
    match word.parse() {
        Ok(turns) => (turns, rest),
        Err(_) => (1, line),
    }
}

impl<'a> Context<'a> {
    /// Returns the text that the file has under a name, or the empty one without a name. Fails if there is none.
    pub fn text(&self, name: &str) -> Result<&'a str> {
        if name.is_empty() {
            return Ok("");
        }
        for line in self.rows.lines() {
            let (found, text) = halves(line.strip_prefix("text ").unwrap_or(""));
            if found == name {
                return Ok(text);
            }
        }
        bail!("no text has this name")
    }
}

impl Context<'_> {
    /// Opens a database with the tag, the capacity and the number of sessions that a row spells.
    fn open<E: Ending>(&self, ending: E, case: &mut Case<E>, row: &str) -> Answer {
        let (tag, capacity, count) = sizes(row)?;
        let (db, sessions) = Db::open(self.alloc, ending, tag, capacity, count)?;
        case.push(self.alloc, db, sessions)?;
        line(self.alloc, "opened")
    }

    /// Closes a database with the sessions that one has left, or with none. Returns the number of entries of its history.
    fn close<R: Wait, E: Ending>(&self, rt: &R, case: &mut Case<E>, row: &str) -> Answer {
        let (closed, others) = halves(row);
        let db = case.take_db(closed)?;
        let sessions = case.take_sessions(self.alloc, others)?;
        let history = db.close(rt, sessions)?;
        counted(self.alloc, history.entries().len(), "entries")
    }

    /// Returns the answer to a row.
    fn answer<R>(&self, rt: R, case: &mut Case<Waiting<R>>, row: &str) -> Answer
    where
        R: AllocGlobal + Clock + Copy + Send + Sync + Threads + Wait,
    {
        let (word, rest) = halves(row);
        match word {
            "open" => self.open(Waiting::new(rt), case, rest),
            "close" => self.close(&rt, case, rest),
            "script" => self.give_script(case, rest),
            "run" => self.run(&rt, case, rest),
            "meet" => self.meet(&rt, case, rest, false),
            "meetall" => self.meet(&rt, case, rest, true),
            "refuse" => self.gauges.refuse(self.alloc, rest),
            "count" => self.gauges.counts(self.alloc),
            _ => self.act(&rt, case, word, rest),
        }
    }

    /// Returns the answer to a row at a turn, or why it is refused.
    fn answer_at<R>(&self, rt: R, case: &mut Case<Waiting<R>>, row: &str, turn: u32) -> Answer
    where
        R: AllocGlobal + Clock + Copy + Send + Sync + Threads + Wait,
    {
        let number = format!(in self.alloc; "{turn}")?;
        let row = row.replace(self.alloc, "#", &number)?;
        match self.answer(rt, case, &row) {
            Ok(answer) => Ok(answer),
            Err(refused) => refusal(self.alloc, &refused),
        }
    }

    /// Returns the answer to all turns of a line. Fails if two answers differ.
    fn answer_turns<R>(&self, rt: R, case: &mut Case<Waiting<R>>, line: &str) -> Answer
    where
        R: AllocGlobal + Clock + Copy + Send + Sync + Threads + Wait,
    {
        let (turns, row) = turns(line);
        let first = self.answer_at(rt, case, row, 0)?;
        for turn in 1..turns {
            if self.answer_at(rt, case, row, turn)? != first {
                bail!("turn {turn} is answered differently");
            }
        }
        Ok(first)
    }

    /// Writes a line, and below a row its answer.
    fn show_line<R>(
        &self,
        rt: R,
        case: &mut Case<Waiting<R>>,
        line: &str,
        out: &mut Vec<u8>,
    ) -> Result<()>
    where
        R: AllocGlobal + Clock + Copy + Send + Sync + Threads + Wait,
    {
        out.append(&mut headed(self.alloc, line)?)?;
        if is_row(line) {
            out.append(&mut self.answer_turns(rt, case, line)?)?;
        }
        Ok(())
    }

    /// Writes each line of the file, and below a row its answer.
    pub fn show_rows<R>(&self, rt: R, out: &mut Vec<u8>) -> Result<()>
    where
        R: AllocGlobal + Clock + Copy + Send + Sync + Threads + Wait,
    {
        let mut case = Case::new(self.alloc);
        for line in self.rows.lines() {
            if line.starts_with('#') {
                case = Case::new(self.alloc);
                self.gauges.want_none();
            }
            self.show_line(rt, &mut case, line, out)?;
        }
        Ok(())
    }
}
