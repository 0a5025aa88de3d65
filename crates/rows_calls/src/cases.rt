//! The databases that the rows of a case open, with their sessions.
use anyhow::{Result, bail};
use bc_calls::Work;
use bc_scripts::Script;
use bc_share::{Db, Session};
use bc_versions::Ending;
use std::alloc::Global;
use std::mem;

/// A database until it is closed, its sessions until a database is closed with them, and the scripts that they are to make.
#[derive(Drop)]
pub struct Opened<E: Ending> {
    pub db: Option<Db<E>>,
    pub sessions: Vec<Session<E>>,
    pub scripts: Vec<Script>,
}

/// The state of a case: what its rows have opened, and the works that are not settled yet.
#[derive(Drop)]
pub struct Case<E: Ending> {
    pub opened: Vec<Opened<E>>,
    pub works: Vec<Work>,
}

/// Returns the place of a letter, or one that is too large if the text is no letter.
fn place(letter: &str) -> usize {
    match letter.as_bytes() {
        [letter] => usize::from(letter.wrapping_sub(b'a')),
        _ => usize::MAX,
    }
}

/// Returns the session with a letter and a number. Fails if there is none.
pub fn session_at<'a, E: Ending>(
    opened: &'a mut [Opened<E>],
    who: &str,
) -> Result<&'a mut Session<E>> {
    let (letter, number) = who.split_at_checked(1).unwrap_or(("", ""));
    let number: usize = number.parse()?;
    let Some(opened) = opened.get_mut(place(letter)) else {
        bail!("no database has this letter");
    };
    match opened.sessions.get_mut(number) {
        Some(session) => Ok(session),
        None => bail!("no session has this number"),
    }
}

impl<E: Ending> Case<E> {
    /// Returns a case without databases and works.
    pub fn new(alloc: Global) -> Case<E> {
        Case {
            opened: Vec::new(alloc),
            works: Vec::new(alloc),
        }
    }

    /// Keeps a database and its sessions under the next letter.
    pub fn push(&mut self, alloc: Global, db: Db<E>, sessions: Vec<Session<E>>) -> Result<()> {
        self.opened.push(Opened {
            db: Some(db),
            sessions,
            scripts: Vec::new(alloc),
        })?;
        Ok(())
    }

    /// Returns what was opened under a letter. Fails if nothing was.
    pub fn at(&mut self, letter: &str) -> Result<&mut Opened<E>> {
        match self.opened.get_mut(place(letter)) {
            Some(opened) => Ok(opened),
            None => bail!("no database has this letter"),
        }
    }

    /// Takes the database of a letter. Fails if it was closed before.
    pub fn take_db(&mut self, letter: &str) -> Result<Db<E>> {
        match self.at(letter)?.db.take() {
            Some(db) => Ok(db),
            None => bail!("this database was closed before"),
        }
    }

    /// Takes the sessions of a letter, or none if the letter is empty.
    pub fn take_sessions(&mut self, alloc: Global, letter: &str) -> Result<Vec<Session<E>>> {
        if letter.is_empty() {
            return Ok(Vec::new(alloc));
        }
        Ok(mem::replace(&mut self.at(letter)?.sessions, Vec::new(alloc)))
    }
}
