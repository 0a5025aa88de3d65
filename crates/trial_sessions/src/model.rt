//! What a map of names says about the calls and readings of sessions. It knows no revision, no piece and no memo. It is compared with the
//! history of a database, entry by entry, and each session's readings are compared with the beginnings of that history.
use bc_calls::{Entry, Event, MOST_BODIES, PutReply, RemoveReply};
use bc_names::Name;
use bc_prov::{Outcome, Shared};
use std::alloc::{AllocError, Global};
use test_fixtures::Sight;

/// The most closures that a function creates: those of the numbers 0, 1 and 2.
pub(crate) const CLOSURES: usize = 3;

/// The number of names of each function: its own, then those of its closures.
const FAMILY: usize = CLOSURES + 1;

/// What is known about a unit: it is a closure or a function with this many errors, or a function that creates the closures of these
/// numbers.
#[derive(Clone, Copy)]
pub(crate) enum Kind {
    Closure(usize),
    Function(usize),
    Creator([bool; CLOSURES]),
}

/// A call that a session made, by the number of its name if it has one, with what is known about the unit that it put.
#[derive(Clone, Copy)]
pub(crate) enum Deed {
    Types,
    Put(usize, Kind),
    Remove(usize),
    Ask(usize),
    All,
}

/// What a session saw of a name without a call: the answer of a glance, or the outcome of its own work without the lock.
#[derive(Clone, Copy)]
pub(crate) enum Seen {
    Answer(Option<Sight>),
    Found(Sight),
}

/// A reading of a session: the number of its earlier calls, the number of the name, and what was seen.
#[derive(Clone, Copy)]
pub(crate) struct Reading {
    pub(crate) behind: usize,
    pub(crate) name: usize,
    pub(crate) seen: Seen,
}

/// What a session did: its calls and its readings, each in order.
#[derive(Drop)]
pub(crate) struct Log {
    pub(crate) calls: Vec<Deed>,
    pub(crate) readings: Vec<Reading>,
}

/// The unit stored under a name, and its answer.
#[derive(Clone, Copy)]
struct Place {
    held: Option<Kind>,
    answer: Option<Sight>,
}

/// The place of a name that holds nothing.
const EMPTY: Place = Place {
    held: None,
    answer: None,
};

/// What these ascending names hold, and the number of bodies.
#[derive(Drop)]
struct Map<'a> {
    names: &'a [Name],
    places: Vec<Place>,
    count: usize,
}

impl<'a> Map<'a> {
    /// Returns a map in which these names hold nothing.
    fn new(alloc: Global, names: &'a [Name]) -> Result<Map<'a>, AllocError> {
        let mut places = Vec::with_capacity(alloc, names.len())?;
        for _name in names {
            places.push(EMPTY)?;
        }
        Ok(Map {
            names,
            places,
            count: 0,
        })
    }

    /// Returns the place of a name.
    fn at(&self, name: usize) -> Place {
        match self.places.get(name) {
            Some(place) => *place,
            None => EMPTY,
        }
    }

    /// Sets the answer of a name.
    fn set_answer(&mut self, name: usize, answer: Option<Sight>) {
        if let Some(place) = self.places.get_mut(name) {
            place.answer = answer;
        }
    }

    /// Sets what a name holds, and makes its answer void, and that of its function.
    fn write(&mut self, name: usize, held: Option<Kind>) {
        if let Some(place) = self.places.get_mut(name) {
            place.held = held;
        }
        self.set_answer(name, None);
        self.set_answer(name - name % FAMILY, None);
    }

    /// Puts a unit under a name, and returns the reply.
    fn put(&mut self, name: usize, kind: Kind) -> PutReply {
        let is_root = name % FAMILY == 0;
        let is_closure = match kind {
            Kind::Closure(_) => true,
            Kind::Function(_) | Kind::Creator(_) => false,
        };
        if is_root == is_closure {
            return PutReply::WrongKind;
        }
        let was_held = self.at(name).held.is_some();
        if !was_held && self.count >= MOST_BODIES {
            return PutReply::Full;
        }
        self.write(name, Some(kind));
        if was_held {
            return PutReply::Replaced;
        }
        self.count = self.count.saturating_add(1);
        PutReply::Added
    }

    /// Removes the unit of a name, and returns the reply.
    fn remove(&mut self, name: usize) -> RemoveReply {
        if self.at(name).held.is_none() {
            return RemoveReply::Absent;
        }
        self.write(name, None);
        self.count = self.count.saturating_sub(1);
        RemoveReply::Removed
    }

    /// Sets the answer of a name if it holds a body.
    fn answer_with(&mut self, name: usize, found: &Sight) {
        if self.at(name).held.is_some() {
            self.set_answer(name, Some(*found));
        }
    }

    /// Asks for a name, and returns what is found.
    fn ask(&mut self, name: usize) -> Sight {
        let found = self.found(name);
        self.answer_with(name, &found);
        found
    }

    /// Asks for all, and returns whether these rows are what is found: the stored functions, ascending, each with what is found for it.
    fn ask_all(&mut self, rows: &[(Name, Shared<Outcome>)]) -> bool {
        let mut rest = rows.iter();
        for (number, name) in self.names.iter().enumerate() {
            if number % FAMILY != 0 || self.at(number).held.is_none() {
                continue;
            }
            let Some((at, outcome)) = rest.next() else {
                return false;
            };
            if at != name || Sight::of(outcome.get()) != self.ask(number) {
                return false;
            }
        }
        rest.next().is_none()
    }

    /// Makes a call, and returns whether the event is that call with its reply.
    fn take(&mut self, deed: Deed, event: &Event) -> bool {
        match (deed, event) {
            (Deed::Types, Event::Types(_)) => {
                for place in self.places.iter_mut() {
                    place.answer = None;
                }
                true
            }
            (Deed::Put(name, kind), Event::Put(at, _, reply)) => {
                self.names.get(name) == Some(at) && self.put(name, kind) == *reply
            }
            (Deed::Remove(name), Event::Remove(at, reply)) => {
                self.names.get(name) == Some(at) && self.remove(name) == *reply
            }
            (Deed::Ask(name), Event::Ask(at, outcome)) => {
                self.names.get(name) == Some(at) && self.ask(name) == Sight::of(outcome.get())
            }
            (Deed::All, Event::All(listing)) => self.ask_all(listing.get().as_slice()),
            (Deed::Types | Deed::Put(_, _) | Deed::Remove(_) | Deed::Ask(_) | Deed::All, _) =>
                false,
        }
    }

    /// Returns whether this is what there is to see of a name now.
    fn fits(&self, name: usize, seen: &Seen) -> bool {
        match seen {
            Seen::Answer(answer) => self.at(name).answer == *answer,
            Seen::Found(found) => self.found(name) == *found,
        }
    }

    /// Returns what an ask finds for a function that creates these closures.
    fn found_below(&self, name: usize, creates: [bool; CLOSURES]) -> Sight {
        let mut bodies: usize = 1;
        let mut errors: usize = 0;
        for (number, is_created) in creates.iter().enumerate() {
            let child = name.saturating_add(number).saturating_add(1);
            if !*is_created {
                continue;
            }
            match (self.at(child).held, self.names.get(child)) {
                (Some(Kind::Closure(theirs)), _) => {
                    bodies = bodies.saturating_add(1);
                    errors = errors.saturating_add(theirs);
                }
                (None, Some(missing)) => return Sight::Missing(*missing),
                (_, _) => return Sight::Other,
            }
        }
        Sight::Report(bodies, errors)
    }

    /// Returns what an ask of a name finds.
    fn found(&self, name: usize) -> Sight {
        match self.at(name).held {
            None => Sight::NoBody,
            Some(Kind::Closure(errors) | Kind::Function(errors)) => Sight::Report(1, errors),
            Some(Kind::Creator(creates)) => self.found_below(name, creates),
        }
    }
}

/// What a session did, the number of its calls in a beginning of the history, and the number of its readings that this beginning shows.
#[derive(Clone, Copy)]
struct Reader<'a> {
    log: &'a Log,
    behind: usize,
    read: usize,
}

impl Reader<'_> {
    /// Moves past the readings that saw what there is to see now.
    fn read_on(&mut self, map: &Map<'_>) {
        let log = self.log;
        for reading in log.readings.get(self.read..).unwrap_or(&[]) {
            if reading.behind != self.behind || !map.fits(reading.name, &reading.seen) {
                return;
            }
            self.read = self.read.saturating_add(1);
        }
    }

    /// Returns the next call, if there is one and it has this number.
    fn next_deed(&mut self, number: u32) -> Option<Deed> {
        if number as usize != self.behind {
            return None;
        }
        let deed = self.log.calls.get(self.behind)?;
        self.behind = self.behind.saturating_add(1);
        Some(*deed)
    }

    /// Returns whether the history has all its calls and shows all its readings.
    fn is_done(&self) -> bool {
        self.read == self.log.readings.len() && self.behind == self.log.calls.len()
    }
}

/// Returns a reader for each session.
fn readers(alloc: Global, logs: &[Log]) -> Result<Vec<Reader<'_>>, AllocError> {
    let mut readers = Vec::with_capacity(alloc, logs.len())?;
    for log in logs {
        readers.push(Reader {
            log,
            behind: 0,
            read: 0,
        })?;
    }
    Ok(readers)
}

/// Returns whether the history is what a map of these ascending names says about the sessions' calls. It must have each call once, those of
/// a session in their order, and must show all readings. A reading of a session saw what a beginning of the history leaves. This beginning
/// is no shorter than that of the reading before, and has the calls that the session had made before the reading, and none of its later
/// ones.
pub(crate) fn agree(
    alloc: Global,
    names: &[Name],
    logs: &[Log],
    entries: &[Entry],
) -> Result<bool, AllocError> {
    let mut map = Map::new(alloc, names)?;
    let mut readers = readers(alloc, logs)?;
    for entry in entries {
        for reader in readers.iter_mut() {
            reader.read_on(&map);
        }
        let Some(reader) = readers.get_mut(usize::from(entry.session)) else {
            return Ok(false);
        };
        let Some(deed) = reader.next_deed(entry.number) else {
            return Ok(false);
        };
        if !map.take(deed, &entry.event) {
            return Ok(false);
        }
    }
    for reader in readers.iter_mut() {
        reader.read_on(&map);
    }
    Ok(readers.iter().all(|reader| reader.is_done()))
}
