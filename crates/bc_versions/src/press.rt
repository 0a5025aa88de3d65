//! The writer of the published table.
ghost use Rattle.std.specs.Prelude.{◌≡◌, ◌<◌, ◌^◌, [], ◌++◌, drop, fold, IfOk, MatchResult};
ghost use Rattle.left_right.specs.Sides.{view};
ghost use Rattle.bc_memo.specs.Places.{AreFitting, changed, empty_shelf};
ghost use Rattle.bc_calls.specs.Calls.{MayComeNext, last_of};
ghost use Rattle.bc_calls.specs.Changes.{change_of};
ghost use Rattle.bc_versions.specs.Rules.{IsDue, entries_of};
ghost use Rattle.bc_versions.specs.Tables.{empty_table, pressed, updated};

use crate::ending::Ending;
use crate::front::Fronts;
use crate::rule::{Add, TableWriter};
use crate::table::{Table, Update};
use bc_calls::MOST_BODIES;
use bc_memo::{PieceMemo, Shelf};
use bc_prov::{Declared, Shared};
use core::mem::replace_with;
use std::alloc::{AllocError, Global};
use std::marker::Model;
use std::sync::Wait;

/// The writer of the published table, with what ends it. A contract sees the entries that were published, and what is stored after them
/// with its revisions and answers.
pub struct Press<E: Ending> {
    writer: TableWriter,
    ending: E,
}

impl<E: Ending> Drop for Press<E> {
    fn drop(self) {
        let Self { writer, ending } = self;
        ending.end(writer);
    }
}

impl<E: Ending> Model for Press<E> {
    ghost use Rattle.std.specs.Prelude.{◌≡◌, [], drop};
    ghost use Rattle.left_right.specs.Sides.{view as seen_of};
    ghost use Rattle.bc_calls.specs.Calls.{last_of};
    ghost use Rattle.bc_versions.specs.Tables.{PressView};

    ghost Value = { PressView };

    ghost view = { λ p. record { entries = seen_of p.writer.desk.place; shelf = p.writer.desk.shown.value.shelf } };

    ghost invariant = { λ p. (p.writer.desk.shown.value.last ≡ last_of (seen_of p.writer.desk.place)) × (drop p.writer.behind p.writer.log.items ≡ []) };
}

impl<E: Ending> Press<E> {
    /// Opens a table in which nothing is published, and returns its writer. Its two copies begin with `first` and `second`, which are empty
    /// declarations, without bodies, and with room for all bodies and a piece of each. The table has at most `readers` readers. `ending`
    /// ends the writer.
    pub fn open(
        alloc: Global,
        ending: E,
        first: Shared<Declared>,
        second: Shared<Declared>,
        readers: usize,
    ) -> Result<Press<E>, AllocError>
        requires types { (first ≡ []) × (second ≡ []) }
        requires readers { (0 < readers) × (readers < 2 ^ 32) }
        ensures { IfOk result (λ press. press ≡ record { entries = []; shelf = empty_shelf [] }) }
    {
        let first = roomy_table(alloc, first)?;
        let second = roomy_table(alloc, second)?;
        Ok(Press {
            writer: TableWriter::new(alloc, first, second, readers)?,
            ending,
        })
    }

    /// Returns the maker of the readers of this table. Returns `AllocError` if it has too many owners.
    pub fn fronts(&self) -> Result<Fronts, AllocError> {
        Ok(Fronts::new(self.writer.factory().another()?))
    }

    /// Publishes an update whose entry comes next. It waits for those who still read what was published before. Requires that each of its
    /// pieces was found from the declarations and from the unit at its name that are stored after the entry. If it returns `AllocError`,
    /// nothing is published. After the append, a publication that fails is tried again until it succeeds.
    pub fn add<R: Wait>(&mut self, rt: &R, update: Update) -> Result<(), AllocError>
        requires next { MayComeNext self.old.entries update.entry }
        requires pieces { AreFitting (changed self.old.shelf (change_of update.entry.event) update.revision) update.pieces }
        ensures { MatchResult result (λ _. self.new ≡ pressed self.old (record { entry = update.entry; revision = update.revision }))
            (λ _. self.new ≡ self.old) }
    {
        if self.writer.append(update).is_err() {
            return Err(AllocError);
        }
        replace_with(&mut self.writer, rt, |writer, rt| (publish(rt, writer), ()));
        Ok(())
    }
}

/// Returns a table before any entry, with these empty declarations. It has room for all bodies and one more, and for two pieces of each and
/// one more.
fn roomy_table(alloc: Global, types: Shared<Declared>) -> Result<Table, AllocError>
    requires { types ≡ [] }
    ensures { IfOk result (λ table. table ≡ empty_table) }
{
    let shelf = Shelf::new(alloc, types, MOST_BODIES + 1)?;
    let pieces = PieceMemo::new(alloc, MOST_BODIES + MOST_BODIES + 1)?;
    let ready = Vec::with_capacity(alloc, MOST_BODIES + 1)?;
    Ok(Table::new(shelf, pieces, ready))
}

/// Publishes what waits. A publication that fails is tried again until it succeeds.
fn publish<R: Wait>(rt: &R, writer: TableWriter) -> TableWriter
    requires due { IsDue (view writer.desk.place) writer.desk.shown.value (drop writer.behind writer.log.items) }
    requires last { writer.desk.shown.value.last ≡ last_of (view writer.desk.place) }
    ensures seen { view result.desk.place ≡ view writer.desk.place ++ entries_of (drop writer.behind writer.log.items) }
    ensures last { result.desk.shown.value.last ≡ last_of (view result.desk.place) }
    ensures shown { result.desk.shown.value ≡ fold updated writer.desk.shown.value (drop writer.behind writer.log.items) }
    ensures rest { drop result.behind result.log.items ≡ [] }
{
    let mut writer = writer;
    for _ in rt.forever() {
        let (next, published) = writer.publish_as::<Add, R>(rt);
        writer = next;
        if published.is_ok() {
            break;
        }
    }
    writer
}
