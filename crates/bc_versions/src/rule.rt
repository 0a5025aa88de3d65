//! The rule of the published table: what each thread may rely on, and the two kinds of step under it.
ghost use Rattle.std.specs.Prelude.{[]};
ghost use Rattle.bc_versions.specs.Rules.{Adds, IsPublished, Looks};

use crate::table::{Table, Update};
use bc_calls::Entry;
use crossbeam_utils::rule::{Outcome, Protocol};
use left_right::reader::Reader;
use left_right::writer::Writer;
use std::collections::LinkedList;

/// What a thread has seen: a beginning of the list of published entries. No value of it is made.
pub type Seen = LinkedList<Entry>;

/// The rule of the published table: there is one legal list of what was published, the table is the table of that list, and what each
/// thread has seen is a beginning of it.
pub struct Published;

impl Protocol<Table, Seen> for Published {
    ghost holds = { IsPublished };

    ghost first = { [] };
}

/// A reading. It changes only what its own session has seen.
pub(crate) struct Look;

impl Outcome<Table, Seen> for Look {
    ghost then = { Looks };
}

/// A publication of one entry. It changes only what the writer has seen.
pub(crate) struct Add;

impl Outcome<Table, Seen> for Add {
    ghost then = { Adds };
}

/// A reader of the published table.
pub type TableReader = Reader<Table, Seen, Published>;

/// The writer of the published table.
pub type TableWriter = Writer<Table, Update, Seen, Published>;
