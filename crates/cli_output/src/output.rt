//! The output, from its opening to its close.
ghost use Rattle.std.specs.Prelude.{◌≡◌, ◌≢◌, ◌<◌, ◌+◌, [], ◌∷◌, ◌++◌, Some, IfOk, IfSome, true, false, OnErr, OnOk};
ghost use Rattle.std.specs.Option.{ForSome};
ghost use Rattle.std.specs.Io.Buffered.{writer_buffer, writer_contents};
ghost use Rattle.std.specs.Io.KnownBytes.{Appends};
ghost use Rattle.cli_output.specs.Logs.{AreBelow, bytes_of};
ghost use Rattle.cli_output.specs.Pens.{IsLogged};
ghost use Rattle.cli_output.specs.Tokens.{first as first_known, known};

use crate::pen::{Authors, Pen, Sheet};
use crate::token::{
    LogTable, Token, learn_authors, learn_texts, leave_maker, make_author, new_table, write,
};
use std::alloc::{AllocError, Global};
use std::io::{BufWriter, Write};
use std::marker::{Brand, PhantomData};

/// The error that a line was not printed, since the writer failed, now or before.
#[derive(Clone, Copy, Debug, PartialEq, Eq)]
pub struct Failed;

/// An empty log, whose output has no writer yet.
#[derive(Drop)]
pub struct Opening {
    table: LogTable,
    first: Token,
    ghost words: { 0 < table.shared.table_id.words },
    ghost begins: { (first.table_id ≡ table.shared.table_id) × (first.me ≡ (first_known, [])) },
}

impl Opening {
    /// Returns an empty log.
    pub fn new(alloc: Global) -> Result<Opening, AllocError> {
        let (table, first) = new_table(alloc)?;
        Ok(Opening { table, first })
    }

    /// Returns an output on this writer, and the right to admit authors, of which there are none yet.
    pub fn open<J: Sheet, O: Write + Drop>(self, out: BufWriter<O>) -> (Output<J, O>, Authors<J>)
        requires table { J.table ≡ self.table.shared.table_id }
        requires before { (J.before ≡ writer_contents O.contents out) × (J.buffer ≡ writer_buffer out) }
    {
        let Opening { table, first } = self;
        let mut keeper = first;
        let token = leave_maker(&table, &mut keeper);
        let output = Output {
            out,
            has_failed: false,
            table,
            keeper,
            of: PhantomData,
        };
        let authors = Authors {
            count: 0,
            token,
            of: PhantomData,
        };
        (output, authors)
    }
}

/// Where lines are printed. After its writer failed, nothing more is written. Until then exactly its log was written.
#[derive(Drop)]
pub struct Output<J: Sheet, O: Write + Drop> {
    out: BufWriter<O>,
    has_failed: bool,
    table: LogTable,
    keeper: Token,
    of: PhantomData<J>,
    ghost tables: { (table.shared.table_id ≡ J.table) × (keeper.table_id ≡ J.table) × (0 < table.shared.table_id.words) },
    ghost keeps: { ((known keeper).keeps ≡ true) × (keeper.me.1 ≡ []) },
    ghost printed: { has_failed ≡ false → ForSome J.before (λ before. writer_contents O.contents out ≡ Some (before ++ bytes_of (known keeper).log)) },
    ghost handed_on: { has_failed ≡ false → J.buffer ≡ [] → writer_buffer out ≡ [] },
}

impl<J: Sheet, O: Write + Drop> Output<J, O> {
    /// Admits the author of this number, and returns its pen, with which nothing was printed. Returns `None` if it is not this number's
    /// turn: the numbers ascend from 0 to 254.
    pub fn admit(&self, authors: &mut Authors<J>, number: u8) -> Option<Pen<J>>
        ensures { IfSome result (λ pen. pen ≡ record { number = number; texts = [] }) }
    {
        if authors.count != number || number == u8::MAX {
            return None;
        }
        let token = make_author(&self.table, &mut authors.token);
        authors.count = number + 1;
        Some(Pen {
            number,
            token,
            of: PhantomData,
        })
    }

    /// Prints a line of an author, which includes its line feed, and flushes it. Returns `Failed` if the writer fails, or failed before.
    pub fn print(&mut self, pen: &mut Pen<J>, line: &str) -> Result<(), Failed>
        ensures printed { OnOk result (Appends (writer_contents O.contents self.old.out) (writer_contents O.contents self.new.out) line.now) }
        ensures handed_on { OnOk result (writer_buffer self.new.out ≡ []) }
        ensures failed { OnErr result (self.new.has_failed ≡ true) }
        ensures silent { self.old.has_failed ≡ true → (self.new.out ≡ self.old.out) }
        ensures number { pen.new.number ≡ pen.old.number }
        ensures noted { OnOk result (pen.new.texts ≡ pen.old.texts ++ line.now ∷ []) }
    {
        if self.has_failed {
            return Err(Failed);
        }
        if self.out.write_all(line.as_bytes()).is_err() || self.out.flush().is_err() {
            self.has_failed = true;
            return Err(Failed);
        }
        write::<Brand>(
            &self.table,
            &mut self.keeper,
            &mut pen.token,
            line.as_bytes(),
        );
        Ok(())
    }

    /// Takes a pen back: what its author printed with it is exactly what the log has of this author.
    pub fn take_back(&mut self, pen: Pen<J>)
        ensures log { (known self.new.keeper).log ≡ (known self.old.keeper).log }
        ensures texts { IsLogged (known self.old.keeper).log pen }
    {
        let Pen {
            number: _,
            token,
            of: _,
        } = pen;
        learn_texts(&self.table, &mut self.keeper, token);
    }

    /// Returns the writer, about which nothing is known.
    pub fn into_writer(self) -> BufWriter<O> {
        let Output {
            out,
            has_failed: _,
            table: _,
            keeper: _,
            of: _,
        } = self;
        out
    }

    /// Ends the output. Returns its writer, and the number of authors that were admitted. Exactly the log was written, and the log has no
    /// other authors. Returns `Failed` if the writer failed.
    pub fn close(self, authors: Authors<J>) -> (BufWriter<O>, Result<u8, Failed>)
        ensures authors { IfOk result.1 (λ count. AreBelow count (known self.keeper).log) }
        ensures printed { OnOk result.1 (Appends J.before (writer_contents O.contents result.0) (bytes_of (known self.keeper).log)) }
        ensures handed_on { OnOk result.1 (J.buffer ≡ [] → writer_buffer result.0 ≡ []) }
    {
        let Output {
            out,
            has_failed,
            table,
            mut keeper,
            of: _,
        } = self;
        let Authors {
            count,
            token,
            of: _,
        } = authors;
        if has_failed {
            return (out, Err(Failed));
        }
        learn_authors(&table, &mut keeper, token);
        (out, Ok(count))
    }
}
