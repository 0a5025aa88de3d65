//! Which loans are inside at a point: those whose region's value has the point. Found for 64 points and 64 loans at once.
ghost use Rattle.std.specs.Prelude.{◌≡◌, ◌*◌, ◌/◌, ◌%◌, ◌+◌, ◌<◌, ◌≤◌, ℕ, Bool, length, slice_index, IfOk, OnOk};
ghost use Rattle.bc_flow.specs.Packed.{is_set};
ghost use Rattle.bc_flow.specs.Flow.{row, holds};
ghost use Rattle.bc_loans.specs.Inside.{AreTold, IsWritten};
ghost use Rattle.bc_loans.specs.Flows.{inside};

use crate::loan_flow::LoanFlow;
use bc_flow::{BitTable, turned_words};
use bc_points::region_number;
use bc_solve::Values;
use std::alloc::{AllocError, Global};

/// Returns which of 64 points the value of a region has. It has none if there is no such region.
fn value_word(values: &Values, region: usize, run: usize) -> u64
    ensures { (p : ℕ) → p / 64 ≡ run → is_set result (p % 64) ≡ holds values.now region p }
{
    match values.get(region) {
        Some(value) => value.word(run),
        None => 0,
    }
}

/// Returns for each of 64 points which loans of a word are inside there.
fn inside_block(flow: &LoanFlow<'_>, word: usize, run: usize) -> [u64; 64]
    requires { 64 * word < length flow.now.set.loans.now }
    ensures { (p l : ℕ) → p / 64 ≡ run → l / 64 ≡ word → is_set (slice_index result (p % 64)) (l % 64) ≡ inside flow.now p l }
{
    let loans = flow.set.loans;
    let count = loans.len();
    let first = 64 * word;
    let mut block = [0; 64];
    for k in 0..(count - first).min(64) {
        let region = region_number(flow.universals, loans[first + k].1.region);
        block[k] = value_word(flow.values, region, run);
    }
    turned_words(&block)
}

/// Overwrites 64 words from index `first` on.
fn write_words(words: &mut [u64], first: usize, block: &[u64; 64])
    requires { first + 64 ≤ length words.old }
    ensures { IsWritten first 64 block.now words.old words.new }
{
    for k in 0..64 {
        words[first + k] = block[k];
    }
}

/// Which loans of a word are inside at points, found on demand: a word for each point, and a row with the runs of 64 points whose words are
/// known.
#[derive(Drop)]
pub(crate) struct InsideWords {
    words: Vec<u64>,
    runs: BitTable,
}

/// Returns a word for each point, and for those that fill the last run of 64. Returns `AllocError` if out of memory. Returns it too,
/// without asking for any, if there would be 2^64 words or more, but no body has that many points.
fn point_words(alloc: Global, points: usize) -> Result<Vec<u64>, AllocError>
    ensures { IfOk result (λ words. length words.items ≡ 64 * ((points + 63) / 64)) }
{
    let Some(count) = points.div_ceil(64).checked_mul(64) else {
        return Err(AllocError);
    };
    vec![in alloc; 0; count]
}

impl InsideWords {
    /// Returns words for this number of points. Returns `AllocError` as `point_words` does.
    pub(crate) fn of(alloc: Global, points: usize) -> Result<InsideWords, AllocError>
        ensures { IfOk result (λ made. length made.words.items ≡ 64 * ((points + 63) / 64)) }
    {
        let words = point_words(alloc, points)?;
        let runs = BitTable::new(alloc, 1, 0)?;
        Ok(InsideWords { words, runs })
    }

    /// Makes all words unknown, so that another word of loans can be asked for.
    pub(crate) fn forget(&mut self, alloc: Global, points: usize) -> Result<(), AllocError>
        requires long { length self.old.words.items ≡ 64 * ((points + 63) / 64) }
        ensures words { OnOk result (self.new.words.items ≡ self.old.words.items) }
        ensures told { OnOk result ((inside : ℕ → ℕ → Bool) (word : ℕ) → AreTold inside word self.new.words.items self.new.runs) }
    {
        self.runs = BitTable::new(alloc, 1, points.div_ceil(64))?;
        Ok(())
    }

    /// Finds which loans of a word are inside at a point, and at the others of its run, unless that is known.
    fn tell(&mut self, flow: &LoanFlow<'_>, word: usize, point: usize)
        requires word { 64 * word < length flow.now.set.loans.now }
        requires point { point < length self.old.words.items }
        requires told { AreTold (inside flow.now) word self.old.words.items self.old.runs }
        ensures size { length self.new.words.items ≡ length self.old.words.items }
        ensures told { AreTold (inside flow.now) word self.new.words.items self.new.runs }
        ensures here { (l : ℕ) → l / 64 ≡ word → is_set (slice_index self.new.words.items point) (l % 64) ≡ inside flow.now point l }
    {
        let run = point / 64;
        if self.runs.insert(0, run) {
            let block = inside_block(flow, word, run);
            write_words(&mut self.words, 64 * run, &block);
        }
    }

    /// Returns which loans of a word are inside at a point, and finds the words of all points of its run.
    pub(crate) fn word_at(&mut self, flow: &LoanFlow<'_>, word: usize, point: usize) -> u64
        requires word { 64 * word < length flow.now.set.loans.now }
        requires point { point < length self.old.words.items }
        requires told { AreTold (inside flow.now) word self.old.words.items self.old.runs }
        ensures size { length self.new.words.items ≡ length self.old.words.items }
        ensures told { AreTold (inside flow.now) word self.new.words.items self.new.runs }
        ensures here { (l : ℕ) → l / 64 ≡ word → is_set result (l % 64) ≡ inside flow.now point l }
    {
        self.tell(flow, word, point);
        self.words[point]
    }
}
