//! Tables of sets, all of one size, in one block of words: each row is a run of whole words.
ghost use Rattle.std.specs.Prelude.{◌≡◌, ℕ, ◌+◌, ◌*◌, ◌/◌, ◌%◌, ◌^◌, ◌<◌, ◌≤◌, Bool, true, false, not, ◌||◌, ◌&&◌, nat_lt, length, IfOk, MatchOption, slice_index, slice_set, bit_or, bit_and};
ghost use Rattle.std.specs.List.{All};
ghost use Rattle.std.specs.Int.{Width, w64, bit_not};
ghost use Rattle.bc_flow.specs.BitSet.{has, absent_count, IsNextMember};
ghost use Rattle.bc_flow.specs.Packed.{is_set, word_has};
ghost use Rattle.bc_flow.specs.Flow.{row, holds, HaveSize, AreAdded};

use crate::bit_words::{fill_below, next_bit, union_words_below};
use std::alloc::{AllocError, Global};
use std::marker::Model;

/// A table of sets of numbers below a size, with one row for each node. The number of rows and the size are fixed when the table is made.
///
/// Contracts see it as the list of its rows; a row is the list that says of each number whether it is a member. (After `BitMatrix` of
/// `rustc_index`.)
pub struct BitTable {
    words: Vec<u64>,
    rows: usize,
    width: usize,
    size: usize,
}

// Handwritten, so that it is proved once, and not again for each type that contains a table.
impl Drop for BitTable {
    fn drop(self) {
        let Self {
            words: _,
            rows: _,
            width: _,
            size: _,
        } = self;
    }
}

impl Model for BitTable {
    ghost use Rattle.std.specs.Prelude.{List, Bool};
    ghost use Rattle.bc_flow.specs.Tabled.{table_of, IsTable};

    ghost Value = { List (List Bool) };

    ghost view = { λ t. table_of t.rows t.width t.size t.words.items };

    ghost invariant = { λ t. IsTable t.rows t.width t.size t.words.items };
}

impl Clone for BitTable {
    ghost use Rattle.std.specs.Prelude.{◌≡◌};

    ghost is_clone = { λ s t. t ≡ s };

    /// Returns another table with the same rows.
    fn clone(&self) -> Result<Self, AllocError> {
        let words = self.words.clone()?;
        Ok(Self {
            words,
            rows: self.rows,
            width: self.width,
            size: self.size,
        })
    }
}

/// A row of a table, borrowed from it.
///
/// Contracts see it as the list that says of each number whether it is a member.
#[derive(Drop)]
pub struct BitRow<'a> {
    words: &'a [u64],
    size: usize,
}

impl<'a> Model for BitRow<'a> {
    ghost use Rattle.std.specs.Prelude.{List, Bool};
    ghost use Rattle.bc_flow.specs.Packed.{bits_of, IsPacked};

    ghost Value = { List Bool };

    ghost view = { λ r. bits_of r.size r.words.now };

    ghost invariant = { λ r. IsPacked r.size r.words.now };
}

impl<'a> Clone for BitRow<'a> {
    ghost use Rattle.std.specs.Prelude.{◌≡◌, ⊤};

    ghost is_clone = { λ r s. s ≡ r };

    ghost is_infallible = { λ _. ⊤ };

    /// Returns the same borrowed row. It never fails.
    fn clone(&self) -> Result<Self, AllocError> {
        Ok(Self {
            words: self.words,
            size: self.size,
        })
    }
}

impl<'a> BitRow<'a> {
    /// Returns whether a number is a member. A number that is not below the size is none.
    pub fn has(&self, element: usize) -> bool
        ensures { result ≡ has self.now element }
    {
        if element >= self.size {
            return false;
        }
        self.words[element / 64] >> (element % 64) & 1 == 1
    }

    /// Returns the least member that is `from` or greater, or `None` if there is none.
    pub fn next_member(&self, from: usize) -> Option<usize>
        ensures { MatchOption result ((i : ℕ) → from ≤ i → has self.now i ≡ false) (λ member. IsNextMember self.now from member) }
    {
        next_bit(self.words, self.size, from)
    }

    /// Returns one word of the row: its bit `i % 64` says whether `i` is a member, for each `i` with `i / 64 == index`. A number that is
    /// not below the size is none.
    pub fn word(&self, index: usize) -> u64
        ensures { (i : ℕ) → i / 64 ≡ index → is_set result (i % 64) ≡ has self.now i }
    {
        if index < self.words.len() {
            self.words[index]
        } else {
            0
        }
    }
}

impl BitTable {
    /// Makes a table of empty rows. Also returns `AllocError` if it would have 2^64 words or more, which no body within the limits reaches.
    pub fn new(alloc: Global, rows: usize, size: usize) -> Result<Self, AllocError>
        ensures rows { IfOk result (λ table. length table ≡ rows) }
        ensures size { IfOk result (λ table. HaveSize size table) }
        ensures empty { IfOk result (λ table. (n f : ℕ) → holds table n f ≡ false) }
    {
        let width = size.div_ceil(64);
        let Some(count) = rows.checked_mul(width) else {
            return Err(AllocError);
        };
        let words = vec![in alloc; 0; count]?;
        Ok(Self {
            words,
            rows,
            width,
            size,
        })
    }

    /// Returns the number of rows.
    pub fn len(&self) -> usize
        ensures { result ≡ length self.now }
    {
        self.rows
    }

    /// Returns whether the row of a node has a fact: `false` past the last row and past the size.
    pub fn holds(&self, node: usize, fact: usize) -> bool
        ensures { result ≡ holds self.now node fact }
    {
        if node >= self.rows {
            return false;
        }
        if fact >= self.size {
            return false;
        }
        self.words[node * self.width + fact / 64] >> (fact % 64) & 1 == 1
    }

    /// Returns the row of a node, or `None` past the last.
    pub fn get(&self, node: usize) -> Option<BitRow<'_>>
        ensures row { MatchOption result ((f : ℕ) → holds self.now node f ≡ false) (λ found. found ≡ row self.now node) }
        ensures within { MatchOption result (length self.now ≤ node) (λ _. node < length self.now) }
    {
        if node < self.rows {
            Some(self.row(node))
        } else {
            None
        }
    }

    /// Returns the row of a node. The table must have that row.
    pub fn row(&self, node: usize) -> BitRow<'_>
        requires { node < length self.now }
        ensures { result ≡ row self.now node }
    {
        let at = node * self.width;
        BitRow {
            words: &self.words[at..at + self.width],
            size: self.size,
        }
    }

    /// Returns one word of a node's row: its bit `i % 64` says whether `i` is a member, for each `i` with `i / 64 == index`.
    pub fn word(&self, node: usize, index: usize) -> u64
        requires node { node < length self.now }
        requires within { 64 * index < length (row self.now node) }
        ensures { (i : ℕ) → i / 64 ≡ index → holds self.now node i ≡ is_set result (i % 64) }
    {
        self.words[node * self.width + index]
    }

    /// Replaces one word of a row. The new word has no bit past the size.
    pub(crate) fn set_word(&mut self, node: usize, index: usize, value: u64)
        requires node { node < length self.old }
        requires within { 64 * index < length (row self.old node) }
        requires clean { (i : ℕ) → i / 64 ≡ index → length (row self.old node) ≤ i → is_set value (i % 64) ≡ false }
        ensures rows { length self.new ≡ length self.old }
        ensures others { self.new ≡ slice_set self.old node (row self.new node) }
        ensures size { length (row self.new node) ≡ length (row self.old node) }
        ensures word { (i : ℕ) → i / 64 ≡ index → holds self.new node i ≡ is_set value (i % 64) }
        ensures rest { (i : ℕ) → (i / 64 ≡ index → ⊥) → holds self.new node i ≡ holds self.old node i }
    {
        let at = node * self.width + index;
        self.words[at] = value;
    }

    /// Adds the bits of `word` to one word of a row, and returns whether any was new. `word` has no bit past the size.
    pub fn join_word(&mut self, node: usize, index: usize, word: u64) -> bool
        requires node { node < length self.old }
        requires within { 64 * index < length (row self.old node) }
        requires clean { (i : ℕ) → i / 64 ≡ index → length (row self.old node) ≤ i → is_set word (i % 64) ≡ false }
        ensures added { AreAdded self.old self.new node (word_has index word) }
        ensures unchanged { result ≡ false → self.new ≡ self.old }
        ensures grown { result ≡ true → absent_count (row self.new node) < absent_count (row self.old node) }
    {
        let before = self.word(node, index);
        let after = before | word;
        if after == before {
            return false;
        }
        self.set_word(node, index, after);
        true
    }

    /// Adds a number below the size to a row, and returns whether it was new.
    pub fn insert(&mut self, node: usize, element: usize) -> bool
        requires node { node < length self.old }
        requires element { element < length (row self.old node) }
        ensures rows { length self.new ≡ length self.old }
        ensures others { self.new ≡ slice_set self.old node (row self.new node) }
        ensures size { length (row self.new node) ≡ length (row self.old node) }
        ensures set { row self.new node ≡ slice_set (row self.old node) element true }
        ensures added { result ≡ not (holds self.old node element) }
    {
        let mask = 1_u64 << (element % 64);
        let word = &mut self.words[node * self.width + element / 64];
        let added = *word & mask == 0;
        *word |= mask;
        added
    }

    /// Adds each number below `count` to a row.
    pub fn insert_below(&mut self, node: usize, count: usize)
        requires node { node < length self.old }
        requires count { count ≤ length (row self.old node) }
        ensures { AreAdded self.old self.new node (λ f. nat_lt f count) }
    {
        let at = node * self.width;
        fill_below(&mut self.words[at..at + self.width], count);
    }

    /// Adds to a row the members of `from`, a row of the same size.
    pub fn union_row(&mut self, node: usize, from: &BitRow<'_>)
        requires node { node < length self.old }
        requires from { length from.now ≡ length (row self.old node) }
        ensures { AreAdded self.old self.new node (has from.now) }
    {
        self.union_row_below(node, from, self.size);
    }

    /// Adds to a row the members of `from` below `count`. The rows may differ in size.
    pub fn union_row_below(&mut self, node: usize, from: &BitRow<'_>, count: usize)
        requires node { node < length self.old }
        requires count { count ≤ length (row self.old node) }
        ensures { AreAdded self.old self.new node (λ f. nat_lt f count && has from.now f) }
    {
        let at = node * self.width;
        union_words_below(&mut self.words[at..at + self.width], from.words, count);
    }

    /// Adds the members of row `from` to row `to`, and returns whether any was new.
    pub(crate) fn union_rows(&mut self, to: usize, from: usize) -> bool
        requires to { to < length self.old }
        requires from { from < length self.old }
        requires apart { from ≡ to → ⊥ }
        ensures rows { length self.new ≡ length self.old }
        ensures others { self.new ≡ slice_set self.old to (row self.new to) }
        ensures size { length (row self.new to) ≡ length (row self.old to) }
        ensures members { (f : ℕ) → holds self.new to f ≡ (holds self.old to f || holds self.old from f) }
        ensures unchanged { result ≡ false → self.new ≡ self.old }
        ensures grown { result ≡ true → absent_count (row self.new to) < absent_count (row self.old to) }
    {
        let at = to * self.width;
        let source = from * self.width;
        union_within(&mut self.words, at, source, self.width)
    }

    /// Adds to row `to` the members of row `from` that are not in row `kill` of `kills`, and returns whether any was new.
    pub(crate) fn union_rows_without(
        &mut self,
        to: usize,
        from: usize,
        kills: &Self,
        kill: usize,
    ) -> bool
        requires to { to < length self.old }
        requires from { from < length self.old }
        requires apart { from ≡ to → ⊥ }
        requires kill { kill < length kills.now }
        requires kills { HaveSize (length (row self.old to)) kills.now }
        ensures rows { length self.new ≡ length self.old }
        ensures others { self.new ≡ slice_set self.old to (row self.new to) }
        ensures size { length (row self.new to) ≡ length (row self.old to) }
        ensures members { (f : ℕ) → holds self.new to f ≡ (holds self.old to f || (holds self.old from f && not (holds kills.now kill f))) }
        ensures unchanged { result ≡ false → self.new ≡ self.old }
        ensures grown { result ≡ true → absent_count (row self.new to) < absent_count (row self.old to) }
    {
        let at = to * self.width;
        let source = from * self.width;
        let taboo = kill * kills.width;
        union_within_without(&mut self.words, at, source, self.width, &kills.words, taboo)
    }
}

/// Adds the bits of `count` words to other words of the same block, and returns whether any was new.
fn union_within(words: &mut [u64], to: usize, from: usize, count: usize) -> bool
    requires to { to + count ≤ length words.old }
    requires from { from + count ≤ length words.old }
    requires apart { (k : ℕ) → k < count → (from + k < to → ⊥) → to + count ≤ from + k }
    ensures words { (k : ℕ) → k < count → slice_index words.new (to + k) ≡ bit_or (slice_index words.old (to + k)) (slice_index words.old (from + k)) }
    ensures others { (j : ℕ) → (to ≤ j → to + count ≤ j) → slice_index words.new j ≡ slice_index words.old j }
    ensures unchanged { result ≡ false → words.new ≡ words.old }
    ensures changed { result ≡ true → (k : ℕ) × (k < to + count) × (slice_index words.new k < 2 ^ 64) × (slice_index words.old k < 2 ^ 64) ×
        (slice_index words.new k ≡ slice_index words.old k → ⊥) }
{
    let mut changed = false;
    for k in 0..count {
        let before = words[to + k];
        let after = before | words[from + k];
        words[to + k] = after;
        changed |= after != before;
    }
    changed
}

/// Adds to `count` words of a block the bits of others that are not bits of `kills`, and returns whether any was new.
fn union_within_without(
    words: &mut [u64],
    to: usize,
    from: usize,
    count: usize,
    kills: &[u64],
    kill: usize,
) -> bool
    requires to { to + count ≤ length words.old }
    requires from { from + count ≤ length words.old }
    requires kill { kill + count ≤ length kills.now }
    requires apart { (k : ℕ) → k < count → (from + k < to → ⊥) → to + count ≤ from + k }
    ensures fits { (k : ℕ) → slice_index kills.now k < 2 ^ 64 }
    ensures words { (k : ℕ) → k < count → slice_index words.new (to + k) ≡
        bit_or (slice_index words.old (to + k)) (bit_and (slice_index words.old (from + k)) (bit_not w64 (slice_index kills.now (kill + k)))) }
    ensures others { (j : ℕ) → (to ≤ j → to + count ≤ j) → slice_index words.new j ≡ slice_index words.old j }
    ensures unchanged { result ≡ false → words.new ≡ words.old }
    ensures changed { result ≡ true → (k : ℕ) × (k < to + count) × (slice_index words.new k < 2 ^ 64) × (slice_index words.old k < 2 ^ 64) ×
        (slice_index words.new k ≡ slice_index words.old k → ⊥) }
{
    let mut changed = false;
    for k in 0..count {
        let before = words[to + k];
        let after = before | (words[from + k] & !kills[kill + k]);
        words[to + k] = after;
        changed |= after != before;
    }
    changed
}
