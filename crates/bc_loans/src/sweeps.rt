//! The points that loans reach, for a word of 64 loans at a time. Sweeps visit the points that one of them reached, in order, until none is
//! new at a point that a sweep has passed.
ghost use Rattle.std.specs.Prelude.{◌≡◌, ◌+◌, ◌*◌, ◌/◌, ◌%◌, ◌<◌, ◌≤◌, ◌↔◌, [], ◌∷◌, ℕ, true, false, length, IfOk, OnOk};
ghost use Rattle.bc_flow.specs.Packed.{is_set, word_has};
ghost use Rattle.bc_flow.specs.Graph.{HasEdge};
ghost use Rattle.bc_flow.specs.Flow.{row, holds, HaveSize};
ghost use Rattle.bc_loans.specs.Flows.{inside, goes_on, AreSwept, AreWalkedIn, IsBegun, IsReady, IsSweep, IsWalkedIn, IsWordWalked};
ghost use Rattle.bc_loans.specs.Sweeps.{ArePushed, AreTargets, HasSet};

use crate::insides::InsideWords;
use crate::loan_flow::LoanFlow;
use crate::seeds::seed_rows;
use bc_flow::{BitTable, Edge};
use std::alloc::{AllocError, Global};

/// Adds a point to the first row of a table if a new loan reached it.
fn note(reached: &mut BitTable, point: usize, grown: bool)
    requires point { point < length (row reached.old 0) }
    requires set { 0 < length reached.old }
    ensures set { HasSet (length (row reached.old 0)) reached.new }
    ensures kept { (n : ℕ) → holds reached.old 0 n ≡ true → holds reached.new 0 n ≡ true }
    ensures noted { grown ≡ true → holds reached.new 0 point ≡ true }
{
    if grown {
        let _new = reached.insert(0, point);
    }
}

/// How far loans have flowed: for each point the loans that reached it; and for one word of loans, the points that one of them reached, and
/// which of them are inside at points.
#[derive(Drop)]
struct Sweep {
    rows: BitTable,
    reached: BitTable,
    insides: InsideWords,
}

impl Sweep {
    /// Lets the loans of `here` that are inside at the target of an edge enter there. Returns whether one is new there, and the target is
    /// the source of the edge or before it.
    fn enter(&mut self, flow: &LoanFlow<'_>, word: usize, edge: Edge, here: u64) -> bool
        requires word { 64 * word < length flow.now.set.loans.now }
        requires to { edge.to < length flow.now.steps.now }
        requires clean { (l : ℕ) → l / 64 ≡ word → length flow.now.set.loans.now ≤ l → is_set here (l % 64) ≡ false }
        requires sweep { IsSweep flow.now word self.old }
        ensures sweep { IsSweep flow.now word self.new }
        ensures pushed { ArePushed (edge ∷ []) edge.from (word_has word here) (inside flow.now) result self.old.rows self.new.rows }
    {
        let inside = self.insides.word_at(flow, word, edge.to);
        let grown = self.rows.join_word(edge.to, word, here & inside);
        note(&mut self.reached, edge.to, grown);
        let is_behind = edge.to <= edge.from;
        is_behind & grown
    }

    /// Lets the loans of `here` flow along the edges from a point. Returns whether one is new at that point or at one before it.
    fn push_on(&mut self, flow: &LoanFlow<'_>, word: usize, point: usize, here: u64) -> bool
        requires word { 64 * word < length flow.now.set.loans.now }
        requires point { point < length flow.now.steps.now }
        requires clean { (l : ℕ) → l / 64 ≡ word → length flow.now.set.loans.now ≤ l → is_set here (l % 64) ≡ false }
        requires sweep { IsSweep flow.now word self.old }
        ensures sweep { IsSweep flow.now word self.new }
        ensures pushed { ArePushed flow.now.edges.now point (word_has word here) (inside flow.now) result self.old.rows self.new.rows }
    {
        let edges = flow.edges;
        let mut again = false;
        let mut at = flow.chains.first[point];
        while at < edges.len() {
            again |= self.enter(flow, word, edges[at], here);
            at = flow.chains.next[at];
        }
        again
    }

    /// Lets the loans of a word that are at a point flow on from it, except for those that the point overwrites. Returns whether one is new
    /// at that point or at one before it.
    fn visit(&mut self, flow: &LoanFlow<'_>, word: usize, point: usize) -> bool
        requires word { 64 * word < length flow.now.set.loans.now }
        requires point { point < length flow.now.steps.now }
        requires sweep { IsSweep flow.now word self.old }
        ensures sweep { IsSweep flow.now word self.new }
        ensures pushed { ArePushed flow.now.edges.now point (goes_on flow.now word self.old.rows point) (inside flow.now) result self.old.rows self.new.rows }
    {
        let ended = flow
            .set
            .overwritten_word(word, &flow.steps[point].instruction);
        let here = self.rows.word(point, word) & !ended;
        self.push_on(flow, word, point, here)
    }

    /// Lets the loans of a word flow on from the points that one of them reached, in order. Returns whether one is new at a point that was
    /// passed, so that another sweep is needed.
    fn sweep(&mut self, flow: &LoanFlow<'_>, word: usize) -> bool
        requires word { 64 * word < length flow.now.set.loans.now }
        requires sweep { IsSweep flow.now word self.old }
        ensures sweep { IsSweep flow.now word self.new }
        ensures swept { AreSwept flow.now word result self.old.rows self.new.rows }
    {
        let mut again = false;
        let mut from = 0;
        while let Some(point) = self.reached.row(0).next_member(from) {
            again |= self.visit(flow, word, point);
            from = point + 1;
        }
        again
    }

    /// Lets the loans of a word flow on by sweeps, until none is new at a point that was passed.
    fn sweep_all(&mut self, flow: &LoanFlow<'_>, word: usize)
        requires word { 64 * word < length flow.now.set.loans.now }
        requires sweep { IsSweep flow.now word self.old }
        requires begun { IsBegun flow.now word self.old.rows }
        ensures sweep { IsSweep flow.now word self.new }
        ensures walked { IsWordWalked flow.now word self.old.rows self.new.rows }
    {
        'sweeps: while self.sweep(flow, word) {}
    }

    /// Returns the state before all sweeps: each loan has flowed along the edges from the point that makes it, and no words are known.
    fn of(alloc: Global, flow: &LoanFlow<'_>) -> Result<Sweep, AllocError>
        ensures ready { IfOk result (IsReady flow.now) }
        ensures walked { IfOk result (λ sweep. AreWalkedIn flow.now 0 sweep.rows) }
    {
        let insides = InsideWords::of(alloc, flow.steps.len())?;
        let rows = seed_rows(alloc, flow)?;
        let reached = BitTable::new(alloc, 1, 0)?;
        Ok(Sweep {
            rows,
            reached,
            insides,
        })
    }

    /// Lets the loans of a word flow from their first points to all that they reach.
    fn walk(&mut self, alloc: Global, flow: &LoanFlow<'_>, word: usize) -> Result<(), AllocError>
        requires word { 64 * word < length flow.now.set.loans.now }
        requires ready { IsReady flow.now self.old }
        requires walked { AreWalkedIn flow.now word self.old.rows }
        ensures ready { OnOk result (IsReady flow.now self.new) }
        ensures walked { OnOk result (AreWalkedIn flow.now (word + 1) self.new.rows) }
    {
        self.reached = first_reached(alloc, flow, word)?;
        self.insides.forget(alloc, flow.steps.len())?;
        self.sweep_all(flow, word);
        Ok(())
    }
}

/// Adds the points to which edges lead from a point to the first row of a table.
fn reach_from(reached: &mut BitTable, flow: &LoanFlow<'_>, point: usize)
    requires set { HasSet (length flow.now.steps.now) reached.old }
    requires point { point < length flow.now.steps.now }
    ensures set { HasSet (length flow.now.steps.now) reached.new }
    ensures kept { (n : ℕ) → holds reached.old 0 n ≡ true → holds reached.new 0 n ≡ true }
    ensures reached { (n : ℕ) → HasEdge flow.now.edges.now point n → holds reached.new 0 n ≡ true }
{
    let edges = flow.edges;
    let mut at = flow.chains.first[point];
    while at < edges.len() {
        let _new = reached.insert(0, edges[at].to);
        at = flow.chains.next[at];
    }
}

/// Returns, as the first row of a table, the points to which edges lead from the points that make the loans of a word.
fn first_reached(alloc: Global, flow: &LoanFlow<'_>, word: usize) -> Result<BitTable, AllocError>
    requires word { 64 * word < length flow.now.set.loans.now }
    ensures set { IfOk result (HasSet (length flow.now.steps.now)) }
    ensures targets { IfOk result (λ reached. (l : ℕ) → l / 64 ≡ word → AreTargets flow.now.edges.now flow.now.set.loans.now l reached) }
{
    let mut reached = BitTable::new(alloc, 1, flow.steps.len())?;
    let loans = flow.set.loans;
    let first = 64 * word;
    for k in 0..(loans.len() - first).min(64) {
        reach_from(&mut reached, flow, loans[first + k].0);
    }
    Ok(reached)
}

/// Returns for each point the loans that reach it within the values of their regions.
pub(crate) fn swept_rows(alloc: Global, flow: &LoanFlow<'_>) -> Result<BitTable, AllocError>
    ensures points { IfOk result (λ rows. length rows ≡ length flow.now.steps.now) }
    ensures loans { IfOk result (λ rows. HaveSize (length flow.now.set.loans.now) rows) }
    ensures walked { IfOk result (λ rows. (l p : ℕ) → (holds rows p l ≡ true) ↔ IsWalkedIn flow.now l p) }
{
    let mut sweep = Sweep::of(alloc, flow)?;
    for word in 0..flow.set.loans.len().div_ceil(64) {
        sweep.walk(alloc, flow, word)?;
    }
    let Sweep {
        rows,
        reached: _,
        insides: _,
    } = sweep;
    Ok(rows)
}
