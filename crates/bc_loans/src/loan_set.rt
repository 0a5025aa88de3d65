//! The loans of a body, indexed by their paths: which of them an instruction ends, in words of 64 loans.
ghost use Rattle.std.specs.Prelude.{◌≡◌, ◌*◌, ◌/◌, ◌%◌, ◌<◌, ◌≤◌, ℕ, length, not, IfOk};
ghost use Rattle.std.specs.List.{All};
ghost use Rattle.bc_flow.specs.Packed.{is_set};
ghost use Rattle.bc_flow.specs.Flow.{holds, HaveSize};
ghost use Rattle.bc_points.specs.Accesses.{overwritten as overwritten_place};
ghost use Rattle.bc_points.specs.Points.{kills};
ghost use Rattle.bc_points.specs.declared.loan.Loan.{Loan as LoanValue};
ghost use Rattle.bc_loans.specs.Overwrites.{begins_with, projects, has_prefix, is_overwritten, AreProjecting, AreByDepth};

use crate::entries::{local_entries, projection_entries, projection_number};
use bc_flow::{BitTable, table};
use bc_mir::Instruction;
use bc_points::{Loan, PlaceRef, is_prefix};
use bc_syntax::{Projection, Statement, Terminator};
use std::alloc::{AllocError, Global};

/// Returns a bound of the locals of paths: one more than the greatest, or 0 if there are no loans.
fn locals_bound(loans: &[(usize, Loan<'_>)]) -> usize
    ensures { All (λ (made : ℕ × LoanValue). made.1.path.local < result) loans.now }
{
    let mut bound = 0;
    for made in loans {
        bound = bound.max(usize::from(made.1.path.local()) + 1);
    }
    bound
}

/// Returns for each local, up to the greatest that has any, the loans whose paths begin with it.
fn loans_by_local(alloc: Global, loans: &[(usize, Loan<'_>)]) -> Result<BitTable, AllocError>
    ensures sizes { IfOk result (λ rows. HaveSize (length loans.now) rows) }
    ensures loans { IfOk result (λ rows. (k l : ℕ) → holds rows k l ≡ begins_with loans.now k l) }
{
    let entries = local_entries(alloc, loans)?;
    let rows = table(alloc, locals_bound(loans), loans.len(), &entries)?;
    Ok(rows)
}

/// Returns the number of projections of the longest path, or 0 if there are no loans.
fn depth_bound(loans: &[(usize, Loan<'_>)]) -> usize
    ensures { All (λ (made : ℕ × LoanValue). length made.1.path.projections ≤ result) loans.now }
{
    let mut bound = 0;
    for made in loans {
        bound = bound.max(made.1.path.projections().len());
    }
    bound
}

/// Returns for each projection the loans whose paths have it at a depth.
fn loans_by_projection(
    alloc: Global,
    loans: &[(usize, Loan<'_>)],
    depth: usize,
) -> Result<BitTable, AllocError>
    ensures projections { IfOk result (λ rows. length rows ≡ 257) }
    ensures sizes { IfOk result (λ rows. HaveSize (length loans.now) rows) }
    ensures loans { IfOk result (λ rows. AreProjecting loans.now depth rows) }
{
    let entries = projection_entries(alloc, loans, depth)?;
    let rows = table(alloc, 257, loans.len(), &entries)?;
    Ok(rows)
}

/// Returns for each depth of the longest path, and each projection, the loans whose paths have it there.
fn loans_by_depth(alloc: Global, loans: &[(usize, Loan<'_>)]) -> Result<Vec<BitTable>, AllocError>
    ensures loans { IfOk result (λ tables. AreByDepth loans.now tables.items) }
{
    let mut tables = Vec::new(alloc);
    for depth in 0..depth_bound(loans) {
        tables.push(loans_by_projection(alloc, loans, depth)?)?;
    }
    Ok(tables)
}

/// Returns the place that an instruction overwrites, if it overwrites one.
fn overwritten(instruction: &Instruction) -> Option<PlaceRef<'_>>
    ensures { result ≡ overwritten_place instruction.now }
{
    match instruction {
        Instruction::Statement(Statement::Assign(assignment)) => {
            Some(PlaceRef::of(&assignment.target))
        }
        Instruction::Statement(Statement::Dead(local)) => Some(PlaceRef::of_local(*local)),
        Instruction::Terminator(Terminator::Call(call)) => {
            Some(PlaceRef::of(&call.get().destination))
        }
        Instruction::Terminator(Terminator::Invoke(invocation)) => {
            Some(PlaceRef::of(&invocation.get().destination))
        }
        Instruction::Statement(Statement::Drop(_) | Statement::Nop)
        | Instruction::Terminator(
            Terminator::Goto(_) | Terminator::If(_) | Terminator::Return | Terminator::Stop,
        ) => None,
    }
}

/// Returns whether an instruction overwrites no prefix of a path.
pub(crate) fn keeps(path: &PlaceRef<'_>, instruction: &Instruction) -> bool
    ensures { result ≡ not (kills path.now instruction.now) }
{
    match overwritten(instruction) {
        Some(place) => !is_prefix(&place, path),
        None => true,
    }
}

/// The loans of a body, each with the number of the point that makes it, and tables of their paths. These show in words of 64 loans which
/// loans have a place as a prefix of their path (after `BorrowSet` of `rustc_borrowck`).
#[derive(Drop)]
pub(crate) struct LoanSet<'a> {
    pub loans: &'a [(usize, Loan<'a>)],
    by_local: BitTable,
    by_depth: Vec<BitTable>,
    ghost sizes: { HaveSize (length loans.now) by_local },
    ghost locals: { (k l : ℕ) → holds by_local k l ≡ begins_with loans.now k l },
    ghost depths: { AreByDepth loans.now by_depth.items },
}

impl<'a> LoanSet<'a> {
    /// Returns the set of these loans.
    pub(crate) fn of(
        alloc: Global,
        loans: &'a [(usize, Loan<'a>)],
    ) -> Result<LoanSet<'a>, AllocError>
        ensures { IfOk result (λ set. set.loans.now ≡ loans.now) }
    {
        let by_local = loans_by_local(alloc, loans)?;
        let by_depth = loans_by_depth(alloc, loans)?;
        Ok(LoanSet {
            loans,
            by_local,
            by_depth,
        })
    }

    /// Returns which loans of a word have a projection at a depth of their path.
    fn projecting_word(&self, word: usize, depth: usize, projection: &Projection) -> u64
        requires word { 64 * word < length self.now.loans.now }
        ensures { (l : ℕ) → l / 64 ≡ word → is_set result (l % 64) ≡ projects self.now.loans.now depth projection.now l }
    {
        match self.by_depth.get(depth) {
            Some(rows) => rows.word(projection_number(projection), word),
            None => 0,
        }
    }

    /// Returns which loans of a word have a place as a prefix of their path: those of its local that have each of its projections at the
    /// same depth.
    fn prefixed_word(&self, word: usize, place: &PlaceRef<'_>) -> u64
        requires word { 64 * word < length self.now.loans.now }
        ensures { (l : ℕ) → l / 64 ≡ word → is_set result (l % 64) ≡ has_prefix self.now.loans.now place.now l }
    {
        let local = usize::from(place.local());
        if local >= self.by_local.len() {
            return 0;
        }
        let mut found = self.by_local.word(local, word);
        for (depth, projection) in place.projections().iter().enumerate() {
            found &= self.projecting_word(word, depth, projection);
        }
        found
    }

    /// Returns which loans of a word an instruction ends: it overwrites a prefix of their path.
    pub(crate) fn overwritten_word(&self, word: usize, instruction: &Instruction) -> u64
        requires word { 64 * word < length self.now.loans.now }
        ensures { (l : ℕ) → l / 64 ≡ word → is_set result (l % 64) ≡ is_overwritten self.now.loans.now instruction.now l }
    {
        match overwritten(instruction) {
            Some(place) => self.prefixed_word(word, &place),
            None => 0,
        }
    }
}
