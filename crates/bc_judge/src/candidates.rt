//! Rows of the loans that an access may conflict with: one for each kind of access and each local.
ghost use Rattle.std.specs.Prelude.{◌≡◌, ◌+◌, ◌*◌, ◌<◌, ◌≤◌, ℕ, true, false, length, IfOk, MatchOption};
ghost use Rattle.std.specs.List.{All};
ghost use Rattle.bc_flow.specs.Flow.{row, holds};
ghost use Rattle.bc_points.specs.declared.access.AccessKind.{AccessKind as Kind};
ghost use Rattle.bc_points.specs.declared.loan.Loan.{Loan as LoanValue};
ghost use Rattle.bc_judge.specs.Candidates.{row_number as number_of, one_writes, HaveCandidates, both_have, IsNextInBoth};

use bc_flow::{BitRow, BitTable};
use bc_points::{AccessKind, Loan};
use bc_syntax::Mutability;
use std::alloc::{AllocError, Global};

/// Returns the number of the row for accesses of a kind to a local: even for reads, odd for writes.
pub(crate) fn row_number(kind: AccessKind, local: u8) -> usize
    ensures number { result ≡ number_of kind local }
    ensures below { result < 512 }
{
    match kind {
        AccessKind::Read => 2 * usize::from(local),
        AccessKind::Write => 2 * usize::from(local) + 1,
    }
}

/// Adds a loan to a row.
fn add(rows: &mut BitTable, at: usize, loan: usize)
    requires at { at < length rows.old }
    requires loan { loan < length (row rows.old at) }
    ensures rows { length rows.new ≡ length rows.old }
    ensures sizes { (n : ℕ) → length (row rows.new n) ≡ length (row rows.old n) }
    ensures kept { (n l : ℕ) → holds rows.old n l ≡ true → holds rows.new n l ≡ true }
    ensures added { holds rows.new at loan ≡ true }
{
    let _added = rows.insert(at, loan);
}

/// Adds a loan to the rows of its path's local: to the one for writes and, if it is mutable, to the one for reads.
fn add_loan(rows: &mut BitTable, number: usize, loan: &Loan<'_>)
    requires local { 2 * loan.now.path.local + 1 < length rows.old }
    requires number { (n : ℕ) → n < length rows.old → number < length (row rows.old n) }
    ensures rows { length rows.new ≡ length rows.old }
    ensures sizes { (n : ℕ) → length (row rows.new n) ≡ length (row rows.old n) }
    ensures kept { (n l : ℕ) → holds rows.old n l ≡ true → holds rows.new n l ≡ true }
    ensures added { (kind : Kind) → one_writes kind loan.now.mutability ≡ true → holds rows.new (number_of kind loan.now.path.local) number ≡ true }
{
    let local = loan.path.local();
    let writes = row_number(AccessKind::Write, local);
    let reads = row_number(AccessKind::Read, local);
    add(rows, writes, number);
    match loan.mutability {
        Mutability::Shared => {}
        Mutability::Mutable => add(rows, reads, number),
    }
}

/// Returns the number of rows up to the last with a loan, or 0 without loans.
fn rows_bound(loans: &[(usize, Loan<'_>)]) -> usize
    ensures { All (λ (made : ℕ × LoanValue). 2 * made.1.path.local + 1 < result) loans.now }
{
    let mut bound = 0;
    for made in loans {
        bound = bound.max(2 * usize::from(made.1.path.local()) + 2);
    }
    bound
}

/// Returns a row for each kind of access and each local, by `row_number`. It has every loan with which such an access conflicts. No row
/// follows the last that has a loan.
pub(crate) fn candidate_rows(
    alloc: Global,
    loans: &[(usize, Loan<'_>)],
) -> Result<BitTable, AllocError>
    ensures { IfOk result (λ rows. HaveCandidates loans.now rows) }
{
    let mut rows = BitTable::new(alloc, rows_bound(loans), loans.len())?;
    for (number, made) in loans.iter().enumerate() {
        add_loan(&mut rows, number, &made.1);
    }
    Ok(rows)
}

/// Returns the least number from `from` on that is in both rows.
pub(crate) fn next_in_both(one: &BitRow<'_>, other: &BitRow<'_>, from: usize) -> Option<usize>
    ensures { MatchOption result ((i : ℕ) → from ≤ i → both_have one.now other.now i ≡ false) (λ number. IsNextInBoth one.now other.now from number) }
{
    let mut at = from;
    while let Some(member) = one.next_member(at) {
        let Some(next) = other.next_member(member) else {
            return None;
        };
        if next == member {
            return Some(member);
        }
        at = next;
    }
    None
}
