//! The paths of loans as entries of tables: the local that each begins with, and its projections.
ghost use Rattle.std.specs.Prelude.{◌≡◌, ◌<◌, ⊤, length, slice_get, IfOk, MatchOption};
ghost use Rattle.bc_flow.specs.Flow.{AreEntriesWithin};
ghost use Rattle.bc_loans.specs.Entries.{local_entries as at_locals, projection_number as number_of, entry_at as at_projection, projection_entries as at_projections};

use bc_flow::Entry;
use bc_points::Loan;
use bc_syntax::Projection;
use std::alloc::{AllocError, Global};

/// Returns an entry for each loan at the local of its path.
pub(crate) fn local_entries(
    alloc: Global,
    loans: &[(usize, Loan<'_>)],
) -> Result<Vec<Entry>, AllocError>
    ensures { IfOk result (λ entries. entries.items ≡ at_locals loans.now) }
{
    let mut entries = Vec::with_capacity(alloc, loans.len())?;
    for (number, made) in loans.iter().enumerate() {
        entries.push(Entry {
            node: usize::from(made.1.path.local()),
            fact: number,
        })?;
    }
    Ok(entries)
}

/// Returns the number of a projection among all 257: 0 for a dereference, and one more than its own for a field.
pub(crate) fn projection_number(projection: &Projection) -> usize
    ensures number { result ≡ number_of projection.now }
    ensures within { result < 257 }
{
    match projection {
        Projection::Deref => 0,
        Projection::Field(field) => usize::from(*field) + 1,
    }
}

/// Returns the entry of a loan at the projection that its path has at a depth, if it has one.
fn entry_at(number: usize, loan: &Loan<'_>, depth: usize) -> Option<Entry>
    ensures entry { result ≡ at_projection number (slice_get loan.now.path.projections depth) }
    ensures within { MatchOption result ⊤ (λ entry. (entry.node < 257) × (entry.fact ≡ number)) }
{
    match loan.path.projections().get(depth) {
        Some(projection) => Some(Entry {
            node: projection_number(projection),
            fact: number,
        }),
        None => None,
    }
}

/// Returns the entries of loans at the projections that their paths have at a depth, if they have one.
pub(crate) fn projection_entries(
    alloc: Global,
    loans: &[(usize, Loan<'_>)],
    depth: usize,
) -> Result<Vec<Entry>, AllocError>
    ensures entries { IfOk result (λ entries. entries.items ≡ at_projections depth loans.now) }
    ensures within { IfOk result (λ entries. AreEntriesWithin entries.items 257 (length loans.now)) }
{
    let mut entries = Vec::with_capacity(alloc, loans.len())?;
    for (number, made) in loans.iter().enumerate() {
        match entry_at(number, &made.1, depth) {
            Some(entry) => entries.push(entry)?,
            None => {}
        }
    }
    Ok(entries)
}
