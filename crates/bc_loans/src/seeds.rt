//! Where loans flow from the points that make them.
ghost use Rattle.std.specs.Prelude.{◌≡◌, ◌<◌, ◌⊎◌, ◌↔◌, ℕ, true, length, IfOk, OnOk};
ghost use Rattle.std.specs.List.{All};
ghost use Rattle.bc_flow.specs.Flow.{holds, HaveSize};
ghost use Rattle.bc_loans.specs.Flows.{IsSeedIn};

use crate::loan_flow::LoanFlow;
use crate::loan_set::keeps;
use bc_flow::{BitTable, Entry, spread};
use bc_points::region_number;
use std::alloc::{AllocError, Global};

/// Lets a loan, by number, flow along the edges from the point that makes it, to points of its region's value. If that point overwrites its
/// path, it flows nowhere.
fn add_seed(
    coming: &mut BitTable,
    reached: &mut Vec<usize>,
    flow: &LoanFlow<'_>,
    number: usize,
) -> Result<(), AllocError>
    requires number { number < length flow.now.set.loans.now }
    requires points { length coming.old ≡ length flow.now.steps.now }
    requires rows { HaveSize (length flow.now.set.loans.now) coming.old }
    requires reached { All (λ n. n < length flow.now.steps.now) reached.old.items }
    ensures points { OnOk result (length coming.new ≡ length coming.old) }
    ensures rows { OnOk result (HaveSize (length flow.now.set.loans.now) coming.new) }
    ensures reached { OnOk result (All (λ n. n < length flow.now.steps.now) reached.new.items) }
    ensures others { OnOk result ((n l : ℕ) → (l ≡ number → ⊥) → holds coming.new n l ≡ holds coming.old n l) }
    ensures seeded { OnOk result ((n : ℕ) → (holds coming.new n number ≡ true) ↔ ((holds coming.old n number ≡ true) ⊎ IsSeedIn flow.now n number)) }
{
    let made = &flow.set.loans[number];
    if keeps(&made.1.path, &flow.steps[made.0].instruction) {
        let region = region_number(flow.universals, made.1.region);
        if let Some(value) = flow.values.get(region) {
            let from = Entry {
                node: made.0,
                fact: number,
            };
            spread(coming, reached, from, flow.edges, &flow.chains, &value)?;
        }
    }
    Ok(())
}

/// Returns for each point the loans that flow there along an edge from the point that makes them, within the values of their regions.
pub(crate) fn seed_rows(alloc: Global, flow: &LoanFlow<'_>) -> Result<BitTable, AllocError>
    ensures points { IfOk result (λ rows. length rows ≡ length flow.now.steps.now) }
    ensures loans { IfOk result (λ rows. HaveSize (length flow.now.set.loans.now) rows) }
    ensures seeds { IfOk result (λ rows. (n l : ℕ) → (holds rows n l ≡ true) ↔ IsSeedIn flow.now n l) }
{
    let mut rows = BitTable::new(alloc, flow.steps.len(), flow.set.loans.len())?;
    let mut reached = Vec::new(alloc);
    for number in 0..flow.set.loans.len() {
        add_seed(&mut rows, &mut reached, flow, number)?;
    }
    Ok(rows)
}
