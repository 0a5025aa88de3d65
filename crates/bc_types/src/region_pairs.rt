//! Pairs of the regions of one declaration, stored as a small table of bits.
ghost use Rattle.std.specs.Prelude.{◌≡◌, ℕ, ◌<◌, false, ◌++◌, map, length, IfOk, MatchOption, OnOk};
ghost use Rattle.bc_flow.specs.Flow.{holds, HaveSize};
ghost use Rattle.bc_types.specs.RegionPairs.{AreMarked, IsMarked};
ghost use Rattle.bc_types.specs.Subtype.{same_region};
ghost use Rattle.bc_types.specs.WellFormed.{is_demanded, pair_where, pairs_where, replaced_pair, row_where};

use crate::subtype::{Constraint, push_outlives};
use bc_flow::BitTable;
use bc_shapes::argument_of;
use bc_syntax::Region;
use std::alloc::{AllocError, Global};
use std::marker::Model;

/// Pairs of the first regions of a declaration: a row of bits for each longer region, and in it a bit for each shorter one. Both are
/// numbers, of which `'static` has 0.
///
/// Contracts see the list of the pairs, by the longer region and then by the shorter one.
#[derive(Drop)]
pub(crate) struct RegionPairs {
    bits: BitTable,
}

impl Model for RegionPairs {
    ghost use Rattle.std.specs.Prelude.{List, length};
    ghost use Rattle.bc_flow.specs.Flow.{holds};
    ghost use Rattle.bc_types.specs.declared.subtype.Constraint.{Constraint};
    ghost use Rattle.bc_types.specs.WellFormed.{pairs_where};

    ghost Value = { List Constraint };

    ghost view = { λ pairs. pairs_where (holds pairs.bits) (length pairs.bits) };
}

/// Returns the number of a universal region if it is below `count`, otherwise `None`.
fn number_of(region: Region, count: usize) -> Option<usize>
    ensures { MatchOption result
        ((number : ℕ) → number < count → same_region (Region.Universal number) region ≡ false)
        (λ found. (found < count) × (region ≡ Region.Universal found)) }
{
    match region {
        Region::Universal(number) => {
            let found = usize::from(number);
            if found < count { Some(found) } else { None }
        }
        Region::Variable(_) => None,
    }
}

/// Sets the bit of a pair, if it has one.
fn mark(bits: &mut BitTable, pair: Constraint)
    requires { HaveSize (length bits.old) bits.old }
    ensures { IsMarked bits.old bits.new pair }
{
    let Some(longer) = number_of(pair.longer, bits.len()) else {
        return;
    };
    let Some(shorter) = number_of(pair.shorter, bits.len()) else {
        return;
    };
    let _added = bits.insert(longer, shorter);
}

/// Returns a table with the bits of these pairs.
fn marked(alloc: Global, count: usize, pairs: &[Constraint]) -> Result<BitTable, AllocError>
    ensures { IfOk result (λ bits. AreMarked count pairs.now bits) }
{
    let mut bits = BitTable::new(alloc, count, count)?;
    for pair in pairs {
        mark(&mut bits, *pair);
    }
    Ok(bits)
}

/// Appends the pair of two regions, replaced by their arguments, if its bit is set.
fn push_pair(
    constraints: &mut Vec<Constraint>,
    bits: &BitTable,
    arguments: &[Region],
    longer: usize,
    shorter: usize,
) -> Result<(), AllocError>
    ensures { OnOk result (constraints.new.items
        ≡ constraints.old.items ++ map (replaced_pair arguments.now) (pair_where (holds bits.now) longer shorter)) }
{
    if bits.holds(longer, shorter) {
        push_outlives(
            constraints,
            argument_of(arguments, longer),
            argument_of(arguments, shorter),
        )?;
    }
    Ok(())
}

/// Appends the pairs of one longer region.
fn push_row(
    constraints: &mut Vec<Constraint>,
    bits: &BitTable,
    arguments: &[Region],
    longer: usize,
) -> Result<(), AllocError>
    ensures { OnOk result (constraints.new.items
        ≡ constraints.old.items ++ map (replaced_pair arguments.now) (row_where (holds bits.now) (length bits.now) longer)) }
{
    for shorter in 0..bits.len() {
        push_pair(constraints, bits, arguments, longer, shorter)?;
    }
    Ok(())
}

/// Appends the pairs of a table.
fn push_rows(
    constraints: &mut Vec<Constraint>,
    bits: &BitTable,
    arguments: &[Region],
) -> Result<(), AllocError>
    ensures { OnOk result (constraints.new.items
        ≡ constraints.old.items ++ map (replaced_pair arguments.now) (pairs_where (holds bits.now) (length bits.now))) }
{
    for longer in 0..bits.len() {
        push_row(constraints, bits, arguments, longer)?;
    }
    Ok(())
}

impl RegionPairs {
    /// Returns the given pairs that are between the first `count` regions of a declaration.
    pub(crate) fn among(
        alloc: Global,
        count: usize,
        pairs: &[Constraint],
    ) -> Result<RegionPairs, AllocError>
        ensures { IfOk result (λ kept. kept ≡ pairs_where (is_demanded pairs.now) count) }
    {
        let bits = marked(alloc, count, pairs)?;
        Ok(RegionPairs { bits })
    }

    /// Appends the pairs, with the declaration's regions replaced by arguments.
    pub(crate) fn push_replaced(
        &self,
        constraints: &mut Vec<Constraint>,
        arguments: &[Region],
    ) -> Result<(), AllocError>
        ensures { OnOk result (constraints.new.items ≡ constraints.old.items ++ map (replaced_pair arguments.now) self.now) }
    {
        push_rows(constraints, &self.bits, arguments)
    }
}
