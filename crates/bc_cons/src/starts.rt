//! Rows of the elements that regions start with.
ghost use Rattle.std.specs.Prelude.{◌≡◌, ◌==◌, ◌+◌, ◌^◌, ◌<◌, ◌≤◌, ◌&&◌, ◌||◌, ℕ, nat_lt, not, length, IfOk};
ghost use Rattle.std.specs.List.{All, list_any, enumerate_from};
ghost use Rattle.bc_flow.specs.Flow.{row, holds, HaveSize, AreAdded};
ghost use Rattle.bc_flow.specs.BitSet.{has};
ghost use Rattle.bc_cons.specs.Starts.{universal_start, mentions, goes_to_variable, starts_with, AreGrown};
ghost use Rattle.bc_cons.specs.Below.{TyIsBelow, TysAreBelow};
ghost use Rattle.bc_points.specs.Regions.{region_number as number_of};

use bc_flow::{BitRow, BitTable};
use bc_live::LiveSets;
use bc_mir::{Typed, base_regions};
use bc_points::region_number;
use bc_syntax::{Reference, Region, Ty};
use std::alloc::{AllocError, Global};

/// Adds what a universal region starts with.
fn add_universal(rows: &mut BitTable, universals: usize, points: usize, region: usize)
    requires row { region < length rows.old }
    requires region { region < universals }
    requires size { length (row rows.old region) ≡ points + universals }
    requires small { points + universals < 2 ^ 64 }
    ensures { AreAdded rows.old rows.new region (universal_start universals points region) }
{
    if region == 0 {
        rows.insert_below(region, points + universals);
    } else {
        rows.insert_below(region, points);
        let _added = rows.insert(region, points + region);
    }
}

/// Returns rows in which only the universal regions start with elements.
fn universal_rows(
    alloc: Global,
    universals: usize,
    points: usize,
    regions: usize,
) -> Result<BitTable, AllocError>
    requires universals { universals ≤ regions }
    requires small { points + universals < 2 ^ 64 }
    ensures regions { IfOk result (λ rows. length rows ≡ regions) }
    ensures elements { IfOk result (λ rows. HaveSize (points + universals) rows) }
    ensures starts { IfOk result (λ rows. (r e : ℕ) → holds rows r e ≡ (nat_lt r universals && universal_start universals points r e)) }
{
    let mut rows = BitTable::new(alloc, regions, points + universals)?;
    for region in 0..universals {
        add_universal(&mut rows, universals, points, region);
    }
    Ok(rows)
}

/// Adds points to what a variable starts with. A universal region has all of them.
fn add_to_region(
    rows: &mut BitTable,
    universals: u8,
    region: Region,
    live_points: &BitRow<'_>,
    points: usize,
)
    requires region { number_of universals region < length rows.old }
    requires points { (r : ℕ) → r < length rows.old → points ≤ length (row rows.old r) }
    ensures { AreGrown rows.old rows.new (λ r e. number_of universals region == r && goes_to_variable universals points live_points.now r e) }
{
    let number = region_number(universals, region);
    if number >= usize::from(universals) {
        rows.union_row_below(number, live_points, points);
    }
}

/// Adds points to the row of each variable among the regions.
fn add_to_regions(
    rows: &mut BitTable,
    universals: u8,
    regions: &[Region],
    live_points: &BitRow<'_>,
    points: usize,
)
    requires regions { All (λ region. number_of universals region < length rows.old) regions.now }
    requires points { (r : ℕ) → r < length rows.old → points ≤ length (row rows.old r) }
    ensures { AreGrown rows.old rows.new (λ r e.
        list_any (λ region. number_of universals region == r) regions.now && goes_to_variable universals points live_points.now r e) }
{
    match regions {
        [] => {}
        [region, more @ ..] => {
            add_to_region(rows, universals, *region, live_points, points);
            add_to_regions(rows, universals, more, live_points, points);
        }
    }
}

/// Adds points to the row of each variable among the regions of references.
fn add_to_references(
    rows: &mut BitTable,
    universals: u8,
    references: &[Reference],
    live_points: &BitRow<'_>,
    points: usize,
)
    requires regions { All (λ reference. number_of universals reference.region < length rows.old) references.now }
    requires points { (r : ℕ) → r < length rows.old → points ≤ length (row rows.old r) }
    ensures { AreGrown rows.old rows.new (λ r e.
        list_any (λ reference. number_of universals reference.region == r) references.now && goes_to_variable universals points live_points.now r e) }
{
    match references {
        [] => {}
        [reference, more @ ..] => {
            add_to_region(rows, universals, reference.region, live_points, points);
            add_to_references(rows, universals, more, live_points, points);
        }
    }
}

/// Adds points to the row of each variable in a type.
fn add_to_type(
    rows: &mut BitTable,
    universals: u8,
    ty: &Ty,
    live_points: &BitRow<'_>,
    points: usize,
)
    requires regions { TyIsBelow universals (length rows.old) ty.now }
    requires points { (r : ℕ) → r < length rows.old → points ≤ length (row rows.old r) }
    ensures { AreGrown rows.old rows.new (λ r e. mentions universals r ty.now && goes_to_variable universals points live_points.now r e) }
{
    add_to_references(
        rows,
        universals,
        ty.references.as_slice(),
        live_points,
        points,
    );
    let arguments = base_regions(&ty.base);
    add_to_regions(rows, universals, arguments, live_points, points);
}

/// Adds the points on entry to which a local is live to the regions of its type.
fn add_local(
    rows: &mut BitTable,
    universals: u8,
    live: &LiveSets,
    local: usize,
    ty: &Ty,
    points: usize,
)
    requires regions { TyIsBelow universals (length rows.old) ty.now }
    requires points { (r : ℕ) → r < length rows.old → points ≤ length (row rows.old r) }
    ensures { AreGrown rows.old rows.new (λ r e. mentions universals r ty.now && goes_to_variable universals points (row live.now local) r e) }
{
    match live.rows().get(local) {
        Some(live_points) => add_to_type(rows, universals, ty, &live_points, points),
        None => {}
    }
}

/// Adds the points on entry to which each local is live, from number `local` on, to the regions of its type.
fn add_locals(
    rows: &mut BitTable,
    universals: u8,
    live: &LiveSets,
    local: usize,
    locals: &[Ty],
    points: usize,
)
    requires few { local + length locals.now < 2 ^ 64 }
    requires regions { TysAreBelow universals (length rows.old) locals.now }
    requires points { (r : ℕ) → r < length rows.old → points ≤ length (row rows.old r) }
    ensures { AreGrown rows.old rows.new (λ r e. not (nat_lt r universals) && (nat_lt e points
        && list_any (λ here. mentions universals r here.1 && holds live.now here.0 e) (enumerate_from local locals.now))) }
{
    match locals {
        [] => {}
        [ty, more @ ..] => {
            add_local(rows, universals, live, local, ty, points);
            add_locals(rows, universals, live, local + 1, more, points);
        }
    }
}

/// Returns what each region starts with. The regions in the types of locals must have numbers below `regions`.
pub(crate) fn start_rows(
    alloc: Global,
    typed: &Typed,
    live: &LiveSets,
    regions: usize,
) -> Result<BitTable, AllocError>
    requires universals { typed.now.universals ≤ regions }
    requires types { TysAreBelow typed.now.universals regions typed.now.locals }
    ensures regions { IfOk result (λ rows. length rows ≡ regions) }
    ensures elements { IfOk result (λ rows. HaveSize (length typed.now.steps + typed.now.universals) rows) }
    ensures starts { IfOk result (λ rows. (r e : ℕ) → holds rows r e ≡ starts_with typed.now (holds live.now) r e) }
{
    let universals = typed.universals();
    let points = typed.steps().len();
    let mut rows = universal_rows(alloc, usize::from(universals), points, regions)?;
    // One pass over the locals: each type is walked once, and not once for each region.
    add_locals(&mut rows, universals, live, 0, typed.locals(), points);
    Ok(rows)
}
