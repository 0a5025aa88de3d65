//! The locals that are live on entry to each point.
ghost use Rattle.std.specs.Prelude.{◌≡◌, ◌↔◌, ℕ, true, map, length, IfOk};
ghost use Rattle.bc_flow.specs.Graph.{turned};
ghost use Rattle.bc_flow.specs.Flow.{holds, HaveSize, HaveEntries, IsFlow};
ghost use Rattle.bc_bodies.specs.Mir.{edges_of};
ghost use Rattle.bc_live.specs.Entries.{use_entries as uses_of_points, definition_entries as definitions_of_points};
ghost use Rattle.bc_live.specs.Live.{IsLive};

use crate::entries::{definition_entries, use_entries};
use bc_flow::{BitTable, every_node_back, flow, reversed, table, transposed};
use bc_mir::Typed;
use std::alloc::{AllocError, Global};
use std::marker::Model;

/// For each local, the points on entry to which it is live. Contracts see a row of points for each local. (RFC 2094, "Liveness".)
#[derive(Drop)]
pub struct LiveSets {
    rows: BitTable,
}

impl Model for LiveSets {
    ghost use Rattle.std.specs.Prelude.{List, Bool};

    ghost Value = { List (List Bool) };

    ghost view = { λ sets. sets.rows };
}

impl LiveSets {
    /// Returns whether a local is live on entry to a point, both by number. Returns false if the unit has no such local or point.
    ///
    /// Only tests of this repository call it: `bc_cons` takes whole rows.
    pub fn live(&self, local: usize, point: usize) -> bool
        ensures { result ≡ holds self.now local point }
    {
        self.rows.holds(local, point)
    }

    /// Returns a set for each local, in order: the points on entry to which it is live.
    pub fn rows(&self) -> &BitTable
        ensures { result.now ≡ self.now }
    {
        &self.rows
    }
}

/// Returns the points on entry to which each local is live: a path from the point leads to a use of the local, and no earlier point of that
/// path defines it. (RFC 2094, "Liveness".)
pub fn live(alloc: Global, typed: &Typed) -> Result<LiveSets, AllocError>
    ensures locals { IfOk result (λ sets. length sets ≡ length typed.now.locals) }
    ensures points { IfOk result (λ sets. HaveSize (length typed.now.steps) sets) }
    ensures live { IfOk result (λ sets. (l p : ℕ) → (holds sets l p ≡ true) ↔ IsLive typed.now l p) }
{
    let by_point = live_by_point(alloc, typed)?;
    let rows = transposed(alloc, &by_point, typed.locals().len())?;
    Ok(LiveSets { rows })
}

/// Returns the locals that are live on entry to each point.
fn live_by_point(alloc: Global, typed: &Typed) -> Result<BitTable, AllocError>
    ensures points { IfOk result (λ rows. length rows ≡ length typed.now.steps) }
    ensures locals { IfOk result (λ rows. HaveSize (length typed.now.locals) rows) }
    ensures live { IfOk result (λ rows. (l p : ℕ) → (holds rows p l ≡ true) ↔ IsLive typed.now l p) }
{
    let seeds = use_table(alloc, typed)?;
    let kills = definition_table(alloc, typed)?;
    flow_back(alloc, typed, seeds, &kills)
}

/// Returns the locals that each point uses.
fn use_table(alloc: Global, typed: &Typed) -> Result<BitTable, AllocError>
    ensures points { IfOk result (λ rows. length rows ≡ length typed.now.steps) }
    ensures locals { IfOk result (λ rows. HaveSize (length typed.now.locals) rows) }
    ensures uses { IfOk result (λ rows. HaveEntries rows (uses_of_points typed.now)) }
{
    let uses = use_entries(alloc, typed)?;
    table(alloc, typed.steps().len(), typed.locals().len(), &uses)
}

/// Returns the locals that each point defines.
fn definition_table(alloc: Global, typed: &Typed) -> Result<BitTable, AllocError>
    ensures points { IfOk result (λ rows. length rows ≡ length typed.now.steps) }
    ensures locals { IfOk result (λ rows. HaveSize (length typed.now.locals) rows) }
    ensures definitions { IfOk result (λ rows. HaveEntries rows (definitions_of_points typed.now)) }
{
    let definitions = definition_entries(alloc, typed)?;
    table(
        alloc,
        typed.steps().len(),
        typed.locals().len(),
        &definitions,
    )
}

/// Returns the least sets of locals that have the seeds and are closed along the reversed edges: each local of a point goes back to the
/// points before it, except into a point that kills it.
fn flow_back(
    alloc: Global,
    typed: &Typed,
    seeds: BitTable,
    kills: &BitTable,
) -> Result<BitTable, AllocError>
    requires points { length seeds ≡ length typed.now.steps }
    requires seeds { HaveSize (length typed.now.locals) seeds }
    requires kills { HaveSize (length typed.now.locals) kills.now }
    ensures points { IfOk result (λ rows. length rows ≡ length typed.now.steps) }
    ensures locals { IfOk result (λ rows. HaveSize (length typed.now.locals) rows) }
    ensures flow { IfOk result (λ rows. IsFlow (map turned (edges_of typed.now)) seeds kills.now rows) }
{
    let back = reversed(alloc, &typed.edges(alloc)?)?;
    let pending = every_node_back(alloc, typed.steps().len())?;
    flow(alloc, &back, seeds, kills, pending)
}
