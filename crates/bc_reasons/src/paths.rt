//! Paths to uses of locals (RFC 2094, "Liveness").
//!
//! Such a path is found as a chain is: the points take the place of regions and the locals that of elements. A point starts with the locals
//! that it uses, and must outlive each point to which an edge leads from it, unless it defines the local.
ghost use Rattle.std.specs.Prelude.{◌≡◌, ◌↔◌, ◌≤◌, ◌++◌, ℕ, true, map, length, IfOk, OnOk, MatchOption};
ghost use Rattle.bc_flow.specs.Flow.{holds, HaveSize};
ghost use Rattle.bc_flow.specs.Graph.{AreWithin};
ghost use Rattle.bc_bodies.specs.Mir.{edges_of};
ghost use Rattle.bc_points.specs.Points.{Uses};
ghost use Rattle.bc_points.specs.Regions.{region_number as number_of};
ghost use Rattle.bc_live.specs.Entries.{entries_at, use_entries as uses_of_points};
ghost use Rattle.bc_live.specs.Live.{IsLive};
ghost use Rattle.bc_reasons.specs.Paths.{IsFirstUsePath, is_local as local_test, defines as definition_test, links_of};

use bc_cons::{Facts, NumberedConstraint};
use bc_flow::{BitTable, Entry, table};
use bc_mir::Typed;
use bc_points::{defines, push_uses, region_number};
use bc_solve::Explainer;
use bc_syntax::Region;
use std::alloc::{AllocError, Global};

/// Appends an entry for each local.
fn push_entries(entries: &mut Vec<Entry>, point: usize, locals: &[u8]) -> Result<(), AllocError>
    ensures { OnOk result (entries.new.items ≡ entries.old.items ++ entries_at point locals.now) }
{
    for local in locals {
        entries.push(Entry {
            node: point,
            fact: usize::from(*local),
        })?;
    }
    Ok(())
}

/// Returns what each point uses, as entries of points and locals.
fn use_entries(alloc: Global, typed: &Typed) -> Result<Vec<Entry>, AllocError>
    ensures { IfOk result (λ entries. entries.items ≡ uses_of_points typed.now) }
{
    let mut entries = Vec::with_capacity(alloc, typed.steps().len())?;
    let mut locals = Vec::new(alloc);
    for (point, step) in typed.steps().iter().enumerate() {
        locals.clear();
        push_uses(alloc, &mut locals, typed, &step.instruction)?;
        push_entries(&mut entries, point, &locals)?;
    }
    Ok(entries)
}

/// Returns for each point the locals that it uses.
fn use_table(alloc: Global, typed: &Typed) -> Result<BitTable, AllocError>
    ensures points { IfOk result (λ rows. length rows ≡ length typed.now.steps) }
    ensures few { length typed.now.steps ≤ 4096 }
    ensures locals { IfOk result (λ rows. HaveSize (length typed.now.locals) rows) }
    ensures uses { IfOk result (λ rows. (p l : ℕ) → (holds rows p l ≡ true) ↔ Uses typed.now l p) }
{
    let points = typed.steps().len();
    let uses = use_entries(alloc, typed)?;
    table(alloc, points, typed.locals().len(), &uses)
}

fn is_local(local: usize, other: Option<u8>) -> bool
    ensures { result ≡ local_test local other }
{
    match other {
        Some(other) => usize::from(other) == local,
        None => false,
    }
}

/// Returns whether a point defines a local. Returns false if there is no such point.
fn defines_local(typed: &Typed, local: usize, point: usize) -> bool
    ensures { result ≡ definition_test typed.now local point }
{
    match typed.steps().get(point) {
        Some(step) => is_local(local, defines(&step.instruction)),
        None => false,
    }
}

/// Returns the edges that leave points which do not define a local, as constraints between points.
fn links(alloc: Global, typed: &Typed, local: usize) -> Result<Vec<NumberedConstraint>, AllocError>
    ensures value { IfOk result (λ links. links.items ≡ links_of typed.now local) }
    ensures within { AreWithin (edges_of typed.now) (length typed.now.steps) }
{
    let edges = typed.edges(alloc)?;
    edges
        .iter()
        .filter(|edge| !defines_local(typed, local, edge.from))
        .map(|edge| NumberedConstraint {
            longer: edge.from,
            shorter: edge.to,
        })
        .collect(alloc)
}

/// Returns the facts of which a chain from a point to a local is a path to a use of the local.
fn use_facts(alloc: Global, typed: &Typed, local: usize) -> Result<Facts, AllocError>
    ensures universals { IfOk result (λ facts. facts.universals ≡ 0) }
    ensures uses { IfOk result (λ facts. (p l : ℕ) → (holds facts.starts p l ≡ true) ↔ Uses typed.now l p) }
    ensures links { IfOk result (λ facts. facts.pairs ≡ links_of typed.now local) }
{
    let starts = use_table(alloc, typed)?;
    let links = links(alloc, typed, local)?;
    Ok(Facts::new(0, starts, links, typed.locals().len()))
}

/// Returns the numbers of regions, if none is universal.
fn numbers(alloc: Global, regions: &[Region]) -> Result<Vec<usize>, AllocError>
    ensures { IfOk result (λ numbers. numbers.items ≡ map (number_of 0) regions.now) }
{
    regions
        .iter()
        .map(|region| region_number(0, *region))
        .collect(alloc)
}

/// Returns the path from a point to the nearest use of a local, both by number: the points in order, from the point itself to the one that
/// uses the local, of which no earlier one defines it. Of several shortest paths it is the first, by the numbers of the points. Returns
/// `None` exactly if the local is not live on entry to the point. (RFC 2094, "Liveness".)
pub fn use_path(
    alloc: Global,
    typed: &Typed,
    local: usize,
    point: usize,
) -> Result<Option<Vec<usize>>, AllocError>
    ensures { IfOk result (λ found. MatchOption found
        (¬ (IsLive typed.now local point))
        (λ path. IsFirstUsePath typed.now local point path.items)) }
{
    let facts = use_facts(alloc, typed, local)?;
    let mut explainer = Explainer::new(alloc, &facts)?;
    match explainer.explain(alloc, point, local)? {
        Some(chain) => Ok(Some(numbers(alloc, &chain)?)),
        None => Ok(None),
    }
}
