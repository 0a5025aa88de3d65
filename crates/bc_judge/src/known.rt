//! What a body knows of its universal regions: which outlive which.
ghost use Rattle.std.specs.Prelude.{◌≡◌, ◌≤◌, ◌++◌, [], length, map, IfOk, OnOk};
ghost use Rattle.std.specs.List.{flat_map, range_with_len};
ghost use Rattle.bc_flow.specs.Flow.{row, holds, HaveSize, IsFlow};
ghost use Rattle.bc_flow.specs.Graph.{AreWithin};
ghost use Rattle.bc_judge.specs.Lifetimes.{TellsKnown};
ghost use Rattle.bc_judge.specs.Known.{edge_of, edges_between, pair_edges, known_edges as edges_known, entries_of};

use bc_flow::{BitTable, Edge, Entry, every_node, flow, table};
use bc_mir::{Constraint, Typed};
use bc_syntax::{Outlives, Region};
use std::alloc::{AllocError, Global};
use std::marker::Model;

/// For each universal region, those that it is known to outlive. Contracts see a row of regions for each region. (RFC 2094, "Named
/// lifetimes".)
#[derive(Drop)]
pub struct KnownRelations {
    rows: BitTable,
}

impl Model for KnownRelations {
    ghost use Rattle.std.specs.Prelude.{List, Bool};

    ghost Value = { List (List Bool) };

    ghost view = { λ known. known.rows };
}

impl KnownRelations {
    /// Returns whether the first region is known to outlive the second, both by number. Returns false if the body has no such universal
    /// region.
    pub fn contains(&self, longer: usize, shorter: usize) -> bool
        ensures { result ≡ holds self.now longer shorter }
    {
        self.rows.holds(longer, shorter)
    }
}

/// Returns the edges of clauses, along which known relations flow: from the shorter region of each clause to the longer one.
fn clause_edges(alloc: Global, clauses: &[Outlives]) -> Result<Vec<Edge>, AllocError>
    ensures { IfOk result (λ edges. edges.items ≡ map edge_of clauses.now) }
{
    clauses
        .iter()
        .map(|clause| Edge {
            from: usize::from(clause.shorter),
            to: usize::from(clause.longer),
        })
        .collect(alloc)
}

/// Appends the edge of a pair, from the shorter region to the longer one, or none if one of them is a variable.
fn push_edges_between(
    edges: &mut Vec<Edge>,
    longer: Region,
    shorter: Region,
) -> Result<(), AllocError>
    ensures { OnOk result (edges.new.items ≡ edges.old.items ++ edges_between longer shorter) }
{
    match longer {
        Region::Universal(longer) => match shorter {
            Region::Universal(shorter) => {
                edges.push(Edge {
                    from: usize::from(shorter),
                    to: usize::from(longer),
                })?;
                Ok(())
            }
            Region::Variable(_) => Ok(()),
        },
        Region::Variable(_) => Ok(()),
    }
}

/// Appends the edges of pairs, in order.
fn push_pair_edges(edges: &mut Vec<Edge>, pairs: &[Constraint]) -> Result<(), AllocError>
    ensures { OnOk result (edges.new.items ≡ edges.old.items ++ flat_map pair_edges pairs.now) }
{
    for pair in pairs {
        push_edges_between(edges, pair.longer, pair.shorter)?;
    }
    Ok(())
}

/// Returns the edges along which known relations flow: those of the clauses, and those of the pairs that the types of the captures and the
/// parameters demand.
fn known_edges(alloc: Global, typed: &Typed) -> Result<Vec<Edge>, AllocError>
    ensures value { IfOk result (λ edges. edges.items ≡ edges_known typed.now) }
    ensures within { IfOk result (λ edges. AreWithin edges.items typed.now.universals) }
{
    let mut edges = clause_edges(alloc, typed.clauses())?;
    let pairs = typed.implied_pairs(alloc)?;
    push_pair_edges(&mut edges, &pairs)?;
    Ok(edges)
}

/// Appends that a region outlives itself, and that `'static` (0) outlives it.
fn push_entries(entries: &mut Vec<Entry>, region: usize) -> Result<(), AllocError>
    ensures { OnOk result (entries.new.items ≡ entries.old.items ++ entries_of region) }
{
    entries.push(Entry {
        node: region,
        fact: region,
    })?;
    entries.push(Entry {
        node: 0,
        fact: region,
    })?;
    Ok(())
}

/// Returns the entries of all universal regions, in order: each region outlives itself, and `'static` outlives it.
fn first_entries(alloc: Global, universals: usize) -> Result<Vec<Entry>, AllocError>
    ensures { IfOk result (λ entries. entries.items ≡ flat_map entries_of (range_with_len 0 universals)) }
{
    let mut entries = Vec::new(alloc);
    for region in 0..universals {
        push_entries(&mut entries, region)?;
    }
    Ok(entries)
}

/// Returns the least relations that have the seeds and are closed along the edges, if no region kills any.
fn handed_on(alloc: Global, edges: &[Edge], seeds: BitTable) -> Result<BitTable, AllocError>
    requires edges { AreWithin edges.now (length seeds) }
    requires rows { HaveSize (length (row seeds 0)) seeds }
    ensures regions { IfOk result (λ rows. length rows ≡ length seeds) }
    ensures sizes { IfOk result (λ rows. HaveSize (length (row seeds 0)) rows) }
    ensures flow { IfOk result (λ rows. IsFlow edges.now seeds [] rows) }
{
    let pending = every_node(alloc, seeds.len())?;
    let no_kills = BitTable::new(alloc, 0, 0)?;
    flow(alloc, edges, seeds, &no_kills, pending)
}

/// Returns what a body knows of its universal regions: the reflexive and transitive closure of its `where` clauses, of what the types of
/// its captures and parameters demand to be well-formed, and of `'static` outliving all. (RFC 2094, "Named lifetimes": the universal
/// regions and their declared relations; RFC 1214, "implied bounds".)
pub fn known_relations(alloc: Global, typed: &Typed) -> Result<KnownRelations, AllocError>
    ensures tells { IfOk result (λ known. TellsKnown typed.now (holds known)) }
    ensures regions { IfOk result (λ known. length known ≡ typed.now.universals) }
    ensures sizes { IfOk result (λ known. HaveSize typed.now.universals known) }
{
    let universals = usize::from(typed.universals());
    let edges = known_edges(alloc, typed)?;
    let entries = first_entries(alloc, universals)?;
    let seeds = table(alloc, universals, universals, &entries)?;
    let rows = handed_on(alloc, &edges, seeds)?;
    Ok(KnownRelations { rows })
}
