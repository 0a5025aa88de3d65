//! Why an element is in the value of a region.
ghost use Rattle.std.specs.Prelude.{◌≡◌, ℕ, ◌↔◌, List, length, IfOk, IsSome, MatchOption};
ghost use Rattle.bc_syntax.specs.declared.syntax.Region.{Region as ARegion};
ghost use Rattle.bc_flow.specs.Flow.{holds};
ghost use Rattle.bc_flow.specs.Chains.{AreChains};
ghost use Rattle.bc_flow.specs.Graph.{AreWithin};
ghost use Rattle.bc_solve.specs.Values.{IsInValue};
ghost use Rattle.bc_solve.specs.Chains.{IsChain, Explains, TellsChains};
ghost use Rattle.bc_solve.specs.Explainer.{KeepsWays};
ghost use Rattle.bc_solve.specs.Ways.{AreEdgesOf, AreWays};

use crate::values::edges_of;
use crate::ways::{Ways, walk, ways_to};
use bc_cons::Facts;
use bc_flow::{Edge, EdgeChains, edge_chains};
use bc_syntax::Region;
use std::alloc::{AllocError, Global};
use std::marker::Model;

/// Finds the chains of many elements and regions over the same facts. It keeps the ways to the last element that it was asked for.
/// Contracts see the facts.
pub struct Explainer<'a> {
    facts: &'a Facts,
    edges: Vec<Edge>,
    chains: EdgeChains,
    last: Option<Ways>,
}

impl Drop for Explainer<'_> {
    fn drop(self) {
        let Self {
            facts: _,
            edges: _,
            chains: _,
            last: _,
        } = self;
    }
}

impl<'a> Model for Explainer<'a> {
    ghost use Rattle.bc_cons.specs.Facts.{RegionFacts};
    ghost use Rattle.bc_solve.specs.Explainer.{IsPrepared};

    ghost Value = { RegionFacts };

    ghost view = { λ e. e.facts.now };

    ghost invariant = { λ e. IsPrepared e.facts.now e.edges.items e.chains e.last };
}

impl<'a> Explainer<'a> {
    /// Returns an explainer over facts.
    pub fn new(alloc: Global, facts: &'a Facts) -> Result<Explainer<'a>, AllocError>
        ensures { IfOk result (λ explainer. explainer ≡ facts.now) }
    {
        let edges = edges_of(alloc, facts.pairs())?;
        let chains = edge_chains(alloc, facts.regions(), &edges)?;
        Ok(Explainer {
            facts,
            edges,
            chains,
            last: None,
        })
    }

    /// Returns the chain from a region to an element, both by number: the first of the shortest. Returns `None` exactly if there is no
    /// chain, also if there is no such region or element.
    ///
    /// This takes time in proportion to the number of regions and constraints. If the call before asked for the same element, it takes time
    /// only in proportion to the length of the chain.
    pub fn explain(
        &mut self,
        alloc: Global,
        region: usize,
        element: usize,
    ) -> Result<Option<Vec<Region>>, AllocError>
        ensures facts { self.new ≡ self.old }
        ensures chain { IfOk result (λ found. MatchOption found
            ((chain : List ℕ) → ¬ (IsChain (holds self.old.starts) self.old.pairs region element chain))
            (λ chain. Explains self.old region element chain.items)) }
        ensures value { IfOk result (λ found. IsSome found ↔ IsInValue (holds self.old.starts) self.old.pairs region element) }
    {
        let last = self.last.take();
        let ways = ways_for(alloc, self.facts, &self.edges, &self.chains, last, element)?;
        let chain = chain_of(alloc, self.facts, &ways, region)?;
        self.last = Some(ways);
        Ok(chain)
    }

    /// Returns the chain from a region to an element of its value, both by number: the first of the shortest. It takes as long as
    /// `explain`.
    pub fn chain(
        &mut self,
        alloc: Global,
        region: usize,
        element: usize,
    ) -> Result<Vec<Region>, AllocError>
        requires { IsInValue (holds self.old.starts) self.old.pairs region element }
        ensures facts { self.new ≡ self.old }
        ensures chain { IfOk result (λ found. Explains self.old region element found.items) }
        ensures told { IfOk result (λ found. (chain : ℕ → ℕ → List ARegion) → TellsChains self.old chain → found.items ≡ chain region element) }
    {
        let found = self.explain(alloc, region, element)?;
        Ok(found.unwrap())
    }
}

/// Returns the ways to an element: the last ones, if they lead to it.
fn ways_for(
    alloc: Global,
    facts: &Facts,
    edges: &[Edge],
    chains: &EdgeChains,
    last: Option<Ways>,
    element: usize,
) -> Result<Ways, AllocError>
    requires edges { AreEdgesOf facts.now.pairs edges.now }
    requires within { AreWithin edges.now (length facts.now.starts) }
    requires chains { AreChains 0 (length facts.now.starts) edges.now chains.now.first.items chains.now.next.items }
    requires last { KeepsWays facts.now last }
    ensures element { IfOk result (λ ways. ways.element ≡ element) }
    ensures ways { IfOk result (λ ways. AreWays facts.now element ways.lengths.items ways.steps.items) }
{
    match last {
        Some(ways) => {
            if ways.element == element {
                Ok(ways)
            } else {
                ways_to(alloc, facts, edges, chains, element)
            }
        }
        None => ways_to(alloc, facts, edges, chains, element),
    }
}

/// Returns the chain from a region to the element of the ways.
fn chain_of(
    alloc: Global,
    facts: &Facts,
    ways: &Ways,
    region: usize,
) -> Result<Option<Vec<Region>>, AllocError>
    requires { AreWays facts.now ways.now.element ways.now.lengths.items ways.now.steps.items }
    ensures chain { IfOk result (λ found. MatchOption found
        ((chain : List ℕ) → ¬ (IsChain (holds facts.now.starts) facts.now.pairs region ways.now.element chain))
        (λ chain. Explains facts.now region ways.now.element chain.items)) }
    ensures value { IfOk result (λ found. IsSome found ↔ IsInValue (holds facts.now.starts) facts.now.pairs region ways.now.element) }
{
    if region >= facts.regions() {
        return Ok(None);
    }
    if ways.lengths[region] == 0 {
        return Ok(None);
    }
    let chain = walk(alloc, facts, &ways.lengths, &ways.steps, region)?;
    Ok(Some(chain))
}

/// Returns the chain from a region to an element, both by number: the first of the shortest. Returns `None` exactly if there is no chain.
///
/// Only tests and benchmarks of this repository call it: `judge` asks one `Explainer` for all its chains.
pub fn explain(
    alloc: Global,
    facts: &Facts,
    region: usize,
    element: usize,
) -> Result<Option<Vec<Region>>, AllocError>
    ensures chain { IfOk result (λ found. MatchOption found
        ((chain : List ℕ) → ¬ (IsChain (holds facts.now.starts) facts.now.pairs region element chain))
        (λ chain. Explains facts.now region element chain.items)) }
    ensures value { IfOk result (λ found. IsSome found ↔ IsInValue (holds facts.now.starts) facts.now.pairs region element) }
{
    let mut explainer = Explainer::new(alloc, facts)?;
    explainer.explain(alloc, region, element)
}
