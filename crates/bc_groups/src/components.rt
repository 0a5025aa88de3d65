//! Groups of nodes: within a group, each node is reachable from each other.
ghost use Rattle.std.specs.Prelude.{◌≡◌, ℕ, ◌<◌, ◌≤◌, ◌⊎◌, List, length, IfOk, OnOk, slice_index};
ghost use Rattle.std.specs.List.{All, Contains};
ghost use Rattle.bc_flow.specs.Graph.{AreWithin, Leads};
ghost use Rattle.bc_flow.specs.Chains.{AreChains};
ghost use Rattle.bc_flow.specs.declared.graph.Edge.{Edge as AnEdge};
ghost use Rattle.bc_groups.specs.Groups.{AreGroups, AreMutual, IsAgreed};
ghost use Rattle.bc_groups.specs.Naming.{IsNaming, IsNamed};
ghost use Rattle.bc_groups.specs.Spread.{IsSpread, AreOpened, spread_work};

use bc_flow::{Edge, EdgeChains, edge_chains, every_node, postorder, reversed};
use std::alloc::{AllocError, Global};

/// The nodes of a graph in groups: the group of each node, and the number of groups.
#[derive(Drop)]
pub struct Grouping {
    pub group_of: Vec<usize>,
    pub groups: usize,
}

/// Returns the strong components of a graph: within a group, each node is reachable from each other.
///
/// This is Kosaraju's algorithm: a search that finds a postorder, and one back along the edges. A third search checks the groups: a node
/// that it does not find again gets a group of its own. Groups are numbered along the edges between them; only the running time of a caller
/// depends on that.
pub fn strong_components(
    alloc: Global,
    nodes: usize,
    edges: &[Edge],
) -> Result<Grouping, AllocError>
    requires { AreWithin edges.now nodes }
    ensures { IfOk result (λ found. AreGroups edges.now nodes found.groups found.group_of.items) }
{
    let chains = edge_chains(alloc, nodes, edges)?;
    let order = postorder(alloc, nodes, edges, &chains)?;
    let labels = labels(alloc, nodes, edges, &chains, &order)?;
    let found = numbered(alloc, &labels, &order)?;
    Ok(found)
}

/// Returns for each node a label: a node that is reachable from it and from which it is reachable.
fn labels(
    alloc: Global,
    nodes: usize,
    edges: &[Edge],
    chains: &EdgeChains,
    order: &[usize],
) -> Result<Vec<usize>, AllocError>
    requires edges { AreWithin edges.now nodes }
    requires chains { AreChains 0 nodes edges.now chains.now.first.items chains.now.next.items }
    requires order { All (λ n. n < nodes) order.now }
    ensures count { IfOk result (λ labels. length labels.items ≡ nodes) }
    ensures within { IfOk result (λ labels. All (λ n. n < nodes) labels.items) }
    ensures paired { IfOk result (λ labels. (n : ℕ) → n < nodes → AreMutual edges.now n (slice_index labels.items n)) }
{
    let behind = nodes_behind(alloc, nodes, edges, order)?;
    let before = owners(alloc, edges, chains, &behind, order)?;
    let labels = agreed(alloc, &before, &behind)?;
    Ok(labels)
}

/// Returns for each node one that is reachable from it: the root from which a search back along the edges reached it. All nodes are in one
/// class.
fn nodes_behind(
    alloc: Global,
    nodes: usize,
    edges: &[Edge],
    order: &[usize],
) -> Result<Vec<usize>, AllocError>
    requires edges { AreWithin edges.now nodes }
    requires order { All (λ n. n < nodes) order.now }
    ensures count { IfOk result (λ behind. length behind.items ≡ nodes) }
    ensures led { IfOk result (λ behind. (n : ℕ) → n < nodes → Leads edges.now n (slice_index behind.items n)) }
{
    let back = reversed(alloc, edges)?;
    let chains = edge_chains(alloc, nodes, &back)?;
    let all = vec![in alloc; 0; nodes]?;
    let behind = owners(alloc, &back, &chains, &all, order)?;
    Ok(behind)
}

/// Returns for each node one from which it is reachable: the root whose search reached it, or the node itself. Searches begin at the
/// unreached roots, the last one first, and stay in the class of the root.
fn owners(
    alloc: Global,
    edges: &[Edge],
    chains: &EdgeChains,
    classes: &[usize],
    roots: &[usize],
) -> Result<Vec<usize>, AllocError>
    requires edges { AreWithin edges.now (length classes.now) }
    requires chains { AreChains 0 (length classes.now) edges.now chains.now.first.items chains.now.next.items }
    requires roots { All (λ n. n < length classes.now) roots.now }
    ensures count { IfOk result (λ owners. length owners.items ≡ length classes.now) }
    ensures within { IfOk result (λ owners. All (λ n. n < length classes.now) owners.items) }
    ensures led { IfOk result (λ owners. (n : ℕ) → n < length classes.now → Leads edges.now (slice_index owners.items n) n) }
{
    let mut spread = Spread {
        reached: vec![in alloc; false; classes.len()]?,
        owners: every_node(alloc, classes.len())?,
        opened: Vec::with_capacity(alloc, classes.len())?,
    };
    let mut left = roots.len();
    while left > 0 {
        left -= 1;
        spread.begin(roots[left], edges, chains, classes)?;
    }
    Ok(spread.into_owners())
}

/// A search from one root after another: which nodes were reached, the root of each node, and the nodes whose edges are still to be
/// followed.
pub struct Spread {
    pub reached: Vec<bool>,
    pub owners: Vec<usize>,
    pub opened: Vec<usize>,
}

impl Drop for Spread {
    fn drop(self) {
        let Self {
            reached: _,
            owners: _,
            opened: _,
        } = self;
    }
}

impl Spread {
    /// Returns the root of each node, once the search is over.
    fn into_owners(self) -> Vec<usize>
        ensures { result ≡ self.owners }
    {
        let Self {
            reached: _,
            owners,
            opened: _,
        } = self;
        owners
    }

    /// Searches from a root, unless it was reached before.
    fn begin(
        &mut self,
        root: usize,
        edges: &[Edge],
        chains: &EdgeChains,
        classes: &[usize],
    ) -> Result<(), AllocError>
        requires spread { IsSpread edges.now (length classes.now) self.old }
        requires none_open { length self.old.opened.items ≡ 0 }
        requires root { root < length classes.now }
        requires edges { AreWithin edges.now (length classes.now) }
        requires chains { AreChains 0 (length classes.now) edges.now chains.now.first.items chains.now.next.items }
        ensures spread { OnOk result (IsSpread edges.now (length classes.now) self.new) }
        ensures none_open { OnOk result (length self.new.opened.items ≡ 0) }
    {
        self.reach(root, root, classes)?;
        while let Some(node) = self.opened.pop() {
            self.visit(root, node, edges, chains, classes)?;
        }
        Ok(())
    }

    /// Reaches the nodes of the root's class to which an edge leads from `node`.
    fn visit(
        &mut self,
        root: usize,
        node: usize,
        edges: &[Edge],
        chains: &EdgeChains,
        classes: &[usize],
    ) -> Result<(), AllocError>
        requires spread { IsSpread edges.now (length classes.now) self.old }
        requires opened { AreOpened edges.now (length classes.now) root self.old.opened.items }
        requires root { root < length classes.now }
        requires node { node < length classes.now }
        requires led { Leads edges.now root node }
        requires edges { AreWithin edges.now (length classes.now) }
        requires chains { AreChains 0 (length classes.now) edges.now chains.now.first.items chains.now.next.items }
        ensures spread { OnOk result (IsSpread edges.now (length classes.now) self.new) }
        ensures opened { OnOk result (AreOpened edges.now (length classes.now) root self.new.opened.items) }
        ensures work { OnOk result (spread_work self.new ≤ spread_work self.old) }
    {
        let mut at = chains.first[node];
        while at < edges.len() {
            let to = edges[at].to;
            if classes[to] == classes[root] {
                self.reach(root, to, classes)?;
            }
            at = chains.next[at];
        }
        Ok(())
    }

    /// Reaches a node from this root, unless it was reached before.
    fn reach(&mut self, root: usize, node: usize, classes: &[usize]) -> Result<(), AllocError>
        requires marks { length self.old.reached.items ≡ length classes.now }
        requires owner_count { length self.old.owners.items ≡ length classes.now }
        requires root { root < length classes.now }
        requires node { node < length classes.now }
        ensures spread { OnOk result ((edges : List AnEdge) → Leads edges root node → IsSpread edges (length classes.now) self.old →
            IsSpread edges (length classes.now) self.new) }
        ensures opened { OnOk result ((edges : List AnEdge) → Leads edges root node → AreOpened edges (length classes.now) root self.old.opened.items
            → AreOpened edges (length classes.now) root self.new.opened.items) }
        ensures work { OnOk result (spread_work self.new ≤ spread_work self.old) }
    {
        if !self.reached[node] {
            self.opened.push(node)?;
            self.reached[node] = true;
            self.owners[node] = root;
        }
        Ok(())
    }
}

/// Returns for each node the label that both lists give it, or the node itself if they differ.
fn agreed(alloc: Global, before: &[usize], behind: &[usize]) -> Result<Vec<usize>, AllocError>
    requires { length before.now ≡ length behind.now }
    ensures count { IfOk result (λ labels. length labels.items ≡ length before.now) }
    ensures agreed { IfOk result (λ labels. (n : ℕ) → n < length before.now → IsAgreed before.now behind.now labels.items n) }
{
    let mut labels = Vec::with_capacity(alloc, before.len())?;
    for node in 0..before.len() {
        let label = if before[node] == behind[node] {
            before[node]
        } else {
            node
        };
        labels.push(label)?;
    }
    Ok(labels)
}

/// Returns groups in which nodes with one number have one label. The label of the last node in the order has number 0.
fn numbered(alloc: Global, labels: &[usize], order: &[usize]) -> Result<Grouping, AllocError>
    requires labels { All (λ n. n < length labels.now) labels.now }
    requires order { All (λ n. n < length labels.now) order.now }
    requires all { (n : ℕ) → n < length labels.now → Contains order.now n }
    ensures count { IfOk result (λ found. length found.group_of.items ≡ length labels.now) }
    ensures within { IfOk result (λ found. All (λ g. g < found.groups) found.group_of.items) }
    ensures same { IfOk result (λ found. (a b : ℕ) → a < length labels.now → b < length labels.now
        → slice_index found.group_of.items a ≡ slice_index found.group_of.items b → slice_index labels.now a ≡ slice_index labels.now b) }
{
    let none = labels.len();
    let mut naming = Naming {
        numbers: vec![in alloc; none; none]?,
        names: Vec::with_capacity(alloc, none)?,
    };
    let mut group_of = vec![in alloc; 0; none]?;
    let mut left = order.len();
    while left > 0 {
        left -= 1;
        let node = order[left];
        group_of[node] = naming.number(labels[node])?;
    }
    Ok(Grouping {
        group_of,
        groups: naming.names.len(),
    })
}

/// The number of each label, or the count of labels if it has none, and the label of each number.
#[derive(Drop)]
pub struct Naming {
    pub numbers: Vec<usize>,
    pub names: Vec<usize>,
}

impl Naming {
    /// Returns the number of a label. A label without one gets the next.
    fn number(&mut self, label: usize) -> Result<usize, AllocError>
        requires label { label < length self.old.numbers.items }
        requires naming { IsNaming self.old }
        ensures naming { OnOk result (IsNaming self.new) }
        ensures count { OnOk result (length self.new.numbers.items ≡ length self.old.numbers.items) }
        ensures named { IfOk result (λ number. IsNamed self.new.names.items number label) }
        ensures kept { OnOk result ((k l : ℕ) → IsNamed self.old.names.items k l → IsNamed self.new.names.items k l) }
    {
        let number = self.numbers[label];
        if number != self.numbers.len() {
            return Ok(number);
        }
        let number = self.names.len();
        self.names.push(label)?;
        self.numbers[label] = number;
        Ok(number)
    }
}
