//! The edges between points (RFC 2094, "Control-flow graph").
ghost use Rattle.std.specs.Prelude.{◌≡◌, ◌<◌, ◌+◌, ◌^◌, ◌++◌, ◌∷◌, [], true, length, map, slice_index, IfOk, OnOk};
ghost use Rattle.bc_flow.specs.Graph.{AreWithin};
ghost use Rattle.bc_flow.specs.declared.graph.Edge.{Edge};
ghost use Rattle.bc_bodies.specs.Mir.{labels_of, successors_of, edges_of};
ghost use Rattle.bc_mir.specs.Rules.{terminator_keeps_rules};
ghost use Rattle.bc_mir.specs.Typing.{fits_at};

use crate::typed::Typed;
use bc_bodies::{Draft, Instruction};
use bc_flow::Edge;
use bc_syntax::Terminator;
use std::alloc::{AllocError, Global};

/// Appends the edge to the first point of a block.
fn push_edge(
    edges: &mut Vec<Edge>,
    entries: &[usize],
    point: usize,
    label: u8,
) -> Result<(), AllocError>
    requires { label < length entries.now }
    ensures { OnOk result (edges.new.items ≡ edges.old.items ++ record { from = point; to = slice_index entries.now label } ∷ []) }
{
    edges.push(Edge {
        from: point,
        to: entries[usize::from(label)],
    })?;
    Ok(())
}

fn push_terminator_edges(
    edges: &mut Vec<Edge>,
    draft: &Draft,
    point: usize,
    terminator: &Terminator,
) -> Result<(), AllocError>
    requires { terminator_keeps_rules draft.now terminator.now ≡ true }
    ensures { OnOk result (edges.new.items
        ≡ edges.old.items ++ map (λ q. record { from = point; to = q }) (map (slice_index draft.now.entries) (labels_of terminator.now))) }
{
    let entries = draft.entries();
    match terminator {
        Terminator::Goto(label) => push_edge(edges, entries, point, *label),
        Terminator::If(condition) => {
            push_edge(edges, entries, point, condition.then)?;
            push_edge(edges, entries, point, condition.otherwise)
        }
        Terminator::Call(call) => push_edge(edges, entries, point, call.get().target),
        Terminator::Invoke(invocation) => {
            push_edge(edges, entries, point, invocation.get().target)
        }
        Terminator::Return | Terminator::Stop => Ok(()),
    }
}

/// Appends the edges from a point.
fn push_edges(
    edges: &mut Vec<Edge>,
    draft: &Draft,
    point: usize,
    instruction: &Instruction,
) -> Result<(), AllocError>
    requires fits { fits_at draft.now instruction.now ≡ true }
    requires room { point + 1 < 2 ^ 64 }
    ensures { OnOk result (edges.new.items
        ≡ edges.old.items ++ map (λ q. record { from = point; to = q }) (successors_of draft.now point instruction.now)) }
{
    match instruction {
        Instruction::Statement(_) => {
            edges.push(Edge {
                from: point,
                to: point + 1,
            })?;
            Ok(())
        }
        Instruction::Terminator(terminator) => {
            push_terminator_edges(edges, draft, point, terminator)
        }
    }
}

impl Typed {
    /// Returns the edges of the unit, each of which joins two of its points: from a statement to the next point of its block, and from a
    /// terminator to the first point of each of its labels. (RFC 2094, "Control-flow graph".)
    pub fn edges(&self, alloc: Global) -> Result<Vec<Edge>, AllocError>
        ensures value { IfOk result (λ edges. edges.items ≡ edges_of self.now) }
        ensures within { AreWithin (edges_of self.now) (length self.now.steps) }
    {
        let most = self
            .steps()
            .len()
            .saturating_add(self.draft.entries().len());
        let mut edges = Vec::with_capacity(alloc, most)?;
        for (point, step) in self.steps().iter().enumerate() {
            push_edges(&mut edges, &self.draft, point, &step.instruction)?;
        }
        Ok(edges)
    }
}
