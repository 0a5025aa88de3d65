//! A unit with its points in one list.
ghost use Rattle.std.specs.Prelude.{◌≡◌, ◌≤◌, [], ◌∷◌, ◌++◌, nat_lt, length, slice_get, IfOk, OnOk};
ghost use Rattle.std.specs.Arc.{arc_value};
ghost use Rattle.std.specs.Option.{option_copied};
ghost use Rattle.bc_syntax.specs.Fits.{Fits, universal_count, point_count as points_of};
ghost use Rattle.bc_bodies.specs.Children.{child_of as child_there};
ghost use Rattle.bc_bodies.specs.Externals.{external_regions};
ghost use Rattle.bc_syntax.specs.Locals.{first_let, locals_of};
ghost use Rattle.bc_bodies.specs.Mir.{step_of, block_steps, steps_from, entries_from, mir_of};

use crate::children::{Child, KidHeader, child_of, copy_children};
use crate::externals::push_externals;
use bc_syntax::{Block, Body, Header, Outlives, Sequence, Statement, Terminator, Ty, UnitKind};
use bc_types::{GoodTypes, copy_clauses};
use std::alloc::{AllocError, Global};
use std::marker::Model;
use std::sync::Arc;

/// A point as it is printed: a statement of a block, or its terminator, which comes last (RFC 2094, "Control-flow graph").
#[derive(Clone, Copy, Debug, PartialEq, Eq)]
pub struct Point {
    pub block: usize,
    pub index: usize,
}

/// What a point does. (rustc-dev-guide, "The MIR".)
#[derive(Drop)]
pub enum Instruction {
    Statement(Statement),
    Terminator(Terminator),
}

/// A point with its instruction. (rustc-dev-guide, "The MIR".)
#[derive(Drop)]
pub struct Step {
    pub point: Point,
    pub instruction: Instruction,
}

/// A unit over good declarations and the headers of its children, with its points in one list, typed or not. It borrows nothing.
pub struct Draft {
    types: Arc<GoodTypes, Global>,
    children: Vec<Child>,
    kind: UnitKind,
    universals: u8,
    externals: Vec<usize>,
    clauses: Sequence<Outlives>,
    locals: Vec<Ty>,
    first_let: usize,
    steps: Vec<Step>,
    entries: Vec<usize>,
}

// Handwritten, so that it is proved once, and not again by each caller.
impl Drop for Draft {
    fn drop(self) {
        let Self {
            types: _,
            children: _,
            kind: _,
            universals: _,
            externals: _,
            clauses: _,
            locals: _,
            first_let: _,
            steps: _,
            entries: _,
        } = self;
    }
}

impl Model for Draft {
    ghost use Rattle.std.specs.Arc.{arc_value};
    ghost use Rattle.bc_bodies.specs.Mir.{Mir};

    ghost Value = { Mir };

    ghost view = { λ d. record {
      types = arc_value d.types;
      children = d.children.items;
      kind = d.kind;
      universals = d.universals;
      externals = d.externals.items;
      clauses = d.clauses;
      locals = d.locals.items;
      first_let = d.first_let;
      steps = d.steps.items;
      entries = d.entries.items;
    } };
}

fn copy_statement(statement: &Statement) -> Result<Statement, AllocError>
    ensures { IfOk result (λ copy. copy ≡ statement.now) }
{
    statement.clone()
}

fn copy_terminator(terminator: &Terminator) -> Result<Terminator, AllocError>
    ensures { IfOk result (λ copy. copy ≡ terminator.now) }
{
    terminator.clone()
}

/// Returns the number of points of blocks: the capacity of their list.
fn point_count(blocks: &[Block]) -> usize
    requires { points_of blocks.now ≤ 4096 }
    ensures { result ≡ points_of blocks.now }
{
    let mut count = 0_usize;
    for block in blocks {
        count += block.statements.len() + 1;
    }
    count
}

/// Appends a point with its instruction.
fn push_step(
    steps: &mut Vec<Step>,
    block: usize,
    index: usize,
    instruction: Instruction,
) -> Result<(), AllocError>
    ensures { OnOk result (steps.new.items ≡ steps.old.items ++ step_of block index instruction ∷ []) }
{
    steps.push(Step {
        point: Point { block, index },
        instruction,
    })?;
    Ok(())
}

/// Appends the point of a statement of a block.
fn push_statement(
    steps: &mut Vec<Step>,
    block: usize,
    index: usize,
    statement: &Statement,
) -> Result<(), AllocError>
    ensures { OnOk result (steps.new.items ≡ steps.old.items ++ step_of block index (Instruction.Statement statement.now) ∷ []) }
{
    let copy = copy_statement(statement)?;
    push_step(steps, block, index, Instruction::Statement(copy))
}

/// Appends the point of the terminator of a block.
fn push_terminator(
    steps: &mut Vec<Step>,
    block: usize,
    index: usize,
    terminator: &Terminator,
) -> Result<(), AllocError>
    ensures { OnOk result (steps.new.items ≡ steps.old.items ++ step_of block index (Instruction.Terminator terminator.now) ∷ []) }
{
    let copy = copy_terminator(terminator)?;
    push_step(steps, block, index, Instruction::Terminator(copy))
}

/// Appends the points of a block.
fn push_block(steps: &mut Vec<Step>, number: usize, block: &Block) -> Result<(), AllocError>
    ensures { OnOk result (steps.new.items ≡ steps.old.items ++ block_steps number 0 block.now.statements block.now.terminator) }
{
    let statements = block.statements.as_slice();
    for (index, statement) in statements.iter().enumerate() {
        push_statement(steps, number, index, statement)?;
    }
    push_terminator(steps, number, statements.len(), &block.terminator)
}

/// Appends the points of blocks, and the first point of each block.
fn push_blocks(
    steps: &mut Vec<Step>,
    entries: &mut Vec<usize>,
    blocks: &[Block],
) -> Result<(), AllocError>
    ensures steps { OnOk result (steps.new.items ≡ steps.old.items ++ steps_from 0 blocks.now) }
    ensures entries { OnOk result (entries.new.items ≡ entries.old.items ++ entries_from (length steps.old.items) blocks.now) }
{
    for (number, block) in blocks.iter().enumerate() {
        entries.push(steps.len())?;
        push_block(steps, number, block)?;
    }
    Ok(())
}

/// The points of blocks, and the first point of each block.
struct Points {
    steps: Vec<Step>,
    entries: Vec<usize>,
}

// Handwritten, so that it is proved once, and not again by each caller.
impl Drop for Points {
    fn drop(self) {
        let Self {
            steps: _,
            entries: _,
        } = self;
    }
}

impl Points {
    /// Returns the points of blocks.
    fn of(alloc: Global, blocks: &[Block]) -> Result<Points, AllocError>
        requires { points_of blocks.now ≤ 4096 }
        ensures steps { IfOk result (λ points. points.steps.items ≡ steps_from 0 blocks.now) }
        ensures entries { IfOk result (λ points. points.entries.items ≡ entries_from 0 blocks.now) }
    {
        let mut steps = Vec::with_capacity(alloc, point_count(blocks))?;
        let mut entries = Vec::with_capacity(alloc, blocks.len())?;
        push_blocks(&mut steps, &mut entries, blocks)?;
        Ok(Points { steps, entries })
    }

    /// Returns the points, and the first point of each block.
    fn into_parts(self) -> (Vec<Step>, Vec<usize>)
        ensures steps { result.0 ≡ self.steps }
        ensures entries { result.1 ≡ self.entries }
    {
        let Self { steps, entries } = self;
        (steps, entries)
    }
}

/// Returns the numbers of the external regions of a header.
fn externals_of(alloc: Global, header: &Header) -> Result<Vec<usize>, AllocError>
    ensures { IfOk result (λ numbers. numbers.items ≡ external_regions header.now) }
{
    let mut numbers = Vec::new(alloc);
    let names = header.signature.regions.as_slice();
    push_externals(&mut numbers, header.captures.as_slice(), 0, names)?;
    Ok(numbers)
}

/// What a draft takes from its body, apart from the points.
struct Declared {
    kind: UnitKind,
    universals: u8,
    externals: Vec<usize>,
    clauses: Sequence<Outlives>,
    locals: Vec<Ty>,
    first_let: usize,
}

// Handwritten, so that it is proved once, and not again by each caller.
impl Drop for Declared {
    fn drop(self) {
        let Self {
            kind: _,
            universals: _,
            externals: _,
            clauses: _,
            locals: _,
            first_let: _,
        } = self;
    }
}

impl Declared {
    /// Returns what a body declares.
    fn of(alloc: Global, body: &Body) -> Result<Declared, AllocError>
        requires { Fits body.now }
        ensures kind { IfOk result (λ declared. declared.kind ≡ body.now.header.kind) }
        ensures universals { IfOk result (λ declared. declared.universals ≡ universal_count body.now.header.signature) }
        ensures externals { IfOk result (λ declared. declared.externals.items ≡ external_regions body.now.header) }
        ensures clauses { IfOk result (λ declared. declared.clauses ≡ body.now.header.signature.clauses) }
        ensures locals { IfOk result (λ declared. declared.locals.items ≡ locals_of body.now) }
        ensures first_let { IfOk result (λ declared. declared.first_let ≡ first_let body.now.header) }
    {
        let signature = &body.header.signature;
        Ok(Declared {
            kind: body.header.kind,
            universals: (signature.regions.len() + 1) as u8,
            externals: externals_of(alloc, &body.header)?,
            clauses: copy_clauses(&signature.clauses)?,
            locals: body.local_types(alloc)?,
            first_let: body.header.first_let(),
        })
    }

    /// Returns the draft with these parts, over declarations, with its children and its points.
    fn into_draft(
        self,
        types: Arc<GoodTypes, Global>,
        children: Vec<Child>,
        points: Points,
    ) -> Draft
        ensures { result ≡ record {
          types = arc_value types;
          children = children.items;
          kind = self.kind;
          universals = self.universals;
          externals = self.externals.items;
          clauses = self.clauses;
          locals = self.locals.items;
          first_let = self.first_let;
          steps = points.steps.items;
          entries = points.entries.items;
        } }
    {
        let Self {
            kind,
            universals,
            externals,
            clauses,
            locals,
            first_let,
        } = self;
        let (steps, entries) = points.into_parts();
        Draft {
            types,
            children,
            kind,
            universals,
            externals,
            clauses,
            locals,
            first_let,
            steps,
            entries,
        }
    }
}

impl Draft {
    /// Returns the draft of a valid body over declarations and the headers of its children. (RFC 2094, "Control-flow graph".)
    pub fn of(
        alloc: Global,
        types: Arc<GoodTypes, Global>,
        kids: &[KidHeader<'_>],
        body: &Body,
    ) -> Result<Draft, AllocError>
        requires { Fits body.now }
        ensures { IfOk result (λ draft. draft ≡ mir_of (arc_value types) kids.now body.now) }
    {
        let children = copy_children(alloc, kids)?;
        let points = Points::of(alloc, body.blocks.as_slice())?;
        let declared = Declared::of(alloc, body)?;
        Ok(declared.into_draft(types, children, points))
    }

    /// Returns the type of a local, or `None` if it is not declared.
    pub fn local(&self, number: u8) -> Option<&Ty>
        ensures { option_copied result ≡ slice_get self.now.locals number }
    {
        self.locals.as_slice().get(usize::from(number))
    }

    /// Returns the declarations that the unit uses.
    pub fn types(&self) -> &GoodTypes
        ensures { result.now ≡ self.now.types }
    {
        &self.types
    }

    /// Returns the header of the child of a number, or `None` if there is no such child.
    pub fn child(&self, number: u8) -> Option<&Header>
        ensures { option_copied result ≡ child_there self.now.children number }
    {
        child_of(self.children.as_slice(), number)
    }

    /// Returns whether the unit has a block with this label.
    pub fn has_block(&self, label: u8) -> bool
        ensures { result ≡ nat_lt label (length self.now.entries) }
    {
        usize::from(label) < self.entries.len()
    }

    /// Returns whether the unit is a function or a closure.
    pub fn kind(&self) -> UnitKind
        ensures { result ≡ self.now.kind }
    {
        self.kind
    }

    /// Returns the number of universal regions: `'static` and the declared ones.
    pub fn universals(&self) -> u8
        ensures { result ≡ self.now.universals }
    {
        self.universals
    }

    /// Returns the children with their headers, in the order in which `of` got them.
    pub fn children(&self) -> &[Child]
        ensures { result.now ≡ self.now.children }
    {
        self.children.as_slice()
    }

    /// Returns the numbers of a closure's external regions: those that occur in the types of its captures.
    pub fn externals(&self) -> &[usize]
        ensures { result.now ≡ self.now.externals }
    {
        self.externals.as_slice()
    }

    /// Returns the `where` clauses, between universal regions.
    pub fn clauses(&self) -> &[Outlives]
        ensures { result.now ≡ self.now.clauses }
    {
        self.clauses.as_slice()
    }

    /// Returns the types of the locals.
    pub fn locals(&self) -> &[Ty]
        ensures { result.now ≡ self.now.locals }
    {
        self.locals.as_slice()
    }

    /// Returns the number of the first `let` local.
    pub fn first_let(&self) -> usize
        ensures { result ≡ self.now.first_let }
    {
        self.first_let
    }

    /// Returns the points in order, each with its instruction. (RFC 2094, "Control-flow graph".)
    pub fn steps(&self) -> &[Step]
        ensures { result.now ≡ self.now.steps }
    {
        self.steps.as_slice()
    }

    /// Returns the first point of each block.
    pub fn entries(&self) -> &[usize]
        ensures { result.now ≡ self.now.entries }
    {
        self.entries.as_slice()
    }
}
