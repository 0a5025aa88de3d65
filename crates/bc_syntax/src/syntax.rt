//! Units and declarations as plain data, as their texts give them.
ghost use Rattle.std.specs.Prelude.{◌≡◌};

use crate::apart::Apart;
use crate::projections::Projections;
use crate::sequence::{Sequence, ShortSequence};
use std::alloc::AllocError;

/// A region: a universal one by its number (0 is `'static`, then come the declared ones in the order of the header), or a region variable
/// by its number (rustc-dev-guide, "Region inference (NLL)").
#[derive(Clone, Copy, Debug, PartialEq, Eq)]
pub enum Region {
    Universal(u8),
    Variable(u16),
}

impl Default for Region {
    ghost use Rattle.std.specs.Prelude.{◌≡◌};
    ghost use Rattle.bc_syntax.specs.declared.syntax.Region.TheVariants.{Universal};

    ghost is_default = { λ region. region ≡ Universal 0 };

    fn default() -> Self {
        Region::Universal(0)
    }
}

/// The mutability of a reference or a borrow.
#[derive(Clone, Copy, Debug, Default, PartialEq, Eq)]
pub enum Mutability {
    #[default]
    Shared,
    Mutable,
}

/// A reference `&R` or `&R mut` in a type; in a borrow, its region and mutability.
#[derive(Clone, Copy, Debug, Default, PartialEq, Eq)]
pub struct Reference {
    pub region: Region,
    pub mutability: Mutability,
}

/// The name of a struct or an extern function.
#[derive(Clone, Drop, PartialEq)]
pub struct ItemName {
    pub bytes: ShortSequence<u8, 16>,
}

/// A struct or an extern function by its name, with a region for each that it declares, in order.
#[derive(Clone, PartialEq)]
pub struct Instance {
    pub name: ItemName,
    pub regions: ShortSequence<Region, 4>,
}

impl Drop for Instance {
    fn drop(self) {
        let Self {
            name: _,
            regions: _,
        } = self;
    }
}

/// A child of the unit by its number, with a region for each of its external ones, in order.
#[derive(Clone, PartialEq)]
pub struct ClosureInstance {
    pub number: u8,
    pub regions: ShortSequence<Region, 4>,
}

impl Drop for ClosureInstance {
    fn drop(self) {
        let Self {
            number: _,
            regions: _,
        } = self;
    }
}

/// What the references of a type lead to.
#[derive(Clone, PartialEq)]
pub enum Base {
    Int,
    Struct(Instance),
    Closure(ClosureInstance),
}

impl Drop for Base {
    fn drop(self) {
        match self {
            Self::Int => {}
            Self::Struct(_) => {}
            Self::Closure(_) => {}
        }
    }
}

/// A type: its references, the outermost first, and what they lead to.
#[derive(Clone, PartialEq)]
pub struct Ty {
    pub references: ShortSequence<Reference, 7>,
    pub base: Base,
}

impl Drop for Ty {
    fn drop(self) {
        let Self {
            references: _,
            base: _,
        } = self;
    }
}

impl Ty {
    /// Returns the references of the type, and what they lead to.
    pub fn into_parts(self) -> (ShortSequence<Reference, 7>, Base)
        ensures references { result.0 ≡ self.references }
        ensures base { result.1 ≡ self.base }
    {
        let Self { references, base } = self;
        (references, base)
    }
}

/// One step from a place to a part of it. (rustc-dev-guide, "The MIR".)
#[derive(Clone, Copy, Debug, Default, PartialEq, Eq)]
pub enum Projection {
    #[default]
    Deref,
    Field(u8),
}

/// A local and its projections. (rustc-dev-guide, "The MIR".)
#[derive(Clone, Copy, PartialEq)]
pub struct Place {
    pub local: u8,
    pub projections: Projections,
}

/// What a point reads: a copy or a move of a place, or a number. (rustc-dev-guide, "The MIR").
#[derive(Clone, Copy, PartialEq)]
pub enum Operand {
    Copy(Place),
    Move(Place),
    Number(u32),
}

impl Default for Operand {
    ghost use Rattle.std.specs.Prelude.{◌≡◌};
    ghost use Rattle.bc_syntax.specs.declared.syntax.Operand.TheVariants.{Number};

    ghost is_default = { λ operand. operand ≡ Number 0 };

    fn default() -> Self {
        Operand::Number(0)
    }
}

/// A borrow, `&R P` or `&R mut P`.
#[derive(Clone, Copy, PartialEq)]
pub struct Borrow {
    pub reference: Reference,
    pub place: Place,
}

/// The creation of a struct from its fields, in order.
#[derive(Clone, PartialEq)]
pub struct Aggregate {
    pub instance: Instance,
    pub operands: ShortSequence<Operand, 2>,
}

impl Drop for Aggregate {
    fn drop(self) {
        let Self {
            instance: _,
            operands: _,
        } = self;
    }
}

/// The creation of a closure from its captures, in order.
#[derive(Clone, PartialEq)]
pub struct Creation {
    pub closure: ClosureInstance,
    pub operands: ShortSequence<Operand, 2>,
}

impl Drop for Creation {
    fn drop(self) {
        let Self {
            closure: _,
            operands: _,
        } = self;
    }
}

/// The value that an assignment computes. (rustc-dev-guide, "The MIR".)
#[derive(PartialEq)]
pub enum Rvalue {
    Use(Operand),
    Borrow(Borrow),
    Aggregate(Apart<Aggregate>),
    Closure(Apart<Creation>),
    Calc(ShortSequence<Operand, 2>),
}

// Handwritten, so that what is small is copied as it stands.
impl Clone for Rvalue {
    ghost use Rattle.std.specs.Prelude.{◌≡◌};

    ghost is_clone = { λ s t. t ≡ s };

    #[inline(always)]
    fn clone(&self) -> Result<Self, AllocError> {
        match self {
            Self::Use(operand) => Ok(Self::Use(*operand)),
            Self::Borrow(borrow) => Ok(Self::Borrow(*borrow)),
            Self::Aggregate(aggregate) => Ok(Self::Aggregate(aggregate.clone()?)),
            Self::Closure(creation) => Ok(Self::Closure(creation.clone()?)),
            Self::Calc(operands) => Ok(Self::Calc(operands.clone()?)),
        }
    }
}

impl Drop for Rvalue {
    fn drop(self) {
        match self {
            Self::Use(_) => {}
            Self::Borrow(_) => {}
            Self::Aggregate(_) => {}
            Self::Closure(_) => {}
            Self::Calc(_) => {}
        }
    }
}

/// An assignment, `P = rvalue`. (rustc-dev-guide, "The MIR".)
#[derive(PartialEq)]
pub struct Assignment {
    pub target: Place,
    pub value: Rvalue,
}

// Handwritten, as that of `Rvalue`.
impl Clone for Assignment {
    ghost use Rattle.std.specs.Prelude.{◌≡◌};

    ghost is_clone = { λ s t. t ≡ s };

    #[inline(always)]
    fn clone(&self) -> Result<Self, AllocError> {
        Ok(Self {
            target: self.target,
            value: self.value.clone()?,
        })
    }
}

impl Drop for Assignment {
    fn drop(self) {
        let Self {
            target: _,
            value: _,
        } = self;
    }
}

/// A point that is not the last of its block. `Dead` ends the storage of a local. (rustc-dev-guide, "The MIR".)
#[derive(PartialEq)]
pub enum Statement {
    Assign(Assignment),
    Dead(u8),
    Drop(Place),
    Nop,
}

// Handwritten, as that of `Rvalue`.
impl Clone for Statement {
    ghost use Rattle.std.specs.Prelude.{◌≡◌};

    ghost is_clone = { λ s t. t ≡ s };

    #[inline(always)]
    fn clone(&self) -> Result<Self, AllocError> {
        match self {
            Self::Assign(assignment) => Ok(Self::Assign(assignment.clone()?)),
            Self::Dead(local) => Ok(Self::Dead(*local)),
            Self::Drop(place) => Ok(Self::Drop(*place)),
            Self::Nop => Ok(Self::Nop),
        }
    }
}

impl Drop for Statement {
    /// Frees what the statement owns, which is mostly nothing. It is inlined, so that a list of statements does not move each one for it.
    #[inline(always)]
    fn drop(self) {
        match self {
            Self::Assign(_) => {}
            Self::Dead(_) => {}
            Self::Drop(_) => {}
            Self::Nop => {}
        }
    }
}

/// `if operand then otherwise`, with two labels.
#[derive(Clone, Copy, PartialEq)]
pub struct Condition {
    pub operand: Operand,
    pub then: u8,
    pub otherwise: u8,
}

/// `destination = call function(operands) target`. The target is a label.
#[derive(Clone, PartialEq)]
pub struct Call {
    pub destination: Place,
    pub function: Instance,
    pub operands: ShortSequence<Operand, 2>,
    pub target: u8,
}

impl Drop for Call {
    fn drop(self) {
        let Self {
            destination: _,
            function: _,
            operands: _,
            target: _,
        } = self;
    }
}

/// `destination = invoke closure<regions>(operands) target`: calls the closure in a place and uses it up. `regions` has one for each of its
/// local ones, in order. The target is a label.
#[derive(Clone, PartialEq)]
pub struct Invocation {
    pub destination: Place,
    pub closure: Place,
    pub regions: ShortSequence<Region, 4>,
    pub operands: ShortSequence<Operand, 2>,
    pub target: u8,
}

impl Drop for Invocation {
    fn drop(self) {
        let Self {
            destination: _,
            closure: _,
            regions: _,
            operands: _,
            target: _,
        } = self;
    }
}

/// The last point of a block. Labels are numbers of blocks. (rustc-dev-guide, "The MIR".)
#[derive(Clone, PartialEq)]
pub enum Terminator {
    Goto(u8),
    If(Condition),
    Call(Apart<Call>),
    Invoke(Apart<Invocation>),
    Return,
    Stop,
}

impl Drop for Terminator {
    fn drop(self) {
        match self {
            Self::Goto(_) => {}
            Self::If(_) => {}
            Self::Call(_) => {}
            Self::Invoke(_) => {}
            Self::Return => {}
            Self::Stop => {}
        }
    }
}

/// A block: its statements in order, and its terminator. (rustc-dev-guide, "The MIR".)
#[derive(PartialEq)]
pub struct Block {
    pub statements: Sequence<Statement>,
    pub terminator: Terminator,
}

impl Drop for Block {
    fn drop(self) {
        let Self {
            statements: _,
            terminator: _,
        } = self;
    }
}

/// A `where` clause: the universal region `longer` outlives `shorter`.
#[derive(Clone, Copy, Debug, PartialEq, Eq)]
pub struct Outlives {
    pub longer: u8,
    pub shorter: u8,
}

/// The name of a declared region, without its `'`.
#[derive(Clone, Drop, PartialEq)]
pub struct RegionName {
    pub bytes: ShortSequence<u8, 16>,
}

/// The kind of a unit.
#[derive(Clone, Copy, Debug, PartialEq, Eq)]
pub enum UnitKind {
    Function,
    Closure,
}

/// The regions and clauses that a unit or an extern function declares, its parameters and its result. The regions are numbered from 1, in
/// order.
#[derive(Clone, PartialEq)]
pub struct Signature {
    pub regions: Sequence<RegionName>,
    pub clauses: Sequence<Outlives>,
    pub parameters: Sequence<Ty>,
    pub result: Ty,
}

impl Drop for Signature {
    fn drop(self) {
        let Self {
            regions: _,
            clauses: _,
            parameters: _,
            result: _,
        } = self;
    }
}

/// The header of a unit, which comes before its body. A function has no captures.
#[derive(Clone, PartialEq)]
pub struct Header {
    pub kind: UnitKind,
    pub captures: Sequence<Ty>,
    pub signature: Signature,
}

impl Drop for Header {
    fn drop(self) {
        let Self {
            kind: _,
            captures: _,
            signature: _,
        } = self;
    }
}

/// A header with its body. Local 0 is the result; then come the captures, the parameters and the `let` locals. (rustc-dev-guide, "The
/// MIR".)
#[derive(PartialEq)]
pub struct Body {
    pub header: Header,
    pub lets: Sequence<Ty>,
    pub blocks: Sequence<Block>,
}

impl Drop for Body {
    fn drop(self) {
        let Self {
            header: _,
            lets: _,
            blocks: _,
        } = self;
    }
}

/// The variance of a struct in one of its regions (rustc-dev-guide, "Variance").
#[derive(Clone, Copy, Debug, PartialEq, Eq)]
pub enum Variance {
    Covariant,
    Invariant,
}

/// `struct NAME<regions> drop { fields }`. In the types of the fields the regions are numbered from 1, in order. Each has a variance.
#[derive(Clone, PartialEq)]
pub struct StructDeclaration {
    pub name: ItemName,
    pub regions: Sequence<RegionName>,
    pub variances: Sequence<Variance>,
    pub has_drop: bool,
    pub fields: Sequence<Ty>,
}

impl Drop for StructDeclaration {
    fn drop(self) {
        let Self {
            name: _,
            regions: _,
            variances: _,
            has_drop: _,
            fields: _,
        } = self;
    }
}

/// `extern NAME<regions> where clauses (parameters) -> result`.
#[derive(PartialEq)]
pub struct ExternDeclaration {
    pub name: ItemName,
    pub signature: Signature,
}

impl Drop for ExternDeclaration {
    fn drop(self) {
        let Self {
            name: _,
            signature: _,
        } = self;
    }
}

/// A declaration of a struct or an extern function.
#[derive(PartialEq)]
pub enum Declaration {
    Struct(StructDeclaration),
    Extern(ExternDeclaration),
}

impl Drop for Declaration {
    fn drop(self) {
        match self {
            Self::Struct(_) => {}
            Self::Extern(_) => {}
        }
    }
}
