//! Pieces: what was found of one body, with all that it was found from.
ghost use Rattle.std.specs.Prelude.{◌≡◌, ◌↔◌, ◌++◌, true, nat_le, IfOk, IsTrue, OnErr, OnOk};
ghost use Rattle.std.specs.List.{list_all};
ghost use Rattle.bc_syntax.specs.Children.{children_of};
ghost use Rattle.bc_cons.specs.Requirements.{AreOfChildren};
ghost use Rattle.bc_prov.specs.Pieces.{AreOver, IsFitted, IsFoundFrom, IsPiece};

use crate::body::verdict_on;
use crate::declared::Declared;
use crate::providers::Providers;
use crate::shared::{Shared, share};
use bc_cons::Requirements;
use bc_judge::{BorrowError, Verdict};
use bc_mir::Typed;
use bc_names::Name;
use bc_syntax::{Sequence, Unit};
use std::alloc::{AllocError, Global};
use std::marker::Model;

/// Pieces, each with the name of its body.
pub type Pieces = Vec<(Name, Shared<Piece>)>;

/// The errors and the requirements of one body, with all that they were found from: the declarations, the unit, copies of the headers of
/// its children (the unit was typed over them), and what these require. The type guarantees that they are the body's by definition. Only
/// `piece_of` makes one. (rustc-dev-guide, "Queries": a query's result is reused if all that it was found from is the same.)
pub struct Piece {
    types: Shared<Declared>,
    unit: Shared<Unit>,
    typed: Shared<Typed>,
    kids: Vec<(u8, Requirements)>,
    errors: Shared<Sequence<BorrowError>>,
    requirements: Requirements,
}

/// Pieces that were found from the same declarations, with these, so that they are compared once for all pieces.
pub struct PieceSet {
    types: Shared<Declared>,
    rows: Pieces,
}

/// Returns one more owner of each of these pieces, in their order.
pub fn share_pieces(alloc: Global, pieces: &[(Name, Shared<Piece>)]) -> Result<Pieces, AllocError>
    ensures { IfOk result (λ shares. shares.items ≡ pieces.now) }
{
    let mut shares = Vec::with_capacity(alloc, pieces.len())?;
    for entry in pieces {
        let piece = entry.1.clone()?;
        shares.push((entry.0, piece))?;
    }
    Ok(shares)
}

// Handwritten, so that it is proved once: the crates above only call it.
impl Drop for Piece {
    fn drop(self) {
        let Self {
            types: _,
            unit: _,
            typed: _,
            kids: _,
            errors: _,
            requirements: _,
        } = self;
    }
}

impl Model for Piece {
    ghost use Rattle.bc_prov.specs.Pieces.{IsPiece, PieceView};

    ghost Value = { PieceView };

    ghost view = { λ p. record {
      types = p.types;
      unit = p.unit;
      mir = p.typed;
      kids = p.kids.items;
      verdict = record { errors = p.errors; requirements = p.requirements };
    } };

    ghost invariant = { λ p. IsPiece (record {
      types = p.types;
      unit = p.unit;
      mir = p.typed;
      kids = p.kids.items;
      verdict = record { errors = p.errors; requirements = p.requirements };
    }) };
}

// Handwritten, so that it is proved once: the crates above only call it.
impl Drop for PieceSet {
    fn drop(self) {
        let Self { types: _, rows: _ } = self;
    }
}

impl Model for PieceSet {
    ghost use Rattle.bc_prov.specs.Pieces.{AreOver, PieceSetView};

    ghost Value = { PieceSetView };

    ghost view = { λ s. record { types = s.types; rows = s.rows.items } };

    ghost invariant = { λ s. AreOver s.types s.rows.items };
}

impl PieceSet {
    /// Makes a set of pieces with their declarations. Requires that each piece was found from these.
    pub fn of(types: Shared<Declared>, rows: Pieces) -> PieceSet
        requires { AreOver types rows.items }
        ensures { result ≡ record { types = types; rows = rows.items } }
    {
        PieceSet { types, rows }
    }

    /// Returns whether the pieces were found from these declarations, compared as values.
    pub fn is_over(&self, types: &Shared<Declared>) -> bool
        ensures { IsTrue result ↔ (self.now.types ≡ types.now) }
    {
        self.types == *types
    }

    /// Returns the pieces, each with the name of its body.
    pub fn rows(&self) -> &[(Name, Shared<Piece>)]
        ensures rows { result.now ≡ self.now.rows }
        ensures over { AreOver self.now.types self.now.rows }
    {
        &self.rows
    }

    /// Consumes the set, and returns its pieces.
    pub fn into_rows(self) -> Pieces
        ensures rows { result.items ≡ self.rows }
        ensures over { AreOver self.types self.rows }
    {
        let PieceSet { types: _, rows } = self;
        rows
    }

    /// Appends the pieces of another set. Requires that both sets are over the same declarations. If it returns `AllocError`, the set is
    /// unchanged.
    pub fn append(&mut self, other: PieceSet) -> Result<(), AllocError>
        requires { other.types ≡ self.old.types }
        ensures taken { OnOk result (self.new ≡ record { types = self.old.types; rows = self.old.rows ++ other.rows }) }
        ensures refused { OnErr result (self.new ≡ self.old) }
    {
        let mut rows = other.into_rows();
        self.rows.append(&mut rows)?;
        Ok(())
    }

    /// Copies the set, as one more owner of the declarations and of each piece.
    pub fn copy(&self, alloc: Global) -> Result<PieceSet, AllocError>
        ensures { IfOk result (λ copy. copy ≡ self.now) }
    {
        let types = self.types.clone()?;
        let rows = share_pieces(alloc, &self.rows)?;
        Ok(PieceSet { types, rows })
    }
}

impl Piece {
    /// Returns the declarations that the piece was found from.
    pub fn types(&self) -> &Shared<Declared>
        ensures { result.now ≡ self.now.types }
    {
        &self.types
    }

    /// Returns the unit that the piece was found from.
    pub fn unit(&self) -> &Shared<Unit>
        ensures { result.now ≡ self.now.unit }
    {
        &self.unit
    }

    /// Returns the errors of the body, in order.
    pub fn errors(&self) -> &Shared<Sequence<BorrowError>>
        ensures value { result.now ≡ self.now.verdict.errors }
        ensures right { IsPiece self.now }
    {
        &self.errors
    }

    /// Returns what the body requires of its creator.
    pub fn requirements(&self) -> &Requirements
        ensures value { result.now ≡ self.now.verdict.requirements }
        ensures right { IsPiece self.now }
    {
        &self.requirements
    }

    /// Returns the typed unit.
    pub fn typed(&self) -> &Shared<Typed>
        ensures value { result.now ≡ self.now.mir }
        ensures right { IsPiece self.now }
    {
        &self.typed
    }

    /// Returns the numbers of the unit's children, ascending.
    pub fn children(&self, alloc: Global) -> Result<Vec<u8>, AllocError>
        ensures value { IfOk result (λ numbers. numbers.items ≡ children_of self.now.unit) }
        ensures low { IfOk result (λ numbers. list_all (λ number. nat_le number 63) numbers.items ≡ true) }
    {
        let children = self.typed.get().children();
        let mut numbers = Vec::with_capacity(alloc, children.len())?;
        for child in children {
            numbers.push(child.number)?;
        }
        Ok(numbers)
    }

    /// Returns whether the piece was found from children that required exactly this.
    pub fn is_from(&self, kids: &[(u8, Requirements)]) -> bool
        ensures same { IsTrue result ↔ (self.now.kids ≡ kids.now) }
        ensures right { IsPiece self.now }
    {
        same_kids(&self.kids, kids)
    }
}

fn same_kid(one: &(u8, Requirements), other: &(u8, Requirements)) -> bool
    ensures { IsTrue result ↔ (one.now ≡ other.now) }
{
    one.0 == other.0 && one.1.pairs == other.1.pairs
}

/// Returns whether the same children require the same, in the same order.
fn same_kids(one: &[(u8, Requirements)], other: &[(u8, Requirements)]) -> bool
    ensures { IsTrue result ↔ (one.now ≡ other.now) }
{
    match one {
        [] => other.is_empty(),
        [first, more @ ..] => match other {
            [] => false,
            [second, rest @ ..] => same_kid(first, second) && same_kids(more, rest),
        },
    }
}

/// Judges a typed unit, given what each of its children requires, and returns its piece. Requires that the unit was typed over these
/// declarations and the headers of its children, and that no child requires anything of its local regions. Returns `AllocError` also if a
/// provider does. (The errors are those of RFC 2094, "Borrow checker phase 2" and "Named lifetimes".)
pub fn piece_of(
    alloc: Global,
    providers: &Providers,
    types: Shared<Declared>,
    unit: Shared<Unit>,
    typed: Shared<Typed>,
    kids: Vec<(u8, Requirements)>,
) -> Result<Piece, AllocError>
    requires fitted { IsFitted types unit typed }
    requires kids { AreOfChildren typed.children kids.items }
    ensures { IfOk result (IsFoundFrom types unit typed kids.items) }
{
    let Verdict {
        errors,
        requirements,
    } = verdict_on(alloc, providers, typed.get(), &kids)?;
    let errors = share(alloc, errors)?;
    Ok(Piece {
        types,
        unit,
        typed,
        kids,
        errors,
        requirements,
    })
}
