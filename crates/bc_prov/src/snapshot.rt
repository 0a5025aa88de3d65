//! Snapshots: the part of what is stored that the outcome of one name depends on.
ghost use Rattle.std.specs.Prelude.{◌≡◌, true, nat_le, Some, None, IfOk, IfSome, IsTrue};
ghost use Rattle.std.specs.List.{AllByRecursion, list_all};
ghost use Rattle.std.specs.List.Sorted.{IsPermutation};
ghost use Rattle.std.specs.Option.{option_copied};
ghost use Rattle.bc_prov.specs.Outcome.{IsOutcomeIn};
ghost use Rattle.bc_syntax.specs.Children.{children_of};
ghost use Rattle.bc_prov.specs.Pieces.{AreAscending, AreOver, ArePieces, IsPieceFor, pieces_at};
ghost use Rattle.bc_prov.specs.Snapshots.{IsAmongPieces, IsSnapshot};
ghost use Rattle.bc_prov.specs.State.{AreSuited, at_name, state_of};

use crate::closures::children_of;
use crate::declared::Declared;
use crate::outcome::Outcome;
use crate::pieces::{Piece, PieceSet, Pieces};
use crate::shared::Shared;
use bc_names::Name;
use bc_syntax::Unit;
use std::alloc::{AllocError, Global};
use std::marker::Model;

/// The declarations and units that the outcome of one name depends on: the units stored at that name and at names that begin with it and
/// `/`. A name that is not in the list holds no body. A snapshot may carry the outcome of its name, and pieces of its bodies.
pub struct Snapshot {
    types: Shared<Declared>,
    root: Name,
    units: Vec<(Name, Shared<Unit>)>,
    carried: Option<Shared<Outcome>>,
    kept: Option<Pieces>,
    offered: Option<Pieces>,
}

// Handwritten, so that it is proved once: the crates above only call it.
impl Drop for Snapshot {
    fn drop(self) {
        let Self {
            types: _,
            root: _,
            units: _,
            carried: _,
            kept: _,
            offered: _,
        } = self;
    }
}

impl Model for Snapshot {
    ghost use Rattle.bc_prov.specs.Snapshots.{SnapshotView, IsKept};

    ghost Value = { SnapshotView };

    ghost view = { λ s. record { types = s.types; root = s.root; units = s.units.items; carried = s.carried } };

    ghost invariant = { λ s. IsKept s.types s.root s.units.items s.carried s.kept s.offered };
}

/// Returns the piece of a name, if a binary search finds one.
fn piece_of_name<'a>(pieces: &'a Option<Pieces>, name: &Name) -> Option<&'a Shared<Piece>>
    ensures { IfSome result (λ piece. IsAmongPieces pieces.now name.now piece.now) }
{
    let pieces = pieces.as_ref()?;
    match pieces.binary_search_by(|entry| entry.0.cmp(name)) {
        Ok(at) => Some(&pieces[at].1),
        Err(_) => None,
    }
}

/// Returns the pieces of a name. They are adjacent, since the names ascend.
fn pieces_of_name<'a>(
    pieces: &'a [(Name, Shared<Piece>)],
    name: &Name,
) -> &'a [(Name, Shared<Piece>)]
    requires { AreAscending pieces.now }
    ensures { result.now ≡ pieces_at name.now pieces.now }
{
    let start = pieces.partition_point(|entry| entry.0.cmp(name).is_lt());
    let rest = &pieces[start..];
    let len = rest.partition_point(|entry| entry.0.cmp(name).is_eq());
    &rest[..len]
}

impl Snapshot {
    /// Makes the snapshot of a name from these declarations and units. It carries no outcome and no pieces. Requires that the names ascend
    /// strictly, that each is the root or begins with it and `/`, that a function is at a root and a closure at any other name, and that no
    /// unit at a name of seven segments has a child. The list may be empty.
    pub fn of(types: Shared<Declared>, root: Name, units: Vec<(Name, Shared<Unit>)>) -> Snapshot
        requires { IsSnapshot root units.items }
        ensures { result ≡ record { types = types; root = root; units = units.items; carried = None } }
    {
        Snapshot {
            types,
            root,
            units,
            carried: None,
            kept: None,
            offered: None,
        }
    }

    /// Adds kept pieces of the snapshot's bodies, in place of those that it kept before. Requires that each was found from the declarations
    /// and from the unit at its name. `kept_piece` finds them if their names ascend.
    pub fn keep_pieces(self, pieces: Pieces) -> Snapshot
        requires { ArePieces self.types self.units pieces.items }
        ensures { result ≡ self }
    {
        let Snapshot {
            types,
            root,
            units,
            carried,
            kept: _,
            offered,
        } = self;
        Snapshot {
            types,
            root,
            units,
            carried,
            kept: Some(pieces),
            offered,
        }
    }

    /// Adds pieces, in place of those that were carried before. A report reuses them as it reuses kept ones, if all that they were found
    /// from is there. Pieces that were found from other declarations, or from another unit than the one at their name, are left out. The
    /// pieces may come in any order, and a name may have several.
    ///
    /// Only tests of this repository call it: the database offers a set, whose declarations are compared once.
    pub fn carry_pieces(self, pieces: Pieces) -> Snapshot
        ensures { result ≡ self }
    {
        let over = self.over_types(pieces);
        self.with_offered(over)
    }

    /// Adds the pieces of a set, in place of those that were carried before. A report reuses them as it reuses kept ones, if all that they
    /// were found from is there. A set over other declarations changes nothing. Pieces that were found from another unit than the one at
    /// their name are left out. The pieces may come in any order, and a name may have several.
    pub fn offer(self, set: PieceSet) -> Snapshot
        ensures { result ≡ self }
    {
        if !set.is_over(&self.types) {
            return self;
        }
        self.with_offered(set.into_rows())
    }

    /// Returns the snapshot with those of these pieces that were found from the unit at their name, sorted by name, in place of those that
    /// it carried. Requires that all were found from its declarations.
    fn with_offered(self, pieces: Pieces) -> Snapshot
        requires { AreOver self.types pieces.items }
        ensures { result ≡ self }
    {
        let fitting = self.of_units(pieces);
        let pieces = self.in_order(fitting);
        let Snapshot {
            types,
            root,
            units,
            carried,
            kept,
            offered: _,
        } = self;
        Snapshot {
            types,
            root,
            units,
            carried,
            kept,
            offered: Some(pieces),
        }
    }

    /// Returns these pieces of its bodies, sorted by name.
    fn in_order(&self, pieces: Pieces) -> Pieces
        requires { ArePieces self.now.types self.now.units pieces.items }
        ensures pieces { ArePieces self.now.types self.now.units result.items }
        ensures same { IsPermutation pieces.items result.items }
        ensures ascending { AreAscending result.items }
    {
        let mut pieces = pieces;
        pieces.sort_unstable_by_key(|entry| entry.0);
        pieces
    }

    /// Returns the pieces that were found from its declarations.
    fn over_types(&self, pieces: Pieces) -> Pieces
        ensures { AreOver self.now.types result.items }
    {
        let mut pieces = pieces;
        pieces.retain(|entry| self.has_types(entry));
        pieces
    }

    /// Returns whether a piece was found from its declarations, compared as values.
    fn has_types(&self, entry: &(Name, Shared<Piece>)) -> bool
        ensures { IsTrue result → entry.now.1.types ≡ self.now.types }
    {
        entry.1.get().types() == &self.types
    }

    /// Returns those of the pieces that were found from the unit at their name. Requires that all were found from its declarations.
    fn of_units(&self, pieces: Pieces) -> Pieces
        requires { AreOver self.now.types pieces.items }
        ensures { ArePieces self.now.types self.now.units result.items }
    {
        let mut pieces = pieces;
        pieces.retain(|entry| self.has_unit(entry));
        pieces
    }

    /// Returns whether a piece was found from the unit at its name.
    fn has_unit(&self, entry: &(Name, Shared<Piece>)) -> bool
        ensures { IsTrue result → at_name self.now.units entry.now.0 ≡ Some entry.now.1.unit }
    {
        match self.unit(&entry.0) {
            Some(unit) => entry.1.get().unit() == unit,
            None => false,
        }
    }

    /// Returns the kept piece of the body at a name, if there is one.
    pub fn kept_piece(&self, name: &Name) -> Option<&Shared<Piece>>
        ensures { IfSome result (λ piece. IsPieceFor self.now.types (at_name self.now.units name.now) piece.now) }
    {
        piece_of_name(&self.kept, name)
    }

    /// Returns the carried pieces of the body at a name.
    pub fn carried_pieces(&self, name: &Name) -> &[(Name, Shared<Piece>)]
        ensures { AllByRecursion (λ entry. IsPieceFor self.now.types (at_name self.now.units name.now) entry.1) result.now }
    {
        match &self.offered {
            Some(pieces) => pieces_of_name(pieces, name),
            None => &[],
        }
    }

    /// Returns a piece of the body at a name, if the snapshot has one: the kept piece, otherwise the first carried one.
    fn any_piece(&self, name: &Name) -> Option<&Shared<Piece>>
        ensures { IfSome result (λ piece. IsPieceFor self.now.types (at_name self.now.units name.now) piece.now) }
    {
        match self.kept_piece(name) {
            Some(piece) => Some(piece),
            None => {
                let entry = self.carried_pieces(name).first()?;
                Some(&entry.1)
            }
        }
    }

    /// Adds the outcome of the snapshot's name. Requires that this is the outcome.
    pub fn carry(self, outcome: Shared<Outcome>) -> Snapshot
        requires { IsOutcomeIn (state_of self.types self.units) self.root outcome }
        ensures { result ≡ record self { carried = Some outcome } }
    {
        let Snapshot {
            types,
            root,
            units,
            carried: _,
            kept,
            offered,
        } = self;
        Snapshot {
            types,
            root,
            units,
            carried: Some(outcome),
            kept,
            offered,
        }
    }

    /// Returns the outcome that the snapshot carries for its name, if any.
    pub fn carried(&self) -> Option<&Shared<Outcome>>
        ensures value { option_copied result ≡ self.now.carried }
        ensures right { IfSome result (λ outcome. IsOutcomeIn (state_of self.now.types self.now.units) self.now.root outcome.now) }
    {
        self.carried.as_ref()
    }

    /// Returns the declarations.
    pub fn types(&self) -> &Shared<Declared>
        ensures { result.now ≡ self.now.types }
    {
        &self.types
    }

    /// Returns the name that this is a snapshot of.
    pub fn root(&self) -> &Name
        ensures { result.now ≡ self.now.root }
    {
        &self.root
    }

    /// Returns the units, each with its name, in the order of the names.
    pub fn units(&self) -> &[(Name, Shared<Unit>)]
        ensures units { result.now ≡ self.now.units }
        ensures snapshot { IsSnapshot self.now.root self.now.units }
    {
        &self.units
    }

    /// Returns the unit at a name, if there is one.
    pub fn unit(&self, name: &Name) -> Option<&Shared<Unit>>
        ensures unit { option_copied result ≡ at_name self.now.units name.now }
        ensures suited { AreSuited (at_name self.now.units) }
    {
        match self.units.binary_search_by(|unit| unit.0.cmp(name)) {
            Ok(at) => Some(&self.units[at].1),
            Err(_) => None,
        }
    }

    /// Returns the numbers of the children of a unit, each once, ascending. They come from a piece of the unit if the snapshot has one, and
    /// otherwise from the unit. Requires that the unit is stored under this name.
    pub fn children_of(
        &self,
        alloc: Global,
        name: &Name,
        unit: &Shared<Unit>,
    ) -> Result<Vec<u8>, AllocError>
        requires { at_name self.now.units name.now ≡ Some unit.now }
        ensures value { IfOk result (λ numbers. numbers.items ≡ children_of unit.now) }
        ensures low { IfOk result (λ numbers. list_all (λ number. nat_le number 63) numbers.items ≡ true) }
    {
        children_of(alloc, unit, self.any_piece(name))
    }
}
