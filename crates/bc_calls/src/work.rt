//! Snapshots to work on, and the work on them, which needs nothing but the snapshot.
ghost use Rattle.std.specs.Prelude.{◌≡◌, ◌↔◌, None, IfOk, IfSome, IsOk};
ghost use Rattle.std.specs.Option.{option_or};
ghost use Rattle.bc_names.specs.Names.{NameParts};
ghost use Rattle.bc_prov.specs.Outcome.{IsOutcomeIn};
ghost use Rattle.bc_prov.specs.Pieces.{ArePieces, rows_of};
ghost use Rattle.bc_prov.specs.Snapshots.{IsPartOf};
ghost use Rattle.bc_prov.specs.State.{State, state_of};
ghost use Rattle.bc_outcomes.specs.Reported.{AreAmongPiecesOf};
ghost use Rattle.bc_memo.specs.Places.{AreFitting};
ghost use Rattle.bc_calls.specs.Works.{StandsIn, Stood};

use bc_memo::{Part, Shelf};
use bc_names::Name;
use bc_outcomes::{AskResult, find_outcome};
use bc_prov::{Outcome, PieceSet, Pieces, Providers, Shared, Snapshot};
use std::alloc::{AllocError, Global};
use std::marker::Model;

/// A snapshot to work on: a name's part of what was stored, with the revisions of its declarations and of its units. A contract sees the
/// snapshot.
#[derive(Drop)]
pub struct Begun {
    snapshot: Snapshot,
    types_revision: u32,
    revisions: Vec<u32>,
}

impl Model for Begun {
    ghost use Rattle.bc_prov.specs.Snapshots.{SnapshotView};

    ghost Value = { SnapshotView };

    ghost view = { λ b. b.snapshot };
}

/// A snapshot with its revisions and its outcome, and the pieces of its bodies that it did not keep yet. The type guarantees that each
/// piece was found from the snapshot's declarations and from the unit at its name. A contract sees all but the pieces.
#[derive(Drop)]
pub struct Work {
    snapshot: Snapshot,
    types_revision: u32,
    revisions: Vec<u32>,
    outcome: Shared<Outcome>,
    pieces: Option<PieceSet>,
}

impl Model for Work {
    ghost use Rattle.std.specs.Prelude.{◌≡◌, IfSome};
    ghost use Rattle.bc_prov.specs.Pieces.{ArePieces, rows_of};
    ghost use Rattle.bc_calls.specs.Works.{WorkView, IsDone};

    ghost Value = { WorkView };

    ghost view = { λ w. record { snapshot = w.snapshot; types_at = w.types_revision; units_at = w.revisions.items; outcome = w.outcome } };

    ghost invariant = { λ w. IsDone w.snapshot w.outcome × IfSome w.pieces (λ set. set.types ≡ w.snapshot.types) ×
        ArePieces w.snapshot.types w.snapshot.units (rows_of w.pieces) };
}

impl Begun {
    /// Begins a part. Its snapshot then carries the answer, if one is given. Requires that this is the outcome of the part's name.
    pub fn carrying(part: Part, answer: Option<Shared<Outcome>>) -> Begun
        requires { IfSome answer (IsOutcomeIn (state_of part.snapshot.types part.snapshot.units) part.snapshot.root) }
        ensures part { (result.types ≡ part.snapshot.types) × (result.root ≡ part.snapshot.root) × (result.units ≡ part.snapshot.units) }
        ensures carried { result.carried ≡ option_or answer part.snapshot.carried }
    {
        let Part {
            snapshot,
            types_revision,
            revisions,
        } = part;
        let snapshot = match answer {
            Some(outcome) => snapshot.carry(outcome),
            None => snapshot,
        };
        Begun {
            snapshot,
            types_revision,
            revisions,
        }
    }

    /// Adds kept pieces of the snapshot's bodies. Requires that each was found from the declarations and from the unit at its name. A
    /// report finds them if their names ascend.
    pub fn keep_pieces(self, pieces: Pieces) -> Begun
        requires { ArePieces self.types self.units pieces.items }
        ensures { result ≡ self }
    {
        let Begun {
            snapshot,
            types_revision,
            revisions,
        } = self;
        Begun {
            snapshot: snapshot.keep_pieces(pieces),
            types_revision,
            revisions,
        }
    }

    /// Adds the pieces of a set, if there is one. A piece is reused if all that it was found from is there.
    pub fn offer(self, pieces: Option<PieceSet>) -> Begun
        ensures { result ≡ self }
    {
        let Some(set) = pieces else {
            return self;
        };
        let Begun {
            snapshot,
            types_revision,
            revisions,
        } = self;
        Begun {
            snapshot: snapshot.offer(set),
            types_revision,
            revisions,
        }
    }

    /// Returns the outcome of the snapshot's name in the snapshot. If the snapshot carries one, this is it, and no provider is called.
    /// Otherwise the providers and the pieces of its bodies give it, and with it come the pieces that the snapshot does not keep, each
    /// found from the declarations and from the unit at its name. Returns `AllocError` also if a provider does.
    ///
    /// This is `work` for the book, which needs no `Work`: it has just begun the snapshot, under the lock.
    pub fn find(&self, alloc: Global, providers: &Providers) -> Result<AskResult, AllocError>
        ensures outcome { IfOk result (λ found. IsOutcomeIn (state_of self.now.types self.now.units) self.now.root found.outcome) }
        ensures pieces { IfOk result (λ found. AreAmongPiecesOf
            (state_of self.now.types self.now.units) self.now.root self.now.carried found.outcome (rows_of found.pieces)) }
        ensures over { IfOk result (λ found. IfSome found.pieces (λ set. set.types ≡ self.now.types)) }
        ensures fit { IfOk result (λ found. ArePieces self.now.types self.now.units (rows_of found.pieces)) }
        ensures carried { IfSome self.now.carried (λ outcome. IfOk result (λ found. (found.outcome ≡ outcome) × (found.pieces ≡ None))) }
    {
        find_outcome(alloc, providers, &self.snapshot)
    }

    /// Finds the outcome of the snapshot's name: the one that the snapshot carries, without a provider, or else the one that the providers
    /// give. It is the outcome of the name in each state of which the snapshot is the name's part. No lock is held meanwhile. Returns
    /// `AllocError` also if a provider does.
    pub fn work(self, alloc: Global, providers: &Providers) -> Result<Work, AllocError>
        ensures same { IfOk result (λ work. work.snapshot ≡ self) }
        ensures outcome { (name : NameParts) (state : State) → IsPartOf self name state → IfOk result (λ work. IsOutcomeIn state name work.outcome) }
    {
        let found = self.find(alloc, providers)?;
        Ok(Work {
            snapshot: self.snapshot,
            types_revision: self.types_revision,
            revisions: self.revisions,
            outcome: found.outcome,
            pieces: found.pieces,
        })
    }
}

impl Work {
    /// Returns the name that was worked on.
    pub fn name(&self) -> &Name
        ensures { result.now ≡ self.now.snapshot.root }
    {
        self.snapshot.root()
    }

    /// Returns whether pieces come with the outcome. A contract does not see them.
    pub fn has_pieces(&self) -> bool {
        match &self.pieces {
            Some(set) => !set.rows().is_empty(),
            None => false,
        }
    }

    /// Returns the outcome that was found.
    pub fn outcome(&self) -> &Outcome
        ensures value { result.now ≡ self.now.outcome }
        ensures right { IsOutcomeIn (state_of self.now.snapshot.types self.now.snapshot.units) self.now.snapshot.root self.now.outcome }
    {
        self.outcome.get()
    }

    /// Returns the outcome that the work found, with its pieces, exactly if the shelf holds the work's snapshot with the same revisions.
    /// Each piece then fits what the shelf holds. Otherwise it returns the pieces alone.
    pub fn standing(self, shelf: &Shelf) -> Result<AskResult, Option<PieceSet>>
        ensures own { IfOk result (λ found. Stood shelf.now.held self found.outcome) }
        ensures over { IfOk result (λ found. IfSome found.pieces (λ set. set.types ≡ shelf.now.held.types)) }
        ensures fit { IfOk result (λ found. AreFitting shelf.now.held (rows_of found.pieces)) }
        ensures stands { IsOk result ↔ StandsIn shelf.now.held self }
    {
        let Work {
            snapshot,
            types_revision,
            revisions,
            outcome,
            pieces,
        } = self;
        if shelf.holds(&snapshot, types_revision, &revisions) {
            Ok(AskResult { outcome, pieces })
        } else {
            Err(pieces)
        }
    }
}
