//! Declarations with the result of their check.
ghost use Rattle.std.specs.Prelude.{◌≡◌, IfOk};
ghost use Rattle.bc_prov.specs.Checks.{IsCheckOf};

use crate::shared::Shared;
use bc_mir::{CheckTypes, DeclFault, GoodTypes};
use bc_syntax::Types;
use std::alloc::{AllocError, Global};
use std::marker::Model;
use std::sync::Arc;

/// The result of checking declarations: all are good, or the index of the first bad one, from 0.
pub enum Check {
    Good(Arc<GoodTypes, Global>),
    Bad(usize),
}

impl Drop for Check {
    fn drop(self) {
        match self {
            Self::Good(_) => {}
            Self::Bad(_) => {}
        }
    }
}

/// Declarations with the result of their check, so that they are checked once. A contract sees the declarations.
pub struct Declared {
    types: Shared<Types>,
    check: Check,
}

// Handwritten, so that it is proved once: the crates above only call it.
impl Drop for Declared {
    fn drop(self) {
        let Self { types: _, check: _ } = self;
    }
}

impl Model for Declared {
    ghost use Rattle.std.specs.Prelude.{List};
    ghost use Rattle.bc_syntax.specs.declared.syntax.Declaration.{Declaration};
    ghost use Rattle.bc_prov.specs.Checks.{IsCheckOf};

    ghost Value = { List Declaration };

    ghost view = { λ d. d.types };

    ghost invariant = { λ d. IsCheckOf d.types d.check };
}

impl PartialEq for Declared {
    ghost use Rattle.bc_syntax.specs.contracts.declarations.TypesPartialEq.TheImpl as types_impl;
    ghost use Rattle.bc_syntax.specs.contracts.declarations.TypesPartialEq.TheImpl.Laws.{laws-law};

    ghost eq = { (types_impl.ghosts).eq };

    ghost laws = { laws-law };

    /// Returns whether the declarations are equal. Then the results of their checks are, too.
    fn eq(&self, other: &Declared) -> bool {
        self.types == other.types
    }
}

/// Returns the result of checking declarations.
fn first_bad(alloc: Global, types: &Types) -> Result<Check, AllocError>
    ensures { IfOk result (IsCheckOf types.now) }
{
    match types.check(alloc) {
        Ok(good) => match Arc::new(alloc, good) {
            Ok(good) => Ok(Check::Good(good)),
            Err(_) => Err(AllocError),
        },
        Err(DeclFault::BadDecl { index }) => Ok(Check::Bad(index)),
        Err(DeclFault::NoMemory) => Err(AllocError),
    }
}

impl Declared {
    /// Checks declarations, and returns them with the result.
    pub fn of(alloc: Global, types: Shared<Types>) -> Result<Declared, AllocError>
        ensures { IfOk result (λ declared. declared ≡ types) }
    {
        let check = first_bad(alloc, types.get())?;
        Ok(Declared { types, check })
    }

    /// Returns the result of the check.
    pub fn found(&self) -> &Check
        ensures { IsCheckOf self.now result.now }
    {
        &self.check
    }
}
