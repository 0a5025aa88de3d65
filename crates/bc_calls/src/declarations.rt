//! Declarations as they are stored: with the result of their check.
ghost use Rattle.std.specs.Prelude.{◌≡◌, [], IfOk};

use bc_prov::{Declared, Shared, share};
use bc_syntax::{Sequence, Types};
use std::alloc::{AllocError, Global};

/// Checks declarations, and returns them with the result.
pub fn checked(alloc: Global, types: Shared<Types>) -> Result<Shared<Declared>, AllocError>
    ensures { IfOk result (λ declared. declared ≡ types) }
{
    let declared = Declared::of(alloc, types)?;
    share(alloc, declared)
}

/// Returns the declarations that a database opens with: none.
pub fn no_declarations(alloc: Global) -> Result<Shared<Declared>, AllocError>
    ensures { IfOk result (λ declared. declared ≡ []) }
{
    let types = Types::of_fitting(Sequence::new(alloc));
    checked(alloc, share(alloc, types)?)
}
