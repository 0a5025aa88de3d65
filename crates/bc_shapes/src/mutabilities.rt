//! Mutability of references.
ghost use Rattle.std.specs.Prelude.{◌≡◌};
ghost use Rattle.bc_shapes.specs.Mutabilities.{is_mutable as mutable};

use bc_syntax::Mutability;

/// Returns whether a reference or a borrow is mutable.
pub fn is_mutable(mutability: Mutability) -> bool
    ensures { result ≡ mutable mutability }
{
    matches!(mutability, Mutability::Mutable)
}
