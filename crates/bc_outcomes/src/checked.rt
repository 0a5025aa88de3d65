//! A snapshot with good declarations.
ghost use Rattle.std.specs.Prelude.{◌≡◌};
ghost use Rattle.std.specs.Arc.{arc_value};

use bc_mir::GoodTypes;
use bc_prov::Snapshot;
use std::alloc::Global;
use std::sync::Arc;

/// A snapshot with its checked declarations, of which none is bad.
#[derive(Drop)]
pub(crate) struct CheckedSnapshot<'a> {
    pub(crate) types: &'a Arc<GoodTypes, Global>,
    pub(crate) snapshot: &'a Snapshot,
    ghost same: { arc_value types.now ≡ snapshot.now.types },
}
