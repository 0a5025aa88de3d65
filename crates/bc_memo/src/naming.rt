//! Which names a unit may have.
ghost use Rattle.std.specs.Prelude.{◌↔◌, IfOk, IsTrue};
ghost use Rattle.bc_prov.specs.State.{HasRoom, Suits, SuitsKind};

use bc_names::Name;
use bc_syntax::{Unit, UnitKind};
use std::alloc::{AllocError, Global};

/// Returns whether a unit of this kind may have the name.
fn suits_kind(kind: UnitKind, name: &Name) -> bool
    ensures { IsTrue result ↔ SuitsKind kind name.now }
{
    match kind {
        UnitKind::Function => name.segments().is_empty(),
        UnitKind::Closure => !name.segments().is_empty(),
    }
}

/// Returns whether the name leaves room for the names of the unit's children.
fn has_room(alloc: Global, unit: &Unit, name: &Name) -> Result<bool, AllocError>
    ensures { IfOk result (λ room. IsTrue room ↔ HasRoom name.now unit.now) }
{
    if name.depth() < 7 {
        return Ok(true);
    }
    let children = unit.body().children(alloc)?;
    Ok(children.is_empty())
}

/// Returns whether a unit may be stored at a name: a function at a root, a closure at any other name, and at a name of seven segments no
/// unit with a child.
pub fn suits(alloc: Global, unit: &Unit, name: &Name) -> Result<bool, AllocError>
    ensures { IfOk result (λ suits. IsTrue suits ↔ Suits unit.now name.now) }
{
    if !suits_kind(unit.body().header.kind, name) {
        return Ok(false);
    }
    has_room(alloc, unit, name)
}
