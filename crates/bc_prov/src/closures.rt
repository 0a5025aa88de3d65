//! The closures that a unit names.
ghost use Rattle.std.specs.Prelude.{◌≡◌, ◌≢◌, ◌<◌, ◌++◌, [], true, length, map, nat_le, IfOk, IfSome, OnOk};
ghost use Rattle.std.specs.List.{list_all};
ghost use Rattle.bc_syntax.specs.Children.{children_of};
ghost use Rattle.bc_prov.specs.Snapshots.{children_named};
ghost use Rattle.bc_prov.specs.State.{HasRoom, child};

use crate::pieces::Piece;
use crate::shared::Shared;
use bc_names::Name;
use bc_syntax::Unit;
use std::alloc::{AllocError, Global};

/// Returns the numbers of the children of a unit, each once, ascending. They come from a piece of the unit if there is one, and otherwise
/// from the unit.
pub(crate) fn children_of(
    alloc: Global,
    unit: &Shared<Unit>,
    piece: Option<&Shared<Piece>>,
) -> Result<Vec<u8>, AllocError>
    requires { IfSome piece (λ piece. piece.now.unit ≡ unit.now) }
    ensures value { IfOk result (λ numbers. numbers.items ≡ children_of unit.now) }
    ensures low { IfOk result (λ numbers. list_all (λ number. nat_le number 63) numbers.items ≡ true) }
{
    match piece {
        Some(piece) => piece.get().children(alloc),
        None => unit.get().body().children(alloc),
    }
}

/// Appends the names of the closures of `name` that have these numbers. On an error the list has some of them.
fn push_children(names: &mut Vec<Name>, name: Name, numbers: &[u8]) -> Result<(), AllocError>
    requires few { numbers.now ≢ [] → length name.segments < 7 }
    requires low { list_all (λ number. nat_le number 63) numbers.now ≡ true }
    ensures { OnOk result (names.new.items ≡ names.old.items ++ map (child name) numbers.now) }
{
    for number in numbers {
        let child = name.child(*number).unwrap();
        names.push(child)?;
    }
    Ok(())
}

/// Appends the names of the closures of a unit that is stored under `name`, ascending. Their numbers come from a piece of the unit if there
/// is one. On an error the list has some of them.
pub fn push_closures(
    alloc: Global,
    names: &mut Vec<Name>,
    name: Name,
    unit: &Shared<Unit>,
    piece: Option<&Shared<Piece>>,
) -> Result<(), AllocError>
    requires room { HasRoom name unit.now }
    requires piece { IfSome piece (λ piece. piece.now.unit ≡ unit.now) }
    ensures { OnOk result (names.new.items ≡ names.old.items ++ children_named (name, unit.now)) }
{
    let numbers = children_of(alloc, unit, piece)?;
    push_children(names, name, &numbers)
}
