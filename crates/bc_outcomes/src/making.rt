//! Making the piece of one unit.
ghost use Rattle.std.specs.Prelude.{◌≡◌, Err, None, Some, IfOk, OnOk, length, map};
ghost use Rattle.bc_syntax.specs.Children.{children_of};
ghost use Rattle.bc_types.specs.Declarations.{first_bad};
ghost use Rattle.bc_cons.specs.Requirements.{AreOfChildren};
ghost use Rattle.bc_bodies.specs.Mir.{mir_of};
ghost use Rattle.bc_mir.specs.Typing.{misfit};
ghost use Rattle.bc_mir.specs.declared.typed.Where.{Where};
ghost use Rattle.bc_prov.specs.Pieces.{IsFitted, IsFoundFrom};
ghost use Rattle.bc_outcomes.specs.Reported.{kid_header, kid_requirements};
ghost use Rattle.bc_prov.specs.State.{number_of_child};

use crate::stack::Stack;
use crate::verdicts::{copy_requirements, take_kids};
use bc_cons::Requirements;
use bc_mir::{Child, IllFault, KidHeader, Typed, type_unit};
use bc_prov::{Check, Declared, Piece, Providers, Shared, piece_of, share};
use bc_syntax::Unit;
use std::alloc::{AllocError, Global};

/// Copies a child's header, which stays borrowed.
fn lent_again<'a>(header: &KidHeader<'a>) -> Result<KidHeader<'a>, AllocError>
    ensures { IfOk result (λ again. again ≡ header.now) }
{
    header.clone()
}

/// Copies the headers of children, which stay borrowed.
fn headers_of<'a>(
    alloc: Global,
    kids: &[(KidHeader<'a>, Requirements)],
) -> Result<Vec<KidHeader<'a>>, AllocError>
    ensures { IfOk result (λ headers. headers.items ≡ map kid_header kids.now) }
{
    let mut headers = Vec::with_capacity(alloc, kids.len())?;
    for kid in kids {
        headers.push(lent_again(&kid.0)?)?;
    }
    Ok(headers)
}

/// Copies what each child requires.
fn requirements_of(
    alloc: Global,
    kids: &[(KidHeader<'_>, Requirements)],
) -> Result<Vec<Requirements>, AllocError>
    ensures { IfOk result (λ requirements. requirements.items ≡ map (λ kid. kid.1) kids.now) }
{
    let mut requirements = Vec::with_capacity(alloc, kids.len())?;
    for kid in kids {
        requirements.push(copy_requirements(&kid.1)?)?;
    }
    Ok(requirements)
}

/// Copies the headers of children, and what they require, into two lists.
fn apart<'a>(
    alloc: Global,
    kids: &[(KidHeader<'a>, Requirements)],
) -> Result<(Vec<KidHeader<'a>>, Vec<Requirements>), AllocError>
    ensures headers { IfOk result (λ r. r.0.items ≡ map kid_header kids.now) }
    ensures requirements { IfOk result (λ r. r.1.items ≡ map (λ kid. kid.1) kids.now) }
{
    let headers = headers_of(alloc, kids)?;
    let requirements = requirements_of(alloc, kids)?;
    Ok((headers, requirements))
}

/// Types a unit over good declarations and the headers of its children. Returns `Ill` with the place of the first misfit if a typing rule
/// fails.
fn typed_over(
    alloc: Global,
    types: &Shared<Declared>,
    unit: &Shared<Unit>,
    headers: &[KidHeader<'_>],
) -> Result<Shared<Typed>, IllFault>
    requires good { first_bad types.now ≡ None }
    requires children { map number_of_child headers.now ≡ children_of unit.now }
    ensures ok { IfOk result (λ typed. typed ≡ mir_of types.now headers.now unit.now) }
    ensures fits { OnOk result (misfit (mir_of types.now headers.now unit.now) ≡ None) }
    ensures ill { (place : Where) → result ≡ Err (IllFault.Ill place) → misfit (mir_of types.now headers.now unit.now) ≡ Some place }
{
    let Check::Good(good) = types.get().found() else {
        unreachable!();
    };
    let typed = type_unit(alloc, good, unit.get(), headers)?;
    Ok(share(alloc, typed)?)
}

/// Returns what children require, each with its child's number. Requires that there are as many as children.
fn numbered(
    alloc: Global,
    children: &[Child],
    requirements: Vec<Requirements>,
) -> Result<Vec<(u8, Requirements)>, AllocError>
    requires { length children.now ≡ length requirements.items }
    ensures numbers { IfOk result (λ kids. map (λ k. k.0) kids.items ≡ map number_of_child children.now) }
    ensures requirements { IfOk result (λ kids. map (λ k. k.1) kids.items ≡ requirements.items) }
{
    let mut required = Stack::of(requirements);
    take_kids(alloc, children, &mut required)
}

/// Returns the piece of a typed unit, given what each child requires. The piece is one more owner of the declarations and of the unit.
fn piece_over(
    alloc: Global,
    providers: &Providers,
    types: &Shared<Declared>,
    unit: &Shared<Unit>,
    typed: Shared<Typed>,
    kids: Vec<(u8, Requirements)>,
) -> Result<Piece, AllocError>
    requires fitted { IsFitted types.now unit.now typed }
    requires kids { AreOfChildren typed.children kids.items }
    ensures { IfOk result (IsFoundFrom types.now unit.now typed kids.items) }
{
    piece_of(alloc, providers, types.clone()?, unit.clone()?, typed, kids)
}

/// Types and judges a unit over good declarations, given the header of each child, ascending, and what the child requires, and returns its
/// piece. Requires that a child requires nothing of its local regions. Returns `Ill` if a typing rule fails: with the header if a header
/// rule fails, otherwise with the first point at which a rule fails. Returns `NoMemory` also if a provider returns `AllocError`. (The
/// errors are those of RFC 2094, "Borrow checker phase 2" and "Named lifetimes", the requirements those of the rustc-dev-guide,
/// "Propagating closure constraints".)
///
/// Only tests of this repository call it: an ask makes the pieces of a whole snapshot.
pub fn piece(
    alloc: Global,
    providers: &Providers,
    types: &Shared<Declared>,
    unit: &Shared<Unit>,
    kids: &[(KidHeader<'_>, Requirements)],
) -> Result<Piece, IllFault>
    requires good { first_bad types.now ≡ None }
    requires children { map (λ kid. number_of_child kid.0) kids.now ≡ children_of unit.now }
    requires external { AreOfChildren (map kid_header kids.now) (map kid_requirements kids.now) }
    ensures from { IfOk result (IsFoundFrom types.now unit.now (mir_of types.now (map kid_header kids.now) unit.now) (map kid_requirements kids.now)) }
    ensures ill { (place : Where) → result ≡ Err (IllFault.Ill place) → misfit (mir_of types.now (map kid_header kids.now) unit.now) ≡ Some place }
{
    let (headers, requirements) = apart(alloc, kids)?;
    let typed = typed_over(alloc, types, unit, &headers)?;
    let kids = numbered(alloc, typed.get().children(), requirements)?;
    let piece = piece_over(alloc, providers, types, unit, typed, kids)?;
    Ok(piece)
}
