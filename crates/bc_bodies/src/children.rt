//! The children of a unit: their headers, and the regions that they are given.
ghost use Rattle.std.specs.Prelude.{◌≡◌, ◌≤◌, ◌<◌, ◌+◌, ◌^◌, ◌++◌, length, IfOk, OnOk};
ghost use Rattle.std.specs.List.{list_all};
ghost use Rattle.std.specs.Option.{option_copied};
ghost use Rattle.bc_syntax.specs.declared.syntax.UnitKind.TheVariants.{Closure};
ghost use Rattle.bc_bodies.specs.Children.{child_of as child_there, takes_externals as externals_taken, takes_locals as locals_taken, is_known as known, first_of as first, behind_first as behind, arguments_from, arguments_of, is_outer as outer, is_outer_clause as outer_clause};

use crate::externals::{external_count, is_external, local_count};
use bc_syntax::{Base, ClosureInstance, Header, Outlives, Region, RegionName, Ty, Unit};
use bc_types::{copy_signature, copy_types};
use std::alloc::{AllocError, Global};
use std::marker::Model;

/// A child of a unit: its number and its header.
#[derive(Drop)]
pub struct Child {
    pub number: u8,
    pub header: Header,
}

/// A child as typing needs it: its number, from 0 to 63, and the borrowed header of its closure.
#[derive(Drop)]
pub struct KidHeader<'a> {
    number: u8,
    header: &'a Header,
}

impl<'a> Model for KidHeader<'a> {
    ghost use Rattle.bc_bodies.specs.declared.children.Child.{Child};
    ghost use Rattle.bc_bodies.specs.Children.{IsChild};

    ghost Value = { Child };

    ghost view = { λ k. record { number = k.number; header = k.header.now } };

    ghost invariant = { λ k. IsChild (record { number = k.number; header = k.header.now }) };
}

fn copy_header(header: &Header) -> Result<Header, AllocError>
    ensures { IfOk result (λ copy. copy ≡ header.now) }
{
    Ok(Header {
        kind: header.kind,
        captures: copy_types(&header.captures)?,
        signature: copy_signature(&header.signature)?,
    })
}

// Not Copy: a type with a model and a lifetime cannot be.
impl<'a> Clone for KidHeader<'a> {
    ghost is_clone = { λ s t. t ≡ s };

    /// Returns the same number with the same borrowed header.
    fn clone(&self) -> Result<KidHeader<'a>, AllocError> {
        Ok(KidHeader {
            number: self.number,
            header: self.header,
        })
    }
}

impl<'a> KidHeader<'a> {
    /// Returns the child of a number, which is a closure.
    pub fn of(number: u8, unit: &'a Unit) -> KidHeader<'a>
        requires number { number ≤ 63 }
        requires kind { unit.now.header.kind ≡ Closure }
        ensures { result ≡ record { number = number; header = unit.now.header } }
    {
        KidHeader {
            number,
            header: &unit.body().header,
        }
    }

    /// Returns the child with a copied header.
    fn copied(&self) -> Result<Child, AllocError>
        ensures { IfOk result (λ child. child ≡ self.now) }
    {
        Ok(Child {
            number: self.number,
            header: copy_header(self.header)?,
        })
    }
}

/// Returns the children with copied headers.
pub(crate) fn copy_children(alloc: Global, kids: &[KidHeader<'_>]) -> Result<Vec<Child>, AllocError>
    ensures { IfOk result (λ children. children.items ≡ kids.now) }
{
    let mut children = Vec::with_capacity(alloc, kids.len())?;
    for kid in kids {
        children.push(kid.copied()?)?;
    }
    Ok(children)
}

/// Returns the header of the child of a number.
pub(crate) fn child_of(children: &[Child], number: u8) -> Option<&Header>
    ensures { option_copied result ≡ child_there children.now number }
{
    match children {
        [] => None,
        [child, more @ ..] => {
            if child.number == number {
                Some(&child.header)
            } else {
                child_of(more, number)
            }
        }
    }
}

/// Returns whether a closure has as many regions as its child has external ones.
pub fn takes_externals(closure: &ClosureInstance, header: &Header) -> bool
    ensures { result ≡ externals_taken closure.now header.now }
{
    let names = header.signature.regions.as_slice();
    external_count(header.captures.as_slice(), 0, names) == closure.regions.as_slice().len()
}

/// Returns whether a call gives as many regions as the child has local ones.
pub fn takes_locals(regions: &[Region], header: &Header) -> bool
    ensures { result ≡ locals_taken regions.now header.now }
{
    let names = header.signature.regions.as_slice();
    local_count(header.captures.as_slice(), 0, names) == regions.len()
}

fn is_known(children: &[Child], ty: &Ty) -> bool
    ensures { result ≡ known children.now ty.now }
{
    match &ty.base {
        Base::Int | Base::Struct(_) => true,
        Base::Closure(closure) => match child_of(children, closure.number) {
            Some(header) => takes_externals(closure, header),
            None => false,
        },
    }
}

/// Returns whether each closure in these types is a child and has as many regions as the child has external ones.
pub fn are_known(children: &[Child], types: &[Ty]) -> bool
    ensures { result ≡ list_all (known children.now) types.now }
{
    types.iter().all(|ty| is_known(children, ty))
}

fn first_of(regions: &[Region]) -> Region
    ensures { result ≡ first regions.now }
{
    match regions {
        [] => Region::Universal(0),
        [region, ..] => *region,
    }
}

fn behind_first(regions: &[Region]) -> &[Region]
    ensures { result.now ≡ behind regions.now }
{
    match regions {
        [] => regions,
        [_, rest @ ..] => rest,
    }
}

/// Appends an argument for each of `names`, which are declared after `before` others.
fn push_arguments(
    arguments: &mut Vec<Region>,
    captures: &[Ty],
    before: usize,
    names: &[RegionName],
    given: &[Region],
    local: &[Region],
) -> Result<(), AllocError>
    requires { before + length names.now < 2 ^ 64 }
    ensures { OnOk result (arguments.new.items ≡ arguments.old.items ++ arguments_from captures.now before names.now given.now local.now) }
{
    match names {
        [] => Ok(()),
        [_, more @ ..] => {
            if is_external(captures, before + 1) {
                arguments.push(first_of(given))?;
                let rest = behind_first(given);
                push_arguments(arguments, captures, before + 1, more, rest, local)
            } else {
                arguments.push(first_of(local))?;
                let rest = behind_first(local);
                push_arguments(arguments, captures, before + 1, more, given, rest)
            }
        }
    }
}

/// Returns an argument for each region that a child's header declares, in the order of the header. An external region gets the next of
/// `given`, and a local one the next of `local`. If none is left, it gets `'static`.
pub fn arguments(
    alloc: Global,
    header: &Header,
    given: &[Region],
    local: &[Region],
) -> Result<Vec<Region>, AllocError>
    ensures { IfOk result (λ arguments. arguments.items ≡ arguments_of header.now given.now local.now) }
{
    let names = header.signature.regions.as_slice();
    let mut arguments = Vec::with_capacity(alloc, names.len())?;
    push_arguments(
        &mut arguments,
        header.captures.as_slice(),
        0,
        names,
        given,
        local,
    )?;
    Ok(arguments)
}

fn is_outer(captures: &[Ty], number: u8) -> bool
    ensures { result ≡ outer captures.now number }
{
    number == 0 || is_external(captures, usize::from(number))
}

/// Returns whether a clause of a child relates only external regions and `'static`. The closure's creation demands such a clause.
pub fn is_outer_clause(captures: &[Ty], clause: Outlives) -> bool
    ensures { result ≡ outer_clause captures.now clause }
{
    is_outer(captures, clause.longer) && is_outer(captures, clause.shorter)
}
