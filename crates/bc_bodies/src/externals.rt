//! Which declared regions of a header are external, and which are local.
ghost use Rattle.std.specs.Prelude.{◌≡◌, ◌≤◌, ◌<◌, ◌+◌, ◌^◌, ◌++◌, length, OnOk};
ghost use Rattle.std.specs.List.{list_any};
ghost use Rattle.bc_types.specs.Mentions.{regions_of_references, regions_of_base};
ghost use Rattle.bc_bodies.specs.Externals.{is_universal as universal_test, stands_in as standing, is_external as external_test, is_local, numbers_from};

use crate::mentions::base_regions;
use bc_syntax::{Base, Reference, Region, RegionName, Ty};
use std::alloc::AllocError;

fn is_universal(number: usize, region: Region) -> bool
    ensures { result ≡ universal_test number region }
{
    match region {
        Region::Universal(other) => usize::from(other) == number,
        Region::Variable(_) => false,
    }
}

fn is_among(number: usize, regions: &[Region]) -> bool
    ensures { result ≡ list_any (universal_test number) regions.now }
{
    regions.iter().any(|region| is_universal(number, *region))
}

fn stands_behind(number: usize, references: &[Reference], base: &Base) -> bool
    ensures { result ≡ list_any (universal_test number) (regions_of_references references.now ++ regions_of_base base.now) }
{
    match references {
        [] => is_among(number, base_regions(base)),
        [reference, more @ ..] => {
            is_universal(number, reference.region) || stands_behind(number, more, base)
        }
    }
}

fn stands_in(number: usize, ty: &Ty) -> bool
    ensures { result ≡ standing number ty.now }
{
    stands_behind(number, ty.references.as_slice(), &ty.base)
}

/// Returns whether a universal region occurs in the type of a capture.
pub(crate) fn is_external(captures: &[Ty], number: usize) -> bool
    ensures { result ≡ external_test captures.now number }
{
    captures.iter().any(|ty| stands_in(number, ty))
}

/// Returns how many of `names`, which are declared after `before` others, are external.
pub(crate) fn external_count(captures: &[Ty], before: usize, names: &[RegionName]) -> usize
    requires { before + length names.now < 2 ^ 64 }
    ensures value { result ≡ length (numbers_from (external_test captures.now) before names.now) }
    ensures few { result ≤ length names.now }
{
    match names {
        [] => 0,
        [_, more @ ..] => {
            let rest = external_count(captures, before + 1, more);
            if is_external(captures, before + 1) {
                rest + 1
            } else {
                rest
            }
        }
    }
}

/// Returns how many of `names`, which are declared after `before` others, are local.
pub(crate) fn local_count(captures: &[Ty], before: usize, names: &[RegionName]) -> usize
    requires { before + length names.now < 2 ^ 64 }
    ensures value { result ≡ length (numbers_from (is_local captures.now) before names.now) }
    ensures few { result ≤ length names.now }
{
    match names {
        [] => 0,
        [_, more @ ..] => {
            let rest = local_count(captures, before + 1, more);
            if is_external(captures, before + 1) {
                rest
            } else {
                rest + 1
            }
        }
    }
}

/// Appends the numbers of the external ones of `names`, which are declared after `before` others.
pub(crate) fn push_externals(
    numbers: &mut Vec<usize>,
    captures: &[Ty],
    before: usize,
    names: &[RegionName],
) -> Result<(), AllocError>
    requires { before + length names.now < 2 ^ 64 }
    ensures { OnOk result (numbers.new.items ≡ numbers.old.items ++ numbers_from (external_test captures.now) before names.now) }
{
    match names {
        [] => Ok(()),
        [_, more @ ..] => {
            if is_external(captures, before + 1) {
                numbers.push(before + 1)?;
            }
            push_externals(numbers, captures, before + 1, more)
        }
    }
}
