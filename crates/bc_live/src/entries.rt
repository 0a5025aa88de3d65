//! The uses and definitions of all points, as entries of a table of points and locals.
ghost use Rattle.std.specs.Prelude.{◌≡◌, ◌++◌, IfOk, OnOk};
ghost use Rattle.bc_live.specs.Entries.{entries_at, listed, use_entries as uses_of_points, definition_entries as definitions_of_points};

use bc_flow::Entry;
use bc_mir::Typed;
use bc_points::{defines, push_uses};
use std::alloc::{AllocError, Global};

/// Appends an entry for each local.
fn push_entries(entries: &mut Vec<Entry>, point: usize, locals: &[u8]) -> Result<(), AllocError>
    ensures { OnOk result (entries.new.items ≡ entries.old.items ++ entries_at point locals.now) }
{
    for local in locals {
        entries.push(Entry {
            node: point,
            fact: usize::from(*local),
        })?;
    }
    Ok(())
}

/// Appends an entry for the local, if there is one.
fn push_listed(entries: &mut Vec<Entry>, point: usize, local: Option<u8>) -> Result<(), AllocError>
    ensures { OnOk result (entries.new.items ≡ entries.old.items ++ entries_at point (listed local)) }
{
    match local {
        Some(local) => {
            entries.push(Entry {
                node: point,
                fact: usize::from(local),
            })?;
            Ok(())
        }
        None => Ok(()),
    }
}

/// Returns what each point uses, as entries of points and locals.
pub fn use_entries(alloc: Global, typed: &Typed) -> Result<Vec<Entry>, AllocError>
    ensures { IfOk result (λ entries. entries.items ≡ uses_of_points typed.now) }
{
    let mut entries = Vec::with_capacity(alloc, typed.steps().len())?;
    let mut locals = Vec::new(alloc);
    for (point, step) in typed.steps().iter().enumerate() {
        locals.clear();
        push_uses(alloc, &mut locals, typed, &step.instruction)?;
        push_entries(&mut entries, point, &locals)?;
    }
    Ok(entries)
}

/// Returns what each point defines, as entries of points and locals.
pub fn definition_entries(alloc: Global, typed: &Typed) -> Result<Vec<Entry>, AllocError>
    ensures { IfOk result (λ entries. entries.items ≡ definitions_of_points typed.now) }
{
    let mut entries = Vec::with_capacity(alloc, typed.steps().len())?;
    for (point, step) in typed.steps().iter().enumerate() {
        push_listed(&mut entries, point, defines(&step.instruction))?;
    }
    Ok(entries)
}
