//! What texts spell.
use anyhow::bail;
use bc_names::Name;
use bc_syntax::{Types, Unit};
use bc_text::{read_types, read_unit};
use std::alloc::{AllocError, Global};
use std::sync::Arc;

/// Returns the name that a text spells. Fails if it spells none.
pub fn name(text: &[u8]) -> anyhow::Result<Name> {
    let Some(name) = Name::read(text) else {
        bail!("no name");
    };
    Ok(name)
}

/// Returns the unit that a text spells, in an `Arc`, as a put takes it. Fails if it spells none, or if memory runs out.
pub fn shared_unit(alloc: Global, text: &[u8]) -> anyhow::Result<Arc<Unit, Global>> {
    match Arc::new(alloc, read_unit(alloc, text)?) {
        Ok(unit) => Ok(unit),
        Err(_) => Err(AllocError)?,
    }
}

/// Returns the declarations that a text spells, in an `Arc`. Fails if it spells none, or if memory runs out.
pub fn shared_types(alloc: Global, text: &[u8]) -> anyhow::Result<Arc<Types, Global>> {
    match Arc::new(alloc, read_types(alloc, text)?) {
        Ok(types) => Ok(types),
        Err(_) => Err(AllocError)?,
    }
}
