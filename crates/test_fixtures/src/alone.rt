//! The first steps of the analysis of a body that names no closure.
use anyhow::bail;
use bc_mir::{CheckTypes, GoodTypes, Typed, type_unit};
use bc_syntax::Unit;
use bc_text::read_types;
use std::alloc::{AllocError, Global};
use std::sync::Arc;

/// Returns the declarations that a text spells, checked. Fails if it spells none or one is bad, or if memory runs out.
pub fn good_types(alloc: Global, text: &[u8]) -> anyhow::Result<Arc<GoodTypes, Global>> {
    let good = read_types(alloc, text)?.check(alloc)?;
    match Arc::new(alloc, good) {
        Ok(types) => Ok(types),
        Err(_) => Err(AllocError)?,
    }
}

/// Returns a unit that names no closure, typed. Fails if it names one or breaks a typing rule, or if memory runs out.
pub fn typed_alone(
    alloc: Global,
    types: &Arc<GoodTypes, Global>,
    unit: &Unit,
) -> anyhow::Result<Typed> {
    let children = unit.body().children(alloc)?;
    match children.as_slice() {
        [] => Ok(type_unit(alloc, types, unit, &[])?),
        [_, ..] => bail!("the body names a closure"),
    }
}
