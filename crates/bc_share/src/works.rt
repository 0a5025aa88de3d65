//! Working on all that was begun.
ghost use Rattle.std.specs.Prelude.{IfOk};
ghost use Rattle.std.specs.List.{AllZip};
ghost use Rattle.bc_share.specs.Works.{IsWorkOn};

use bc_calls::{Begun, Work};
use bc_prov::Providers;
use std::alloc::{AllocError, Global};

/// Works on each snapshot, in order, and returns one work for each, with the outcome of its name. No lock is held meanwhile, and it waits
/// for nobody. Returns `AllocError` also if a provider does.
pub fn work_all(
    alloc: Global,
    begun: Vec<Begun>,
    providers: &Providers,
) -> Result<Vec<Work>, AllocError>
    ensures { IfOk result (λ works. AllZip IsWorkOn begun.items works.items) }
{
    let mut works = Vec::with_capacity(alloc, begun.len())?;
    for one in begun {
        works.push(one.work(alloc, providers)?)?;
    }
    Ok(works)
}
