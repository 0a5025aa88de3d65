//! The names for which a file asks.
ghost use Rattle.std.specs.Prelude.{◌≡◌, IfOk, IfErr, map};
ghost use Rattle.cli_file.specs.Changes.{seen};
ghost use Rattle.cli_check.specs.Asked.{AreAsked, root_put as root};

use bc_names::{Name, names_are_told_apart};
use cli_file::{FileChange, Stop};
use std::alloc::Global;
use std::collections::BTreeSet;

/// Returns the root under which a change puts a body, if it puts one under a root.
fn root_put(change: &FileChange) -> Option<Name>
    ensures { result ≡ root (seen change.now) }
{
    match change {
        FileChange::Types(_) => None,
        FileChange::Put(name, _) => { if name.depth() == 0 { Some(*name) } else { None } }
    }
}

/// Returns the roots under which these changes put bodies, in the order of names, each once. Returns `NoMemory` if there is no room for
/// them.
pub fn find_asked(alloc: Global, changes: &[FileChange]) -> Result<BTreeSet<Name>, Stop>
    ensures asked { IfOk result (λ names. AreAsked (map seen changes.now) names.keys) }
    ensures stop { IfErr result (λ stop. stop ≡ Stop.NoMemory) }
{
    names_are_told_apart();
    let mut names = BTreeSet::new(alloc);
    for change in changes {
        if let Some(name) = root_put(change) {
            names.insert(name)?;
        }
    }
    Ok(names)
}
