//! The number of entries that the history of a file's calls needs.
ghost use Rattle.std.specs.Prelude.{◌≡◌, ◌≤◌, ◌<◌, ◌+◌, IfOk, IfErr, max};

use crate::stop::Stop;
use bc_share::MOST_ENTRIES;

/// Returns the capacity of a history for the given number of changes and of names to ask for: one entry for each, and at least one. Returns
/// `TooManyCalls` exactly if there are more than `MOST_ENTRIES` of them.
pub fn find_capacity(changes: usize, names: usize) -> Result<u32, Stop>
    ensures fits { IfOk result (λ capacity. (capacity ≡ max 1 (changes + names)) × (changes + names ≤ MOST_ENTRIES)) }
    ensures stop { IfErr result (λ stop. (stop ≡ Stop.TooManyCalls) × (MOST_ENTRIES < changes + names)) }
{
    let most = MOST_ENTRIES as usize;
    if changes > most || names > most - changes {
        return Err(Stop::TooManyCalls);
    }
    Ok((changes + names).max(1) as u32)
}
