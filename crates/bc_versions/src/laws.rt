//! A law of the rule of the published table: the contract of a function that does nothing.
ghost use Rattle.bc_versions.specs.Laws.{WritersHaveSeenAll};

/// Guarantees that whoever has seen the last entry of the published table has seen all that was published. So has the writer, since its
/// type guarantees that its last entry is the table's.
pub fn writers_have_seen_all()
    ensures { WritersHaveSeenAll }
{}
