//! Laws of the definitions, each the contract of a function that does nothing.
ghost use Rattle.bc_mir.specs.Laws.{EdgesJoinPoints, EntriesBegin};

/// States that every edge of a unit without misfits joins two of its points.
pub fn edges_join_points()
    ensures { EdgesJoinPoints }
{}

/// States that a block is entered at its point of index 0.
pub fn entries_begin_blocks()
    ensures { EntriesBegin }
{}
