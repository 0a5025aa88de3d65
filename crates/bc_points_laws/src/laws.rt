//! Laws of the definitions, each the contract of a function that does nothing.
ghost use Rattle.bc_points_laws.specs.Laws.{NumbersHaveRegions, PrefixesChain, RegionsHaveNumbers, SupportersAreFound, TakenReferences};

/// States that a prefix of a prefix of a place is a prefix of that place.
pub fn prefixes_chain()
    ensures { PrefixesChain }
{}

/// States that, for a place that has a type, `supports` accepts exactly the prefixes that are found by taking away projections, up to a
/// dereference of a shared reference.
pub fn supporters_are_found()
    ensures { SupportersAreFound }
{}

/// States that `from_last_shared` lists the references that the supporting prefixes of a place dereference, also through the fields of
/// structs.
pub fn reborrows_list_taken_references()
    ensures { TakenReferences }
{}

/// States that `region_number` and `region_of_number` are inverse, for all numbers and for all regions of a unit.
pub fn region_numbers_are_taken_back()
    ensures numbers { NumbersHaveRegions }
    ensures regions { RegionsHaveNumbers }
{}
