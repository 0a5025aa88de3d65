//! Laws of the definitions, each the contract of a function that does nothing.
ghost use Rattle.bc_names.specs.Laws.{NamesAreToldApart};

/// States that two names are one name if they compare as equal.
pub fn names_are_told_apart()
    ensures { NamesAreToldApart }
{}
