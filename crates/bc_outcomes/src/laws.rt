//! Laws of outcomes, each the contract of a function that does nothing.
ghost use Rattle.bc_outcomes.specs.Laws.{OutcomesAreLocal, OutcomesAreUnique, OutcomesRestOnUsedNames};

/// Guarantees that a name has at most one outcome: two that the definition allows are equal, with the same errors in the same order.
pub fn outcomes_are_unique()
    ensures { OutcomesAreUnique }
{}

/// Guarantees that the outcome of a name depends only on the declarations, and on the bodies at that name and at names that begin with it
/// and `/`.
pub fn outcomes_are_local()
    ensures { OutcomesAreLocal }
{}

/// Guarantees that the outcome of a name depends only on the declarations, and on the bodies at that name and at the names of closures that
/// a body at that name or below it has.
pub fn outcomes_rest_on_used_names()
    ensures { OutcomesRestOnUsedNames }
{}
