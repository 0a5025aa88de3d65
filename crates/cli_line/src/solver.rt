//! The two solvers, and the words for them.
ghost use Rattle.std.specs.Prelude.{◌≡◌};
ghost use Rattle.cli_line.specs.Values.{solver_named};

/// The solver that finds the values of region variables. Reports do not depend on it.
#[derive(Clone, Copy, Debug, PartialEq, Eq)]
pub enum Solver {
    /// Repeats all constraints until no value changes.
    Plain,
    /// Treats variables that must outlive each other as one.
    Components,
}

/// Returns the solver of this name, or `None` if there is none.
pub(crate) fn solver_named(word: &str) -> Option<Solver>
    ensures { result ≡ solver_named word.now }
{
    if word == "plain" {
        Some(Solver::Plain)
    } else if word == "components" {
        Some(Solver::Components)
    } else {
        None
    }
}
