//! The typing rules at the header and at each point.
ghost use Rattle.std.specs.Prelude.{◌≡◌};
ghost use Rattle.bc_mir.specs.Typing.{fits_at as step_fits, header_fits};

use crate::rules::{header_keeps_rules, statement_keeps_rules, terminator_keeps_rules};
use bc_bodies::{Draft, Instruction};

/// Returns whether no header rule fails: each struct in the type of a local is declared with its number of regions, and each closure is a
/// child with its number of regions.
pub(crate) fn fits_header(draft: &Draft) -> bool
    ensures { result ≡ header_fits draft.now }
{
    header_keeps_rules(draft)
}

/// Returns whether an instruction keeps the typing rules.
pub(crate) fn fits_at(draft: &Draft, instruction: &Instruction) -> bool
    ensures { result ≡ step_fits draft.now instruction.now }
{
    match instruction {
        Instruction::Statement(statement) => statement_keeps_rules(draft, statement),
        Instruction::Terminator(terminator) => terminator_keeps_rules(draft, terminator),
    }
}
