//! Breaches: which rule a bad declaration or an ill unit breaks, and where.
#![tactic(auto)]

mod declaration;
mod lookup;
mod operands;
mod rule;
mod unit;
mod values;

pub use declaration::{BadDeclaration, DeclarationBreach, bad_declaration};
pub use rule::{PointBreach, TypedPart, TypingRule};
pub use unit::{IllBreach, ill_breach};
