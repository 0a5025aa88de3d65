//! What a call changes in what is stored.
use bc_names::Name;
use bc_prov::{Declared, Listing, Outcome, Shared};
use bc_syntax::Unit;

/// What a call changes in what is stored: new declarations, a unit at a name, no unit there, an answer for it, answers for many names, or
/// nothing.
#[derive(Drop)]
pub enum Change {
    Types(Shared<Declared>),
    Put(Name, Shared<Unit>),
    Remove(Name),
    Answer(Name, Shared<Outcome>),
    Answers(Shared<Listing>),
    Nothing,
}
