//! What is stored under one name.
ghost use Rattle.std.specs.Prelude.{◌≡◌, IfOk};

use bc_prov::{Outcome, Shared};
use bc_syntax::Unit;
use std::alloc::AllocError;

/// A stored body: the unit of a name, the revision of the put that stored it, and the outcome that was found for the name, if there is one.
pub struct Place {
    pub unit: Shared<Unit>,
    pub revision: u32,
    pub answer: Option<Shared<Outcome>>,
}

impl Drop for Place {
    fn drop(self) {
        let Self {
            unit: _,
            revision: _,
            answer: _,
        } = self;
    }
}

impl Place {
    /// Copies the place, as one more owner of the unit and of the outcome.
    pub fn copy(&self) -> Result<Place, AllocError>
        ensures { IfOk result (λ copy. copy ≡ self.now) }
    {
        Ok(Place {
            unit: self.unit.clone()?,
            revision: self.revision,
            answer: own_answer(&self.answer)?,
        })
    }
}

/// Returns one more owner of the outcome, if there is one.
fn own_answer(answer: &Option<Shared<Outcome>>) -> Result<Option<Shared<Outcome>>, AllocError>
    ensures { IfOk result (λ copy. copy ≡ answer.now) }
{
    match answer {
        Some(outcome) => Ok(Some(outcome.clone()?)),
        None => Ok(None),
    }
}
