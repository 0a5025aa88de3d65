//! Summaries of outcomes.
use bc_names::Name;
use bc_prov::Outcome;

/// A summary of an outcome of any size: no body, a missing closure, the numbers of bodies and of errors of a report, or something else.
#[derive(Clone, Copy, PartialEq)]
pub enum Sight {
    NoBody,
    Missing(Name),
    Report(usize, usize),
    Other,
}

impl Sight {
    /// Returns the summary of an outcome.
    pub fn of(outcome: &Outcome) -> Sight {
        match outcome {
            Outcome::NoBody => Sight::NoBody,
            Outcome::Missing(name) => Sight::Missing(*name),
            Outcome::BadTypes(_) | Outcome::Ill(_, _) => Sight::Other,
            Outcome::Report(bodies) => {
                let mut errors: usize = 0;
                for body in bodies.as_slice() {
                    errors = errors.saturating_add(body.errors.get().len());
                }
                Sight::Report(bodies.len(), errors)
            }
        }
    }
}
