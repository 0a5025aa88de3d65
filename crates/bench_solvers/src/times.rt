//! The least time of each step.
use std::io;
use std::time::Instant;

/// A step that is measured.
#[derive(Clone, Copy)]
pub enum Step {
    SolvingByGroups,
    Solving,
    ExplainingInARow,
    Explaining,
    ExplainingAlone,
}

/// The names of the steps, in order.
const NAMES: [&str; 5] = [
    "solving by groups",
    "solving",
    "4,000 explanations, eight in a row of an element",
    "4,000 explanations",
    "4,000 explanations without an explainer",
];

/// The least time of each step in nanoseconds, if it was taken, and the beginning of the step that is taken now, if the clock knows it.
#[derive(Clone, Copy)]
pub struct Times {
    least: [Option<u128>; 5],
    began: Option<Instant>,
}

impl Times {
    /// Returns times without any step.
    pub fn new() -> Times {
        Times {
            least: [None; 5],
            began: None,
        }
    }

    /// Marks that a step begins.
    pub fn begin(&mut self, rt: &HostRuntime) {
        self.began = Instant::now(rt).ok();
    }

    /// Marks that a step ends, and that the next one begins.
    pub fn end(&mut self, rt: &HostRuntime, step: Step) {
        let took = self.began.and_then(|began| began.elapsed(rt).ok());
        if let (Some(took), Some(least)) = (took, self.least.get_mut(step as usize)) {
            let nanos = took.as_nanos();
            *least = Some(least.map_or(nanos, |least| least.min(nanos)));
        }
        self.begin(rt);
    }

    /// Writes a name to standard error, and below it the least time of each step that was taken.
    pub fn show(&self, rt: &HostRuntime, name: &str) -> io::Result<()> {
        eprintln!(rt; "{name}")?;
        for (step, least) in NAMES.iter().zip(self.least) {
            if let Some(nanos) = least {
                eprintln!(rt; "{step}: {nanos} ns")?;
            }
        }
        Ok(())
    }
}
