//! The sinks for lines of answers.
ghost use Rattle.std.specs.Prelude.{List, Option, None, ℕ, OnOk};
ghost use Rattle.cli_talk.specs.Wires.{Takes};

/// The error that a line was not written, since the output failed, now or before.
#[derive(Clone, Copy, Debug, PartialEq, Eq)]
pub struct Closed;

/// A sink for the lines of answers.
pub trait Replies {
    /// The lines that were given, if that is known.
    ghost given: { Self → Option (List (List ℕ)) } = { λ _. None };

    /// Writes a line, which includes its line feed, and flushes it. Returns `Closed` if that fails.
    fn reply(&mut self, line: &str) -> Result<(), Closed>
        ensures { OnOk result (Takes (given self.old) (given self.new) line.now) };
}
