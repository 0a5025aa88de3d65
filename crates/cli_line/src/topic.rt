//! The topics of help, and the words for them.
ghost use Rattle.std.specs.Prelude.{◌≡◌, map};
ghost use Rattle.cli_line.specs.Topics.{topic_named, topic_of};

/// What help is about: the whole program, or one of its commands.
#[derive(Clone, Copy, Debug, PartialEq, Eq)]
pub enum Topic {
    /// The program, with all its commands.
    Program,
    /// `check` alone.
    Check,
    /// `run` alone.
    Run,
    /// `serve` alone.
    Serve,
    /// `print` alone.
    Print,
}

/// Returns the command of this name, or the program if no command has it.
fn topic_named(word: &str) -> Topic
    ensures { result ≡ topic_named word.now }
{
    if word == "check" {
        Topic::Check
    } else if word == "run" {
        Topic::Run
    } else if word == "serve" {
        Topic::Serve
    } else if word == "print" {
        Topic::Print
    } else {
        Topic::Program
    }
}

/// Returns the topic of these words if they ask for help: the command that the first word names, otherwise the program.
pub(crate) fn topic_of(words: &[&str]) -> Topic
    ensures { result ≡ topic_of (map (λ word. word.now) words.now) }
{
    match words.first() {
        Some(word) => topic_named(word),
        None => Topic::Program,
    }
}
