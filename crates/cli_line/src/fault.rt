//! Why words are not a command line.
ghost use Rattle.std.specs.Prelude.{◌≡◌};
ghost use Rattle.cli_line.specs.Faults.{fault_of_kind};
ghost use Rattle.clap.specs.Words.{kind_of};

use crate::Topic;
use clap::error::ErrorKind;
use std::alloc::{AllocError, AllocFailed};
use thiserror::Error;

/// Why words are not a command line: they ask for help on a topic or for the version, they are wrong use, or reading them ran out of
/// memory.
#[derive(Clone, Copy, Debug, PartialEq, Eq, Error)]
pub enum LineFault {
    #[error("help")]
    Help(Topic),
    #[error("version")]
    Version,
    #[error("wrong use")]
    WrongUse,
    #[error("no memory")]
    NoMemory,
}

impl From<AllocError> for LineFault {
    ghost use Rattle.cli_line.specs.declared.fault.LineFault.TheVariants.{NoMemory};

    ghost from_gives = { λ _ fault. fault ≡ NoMemory };

    fn from(_error: AllocError) -> Self {
        LineFault::NoMemory
    }
}

impl<T: Drop> From<AllocFailed<T>> for LineFault {
    ghost use Rattle.cli_line.specs.declared.fault.LineFault.TheVariants.{NoMemory};

    ghost from_gives = { λ _ fault. fault ≡ NoMemory };

    fn from(_error: AllocFailed<T>) -> Self {
        LineFault::NoMemory
    }
}

impl LineFault {
    /// Returns the fault for an error of the parser. It is `Help` on this topic or `Version` if the words ask for that, `NoMemory` if the
    /// parser is out of memory, and otherwise `WrongUse`.
    pub(crate) fn of_refusal(topic: Topic, error: &clap::Error) -> Self
        ensures { result ≡ fault_of_kind topic (kind_of error.now) }
    {
        match error.kind() {
            ErrorKind::DisplayHelp => LineFault::Help(topic),
            ErrorKind::DisplayVersion => LineFault::Version,
            ErrorKind::OutOfMemory => LineFault::NoMemory,
            ErrorKind::InvalidValue
            | ErrorKind::UnknownArgument
            | ErrorKind::InvalidSubcommand
            | ErrorKind::NoEquals
            | ErrorKind::ValueValidation
            | ErrorKind::TooManyValues
            | ErrorKind::TooFewValues
            | ErrorKind::WrongNumberOfValues
            | ErrorKind::ArgumentConflict
            | ErrorKind::MissingRequiredArgument
            | ErrorKind::MissingSubcommand
            | ErrorKind::DisplayHelpOnMissingArgumentOrSubcommand
            | ErrorKind::Io
            | ErrorKind::Format => LineFault::WrongUse,
        }
    }
}
