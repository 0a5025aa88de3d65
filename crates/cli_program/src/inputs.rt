//! The inputs of commands.
ghost use Rattle.std.specs.Prelude.{◌≡◌, ℕ, List, Option, Some, None, IfOk, IfSome};
ghost use Rattle.either.specs.Either.{either};
ghost use Rattle.cli_program.specs.Ends.{input_of, is_standard_input};

use either::{Either, Left, Right};
use std::fs::{File, Files};
use std::io;
use std::io::Read;

/// The name of standard input. A file of that name is `./-`. (POSIX.1-2017, Utility Syntax Guidelines, Guideline 13.)
pub const STANDARD_INPUT: &str = "-";

/// Returns whether a name is that of standard input.
fn is_standard_input(name: &str) -> bool
    ensures { result ≡ is_standard_input name.now }
{
    name == STANDARD_INPUT
}

/// The files that a line may name: those of the system, or others in a test.
pub trait Inputs {
    /// An open file.
    type Input: Read + Drop;

    /// The bytes of the file of each name, if they are known.
    ghost bytes_of: { Self → List ℕ → Option (List ℕ) } = { λ _ _. None };

    /// Opens the file of this name, to be read from its start. Returns an error if it cannot be opened.
    fn open(&self, name: &str) -> io::Result<Self::Input>
        ensures { IfOk result (λ input. IfSome (bytes_of self.now name.now) (λ bytes. Self.Input.remaining input ≡ Some bytes)) };
}

/// Returns the input of this name: standard input, or the file of the name. Returns an error if the file cannot be opened.
#[tactic(auto, using(crate::proofs::Opening::known_itself))]
pub(crate) fn open_input<S: Inputs, I: Read + Drop>(
    inputs: &S,
    standard: I,
    name: &str,
) -> io::Result<Either<I, S::Input>>
    ensures { IfOk result (λ input. IfSome (input_of (S.bytes_of inputs.now) (I.remaining standard) name.now)
        (λ bytes. either I.remaining S.Input.remaining input ≡ Some bytes)) }
{
    if is_standard_input(name) {
        return Ok(Left(standard));
    }
    match inputs.open(name) {
        Ok(file) => Ok(Right(file)),
        Err(fault) => Err(fault),
    }
}

/// The files of the system. No contract knows their bytes.
#[derive(Drop)]
pub struct SystemFiles<'a, R> {
    files: &'a R,
}

impl<'a, R> SystemFiles<'a, R> {
    /// Returns the files that this runtime opens.
    pub fn new(files: &'a R) -> Self {
        SystemFiles { files }
    }
}

impl<R: Files> Inputs for SystemFiles<'_, R> {
    type Input = R::File;

    fn open(&self, name: &str) -> io::Result<R::File> {
        File::open(self.files, name)
    }
}
