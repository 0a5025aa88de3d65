//! How errors and their chains are printed.
ghost use Rattle.std.specs.Prelude.{Some};
ghost use Rattle.bc_judge.specs.Lines.{error_text, region_text, chain_text};

use crate::error::BorrowError;
use bc_syntax::Region;
use std::fmt;

/// Writes an error as in a report, without the two spaces before it and the line feed after it.
impl fmt::Display for BorrowError {
    ghost output = { λ error. Some (error_text error) };

    fn fmt<W: fmt::Write>(&self, f: &mut fmt::Formatter<W>) -> fmt::Result {
        match self {
            BorrowError::Conflict {
                at,
                access,
                loan,
                chain: _,
            } => { write!(f, "conflict {at} access {access} loan {loan}") }
            BorrowError::Lifetime {
                longer,
                shorter,
                chain: _,
            } => { write!(f, "lifetime {longer} must outlive {shorter}") }
        }
    }
}

/// A region as a chain prints it: a universal one by its number, a variable as `'?N`.
#[derive(Clone, Copy)]
pub struct PrintedRegion {
    pub region: Region,
}

impl fmt::Display for PrintedRegion {
    ghost output = { λ printed. Some (region_text printed.region) };

    fn fmt<W: fmt::Write>(&self, f: &mut fmt::Formatter<W>) -> fmt::Result {
        match self.region {
            Region::Universal(number) => write!(f, "{number}"),
            Region::Variable(number) => write!(f, "'?{number}"),
        }
    }
}

/// A chain as a report prints it, without the four spaces before it and the line feed after it.
#[derive(Clone, Copy)]
pub struct PrintedChain<'a> {
    pub regions: &'a [Region],
}

impl fmt::Display for PrintedChain<'_> {
    ghost output = { λ printed. Some (chain_text printed.regions.now) };

    fn fmt<W: fmt::Write>(&self, f: &mut fmt::Formatter<W>) -> fmt::Result {
        f.write_str("chain")?;
        for region in self.regions {
            let region = PrintedRegion { region: *region };
            write!(f, " {region}")?;
        }
        Ok(())
    }
}
