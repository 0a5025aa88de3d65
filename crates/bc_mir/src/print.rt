//! How places of misfits are printed.
ghost use Rattle.std.specs.Prelude.{Some};
ghost use Rattle.bc_mir.specs.Lines.{place_text};

use crate::typed::Where;
use std::fmt;

impl fmt::Display for Where {
    ghost output = { λ place. Some (place_text place) };

    fn fmt<W: fmt::Write>(&self, f: &mut fmt::Formatter<W>) -> fmt::Result {
        match self {
            Where::Header => write!(f, "header"),
            Where::At(point) => write!(f, "{point}"),
        }
    }
}
