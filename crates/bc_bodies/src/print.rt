//! How points are printed.
ghost use Rattle.std.specs.Prelude.{Some};
ghost use Rattle.bc_bodies.specs.Lines.{point_text};

use crate::mir::Point;
use std::fmt;

/// Writes `bbB[I]`.
impl fmt::Display for Point {
    ghost output = { λ point. Some (point_text point) };

    fn fmt<W: fmt::Write>(&self, f: &mut fmt::Formatter<W>) -> fmt::Result {
        let Point { block, index } = *self;
        write!(f, "bb{block}[{index}]")
    }
}
