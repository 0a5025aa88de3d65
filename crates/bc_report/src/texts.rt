//! The texts of errors and of regions, built backwards.
ghost use Rattle.std.specs.Prelude.{◌≡◌, ◌≤◌, ◌+◌, ◌*◌, ◌++◌, length, drop};
ghost use Rattle.std.specs.List.{flat_map};
ghost use Rattle.bc_bodies.specs.Lines.{point_text};
ghost use Rattle.bc_judge.specs.Lines.{error_text, next_region};

use crate::line::{put, put_number};
use bc_judge::BorrowError;
use bc_mir::Point;
use bc_syntax::Region;

/// Writes a point right before `end`, and returns where it begins. A point has at most 44 bytes.
#[inline(always)]
pub(crate) fn put_point(point: Point, line: &mut [u8], end: usize) -> usize
    requires { (44 ≤ end) × (end ≤ length line.old) }
    ensures room { (result ≤ end) × (end ≤ result + 44) }
    ensures written { drop result line.new ≡ point_text point ++ drop end line.old }
{
    let end = put(b"]", line, end);
    let end = put_number(point.index as u64, line, end);
    let end = put(b"[", line, end);
    let end = put_number(point.block as u64, line, end);
    put(b"bb", line, end)
}

/// Writes an error right before `end`, and returns where it begins. An error has at most 131 bytes.
#[inline(always)]
pub(crate) fn put_error(error: &BorrowError, line: &mut [u8], end: usize) -> usize
    requires { (131 ≤ end) × (end ≤ length line.old) }
    ensures room { (result ≤ end) × (end ≤ result + 131) }
    ensures written { drop result line.new ≡ error_text error.now ++ drop end line.old }
{
    match error {
        BorrowError::Conflict {
            at,
            access,
            loan,
            chain: _,
        } => {
            let end = put_point(*loan, line, end);
            let end = put(b" loan ", line, end);
            let end = put_number(*access as u64, line, end);
            let end = put(b" access ", line, end);
            let end = put_point(*at, line, end);
            put(b"conflict ", line, end)
        }
        BorrowError::Lifetime {
            longer,
            shorter,
            chain: _,
        } => {
            let end = put_number(*shorter as u64, line, end);
            let end = put(b" must outlive ", line, end);
            let end = put_number(*longer as u64, line, end);
            put(b"lifetime ", line, end)
        }
    }
}

/// Writes a space and a region of a chain right before `end`, and returns where the space is. They have at most 8 bytes.
#[inline(always)]
#[tactic(auto, using(crate::proofs::Numbers::decimal_has_5_digits))]
pub(crate) fn put_region(region: Region, line: &mut [u8], end: usize) -> usize
    requires { (23 ≤ end) × (end ≤ length line.old) }
    ensures room { (result ≤ end) × (end ≤ result + 8) }
    ensures written { drop result line.new ≡ next_region region ++ drop end line.old }
{
    match region {
        Region::Universal(number) => {
            let end = put_number(number as u64, line, end);
            put(b" ", line, end)
        }
        Region::Variable(number) => {
            let end = put_number(number as u64, line, end);
            put(b" '?", line, end)
        }
    }
}

/// Writes regions of a chain in order, a space before each, right before `end`, and returns where they begin. Each has at most 8 bytes; 15
/// more are required, since a number needs room for 20 digits.
#[inline(always)]
pub(crate) fn put_regions(regions: &[Region], line: &mut [u8], end: usize) -> usize
    requires { (8 * length regions.now + 15 ≤ end) × (end ≤ length line.old) }
    ensures room { (result ≤ end) × (end ≤ result + 8 * length regions.now) }
    ensures written { drop result line.new ≡ flat_map next_region regions.now ++ drop end line.old }
{
    let mut start = end;
    let mut left = regions.len();
    while left > 0 {
        left -= 1;
        start = put_region(regions[left], line, start);
    }
    start
}
