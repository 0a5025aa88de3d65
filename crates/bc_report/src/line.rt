//! A line is built backwards, from its last byte to its first: the digits of a number are found in that order, so each goes straight into
//! its place.
ghost use Rattle.std.specs.Prelude.{◌≡◌, ◌≤◌, ◌+◌, ◌++◌, length, drop, decimal};

use itoa::write_digits;

/// Writes a text right before `end`, and returns where it begins.
#[inline(always)]
pub(crate) fn put(text: &[u8], line: &mut [u8], end: usize) -> usize
    requires { (length text.now ≤ end) × (end ≤ length line.old) }
    ensures start { result + length text.now ≡ end }
    ensures written { drop result line.new ≡ text.now ++ drop end line.old }
{
    let start = end - text.len();
    line[start..end].copy_from_slice(text);
    start
}

/// Writes a number right before `end`, and returns where it begins. A number has at most 20 digits.
#[inline(always)]
#[tactic(auto, using(crate::proofs::Numbers::decimal_has_20_digits))]
pub(crate) fn put_number(number: u64, line: &mut [u8], end: usize) -> usize
    requires { (20 ≤ end) × (end ≤ length line.old) }
    ensures start { result + length (decimal number) ≡ end }
    ensures room { end ≤ result + 20 }
    ensures written { drop result line.new ≡ decimal number ++ drop end line.old }
{
    write_digits(number, line, end)
}
