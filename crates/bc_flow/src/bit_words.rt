//! Words as sets: one bit for each number, the least in the lowest bit of the first word.
ghost use Rattle.std.specs.Prelude.{◌≡◌, ℕ, ◌+◌, ◌*◌, ◌^◌, ◌<◌, ◌≤◌, true, false, not, ◌||◌, ◌&&◌, nat_lt, length, MatchOption, slice_index, bit_or, bit_and};
ghost use Rattle.std.specs.Int.{Width, w64, bit_not};
ghost use Rattle.bc_flow.specs.Packed.{is_set, bit, IsNextBit};

/// Returns the first set bit from `from` on. All set bits are below `size`.
pub(crate) fn next_bit(words: &[u64], size: usize, from: usize) -> Option<usize>
    requires { (i : ℕ) → bit words.now i ≡ true → i < size }
    ensures { MatchOption result ((i : ℕ) → from ≤ i → bit words.now i ≡ false) (λ next. IsNextBit words.now from next) }
{
    let mut index = from / 64;
    let mut word = words.get(index)? & (u64::MAX << (from % 64));
    while word == 0 {
        index += 1;
        word = *words.get(index)?;
    }
    Some(64 * index + word.trailing_zeros() as usize)
}

/// Adds the first `count` bits of `from` to `into`. The two may differ in length.
pub(crate) fn union_words_below(into: &mut [u64], from: &[u64], count: usize)
    requires { count ≤ 64 * length into.old }
    ensures { (i : ℕ) → bit into.new i ≡ (bit into.old i || (nat_lt i count && bit from.now i)) }
{
    let whole = (count / 64).min(from.len());
    for k in 0..whole {
        into[k] |= from[k];
    }
    if count % 64 != 0 && whole < from.len() {
        into[whole] |= from[whole] & ((1 << (count % 64)) - 1);
    }
}

/// Sets the first `count` bits.
pub(crate) fn fill_below(words: &mut [u64], count: usize)
    requires { count ≤ 64 * length words.old }
    ensures { (i : ℕ) → bit words.new i ≡ (bit words.old i || nat_lt i count) }
{
    for k in 0..count.div_ceil(64) {
        words[k] |= first_bits(count - 64 * k);
    }
}

/// Returns a word whose first `count` bits are set, or all 64 if `count` is greater.
fn first_bits(count: usize) -> u64
    ensures { (i : ℕ) → i < 64 → is_set result i ≡ nat_lt i count }
{
    if count < 64 {
        (1 << count) - 1
    } else {
        u64::MAX
    }
}
