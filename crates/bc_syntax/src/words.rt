//! Words that name things: regions, structs and extern functions.
ghost use Rattle.std.specs.Prelude.{◌≡◌};
ghost use Rattle.std.specs.Char.{is_ascii_digit};
ghost use Rattle.std.specs.List.{list_all};
ghost use Rattle.bc_syntax.specs.Bytes.{is_run_byte};
ghost use Rattle.bc_syntax.specs.Words.{is_region_byte, is_number, is_region_name, is_label, is_keyword, is_word};

use crate::bytes::{byte_at, from, is_run_byte};
use crate::symbol::Symbol;

fn are_digits(bytes: &[u8]) -> bool
    ensures { result ≡ list_all is_ascii_digit bytes.now }
{
    bytes.iter().all(|byte| byte.is_ascii_digit())
}

fn are_region_bytes(bytes: &[u8]) -> bool
    ensures { result ≡ list_all is_region_byte bytes.now }
{
    bytes.iter().all(|byte| byte.is_ascii_lowercase() || byte.is_ascii_digit() || *byte == b'_')
}

/// Returns whether each of these bytes is a letter, a digit or `_`.
pub fn are_run_bytes(bytes: &[u8]) -> bool
    ensures { result ≡ list_all is_run_byte bytes.now }
{
    bytes.iter().all(|byte| is_run_byte(*byte))
}

/// Returns whether bytes are `0`, or digits without a leading zero. The caller says whether all are digits.
#[inline(always)]
#[tactic(auto, unfolding(crate::specs::Words::is_number))]
pub fn is_number_of(digits: &[u8], are_digits: bool) -> bool
    requires { are_digits ≡ list_all is_ascii_digit digits.now }
    ensures { result ≡ is_number digits.now }
{
    are_digits && !digits.is_empty() && (digits.len() == 1 || byte_at(digits, 0) != b'0')
}

/// Returns whether bytes are `0`, or digits without a leading zero.
pub fn is_number(digits: &[u8]) -> bool
    ensures { result ≡ is_number digits.now }
{
    is_number_of(digits, are_digits(digits))
}

/// Returns whether bytes are the name of a region without its `'`. The caller says whether all are lower-case letters, digits and `_`.
#[tactic(auto, unfolding(crate::specs::Words::is_region_name))]
pub fn is_region_name_of(name: &[u8], are_region_bytes: bool) -> bool
    requires { are_region_bytes ≡ list_all is_region_byte name.now }
    ensures { result ≡ is_region_name name.now }
{
    byte_at(name, 0).is_ascii_lowercase() && are_region_bytes
}

/// Returns whether bytes are the name of a region without its `'`: a lower-case letter, then such letters, digits and `_`.
pub fn is_region_name(name: &[u8]) -> bool
    ensures { result ≡ is_region_name name.now }
{
    is_region_name_of(name, are_region_bytes(name))
}

#[tactic(auto, unfolding(crate::specs::Words::is_label))]
fn is_label(run: &[u8]) -> bool
    ensures { result ≡ is_label run.now }
{
    byte_at(run, 0) == b'b' && byte_at(run, 1) == b'b' && is_number(from(run, 2))
}

fn is_keyword(word: &[u8]) -> bool
    ensures { result ≡ is_keyword word.now }
{
    Symbol::of_word(word).is_some()
}

/// Returns whether bytes are a word that may name a struct or an extern function: letters, digits and `_` that begin with a letter, and no
/// label or keyword.
#[tactic(auto, unfolding(crate::specs::Words::is_word))]
pub fn is_word(bytes: &[u8]) -> bool
    ensures { result ≡ is_word bytes.now }
{
    byte_at(bytes, 0).is_ascii_alphabetic()
        && are_run_bytes(bytes)
        && !is_label(bytes)
        && !is_keyword(bytes)
}
