//! Reading the bytes of a text.
ghost use Rattle.std.specs.Prelude.{◌≡◌, ◌≤◌, true, length, take, drop, slice_index, take_while};
ghost use Rattle.std.specs.List.{list_all};
ghost use Rattle.std.specs.Str.{bytes_eq};
ghost use Rattle.bc_syntax.specs.Bytes.{is_run_byte, run};
ghost use Rattle.bc_syntax.specs.Words.{is_region_byte};

/// Returns the byte at an index, or 0 past the end.
pub fn byte_at(bytes: &[u8], index: usize) -> u8
    ensures { result ≡ slice_index bytes.now index }
{
    bytes.get(index).copied().unwrap_or(0)
}

/// Returns the bytes from an index on, or none if it is past the end.
pub fn from(bytes: &[u8], index: usize) -> &[u8]
    ensures { result.now ≡ drop index bytes.now }
{
    bytes.get(index..).unwrap_or(&[])
}

/// Returns the bytes after the first `count`. There must be at least that many.
pub fn behind(bytes: &[u8], count: usize) -> &[u8]
    requires { count ≤ length bytes.now }
    ensures { result.now ≡ drop count bytes.now }
{
    &bytes[count..]
}

/// Returns whether the byte is a letter, a digit or `_`.
pub fn is_run_byte(byte: u8) -> bool
    ensures { result ≡ is_run_byte byte }
{
    matches!(byte, b'0'..=b'9' | b'A'..=b'Z' | b'_' | b'a'..=b'z')
}

/// Returns how many lower-case letters, digits and `_` the bytes begin with.
pub fn region_len(bytes: &[u8]) -> usize
    ensures count { result ≡ length (take_while is_region_byte bytes.now) }
    ensures within { result ≤ length bytes.now }
{
    bytes
        .iter()
        .take_while(|byte| byte.is_ascii_lowercase() || byte.is_ascii_digit() || **byte == b'_')
        .count()
}

/// Returns the length of the run that the bytes begin with: letters, digits and `_`.
pub fn run_len(bytes: &[u8]) -> usize
    ensures count { result ≡ length (run bytes.now) }
    ensures within { result ≤ length bytes.now }
{
    bytes.iter().take_while(|byte| is_run_byte(**byte)).count()
}

/// Returns the run that the bytes begin with: letters, digits and `_`.
pub fn run(bytes: &[u8]) -> &[u8]
    ensures run { result.now ≡ run bytes.now }
    ensures within { length result.now ≤ length bytes.now }
{
    &bytes[..run_len(bytes)]
}

/// Returns whether a text begins with a word. It compares byte by byte, since words are short and constant at each call.
#[inline(always)]
fn begins_with(bytes: &[u8], word: &[u8]) -> bool
    ensures { result ≡ bytes_eq word.now (take (length word.now) bytes.now) }
{
    if bytes.len() < word.len() {
        return false;
    }
    for index in 0..word.len() {
        if bytes[index] != word[index] {
            return false;
        }
    }
    true
}

/// Returns whether the run that the bytes begin with is this word, which has only letters, digits and `_`.
#[inline(always)]
pub(crate) fn runs_as(bytes: &[u8], word: &[u8]) -> bool
    requires { list_all is_run_byte word.now ≡ true }
    ensures { result ≡ bytes_eq word.now (run bytes.now) }
{
    begins_with(bytes, word) && !is_run_byte(byte_at(bytes, word.len()))
}
