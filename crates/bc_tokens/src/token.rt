//! Tokens, cut one at a time from the front of a text.
ghost use Rattle.std.specs.Prelude.{◌≡◌, ◌≢◌, ◌≤◌, ◌<◌, ◌+◌, ◌∷◌, true, false, length, take, take_while, slice_index, IfSome, if◌then◌else◌};
ghost use Rattle.std.specs.Char.{is_ascii_alphabetic, is_ascii_digit};
ghost use Rattle.std.specs.List.{list_all};
ghost use Rattle.bc_syntax.specs.Bytes.{is_run_byte, run};
ghost use Rattle.bc_syntax.specs.Words.{is_region_byte, is_number, is_region_name};
ghost use Rattle.bc_syntax.specs.Token.{Numbered, Stray};
ghost use Rattle.bc_tokens.specs.Token.{Counts, Keeps, shown, value, word, run_token, region_token, sign_token, lexeme};
ghost use Rattle.bc_syntax.specs.Symbol.{keyword_of, sign_of};

use bc_syntax::{
    Numbering, Symbol, behind, byte_at, is_number_of, is_region_name_of, is_run_byte, region_len,
    run, run_len,
};

/// The kind of a token.
#[derive(Clone, Copy, Debug, PartialEq, Eq)]
pub enum Kind {
    Fixed(Symbol),
    Numbered(Numbering),
    Word,
    Region,
    NotAscii,
    Stray,
    End,
}

/// A token: its kind, its digits or its name, and the value of the digits.
#[derive(Clone, Copy, Debug)]
pub struct Token<'a> {
    pub kind: Kind,
    pub text: &'a [u8],
    /// The value of the digits. From 2^32 on, it may be any number from 2^32 on.
    pub number: u64,
}

impl<'a> Token<'a> {
    /// Returns a token of this kind without digits or a name.
    pub fn bare(kind: Kind) -> Token<'a>
        ensures kind { result.kind ≡ kind }
        ensures keeps { Keeps result.kind result.text.now result.number }
    {
        Token {
            kind,
            text: &[],
            number: 0,
        }
    }
}

/// Returns the number of digits at the front, and their value. From 2^32 on, the value is not exact.
#[inline(always)]
fn counted(bytes: &[u8]) -> (usize, u64)
    ensures count { result.0 ≡ length (take_while is_ascii_digit bytes.now) }
    ensures within { result.0 ≤ length bytes.now }
    ensures number { Counts result.1 (value (take result.0 bytes.now)) }
{
    let mut number = 0u64;
    for index in 0..bytes.len() {
        let byte = bytes[index];
        if !byte.is_ascii_digit() {
            return (index, number);
        }
        if number < 1 << 32 {
            number = number * 10 + u64::from(byte - b'0');
        }
    }
    (bytes.len(), number)
}

/// Returns the run at the front, its value, and whether it is a number. It is read once: its digits, then the rest.
fn any_number_run(bytes: &[u8]) -> (&[u8], u64, bool)
    ensures run { result.0.now ≡ run bytes.now }
    ensures number { result.2 ≡ is_number (run bytes.now) }
    ensures counts { result.2 ≡ true → Counts result.1 (value result.0.now) }
    ensures within { length result.0.now ≤ length bytes.now }
{
    let (digits, number) = counted(bytes);
    let others = run_len(behind(bytes, digits));
    let run = &bytes[..digits + others];
    (run, number, is_number_of(run, others == 0))
}

/// Returns the run at the front, its value, and whether it is a number. Three digits are read without a loop.
#[inline(always)]
fn three_digit_run(bytes: &[u8]) -> (&[u8], u64, bool)
    ensures run { result.0.now ≡ run bytes.now }
    ensures number { result.2 ≡ is_number (run bytes.now) }
    ensures counts { result.2 ≡ true → Counts result.1 (value result.0.now) }
    ensures within { length result.0.now ≤ length bytes.now }
{
    let first = byte_at(bytes, 0);
    let second = byte_at(bytes, 1);
    let third = byte_at(bytes, 2);
    if first.is_ascii_digit()
        && first != b'0'
        && second.is_ascii_digit()
        && third.is_ascii_digit()
        && !is_run_byte(byte_at(bytes, 3))
    {
        let tens = u64::from(first - b'0') * 10 + u64::from(second - b'0');
        return (&bytes[..3], tens * 10 + u64::from(third - b'0'), true);
    }
    any_number_run(bytes)
}

/// Returns the run at the front, its value, and whether it is a number. Most numbers have one digit or two, which are read without a loop.
#[inline(always)]
fn number_run(bytes: &[u8]) -> (&[u8], u64, bool)
    ensures run { result.0.now ≡ run bytes.now }
    ensures number { result.2 ≡ is_number (run bytes.now) }
    ensures counts { result.2 ≡ true → Counts result.1 (value result.0.now) }
    ensures within { length result.0.now ≤ length bytes.now }
{
    let first = byte_at(bytes, 0);
    let second = byte_at(bytes, 1);
    if !first.is_ascii_digit() {
        return any_number_run(bytes);
    }
    if !is_run_byte(second) {
        return (&bytes[..1], u64::from(first - b'0'), true);
    }
    if first != b'0' && second.is_ascii_digit() && !is_run_byte(byte_at(bytes, 2)) {
        let number = u64::from(first - b'0') * 10 + u64::from(second - b'0');
        return (&bytes[..2], number, true);
    }
    three_digit_run(bytes)
}

/// Returns the run at the front, and whether it is the name of a region. It is read once.
fn region_run(bytes: &[u8]) -> (&[u8], bool)
    ensures run { result.0.now ≡ run bytes.now }
    ensures name { result.1 ≡ is_region_name (run bytes.now) }
    ensures within { length result.0.now ≤ length bytes.now }
{
    let front = region_len(bytes);
    let others = run_len(behind(bytes, front));
    let run = &bytes[..front + others];
    (run, is_region_name_of(run, others == 0))
}

/// Returns the number at the front, or a stray token, and the length of the run.
#[inline(always)]
fn number_token(numbering: Numbering, bytes: &[u8]) -> (Token<'_>, usize)
    ensures token { shown result.0.kind result.0.text.now ≡ (if is_number (run bytes.now) then Numbered numbering (value (run bytes.now)) else Stray) }
    ensures len { result.1 ≡ length (run bytes.now) }
    ensures within { result.1 ≤ length bytes.now }
    ensures not_end { result.0.kind ≢ Kind.End }
    ensures keeps { Keeps result.0.kind result.0.text.now result.0.number }
{
    let (digits, number, is_number) = number_run(bytes);
    let token = if is_number {
        Token {
            kind: Kind::Numbered(numbering),
            text: digits,
            number,
        }
    } else {
        Token::bare(Kind::Stray)
    };
    (token, digits.len())
}

/// Returns the region at the front, after its `'`, or a stray token, and the length of the run.
#[inline(always)]
#[tactic(auto, unfolding(crate::specs::Token::region_token))]
fn region_token(bytes: &[u8]) -> (Token<'_>, usize)
    ensures token { shown result.0.kind result.0.text.now ≡ region_token (run bytes.now) }
    ensures len { result.1 ≡ length (run bytes.now) }
    ensures within { result.1 ≤ length bytes.now }
    ensures not_end { result.0.kind ≢ Kind.End }
    ensures keeps { Keeps result.0.kind result.0.text.now result.0.number }
{
    let (name, is_name) = region_run(bytes);
    let token = if is_name {
        Token {
            kind: Kind::Region,
            text: name,
            number: 0,
        }
    } else {
        Token::bare(Kind::Stray)
    };
    (token, name.len())
}

/// Returns the keyword or other word that a run is. The run begins with a letter.
#[inline(always)]
fn word_token(run: &[u8]) -> Token<'_>
    ensures token { shown result.kind result.text.now ≡ word run.now (keyword_of run.now) }
    ensures not_end { result.kind ≢ Kind.End }
    ensures keeps { Keeps result.kind result.text.now result.number }
{
    match Symbol::of_word(run) {
        Some(keyword) => Token::bare(Kind::Fixed(keyword)),
        None => Token {
            kind: Kind::Word,
            text: run,
            number: 0,
        },
    }
}

/// Returns the label or word at the front of a text that begins with `bb`, and its length.
#[inline(always)]
fn label_token(bytes: &[u8]) -> (Token<'_>, usize)
    requires first { slice_index bytes.now 0 ≡ 98 }
    requires second { slice_index bytes.now 1 ≡ 98 }
    ensures token { shown result.0.kind result.0.text.now ≡ run_token (run bytes.now) }
    ensures len { result.1 ≡ length (run bytes.now) }
    ensures within { result.1 ≤ length bytes.now }
    ensures not_end { result.0.kind ≢ Kind.End }
    ensures keeps { Keeps result.0.kind result.0.text.now result.0.number }
{
    let (digits, number, is_number) = number_run(behind(bytes, 2));
    let len = 2 + digits.len();
    if is_number {
        let token = Token {
            kind: Kind::Numbered(Numbering::Label),
            text: digits,
            number,
        };
        return (token, len);
    }
    (word_token(&bytes[..len]), len)
}

/// Returns the label, keyword or other word at the front of a text that begins with a letter, and its length.
#[inline(always)]
fn letter_token(bytes: &[u8]) -> (Token<'_>, usize)
    requires { is_ascii_alphabetic (slice_index bytes.now 0) ≡ true }
    ensures token { shown result.0.kind result.0.text.now ≡ run_token (run bytes.now) }
    ensures len { result.1 ≡ length (run bytes.now) }
    ensures within { result.1 ≤ length bytes.now }
    ensures not_end { result.0.kind ≢ Kind.End }
    ensures keeps { Keeps result.0.kind result.0.text.now result.0.number }
{
    if byte_at(bytes, 0) == b'b' && byte_at(bytes, 1) == b'b' {
        return label_token(bytes);
    }
    if let Some(keyword) = Symbol::of_run(bytes) {
        let token = Token::bare(Kind::Fixed(keyword));
        return (token, keyword.text().len());
    }
    let word = run(bytes);
    let token = Token {
        kind: Kind::Word,
        text: word,
        number: 0,
    };
    (token, word.len())
}

/// Returns the region or variable at the front, after its `'`, and its length without the `'`.
#[inline(always)]
fn quoted_token(bytes: &[u8]) -> (Token<'_>, usize)
    ensures token { (shown result.0.kind result.0.text.now, 1 + result.1) ≡ lexeme (39 ∷ bytes.now) }
    ensures within { result.1 ≤ length bytes.now }
    ensures not_end { result.0.kind ≢ Kind.End }
    ensures keeps { Keeps result.0.kind result.0.text.now result.0.number }
{
    if byte_at(bytes, 0) == b'?' {
        let (token, len) = number_token(Numbering::Variable, behind(bytes, 1));
        return (token, 1 + len);
    }
    region_token(bytes)
}

#[inline(always)]
fn sign_token<'a>(byte: u8) -> Token<'a>
    ensures token { shown result.kind result.text.now ≡ sign_token (sign_of byte) }
    ensures not_end { result.kind ≢ Kind.End }
    ensures keeps { Keeps result.kind result.text.now result.number }
{
    match Symbol::of_sign(byte) {
        Some(sign) => Token::bare(Kind::Fixed(sign)),
        None => Token::bare(Kind::Stray),
    }
}

/// Returns the token at the front of a text that begins with a digit, and its length.
#[inline(always)]
pub fn number_lexeme(bytes: &[u8]) -> (Token<'_>, usize)
    requires { is_ascii_digit (slice_index bytes.now 0) ≡ true }
    ensures token { (shown result.0.kind result.0.text.now, result.1) ≡ lexeme bytes.now }
    ensures some { 0 < result.1 }
    ensures within { result.1 ≤ length bytes.now }
    ensures not_end { result.0.kind ≢ Kind.End }
    ensures keeps { Keeps result.0.kind result.0.text.now result.0.number }
{
    number_token(Numbering::Number, bytes)
}

/// Returns the token at the front of a text that begins with `_`, and its length.
#[inline(always)]
pub fn local_lexeme(bytes: &[u8]) -> (Token<'_>, usize)
    requires { slice_index bytes.now 0 ≡ 95 }
    ensures token { (shown result.0.kind result.0.text.now, result.1) ≡ lexeme bytes.now }
    ensures some { 0 < result.1 }
    ensures within { result.1 ≤ length bytes.now }
    ensures not_end { result.0.kind ≢ Kind.End }
    ensures keeps { Keeps result.0.kind result.0.text.now result.0.number }
{
    let (token, len) = number_token(Numbering::Local, behind(bytes, 1));
    (token, 1 + len)
}

/// Returns the keyword at the front of a text that begins with a letter, and its length, or `None` if there is none.
#[inline(always)]
pub fn keyword_lexeme(bytes: &[u8]) -> Option<(Token<'_>, usize)>
    requires { is_ascii_alphabetic (slice_index bytes.now 0) ≡ true }
    ensures token { IfSome result (λ found. (shown found.0.kind found.0.text.now, found.1) ≡ lexeme bytes.now) }
    ensures some { IfSome result (λ found. 0 < found.1) }
    ensures within { IfSome result (λ found. found.1 ≤ length bytes.now) }
    ensures not_end { IfSome result (λ found. found.0.kind ≢ Kind.End) }
    ensures keeps { IfSome result (λ found. Keeps found.0.kind found.0.text.now found.0.number) }
{
    // Labels begin with `b`, and no keyword does.
    if byte_at(bytes, 0) == b'b' {
        return None;
    }
    match Symbol::of_run(bytes) {
        Some(keyword) => Some((Token::bare(Kind::Fixed(keyword)), keyword.text().len())),
        None => None,
    }
}

/// Returns the token at the front of a text that begins with a letter, and its length.
#[inline(always)]
pub fn letter_lexeme(bytes: &[u8]) -> (Token<'_>, usize)
    requires { is_ascii_alphabetic (slice_index bytes.now 0) ≡ true }
    ensures token { (shown result.0.kind result.0.text.now, result.1) ≡ lexeme bytes.now }
    ensures some { 0 < result.1 }
    ensures within { result.1 ≤ length bytes.now }
    ensures not_end { result.0.kind ≢ Kind.End }
    ensures keeps { Keeps result.0.kind result.0.text.now result.0.number }
{
    letter_token(bytes)
}

/// Returns the token at the front of a text that begins with `'`, and its length.
#[inline(always)]
pub fn quoted_lexeme(bytes: &[u8]) -> (Token<'_>, usize)
    requires { slice_index bytes.now 0 ≡ 39 }
    ensures token { (shown result.0.kind result.0.text.now, result.1) ≡ lexeme bytes.now }
    ensures some { 0 < result.1 }
    ensures within { result.1 ≤ length bytes.now }
    ensures not_end { result.0.kind ≢ Kind.End }
    ensures keeps { Keeps result.0.kind result.0.text.now result.0.number }
{
    let (token, len) = quoted_token(behind(bytes, 1));
    (token, 1 + len)
}

/// Returns the token at the front of a text that begins with any other byte, and its length.
#[inline(always)]
pub fn sign_lexeme(bytes: &[u8]) -> (Token<'_>, usize)
    requires some { 0 < length bytes.now }
    requires other { is_run_byte (slice_index bytes.now 0) ≡ false }
    requires unquoted { slice_index bytes.now 0 ≢ 39 }
    ensures token { (shown result.0.kind result.0.text.now, result.1) ≡ lexeme bytes.now }
    ensures some { 0 < result.1 }
    ensures within { result.1 ≤ length bytes.now }
    ensures not_end { result.0.kind ≢ Kind.End }
    ensures keeps { Keeps result.0.kind result.0.text.now result.0.number }
{
    let first = bytes[0];
    if first == b'-' && byte_at(bytes, 1) == b'>' {
        return (Token::bare(Kind::Fixed(Symbol::Arrow)), 2);
    }
    if first >= 128 {
        return (Token::bare(Kind::NotAscii), 1);
    }
    (sign_token(first), 1)
}
