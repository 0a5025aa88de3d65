//! A cursor over the tokens of a text, which cuts them one at a time.
ghost use Rattle.std.specs.Prelude.{◌≡◌, ◌≢◌, ◌≤◌, ◌<◌, ◌+◌, ◌^◌, ℕ, length, slice_index, Some, None, Err, nat_le, true, false, IsSome, if◌then◌else◌, IfOk, MatchOption, take_while};
ghost use Rattle.std.specs.Char.{is_ascii_alphabetic, is_ascii_digit};
ghost use Rattle.bc_syntax.specs.Token.{End, Fixed, Numbered};
ghost use Rattle.bc_tokens.specs.Token.{Keeps, tokens, shown, lexeme, value, is_blank};
ghost use Rattle.bc_syntax.specs.declared.numbering.Numbering.{Numbering};
ghost use Rattle.bc_tokens.specs.Parser as spec;
ghost use Rattle.bc_tokens.specs.Parser.{Reads, ReadsAs, first, after};
ghost use Rattle.bc_tokens.specs.declared.refusal.Refusal.TheVariants.{NoMemory};

use crate::refusal::Refusal;
use crate::token::{
    Kind, Token, keyword_lexeme, letter_lexeme, local_lexeme, number_lexeme, quoted_lexeme,
    sign_lexeme,
};
use bc_syntax::{Numbering, Symbol, behind, byte_at, same};
use std::marker::Model;

/// A position in a text before one of its tokens. It reads the tokens from there on.
#[derive(Drop)]
pub struct Cursor<'a> {
    token: Token<'a>,
    at: usize,
    /// The text after the token, which begins at the byte `end`.
    rest: &'a [u8],
    end: usize,
}

impl<'a> Model for Cursor<'a> {
    ghost use Rattle.bc_tokens.specs.Token.{Tokens};

    ghost Value = { Tokens };

    ghost use Rattle.bc_tokens.specs.Cursor.{tokens_ahead, IsCursor};

    ghost view = { tokens_ahead };

    ghost invariant = { IsCursor };
}

#[inline(always)]
fn is_blank(byte: u8) -> bool
    ensures { result ≡ is_blank byte }
{
    byte == b' ' || byte == b'\n'
}

fn all_blanks(text: &[u8]) -> usize
    ensures count { result ≡ length (take_while is_blank text.now) }
    ensures within { result ≤ length text.now }
{
    text.iter().take_while(|byte| is_blank(**byte)).count()
}

/// Returns the number of blanks at the front of a text, which is mostly one or none.
#[inline(always)]
fn blanks(text: &[u8]) -> usize
    ensures count { result ≡ length (take_while is_blank text.now) }
    ensures within { result ≤ length text.now }
{
    if !is_blank(byte_at(text, 0)) {
        return 0;
    }
    if !is_blank(byte_at(text, 1)) {
        return 1;
    }
    all_blanks(text)
}

#[tactic(auto, unfolding(crate::specs::Parser::same_numbering))]
fn same_numbering(a: Numbering, b: Numbering) -> bool
    ensures { result ≡ spec.same_numbering a b }
{
    a == b
}

impl<'a> Cursor<'a> {
    /// Makes a cursor at the first token of a text, which begins at the byte `at` of a larger text.
    pub fn new(text: &'a [u8], at: usize) -> Cursor<'a>
        requires { at + length text.now < 2 ^ 64 }
        ensures { result ≡ tokens 0 at text.now }
    {
        let mut cursor = Cursor {
            token: Token::bare(Kind::Stray),
            at,
            rest: text,
            end: at,
        };
        cursor.take();
        cursor
    }

    /// Returns the byte at which the next token begins.
    pub fn position(&self) -> usize
        ensures { result ≡ spec.position self.now }
    {
        self.at
    }

    /// Returns the fault of the next token if the grammar does not allow it: `NotAscii` or `Token` if it is no token, otherwise `Grammar`.
    #[cold]
    #[inline(never)]
    #[tactic(auto, unfolding(crate::specs::Parser::fault))]
    pub fn fault(&self) -> Refusal
        ensures value { result ≡ spec.fault self.now }
        ensures memory { result ≢ NoMemory }
    {
        let at = self.at;
        match self.token.kind {
            Kind::NotAscii => Refusal::NotAscii { at },
            Kind::Stray => Refusal::Token { at },
            Kind::Fixed(_) | Kind::Numbered(_) | Kind::Word | Kind::Region | Kind::End => {
                Refusal::Grammar { at }
            }
        }
    }

    /// Moves the cursor past the next token.
    #[inline(never)]
    pub fn take(&mut self)
        requires { (first self.old).token ≢ End }
        ensures { self.new ≡ after self.old }
    {
        let blanks = blanks(self.rest);
        let text = behind(self.rest, blanks);
        self.at = self.end + blanks;
        if text.is_empty() {
            self.token = Token::bare(Kind::End);
            self.rest = text;
            self.end = self.at;
            return;
        }
        self.cut(text);
    }

    /// Cuts the token at the front of a text, which begins at the cursor's place. The first byte decides its form. Forms that are read byte
    /// by byte have functions of their own: they need more registers than there are, and signs should not pay for that.
    #[inline(always)]
    fn cut(&mut self, text: &'a [u8])
        requires some { 0 < length text.now }
        requires ink { is_blank (slice_index text.now 0) ≡ false }
        requires fits { spec.position self.old + length text.now < 2 ^ 64 }
        ensures { self.new ≡ tokens 0 (spec.position self.old) text.now }
    {
        let first = text[0];
        if let Some(sign) = Symbol::of_low_sign(first) {
            self.put_sign(sign, text);
        } else if first.is_ascii_alphabetic() {
            self.cut_letters(text);
        } else if first == b'_' {
            self.cut_local(text);
        } else if first.is_ascii_digit() {
            self.cut_number(text);
        } else if first == b'\'' {
            self.cut_quoted(text);
        } else {
            let (token, len) = sign_lexeme(text);
            self.put(token, len, text);
        }
    }

    /// Cuts a keyword, a label or another word. What is no keyword is cut in a function of its own.
    #[inline(never)]
    fn cut_letters(&mut self, text: &'a [u8])
        requires form { is_ascii_alphabetic (slice_index text.now 0) ≡ true }
        requires fits { spec.position self.old + length text.now < 2 ^ 64 }
        ensures { self.new ≡ tokens 0 (spec.position self.old) text.now }
    {
        match keyword_lexeme(text) {
            Some((token, len)) => self.put(token, len, text),
            None => self.cut_word(text),
        }
    }

    #[inline(never)]
    fn cut_word(&mut self, text: &'a [u8])
        requires form { is_ascii_alphabetic (slice_index text.now 0) ≡ true }
        requires fits { spec.position self.old + length text.now < 2 ^ 64 }
        ensures { self.new ≡ tokens 0 (spec.position self.old) text.now }
    {
        let (token, len) = letter_lexeme(text);
        self.put(token, len, text);
    }

    #[inline(never)]
    fn cut_number(&mut self, text: &'a [u8])
        requires form { is_ascii_digit (slice_index text.now 0) ≡ true }
        requires fits { spec.position self.old + length text.now < 2 ^ 64 }
        ensures { self.new ≡ tokens 0 (spec.position self.old) text.now }
    {
        let (token, len) = number_lexeme(text);
        self.put(token, len, text);
    }

    #[inline(never)]
    fn cut_local(&mut self, text: &'a [u8])
        requires form { slice_index text.now 0 ≡ 95 }
        requires fits { spec.position self.old + length text.now < 2 ^ 64 }
        ensures { self.new ≡ tokens 0 (spec.position self.old) text.now }
    {
        let (token, len) = local_lexeme(text);
        self.put(token, len, text);
    }

    #[inline(never)]
    fn cut_quoted(&mut self, text: &'a [u8])
        requires form { slice_index text.now 0 ≡ 39 }
        requires fits { spec.position self.old + length text.now < 2 ^ 64 }
        ensures { self.new ≡ tokens 0 (spec.position self.old) text.now }
    {
        let (token, len) = quoted_lexeme(text);
        self.put(token, len, text);
    }

    /// Stores the token at the front of a text, of `len` bytes, as the next one.
    #[inline(always)]
    fn put(&mut self, token: Token<'a>, len: usize, text: &'a [u8])
        requires token { (shown token.kind token.text.now, len) ≡ lexeme text.now }
        requires some { 0 < len }
        requires within { len ≤ length text.now }
        requires not_end { token.kind ≢ Kind.End }
        requires keeps { Keeps token.kind token.text.now token.number }
        requires ink { is_blank (slice_index text.now 0) ≡ false }
        requires fits { spec.position self.old + length text.now < 2 ^ 64 }
        ensures { self.new ≡ tokens 0 (spec.position self.old) text.now }
    {
        self.token = token;
        self.end = self.at + len;
        self.rest = behind(text, len);
    }

    /// Stores the sign at the front of a text as the next token. The text and number of the token before stay, since a sign has none.
    #[inline(always)]
    fn put_sign(&mut self, sign: Symbol, text: &'a [u8])
        requires token { (Fixed sign, 1) ≡ lexeme text.now }
        requires some { 0 < length text.now }
        requires ink { is_blank (slice_index text.now 0) ≡ false }
        requires fits { spec.position self.old + length text.now < 2 ^ 64 }
        ensures { self.new ≡ tokens 0 (spec.position self.old) text.now }
    {
        self.token.kind = Kind::Fixed(sign);
        self.end = self.at + 1;
        self.rest = behind(text, 1);
    }

    /// Returns whether this symbol comes next.
    #[inline(always)]
    #[tactic(auto, unfolding(crate::specs::Parser::sees))]
    pub fn sees(&self, symbol: Symbol) -> bool
        ensures value { result ≡ spec.sees symbol self.now }
        ensures not_end { result ≡ true → (first self.now).token ≢ End }
    {
        match self.token.kind {
            Kind::Fixed(found) => same(found, symbol),
            Kind::NotAscii
            | Kind::Stray
            | Kind::Numbered(_)
            | Kind::Word
            | Kind::Region
            | Kind::End => false,
        }
    }

    /// Moves past this symbol if it comes next, and returns whether it did.
    #[inline(always)]
    #[tactic(auto, unfolding(crate::specs::Parser::after_symbol))]
    pub fn eat(&mut self, symbol: Symbol) -> bool
        ensures found { result ≡ spec.sees symbol self.old }
        ensures after { self.new ≡ spec.after_symbol symbol self.old }
    {
        let found = self.sees(symbol);
        if found {
            self.take();
        }
        found
    }

    /// Moves past this symbol, or returns the fault of another token.
    #[inline(always)]
    #[tactic(auto, unfolding(crate::specs::Parser::expect))]
    pub fn expect(&mut self, symbol: Symbol) -> Result<(), Refusal>
        ensures reads { Reads (spec.expect symbol self.old) result self.new }
        ensures memory { result ≢ Err NoMemory }
    {
        if !self.sees(symbol) {
            return Err(self.fault());
        }
        self.take();
        Ok(())
    }

    #[inline(always)]
    #[tactic(auto, unfolding(crate::specs::Parser::sees_numbered))]
    fn is_numbered(&self, numbering: Numbering) -> bool
        ensures value { result ≡ spec.sees_numbered numbering self.now }
        ensures not_end { result ≡ true → (first self.now).token ≢ End }
    {
        match self.token.kind {
            Kind::Numbered(found) => same_numbering(found, numbering),
            Kind::Fixed(_) | Kind::NotAscii | Kind::Stray | Kind::Word | Kind::Region | Kind::End =>
                false,
        }
    }

    /// Reads a number, local, label or variable, and returns its number. Returns `Limit` if the number is above the limit, or the fault of
    /// another token.
    #[inline(always)]
    #[tactic(auto, unfolding(crate::specs::Parser::numbered))]
    pub fn numbered(&mut self, numbering: Numbering, limit: u32) -> Result<u32, Refusal>
        ensures reads { Reads (spec.numbered numbering limit self.old) result self.new }
        ensures within { IfOk result (λ n. n ≤ limit) }
        ensures memory { result ≢ Err NoMemory }
    {
        if !self.is_numbered(numbering) {
            return Err(self.fault());
        }
        let Some(value) = self.value_within(limit) else {
            return Err(Refusal::Limit { at: self.at });
        };
        self.take();
        Ok(value)
    }

    /// Returns the number of the next token if it is within the limit.
    #[inline(always)]
    fn value_within(&self, limit: u32) -> Option<u32>
        ensures { (numbering : Numbering) → (n : ℕ) → (first self.now).token ≡ Numbered numbering n → result ≡ (if nat_le n limit then Some n else None) }
    {
        if self.token.number <= u64::from(limit) {
            Some(self.token.number as u32)
        } else {
            None
        }
    }

    /// Returns whether a token of this numbering comes next.
    #[tactic(auto, unfolding(crate::specs::Parser::sees_numbered))]
    pub fn sees_numbered(&self, numbering: Numbering) -> bool
        ensures { result ≡ spec.sees_numbered numbering self.now }
    {
        self.is_numbered(numbering)
    }

    fn name(&self) -> Option<&'a [u8]>
        ensures not_end { IsSome result → (first self.now).token ≢ End }
        ensures value { MatchOption result (spec.region_in (first self.now).token ≡ None) (λ name. spec.region_in (first self.now).token ≡ Some name.now) }
    {
        match self.token.kind {
            Kind::Region => Some(self.token.text),
            Kind::Numbered(_)
            | Kind::Fixed(_)
            | Kind::NotAscii
            | Kind::Stray
            | Kind::Word
            | Kind::End => None,
        }
    }

    /// Reads the name of a region and returns its bytes. Returns `Limit` if it has more than 16 bytes, or the fault of another token.
    #[tactic(auto, unfolding(crate::specs::Parser::region_name))]
    pub fn region_name(&mut self) -> Result<&'a [u8], Refusal>
        ensures reads { ReadsAs (λ name. name.now) (spec.region_name self.old) result self.new }
        ensures memory { result ≢ Err NoMemory }
    {
        let Some(name) = self.name() else {
            return Err(self.fault());
        };
        if name.len() > 16 {
            return Err(Refusal::Limit { at: self.at });
        }
        self.take();
        Ok(name)
    }

    /// Returns whether a region comes next.
    #[tactic(auto, unfolding(crate::specs::Parser::sees_region))]
    pub fn sees_region(&self) -> bool
        ensures { result ≡ spec.sees_region self.now }
    {
        self.name().is_some()
    }

    fn plain_word(&self) -> Option<&'a [u8]>
        ensures not_end { IsSome result → (first self.now).token ≢ End }
        ensures value { MatchOption result (spec.word_in (first self.now).token ≡ None) (λ name. spec.word_in (first self.now).token ≡ Some name.now) }
    {
        match self.token.kind {
            Kind::Word => Some(self.token.text),
            Kind::Region
            | Kind::Numbered(_)
            | Kind::Fixed(_)
            | Kind::NotAscii
            | Kind::Stray
            | Kind::End => None,
        }
    }

    /// Returns whether a word that is no keyword comes next.
    #[tactic(auto, unfolding(crate::specs::Parser::sees_word))]
    pub fn sees_word(&self) -> bool
        ensures { result ≡ spec.sees_word self.now }
    {
        self.plain_word().is_some()
    }

    /// Reads a word that is no keyword and returns its bytes. Returns `Limit` if it has more than 32 bytes, or the fault of another token.
    #[tactic(auto, unfolding(crate::specs::Parser::word))]
    pub fn word(&mut self) -> Result<&'a [u8], Refusal>
        ensures reads { ReadsAs (λ name. name.now) (spec.word self.old) result self.new }
        ensures memory { result ≢ Err NoMemory }
    {
        let Some(name) = self.plain_word() else {
            return Err(self.fault());
        };
        if name.len() > 32 {
            return Err(Refusal::Limit { at: self.at });
        }
        self.take();
        Ok(name)
    }

    /// Returns `Ok` if no token is left, otherwise the fault of the next one.
    #[tactic(auto, unfolding(crate::specs::Parser::at_end))]
    pub fn at_end(&self) -> Result<(), Refusal>
        ensures reads { Reads (spec.at_end self.now) result self.now }
        ensures memory { result ≢ Err NoMemory }
    {
        match self.token.kind {
            Kind::End => Ok(()),
            Kind::Numbered(_)
            | Kind::Fixed(_)
            | Kind::NotAscii
            | Kind::Stray
            | Kind::Word
            | Kind::Region => Err(self.fault()),
        }
    }
}
