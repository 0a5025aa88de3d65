//! Keywords and signs: tokens with one spelling.
ghost use Rattle.std.specs.Prelude.{◌≡◌, nat_lt, None, true, IfSome, if◌then◌else◌};
ghost use Rattle.std.specs.List.{list_all};
ghost use Rattle.std.specs.Str.{bytes_eq};
ghost use Rattle.bc_syntax.specs.Bytes.{is_run_byte, run};
ghost use Rattle.bc_syntax.specs.Symbol.{text, same, keyword_of, sign_of};
ghost use Rattle.bc_syntax.specs.Likely.{likely_c, likely_i, likely_keyword};

use crate::bytes::{byte_at, runs_as};

/// A keyword or a sign.
#[derive(Clone, Copy, Debug, PartialEq, Eq)]
pub enum Symbol {
    Fn,
    Closure,
    Where,
    Let,
    Int,
    Mut,
    Copy,
    Move,
    Calc,
    Dead,
    Drop,
    Nop,
    Goto,
    If,
    Call,
    Invoke,
    Return,
    Stop,
    Struct,
    Extern,
    OpenParen,
    CloseParen,
    OpenBrace,
    CloseBrace,
    OpenBracket,
    CloseBracket,
    Less,
    Greater,
    Comma,
    Semicolon,
    Colon,
    Equals,
    Plus,
    Ampersand,
    Dot,
    Star,
    Arrow,
}

/// All keywords: the symbols that are spelled as words.
pub const KEYWORDS: [Symbol; 20] = [
    Symbol::Fn,
    Symbol::Closure,
    Symbol::Where,
    Symbol::Let,
    Symbol::Int,
    Symbol::Mut,
    Symbol::Copy,
    Symbol::Move,
    Symbol::Calc,
    Symbol::Dead,
    Symbol::Drop,
    Symbol::Nop,
    Symbol::Goto,
    Symbol::If,
    Symbol::Call,
    Symbol::Invoke,
    Symbol::Return,
    Symbol::Stop,
    Symbol::Struct,
    Symbol::Extern,
];

/// The signs of one byte.
pub const SIGNS: [Symbol; 16] = [
    Symbol::OpenParen,
    Symbol::CloseParen,
    Symbol::OpenBrace,
    Symbol::CloseBrace,
    Symbol::OpenBracket,
    Symbol::CloseBracket,
    Symbol::Less,
    Symbol::Greater,
    Symbol::Comma,
    Symbol::Semicolon,
    Symbol::Colon,
    Symbol::Equals,
    Symbol::Plus,
    Symbol::Ampersand,
    Symbol::Dot,
    Symbol::Star,
];

/// Returns whether two symbols are equal.
#[tactic(auto, unfolding(crate::specs::Symbol::same))]
pub fn same(a: Symbol, b: Symbol) -> bool
    ensures { result ≡ same a b }
{
    a == b
}

impl Symbol {
    /// Returns the spelling of the symbol.
    #[inline(always)]
    #[tactic(auto, unfolding(crate::specs::Symbol::text))]
    pub fn text(self) -> &'static [u8]
        ensures { result.now ≡ text self }
    {
        match self {
            Symbol::Fn => b"fn",
            Symbol::Closure => b"closure",
            Symbol::Where => b"where",
            Symbol::Let => b"let",
            Symbol::Int => b"int",
            Symbol::Mut => b"mut",
            Symbol::Copy => b"copy",
            Symbol::Move => b"move",
            Symbol::Calc => b"calc",
            Symbol::Dead => b"dead",
            Symbol::Drop => b"drop",
            Symbol::Nop => b"nop",
            Symbol::Goto => b"goto",
            Symbol::If => b"if",
            Symbol::Call => b"call",
            Symbol::Invoke => b"invoke",
            Symbol::Return => b"return",
            Symbol::Stop => b"stop",
            Symbol::Struct => b"struct",
            Symbol::Extern => b"extern",
            Symbol::OpenParen => b"(",
            Symbol::CloseParen => b")",
            Symbol::OpenBrace => b"{",
            Symbol::CloseBrace => b"}",
            Symbol::OpenBracket => b"[",
            Symbol::CloseBracket => b"]",
            Symbol::Less => b"<",
            Symbol::Greater => b">",
            Symbol::Comma => b",",
            Symbol::Semicolon => b";",
            Symbol::Colon => b":",
            Symbol::Equals => b"=",
            Symbol::Plus => b"+",
            Symbol::Ampersand => b"&",
            Symbol::Dot => b".",
            Symbol::Star => b"*",
            Symbol::Arrow => b"->",
        }
    }

    /// Returns the keyword that a word is, or `None` if it is none.
    pub fn of_word(word: &[u8]) -> Option<Symbol>
        ensures { result ≡ keyword_of word.now }
    {
        let keyword = likely_keyword(word)?;
        (keyword.text() == word).then_some(keyword)
    }

    /// Returns the keyword that the run at the front of a text is, or `None` if it is none. It does not read the whole run.
    #[inline(always)]
    pub fn of_run(bytes: &[u8]) -> Option<Symbol>
        ensures value { result ≡ keyword_of (run bytes.now) }
        ensures spelled { IfSome result (λ keyword. run bytes.now ≡ text keyword) }
    {
        let keyword = likely_keyword(bytes)?;
        runs_as_keyword(bytes, keyword).then_some(keyword)
    }

    /// Returns the sign that a byte below `?` is, or `None` if it is none. Most signs in a text are below `?`, and near enough to one
    /// another for a table.
    #[inline(always)]
    #[tactic(auto, unfolding(crate::specs::Symbol::sign_of, crate::specs::Symbol::text))]
    pub fn of_low_sign(byte: u8) -> Option<Symbol>
        ensures { result ≡ (if nat_lt byte 63 then sign_of byte else None) }
    {
        match byte {
            b'(' => Some(Symbol::OpenParen),
            b')' => Some(Symbol::CloseParen),
            b'<' => Some(Symbol::Less),
            b'>' => Some(Symbol::Greater),
            b',' => Some(Symbol::Comma),
            b';' => Some(Symbol::Semicolon),
            b':' => Some(Symbol::Colon),
            b'=' => Some(Symbol::Equals),
            b'+' => Some(Symbol::Plus),
            b'&' => Some(Symbol::Ampersand),
            b'.' => Some(Symbol::Dot),
            b'*' => Some(Symbol::Star),
            _ => None,
        }
    }

    /// Returns the sign that a byte is, or `None` if it is none.
    #[inline(always)]
    #[tactic(auto, unfolding(crate::specs::Symbol::sign_of, crate::specs::Symbol::text))]
    pub fn of_sign(byte: u8) -> Option<Symbol>
        ensures { result ≡ sign_of byte }
    {
        match byte {
            b'{' => Some(Symbol::OpenBrace),
            b'}' => Some(Symbol::CloseBrace),
            b'[' => Some(Symbol::OpenBracket),
            b']' => Some(Symbol::CloseBracket),
            _ => Symbol::of_low_sign(byte),
        }
    }
}

/// Returns whether the run at the front of a text is this keyword. Each keyword has a call of its own, in which its bytes are constant.
#[inline(always)]
#[tactic(auto, unfolding(crate::specs::Symbol::text))]
fn runs_as_keyword(bytes: &[u8], keyword: Symbol) -> bool
    requires { list_all is_run_byte (text keyword) ≡ true }
    ensures { result ≡ bytes_eq (text keyword) (run bytes.now) }
{
    match keyword {
        Symbol::Fn => runs_as(bytes, b"fn"),
        Symbol::Closure => runs_as(bytes, b"closure"),
        Symbol::Where => runs_as(bytes, b"where"),
        Symbol::Let => runs_as(bytes, b"let"),
        Symbol::Int => runs_as(bytes, b"int"),
        Symbol::Mut => runs_as(bytes, b"mut"),
        Symbol::Copy => runs_as(bytes, b"copy"),
        Symbol::Move => runs_as(bytes, b"move"),
        Symbol::Calc => runs_as(bytes, b"calc"),
        Symbol::Dead => runs_as(bytes, b"dead"),
        Symbol::Drop => runs_as(bytes, b"drop"),
        Symbol::Nop => runs_as(bytes, b"nop"),
        Symbol::Goto => runs_as(bytes, b"goto"),
        Symbol::If => runs_as(bytes, b"if"),
        Symbol::Call => runs_as(bytes, b"call"),
        Symbol::Invoke => runs_as(bytes, b"invoke"),
        Symbol::Return => runs_as(bytes, b"return"),
        Symbol::Stop => runs_as(bytes, b"stop"),
        Symbol::Struct => runs_as(bytes, b"struct"),
        Symbol::Extern => runs_as(bytes, b"extern"),
        Symbol::OpenParen
        | Symbol::CloseParen
        | Symbol::OpenBrace
        | Symbol::CloseBrace
        | Symbol::OpenBracket
        | Symbol::CloseBracket
        | Symbol::Less
        | Symbol::Greater
        | Symbol::Comma
        | Symbol::Semicolon
        | Symbol::Colon
        | Symbol::Equals
        | Symbol::Plus
        | Symbol::Ampersand
        | Symbol::Dot
        | Symbol::Star
        | Symbol::Arrow => runs_as(bytes, keyword.text()),
    }
}

/// Returns the only keyword with this second and fourth byte that a word in `c` may be.
#[inline(always)]
fn likely_c(second: u8, fourth: u8) -> Option<Symbol>
    ensures { result ≡ likely_c second fourth }
{
    match second {
        b'l' => Some(Symbol::Closure),
        b'o' => Some(Symbol::Copy),
        _ => match fourth {
            b'c' => Some(Symbol::Calc),
            _ => Some(Symbol::Call),
        },
    }
}

/// Returns the only keyword with this second and third byte that a word in `i` may be.
#[inline(always)]
fn likely_i(second: u8, third: u8) -> Option<Symbol>
    ensures { result ≡ likely_i second third }
{
    match second {
        b'f' => Some(Symbol::If),
        _ => match third {
            b't' => Some(Symbol::Int),
            _ => Some(Symbol::Invoke),
        },
    }
}

/// Returns the only keyword that a word may be, by its first four bytes.
#[inline(always)]
#[tactic(auto, unfolding(crate::specs::Likely::likely_keyword))]
fn likely_keyword(word: &[u8]) -> Option<Symbol>
    ensures { result ≡ likely_keyword word.now }
{
    let second = byte_at(word, 1);
    match byte_at(word, 0) {
        b'c' => likely_c(second, byte_at(word, 3)),
        b'd' => Some(if second == b'e' {
            Symbol::Dead
        } else {
            Symbol::Drop
        }),
        b'e' => Some(Symbol::Extern),
        b'f' => Some(Symbol::Fn),
        b'g' => Some(Symbol::Goto),
        b'i' => likely_i(second, byte_at(word, 2)),
        b'l' => Some(Symbol::Let),
        b'm' => Some(if second == b'u' {
            Symbol::Mut
        } else {
            Symbol::Move
        }),
        b'n' => Some(Symbol::Nop),
        b'r' => Some(Symbol::Return),
        b's' => Some(if byte_at(word, 2) == b'o' {
            Symbol::Stop
        } else {
            Symbol::Struct
        }),
        b'w' => Some(Symbol::Where),
        _ => None,
    }
}
