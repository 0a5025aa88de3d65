//! A walk over the tokens of a text, which finds the beginnings of points by the tokens before them.
ghost use Rattle.std.specs.Prelude.{◌≡◌, ◌<◌, ◌^◌, [], false, length, OnOk, IfOk};
ghost use Rattle.bc_tokens.specs.Parser.{first, is_end};
ghost use Rattle.bc_tokens.specs.Token.{tokens};
ghost use Rattle.bc_places.specs.Walk.{opens_points, begins_point, note, noted};

use bc_syntax::{Numbering, Symbol};
use bc_tokens::Cursor;
use std::alloc::{AllocError, Global};

/// Returns whether the next token is the end.
#[tactic(auto, unfolding(bc_tokens::specs::Parser::at_end))]
fn is_end(cursor: &Cursor<'_>) -> bool
    ensures { result ≡ is_end (first cursor.now).token }
{
    match cursor.at_end() {
        Ok(()) => true,
        Err(_) => false,
    }
}

/// Returns whether a point may begin after the next token.
#[tactic(auto, unfolding(bc_tokens::specs::Parser::sees))]
fn opens_points(cursor: &Cursor<'_>) -> bool
    ensures { result ≡ opens_points (first cursor.now).token }
{
    cursor.sees(Symbol::Semicolon) || cursor.sees(Symbol::OpenBrace)
}

/// Returns whether the next token begins a point, if one may begin there.
#[tactic(auto, unfolding(bc_tokens::specs::Parser::sees, bc_tokens::specs::Parser::sees_numbered))]
fn begins_point(cursor: &Cursor<'_>) -> bool
    ensures { result ≡ begins_point (first cursor.now).token }
{
    !(cursor.sees(Symbol::Let)
        || cursor.sees(Symbol::CloseBrace)
        || cursor.sees_numbered(Numbering::Label))
}

/// Appends the place of the next token if a point may begin there and does.
fn note(cursor: &Cursor<'_>, opened: bool, places: &mut Vec<usize>) -> Result<(), AllocError>
    ensures { OnOk result (places.new.items ≡ note opened (first cursor.now) places.old.items) }
{
    if opened && begins_point(cursor) {
        places.push(cursor.position())?;
    }
    Ok(())
}

/// Returns the places of the tokens that begin points, found in one walk over the text by the tokens before them.
pub fn noted_places(alloc: Global, text: &[u8]) -> Result<Vec<usize>, AllocError>
    requires { length text.now < 2 ^ 64 }
    ensures { IfOk result (λ places. places.items ≡ noted false [] (tokens 0 0 text.now)) }
{
    let mut cursor = Cursor::new(text, 0);
    let mut places = Vec::new(alloc);
    let mut opened = false;
    while !is_end(&cursor) {
        note(&cursor, opened, &mut places)?;
        opened = opens_points(&cursor);
        cursor.take();
    }
    Ok(places)
}
