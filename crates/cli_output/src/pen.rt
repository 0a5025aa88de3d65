//! The authors of an output.
ghost use Rattle.std.specs.Prelude.{◌≡◌, [], true};
ghost use Rattle.cli_output.specs.Tokens.{known};

use crate::token::Token;
use std::marker::{Brand, Model, PhantomData};

/// The parameters of an output, for contracts: the table of its tokens, what its writer had before, and what was in the writer's buffer.
/// The call that opens an output chooses them.
pub trait Sheet {
    ghost use Rattle.std.specs.Prelude.{ℕ, List, Option};
    ghost use Rattle.atomic_table.specs.Seated.{TableId};

    ghost table: { TableId };

    ghost before: { Option (List ℕ) };

    ghost buffer: { List ℕ };
}

impl Sheet for Brand {
    ghost use Rattle.std.specs.Prelude.{None, []};
    ghost use Rattle.cli_output.specs.Tokens.{no_table};

    ghost table = { no_table };

    ghost before = { None };

    ghost buffer = { [] };
}

/// The right of an author to print. Contracts see the author's number and the texts that it printed.
#[derive(Drop)]
pub struct Pen<J: Sheet> {
    pub(crate) number: u8,
    pub(crate) token: Token,
    pub(crate) of: PhantomData<J>,
}

impl<J: Sheet> Model for Pen<J> {
    ghost use Rattle.cli_output.specs.Pens.{IsPenOf, PenView};
    ghost use Rattle.cli_output.specs.Tokens.{known};

    ghost Value = { PenView };

    ghost view = { λ p. record { number = p.number; texts = (known p.token).texts } };

    ghost invariant = { λ p. IsPenOf J.table p.number p.token.table_id p.token.me };
}

impl<J: Sheet> Pen<J> {
    /// Returns the number of the author.
    pub fn number(&self) -> u8
        ensures { result ≡ self.now.number }
    {
        self.number
    }
}

/// The right to admit authors, whose numbers ascend from 0.
#[derive(Drop)]
pub struct Authors<J: Sheet> {
    pub(crate) count: u8,
    pub(crate) token: Token,
    pub(crate) of: PhantomData<J>,
    ghost table: { (token.table_id ≡ J.table) × (token.me.1 ≡ []) },
    ghost makes: { ((known token).makes ≡ true) × ((known token).made ≡ count) },
}
