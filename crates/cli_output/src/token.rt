//! The tokens of an output, which have no bytes: what each knows about the log, and the rule that they keep.
ghost use Rattle.std.specs.Prelude.{◌≡◌, ◌<◌, ◌+◌, ◌++◌, ◌∷◌, [], true, false, IfOk};
ghost use Rattle.cli_output.specs.Tokens.{first, keeper as keeper_of, known, maker as maker_of, writer as writer_of};
ghost use Rattle.cli_output.specs.Logs.{AreBelow, texts_of};

use atomic_table::{Join, Play, Seat, Split, Table, TableRule};
use std::alloc::{AllocError, Global};
use std::collections::LinkedList;
use std::marker::{Brand, PhantomData};

/// What a token knows. No value of it is made at run time.
pub struct Known {
    pub keeps: bool,
    pub log: LinkedList<(u64, LinkedList<u8>)>,
    pub makes: bool,
    pub made: u64,
    pub writes: bool,
    pub author: u64,
    pub texts: LinkedList<LinkedList<u8>>,
}

/// The rule that the tokens keep.
pub struct Law;

impl TableRule<u8, Known, ()> for Law {
    ghost use Rattle.cli_output.specs.Tokens.{Kept, first};

    ghost holds = { λ _ s. Kept s };

    ghost first = { λ _. first };
}

/// The table of the tokens. It has one word, whose value nobody uses.
pub type LogTable = Table<u8, Known, (), Law, Global>;

/// A token. It has no bytes.
pub type Token = Seat<u8, Known>;

/// The step that cuts the maker of authors from the first token, or takes it back.
pub struct Maker;

impl Split<Known> for Maker {
    ghost use Rattle.cli_output.specs.Tokens.{keeper, maker};

    ghost left = { λ v. keeper v.log };

    ghost right = { λ v. maker v.made };
}

/// The step that cuts a new author from the maker.
pub struct Author;

impl Split<Known> for Author {
    ghost use Rattle.std.specs.Prelude.{◌+◌, []};
    ghost use Rattle.cli_output.specs.Tokens.{maker, writer};

    ghost left = { λ v. maker (v.made + 1) };

    ghost right = { λ v. writer v.made [] };
}

/// The step that moves all that a token knows to another.
pub struct Whole;

impl Split<Known> for Whole {
    ghost use Rattle.cli_output.specs.Tokens.{nobody};

    ghost left = { λ v. nobody };

    ghost right = { λ v. v };
}

/// The step that takes in an author's token.
pub struct Writer;

impl Join<Known> for Writer {
    ghost use Rattle.cli_output.specs.Tokens.{nobody, with_writer};

    ghost both = { with_writer };

    ghost spent = { nobody };
}

impl Join<Known> for Maker {
    ghost use Rattle.cli_output.specs.Tokens.{nobody, with_maker};

    ghost both = { with_maker };

    ghost spent = { nobody };
}

/// A text, for contracts. Each call chooses it.
pub trait Text {
    ghost use Rattle.std.specs.Prelude.{ℕ, List};

    ghost text: { List ℕ };
}

impl Text for Brand {
    ghost use Rattle.std.specs.Prelude.{[]};

    ghost text = { [] };
}

/// The step that gives an author its token back after one more text.
pub struct Wrote<X: Text> {
    of: PhantomData<X>,
}

impl<X: Text> Split<Known> for Wrote<X> {
    ghost use Rattle.std.specs.Prelude.{[], ◌∷◌, ◌++◌};
    ghost use Rattle.cli_output.specs.Tokens.{keeper, writer};

    ghost left = { λ v. keeper (v.log ++ (v.author, X.text) ∷ []) };

    ghost right = { λ v. writer v.author (v.texts ++ X.text ∷ []) };
}

/// The step in which the keeper of the log learns.
pub struct Check;

impl Play<u8, Known> for Check {
    ghost use Rattle.cli_output.specs.Tokens.{Learns};

    ghost then = { Learns };
}

/// Returns the table of an empty log, and its first token.
pub(crate) fn new_table(alloc: Global) -> Result<(LogTable, Token), AllocError>
    ensures { IfOk result (λ t. (t.1.table_id ≡ t.0.shared.table_id) × (0 < t.0.shared.table_id.words) × (t.1.me ≡ (first, []))) }
{
    LogTable::of_words(alloc, &[0], &())
}

/// Writes a text to the log: the keeper takes in the author's token, and both know the text afterwards.
pub(crate) fn write<X: Text>(table: &LogTable, keeper: &mut Token, token: &mut Token, text: &[u8])
    requires text { X.text ≡ text.now }
    requires words { 0 < table.now.shared.table_id.words }
    requires tables { (keeper.old.table_id ≡ table.now.shared.table_id) × (token.old.table_id ≡ table.now.shared.table_id) }
    requires keeps { ((known keeper.old).keeps ≡ true) × (keeper.old.me.1 ≡ []) }
    requires writes { ((known token.old).keeps ≡ false) × ((known token.old).makes ≡ false) × ((known token.old).writes ≡ true) }
    ensures tables { (keeper.new.table_id ≡ keeper.old.table_id) × (token.new.table_id ≡ token.old.table_id) }
    ensures log { keeper.new.me ≡ (keeper_of ((known keeper.old).log ++ ((known token.old).author, X.text) ∷ []), []) }
    ensures texts { token.new.me ≡ (writer_of (known token.old).author ((known token.old).texts ++ X.text ∷ []), []) }
{
    let mine = table.shared.split_seat::<Whole>(token);
    table.shared.join_seat::<Writer>(keeper, mine);
    *token = table.shared.split_seat::<Wrote<X>>(keeper);
}

/// Returns the maker of authors, and leaves the keeper of the log in `first`.
pub(crate) fn leave_maker(table: &LogTable, first: &mut Token) -> Token
    requires words { 0 < table.now.shared.table_id.words }
    requires tables { first.old.table_id ≡ table.now.shared.table_id }
    requires both { ((known first.old).keeps ≡ true) × ((known first.old).makes ≡ true) × (first.old.me.1 ≡ []) }
    ensures tables { (first.new.table_id ≡ first.old.table_id) × (result.table_id ≡ first.old.table_id) }
    ensures left { first.new.me ≡ (keeper_of (known first.old).log, []) }
    ensures given { result.me ≡ (maker_of (known first.old).made, []) }
{
    table.shared.split_seat::<Maker>(first)
}

/// Makes one more author, and returns its token.
pub(crate) fn make_author(table: &LogTable, maker: &mut Token) -> Token
    requires words { 0 < table.now.shared.table_id.words }
    requires tables { maker.old.table_id ≡ table.now.shared.table_id }
    requires makes { ((known maker.old).makes ≡ true) × (maker.old.me.1 ≡ []) }
    ensures tables { (maker.new.table_id ≡ maker.old.table_id) × (result.table_id ≡ maker.old.table_id) }
    ensures left { maker.new.me ≡ (maker_of ((known maker.old).made + 1), []) }
    ensures given { result.me ≡ (writer_of (known maker.old).made [], []) }
{
    table.shared.split_seat::<Author>(maker)
}

/// Takes in an author's token, and learns that its texts are all that the log has of this author.
pub(crate) fn learn_texts(table: &LogTable, keeper: &mut Token, token: Token)
    requires words { 0 < table.now.shared.table_id.words }
    requires tables { (keeper.old.table_id ≡ table.now.shared.table_id) × (token.table_id ≡ table.now.shared.table_id) }
    requires keeps { ((known keeper.old).keeps ≡ true) × (keeper.old.me.1 ≡ []) }
    requires writes { ((known token).writes ≡ true) × (token.me.1 ≡ []) }
    ensures tables { keeper.new.table_id ≡ keeper.old.table_id }
    ensures same { ((known keeper.new).keeps ≡ true) × ((known keeper.new).log ≡ (known keeper.old).log) × (keeper.new.me.1 ≡ []) }
    ensures texts { (known token).texts ≡ texts_of (known token).author (known keeper.old).log }
{
    table.shared.join_seat::<Writer>(keeper, token);
    table.shared.load::<Check>(keeper, 0);
}

/// Takes in the maker's token, and learns that the log has no authors but those that were made.
pub(crate) fn learn_authors(table: &LogTable, keeper: &mut Token, maker: Token)
    requires words { 0 < table.now.shared.table_id.words }
    requires tables { (keeper.old.table_id ≡ table.now.shared.table_id) × (maker.table_id ≡ table.now.shared.table_id) }
    requires keeps { ((known keeper.old).keeps ≡ true) × (keeper.old.me.1 ≡ []) }
    requires makes { ((known maker).makes ≡ true) × (maker.me.1 ≡ []) }
    ensures tables { keeper.new.table_id ≡ keeper.old.table_id }
    ensures same { ((known keeper.new).keeps ≡ true) × ((known keeper.new).log ≡ (known keeper.old).log) × (keeper.new.me.1 ≡ []) }
    ensures authors { AreBelow (known maker).made (known keeper.old).log }
{
    table.shared.join_seat::<Maker>(keeper, maker);
    table.shared.load::<Check>(keeper, 0);
}
