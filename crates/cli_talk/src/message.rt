//! Messages: lines of the input, numbered within their sessions.
ghost use Rattle.std.specs.Prelude.{◌≡◌};
ghost use Rattle.cli_talk.specs.Talks.{IsParsedOf};

use cli_requests::ParsedLine;
use std::marker::{Brand, Model, PhantomData};

/// The parameters of a conversation, for contracts: the number of sessions, and the lines of the input if they are known. The call that
/// begins a conversation chooses both.
pub trait Talk {
    ghost use Rattle.std.specs.Prelude.{ℕ, List, Option};

    ghost sessions: { ℕ };

    ghost lines: { Option (List (List ℕ)) };
}

impl Talk for Brand {
    ghost use Rattle.std.specs.Prelude.{None};

    ghost sessions = { 0 };

    ghost lines = { None };
}

/// A line of the input that names a session, and its number among the lines that name this session, from 0. A contract sees the number and
/// what was parsed. The type guarantees that it is the line of that number, if the lines of the input are known.
pub struct Message<L: Talk> {
    number: u64,
    line: ParsedLine,
    of: PhantomData<L>,
}

// Handwritten, so that it is proved once.
impl<L: Talk> Drop for Message<L> {
    fn drop(self) {
        let Self {
            number: _,
            line: _,
            of: _,
        } = self;
    }
}

impl<L: Talk> Model for Message<L> {
    ghost use Rattle.std.specs.Coded.{codes};
    ghost use Rattle.cli_requests.specs.contracts.destination.ParsedLine as parsed_line;
    ghost use Rattle.cli_talk.specs.Talks.{IsParsedOf, MessageView};

    ghost Value = { MessageView };

    ghost coded = { Prim.hlevel (codes, parsed_line.the_row.coded) };

    ghost view = { λ m. record { number = m.number; line = m.line } };

    ghost invariant = { λ m. IsParsedOf L.sessions m.number m.line L.lines };
}

impl<L: Talk> Message<L> {
    /// Returns the message with a line of this number.
    pub(crate) fn new(number: u64, line: ParsedLine) -> Message<L>
        requires is_of { IsParsedOf L.sessions number line L.lines }
        ensures { result.line ≡ line }
    {
        Message {
            number,
            line,
            of: PhantomData,
        }
    }

    /// Returns the number of the line among those that name its session, from 0.
    pub fn number(&self) -> u64
        ensures { result ≡ self.now.number }
    {
        self.number
    }

    /// Returns the line, parsed.
    pub fn line(&self) -> &ParsedLine
        ensures value { result.now ≡ self.now.line }
        ensures is_of { IsParsedOf L.sessions self.now.number result.now L.lines }
    {
        &self.line
    }
}

/// A source of messages for a session. It may return any messages: the worker finds one that is not the next of its session by its number.
pub trait Messages<L: Talk> {
    /// Returns the next message, or `None` if no more will come.
    fn next(&mut self) -> Option<Message<L>>;
}
