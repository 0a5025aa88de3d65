//! The words of replies and of refusals.
ghost use Rattle.std.specs.Prelude.{◌≡◌};
ghost use Rattle.cli_entries.specs.Words.{put_word, refusal_words, remove_word};

use bc_book::Refusal;
use bc_calls::{PutReply, RemoveReply};

/// Returns the word of the reply to a put: `added`, `replaced`, `full` or `wrongkind`.
pub fn put_word(reply: PutReply) -> &'static str
    ensures { result.now ≡ put_word reply }
{
    match reply {
        PutReply::Added => "added",
        PutReply::Replaced => "replaced",
        PutReply::Full => "full",
        PutReply::WrongKind => "wrongkind",
    }
}

/// Returns the word of the reply to a removal: `removed` or `absent`.
pub fn remove_word(reply: RemoveReply) -> &'static str
    ensures { result.now ≡ remove_word reply }
{
    match reply {
        RemoveReply::Removed => "removed",
        RemoveReply::Absent => "absent",
    }
}

/// Returns the words for why a call was refused: `no memory` or `history full`.
pub fn refusal_words(refusal: Refusal) -> &'static str
    ensures { result.now ≡ refusal_words refusal }
{
    match refusal {
        Refusal::NoMemory => "no memory",
        Refusal::HistoryFull => "history full",
    }
}
