//! The words of faults.
ghost use Rattle.std.specs.Prelude.{◌≡◌};
ghost use Rattle.cli_answers.specs.Words.{kind_word};

use cli_requests::TextFaultKind;

/// Returns the words of a kind of fault that a text has.
pub(crate) fn kind_name(kind: TextFaultKind) -> &'static str
    ensures { result.now ≡ kind_word kind }
{
    match kind {
        TextFaultKind::NotAscii => "not ascii",
        TextFaultKind::Token => "token",
        TextFaultKind::Grammar => "grammar",
        TextFaultKind::Limit => "limit",
    }
}
