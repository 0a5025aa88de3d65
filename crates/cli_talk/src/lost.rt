//! The lines that report that memory ran out. They allocate nothing.
ghost use Rattle.std.specs.Prelude.{◌≡◌, ◌≤◌, OnOk, codes, length};
ghost use Rattle.cli_talk.specs.Wires.{Takes};
ghost use Rattle.cli_talk.specs.Turns.{lost_line};

use crate::replies::{Closed, Replies};
use arrayvec::ArrayString;
use itoa::Buffer;

/// The most bytes of such a line.
const LINE: usize = 64;

/// Returns the line that reports, in these words, that memory ran out in the session of this number.
fn lost_line(words: &str, session: u8) -> ArrayString<LINE>
    requires { length words.now ≤ 24 }
    ensures { result.bytes ≡ lost_line words.now session }
{
    let mut line = ArrayString::new();
    line.push_str("{\"fault\":\"");
    line.push_str(words);
    line.push_str("\",\"id\":null,\"session\":");
    line.push_str(Buffer::new().format(session));
    line.push_str("}\n");
    line
}

/// Reports that there was no memory to read a line of the session of this number.
pub(crate) fn tell_unread<P: Replies>(session: u8, replies: &mut P) -> Result<(), Closed>
    ensures { OnOk result (Takes (P.given replies.old) (P.given replies.new) (lost_line (codes "no memory") session)) }
{
    let line = lost_line("no memory", session);
    replies.reply(line.as_str())
}

/// Reports that there was no memory for an answer of the session of this number.
pub(crate) fn tell_untold<P: Replies>(session: u8, replies: &mut P) -> Result<(), Closed>
    ensures { OnOk result (Takes (P.given replies.old) (P.given replies.new) (lost_line (codes "no memory for the answer") session)) }
{
    let line = lost_line("no memory for the answer", session);
    replies.reply(line.as_str())
}
