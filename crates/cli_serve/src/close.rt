//! The end of the output, and what was printed.
ghost use Rattle.std.specs.Prelude.{◌≡◌, [], OnOk};
ghost use Rattle.std.specs.List.{All};
ghost use Rattle.std.specs.Io.Buffered.{writer_buffer, writer_contents};
ghost use Rattle.cli_output.specs.Pens.{IsLogged};
ghost use Rattle.cli_output.specs.Tokens.{known};
ghost use Rattle.cli_serve.specs.Printed.{IsAllOf};

use crate::stop::ServeStop;
use cli_output::{Authors, Output, Pen, Sheet};
use std::io::{BufWriter, Write};

/// Takes pens back: for each, the log has exactly what was printed with it.
fn take_all<J: Sheet, O: Write + Drop>(output: &mut Output<J, O>, pens: Vec<Pen<J>>)
    ensures log { (known output.new.keeper).log ≡ (known output.old.keeper).log }
    ensures each { All (IsLogged (known output.old.keeper).log) pens.items }
{
    'pens: for pen in pens {
        output.take_back(pen);
    }
}

/// Ends the output on which the sessions and the router printed with these pens, and returns its writer. Exactly what they printed was
/// written, and it was flushed. Returns `CannotWrite` if the writer failed, and `LostLine` if there were other authors.
pub(crate) fn close<J: Sheet, O: Write + Drop>(
    output: Output<J, O>,
    authors: Authors<J>,
    sessions: u8,
    pens: Vec<Pen<J>>,
    router: Pen<J>,
) -> (BufWriter<O>, Result<(), ServeStop>)
    ensures printed { OnOk result.1 (IsAllOf sessions pens.items router J.before (writer_contents O.contents result.0)) }
    ensures handed_on { OnOk result.1 (J.buffer ≡ [] → writer_buffer result.0 ≡ []) }
{
    let mut output = output;
    take_all(&mut output, pens);
    output.take_back(router);
    let (out, closed) = output.close(authors);
    match closed {
        Ok(count) if usize::from(count) == usize::from(sessions) + 1 => (out, Ok(())),
        Ok(_) => (out, Err(ServeStop::LostLine)),
        Err(_) => (out, Err(ServeStop::CannotWrite)),
    }
}
