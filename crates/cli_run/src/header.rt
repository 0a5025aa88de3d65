//! Header lines that name a session.
ghost use Rattle.std.specs.Prelude.{◌≡◌, ◌≤◌, ◌<◌, ◌++◌, ℕ, List, Some, IfSome, IfNone, codes, decimal};
ghost use Rattle.cli_file.specs.declared.heading.Heading.{Heading};
ghost use Rattle.cli_file.specs.Headings.{IsHeader, maker_text};

use cli_file::{Heading, behind, read_heading};

/// Returns what follows a number of at most two digits in a text, or `None` exactly if the text does not begin with it.
fn behind_number(text: &[u8], number: u8) -> Option<&[u8]>
    requires { number < 100 }
    ensures found { IfSome result (λ rest. text.now ≡ decimal number ++ rest.now) }
    ensures none { IfNone result ((rest : List ℕ) → ¬ (text.now ≡ decimal number ++ rest)) }
{
    let ones = b'0' + number % 10;
    if number < 10 {
        return behind(text, &[ones]);
    }
    behind(text, &[b'0' + number / 10, ones])
}

/// Returns the words after this session's number in a header line, or `None` exactly if the line does not name the session.
fn behind_session(header: &[u8], session: u8) -> Option<&[u8]>
    requires { session < 100 }
    ensures found { IfSome result (λ words. header.now ≡ codes "@" ++ maker_text (Some session) ++ words.now) }
    ensures none { IfNone result ((words : List ℕ) → ¬ (header.now ≡ codes "@" ++ maker_text (Some session) ++ words)) }
{
    let rest = behind_number(behind(header, b"@")?, session)?;
    behind(rest, b" ")
}

/// Returns what a header line asks of this session, or `None` exactly if it asks nothing of it.
fn read_own(header: &[u8], session: u8) -> Option<Heading>
    requires { session < 100 }
    ensures found { IfSome result (λ heading. IsHeader (Some session) heading header.now) }
    ensures none { IfNone result ((heading : Heading) → ¬ IsHeader (Some session) heading header.now) }
{
    read_heading(behind_session(header, session)?)
}

/// Returns the session that a header line names, below `sessions`, and what the line asks of it. Returns `None` exactly if it asks nothing
/// of any session.
pub fn read_header(header: &[u8], sessions: u8) -> Option<(u8, Heading)>
    requires { sessions ≤ 16 }
    ensures found { IfSome result (λ found. (found.0 < sessions) × IsHeader (Some found.0) found.1 header.now) }
    ensures none { IfNone result ((session : ℕ) (heading : Heading) → session < sessions → ¬ IsHeader (Some session) heading header.now) }
{
    // Each number is tried in its printed form, so leading zeros and numbers that are too great do not match.
    for session in 0..sessions {
        if let Some(heading) = read_own(header, session) {
            return Some((session, heading));
        }
    }
    None
}
