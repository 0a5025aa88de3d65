//! The texts of `--help` and of `--version`.
ghost use Rattle.std.specs.Prelude.{◌≡◌, OnOk};
ghost use Rattle.std.specs.Io.KnownBytes.{Appends};
ghost use Rattle.cli_line.specs.Usage.{usage_of, version_line};

use crate::Topic;
use std::io;
use std::io::Write;

/// The version of the program, by Semantic Versioning 2.0.0.
pub const VERSION: &str = "0.1.0";

/// The text of `--help` about the program.
pub const USAGE: &str = "nlldb checks the borrows of functions and closures in a textual MIR.

Usage:
  nlldb check FILE [--json | --source] [--positions] [--jobs N] [--solver S]
  nlldb run FILE [--json] [--positions] [--sessions N] [--solver S]
  nlldb serve [--sessions N] [--solver S] [--capacity C]
  nlldb print FILE [--positions]
  nlldb COMMAND --help
  nlldb --help
  nlldb --version

Commands:
  check    Stores what FILE puts, then asks each root name that it puts, and
           prints a report for each. A section of FILE begins with a line
           '@types' (declarations follow) or '@put NAME' (a body follows).
  run      Makes the calls that FILE lists for each session, and prints what
           they answer. A section begins with '@K types', '@K put NAME',
           '@K remove NAME', '@K ask NAME' or '@K askall' (each root name that
           has a body), where K is the session, from 0.
  serve    Answers requests until standard input ends. Each is one line with a
           JSON object, and so is its reply. A request has the members 'call'
           ('types', 'put', 'remove', 'ask', 'askall' or 'glance'), 'name' and
           'text' where the call needs them, 'session' (from 0; default: 0)
           and 'id' (any value, which the reply repeats).
           docs/user/conversation.md has all requests and replies.
  print    Prints each section of FILE, a file of 'check', with its text in its
           one spelling.

FILE may be '-', for standard input.

Options:
  --json         (check, run) Print each report, or each entry of the history,
                 as a line of JSON. Default: as plain text.
  --source       (check) Print after each error and its chain the texts of its
                 point and of its loan's, with line and column in FILE, and the
                 names of the regions that it numbers. Default: none of these.
                 Not allowed with --json.
  --positions    (check, run, print) Give line and column of a fault in FILE,
                 beside the byte. Default: the byte alone.
  --jobs N       (check) How many threads share the work, 1 to 255, which
                 changes no report. Default: as many as there are processors.
  --sessions N   (run, serve) How many sessions there are, 1 to 16. Default: 1.
  --solver S     'plain' or 'components': how the regions are solved, which
                 changes no report. Default: components.
  --capacity C   (serve) How many calls the history may have, 1 to 1000000.
                 Default: 1000000.
  -h, --help     Print this text; after a command, the text for it alone.
  -V, --version  Print the version.

Exit status, the greatest that applies:
  0   No error. Of 'serve': standard input ended.
  1   A report has an error.
  2   A text or the form of FILE was refused, a put replied 'full' or
      'wrongkind', or an outcome is no report.
  3   Wrong use, a file that cannot be read, too many calls, a failed output,
      out of memory, a refused call or close, or a session that did not end.
      Of 'serve': standard input, standard output, memory, a thread or the
      close failed.

Example: conflict.nll writes _1 while a borrow of it is used later.
  @put f
  fn () -> int {
      let _1: int; let _2: &'?0 int;
      bb0 { _1 = 1; _2 = &'?1 _1; _1 = 2; _0 = copy _2.*; return; }
  }
'nlldb check conflict.nll' prints this, and ends with 1:
  ask f
  f 1
    conflict bb0[2] access 0 loan bb0[1]
      chain '?1 '?0
The chain explains the error: each of its regions must outlive the next. That
of a conflict begins with the region of the loan, and ends with one that is in
use at the point, here that of _2. That of 'lifetime A must outlive B' leads
from A to B, or to 0, which is 'static.
";

/// The text of `check --help`.
pub const CHECK_USAGE: &str =
    "nlldb check stores what FILE puts, then asks each root name that it puts, and
prints a report for each.

Usage:
  nlldb check FILE [--json | --source] [--positions] [--jobs N] [--solver S]

FILE may be '-', for standard input. A section of it begins with a line '@types'
(declarations follow) or '@put NAME' (a body follows).

Options:
  --json         Print each report as a line of JSON. Default: as plain text.
                 Not allowed with --source.
  --source       Print after each error and its chain the texts of its point
                 and of its loan's, with line and column in FILE, and the names
                 of the regions that it numbers. Default: none of these. Not
                 allowed with --json.
  --positions    Give line and column of a fault in FILE, beside the byte.
                 Default: the byte alone.
  --jobs N       How many threads share the work, 1 to 255, which changes no
                 report. Default: as many as there are processors. With 1 no
                 thread is made.
  --solver S     'plain' or 'components': how the regions are solved, which
                 changes no report. Default: components.
  -h, --help     Print this text.

Exit status, the greatest that applies:
  0   No error.
  1   A report has an error.
  2   A text or the form of FILE was refused, a put replied 'full' or
      'wrongkind', or an outcome is no report.
  3   Wrong use, a file that cannot be read, too many calls, a failed output,
      out of memory, or a refused call or close.
";

/// The text of `run --help`.
pub const RUN_USAGE: &str =
    "nlldb run makes the calls that FILE lists for each session, those of a session
in their order on a thread of its own, and prints the history: all calls in the
order in which they were answered, each with what it answered.

Usage:
  nlldb run FILE [--json] [--positions] [--sessions N] [--solver S]

FILE may be '-', for standard input. A section of it begins with a line
'@K types' (declarations follow), '@K put NAME' (a body follows),
'@K remove NAME', '@K ask NAME' or '@K askall' (each root name that has a body),
where K is the session, from 0.

Options:
  --json         Print each entry of the history as a line of JSON. Default: as
                 plain text.
  --positions    Give line and column of a fault in FILE, beside the byte.
                 Default: the byte alone.
  --sessions N   How many sessions there are, 1 to 16. Default: 1.
  --solver S     'plain' or 'components': how the regions are solved, which
                 changes no report. Default: components.
  -h, --help     Print this text.

Exit status, the greatest that applies:
  0   No error.
  1   A report has an error.
  2   A text or the form of FILE was refused, a put replied 'full' or
      'wrongkind', or an outcome is no report.
  3   Wrong use, a file that cannot be read, too many calls, a failed output,
      out of memory, a refused call or close, or a session that did not end.
";

/// The text of `serve --help`.
pub const SERVE_USAGE: &str = "nlldb serve answers requests until standard input ends.

Usage:
  nlldb serve [--sessions N] [--solver S] [--capacity C]

Each request is one line with a JSON object, and so is its reply. A request has
the members 'call' ('types', 'put', 'remove', 'ask', 'askall' or 'glance'),
'name' and 'text' where the call needs them, 'session' (from 0; default: 0) and
'id' (any value, which the reply repeats). docs/user/conversation.md has all
requests and replies.

Options:
  --sessions N   How many sessions there are, 1 to 16. Default: 1.
  --solver S     'plain' or 'components': how the regions are solved, which
                 changes no report. Default: components.
  --capacity C   How many calls the history may have, 1 to 1000000. Default:
                 1000000.
  -h, --help     Print this text.

Exit status:
  0   Standard input ended.
  3   Wrong use, or standard input, standard output, memory, a thread or the
      close failed.
";

/// The text of `print --help`.
pub const PRINT_USAGE: &str =
    "nlldb print prints each section of FILE, a file of 'check', with its text in its
one spelling.

Usage:
  nlldb print FILE [--positions]

FILE may be '-', for standard input. A section of it begins with a line '@types'
(declarations follow) or '@put NAME' (a body follows).

Options:
  --positions    Give line and column of a fault in FILE, beside the byte.
                 Default: the byte alone.
  -h, --help     Print this text.

Exit status, the greatest that applies:
  0   All sections were printed.
  2   A text or the form of FILE was refused.
  3   Wrong use, a file that cannot be read, a failed output, or out of memory.
";

/// Returns the text of `--help` about this topic.
fn usage_of(topic: Topic) -> &'static str
    ensures { result.now ≡ usage_of topic }
{
    match topic {
        Topic::Program => USAGE,
        Topic::Check => CHECK_USAGE,
        Topic::Run => RUN_USAGE,
        Topic::Serve => SERVE_USAGE,
        Topic::Print => PRINT_USAGE,
    }
}

/// Writes the text of `--help` about a topic. Returns the writer's fault if it fails.
pub fn write_usage<W: Write>(topic: Topic, out: &mut W) -> io::Result<()>
    ensures { OnOk result (Appends (W.contents out.old) (W.contents out.new) (usage_of topic)) }
{
    out.write_all(usage_of(topic).as_bytes())
}

/// Writes the line of `--version`: `nlldb` and the version. Returns the writer's fault if it fails.
pub fn write_version<W: Write>(out: &mut W) -> io::Result<()>
    ensures { OnOk result (Appends (W.contents out.old) (W.contents out.new) version_line) }
{
    writeln!(out, "nlldb {VERSION}")
}
