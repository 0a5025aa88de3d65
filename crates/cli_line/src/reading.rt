//! Reading words as a command line.
ghost use Rattle.std.specs.Prelude.{◌≡◌, IfErr, IfOk, None, Some, option_map, map};
ghost use Rattle.clap.specs.Words.{first_of, found_of, rows_of};
ghost use Rattle.cli_line.specs.Values.{capacity_named, is_capacity, is_job_count, is_session_count, jobs_named, sessions_named};
ghost use Rattle.cli_line.specs.Lines.{IsInRange};
ghost use Rattle.cli_line.specs.Written.{asks_for_both, is_set, solver_given, sessions_given, capacity_given, jobs_given, check_given, print_given, run_given, serve_given};
ghost use Rattle.cli_line.specs.Written.{line_given, GivesLine, GivesParts};

use crate::arguments::nlldb_command;
use crate::solver::solver_named;
use crate::topic::topic_of;
use crate::{
    CheckLine, Line, LineFault, MOST_CAPACITY, MOST_SESSIONS, PrintLine, RunLine, ServeLine, Solver,
};
use clap::ArgMatches;
use std::alloc::Global;

/// Returns the first value of an argument, if it has one.
fn value_of<'a>(matches: &ArgMatches<'a>, id: &str) -> Option<&'a str>
    ensures { option_map (λ text. text.now) result ≡ first_of id.now (rows_of (found_of matches.now)) }
{
    matches.get_str(id)
}

/// Returns whether a flag is set: its value is then `true`, otherwise `false`.
fn is_set(matches: &ArgMatches<'_>, id: &str) -> bool
    ensures { result ≡ is_set id.now (rows_of (found_of matches.now)) }
{
    match value_of(matches, id) {
        Some(text) => text == "true",
        None => false,
    }
}

/// Returns whether there may be `count` sessions.
fn is_session_count(count: u8) -> bool
    ensures { result ≡ is_session_count count }
{
    1 <= count && count <= MOST_SESSIONS
}

/// Returns the number of sessions that a word names, if there may be that many. A word that is no number counts as 0.
fn sessions_named(word: &str) -> Option<u8>
    ensures { result ≡ sessions_named word.now }
{
    let count = word.parse::<u8>().unwrap_or(0);
    if is_session_count(count) {
        Some(count)
    } else {
        None
    }
}

/// Returns whether `count` threads may share the work.
fn is_job_count(count: u8) -> bool
    ensures { result ≡ is_job_count count }
{
    count >= 1
}

/// Returns the number of threads that a word names, if there may be that many. A word that is no number counts as 0.
fn jobs_named(word: &str) -> Option<u8>
    ensures { result ≡ jobs_named word.now }
{
    let jobs = word.parse::<u8>().unwrap_or(0);
    if is_job_count(jobs) { Some(jobs) } else { None }
}

/// Returns whether a history may have `count` entries.
fn is_capacity(count: u32) -> bool
    ensures { result ≡ is_capacity count }
{
    1 <= count && count <= MOST_CAPACITY
}

/// Returns the capacity that a word names, if a history may have it. A word that is no number counts as 0.
fn capacity_named(word: &str) -> Option<u32>
    ensures { result ≡ capacity_named word.now }
{
    let count = word.parse::<u32>().unwrap_or(0);
    if is_capacity(count) {
        Some(count)
    } else {
        None
    }
}

/// Returns the solver that the arguments name, if it exists.
fn solver_given(matches: &ArgMatches<'_>) -> Option<Solver>
    ensures { result ≡ solver_given (rows_of (found_of matches.now)) }
{
    solver_named(value_of(matches, "solver")?)
}

/// Returns the number of sessions that the arguments name, if it is in range.
fn sessions_given(matches: &ArgMatches<'_>) -> Option<u8>
    ensures { result ≡ sessions_given (rows_of (found_of matches.now)) }
{
    sessions_named(value_of(matches, "sessions")?)
}

/// Returns the capacity that the arguments name, if it is in range.
fn capacity_given(matches: &ArgMatches<'_>) -> Option<u32>
    ensures { result ≡ capacity_given (rows_of (found_of matches.now)) }
{
    capacity_named(value_of(matches, "capacity")?)
}

/// Returns the value of `--jobs`, if it is given, or `WrongUse` if it is out of range.
fn jobs_given(matches: &ArgMatches<'_>) -> Result<Option<u8>, LineFault>
    ensures given { IfOk result (λ jobs. Some jobs ≡ jobs_given (rows_of (found_of matches.now))) }
    ensures wrong { IfErr result (λ fault. (fault ≡ LineFault.WrongUse) × (None ≡ jobs_given (rows_of (found_of matches.now)))) }
{
    match value_of(matches, "jobs") {
        Some(word) => {
            let Some(jobs) = jobs_named(word) else {
                return Err(LineFault::WrongUse);
            };
            Ok(Some(jobs))
        }
        None => Ok(None),
    }
}

/// Returns whether the arguments have both `--json` and `--source`.
fn asks_for_both(matches: &ArgMatches<'_>) -> bool
    ensures { result ≡ asks_for_both (rows_of (found_of matches.now)) }
{
    is_set(matches, "json") && is_set(matches, "source")
}

/// Returns the line of `check` with these arguments, or `WrongUse`.
fn read_check(alloc: Global, matches: &ArgMatches<'_>) -> Result<CheckLine, LineFault>
    ensures { GivesParts (check_given (rows_of (found_of matches.now))) result }
{
    let Some(file) = value_of(matches, "FILE") else {
        return Err(LineFault::WrongUse);
    };
    let jobs = match jobs_given(matches) {
        Ok(jobs) => jobs,
        Err(fault) => return Err(fault),
    };
    let Some(solver) = solver_given(matches) else {
        return Err(LineFault::WrongUse);
    };
    if asks_for_both(matches) {
        return Err(LineFault::WrongUse);
    }
    let json = is_set(matches, "json");
    let source = is_set(matches, "source");
    let positions = is_set(matches, "positions");
    let file = String::from_str(alloc, file)?;
    Ok(CheckLine::new(file, json, source, positions, jobs, solver))
}

/// Returns the line of `run` with these arguments, or `WrongUse`.
fn read_run(alloc: Global, matches: &ArgMatches<'_>) -> Result<RunLine, LineFault>
    ensures { GivesParts (run_given (rows_of (found_of matches.now))) result }
{
    let Some(file) = value_of(matches, "FILE") else {
        return Err(LineFault::WrongUse);
    };
    let Some(sessions) = sessions_given(matches) else {
        return Err(LineFault::WrongUse);
    };
    let Some(solver) = solver_given(matches) else {
        return Err(LineFault::WrongUse);
    };
    let json = is_set(matches, "json");
    let positions = is_set(matches, "positions");
    let file = String::from_str(alloc, file)?;
    Ok(RunLine::new(file, json, positions, sessions, solver))
}

/// Returns the line of `serve` with these arguments, or `WrongUse`.
fn read_serve(matches: &ArgMatches<'_>) -> Result<ServeLine, LineFault>
    ensures { GivesParts (serve_given (rows_of (found_of matches.now))) result }
{
    let Some(sessions) = sessions_given(matches) else {
        return Err(LineFault::WrongUse);
    };
    let Some(capacity) = capacity_given(matches) else {
        return Err(LineFault::WrongUse);
    };
    let Some(solver) = solver_given(matches) else {
        return Err(LineFault::WrongUse);
    };
    Ok(ServeLine::new(sessions, capacity, solver))
}

/// Returns the line of `print` with these arguments, or `WrongUse`.
fn read_print(alloc: Global, matches: &ArgMatches<'_>) -> Result<PrintLine, LineFault>
    ensures { GivesParts (print_given (rows_of (found_of matches.now))) result }
{
    let Some(file) = value_of(matches, "FILE") else {
        return Err(LineFault::WrongUse);
    };
    let positions = is_set(matches, "positions");
    let file = String::from_str(alloc, file)?;
    Ok(PrintLine::new(file, positions))
}

/// Returns the line of the command of this name with these arguments, or `WrongUse`.
fn read_command(alloc: Global, name: &str, matches: &ArgMatches<'_>) -> Result<Line, LineFault>
    ensures line { GivesParts (line_given (name.now, rows_of (found_of matches.now))) result }
    ensures range { IfOk result IsInRange }
{
    if name == "check" {
        Ok(Line::Check(read_check(alloc, matches)?))
    } else if name == "run" {
        Ok(Line::Run(read_run(alloc, matches)?))
    } else if name == "serve" {
        Ok(Line::Serve(read_serve(matches)?))
    } else if name == "print" {
        Ok(Line::Print(read_print(alloc, matches)?))
    } else {
        Err(LineFault::WrongUse)
    }
}

/// Reads the words of the command line, without the program's own name. They are `check FILE [--json | --source] [--positions] [--jobs J]
/// [--solver S]`, `run FILE [--json] [--positions] [--sessions N] [--solver S]`, `serve [--sessions N] [--solver S] [--capacity C]` or
/// `print FILE [--positions]`. J is 1 to 255, without a default. N is 1 to 16, by default 1. C is 1 to 1,000,000, which is its default. S
/// is `plain` or `components`, by default the latter. Options come after the command, before or after FILE; their value is the next word,
/// or follows a `=`. J, N and C are decimal digits; leading zeros are allowed, and one `+` before them. After a word `--` each word is
/// FILE, so its name may begin with `-`. The crate `clap` splits words into options and values.
///
/// Returns `Help` if `--help` or `-h` comes before the first word that has no place in the line, whatever the values of options are. It is
/// about the command that the first word names, otherwise about the program. Returns `Version` if `--version` or `-V` comes before a
/// command. Returns `NoMemory` if it is out of memory. Returns `WrongUse` if the words are not a line: no words, another command, no FILE
/// or more than one, `--json` with `--source`, or an option that the command does not have, that is given twice, or whose value is missing
/// or not one of those above.
pub fn read_line<'a>(alloc: Global, words: &'a [&'a str]) -> Result<Line, LineFault>
    ensures line { GivesLine (map (λ word. word.now) words.now) result }
    ensures range { IfOk result IsInRange }
{
    let matches = match nlldb_command(alloc)?.try_get_matches_from(words) {
        Ok(matches) => matches,
        Err(error) => return Err(LineFault::of_refusal(topic_of(words), &error)),
    };
    match matches.subcommand() {
        Some((name, matches)) => read_command(alloc, name, matches),
        None => Err(LineFault::WrongUse),
    }
}
