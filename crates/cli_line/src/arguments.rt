//! The commands and their arguments, as the parser gets them.
ghost use Rattle.std.specs.Prelude.{◌≡◌, IfOk, false};
ghost use Rattle.clap.specs.Simple.{App, new_app, with_rule, with_subcommand};
ghost use Rattle.clap.specs.Words.{rule_of};
ghost use Rattle.cli_line.specs.Commands.{IsCommand, capacity_rule, check_app, file_rule, jobs_rule, json_rule, nlldb, program};
ghost use Rattle.cli_line.specs.Commands.{positions_rule, print_app, run_app, serve_app, sessions_rule, solver_rule, source_rule};

use crate::usage::VERSION;
use clap::{Arg, ArgAction, Command};
use std::alloc::{AllocError, Global};

/// Returns the argument FILE, which is required.
fn file_argument<'a>(alloc: Global) -> Arg<'a>
    ensures rule { rule_of result ≡ file_rule }
    ensures local { result.global ≡ false }
{
    Arg::new(alloc, "FILE").required(true)
}

/// Returns the option `--json`.
fn json_option<'a>(alloc: Global) -> Arg<'a>
    ensures rule { rule_of result ≡ json_rule }
    ensures local { result.global ≡ false }
{
    Arg::new(alloc, "json")
        .long("json")
        .action(ArgAction::SetTrue)
}

/// Returns the option `--source`.
fn source_option<'a>(alloc: Global) -> Arg<'a>
    ensures rule { rule_of result ≡ source_rule }
    ensures local { result.global ≡ false }
{
    Arg::new(alloc, "source")
        .long("source")
        .action(ArgAction::SetTrue)
}

/// Returns the option `--positions`.
fn positions_option<'a>(alloc: Global) -> Arg<'a>
    ensures rule { rule_of result ≡ positions_rule }
    ensures local { result.global ≡ false }
{
    Arg::new(alloc, "positions")
        .long("positions")
        .action(ArgAction::SetTrue)
}

/// Returns the option `--sessions N`, by default 1.
fn sessions_option<'a>(alloc: Global) -> Arg<'a>
    ensures rule { rule_of result ≡ sessions_rule }
    ensures local { result.global ≡ false }
{
    Arg::new(alloc, "sessions")
        .long("sessions")
        .default_value("1")
}

/// Returns the option `--solver S`, by default `components`.
fn solver_option<'a>(alloc: Global) -> Arg<'a>
    ensures rule { rule_of result ≡ solver_rule }
    ensures local { result.global ≡ false }
{
    Arg::new(alloc, "solver")
        .long("solver")
        .default_value("components")
}

/// Returns the option `--jobs N`.
fn jobs_option<'a>(alloc: Global) -> Arg<'a>
    ensures rule { rule_of result ≡ jobs_rule }
    ensures local { result.global ≡ false }
{
    Arg::new(alloc, "jobs").long("jobs")
}

/// Returns the option `--capacity C`, by default 1,000,000.
fn capacity_option<'a>(alloc: Global) -> Arg<'a>
    ensures rule { rule_of result ≡ capacity_rule }
    ensures local { result.global ≡ false }
{
    Arg::new(alloc, "capacity")
        .long("capacity")
        .default_value("1000000")
}

/// Returns the command `NAME FILE [--json]`, to which a command adds its other options.
fn file_command<'a>(alloc: Global, name: &'a str) -> Result<Command<'a>, AllocError>
    ensures { IfOk result (IsCommand (with_rule (with_rule (new_app name.now) file_rule) json_rule)) }
{
    Command::new(alloc, name)
        .arg(file_argument(alloc))?
        .arg(json_option(alloc))
}

/// Returns `check FILE [--json] [--source] [--positions] [--jobs N] [--solver S]`. That `--json` and `--source` exclude each other is
/// checked after the parser.
fn check_command<'a>(alloc: Global) -> Result<Command<'a>, AllocError>
    ensures { IfOk result (IsCommand check_app) }
{
    file_command(alloc, "check")?
        .arg(source_option(alloc))?
        .arg(positions_option(alloc))?
        .arg(jobs_option(alloc))?
        .arg(solver_option(alloc))
}

/// Returns `run FILE [--json] [--positions] [--sessions N] [--solver S]`.
fn run_command<'a>(alloc: Global) -> Result<Command<'a>, AllocError>
    ensures { IfOk result (IsCommand run_app) }
{
    file_command(alloc, "run")?
        .arg(positions_option(alloc))?
        .arg(sessions_option(alloc))?
        .arg(solver_option(alloc))
}

/// Returns `serve [--sessions N] [--capacity C] [--solver S]`.
fn serve_command<'a>(alloc: Global) -> Result<Command<'a>, AllocError>
    ensures { IfOk result (IsCommand serve_app) }
{
    Command::new(alloc, "serve")
        .arg(sessions_option(alloc))?
        .arg(capacity_option(alloc))?
        .arg(solver_option(alloc))
}

/// Returns `print FILE [--positions]`.
fn print_command<'a>(alloc: Global) -> Result<Command<'a>, AllocError>
    ensures { IfOk result (IsCommand print_app) }
{
    Command::new(alloc, "print")
        .arg(file_argument(alloc))?
        .arg(positions_option(alloc))
}

/// Returns the program without its commands.
fn program<'a>(alloc: Global) -> Command<'a>
    ensures { IsCommand program result }
{
    Command::new(alloc, "nlldb")
        .no_binary_name(true)
        .subcommand_required(true)
        .disable_help_subcommand(true)
        .version(VERSION)
}

/// Returns a program with one more command, or the error of that command.
fn with_command<'a>(
    program: Command<'a>,
    command: Result<Command<'a>, AllocError>,
) -> Result<Command<'a>, AllocError>
    ensures { (app below : App) → IsCommand app program.entry → IfOk command.entry (IsCommand below) → IfOk result (IsCommand (with_subcommand app below.top)) }
{
    match command {
        Ok(command) => program.subcommand(command),
        Err(error) => Err(error),
    }
}

/// Returns the whole program for the parser: its commands, with their options and values.
pub(crate) fn nlldb_command<'a>(alloc: Global) -> Result<Command<'a>, AllocError>
    ensures { IfOk result (IsCommand nlldb) }
{
    let program = with_command(program(alloc), check_command(alloc))?;
    let program = with_command(program, run_command(alloc))?;
    let program = with_command(program, serve_command(alloc))?;
    with_command(program, print_command(alloc))
}
