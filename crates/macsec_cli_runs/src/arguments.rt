//! The arguments of the program, and the run that they ask for.

ghost use Rattle.std.specs.Prelude.{◌≡◌, false, map, option_map, string_bytes, IfErr, IfOk, IsSome};
ghost use Rattle.clap.specs.Words.{app_of, first_of, found_of, rows_of, rule_of, subcommand_rows_of};
ghost use Rattle.macsec_cli_runs.specs.Words.{Asks, FailsBy, asked, asked_by, asked_in, capture_app, capture_in, kind_failure, macsec_app, name_rule, run_in};

use crate::captures::{CapturePaths, capture_named};
use crate::failures::Failure;
use crate::scripts::run_named;
use clap::error::ErrorKind;
use clap::{Arg, ArgAction, ArgMatches, Command};
use macsec_capture::Direction;
use macsec_script_parser::ScriptFault;
use std::alloc::{AllocError, Global};
use std::io::BufWriter;

/// What the arguments ask the program for.
#[derive(Clone, Copy)]
pub enum Task<'a> {
    /// Run a script.
    Run(&'a str),
    /// Protect or validate the frames of a capture.
    Capture(Direction, CapturePaths<'a>),
}

/// The task of the arguments after the program's name: `run SCRIPT`, `protect CONFIG IN OUT` or
/// `validate CONFIG IN OUT`. `words` begins with the program's name.
pub fn task_of_words<'a>(alloc: Global, words: &'a [String]) -> Result<Task<'a>, Failure<'a>>
    ensures { Asks (asked (map string_bytes words.now)) result }
{
    let Ok(command) = command(alloc) else {
        return Err(Failure::Script(ScriptFault::Memory));
    };
    match command.try_get_matches_from(words) {
        Ok(matches) => match task_of(&matches) {
            Some(task) => Ok(task),
            None => Err(Failure::Usage),
        },
        Err(error) => Err(failure_of_kind(error.kind())),
    }
}

/// Carries out the task of the arguments after the program's name, and prints to standard output.
pub fn run_words<'a>(rt: &HostRuntime, wide: bool, words: &'a [String]) -> Result<(), Failure<'a>>
    ensures done { IfOk result (λ _. IsSome (asked (map string_bytes words.now))) }
    ensures failure { IfErr result (FailsBy (map string_bytes words.now)) }
{
    let task = task_of_words(rt.alloc(), words)?;
    let Ok(mut text) = BufWriter::new(rt.alloc(), rt.stdout()) else {
        return Err(Failure::Script(ScriptFault::Memory));
    };
    match task {
        Task::Run(script) => run_named(rt, rt.alloc(), wide, script, &mut rt.stdin(), &mut text),
        Task::Capture(direction, paths) => {
            capture_named(rt, rt.alloc(), wide, direction, paths, &mut text)
        }
    }
}

/// Why the arguments are refused: memory ran out, or they match none of the program's forms.
fn failure_of_kind<'a>(kind: ErrorKind) -> Failure<'a>
    ensures { result ≡ kind_failure kind }
{
    match kind {
        ErrorKind::OutOfMemory => Failure::Script(ScriptFault::Memory),
        _ => Failure::Usage,
    }
}

/// The task in the matches.
fn task_of<'a>(matches: &ArgMatches<'a>) -> Option<Task<'a>>
    ensures { option_map asked_by result ≡ asked_in (subcommand_rows_of matches.now) }
{
    let (name, words) = matches.subcommand()?;
    match name {
        "run" => run_of(words),
        "protect" => capture_of(Direction::Protect, words),
        "validate" => capture_of(Direction::Validate, words),
        _ => None,
    }
}

/// The run of a script, in the matches of its subcommand.
fn run_of<'a>(matches: &ArgMatches<'a>) -> Option<Task<'a>>
    ensures { option_map asked_by result ≡ run_in (rows_of (found_of matches.now)) }
{
    match value_of(matches, "SCRIPT") {
        Some(script) => Some(Task::Run(script)),
        None => None,
    }
}

/// The capture, in the matches of its subcommand.
fn capture_of<'a>(direction: Direction, matches: &ArgMatches<'a>) -> Option<Task<'a>>
    ensures { option_map asked_by result ≡ capture_in direction (rows_of (found_of matches.now)) }
{
    let config = value_of(matches, "CONFIG")?;
    let input = value_of(matches, "IN")?;
    let output = value_of(matches, "OUT")?;
    let paths = CapturePaths {
        config,
        input,
        output,
    };
    Some(Task::Capture(direction, paths))
}

/// The value of an argument.
fn value_of<'a>(matches: &ArgMatches<'a>, id: &str) -> Option<&'a str>
    ensures { option_map (λ value. value.now) result ≡ first_of id.now (rows_of (found_of matches.now)) }
{
    matches.get_str(id)
}

/// The command line that the program accepts.
fn command<'a>(alloc: Global) -> Result<Command<'a>, AllocError>
    ensures { IfOk result (λ command. app_of command ≡ macsec_app) }
{
    // At each `?` at most one command has to be dropped, which keeps the proof short.
    let run = Command::new(alloc, "run").arg(name_argument(alloc, "SCRIPT"))?;
    let runs = Command::new(alloc, "macsec")
        .subcommand_required(true)
        .subcommand(run)?;
    let protect = capture_command(alloc, "protect")?;
    let protects = runs.subcommand(protect)?;
    let validate = capture_command(alloc, "validate")?;
    protects.subcommand(validate)
}

/// A subcommand for captures.
fn capture_command<'a>(alloc: Global, form: &'a str) -> Result<Command<'a>, AllocError>
    ensures { IfOk result (λ command. app_of command ≡ capture_app form.now) }
{
    Command::new(alloc, form)
        .arg(name_argument(alloc, "CONFIG"))?
        .arg(name_argument(alloc, "IN"))?
        .arg(name_argument(alloc, "OUT"))
}

/// The argument for a file name, which is required.
fn name_argument<'a>(alloc: Global, id: &'a str) -> Arg<'a>
    ensures rule { rule_of result ≡ name_rule id.now }
    ensures local { result.global ≡ false }
{
    Arg::new(alloc, id).required(true).action(ArgAction::Set)
}
