//! Parses a script: the `end` lines of A and B, then all other lines. Also parses the configuration of one end: its
//! `end` line, then commands at it.

ghost use Rattle.std.specs.Prelude.{◌≡◌, ◌≤◌, IfOk, None, Some, length, map, nat_lt};
ghost use Rattle.macsec_script_parser.specs.declared.script.Begun.TheVariants.{Nothing, EndA, Both};
ghost use Rattle.macsec_script_parser.specs.Limits.{max_line_count, max_script_len};
ghost use Rattle.macsec_script_parser.specs.Fields.{map_ok};
ghost use Rattle.macsec_script_parser.specs.Scripts.{add_line, add_to_config, add_to_script, at_line, config_of, config_of_lines, lines_in, script_of, script_of_lines};
ghost use Rattle.macsec_script_parser.specs.Kinds.{line_of};
ghost use Rattle.macsec_script_parser.specs.Readings.{Parses};

use crate::ends::CheckedEnd;
use crate::faults::ScriptFault;
use crate::lines::{Action, Line, LineFault, parse_line};
use crate::words::lines;
use macsec_commands::{Command, End, Event};
use std::alloc::Global;
use std::marker::Model;

/// The most octets of a script.
pub const MAX_SCRIPT_LEN: usize = 1_048_576;

/// The most lines of a script.
const MAX_LINE_COUNT: usize = 65_536;

/// A script.
#[derive(Drop)]
pub struct Script {
    /// The configuration of end A.
    pub a: CheckedEnd,
    /// The configuration of end B.
    pub b: CheckedEnd,
    /// What the lines after these two do, each with the line's number.
    pub lines: Vec<(u32, Action)>,
}

impl Model for Script {
    ghost use Rattle.macsec_script_parser.specs.Parts.{ScriptParts};

    ghost Value = { ScriptParts };

    ghost view = { λ s. record { a = s.a; b = s.b; lines = s.lines.items } };
}

/// The configuration of one end, and its commands.
#[derive(Drop)]
pub struct Config {
    /// The configuration of the end.
    pub end: CheckedEnd,
    /// The commands, each with the number of its line.
    pub commands: Vec<(u32, Command)>,
}

impl Model for Config {
    ghost use Rattle.macsec_script_parser.specs.Parts.{ConfigParts};

    ghost Value = { ConfigParts };

    ghost view = { λ c. record { end = c.end; commands = c.commands.items } };
}

/// What the first lines of a script make.
#[derive(Drop)]
pub enum Begun {
    /// All of them are skipped.
    Nothing,
    /// The configuration of end A.
    EndA(CheckedEnd),
    /// Both ends, and what the lines after them do.
    Both(Script),
}

impl Begun {
    /// Adds line `n`, or returns `Ends` if it is out of order.
    fn add(self, alloc: Global, n: u32, line: Line) -> Result<Begun, ScriptFault>
        ensures { Parses (add_to_script self n line) result }
    {
        match self {
            Begun::Nothing => add_end_a(n, &line),
            Begun::EndA(a) => add_end_b(alloc, a, n, &line),
            Begun::Both(script) => add_action(script, n, line),
        }
    }
}

/// Adds line `n`, which is to be the `end` line of A.
fn add_end_a(n: u32, line: &Line) -> Result<Begun, ScriptFault>
    ensures { result ≡ add_to_script Nothing n line.now }
{
    match line {
        Line::End(End::A, a) => Ok(Begun::EndA(*a)),
        _ => Err(ScriptFault::Ends(n)),
    }
}

/// Adds line `n`, which is to be the `end` line of B.
fn add_end_b(alloc: Global, a: CheckedEnd, n: u32, line: &Line) -> Result<Begun, ScriptFault>
    ensures { result ≡ add_to_script (EndA a) n line.now }
{
    match line {
        Line::End(End::B, b) => Ok(Begun::Both(Script {
            a,
            b: *b,
            lines: Vec::new(alloc),
        })),
        _ => Err(ScriptFault::Ends(n)),
    }
}

/// Adds line `n`, which is to be no `end` line.
fn add_action(script: Script, n: u32, line: Line) -> Result<Begun, ScriptFault>
    ensures { Parses (add_to_script (Both script) n line) result }
{
    let Line::Action(action) = line else {
        return Err(ScriptFault::Ends(n));
    };
    let mut script = script;
    if script.lines.push((n, action)).is_err() {
        return Err(ScriptFault::Memory);
    }
    Ok(Begun::Both(script))
}

/// Adds line `n` to a configuration: the `end` line of A to none, and a command at A to one with its end.
fn add_to_config(
    alloc: Global,
    config: Option<Config>,
    n: u32,
    line: Line,
) -> Result<Option<Config>, ScriptFault>
    ensures { Parses (add_to_config config n line) result }
{
    match config {
        None => add_only_end(alloc, n, &line),
        Some(config) => add_command(config, n, &line),
    }
}

/// Adds line `n`, which is to be the `end` line of A.
fn add_only_end(alloc: Global, n: u32, line: &Line) -> Result<Option<Config>, ScriptFault>
    ensures { result ≡ add_to_config None n line.now }
{
    match line {
        Line::End(End::A, end) => Ok(Some(Config {
            end: *end,
            commands: Vec::new(alloc),
        })),
        _ => Err(ScriptFault::Ends(n)),
    }
}

/// Adds line `n`, which is to be a command at A.
fn add_command(config: Config, n: u32, line: &Line) -> Result<Option<Config>, ScriptFault>
    ensures { Parses (add_to_config (Some config) n line.now) result }
{
    let Line::Action(Action::Event(Event::Command(End::A, command))) = line else {
        return Err(ScriptFault::Ends(n));
    };
    let mut config = config;
    if config.commands.push((n, *command)).is_err() {
        return Err(ScriptFault::Memory);
    }
    Ok(Some(config))
}

/// The fault of a script whose line `n` has this fault. `Memory` has no line number.
pub fn at_line(n: u32, fault: LineFault) -> ScriptFault
    ensures { result ≡ at_line n fault }
{
    match fault {
        LineFault::Word => ScriptFault::Word(n),
        LineFault::Count => ScriptFault::Count(n),
        LineFault::Hex => ScriptFault::Hex(n),
        LineFault::Number => ScriptFault::Number(n),
        LineFault::Ends => ScriptFault::Ends(n),
        LineFault::LineLong => ScriptFault::LineLong(n),
        LineFault::Memory => ScriptFault::Memory,
    }
}

/// Parses the lines of a script.
fn parse_script_lines(alloc: Global, lines: &[&[u8]]) -> Result<Option<Script>, ScriptFault>
    requires { length lines.now ≤ max_line_count }
    ensures { Parses (script_of_lines (map (λ line. line.now) lines.now)) result }
{
    let mut begun = Begun::Nothing;
    for (i, text) in lines.iter().enumerate() {
        let n = i as u32 + 1;
        let line = match parse_line(alloc, text) {
            Ok(Some(line)) => line,
            Ok(None) => continue,
            Err(fault) => return Err(at_line(n, fault)),
        };
        begun = match begun.add(alloc, n, line) {
            Ok(next) => next,
            Err(fault) => return Err(fault),
        };
    }
    match begun {
        Begun::Nothing => Ok(None),
        Begun::EndA(_) => Err(ScriptFault::Ends(lines.len() as u32)),
        Begun::Both(script) => Ok(Some(script)),
    }
}

/// Parses the lines of a configuration.
fn parse_config_lines(alloc: Global, lines: &[&[u8]]) -> Result<Config, ScriptFault>
    requires { length lines.now ≤ max_line_count }
    ensures { Parses (config_of_lines (map (λ line. line.now) lines.now)) result }
{
    let mut config = None;
    for (i, text) in lines.iter().enumerate() {
        let n = i as u32 + 1;
        let line = match parse_line(alloc, text) {
            Ok(Some(line)) => line,
            Ok(None) => continue,
            Err(fault) => return Err(at_line(n, fault)),
        };
        config = match add_to_config(alloc, config, n, line) {
            Ok(next) => next,
            Err(fault) => return Err(fault),
        };
    }
    match config {
        Some(config) => Ok(config),
        None => Err(ScriptFault::Ends(0)),
    }
}

/// Does a text have more octets than a script is allowed to have?
fn has_too_many_octets(text: &[u8]) -> bool
    ensures { result ≡ nat_lt max_script_len (length text.now) }
{
    text.len() > MAX_SCRIPT_LEN
}

/// The lines of a text, unless it is too long.
fn lines_in(alloc: Global, text: &[u8]) -> Result<Vec<&[u8]>, ScriptFault>
    ensures lines { Parses (lines_in text.now) (map_ok (λ lines. map (λ line. line.now) lines.items) result) }
    ensures count { IfOk result (λ lines. length lines.items ≤ max_line_count) }
{
    if has_too_many_octets(text) {
        return Err(ScriptFault::ScriptLong);
    }
    let Ok(lines) = lines(alloc, text) else {
        return Err(ScriptFault::Memory);
    };
    if lines.len() > MAX_LINE_COUNT {
        return Err(ScriptFault::ScriptLong);
    }
    Ok(lines)
}

/// Parses a script. Returns `None` if all of its lines are skipped, or the first fault.
pub fn parse_script(alloc: Global, script: &[u8]) -> Result<Option<Script>, ScriptFault>
    ensures { Parses (script_of script.now) result }
{
    let lines = lines_in(alloc, script)?;
    parse_script_lines(alloc, lines.as_slice())
}

/// Parses the configuration of one end. Returns its first fault, if it has one. The first line that is not skipped is
/// the `end` line of A, and all others are commands at A. The fault is `Ends` at the first line that is not so, or
/// `Ends` in line 0 if all lines are skipped. All other faults are the same as in a script.
pub fn parse_config(alloc: Global, config: &[u8]) -> Result<Config, ScriptFault>
    ensures { Parses (config_of config.now) result }
{
    let lines = lines_in(alloc, config)?;
    parse_config_lines(alloc, lines.as_slice())
}
