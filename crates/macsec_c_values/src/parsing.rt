//! Lines that are parsed: into commands and configurations, and into the rows of them.

ghost use Rattle.std.specs.Prelude.{◌≡◌};
ghost use Rattle.macsec_script_parser.specs.Readings.{Reads};
ghost use Rattle.macsec_c_values.specs.Parsing.{ParsesEnd, ParsesLine, command_of, end_of, line_command, line_end};

use crate::{
    CommandRow, Config, DONE, config_row, no_config, no_row, row_of, status_of_line_fault,
};
use macsec_commands::{End, Event};
use macsec_script_parser::{Action, Line, LineFault, parse_line};
use macsec_secy::{Command, EndConfig};
use std::alloc::Global;

/// The command of a line, if it is a command at end A.
fn command_of(line: &Line) -> Option<Command>
    ensures { result ≡ command_of line.now }
{
    match line {
        Line::Action(Action::Event(Event::Command(End::A, command))) => Some(*command),
        _ => None,
    }
}

/// The command of a line at end A, or `None` if the line is skipped.
pub fn line_command(alloc: Global, text: &[u8]) -> Result<Option<Command>, LineFault>
    ensures { Reads (line_command text.now) result }
{
    let Some(line) = parse_line(alloc, text)? else {
        return Ok(None);
    };
    match command_of(&line) {
        Some(command) => Ok(Some(command)),
        None => Err(LineFault::Ends),
    }
}

/// Parses a line into the row of its command at end A. A line that is skipped, or that has a fault, has the row of no
/// command. Returns the status.
pub fn parse_command(alloc: Global, text: &[u8], row: &mut CommandRow) -> u32
    ensures { ParsesLine text.now result row.new }
{
    match line_command(alloc, text) {
        Ok(command) => {
            *row = row_of(command);
            DONE
        }
        Err(fault) => {
            *row = no_row();
            status_of_line_fault(fault)
        }
    }
}

/// The configuration of a line, if it is the `end` line of A.
fn end_of(line: &Line) -> Option<EndConfig>
    ensures { result ≡ end_of line.now }
{
    match line {
        Line::End(End::A, end) => Some(end.config()),
        _ => None,
    }
}

/// The configuration of the `end` line of A.
fn line_end(alloc: Global, text: &[u8]) -> Result<EndConfig, LineFault>
    ensures { Reads (line_end text.now) result }
{
    let Some(line) = parse_line(alloc, text)? else {
        return Err(LineFault::Ends);
    };
    match end_of(&line) {
        Some(end) => Ok(end),
        None => Err(LineFault::Ends),
    }
}

/// Parses the `end` line of A into a configuration. Any other line, also one that is skipped, is in a wrong place.
/// After a fault the configuration is all zeros. Returns the status.
pub fn parse_end(alloc: Global, text: &[u8], config: &mut Config) -> u32
    ensures { ParsesEnd text.now result config.new }
{
    match line_end(alloc, text) {
        Ok(end) => {
            *config = config_row(end);
            DONE
        }
        Err(fault) => {
            *config = no_config();
            status_of_line_fault(fault)
        }
    }
}
