//! The command or the configuration of a line as a struct, which the caller looks at before it is carried out.

ghost use Rattle.std.specs.Prelude.{◌≡◌};
ghost use Rattle.macsec_c_values.specs.Parsing.{ParsesEnd, ParsesLine};
ghost use Rattle.macsec_c_values.specs.Rows.{command_of_row, no_row};
ghost use Rattle.macsec_c.specs.Answers.{row_commanded};

use crate::endpoint::Endpoint;
use macsec_c_calls::carry_out_row;
use macsec_c_values::{CommandRow, Config, EMPTY, no_row, parse_command, parse_end};
use std::alloc::Global;

/// Parses a line into the row of its command at end A. A line that is skipped, or that has a fault, has the row of no
/// command. `macsec_parse_line` of the header calls this with a text that is not null.
#[unsafe(no_mangle)]
pub extern "C" fn macsec_parse_line_raw(alloc: Global, text: &[u8], command: &mut CommandRow) -> u32
    ensures { ParsesLine text.now result command.new }
{
    parse_command(alloc, text, command)
}

/// Carries out the command of a row, or refuses it and changes nothing.
#[unsafe(no_mangle)]
pub extern "C" fn macsec_carry_out(e: &mut Endpoint, command: &CommandRow) -> u32
    ensures { (result, e.new.state) ≡ row_commanded e.old.state (command_of_row command.now) }
{
    if !e.is_made() {
        return EMPTY;
    }
    carry_out_row(e.held(), command)
}

/// Overwrites a row with zeros, and so the key in it.
#[unsafe(no_mangle)]
pub extern "C" fn macsec_clear_command(command: &mut CommandRow)
    ensures { command.new ≡ no_row }
{
    *command = no_row();
}

/// Parses the `end` line of A into a configuration. Any other line is in a wrong place. `macsec_parse_end` of the
/// header calls this with a text that is not null.
#[unsafe(no_mangle)]
pub extern "C" fn macsec_parse_end_raw(alloc: Global, text: &[u8], config: &mut Config) -> u32
    ensures { ParsesEnd text.now result config.new }
{
    parse_end(alloc, text, config)
}
