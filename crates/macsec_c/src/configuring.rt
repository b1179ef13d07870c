//! Texts that C gives: the configuration of an endpoint, and the line of one command.

ghost use Rattle.macsec_c_calls.specs.Texts.{created_alone, created_beside};
ghost use Rattle.macsec_c.specs.Texts.{CommandsLine, Configures};

use crate::endpoint::Endpoint;
use crate::loose::Loose;
use macsec_c_calls::{command_line, configured, configured_beside};
use macsec_c_values::{DONE, EMPTY, TAKEN};
use std::alloc::Global;

/// Creates the endpoint of a configuration in a handle without one, and carries out the configuration's commands. If
/// the text has a fault or a command is refused, the handle still holds no endpoint. `macsec_configure` of the header
/// calls this with a text that is not null.
#[unsafe(no_mangle)]
pub extern "C" fn macsec_configure_raw(
    alloc: Global,
    e: &mut Endpoint,
    text: &[u8],
    line: &mut u32,
) -> u32
    ensures { Configures created_alone e.old.state text.now (result, line.new) e.new.state }
{
    *line = 0;
    if e.is_made() {
        return TAKEN;
    }
    match configured(alloc, text) {
        Ok(endpoint) => {
            e.put(Loose::of(endpoint));
            DONE
        }
        Err(fault) => {
            *line = fault.line();
            fault.status()
        }
    }
}

/// The same with a journal. With `ahead` the endpoint reserves packet numbers ahead of receiving.
/// `macsec_reserve_configure` of the header calls this with a text and a journal that are not null.
#[unsafe(no_mangle)]
pub extern "C" fn macsec_reserve_configure_raw(
    alloc: Global,
    e: &mut Endpoint,
    text: &[u8],
    journal: &[u8],
    ahead: bool,
    line: &mut u32,
) -> u32
    ensures { Configures (created_beside ahead journal.now) e.old.state text.now (result, line.new) e.new.state }
{
    *line = 0;
    if e.is_made() {
        return TAKEN;
    }
    match configured_beside(alloc, text, journal, ahead) {
        Ok(endpoint) => {
            e.put(Loose::of(endpoint));
            DONE
        }
        Err(fault) => {
            *line = fault.line();
            fault.status()
        }
    }
}

/// Carries out the command of a line at end A, or refuses it and changes nothing. `macsec_command_line` of the header
/// calls this with a text that is not null.
#[unsafe(no_mangle)]
pub extern "C" fn macsec_command_line_raw(alloc: Global, e: &mut Endpoint, text: &[u8]) -> u32
    ensures { CommandsLine e.old.state text.now result e.new.state }
{
    if !e.is_made() {
        return EMPTY;
    }
    command_line(alloc, e.held(), text)
}
