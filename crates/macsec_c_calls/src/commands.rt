//! The management commands (IEEE 802.1AE, 10.7).

ghost use Rattle.std.specs.Prelude.{◌≡◌};
ghost use Rattle.macsec_c_values.specs.Rows.{command_of_row};
ghost use Rattle.macsec_c_calls.specs.Commands.{Renews, commanded, row_commanded};

use macsec_ahead::AheadKeeper;
use macsec_c_values::{ArgumentFault, CommandRow, DONE, command_of_row, status_of_new_fault};
use macsec_secy::{Command, NewFault, NewKey};

/// Carries out a command, or refuses it and changes nothing. Returns the status.
pub fn carry_out(endpoint: &mut AheadKeeper, command: Result<Command, ArgumentFault>) -> u32
    ensures { (result, endpoint.new) ≡ commanded endpoint.old command }
{
    let command = match command {
        Ok(command) => command,
        Err(fault) => return fault.status(),
    };
    match endpoint.command_renewing(&command) {
        Ok(()) => DONE,
        Err(refusal) => u32::from(refusal.number()),
    }
}

/// Installs a key, also under the number of a retired key that no SA uses. If it is refused, or memory runs out,
/// nothing changes. Returns the status.
pub fn renew_key(endpoint: &mut AheadKeeper, key: Result<NewKey, ArgumentFault>) -> u32
    ensures { Renews endpoint.old key result endpoint.new }
{
    let key = match key {
        Ok(key) => key,
        Err(fault) => return fault.status(),
    };
    match endpoint.renew_key(&key) {
        Ok(Ok(())) => DONE,
        Ok(Err(refusal)) => u32::from(refusal.number()),
        Err(_) => status_of_new_fault(NewFault::Memory),
    }
}

/// Carries out the command of a row, or refuses it and changes nothing. Returns the status.
pub fn carry_out_row(endpoint: &mut AheadKeeper, row: &CommandRow) -> u32
    ensures { (result, endpoint.new) ≡ row_commanded endpoint.old (command_of_row row.now) }
{
    match command_of_row(row) {
        Ok(None) => DONE,
        Ok(Some(command)) => carry_out(endpoint, Ok(command)),
        Err(fault) => carry_out(endpoint, Err(fault)),
    }
}
