//! Texts that C gives: the configuration of an endpoint, and the line of one command.

ghost use Rattle.std.specs.Prelude.{◌≡◌};
ghost use Rattle.macsec_script_parser.specs.Fields.{map_ok};
ghost use Rattle.macsec_c_calls.specs.Texts.{CommandsLine, MakesConfigured, after_command, carried_out, configured};
ghost use Rattle.macsec_c_calls.specs.Texts.{created_alone, created_beside, endpoint_of, line_of_config_fault};
ghost use Rattle.macsec_c_calls.specs.Texts.{status_of_config_fault};

use crate::{carry_out, endpoint_alone, endpoint_beside};
use macsec_ahead::AheadKeeper;
use macsec_c_values::{
    DONE, NOT_JOURNAL, line_command, status_of_line_fault, status_of_new_fault,
    status_of_script_fault,
};
use macsec_reserve::OpenFault;
use macsec_script_parser::{ScriptFault, parse_config};
use macsec_secy::{Command, EndConfig, NewFault, Refusal};
use std::alloc::Global;

/// Why a configuration creates no endpoint.
#[derive(Clone, Copy)]
pub enum ConfigFault {
    /// The text has a fault, or memory ran out while it was parsed.
    Text(ScriptFault),
    /// No endpoint can be created.
    New(NewFault),
    /// The octets given as its journal are not a journal.
    NotJournal,
    /// The command of this line is refused.
    Refused(u32, Refusal),
}

impl ConfigFault {
    /// The status.
    pub fn status(self) -> u32
        ensures { result ≡ status_of_config_fault self }
    {
        match self {
            ConfigFault::Text(fault) => status_of_script_fault(fault),
            ConfigFault::New(fault) => status_of_new_fault(fault),
            ConfigFault::NotJournal => NOT_JOURNAL,
            ConfigFault::Refused(_, refusal) => u32::from(refusal.number()),
        }
    }

    /// The number of the line with the fault, from 1, or 0 if the fault is in no line.
    pub fn line(self) -> u32
        ensures { result ≡ line_of_config_fault self }
    {
        match self {
            ConfigFault::Text(fault) => fault.line().unwrap_or(0),
            ConfigFault::NotJournal | ConfigFault::New(_) => 0,
            ConfigFault::Refused(n, _) => n,
        }
    }
}

impl From<ScriptFault> for ConfigFault {
    ghost use Rattle.macsec_c_calls.specs.declared.configuring.ConfigFault.TheVariants.{Text};
    ghost use Rattle.std.specs.Prelude.{◌≡◌};

    ghost from_gives = { λ fault r. r ≡ Text fault };

    fn from(fault: ScriptFault) -> ConfigFault {
        ConfigFault::Text(fault)
    }
}

impl From<NewFault> for ConfigFault {
    ghost use Rattle.macsec_c_calls.specs.declared.configuring.ConfigFault.TheVariants.{New};
    ghost use Rattle.std.specs.Prelude.{◌≡◌};

    ghost from_gives = { λ fault r. r ≡ New fault };

    fn from(fault: NewFault) -> ConfigFault {
        ConfigFault::New(fault)
    }
}

impl From<OpenFault> for ConfigFault {
    ghost use Rattle.macsec_c_calls.specs.Texts.{config_fault_of};
    ghost use Rattle.std.specs.Prelude.{◌≡◌};

    ghost from_gives = { λ fault r. r ≡ config_fault_of fault };

    fn from(fault: OpenFault) -> ConfigFault {
        match fault {
            OpenFault::Endpoint(fault) => ConfigFault::New(fault),
            OpenFault::NotJournal => ConfigFault::NotJournal,
            OpenFault::Memory => ConfigFault::New(NewFault::Memory),
        }
    }
}

/// Carries out the command of line `n`.
fn carry_out_line(endpoint: &mut AheadKeeper, n: u32, command: &Command) -> Result<(), ConfigFault>
    ensures { map_ok (λ done. endpoint.new) result ≡ after_command n endpoint.old command.now }
{
    match endpoint.command_forgetting(command) {
        Ok(()) => Ok(()),
        Err(refusal) => Err(ConfigFault::Refused(n, refusal)),
    }
}

/// Carries out the commands of these lines, until one is refused.
fn carry_out_lines(
    endpoint: &mut AheadKeeper,
    commands: &[(u32, Command)],
) -> Result<(), ConfigFault>
    ensures { map_ok (λ done. endpoint.new) result ≡ carried_out endpoint.old commands.now }
{
    for (n, command) in commands {
        carry_out_line(endpoint, *n, command)?;
    }
    Ok(())
}

/// Creates an endpoint, and carries out these commands.
fn endpoint_of(
    alloc: Global,
    end: EndConfig,
    commands: &[(u32, Command)],
) -> Result<Box<AheadKeeper, Global>, ConfigFault>
    ensures { MakesConfigured (endpoint_of created_alone (record { end = end; commands = commands.now }))
        (map_ok (λ endpoint. endpoint.value) result) }
{
    let mut endpoint = endpoint_alone(alloc, end)?;
    carry_out_lines(&mut *endpoint, commands)?;
    Ok(endpoint)
}

/// Creates an endpoint with a journal, and carries out these commands.
fn endpoint_of_beside(
    alloc: Global,
    end: EndConfig,
    commands: &[(u32, Command)],
    journal: &[u8],
    ahead: bool,
) -> Result<Box<AheadKeeper, Global>, ConfigFault>
    ensures { MakesConfigured
        (endpoint_of (created_beside ahead journal.now) (record { end = end; commands = commands.now }))
        (map_ok (λ endpoint. endpoint.value) result) }
{
    let mut endpoint = endpoint_beside(alloc, end, journal, ahead)?;
    carry_out_lines(&mut *endpoint, commands)?;
    Ok(endpoint)
}

/// Creates the endpoint of a configuration, and carries out its commands.
pub fn configured(alloc: Global, text: &[u8]) -> Result<Box<AheadKeeper, Global>, ConfigFault>
    ensures { MakesConfigured (configured created_alone text.now) (map_ok (λ endpoint. endpoint.value) result) }
{
    let parsed = parse_config(alloc, text)?;
    endpoint_of(alloc, parsed.end.config(), parsed.commands.as_slice())
}

/// Creates the endpoint of a configuration with a journal, and carries out the configuration's commands. With `ahead`
/// it reserves ahead of receiving.
pub fn configured_beside(
    alloc: Global,
    text: &[u8],
    journal: &[u8],
    ahead: bool,
) -> Result<Box<AheadKeeper, Global>, ConfigFault>
    ensures { MakesConfigured (configured (created_beside ahead journal.now) text.now)
        (map_ok (λ endpoint. endpoint.value) result) }
{
    let parsed = parse_config(alloc, text)?;
    endpoint_of_beside(
        alloc,
        parsed.end.config(),
        parsed.commands.as_slice(),
        journal,
        ahead,
    )
}

/// Carries out the command of a line at end A, or refuses it and changes nothing. Returns the status.
pub fn command_line(alloc: Global, endpoint: &mut AheadKeeper, text: &[u8]) -> u32
    ensures { CommandsLine endpoint.old text.now result endpoint.new }
{
    match line_command(alloc, text) {
        Ok(Some(command)) => carry_out(endpoint, Ok(command)),
        Ok(None) => DONE,
        Err(fault) => status_of_line_fault(fault),
    }
}
