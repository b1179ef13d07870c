//! The endpoint of a configuration, and its commands.

ghost use Rattle.std.specs.Prelude.{◌≡◌, IfErr, IfOk, OnOk};
ghost use Rattle.std.specs.Io.KnownBytes.{Appends};
ghost use Rattle.macsec_secy.specs.Sound.{IsSound};
ghost use Rattle.macsec_secy.specs.State.{start};
ghost use Rattle.macsec_script_parser.specs.declared.faults.ScriptFault.TheVariants.{Memory, Write};
ghost use Rattle.macsec_capture.specs.Captured.{commands_part, line_part};

use macsec_commands::Command;
use macsec_script_parser::{CheckedEnd, ScriptFault};
use macsec_script_printer::print_command;
use macsec_secy::{NewFault, Secy};
use std::alloc::Global;
use std::io::Write;

/// Creates an endpoint. The only fault is `Memory`. `wide` is what `Secy::prefer_wide` takes.
pub(crate) fn endpoint_of(alloc: Global, wide: bool, end: CheckedEnd) -> Result<Secy, ScriptFault>
    ensures state { IfOk result (λ s. s ≡ start end) }
    ensures sound { IfOk result IsSound }
    ensures fault { IfErr result (λ fault. fault ≡ Memory) }
{
    match Secy::new(alloc, end.config()) {
        Ok(mut endpoint) => {
            endpoint.prefer_wide(wide);
            Ok(endpoint)
        }
        Err(NewFault::Memory) => Err(ScriptFault::Memory),
        Err(_) => unreachable!(),
    }
}

/// Carries out the commands of a configuration, and prints their outcomes.
pub(crate) fn run_commands<T: Write>(
    endpoint: &mut Secy,
    text: &mut T,
    commands: &[(u32, Command)],
) -> Result<(), ScriptFault>
    requires sound { IsSound endpoint.old }
    ensures text { OnOk result (Appends (T.contents text.old) (T.contents text.new) (commands_part endpoint.old commands.now).text) }
    ensures state { OnOk result (endpoint.new ≡ (commands_part endpoint.old commands.now).state) }
    ensures sound { OnOk result (IsSound endpoint.new) }
    ensures fault { IfErr result (λ fault. fault ≡ Write) }
{
    for (n, command) in commands {
        run_command(endpoint, text, *n, command)?;
    }
    Ok(())
}

/// Carries out the command of line `n`, and prints its outcome.
fn run_command<T: Write>(
    endpoint: &mut Secy,
    text: &mut T,
    n: u32,
    command: &Command,
) -> Result<(), ScriptFault>
    requires sound { IsSound endpoint.old }
    ensures text { OnOk result (Appends (T.contents text.old) (T.contents text.new) (line_part endpoint.old (n, command.now)).text) }
    ensures state { OnOk result (endpoint.new ≡ (line_part endpoint.old (n, command.now)).state) }
    ensures sound { OnOk result (IsSound endpoint.new) }
    ensures fault { IfErr result (λ fault. fault ≡ Write) }
{
    let done = endpoint.command(command);
    print_command(text, n, done)
}
