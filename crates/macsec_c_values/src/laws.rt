//! A law of rows. It is about the definitions alone: the contract of a function that does nothing.

ghost use Rattle.macsec_commands.specs.declared.command.Command.{Command};
ghost use Rattle.macsec_c_values.specs.Rows.{MeansCommand};

/// The row of a command means this command. Premises: its numbers are in their ranges, and its key has as many octets
/// as its kind says. The types of the code ensure both.
pub fn rows_mean_commands()
    ensures { (c : Command) → MeansCommand c }
{}
