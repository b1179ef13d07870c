//! Laws of answers, of rows that are carried out and of renewed keys. They are about the definitions alone: the
//! contracts of functions that do nothing.

ghost use Rattle.std.specs.Prelude.{ℕ, List, Option};
ghost use Rattle.macsec_commands.specs.declared.command.Command.{Command};
ghost use Rattle.macsec_ahead.specs.Ahead.{Ahead};
ghost use Rattle.macsec_script_parser.specs.declared.lines.Line.{Line};
ghost use Rattle.macsec_c_values.specs.declared.rows.CommandRow.{CommandRow};
ghost use Rattle.macsec_suite.specs.declared.key_row.NewKey.{NewKey};
ghost use Rattle.macsec_c_calls.specs.GivenUp.{Call, GivesUp, RefusesOctets, StayGivenUp};
ghost use Rattle.macsec_c_calls.specs.Laws.{AnswersAsPrinted};
ghost use Rattle.macsec_c_calls.specs.Loading.{LoadIsCalls};
ghost use Rattle.macsec_c_calls.specs.RowLaws.{CommandsParsed};

use macsec_reserve::laws::renewing_gives_up_octets;

/// The answer to a line about end A alone is what a script prints for it, and leaves the endpoint that is there after
/// the script's line, except that a key which the line retires is forgotten. Premises: no packet number of the line is
/// refused because of a journal, and the line installs no key that was forgotten. Every other line is in a wrong place.
pub fn answers_as_printed()
    ensures { (e : Ahead) (n : ℕ) (said : Line) → AnswersAsPrinted e n said }
{}

/// A line that is parsed, and whose row is then carried out, is carried out as `command_line` does: with the same
/// statuses, and with the same endpoint after it.
pub fn parsed_lines_are_commanded()
    ensures { (e : Ahead) (text : List ℕ) (status : ℕ) (row : CommandRow) → CommandsParsed e text status row }
{}

/// All commands of a load leave what a list of calls leaves, each of which carries out a command or installs a key as a
/// renewal. So each law about lists of calls is about loads, too. That a refused load changes nothing is in `Loads`.
pub fn loads_are_calls()
    ensures { (e : Ahead) (commands : List (Option Command)) → LoadIsCalls e commands }
{}

/// Once a new key took the row of a retired one, each call that installs a key refuses the octets of the retired one
/// with `KeyRepeated` and changes nothing, whatever calls come in between, also if only their fingerprint was left.
pub fn refuses_given_up_octets()
    ensures begins { (e : Ahead) (key : NewKey) (bytes : List ℕ) → GivesUp e key bytes }
    ensures stays { (e : Ahead) (calls : List Call) (bytes : List ℕ) → StayGivenUp e calls bytes }
    ensures refuses { (e : Ahead) (key : NewKey) → RefusesOctets e key }
{
    // A law that the proof cites; the call does nothing.
    renewing_gives_up_octets();
}
