//! A law of handles. It is about the definitions alone: the contract of an empty function.

ghost use Rattle.std.specs.Prelude.{ℕ, List, Option};
ghost use Rattle.macsec_ahead.specs.Ahead.{Ahead};
ghost use Rattle.macsec_c_values.specs.declared.rows.CommandRow.{CommandRow};
ghost use Rattle.macsec_c.specs.RowLaws.{CommandsParsed};

/// A line that is parsed, and whose row is then carried out, is carried out as `macsec_command_line_raw` does: with the
/// same statuses, and with the same endpoint in the handle. Premise: the handle holds an endpoint, or the line has no
/// fault. Without an endpoint, `macsec_command_line_raw` does not read the line.
pub fn parsed_lines_are_commanded()
    ensures { (e : Option Ahead) (text : List ℕ) (status : ℕ) (row : CommandRow) → CommandsParsed e text status row }
{}
