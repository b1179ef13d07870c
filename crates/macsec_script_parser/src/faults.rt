//! The faults of a script or of its run: the line on standard error and the exit status of each.

ghost use Rattle.std.specs.Prelude.{◌≡◌, OnOk};
ghost use Rattle.std.specs.Io.KnownBytes.{Appends};
ghost use Rattle.macsec_script_parser.specs.Faults.{fault_line, fault_name, fault_status, fault_text, text_at};

use std::io::{self, Write};
use thiserror::Error;

/// Why a script is not run to its end, or a configuration not read. The first six have a line number, from 1. `Ends`
/// has line 0 for a configuration whose lines are all skipped.
#[derive(Clone, Copy, Debug, Error)]
pub enum ScriptFault {
    /// The keyword of a line is unknown, or a word is not in the list of words that its position allows.
    #[error("line {0} has an unknown word")]
    Word(u32),
    /// A line has too few words or too many.
    #[error("line {0} has too few words or too many")]
    Count(u32),
    /// A word is not hex text, or has the wrong number of octets.
    #[error("line {0} has a word that is not hex text of the right length")]
    Hex(u32),
    /// A word is not a decimal number, or is out of range.
    #[error("line {0} has a word that is not a number in its range")]
    Number(u32),
    /// A line is out of order, or the tag form of an end does not fit its SCI, or the script ends before the line of
    /// end B. A script begins with the `end` lines of A and B, in this order, and has no other `end` line. If the
    /// script ends too early, the number is the number of its last line, skipped or not.
    #[error("line {0} is in a wrong place, or its tag form does not fit its SCI")]
    Ends(u32),
    /// A line has more than 20,000 octets, not counting its line feed.
    #[error("line {0} is too long")]
    LineLong(u32),
    /// The script has more than 1,048,576 octets or more than 65,536 lines.
    #[error("the script is too long")]
    ScriptLong,
    /// Out of memory.
    #[error("out of memory")]
    Memory,
    /// The reader failed.
    #[error("the script can't be read")]
    Read,
    /// The writer failed.
    #[error("the text can't be written")]
    Write,
}

impl ScriptFault {
    /// Writes the fault as one line.
    pub fn tell<W: Write>(self, writer: &mut W) -> io::Result<()>
        ensures { OnOk result (Appends (W.contents writer.old) (W.contents writer.new) (fault_text self)) }
    {
        tell_name(writer, self.line(), self.name())
    }

    /// The name of the fault.
    pub fn name(self) -> &'static str
        ensures { result.now ≡ fault_name self }
    {
        match self {
            ScriptFault::Word(_) => "Word",
            ScriptFault::Count(_) => "Count",
            ScriptFault::Hex(_) => "Hex",
            ScriptFault::Number(_) => "Number",
            ScriptFault::Ends(_) => "Ends",
            ScriptFault::LineLong(_) => "LineLong",
            ScriptFault::ScriptLong => "ScriptLong",
            ScriptFault::Memory => "Memory",
            ScriptFault::Read => "Read",
            ScriptFault::Write => "Write",
        }
    }

    /// The number of the line at fault, from 1, or `None` for a fault without a line. It is 0 for a configuration whose
    /// lines are all skipped.
    pub fn line(self) -> Option<u32>
        ensures { result ≡ fault_line self }
    {
        match self {
            ScriptFault::Word(n) => Some(n),
            ScriptFault::Count(n) => Some(n),
            ScriptFault::Hex(n) => Some(n),
            ScriptFault::Number(n) => Some(n),
            ScriptFault::Ends(n) => Some(n),
            ScriptFault::LineLong(n) => Some(n),
            ScriptFault::ScriptLong => None,
            ScriptFault::Memory => None,
            ScriptFault::Read => None,
            ScriptFault::Write => None,
        }
    }

    /// The exit status: 2 if the script is at fault, else 1.
    pub fn status(self) -> u8
        ensures { result ≡ fault_status self }
    {
        match self {
            ScriptFault::Memory | ScriptFault::Read | ScriptFault::Write => 1,
            _ => 2,
        }
    }
}

/// Writes the name of a fault, and its line if it has one.
fn tell_name<W: Write>(writer: &mut W, line: Option<u32>, name: &str) -> io::Result<()>
    ensures { OnOk result (Appends (W.contents writer.old) (W.contents writer.new) (text_at line name.now)) }
{
    match line {
        Some(n) => writeln!(writer, "macsec: line {n}: {name}"),
        None => writeln!(writer, "macsec: {name}"),
    }
}
