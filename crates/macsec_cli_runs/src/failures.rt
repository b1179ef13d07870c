//! How the program reports a failure: a line on standard error, and the exit status.

ghost use Rattle.std.specs.Prelude.{◌≡◌, ◌≢◌, OnOk};
ghost use Rattle.std.specs.IoError.{error_kind};
ghost use Rattle.std.specs.declared.io.ErrorKind.TheVariants.{OutOfMemory};
ghost use Rattle.std.specs.Io.KnownBytes.{Appends};
ghost use Rattle.macsec_cli_runs.specs.declared.failures.Failure.TheVariants.{Script, Usage};
ghost use Rattle.macsec_script_parser.specs.declared.faults.ScriptFault.TheVariants.{Memory};
ghost use Rattle.macsec_cli_runs.specs.Failures.{failure_text, failure_status, told_text, told_status};

use arrayvec::ArrayVec;
use macsec_pcap::PcapFault;
use macsec_script_parser::ScriptFault;
use std::io::{self, Write};
use thiserror::Error;

/// The length in octets of the longest line that is written by one call. The line of a path of 4,096 octets fits; no
/// system opens a longer path.
const LINE_ROOM: usize = 4352;

/// Why the program fails.
#[derive(Clone, Copy, Debug, Error)]
pub enum Failure<'a> {
    /// The arguments match none of the program's forms.
    #[error("the arguments are invalid")]
    Usage,
    /// The file at this path can't be opened.
    #[error("{0} can't be opened")]
    CannotOpen(&'a str),
    /// The script, the configuration or the run has a fault, or memory ran out before the run.
    #[error(transparent)]
    Script(#[from] ScriptFault),
    /// A capture file can't be read or written.
    #[error(transparent)]
    Pcap(#[from] PcapFault),
}

impl Failure<'_> {
    /// Writes the line of the failure.
    fn tell<W: Write>(self, writer: &mut W) -> io::Result<()>
        ensures { OnOk result (Appends (W.contents writer.old) (W.contents writer.new) (failure_text self.entry)) }
    {
        match self {
            Failure::Usage => writeln!(writer, "macsec: usage"),
            Failure::CannotOpen(path) => writeln!(writer, "macsec: cannot open {path}"),
            Failure::Script(fault) => fault.tell(writer),
            Failure::Pcap(fault) => {
                let name = fault.name();
                writeln!(writer, "macsec: pcap {name}")
            }
        }
    }

    /// Writes the line of the failure by one call, without allocating. A line that is too long for the buffer is
    /// written in pieces.
    fn tell_at_once<W: Write>(self, writer: &mut W) -> io::Result<()>
        ensures { OnOk result (Appends (W.contents writer.old) (W.contents writer.new) (failure_text self.entry)) }
    {
        let mut line: ArrayVec<u8, LINE_ROOM> = ArrayVec::new();
        match self.tell(&mut line) {
            Ok(()) => writer.write_all(line.as_slice()),
            Err(_) => self.tell(writer),
        }
    }

    /// The exit status: 2 if the arguments are invalid or the script has a fault, else 1.
    fn status(self) -> u8
        ensures { result ≡ failure_status self.entry }
    {
        match self {
            Failure::Usage => 2,
            Failure::CannotOpen(_) | Failure::Pcap(_) => 1,
            Failure::Script(fault) => fault.status(),
        }
    }
}

/// Why the arguments can't be read: memory ran out, or an argument is not UTF-8.
pub fn failure_of_words<'a>(error: &io::Error) -> Failure<'a>
    ensures memory { error_kind error.now ≡ OutOfMemory → result ≡ Script Memory }
    ensures usage { error_kind error.now ≢ OutOfMemory → result ≡ Usage }
{
    if error.kind() == io::ErrorKind::OutOfMemory {
        Failure::Script(ScriptFault::Memory)
    } else {
        Failure::Usage
    }
}

/// Reports the result of the program: writes the line of its failure, if it failed. Returns the exit status, which is 0
/// if it did not fail, and whether the line was written.
pub fn tell<W: Write>(writer: &mut W, ended: Result<(), Failure<'_>>) -> (u8, io::Result<()>)
    ensures status { result.0 ≡ told_status ended.entry }
    ensures line { OnOk result.1 (Appends (W.contents writer.old) (W.contents writer.new) (told_text ended.entry)) }
{
    match ended {
        Ok(()) => (0, Ok(())),
        Err(failure) => (failure.status(), failure.tell_at_once(writer)),
    }
}
