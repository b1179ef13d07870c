//! The outcome of an event, as a script prints it.

ghost use Rattle.std.specs.Prelude.{◌≡◌, option_copied, is_some, true, IfErr, OnOk};
ghost use Rattle.std.specs.Io.KnownBytes.{Appends};
ghost use Rattle.macsec_secy.specs.Answers.{output_of_command};
ghost use Rattle.macsec_link_events.specs.declared.Outcome.TheVariants as outcome;
ghost use Rattle.macsec_script_parser.specs.declared.faults.ScriptFault.TheVariants.{Write};
ghost use Rattle.macsec_script_printer.specs.Outcomes.{drop_text, end_text, is_made, is_told, outcome_text, world_fault_name};
ghost use Rattle.macsec_script_printer.specs.OneEnd.{command_text};
ghost use Rattle.macsec_script_printer.specs.Refusals.{refusal_name};
ghost use Rattle.macsec_script_printer.specs.Printing.{Prints};

use crate::writing::{write_fault, write_hex};
use macsec_commands::Frame;
use macsec_link_events::{Outcome, WorldFault};
use macsec_script_parser::ScriptFault;
use macsec_secy::{DropReason, Refusal, Verdict};
use std::io::{self, Write};

/// The printed name of a refusal.
pub fn refusal_name(refusal: Refusal) -> &'static str
    ensures { result.now ≡ refusal_name refusal }
{
    match refusal {
        Refusal::KeyLength => "KeyLength",
        Refusal::Offset => "Offset",
        Refusal::KeyNumberUsed => "KeyNumberUsed",
        Refusal::KeyRepeated => "KeyRepeated",
        Refusal::NoKey => "NoKey",
        Refusal::KeyRetired => "KeyRetired",
        Refusal::KeyInUse => "KeyInUse",
        Refusal::OwnSci => "OwnSci",
        Refusal::ScTaken => "ScTaken",
        Refusal::ScFull => "ScFull",
        Refusal::NoSc => "NoSc",
        Refusal::AnTaken => "AnTaken",
        Refusal::NoSa => "NoSa",
        Refusal::PnRange => "PnRange",
        Refusal::PnLower => "PnLower",
        Refusal::PnFloor => "PnFloor",
        Refusal::SsciOwn => "SsciOwn",
        Refusal::Window => "Window",
        Refusal::SciForm => "SciForm",
        Refusal::Exhausted => "Exhausted",
    }
}

/// The printed reason why nothing is sent for a client frame.
pub fn drop_text(reason: DropReason) -> &'static str
    ensures { result.now ≡ drop_text reason }
{
    match reason {
        DropReason::NoSa => "NoSA",
        DropReason::TooLong => "TooLong",
    }
}

fn world_fault_name(fault: WorldFault) -> &'static str
    ensures { result.now ≡ world_fault_name fault }
{
    match fault {
        WorldFault::Memory => "Memory",
        WorldFault::NoFrame => "NoFrame",
        WorldFault::LinkFull => "LinkFull",
        WorldFault::AlterRange => "AlterRange",
        WorldFault::Short => "Short",
        WorldFault::Long => "Long",
        WorldFault::Make(_, _) => "Make",
    }
}

/// Writes the line of a refused command: the refusal's number and its name.
fn write_refused<W: Write>(writer: &mut W, line: u32, refusal: Refusal) -> io::Result<()>
    ensures { OnOk result (Appends (W.contents writer.old) (W.contents writer.new) (outcome_text line None (Ok (outcome.Refused refusal)))) }
{
    let number = refusal.number();
    let name = refusal_name(refusal);
    writeln!(writer, "{line} refused {number} {name}")
}

/// Writes the line of an event with a fault: the fault's number and its name.
fn write_world_fault<W: Write>(writer: &mut W, line: u32, fault: WorldFault) -> io::Result<()>
    ensures { OnOk result (Appends (W.contents writer.old) (W.contents writer.new) (outcome_text line None (Err fault))) }
{
    let number = fault.number();
    let name = world_fault_name(fault);
    writeln!(writer, "{line} fault {number} {name}")
}

/// Writes the octets of a frame, if there is one, and the end of the line.
fn write_end<W: Write>(writer: &mut W, octets: Option<&[u8]>) -> io::Result<()>
    ensures { OnOk result (Appends (W.contents writer.old) (W.contents writer.new) (end_text (option_copied octets.entry))) }
{
    let Some(octets) = octets else {
        return writer.write_all(b"\n");
    };
    writer.write_all(b" ")?;
    write_hex(writer, octets)?;
    writer.write_all(b"\n")
}

/// Writes the line of a link frame that was created.
fn write_made<W: Write>(writer: &mut W, line: u32, n: u32, frame: Option<&[u8]>) -> io::Result<()>
    ensures { OnOk result (Appends (W.contents writer.old) (W.contents writer.new) (outcome_text line (option_copied frame.entry) (Ok (outcome.Made n)))) }
{
    write!(writer, "{line} frame {n}")?;
    write_end(writer, frame)
}

/// Writes the line of a link frame that was received: its verdict, and what was delivered.
fn write_heard<W: Write>(
    writer: &mut W,
    line: u32,
    verdict: Verdict,
    controlled: &Option<Frame>,
) -> io::Result<()>
    ensures { OnOk result (Appends (W.contents writer.old) (W.contents writer.new) (outcome_text line None (Ok (outcome.Heard verdict controlled.now)))) }
{
    let name = verdict.name();
    write!(writer, "{line} {name}")?;
    match controlled {
        Some(frame) => write_end(writer, Some(frame.octets())),
        None => write_end(writer, None),
    }
}

fn write_outcome<W: Write>(
    writer: &mut W,
    line: u32,
    frame: Option<&[u8]>,
    outcome: &Result<Outcome, WorldFault>,
) -> io::Result<()>
    ensures { OnOk result (Appends (W.contents writer.old) (W.contents writer.new) (outcome_text line (option_copied frame.entry) outcome.now)) }
{
    match outcome {
        Ok(Outcome::Done) => writeln!(writer, "{line} done"),
        Ok(Outcome::Refused(refusal)) => write_refused(writer, line, *refusal),
        Ok(Outcome::Made(n)) => write_made(writer, line, *n, frame),
        Ok(Outcome::Dropped(reason)) => {
            let text = drop_text(*reason);
            writeln!(writer, "{line} dropped {text}")
        }
        Ok(
            Outcome::Heard {
                verdict,
                controlled,
            },
        ) => write_heard(writer, line, *verdict, controlled),
        Err(fault) => write_world_fault(writer, line, *fault),
    }
}

/// Prints the outcome of an event, as line `line` of a script shows it. `frame` is the link frame that the event
/// created, if any. The faults `Memory` and `Make` can't be printed: no line of a script shows them. Does not allocate,
/// and fails only if the writer does.
pub fn print_outcome<W: Write>(
    writer: &mut W,
    line: u32,
    frame: Option<&[u8]>,
    outcome: &Result<Outcome, WorldFault>,
) -> Result<(), ScriptFault>
    requires told { is_told outcome.now ≡ true }
    requires frame { is_some frame ≡ is_made outcome.now }
    ensures text { Prints (outcome_text line (option_copied frame.entry) outcome.now) (W.contents writer.old) (W.contents writer.new) result }
    ensures fault { IfErr result (λ fault. fault ≡ Write) }
{
    write_fault(write_outcome(writer, line, frame, outcome))
}

/// Prints the outcome of a management command, as line `line` of a script shows it. Does not allocate, and fails only
/// if the writer does.
pub fn print_command<W: Write>(
    writer: &mut W,
    line: u32,
    outcome: Result<(), Refusal>,
) -> Result<(), ScriptFault>
    ensures text { Prints (command_text line (output_of_command outcome)) (W.contents writer.old) (W.contents writer.new) result }
    ensures fault { IfErr result (λ fault. fault ≡ Write) }
{
    let outcome = match outcome {
        Ok(()) => Outcome::Done,
        Err(refusal) => Outcome::Refused(refusal),
    };
    print_outcome(writer, line, None, &Ok(outcome))
}
