//! A run over a capture file: from the input to the output, by a configuration, with a line of text for each record.

ghost use Rattle.std.specs.Prelude.{◌≡◌, ℕ, List, IfErr, IfSome, Ok, Result};
ghost use Rattle.macsec_secy.specs.Sound.{IsSound};
ghost use Rattle.macsec_pcap.specs.declared.fault.PcapFault.{PcapFault};
ghost use Rattle.macsec_pcap.specs.Captures.{CaptureFile};
ghost use Rattle.macsec_pcap.specs.Limits.{max_records};
ghost use Rattle.macsec_pcap.specs.Reading.{opened};
ghost use Rattle.macsec_pcapng.specs.Captures.{captures_of};
ghost use Rattle.macsec_capture.specs.Captured.{captured, captured_after, captured_at, nothing};
ghost use Rattle.macsec_capture.specs.Runs.{CaptureGives, IsAfterConfig, IsLateFault, JudgesConfig, LeavesBoth, RunsOverSome, RunsSome, TakesFile, as_read, flushed_end, known};
ghost use Rattle.macsec_capture.specs.Outputs.{BorrowsSame, written};

use crate::commands::{endpoint_of, run_commands};
use crate::outputs::Outputs;
use crate::records::run_records;
use crate::{CaptureFault, Direction};
use macsec_commands::Command;
use macsec_pcap::{PcapFault, PcapWriter, write_header};
use macsec_pcapng::CaptureReader;
use macsec_pcapng::laws::faults_are_of_format;
use macsec_script_parser::{CheckedEnd, ScriptFault, parse_config, read_text};
use macsec_script_printer::{Label, print_counters};
use macsec_secy::Secy;
use std::alloc::Global;
use std::io::{self, Read, Write};

/// Runs an endpoint over a capture file. Reads the whole configuration, and does what `run_config` does with its octets.
/// Returns its first fault; `Script(Read)` if the configuration can't be read, and then nothing was written. `wide` is
/// what `Secy::prefer_wide` takes.
pub fn run_capture<C: Read, R: Read, W: Write, T: Write>(
    alloc: Global,
    wide: bool,
    direction: Direction,
    config: &mut C,
    input: &mut R,
    output: &mut W,
    text: &mut T,
) -> Result<(), CaptureFault>
    ensures run { IfSome (C.remaining config.old) (λ config. IfSome (R.remaining input.old) (λ file.
        CaptureGives (captured direction config file) (known (W.contents output.old) (T.contents text.old)) (known (W.contents output.new) (T.contents text.new)) result)) }
    ensures some { RunsSome direction (C.remaining config.old) (known (W.contents output.old) (T.contents text.old)) (known (W.contents output.new) (T.contents text.new)) result }
    ensures unwritten { IfErr result (LeavesBoth (known (W.contents output.old) (T.contents text.old)) (known (W.contents output.new) (T.contents text.new))) }
{
    let config = read_text(alloc, config)?;
    run_config(
        alloc,
        wide,
        direction,
        config.as_slice(),
        input,
        output,
        text,
    )
}

/// Runs an endpoint over a capture file, by the octets of a configuration. Parses the whole configuration, carries out
/// its commands and prints their outcomes. Then reads the header of the input, writes the output's header, and takes
/// the records in order, as `run_records` does. After the records the output is flushed, even if one of them failed;
/// the text is not flushed. Last, prints the endpoint's counters.
///
/// Returns the first fault:
/// - a fault of the configuration: nothing was written;
/// - a fault of the input's format: all that comes before it was written;
/// - `Memory`, `Read` or `Write`: in `Script` for the configuration and the text, in `Pcap` for the input and the
///   output.
///
/// With a fault in `Pcap` there are no counters. A run has a stop after the commands, one after the output's header,
/// and one after each record. With `Pcap(Memory)` and `Pcap(Read)` both writers are at the same stop. With
/// `Pcap(Write)` the text is at a stop, and the output has all of the stop before it and maybe more of what this one
/// has. With `Script(Write)` the output is at a stop.
///
/// The stop at `Pcap(Read)` is the one after the last record that was read. `run_records` has a clause of this. Here
/// only the octets that `input` has left could show which record that is, and `CaptureReader` has no clause on these.
pub fn run_config<R: Read, W: Write, T: Write>(
    alloc: Global,
    wide: bool,
    direction: Direction,
    config: &[u8],
    input: &mut R,
    output: &mut W,
    text: &mut T,
) -> Result<(), CaptureFault>
    ensures config { JudgesConfig config.now result }
    ensures run { IfSome (R.remaining input.old) (λ file.
        CaptureGives (captured direction config.now file) (known (W.contents output.old) (T.contents text.old)) (known (W.contents output.new) (T.contents text.new)) result) }
    ensures some { RunsOverSome direction config.now (known (W.contents output.old) (T.contents text.old)) (known (W.contents output.new) (T.contents text.new)) result }
    ensures unwritten { IfErr result (LeavesBoth (known (W.contents output.old) (T.contents text.old)) (known (W.contents output.new) (T.contents text.new))) }
{
    let config = parse_config(alloc, config)?;
    let mut outputs = Outputs { output, text };
    run_configured(
        alloc,
        wide,
        direction,
        config.end,
        config.commands.as_slice(),
        input,
        &mut outputs,
    )
}

/// Creates an endpoint of this configuration, carries out its commands, and runs it over a capture file.
fn run_configured<R: Read, W: Write, T: Write>(
    alloc: Global,
    wide: bool,
    direction: Direction,
    end: CheckedEnd,
    commands: &[(u32, Command)],
    input: &mut R,
    outputs: &mut Outputs<'_, W, T>,
) -> Result<(), CaptureFault>
    ensures lent { BorrowsSame outputs.old outputs.new }
    ensures run { IfSome (R.remaining input.old) (λ file.
        CaptureGives (captured_at direction (record { end = end; commands = commands.now }) (captures_of file)) (written W.contents T.contents outputs.old)
        (written W.contents T.contents outputs.new) result) }
    ensures some { (file : Result CaptureFile PcapFault) ×
        CaptureGives (captured_at direction (record { end = end; commands = commands.now }) file) (written W.contents T.contents outputs.old)
        (written W.contents T.contents outputs.new) (as_read result) }
    ensures fault { IfErr result IsAfterConfig }
    ensures unwritten { IfErr result (LeavesBoth (written W.contents T.contents outputs.old) (written W.contents T.contents outputs.new)) }
{
    let mut endpoint = endpoint_of(alloc, wide, end)?;
    run_commands(&mut endpoint, outputs.text, commands)?;
    run_file(alloc, direction, &mut endpoint, input, outputs)
}

/// Runs an endpoint over a capture file.
fn run_file<R: Read, W: Write, T: Write>(
    alloc: Global,
    direction: Direction,
    endpoint: &mut Secy,
    input: &mut R,
    outputs: &mut Outputs<'_, W, T>,
) -> Result<(), CaptureFault>
    requires sound { IsSound endpoint.old }
    ensures lent { BorrowsSame outputs.old outputs.new }
    ensures run { IfSome (R.remaining input.old) (λ file.
        CaptureGives (captured_after direction (nothing endpoint.old) (captures_of file)) (written W.contents T.contents outputs.old)
        (written W.contents T.contents outputs.new) result) }
    ensures some { (file : Result CaptureFile PcapFault) ×
        CaptureGives (captured_after direction (nothing endpoint.old) file) (written W.contents T.contents outputs.old)
        (written W.contents T.contents outputs.new) (as_read result) }
    ensures fault { IfErr result IsLateFault }
{
    // A law that the proof cites.
    faults_are_of_format();
    let mut reader = CaptureReader::new(alloc, input)?;
    run_opened(direction, endpoint, &mut reader, outputs)
}

/// Runs an endpoint over a capture file whose header was read, and prints its counters.
fn run_opened<R: Read, W: Write, T: Write>(
    direction: Direction,
    endpoint: &mut Secy,
    reader: &mut CaptureReader<R>,
    outputs: &mut Outputs<'_, W, T>,
) -> Result<(), CaptureFault>
    requires sound { IsSound endpoint.old }
    requires places { reader.old.places ≡ max_records }
    ensures lent { BorrowsSame outputs.old outputs.new }
    ensures run { (octets : List ℕ) (file : CaptureFile) → captures_of octets ≡ Ok file → reader.old ≡ opened file →
        CaptureGives (captured_after direction (nothing endpoint.old) (Ok file)) (written W.contents T.contents outputs.old) (written W.contents T.contents outputs.new) result }
    ensures some { (file : CaptureFile) ×
        CaptureGives (captured_after direction (nothing endpoint.old) (Ok file)) (written W.contents T.contents outputs.old)
        (written W.contents T.contents outputs.new) (as_read result) }
    ensures fault { IfErr result IsLateFault }
{
    write_and_flush(direction, endpoint, reader, outputs)?;
    print_counters(outputs.text, Label::End, endpoint)?;
    Ok(())
}

/// Writes the output and flushes it, even if a write failed.
fn write_and_flush<R: Read, W: Write, T: Write>(
    direction: Direction,
    endpoint: &mut Secy,
    reader: &mut CaptureReader<R>,
    outputs: &mut Outputs<'_, W, T>,
) -> Result<(), CaptureFault>
    requires sound { IsSound endpoint.old }
    requires places { reader.old.places ≡ max_records }
    ensures lent { BorrowsSame outputs.old outputs.new }
    ensures run { (octets : List ℕ) (file : CaptureFile) → captures_of octets ≡ Ok file → reader.old ≡ opened file →
        TakesFile direction endpoint.old file (written W.contents T.contents outputs.old) (written W.contents T.contents outputs.new) endpoint.new result }
    ensures some { (file : CaptureFile) ×
        TakesFile direction endpoint.old file (written W.contents T.contents outputs.old) (written W.contents T.contents outputs.new) endpoint.new (as_read result) }
    ensures fault { IfErr result IsLateFault }
{
    let written = write_output(direction, endpoint, reader, outputs);
    let flushed = outputs.output.flush();
    records_end(written, flushed)
}

/// The fault of the records, if they have one, else the fault of the flush.
fn records_end(
    written: Result<(), CaptureFault>,
    flushed: io::Result<()>,
) -> Result<(), CaptureFault>
    ensures { result ≡ flushed_end written flushed }
{
    written?;
    match flushed {
        Ok(()) => Ok(()),
        Err(_) => Err(CaptureFault::Pcap(PcapFault::Write)),
    }
}

/// Writes the header of the output, and takes the records.
fn write_output<R: Read, W: Write, T: Write>(
    direction: Direction,
    endpoint: &mut Secy,
    reader: &mut CaptureReader<R>,
    outputs: &mut Outputs<'_, W, T>,
) -> Result<(), CaptureFault>
    requires sound { IsSound endpoint.old }
    requires places { reader.old.places ≡ max_records }
    ensures lent { BorrowsSame outputs.old outputs.new }
    ensures run { (octets : List ℕ) (file : CaptureFile) → captures_of octets ≡ Ok file → reader.old ≡ opened file →
        TakesFile direction endpoint.old file (written W.contents T.contents outputs.old) (written W.contents T.contents outputs.new) endpoint.new result }
    ensures some { (file : CaptureFile) ×
        TakesFile direction endpoint.old file (written W.contents T.contents outputs.old) (written W.contents T.contents outputs.new) endpoint.new (as_read result) }
    ensures fault { IfErr result IsLateFault }
{
    // A law that the proof cites.
    faults_are_of_format();
    write_header(outputs.output, reader.resolution())?;
    let mut writer = PcapWriter::behind_header(outputs.output);
    run_records(direction, endpoint, reader, &mut writer, outputs.text)
}
