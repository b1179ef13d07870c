//! A run over named files: a configuration, a capture file to read and one to write.

ghost use Rattle.std.specs.Prelude.{◌≡◌, IfSome, IfErr};
ghost use Rattle.macsec_capture.specs.Captured.{captured};
ghost use Rattle.macsec_capture.specs.Runs.{CaptureGives, LeavesBoth, RunsSome};
ghost use Rattle.macsec_cli_runs.specs.Captures.{CaptureFailsAs, LeavesLines, Reports, RunsFiles, capture_end, failure_of, reported};

use crate::failures::Failure;
use macsec_capture::{CaptureFault, Direction, run_capture};
use macsec_pcap::PcapFault;
use macsec_script_parser::ScriptFault;
use std::alloc::Global;
use std::fs;
use std::io::{self, BufReader, BufWriter, Read, Write};
use std::rt::Files;

/// The paths of the three files of a capture.
#[derive(Clone, Copy)]
pub struct CapturePaths<'a> {
    /// The configuration of the endpoint.
    pub config: &'a str,
    /// The capture file that is read.
    pub input: &'a str,
    /// The capture file that is written.
    pub output: &'a str,
}

/// The fault of a run, if it has one, else the fault of the text's flush.
fn capture_end(done: Result<(), CaptureFault>, text: io::Result<()>) -> Result<(), CaptureFault>
    ensures { result ≡ capture_end done text }
{
    done?;
    match text {
        Ok(()) => Ok(()),
        Err(_) => Err(CaptureFault::Script(ScriptFault::Write)),
    }
}

/// The failure of the program for a fault of a run.
fn failure_of<'a>(fault: CaptureFault) -> Failure<'a>
    ensures { result ≡ failure_of fault }
{
    match fault {
        CaptureFault::Script(fault) => Failure::Script(fault),
        CaptureFault::Pcap(fault) => Failure::Pcap(fault),
    }
}

/// The result of the program for the result of a run.
fn reported<'a>(done: Result<(), CaptureFault>) -> Result<(), Failure<'a>>
    ensures { result ≡ reported done }
{
    match done {
        Ok(()) => Ok(()),
        Err(fault) => Err(failure_of(fault)),
    }
}

/// Runs a capture like `run_capture`, which flushes the output, and then flushes the text.
fn run_and_flush<'a, C: Read, R: Read, W: Write, T: Write>(
    alloc: Global,
    wide: bool,
    direction: Direction,
    config: &mut C,
    input: &mut R,
    output: &mut W,
    text: &mut T,
) -> Result<(), Failure<'a>>
    ensures run { Reports result (λ done. IfSome (C.remaining config.old) (λ config. IfSome (R.remaining input.old) (λ file.
        CaptureGives (captured direction config file) (record { output = W.contents output.old; text = T.contents text.old })
        (record { output = W.contents output.new; text = T.contents text.new }) done))) }
    ensures some { Reports result (RunsSome direction (C.remaining config.old) (record { output = W.contents output.old; text = T.contents text.old })
        (record { output = W.contents output.new; text = T.contents text.new })) }
    ensures unwritten { Reports result (λ done. IfErr done (LeavesBoth (record { output = W.contents output.old; text = T.contents text.old })
        (record { output = W.contents output.new; text = T.contents text.new }))) }
{
    let done = run_capture(alloc, wide, direction, config, input, output, text);
    let flushed = text.flush();
    reported(capture_end(done, flushed))
}

/// Runs a capture like `run_capture` over the files at these paths, with buffers, and flushes output and text. First
/// the files are opened in the order of their fields; the output is truncated.
pub fn capture_named<'a, H: Files, T: Write>(
    rt: &H,
    alloc: Global,
    wide: bool,
    direction: Direction,
    paths: CapturePaths<'a>,
    text: &mut T,
) -> Result<(), Failure<'a>>
    ensures run { RunsFiles direction (T.contents text.old) (T.contents text.new) result }
    ensures failure { IfErr result (CaptureFailsAs paths.entry) }
    ensures unwritten { IfErr result (LeavesLines (T.contents text.old) (T.contents text.new)) }
{
    let Ok(mut config) = fs::open(rt, paths.config) else {
        return Err(Failure::CannotOpen(paths.config));
    };
    let Ok(input) = fs::open(rt, paths.input) else {
        return Err(Failure::CannotOpen(paths.input));
    };
    let Ok(output) = fs::create(rt, paths.output) else {
        return Err(Failure::CannotOpen(paths.output));
    };
    let (Ok(mut input), Ok(mut output)) = (
        BufReader::new(alloc, input),
        BufWriter::new(alloc, output),
    ) else {
        return Err(Failure::Pcap(PcapFault::Memory));
    };
    run_and_flush(
        alloc,
        wide,
        direction,
        &mut config,
        &mut input,
        &mut output,
        text,
    )
}
