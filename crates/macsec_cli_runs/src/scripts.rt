//! A run of a named script: from standard input or from a file.

ghost use Rattle.std.specs.Prelude.{◌≡◌, ◌≢◌, codes, IfSome, IfErr, MatchResult, OnOk, Ok, Err};
ghost use Rattle.macsec_script_parser.specs.declared.faults.ScriptFault.TheVariants.{Write};
ghost use Rattle.macsec_cli_runs.specs.Failures.{FailsAs, LeavesOutput, NamedGives};
ghost use Rattle.macsec_cli_runs.specs.SomeText.{IsPromisedThen, NamedRunsSomeText, RunsSomeText};
ghost use Rattle.macsec_script.specs.Promised.{IsPromised};
ghost use Rattle.macsec_script.specs.Runs.{LeavesText, RunGives};

use crate::failures::Failure;
use macsec_script::run_text;
use macsec_script_parser::{ScriptFault, read_text};
use macsec_script_printer::write_fault;
use std::alloc::Global;
use std::fs;
use std::io::{self, Read, Write};
use std::rt::Files;

/// The fault of a run, if it has one, else the fault of the output's flush.
fn run_end(done: Result<(), ScriptFault>, flushed: io::Result<()>) -> Result<(), ScriptFault>
    ensures { MatchResult done (λ _. MatchResult flushed (λ _. result ≡ Ok tt) (λ _. result ≡ Err Write)) (λ fault. result ≡ Err fault) }
{
    done?;
    write_fault(flushed)
}

/// Runs a script by `run_text`, and flushes what it printed.
fn run_text_and_flush<W: Write>(
    alloc: Global,
    wide: bool,
    writer: &mut W,
    script: &[u8],
) -> Result<(), ScriptFault>
    ensures run { RunGives script.now (W.contents writer.old) (W.contents writer.new) result }
    ensures unwritten { IfErr result (λ fault. LeavesText (W.contents writer.old) (W.contents writer.new) fault) }
    ensures promised { OnOk result (IsPromised script.now) }
    ensures promised_before { IfErr result (IsPromisedThen script.now (W.contents writer.old) (W.contents writer.new)) }
{
    let done = run_text(alloc, wide, writer, script);
    let flushed = writer.flush();
    run_end(done, flushed)
}

/// Reads a script, runs it, and flushes what it printed.
fn run_read<R: Read, W: Write>(
    alloc: Global,
    wide: bool,
    reader: &mut R,
    writer: &mut W,
) -> Result<(), ScriptFault>
    ensures run { IfSome (R.remaining reader.old) (λ script. RunGives script (W.contents writer.old) (W.contents writer.new) result) }
    ensures unwritten { IfErr result (λ fault. LeavesText (W.contents writer.old) (W.contents writer.new) fault) }
    ensures promised { OnOk result (IfSome (R.remaining reader.old) IsPromised) }
    ensures some_text { RunsSomeText (W.contents writer.old) (W.contents writer.new) result }
{
    let text = read_text(alloc, reader)?;
    run_text_and_flush(alloc, wide, writer, text.as_slice())
}

/// Runs the script of this name, and flushes what it printed. The name `-` is standard input; any other is the path of
/// a file, and then standard input is not read. The script is read by `read_text` and run by `run_text`.
pub fn run_named<'a, H: Files, R: Read, W: Write>(
    rt: &H,
    alloc: Global,
    wide: bool,
    name: &'a str,
    input: &mut R,
    output: &mut W,
) -> Result<(), Failure<'a>>
    ensures run { (name.now ≡ codes "-") → IfSome (R.remaining input.old) (λ script. NamedGives script (W.contents output.old) (W.contents output.new) result) }
    ensures promised { (name.now ≡ codes "-") → OnOk result (IfSome (R.remaining input.old) IsPromised) }
    ensures some_text { NamedRunsSomeText (W.contents output.old) (W.contents output.new) result }
    ensures file { (name.now ≢ codes "-") → input.new ≡ input.old }
    ensures failure { IfErr result (FailsAs name.now) }
    ensures unwritten { IfErr result (LeavesOutput (W.contents output.old) (W.contents output.new)) }
{
    if name == "-" {
        return match run_read(alloc, wide, input, output) {
            Ok(()) => Ok(()),
            Err(fault) => Err(Failure::Script(fault)),
        };
    }
    let Ok(mut file) = fs::open(rt, name) else {
        return Err(Failure::CannotOpen(name));
    };
    match run_read(alloc, wide, &mut file, output) {
        Ok(()) => Ok(()),
        Err(fault) => Err(Failure::Script(fault)),
    }
}
