//! Answers a line.

ghost use Rattle.std.specs.Prelude.{◌≡◌, ◌≤◌, ◌++◌, ℕ, List, IfOk, drop, length, max, true};
ghost use Rattle.macsec_commands.specs.declared.event.End.TheVariants.{A};
ghost use Rattle.macsec_ahead.specs.Ahead.{Ahead};
ghost use Rattle.macsec_script_parser.specs.Kinds.{tells};
ghost use Rattle.macsec_secy.specs.Answers.{output_of_command};
ghost use Rattle.macsec_c_calls.specs.declared.answering.Ending.TheVariants.{Wrong};
ghost use Rattle.macsec_c_calls.specs.Answers.{Answer, answer_of_line, ending_of_output, shown, status_of_ending};
ghost use Rattle.macsec_c_calls.specs.Answers.{wrong};
ghost use Rattle.macsec_c_calls.specs.Writing.{Answers, Writes, is_answered, min_answer_len};

use macsec_ahead::AheadKeeper;
use macsec_c_values::texts::{command_text, counters_text, fault_text, numbers_text};
use macsec_c_values::{ANSWER_LONG, DONE, status_of_line_fault};
use macsec_commands::{Command, End, Event};
use macsec_script_parser::{Action, Line, LineFault, ScriptFault, parse_line};
use macsec_secy::Refusal;
use std::alloc::Global;

/// The fewest octets of a buffer for an answer.
const MIN_ANSWER_LEN: usize = 64;

/// How a line ends.
#[derive(Clone, Copy)]
pub enum Ending {
    /// It was carried out, or what it asks for is shown, or it is skipped.
    Done,
    /// Its command was refused.
    Refused(Refusal),
    /// It has this fault, or memory ran out.
    Wrong(LineFault),
    /// The buffer is too small for its answer.
    TooLong,
}

impl Ending {
    /// The status.
    pub fn status(self) -> u32
        ensures { result ≡ status_of_ending self }
    {
        match self {
            Ending::Done => DONE,
            Ending::Refused(refusal) => u32::from(refusal.number()),
            Ending::Wrong(fault) => status_of_line_fault(fault),
            Ending::TooLong => ANSWER_LONG,
        }
    }
}

/// What is written for a line.
#[derive(Clone, Copy)]
pub struct Answered {
    /// How the line ends.
    pub ending: Ending,
    /// The number of octets that are written. If the buffer is too small, the number that the answer needs.
    pub length: usize,
}

/// Answers line `n` with this text, without its line feed: carries out its command at end A, or shows counters or
/// packet numbers. Writes what a script prints for the line to the beginning of the buffer. Changes nothing if the line
/// is wrong or not about end A alone, if the buffer is too small, or if memory runs out.
pub fn answer(
    alloc: Global,
    endpoint: &mut AheadKeeper,
    n: u32,
    text: &[u8],
    out: &mut [u8],
) -> Answered
    ensures { Answers endpoint.old n text.now out.old result out.new endpoint.new }
{
    match parse_line(alloc, text) {
        Ok(Some(line)) => answer_line(alloc, endpoint, n, &line, out),
        Ok(None) => write_answer(out, Ending::Done, &[]),
        Err(LineFault::Memory) => out_of_memory(),
        Err(fault) => answer_fault(alloc, n, fault, out),
    }
}

/// Answers line `n`.
fn answer_line(
    alloc: Global,
    endpoint: &mut AheadKeeper,
    n: u32,
    line: &Line,
    out: &mut [u8],
) -> Answered
    ensures { Writes endpoint.old (answer_of_line endpoint.old n line.now) out.old result out.new endpoint.new }
{
    match line {
        Line::Action(Action::Event(Event::Command(End::A, command))) => answer_command(
            endpoint, n, command, out,
        ),
        Line::Action(Action::Counters(End::A)) => answer_shown(
            out,
            counters_text(alloc, n, endpoint.keeper().secy()),
        ),
        Line::Action(Action::Numbers(End::A)) => answer_shown(
            out,
            numbers_text(alloc, n, endpoint.keeper().secy()),
        ),
        _ => answer_fault(alloc, n, LineFault::Ends, out),
    }
}

/// Answers a management command of line `n`.
fn answer_command(endpoint: &mut AheadKeeper, n: u32, command: &Command, out: &mut [u8]) -> Answered
    ensures { Writes endpoint.old (answer_of_line endpoint.old n (tells A command.now)) out.old result out.new
        endpoint.new }
{
    if out.len() < MIN_ANSWER_LEN {
        return Answered {
            ending: Ending::TooLong,
            length: MIN_ANSWER_LEN,
        };
    }
    let outcome = endpoint.command_renewing(command);
    let text = command_text(n, outcome);
    let octets = text.as_str().as_bytes();
    put(out, octets);
    Answered {
        ending: ending_of(outcome),
        length: octets.len(),
    }
}

/// How a management command ends.
fn ending_of(outcome: Result<(), Refusal>) -> Ending
    ensures { result ≡ ending_of_output (output_of_command outcome) }
{
    match outcome {
        Ok(()) => Ending::Done,
        Err(refusal) => Ending::Refused(refusal),
    }
}

/// Answers a line by this text, unless memory ran out.
fn answer_shown(out: &mut [u8], text: Result<Vec<u8>, ScriptFault>) -> Answered
    ensures { (e : Ahead) (meant : List ℕ) → IfOk text (λ t. t.items ≡ meant) →
        Writes e (shown e meant) out.old result out.new e }
{
    match text {
        Ok(text) => write_answer(out, Ending::Done, text.as_slice()),
        Err(_) => out_of_memory(),
    }
}

/// Answers a line with a fault.
fn answer_fault(alloc: Global, n: u32, fault: LineFault, out: &mut [u8]) -> Answered
    requires { is_answered (Wrong fault) ≡ true }
    ensures { (e : Ahead) → Writes e (wrong e n fault) out.old result out.new e }
{
    match fault_text(alloc, n, fault) {
        Ok(text) => write_answer(out, Ending::Wrong(fault), text.as_slice()),
        Err(_) => out_of_memory(),
    }
}

/// The answer where memory ran out.
fn out_of_memory() -> Answered
    ensures { (e : Ahead) (a : Answer) (before : List ℕ) → Writes e a before result before e }
{
    Answered {
        ending: Ending::Wrong(LineFault::Memory),
        length: 0,
    }
}

/// Writes an answer that changes nothing, if the buffer is large enough.
fn write_answer(out: &mut [u8], ending: Ending, text: &[u8]) -> Answered
    requires { is_answered ending ≡ true }
    ensures { (e : Ahead) → Writes e (record { ending = ending; text = text.now; after = e }) out.old result out.new e }
{
    let needed = needed_for(text);
    if out.len() < needed {
        return Answered {
            ending: Ending::TooLong,
            length: needed,
        };
    }
    put(out, text);
    Answered {
        ending,
        length: text.len(),
    }
}

/// How many octets a buffer needs for an answer of this text.
fn needed_for(text: &[u8]) -> usize
    ensures { result ≡ max min_answer_len (length text.now) }
{
    if text.len() < MIN_ANSWER_LEN {
        MIN_ANSWER_LEN
    } else {
        text.len()
    }
}

/// Writes a text to the beginning of a buffer.
fn put(out: &mut [u8], text: &[u8])
    requires { length text.now ≤ length out.old }
    ensures { out.new ≡ text.now ++ drop (length text.now) out.old }
{
    out[..text.len()].copy_from_slice(text);
}
