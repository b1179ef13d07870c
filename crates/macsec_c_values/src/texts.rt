//! The texts of answers.

ghost use Rattle.std.specs.Prelude.{◌≡◌, IfOk};
ghost use Rattle.macsec_secy.specs.Answers.{output_of_command};
ghost use Rattle.macsec_script_parser.specs.Faults.{fault_text};
ghost use Rattle.macsec_script_parser.specs.Scripts.{at_line};
ghost use Rattle.macsec_script_printer.specs.Counters.{counters_text};
ghost use Rattle.macsec_script_printer.specs.declared.counters.Label.TheVariants as label;
ghost use Rattle.macsec_script_printer.specs.Numbers.{numbers_text};
ghost use Rattle.macsec_script_printer.specs.OneEnd.{command_text};

use arrayvec::ArrayString;
use itoa::Buffer;
use macsec_script_parser::{LineFault, ScriptFault, at_line};
use macsec_script_printer::{Label, print_counters, print_numbers, refusal_name, write_fault};
use macsec_secy::{Refusal, Secy};
use std::alloc::Global;

/// The text of a management command's outcome as line `n`. It is in the value itself, so no memory can run out once
/// the command is carried out.
pub fn command_text(n: u32, outcome: Result<(), Refusal>) -> ArrayString<64>
    ensures { result.bytes ≡ command_text n (output_of_command outcome) }
{
    let mut text = ArrayString::new();
    let mut digits = Buffer::new();
    text.push_str(digits.format(n));
    match outcome {
        Ok(()) => text.push_str(" done\n"),
        Err(refusal) => {
            text.push_str(" refused ");
            let mut digits = Buffer::new();
            text.push_str(digits.format(refusal.number()));
            text.push_str(" ");
            text.push_str(refusal_name(refusal));
            text.push_str("\n");
        }
    }
    text
}

/// The text of the counters of an endpoint as line `n`.
pub fn counters_text(alloc: Global, n: u32, endpoint: &Secy) -> Result<Vec<u8>, ScriptFault>
    ensures { IfOk result (λ text. text.items ≡ counters_text (label.Line n) endpoint.now) }
{
    let mut text = Vec::new(alloc);
    print_counters(&mut text, Label::Line(n), endpoint)?;
    Ok(text)
}

/// The text of the packet numbers of an endpoint as line `n`.
pub fn numbers_text(alloc: Global, n: u32, endpoint: &Secy) -> Result<Vec<u8>, ScriptFault>
    ensures { IfOk result (λ text. text.items ≡ numbers_text n endpoint.now) }
{
    let mut text = Vec::new(alloc);
    print_numbers(&mut text, n, endpoint)?;
    Ok(text)
}

/// The text of a fault of line `n`.
pub fn fault_text(alloc: Global, n: u32, fault: LineFault) -> Result<Vec<u8>, ScriptFault>
    ensures { IfOk result (λ text. text.items ≡ fault_text (at_line n fault)) }
{
    let mut text = Vec::new(alloc);
    write_fault(at_line(n, fault).tell(&mut text))?;
    Ok(text)
}
