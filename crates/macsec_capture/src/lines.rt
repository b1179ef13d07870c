//! The line that is printed for each record of a capture.

ghost use Rattle.std.specs.Prelude.{◌≡◌, OnOk, option_copied};
ghost use Rattle.std.specs.Io.KnownBytes.{Appends};
ghost use Rattle.macsec_secy.specs.Answers.{output_of_received, output_of_sent};
ghost use Rattle.macsec_secy.specs.Step.{fault};
ghost use Rattle.macsec_capture.specs.Lines.{frame_fault_name, frame_line, link_type_line, partial_line, verdict_line};

use macsec_script_printer::drop_text;
use macsec_secy::{FrameFault, Received, Sent, Verdict};
use std::io::{self, Write};

fn frame_fault_name(fault: FrameFault) -> &'static str
    ensures { result.now ≡ frame_fault_name fault }
{
    match fault {
        FrameFault::Short => "Short",
        FrameFault::Long => "Long",
    }
}

/// Writes the line of a record whose frame was captured only in part.
pub(crate) fn write_partial<T: Write>(text: &mut T, k: u32) -> io::Result<()>
    ensures { OnOk result (Appends (T.contents text.old) (T.contents text.new) (partial_line k)) }
{
    writeln!(text, "record {k} partial")
}

/// Writes the line of a packet of the other link type of this number.
pub(crate) fn write_link_type<T: Write>(text: &mut T, k: u32, number: u16) -> io::Result<()>
    ensures { OnOk result (Appends (T.contents text.old) (T.contents text.new) (link_type_line k number)) }
{
    writeln!(text, "record {k} linktype {number}")
}

/// Writes the line of a frame that has a fault: the fault's number and its name.
fn write_fault<T: Write>(text: &mut T, k: u32, why: FrameFault) -> io::Result<()>
    ensures { OnOk result (Appends (T.contents text.old) (T.contents text.new) (frame_line k (fault why))) }
{
    let number = why.number();
    let name = frame_fault_name(why);
    writeln!(text, "record {k} fault {number} {name}")
}

/// Writes the line of a client frame: the length in octets of the frame that is sent for it, or why none is sent.
pub(crate) fn write_sent<T: Write>(
    text: &mut T,
    k: u32,
    sent: &Result<Sent<'_>, FrameFault>,
) -> io::Result<()>
    ensures { OnOk result (Appends (T.contents text.old) (T.contents text.new) (frame_line k (output_of_sent sent.now))) }
{
    match sent {
        Ok(Sent::Link { frame, .. }) => {
            let len = frame.len();
            writeln!(text, "record {k} link {len}")
        }
        Ok(Sent::Dropped(reason)) => {
            let name = drop_text(*reason);
            writeln!(text, "record {k} dropped {name}")
        }
        Err(fault) => write_fault(text, k, *fault),
    }
}

/// Writes the line of a verdict, with the number of octets delivered if a frame is.
fn write_verdict<T: Write>(
    text: &mut T,
    k: u32,
    verdict: Verdict,
    controlled: Option<&[u8]>,
) -> io::Result<()>
    ensures { OnOk result (Appends (T.contents text.old) (T.contents text.new) (verdict_line k verdict (option_copied controlled.entry))) }
{
    let name = verdict.name();
    match controlled {
        Some(frame) => {
            let len = frame.len();
            writeln!(text, "record {k} {name} {len}")
        }
        None => writeln!(text, "record {k} {name}"),
    }
}

/// Writes the line of a link frame: its verdict, and the number of octets delivered at the controlled port, if a frame
/// is.
pub(crate) fn write_received<T: Write>(
    text: &mut T,
    k: u32,
    received: &Result<Received<'_>, FrameFault>,
) -> io::Result<()>
    ensures { OnOk result (Appends (T.contents text.old) (T.contents text.new) (frame_line k (output_of_received received.now))) }
{
    match received {
        Ok(received) => write_verdict(text, k, received.verdict, received.controlled),
        Err(fault) => write_fault(text, k, *fault),
    }
}
