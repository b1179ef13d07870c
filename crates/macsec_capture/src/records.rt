//! The records of a capture: their frames go through the endpoint, and its frames to the output.

ghost use Rattle.std.specs.Prelude.{◌≡◌, ◌≤◌, ◌-◌, IfErr, IfSome, None, OnErr, OnOk, length, option_copied};
ghost use Rattle.macsec_secy.specs.Answers.{output_of_received, output_of_sent};
ghost use Rattle.macsec_secy.specs.Sound.{IsSound};
ghost use Rattle.macsec_secy.specs.Step.{step};
ghost use Rattle.std.specs.Io.KnownBytes.{Appends};
ghost use Rattle.macsec_pcap.specs.Answers.{shown};
ghost use Rattle.macsec_pcap.specs.Limits.{max_record_length, max_records};
ghost use Rattle.macsec_writes.specs.Fronts.{AppendsFront};
ghost use Rattle.macsec_pcap.specs.Writing.{contents, fault_of, lent};
ghost use Rattle.macsec_pcap.specs.declared.fault.PcapFault.TheVariants.{Write};
ghost use Rattle.macsec_capture.specs.declared.fault.CaptureFault.TheVariants.{Pcap};
ghost use Rattle.macsec_capture.specs.Captured.{frame_of_output, frame_part, input_of, record_of_frame, record_part};
ghost use Rattle.macsec_capture.specs.Runs.{GivesPart, IsLateFault, RunsRecords, known};

use crate::lines::{write_link_type, write_partial, write_received, write_sent};
use crate::{CaptureFault, Direction};
use macsec_pcap::{Body, MAX_RECORDS, PcapWriter, Record};
use macsec_pcapng::CaptureReader;
use macsec_script_printer::write_fault;
use macsec_secy::laws::lengths_of_frames;
use macsec_secy::{FrameFault, Received, Secy, Sent};
use std::io::{Read, Write};

/// Runs an endpoint over the records of a capture, up to its end or its fault. For each record, in order, prints its
/// line, passes its frame through the endpoint in this direction, and writes what is sent or delivered, with the
/// record's time. The line is printed before the frame is written. The endpoint was created by `Secy::new`, the reader
/// is at its first record, and the writer has not returned a fault.
///
/// Returns the first fault. If a read fails, the text and the output have what all records before it write. A write
/// fails in the last record that was read. If the write of its line fails, the output has what the records before it
/// write; if the write of its frame fails, the output also has at most a prefix of what this record writes.
pub fn run_records<R: Read, W: Write, T: Write>(
    direction: Direction,
    endpoint: &mut Secy,
    reader: &mut CaptureReader<R>,
    writer: &mut PcapWriter<'_, W>,
    text: &mut T,
) -> Result<(), CaptureFault>
    requires sound { IsSound endpoint.old }
    requires places { reader.old.places ≡ max_records }
    requires no_fault { fault_of writer.old ≡ None }
    ensures lent { (lent writer.new).ghost_name ≡ (lent writer.old).ghost_name }
    // `taken` is the number of places that the reader used. So a run that goes on after a fault takes too many records.
    ensures records { RunsRecords direction endpoint.old reader.old.ahead (reader.old.places - reader.new.places)
        (known (contents W.contents writer.old) (T.contents text.old)) (known (contents W.contents writer.new) (T.contents text.new)) endpoint.new result }
    ensures fault { IfErr result IsLateFault }
{
    for k in 0..MAX_RECORDS + 1 {
        let Some(record) = reader.next()? else {
            return Ok(());
        };
        run_record(direction, endpoint, k, &record, writer, text)?;
    }
    unreachable!()
}

/// Takes record number `k`: prints its line, and writes the frame that is sent or delivered.
fn run_record<W: Write, T: Write>(
    direction: Direction,
    endpoint: &mut Secy,
    k: u32,
    record: &Record<'_>,
    writer: &mut PcapWriter<'_, W>,
    text: &mut T,
) -> Result<(), CaptureFault>
    requires sound { IsSound endpoint.old }
    requires no_fault { fault_of writer.old ≡ None }
    ensures lent { (lent writer.new).ghost_name ≡ (lent writer.old).ghost_name }
    ensures no_fault { OnOk result (fault_of writer.new ≡ None) }
    ensures written { GivesPart (record_part direction endpoint.old k (shown «record».now)) (known (contents W.contents writer.old) (T.contents text.old))
        (known (contents W.contents writer.new) (T.contents text.new)) endpoint.new result }
    ensures sound { OnOk result (IsSound endpoint.new) }
{
    match record.body {
        Body::Partial => {
            write_fault(write_partial(text, k))?;
            Ok(())
        }
        Body::OtherLink(number) => {
            write_fault(write_link_type(text, k, number))?;
            Ok(())
        }
        Body::Whole(frame) => run_frame(direction, endpoint, k, record, frame, writer, text),
    }
}

/// Protects or validates the frame of record number `k`: prints its line, and writes what is sent or delivered.
fn run_frame<W: Write, T: Write>(
    direction: Direction,
    endpoint: &mut Secy,
    k: u32,
    record: &Record<'_>,
    frame: &[u8],
    writer: &mut PcapWriter<'_, W>,
    text: &mut T,
) -> Result<(), CaptureFault>
    requires sound { IsSound endpoint.old }
    requires no_fault { fault_of writer.old ≡ None }
    ensures lent { (lent writer.new).ghost_name ≡ (lent writer.old).ghost_name }
    ensures no_fault { OnOk result (fault_of writer.new ≡ None) }
    ensures written { GivesPart (frame_part k (shown «record».now) (step endpoint.old (input_of direction frame.now)))
        (known (contents W.contents writer.old) (T.contents text.old)) (known (contents W.contents writer.new) (T.contents text.new)) endpoint.new result }
    ensures sound { OnOk result (IsSound endpoint.new) }
{
    lengths_of_frames();
    match direction {
        Direction::Protect => {
            let sent = endpoint.send(frame);
            write_fault(write_sent(text, k, &sent))?;
            write_frame(writer, record, sent_frame(&sent))?;
            Ok(())
        }
        Direction::Validate => {
            let received = endpoint.receive(frame);
            write_fault(write_received(text, k, &received))?;
            write_frame(writer, record, delivered_frame(&received))?;
            Ok(())
        }
    }
}

/// The frame that is sent for a client frame, if any.
fn sent_frame<'a>(sent: &Result<Sent<'a>, FrameFault>) -> Option<&'a [u8]>
    ensures { option_copied result ≡ frame_of_output (output_of_sent sent.now) }
{
    match sent {
        Ok(Sent::Link { frame, .. }) => Some(frame),
        _ => None,
    }
}

/// The frame that is delivered at the controlled port, if any.
fn delivered_frame<'a>(received: &Result<Received<'a>, FrameFault>) -> Option<&'a [u8]>
    ensures { option_copied result ≡ frame_of_output (output_of_received received.now) }
{
    match received {
        Ok(received) => received.controlled,
        Err(_) => None,
    }
}

/// Writes the frame, if there is one, with the time of the record that it came from.
// Inlined, as `write_octets` is: the calls cost some 30 instructions a frame.
#[inline(always)]
fn write_frame<W: Write>(
    writer: &mut PcapWriter<'_, W>,
    record: &Record<'_>,
    frame: Option<&[u8]>,
) -> Result<(), CaptureFault>
    requires fits { IfSome (option_copied frame) (λ f. length f ≤ max_record_length) }
    requires no_fault { fault_of writer.old ≡ None }
    ensures lent { (lent writer.new).ghost_name ≡ (lent writer.old).ghost_name }
    ensures no_fault { OnOk result (fault_of writer.new ≡ None) }
    ensures output { OnOk result (Appends (contents W.contents writer.old) (contents W.contents writer.new) (record_of_frame (shown «record».now) (option_copied frame.entry))) }
    ensures fault { IfErr result (λ fault. fault ≡ Pcap Write) }
    ensures cut { OnErr result (AppendsFront (contents W.contents writer.old) (contents W.contents writer.new) (record_of_frame (shown «record».now) (option_copied frame.entry))) }
{
    let Some(frame) = frame else {
        return Ok(());
    };
    writer.write(record.seconds, record.fraction, frame)?;
    Ok(())
}
