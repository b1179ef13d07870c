//! The writer of capture files.

ghost use Rattle.std.specs.Prelude.{◌≡◌, IfErr, IfOk, None, OnErr, OnOk};
ghost use Rattle.std.specs.Result.{result_err};
ghost use Rattle.std.specs.Io.KnownBytes.{Appends};
ghost use Rattle.macsec_writes.specs.Fronts.{AppendsFront};
ghost use Rattle.macsec_pcap.specs.Writing.{Writes, WritesRecord, contents, fault_of, lent};
ghost use Rattle.macsec_pcap.specs.Written.{header_octets, record_head};

use crate::PcapFault;
use crate::form::Resolution;
use crate::header::{ETHERNET, HEADER_LEN, VERSION};
use crate::records::{MAX_RECORD_LEN, RECORD_HEADER_LEN};
use byteorder::{ByteOrder, LittleEndian};
use macsec_writes::write_octets;
use std::io::Write;

/// The snapshot length of a written file.
const SNAPSHOT_LEN: u32 = 65_535;

/// Writes a capture file of whole frames, record by record: little endian, version 2.4, link type Ethernet. Does not
/// allocate.
#[derive(Drop)]
pub struct PcapWriter<'a, W: Write> {
    destination: &'a mut W,
    fault: Option<PcapFault>,
}

impl<'a, W: Write> PcapWriter<'a, W> {
    /// Writes the header of a file with times in this unit, or returns `Write`.
    pub fn new(
        destination: &'a mut W,
        resolution: Resolution,
    ) -> Result<PcapWriter<'a, W>, PcapFault>
        ensures lent { IfOk result (λ writer. (lent writer).ghost_name ≡ destination.entry.ghost_name) }
        ensures header { IfOk result (λ writer. Appends (W.contents destination.old) (contents W.contents writer) (header_octets resolution)) }
        ensures no_fault { IfOk result (λ writer. fault_of writer ≡ None) }
        ensures fault { IfErr result (λ fault. fault ≡ PcapFault.Write) }
    {
        write_header(destination, resolution)?;
        Ok(PcapWriter::behind_header(destination))
    }

    /// A writer of the records of a file whose header is already written.
    pub fn behind_header(destination: &'a mut W) -> PcapWriter<'a, W>
        ensures lent { (lent result).ghost_name ≡ destination.entry.ghost_name }
        ensures header { contents W.contents result ≡ W.contents destination.old }
        ensures no_fault { fault_of result ≡ None }
    {
        PcapWriter {
            destination,
            fault: None,
        }
    }

    /// Writes a record of this time and of this frame, of at most `MAX_RECORD_LEN` octets. For a longer frame returns
    /// `RecordLength`, and writes nothing. Returns `Write` if a write fails, and then at most a prefix of the record
    /// was written. After a fault every later call returns the same fault, and writes nothing.
    pub fn write(&mut self, seconds: u32, fraction: u32, frame: &[u8]) -> Result<(), PcapFault>
        ensures lent { (lent self.new).ghost_name ≡ (lent self.old).ghost_name }
        ensures written { Writes (fault_of self.old) (contents W.contents self.old) (contents W.contents self.new) seconds fraction frame.now result }
        ensures fault { fault_of self.new ≡ result_err result }
    {
        if let Some(fault) = self.fault {
            return Err(fault);
        }
        let written = write_record(self.destination, seconds, fraction, frame);
        self.fault = written.err();
        written
    }
}

/// Writes the header of a file with times in this unit. Returns `Write` if a write fails, and then at most a prefix of
/// the header was written.
pub fn write_header<W: Write>(destination: &mut W, resolution: Resolution) -> Result<(), PcapFault>
    ensures whole { OnOk result (Appends (W.contents destination.old) (W.contents destination.new) (header_octets resolution)) }
    ensures fault { IfErr result (λ fault. fault ≡ PcapFault.Write) }
    ensures cut { OnErr result (AppendsFront (W.contents destination.old) (W.contents destination.new) (header_octets resolution)) }
{
    write_piece(destination, &header(resolution))
}

/// Writes a record, if its frame isn't too long.
fn write_record<W: Write>(
    destination: &mut W,
    seconds: u32,
    fraction: u32,
    frame: &[u8],
) -> Result<(), PcapFault>
    ensures { WritesRecord (W.contents destination.old) (W.contents destination.new) seconds fraction frame.now result }
{
    if frame.len() > MAX_RECORD_LEN {
        return Err(PcapFault::RecordLength);
    }
    let head = record_head(seconds, fraction, frame.len() as u32);
    write_piece(destination, &head)?;
    write_piece(destination, frame)
}

/// Writes these octets. Returns `Write` if a write fails, and then at most a prefix of them was written.
#[inline(always)]
fn write_piece<W: Write>(destination: &mut W, octets: &[u8]) -> Result<(), PcapFault>
    ensures whole { OnOk result (Appends (W.contents destination.old) (W.contents destination.new) octets.now) }
    ensures fault { IfErr result (λ fault. fault ≡ PcapFault.Write) }
    ensures cut { OnErr result (AppendsFront (W.contents destination.old) (W.contents destination.new) octets.now) }
{
    match write_octets(destination, octets) {
        Ok(()) => Ok(()),
        Err(_) => Err(PcapFault::Write),
    }
}

/// The header of a file with times in this unit.
fn header(resolution: Resolution) -> [u8; HEADER_LEN]
    ensures { result ≡ header_octets resolution }
{
    let mut octets = [0; HEADER_LEN];
    LittleEndian::write_u32(&mut octets, resolution.magic());
    LittleEndian::write_u16(&mut octets[4..], VERSION.0);
    LittleEndian::write_u16(&mut octets[6..], VERSION.1);
    LittleEndian::write_u32(&mut octets[16..], SNAPSHOT_LEN);
    LittleEndian::write_u32(&mut octets[20..], ETHERNET);
    octets
}

/// The numbers in a record before its frame.
fn record_head(seconds: u32, fraction: u32, len: u32) -> [u8; RECORD_HEADER_LEN]
    ensures { result ≡ record_head seconds fraction len }
{
    let mut octets = [0; RECORD_HEADER_LEN];
    LittleEndian::write_u32(&mut octets, seconds);
    LittleEndian::write_u32(&mut octets[4..], fraction);
    LittleEndian::write_u32(&mut octets[8..], len);
    LittleEndian::write_u32(&mut octets[12..], len);
    octets
}
