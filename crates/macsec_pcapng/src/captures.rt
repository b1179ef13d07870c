//! The reader of capture files in either format.

ghost use Rattle.std.specs.Prelude.{◌≡◌, ◌≤◌, IfOk, IfSome, length};
ghost use Rattle.std.specs.Borrow.{sem};
ghost use Rattle.std.specs.Io.BufRead.{Rests};
ghost use Rattle.macsec_pcap.specs.Answers.{answer_of};
ghost use Rattle.macsec_pcap.specs.Limits.{max_records};
ghost use Rattle.macsec_pcap.specs.Reading.{Answers, IsAfter, Opens};
ghost use Rattle.macsec_pcapng.specs.Blocks.{is_section};
ghost use Rattle.macsec_pcapng.specs.contracts.captures.CaptureReader.{the_row};
ghost use Rattle.macsec_pcapng.specs.Captures.{captures_of};

use crate::blocks::is_section;
use crate::reader::PcapngReader;
use macsec_pcap::{PcapFault, PcapReader, Record, Resolution, fill};
use std::alloc::Global;
use std::io::{Chain, Cursor, Read};
use std::marker::Model;

/// The fewest octets of a file in either format.
const FRONT_LEN: usize = 24;

/// A source whose first octets were read to find the format, followed by the rest. They are read a second time from the
/// cursor.
type Whole<R> = Chain<Cursor<[u8; FRONT_LEN]>, R>;

/// The reader for the format of the file.
#[derive(Drop)]
pub(crate) enum Format<R: Read> {
    /// The file is a pcap file.
    Pcap(PcapReader<Whole<R>>),
    /// The file is a pcapng file.
    Pcapng(PcapngReader<Whole<R>>),
}

/// Reads a capture file in either format, record by record. It allocates space for one record when it is created, and
/// never again.
#[derive(Drop)]
pub struct CaptureReader<R: Read> {
    format: Format<R>,
}

impl<R: Read> Model for CaptureReader<R> {
    ghost use Rattle.macsec_pcap.specs.Reading.{Reading};

    ghost Value = { Reading };

    ghost use Rattle.macsec_pcapng.specs.Formats.{reading_in};

    ghost view = { λ r. reading_in r.format };
}

impl<R: Read + Drop> CaptureReader<R> {
    /// Reads the header of a file. The first four octets decide whether it is pcapng or pcap. Returns the first fault
    /// of the header, `Read` if a read fails first, or `Memory`. A file of fewer than 24 octets has the fault
    /// `CutHeader`.
    pub fn new(alloc: Global, mut source: R) -> Result<CaptureReader<R>, PcapFault>
        ensures opened { IfSome (R.remaining source) (λ file. Opens (captures_of file) result) }
        ensures places { IfOk result (λ reader. reader.places ≡ max_records) }
    {
        let mut front = [0; FRONT_LEN];
        let count = match fill(&mut source, &mut front) {
            Ok(count) => count,
            Err(fault) => return Err(fault),
        };
        if count < FRONT_LEN {
            return Err(PcapFault::CutHeader);
        }
        let whole = Cursor::new(front).chain(source);
        if is_pcapng(&front) {
            match PcapngReader::new(alloc, whole) {
                Ok(reader) => Ok(CaptureReader {
                    format: Format::Pcapng(reader),
                }),
                Err(fault) => Err(fault),
            }
        } else {
            match PcapReader::new(alloc, whole) {
                Ok(reader) => Ok(CaptureReader {
                    format: Format::Pcap(reader),
                }),
                Err(fault) => Err(fault),
            }
        }
    }
}

impl<R: Read> CaptureReader<R> {
    /// The unit of the file's times: always nanoseconds for a pcapng file.
    pub fn resolution(&self) -> Resolution
        ensures { result ≡ self.now.resolution }
    {
        match &self.format {
            Format::Pcap(reader) => reader.resolution(),
            Format::Pcapng(reader) => reader.resolution(),
        }
    }

    /// The next record, or `None` at the end of the file. Returns the fault of the format before the next record, or
    /// `Read` if a read fails first. After `None` or a fault, each later call returns the same.
    pub fn next(&mut self) -> Result<Option<Record<'_>>, PcapFault>
        ensures* after { sem 𝓛 (Rests (the_row R.row R.Read) self.entry (IsAfter self.old (answer_of result))) }
        ensures answer { Answers self.old.ahead (answer_of result) }
    {
        match &mut self.format {
            Format::Pcap(reader) => reader.next(),
            Format::Pcapng(reader) => reader.next(),
        }
    }
}

/// Is a file that begins with these octets a pcapng file? Any other is read as pcap.
fn is_pcapng(front: &[u8]) -> bool
    requires { 4 ≤ length front.now }
    ensures { result ≡ is_section front.now }
{
    is_section(front)
}
