//! The reader of pcapng files.

ghost use Rattle.std.specs.Prelude.{◌≡◌, IfOk, IfSome, length};
ghost use Rattle.std.specs.Borrow.{sem};
ghost use Rattle.std.specs.Io.BufRead.{Rests};
ghost use Rattle.macsec_pcap.specs.Answers.{answer_of};
ghost use Rattle.macsec_pcap.specs.Limits.{max_records};
ghost use Rattle.macsec_pcap.specs.Reading.{Answers, IsAfter, Opens};
ghost use Rattle.macsec_pcapng.specs.contracts.reader.PcapngReader.{the_row};
ghost use Rattle.macsec_pcapng.specs.Answers.{TakesHeader};
ghost use Rattle.macsec_pcapng.specs.Files.{in_header, pcapng_of};
ghost use Rattle.macsec_pcapng.specs.Reading.{begun};

use crate::blocks::{ROOM_LEN, SECTION_HEADER, kept, take_block};
use crate::section::Section;
use crate::taking::take_packet;
use macsec_pcap::{MAX_RECORDS, Order, PcapFault, Record, Resolution};
use std::alloc::Global;
use std::io::Read;
use std::marker::Model;

/// After its first block, a file has fewer blocks than this.
const MAX_BLOCKS: u32 = 4_294_967_295;

/// The state of a reader.
#[derive(Clone, Copy)]
pub(crate) enum Course {
    /// The reader is between two blocks.
    Going,
    /// The reader has returned `None`: the file has ended.
    Ended,
    /// The reader has returned this fault.
    Failed(PcapFault),
}

/// Reads a pcapng file, packet by packet. It allocates space for one packet when it is created, and never again.
#[derive(Drop)]
pub struct PcapngReader<R: Read> {
    source: R,
    section: Section,
    course: Course,
    // The most records that can still be returned.
    places: u32,
    // The most blocks that can still be read.
    blocks: u32,
    // The kept octets of the last block's body.
    room: Vec<u8>,
}

impl<R: Read> Model for PcapngReader<R> {
    ghost use Rattle.std.specs.Prelude.{◌≡◌, length};
    ghost use Rattle.macsec_pcap.specs.declared.form.Resolution.TheVariants.{Nano};
    ghost use Rattle.macsec_pcap.specs.Reading.{Reading};

    ghost Value = { Reading };

    ghost use Rattle.macsec_pcapng.specs.Reading.{ahead_in};

    ghost view = { λ r. record { resolution = Nano; places = r.places; ahead = ahead_in r.course r.blocks r.section r.places (R.remaining r.source) } };

    ghost invariant = { λ r. length r.room.items ≡ 262164 };
}

impl<R: Read + Drop> PcapngReader<R> {
    /// Reads the first section header of a file. Returns the first fault of the header, `Read` if a read fails first,
    /// or `Memory`.
    pub fn new(alloc: Global, mut source: R) -> Result<PcapngReader<R>, PcapFault>
        ensures opened { IfSome (R.remaining source) (λ file. Opens (pcapng_of file) result) }
        ensures places { IfOk result (λ reader. reader.places ≡ max_records) }
    {
        let Ok(mut room) = vec![in alloc; 0; ROOM_LEN] else {
            return Err(PcapFault::Memory);
        };
        match read_header(&mut source, room.as_mut_slice()) {
            Ok(section) => Ok(PcapngReader::begun(source, section, MAX_RECORDS, MAX_BLOCKS, room)),
            Err(fault) => Err(fault),
        }
    }
}

impl<R: Read> PcapngReader<R> {
    /// A reader at the first record after a section header. At most `places` records and `blocks` blocks can follow.
    fn begun(
        source: R,
        section: Section,
        places: u32,
        blocks: u32,
        room: Vec<u8>,
    ) -> PcapngReader<R>
        requires { length room.items ≡ 262164 }
        ensures { result ≡ begun places blocks section (R.remaining source) }
    {
        PcapngReader {
            source,
            section,
            course: Course::Going,
            places,
            blocks,
            room,
        }
    }

    /// The unit of the times of the records: nanoseconds.
    pub fn resolution(&self) -> Resolution
        ensures { result ≡ self.now.resolution }
    {
        let _ = &self.course;
        Resolution::Nano
    }

    /// The next record, with its time in nanoseconds, or `None` at the end of the file. Returns the fault of the format
    /// before the next record, or `Read` if a read fails first. After `None` or a fault, each later call returns the
    /// same.
    pub fn next(&mut self) -> Result<Option<Record<'_>>, PcapFault>
        ensures* after { sem 𝓛 (Rests (the_row R.row R.Read) self.entry (IsAfter self.old (answer_of result))) }
        ensures answer { Answers self.old.ahead (answer_of result) }
    {
        match self.course {
            Course::Going => {}
            Course::Ended => return Ok(None),
            Course::Failed(fault) => return Err(fault),
        }
        let room = self.room.as_mut_slice();
        match take_packet(&mut self.source, &mut self.section, &mut self.blocks, room) {
            Ok(Some(packet)) => {
                if self.places == 0 {
                    self.course = Course::Failed(PcapFault::RecordCount);
                    return Err(PcapFault::RecordCount);
                }
                self.places -= 1;
                Ok(Some(packet.record(self.room.as_slice())))
            }
            Ok(None) => {
                self.course = Course::Ended;
                Ok(None)
            }
            Err(fault) => {
                self.course = Course::Failed(fault);
                Err(fault)
            }
        }
    }
}

/// Reads the first section header.
fn read_header<R: Read>(source: &mut R, room: &mut [u8]) -> Result<Section, PcapFault>
    requires { length room.old ≡ 262164 }
    ensures { IfSome (R.remaining source.old) (λ file. TakesHeader file (R.remaining source.new) result) }
{
    let head = match take_block(source, Order::Big, room) {
        Ok(Some(head)) => head,
        Ok(None) => return Err(PcapFault::CutHeader),
        Err(fault) => return Err(in_header(fault)),
    };
    if head.kind != SECTION_HEADER {
        return Err(PcapFault::Magic);
    }
    Section::new(false, head.order, &room[..kept(head.len)])
}

/// The fault of a file whose first block has this fault. `CutRecord` becomes `CutHeader`.
fn in_header(fault: PcapFault) -> PcapFault
    ensures { result ≡ in_header fault }
{
    match fault {
        PcapFault::CutRecord => PcapFault::CutHeader,
        _ => fault,
    }
}
