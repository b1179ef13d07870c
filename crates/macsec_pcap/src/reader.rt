//! The reader of capture files.

ghost use Rattle.std.specs.Prelude.{◌≡◌, IfOk, IfSome};
ghost use Rattle.std.specs.Borrow.{sem};
ghost use Rattle.std.specs.Io.BufRead.{Rests};
ghost use Rattle.macsec_pcap.specs.contracts.reader.PcapReader.{the_row};
ghost use Rattle.macsec_pcap.specs.Answers.{answer_of};
ghost use Rattle.macsec_pcap.specs.Captures.{file_of};
ghost use Rattle.macsec_pcap.specs.Limits.{max_records};
ghost use Rattle.macsec_pcap.specs.Reading.{Answers, IsAfter, Opens};

use crate::PcapFault;
use crate::form::{Form, Resolution};
use crate::header::read_header;
use crate::records::{MAX_RECORD_LEN, MAX_RECORDS, Record, take_record};
use std::alloc::Global;
use std::io::Read;
use std::marker::Model;

/// The state of a reader.
#[derive(Clone, Copy)]
pub(crate) enum Course {
    /// The reader is where a record can begin.
    Going,
    /// The reader has returned `None`: the file has ended.
    Ended,
    /// The reader has returned this fault.
    Failed(PcapFault),
}

/// Reads a capture file, record by record. Allocates a buffer for one record when it is created, and nothing
/// afterwards.
#[derive(Drop)]
pub struct PcapReader<R: Read> {
    source: R,
    form: Form,
    course: Course,
    // How many more records can be read.
    places: u32,
    // The buffer. It begins with the captured octets of the last record.
    room: Vec<u8>,
}

impl<R: Read> Model for PcapReader<R> {
    ghost use Rattle.std.specs.Prelude.{◌≡◌, length};
    ghost use Rattle.macsec_pcap.specs.Reading.{Reading, ahead_of};

    ghost Value = { Reading };

    ghost view = { λ r. record { resolution = r.form.resolution; places = r.places; ahead = ahead_of r.course r.form.order r.places (R.remaining r.source) } };

    ghost invariant = { λ r. length r.room.items ≡ 262144 };
}

impl<R: Read + Drop> PcapReader<R> {
    /// Reads the header of a file, in either byte order. Returns the first fault of the header, `Read` if a read fails
    /// first, or `Memory`.
    pub fn new(alloc: Global, mut source: R) -> Result<PcapReader<R>, PcapFault>
        ensures opened { IfSome (R.remaining source) (λ file. Opens (file_of file) result) }
        ensures places { IfOk result (λ reader. reader.places ≡ max_records) }
    {
        let form = read_header(&mut source)?;
        let Ok(room) = vec![in alloc; 0; MAX_RECORD_LEN] else {
            return Err(PcapFault::Memory);
        };
        Ok(PcapReader {
            source,
            form,
            course: Course::Going,
            places: MAX_RECORDS,
            room,
        })
    }
}

impl<R: Read> PcapReader<R> {
    /// The unit of the file's times.
    pub fn resolution(&self) -> Resolution
        ensures { result ≡ self.now.resolution }
    {
        self.form.resolution
    }

    /// Returns the next record, or `None` if the file has ended. Returns the fault of the format there, or `Read` if a
    /// read fails first. After `None` or a fault every later call returns the same.
    pub fn next(&mut self) -> Result<Option<Record<'_>>, PcapFault>
        ensures* after { sem 𝓛 (Rests (the_row R.row R.Read) self.entry (IsAfter self.old (answer_of result))) }
        ensures answer { Answers self.old.ahead (answer_of result) }
    {
        match self.course {
            Course::Going => {}
            Course::Ended => return Ok(None),
            Course::Failed(fault) => return Err(fault),
        }
        let room = self.room.as_mut_slice();
        match take_record(&mut self.source, self.form.order, self.places, room) {
            Ok(Some(head)) => {
                self.places -= 1;
                Ok(Some(head.record(self.room.as_slice())))
            }
            Ok(None) => {
                self.course = Course::Ended;
                Ok(None)
            }
            Err(fault) => {
                self.course = Course::Failed(fault);
                Err(fault)
            }
        }
    }
}
