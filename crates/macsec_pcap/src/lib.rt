//! Capture files (pcap) of Ethernet frames: a reader of all forms, and a writer of one.
//!
//! `file_of` (`specs/Captures.antt`) defines what any list of octets is as a capture file: the unit of its times, its
//! records in order, whole or partial, and the fault of the format after them; or the first fault of its header.
//!
//! Proved, over a reader whose octets a contract can name: `PcapReader::new` returns a reader at the first record of
//! that file, or the fault of its header, or `Memory` or `Read`. Each `next` returns the next record. After the last
//! record it returns `None`, or the fault of the format there. A read that fails first gives `Read`. Over any reader:
//! after `None` each later call returns `None`, and after a fault that fault. Each record uses one of 16,777,216
//! places, so a loop of such calls ends. Only `new` takes an allocator.
//!
//! Proved, over a writer whose octets a contract can name: with `Ok`, `PcapWriter::new` wrote the header, and `write`
//! the record of that time and frame. With `RecordLength`, and after a fault, nothing was written. With `Write` from
//! `write` or `write_header`, a prefix of the record or of the header was written, and nothing else. Over any writer: a
//! writer that has not returned a fault returns `RecordLength` exactly for a frame of more than 262,144 octets. The
//! only other fault is `Write`. After a fault each later call returns that fault. The law `laws::read_again`: a file of
//! at most 16,777,216 records that is written so is read as those records.
//!
//! Readers of other formats also use `fill` and the numbers of `Order`, which require as many octets as they read. The
//! faults from `BlockLength` on are for those readers.
#![tactic(auto)]

mod fault;
mod filling;
mod form;
mod header;
pub mod laws;
mod reader;
mod records;
mod writer;

pub use fault::PcapFault;
pub use filling::fill;
pub use form::{Order, Resolution};
pub use reader::PcapReader;
pub use records::{Body, MAX_RECORD_LEN, MAX_RECORDS, Record};
pub use writer::{PcapWriter, write_header};
