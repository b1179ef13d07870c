//! Capture files of Ethernet frames in the format pcapng (draft-ietf-opsawg-pcapng): a reader of pcapng files, and a
//! reader of files in pcapng or pcap.
//!
//! The definition `pcapng_of` (`specs/Files.antt`) gives the content of every list of octets as a pcapng file: its
//! records in order, whole, partial or of another link type, with times in nanoseconds, and the fault of the format
//! after them; or the first fault of its first section header. It builds on the definition of a block
//! (`specs/Blocks.antt`), which is read in the byte order of its section, and on what each block leaves: a new section,
//! one more interface, a packet, or nothing (`specs/Sections.antt`). Of a packet of another link type only the link
//! type is read, so its record has time 0.
//!
//! Proved, over a reader whose octets a contract can name: `PcapngReader::new` returns a reader at the first record of
//! that file, or the fault of its header, or `Memory` or `Read`. Each `next` returns the next record, or, after the
//! last one, `None` or the fault of the format there, or else `Read`. Proved over any reader: after `None` each later
//! call returns `None`, and after a fault that fault. Each record takes one of 16,777,216 places, so a loop of such
//! calls ends. Only `new` takes an allocator.
//!
//! `CaptureReader` reads files in either format. A file that begins with 0a 0d 0d 0a is pcapng; any other is read as
//! pcap; one of fewer than 24 octets is cut in its header. The same is proved of it with the definition `captures_of`
//! (`specs/Captures.antt`), which is `pcapng_of` for pcapng and `file_of` of `macsec_pcap` for pcap. Both readers share
//! the contracts of `PcapReader` in `macsec_pcap`, and its definitions of a record, a fault and what a reader has still
//! to return. The law `laws::faults_are_of_format`: no file has `Memory`, `Read` or `Write` for its fault.
#![tactic(auto)]

mod blocks;
mod captures;
mod interfaces;
pub mod laws;
mod octets;
mod packets;
mod reader;
mod section;
mod taking;
mod times;

pub use captures::CaptureReader;
pub use reader::PcapngReader;
