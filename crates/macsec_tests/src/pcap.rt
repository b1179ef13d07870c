//! The most records of a file in the format pcap.

use macsec_pcap::{PcapFault, PcapReader};
use std::io::{self, Read};

/// The header of a file in microseconds, little endian.
const HEADER: &[u8] =
    b"\xd4\xc3\xb2\xa1\x02\x00\x04\x00\x00\x00\x00\x00\x00\x00\x00\x00\xff\xff\x00\x00\x01\x00\x00\x00";

/// The number of records that a reader returns, and the fault after them, if any.
fn count_of<R: Read + Drop>(reader: &mut PcapReader<R>) -> (u32, Option<PcapFault>) {
    for n in 0..16_777_218 {
        match reader.next() {
            Ok(Some(_)) => {}
            Ok(None) => return (n, None),
            Err(fault) => return (n, Some(fault)),
        }
    }
    (16_777_218, None)
}

/// A file of 16,777,216 empty records at time 0 is read. If one more octet follows, the fault is `RecordCount`,
/// although that octet is not a record.
///
/// Finds the mistake: A file may have one record too many.
#[test]
fn most_records(rt: HostRuntime) {
    let source = HEADER.chain(io::repeat(0).take(16 * 16_777_216 + 1));
    let mut reader = PcapReader::new(rt.alloc(), source).expect(&rt, "a reader");
    assert!(rt; count_of(&mut reader) == (16_777_216, Some(PcapFault::RecordCount)));
}
