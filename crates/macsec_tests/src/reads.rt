//! How often the readers of both formats read.

use macsec_pcap::PcapFault;
use macsec_pcapng::CaptureReader;
use macsec_test_tools::{FailingReader, Fails};
use std::alloc::Global;
use std::process::Abort;

/// The number of records that a reader returned, and what the call after them returned: the end is `None`.
type Answer = (usize, Option<PcapFault>);

/// Whether there is a record, or the end or fault instead of it.
fn next_of(reader: &mut CaptureReader<&mut FailingReader<'_>>) -> Result<(), Option<PcapFault>> {
    match reader.next() {
        Ok(Some(_)) => Ok(()),
        Ok(None) => Err(None),
        Err(fault) => Err(Some(fault)),
    }
}

/// The answer of a reader of at most three records. It is asked once more after its last record.
fn answer_of(reader: &mut CaptureReader<&mut FailingReader<'_>>) -> Answer {
    for count in 0..4 {
        if let Err(ended) = next_of(reader) {
            // After the end and after a fault the source is not read again.
            let _ = next_of(reader);
            return (count, ended);
        }
    }
    (4, None)
}

/// The answer for this source. The fault of its header comes after no record.
fn read_of(alloc: Global, source: &mut FailingReader<'_>) -> Answer {
    match CaptureReader::new(alloc, source) {
        Ok(mut reader) => answer_of(&mut reader),
        Err(fault) => (0, Some(fault)),
    }
}

/// The answer for a file that is read in pieces of 7 octets, the number of reads, and the number of reads after one
/// failed or the file ended.
fn read_in_pieces(alloc: Global, file: &[u8], fails: Fails) -> (Answer, usize, usize) {
    let mut source = FailingReader::new(file, 7, fails);
    let answer = read_of(alloc, &mut source);
    (answer, source.calls(), source.calls_after())
}

/// A pcap file with a frame of 14 octets twice.
const PCAP: &[u8] =
    b"\xd4\xc3\xb2\xa1\x02\x00\x04\x00\x00\x00\x00\x00\x00\x00\x00\x00\xff\xff\x00\x00\x01\x00\x00\x00\
    \x00\x00\x00\x00\x00\x00\x00\x00\x0e\x00\x00\x00\x0e\x00\x00\x00\
    \xff\xff\xff\xff\xff\xff\x02\x00\x00\x00\x00\x01\x08\x00\
    \x00\x00\x00\x00\x00\x00\x00\x00\x0e\x00\x00\x00\x0e\x00\x00\x00\
    \xff\xff\xff\xff\xff\xff\x02\x00\x00\x00\x00\x01\x08\x00";

/// A pcapng file with that frame: a section header of 28 octets, an interface of 20, and a packet of 48.
const PCAPNG: &[u8] =
    b"\x0a\x0d\x0d\x0a\x1c\x00\x00\x00\x4d\x3c\x2b\x1a\x01\x00\x00\x00\xff\xff\xff\xff\xff\xff\xff\xff\x1c\x00\x00\x00\
    \x01\x00\x00\x00\x14\x00\x00\x00\x01\x00\x00\x00\x00\x00\x04\x00\x14\x00\x00\x00\
    \x06\x00\x00\x00\x30\x00\x00\x00\x00\x00\x00\x00\x00\x00\x00\x00\x00\x00\x00\x00\x0e\x00\x00\x00\x0e\x00\x00\x00\
    \xff\xff\xff\xff\xff\xff\x02\x00\x00\x00\x00\x01\x08\x00\x00\x00\x30\x00\x00\x00";

/// A pcap file that begins with the head of a record of 262,145 captured octets.
const TOO_LONG: &[u8] =
    b"\xd4\xc3\xb2\xa1\x02\x00\x04\x00\x00\x00\x00\x00\x00\x00\x00\x00\xff\xff\x00\x00\x01\x00\x00\x00\
    \x00\x00\x00\x00\x00\x00\x00\x00\x01\x00\x04\x00\x01\x00\x04\x00\
    the record";

/// Files, and their reads: a number of reads, and how many records are returned if one of them fails. In the pcap file
/// the header takes 4 reads, the 16 octets of a record 3, its frame 2, and the end 1. In the pcapng file the first 24
/// octets take 4 reads, the rest of the section header 1, the interface 5, the packet 9, and the end 1.
const FILES: [(&[u8], &[(usize, usize)]); 2] = [
    (PCAP, &[(9, 0), (5, 1), (1, 2)]),
    (PCAPNG, &[(19, 0), (1, 1)]),
];

/// Checks the read of this number, failing alone and with all reads after it.
fn check_read(rt: &impl Abort, alloc: Global, file: &[u8], at: usize, count: usize) {
    let wanted = ((count, Some(PcapFault::Read)), at.saturating_add(1), 0);
    for fails in [Fails::At(at), Fails::From(at)] {
        assert!(rt; read_in_pieces(alloc, file, fails) == wanted);
    }
}

/// Checks each read of a file.
fn check_file(rt: &impl Abort, alloc: Global, file: &[u8], entries: &[(usize, usize)]) {
    let mut at: usize = 0;
    for (reads, count) in entries {
        for _ in 0..*reads {
            check_read(rt, alloc, file, at, *count);
            at = at.saturating_add(1);
        }
    }
}

/// Whichever read fails, the reader returns `Read` and reads no more, whether the source would fail again or not.
#[test]
fn reads_that_fail(rt: HostRuntime) {
    for (file, entries) in FILES {
        check_file(&rt, rt.alloc(), file, entries);
    }
}

/// After the end of a file there are no reads. Of a record that is too long only the head is read: 4 reads for the
/// header of the file, and 3 for the head.
#[test]
fn reads_to_the_end(rt: HostRuntime) {
    for (file, wanted) in [
        (PCAP, ((2, None), 15, 0)),
        (PCAPNG, ((1, None), 20, 0)),
        (TOO_LONG, ((0, Some(PcapFault::RecordLength)), 7, 0)),
    ] {
        assert!(rt; read_in_pieces(rt.alloc(), file, Fails::Never) == wanted);
    }
}
