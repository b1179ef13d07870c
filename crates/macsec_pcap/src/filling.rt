//! Fills a buffer from a reader.

ghost use Rattle.macsec_pcap.specs.Filled.{Fills};

use crate::PcapFault;
use std::io::Read;

/// Fills the buffer from the front, until it is full or the reader is at its end. Returns the number of octets read. A
/// read that returns 0 octets is the reader's end. Returns `Read` if a read fails, and does not try it again.
pub fn fill<R: Read>(source: &mut R, room: &mut [u8]) -> Result<usize, PcapFault>
    ensures { Fills (R.remaining source.old) (R.remaining source.new) room.new result }
{
    let mut filled = 0;
    while filled < room.len() {
        match source.read(&mut room[filled..]) {
            Ok(0) => return Ok(filled),
            Ok(count) => filled += count,
            Err(_) => return Err(PcapFault::Read),
        }
    }
    Ok(filled)
}
