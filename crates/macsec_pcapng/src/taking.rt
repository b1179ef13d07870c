//! Reads packet after packet, and skips the blocks between them.

ghost use Rattle.std.specs.Prelude.{◌≡◌, ◌≤◌, ◌+◌, IfOk, IfSome, length};
ghost use Rattle.macsec_pcapng.specs.Answers.{IsWithin, TakesOne, TakesPacket};

use crate::blocks::{kept, take_block};
use crate::packets::Packet;
use crate::section::Section;
use macsec_pcap::PcapFault;
use std::io::Read;

/// What was read where a block can begin.
#[derive(Clone, Copy)]
pub(crate) enum Taken {
    /// Nothing: the file has ended.
    End,
    /// A block that has no packet.
    Skipped,
    /// A block that has this packet.
    Found(Packet),
}

/// Reads the next packet, or returns `None` at the end of the file. Its octets are in `room`. Counts each block down in
/// `blocks`, and returns `RecordCount` when that is 0.
pub(crate) fn take_packet<R: Read>(
    source: &mut R,
    section: &mut Section,
    blocks: &mut u32,
    room: &mut [u8],
) -> Result<Option<Packet>, PcapFault>
    requires { length room.old ≡ 262164 }
    ensures taken { IfSome (R.remaining source.old) (λ octets. TakesPacket blocks.old section.old octets blocks.new section.new (R.remaining source.new) room.new result) }
    ensures fits { IfOk result (λ some. IfSome some (λ packet. packet.start + packet.captured ≤ 262164)) }
{
    while *blocks > 0 {
        *blocks -= 1;
        match take_one(source, section, room) {
            Ok(Taken::End) => return Ok(None),
            Ok(Taken::Skipped) => {}
            Ok(Taken::Found(packet)) => return Ok(Some(packet)),
            Err(fault) => return Err(fault),
        }
    }
    Err(PcapFault::RecordCount)
}

/// Reads the next block, if there is one, and applies it to the section.
fn take_one<R: Read>(
    source: &mut R,
    section: &mut Section,
    room: &mut [u8],
) -> Result<Taken, PcapFault>
    requires { length room.old ≡ 262164 }
    ensures taken { IfSome (R.remaining source.old) (λ octets. TakesOne section.old octets section.new (R.remaining source.new) room.new result) }
    ensures fits { IfOk result IsWithin }
{
    let head = match take_block(source, section.order(), room) {
        Ok(Some(head)) => head,
        Ok(None) => return Ok(Taken::End),
        Err(fault) => return Err(fault),
    };
    match section.take(head, &room[..kept(head.len)]) {
        Ok(Some(packet)) => Ok(Taken::Found(packet)),
        Ok(None) => Ok(Taken::Skipped),
        Err(fault) => Err(fault),
    }
}
