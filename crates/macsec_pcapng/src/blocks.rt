//! The blocks of a file.

ghost use Rattle.std.specs.Prelude.{◌≡◌, ◌≤◌, ◌+◌, ◌++◌, ◌⊎◌, IfOk, IfSome, length, take};
ghost use Rattle.macsec_pcapng.specs.Answers.{TakesBlock, TakesBody, TakesTrailer};
ghost use Rattle.macsec_pcapng.specs.Blocks.{block_at, block_of, is_length, is_section, kept, least_length, order_of_magic, section_in, total_length};

use crate::octets::{fetch, skip};
use macsec_pcap::{Order, PcapFault, fill};
use std::io::Read;

/// The most octets of a block's body that are kept: the 20 before an enhanced packet's data, and the longest packet.
pub(crate) const ROOM_LEN: usize = 262_164;

/// The type of a section header (4.1). It reads the same in either byte order.
pub(crate) const SECTION_HEADER: u32 = 0x0a0d_0d0a;

/// The type of an interface description (4.2).
pub(crate) const INTERFACE_DESCRIPTION: u32 = 1;

/// The type of a packet in an obsolete block (Appendix A).
pub(crate) const OBSOLETE_PACKET: u32 = 2;

/// The type of a simple packet (4.4).
pub(crate) const SIMPLE_PACKET: u32 = 3;

/// The type of an enhanced packet (4.3).
pub(crate) const ENHANCED_PACKET: u32 = 6;

/// The byte-order magic of a section header.
const MAGIC: u32 = 0x1a2b_3c4d;

/// The octets of a block around its body: its type, and its total length twice.
const FRAME_LEN: u32 = 12;

/// A block without its body.
#[derive(Clone, Copy)]
pub(crate) struct Head {
    /// The byte order of its numbers.
    pub(crate) order: Order,
    /// Its type.
    pub(crate) kind: u32,
    /// The length of its body, in octets.
    pub(crate) len: u32,
}

/// The least total length of a block of this type.
fn least_length(kind: u32) -> u32
    ensures { result ≡ least_length kind }
{
    match kind {
        SECTION_HEADER => 28,
        INTERFACE_DESCRIPTION => 20,
        SIMPLE_PACKET => 16,
        ENHANCED_PACKET | OBSOLETE_PACKET => 32,
        _ => FRAME_LEN,
    }
}

/// Can a block of this type have this total length?
fn is_length(kind: u32, total: u32) -> bool
    ensures { result ≡ is_length kind total }
{
    total >= least_length(kind) && total % 4 == 0
}

/// The number of octets that are kept of a body of this length.
pub(crate) fn kept(len: u32) -> usize
    ensures kept { result ≡ kept len }
    ensures fits { result ≤ 262164 }
    ensures within { result ≤ len }
    ensures head { 16 ≤ result ⊎ (result ≡ len) }
{
    let len = len as usize;
    if len > ROOM_LEN { ROOM_LEN } else { len }
}

/// Does a block that begins with these octets have the type of a section header?
pub(crate) fn is_section(head: &[u8]) -> bool
    requires { 4 ≤ length head.now }
    ensures { result ≡ is_section head.now }
{
    Order::Big.u32(head) == SECTION_HEADER
}

/// The total length of the block that begins with these octets.
fn total_length(order: Order, head: &[u8]) -> u32
    requires { 8 ≤ length head.now }
    ensures { result ≡ total_length order head.now }
{
    order.u32(&head[4..])
}

/// The byte order in which the first four octets are the byte-order magic, or `None` if there is none.
fn order_of_magic(octets: &[u8]) -> Option<Order>
    requires { 4 ≤ length octets.now }
    ensures { result ≡ order_of_magic octets.now }
{
    if Order::Big.u32(octets) == MAGIC {
        return Some(Order::Big);
    }
    if Order::Little.u32(octets) == MAGIC {
        return Some(Order::Little);
    }
    None
}

/// Reads the next block in a section of this byte order, or returns `None` at the end of the file. The kept octets of
/// its body are at the front of `room`.
pub(crate) fn take_block<R: Read>(
    source: &mut R,
    order: Order,
    room: &mut [u8],
) -> Result<Option<Head>, PcapFault>
    requires { length room.old ≡ 262164 }
    ensures block { IfSome (R.remaining source.old) (λ octets. TakesBlock (block_at order octets) (R.remaining source.new) room.new result) }
    ensures least { IfOk result (λ some. IfSome some (λ head. least_length head.kind ≤ head.len + 12)) }
{
    let mut head = [0; 8];
    let count = fill(source, &mut head)?;
    if count == 0 {
        return Ok(None);
    }
    if count < 8 {
        return Err(PcapFault::CutRecord);
    }
    if is_section(&head) {
        return take_section(source, &head, room);
    }
    let total = total_length(order, &head);
    take_known(source, order, order.u32(&head), total, 0, room)
}

/// Reads the rest of a section header. `head` has its first eight octets.
fn take_section<R: Read>(
    source: &mut R,
    head: &[u8],
    room: &mut [u8],
) -> Result<Option<Head>, PcapFault>
    requires head { 8 ≤ length head.now }
    requires room { length room.old ≡ 262164 }
    ensures block { IfSome (R.remaining source.old) (λ behind. TakesBlock (section_in head.now behind) (R.remaining source.new) room.new result) }
    ensures least { IfOk result (λ some. IfSome some (λ head. least_length head.kind ≤ head.len + 12)) }
{
    fetch(source, &mut room[..4])?;
    let Some(order) = order_of_magic(&room[..4]) else {
        return Err(PcapFault::Magic);
    };
    let total = total_length(order, head);
    take_known(source, order, SECTION_HEADER, total, 4, room)
}

/// Reads the rest of a block of this type and total length. The first `known` octets of its body are already at the
/// front of `room`.
fn take_known<R: Read>(
    source: &mut R,
    order: Order,
    kind: u32,
    total: u32,
    known: usize,
    room: &mut [u8],
) -> Result<Option<Head>, PcapFault>
    requires known { known + 12 ≤ least_length kind }
    requires few { known ≤ 16 }
    requires room { length room.old ≡ 262164 }
    ensures block { IfSome (R.remaining source.old) (λ rest. TakesBlock (block_of order kind total (take known room.old ++ rest)) (R.remaining source.new) room.new result) }
    ensures least { IfOk result (λ some. IfSome some (λ head. least_length head.kind ≤ head.len + 12)) }
{
    if !is_length(kind, total) {
        return Err(PcapFault::BlockLength);
    }
    let len = total - FRAME_LEN;
    match take_body(source, len, known, room) {
        Ok(()) => {}
        Err(fault) => return Err(fault),
    }
    match take_trailer(source, order, total) {
        Ok(()) => Ok(Some(Head { order, kind, len })),
        Err(fault) => Err(fault),
    }
}

/// Reads the rest of a body of this length. Its first `known` octets are already at the front of `room`.
fn take_body<R: Read>(
    source: &mut R,
    len: u32,
    known: usize,
    room: &mut [u8],
) -> Result<(), PcapFault>
    requires few { known ≤ 16 }
    requires within { known ≤ len }
    requires room { length room.old ≡ 262164 }
    ensures { IfSome (R.remaining source.old) (λ rest. TakesBody len (take known room.old ++ rest) (R.remaining source.new) room.new result) }
{
    let end = kept(len);
    match fetch(source, &mut room[known..end]) {
        Ok(()) => skip(source, len as usize - end),
        Err(fault) => Err(fault),
    }
}

/// Reads the total length at the end of a block. Returns `BlockLength` if it differs from the one at its beginning.
fn take_trailer<R: Read>(source: &mut R, order: Order, total: u32) -> Result<(), PcapFault>
    ensures { IfSome (R.remaining source.old) (λ octets. TakesTrailer order total octets (R.remaining source.new) result) }
{
    let mut trailer = [0; 4];
    fetch(source, &mut trailer)?;
    if order.u32(&trailer) != total {
        return Err(PcapFault::BlockLength);
    }
    Ok(())
}
