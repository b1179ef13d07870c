//! The packets of a section.

ghost use Rattle.std.specs.Prelude.{◌≡◌, ◌≤◌, ◌+◌, IfOk, drop, length, slice_get};
ghost use Rattle.macsec_pcap.specs.Answers.{shown};
ghost use Rattle.macsec_pcap.specs.Numbers.{number};
ghost use Rattle.macsec_pcapng.specs.Blocks.{kept};
ghost use Rattle.macsec_pcapng.specs.Packets.{enhanced, enhanced_on, obsolete, other_packet, packet_of, packet_record, simple, ticks, within_snap, without_data};

use crate::interfaces::{ETHERNET, Interface};
use crate::times::Time;
use macsec_pcap::{Body, MAX_RECORD_LEN, Order, PcapFault, Record};

/// The octets before the data of an enhanced packet: interface, time, captured length and original length.
const ENHANCED_LEN: usize = 20;

/// The octets before the data of a simple packet: the original length.
const SIMPLE_LEN: usize = 4;

/// A packet: its link type, its time, the offset of its data in the body of its block, and its captured and original
/// lengths in octets. If it is not of Ethernet, all but the link type are 0.
#[derive(Clone, Copy)]
pub(crate) struct Packet {
    pub(crate) link_type: u16,
    pub(crate) seconds: u32,
    pub(crate) fraction: u32,
    pub(crate) start: usize,
    pub(crate) captured: u32,
    pub(crate) original: u32,
}

impl Packet {
    /// A packet of a link type that is not Ethernet.
    fn without_data(link_type: u16) -> Packet
        ensures { result ≡ without_data link_type }
    {
        Packet {
            link_type,
            seconds: 0,
            fraction: 0,
            start: 0,
            captured: 0,
            original: 0,
        }
    }

    /// Its record. `room` begins with the body of its block.
    pub(crate) fn record(self, room: &[u8]) -> Record<'_>
        requires { self.start + self.captured ≤ length room.now }
        ensures { shown result ≡ packet_record self room.now }
    {
        let body = if self.link_type != ETHERNET {
            Body::OtherLink(self.link_type)
        } else if self.captured < self.original {
            Body::Partial
        } else {
            Body::Whole(&room[self.start..][..self.captured as usize])
        };
        Record {
            seconds: self.seconds,
            fraction: self.fraction,
            body,
        }
    }
}

/// A packet of an interface that is not Ethernet, or `LinkType` if the file has described no Ethernet interface yet.
fn other_packet(has_ethernet: bool, link_type: u16) -> Result<Packet, PcapFault>
    ensures { result ≡ other_packet has_ethernet link_type }
{
    if !has_ethernet {
        return Err(PcapFault::LinkType);
    }
    Ok(Packet::without_data(link_type))
}

/// The packet of an enhanced packet block. Its body has `len` octets and begins with `front`.
pub(crate) fn enhanced(
    has_ethernet: bool,
    interfaces: &[Interface],
    order: Order,
    len: u32,
    front: &[u8],
) -> Result<Packet, PcapFault>
    requires { 20 ≤ length front.now }
    ensures packet { result ≡ enhanced has_ethernet interfaces.now order len front.now }
    ensures fits { IfOk result (λ packet. packet.start + packet.captured ≤ kept len) }
{
    numbered(
        has_ethernet,
        interfaces,
        order.u32(front),
        order,
        len,
        front,
    )
}

/// The packet of an obsolete packet block, whose interface has a number of two octets. Its body has `len` octets and
/// begins with `front`.
pub(crate) fn obsolete(
    has_ethernet: bool,
    interfaces: &[Interface],
    order: Order,
    len: u32,
    front: &[u8],
) -> Result<Packet, PcapFault>
    requires { 20 ≤ length front.now }
    ensures packet { result ≡ obsolete has_ethernet interfaces.now order len front.now }
    ensures fits { IfOk result (λ packet. packet.start + packet.captured ≤ kept len) }
{
    let number = u32::from(order.u16(front));
    numbered(has_ethernet, interfaces, number, order, len, front)
}

/// The packet of an enhanced or an obsolete packet block, of the interface of this number.
fn numbered(
    has_ethernet: bool,
    interfaces: &[Interface],
    number: u32,
    order: Order,
    len: u32,
    front: &[u8],
) -> Result<Packet, PcapFault>
    requires { 20 ≤ length front.now }
    ensures packet { result ≡ enhanced_on has_ethernet (slice_get interfaces.now number) order len front.now }
    ensures fits { IfOk result (λ packet. packet.start + packet.captured ≤ kept len) }
{
    let Some(interface) = interfaces.get(number as usize) else {
        return Err(PcapFault::NoInterface);
    };
    if !interface.is_ethernet() {
        return other_packet(has_ethernet, interface.link_type);
    }
    let time = interface.time(ticks(order, front));
    let captured = captured_length(order, front);
    packet_of(time, len, ENHANCED_LEN, captured, order.u32(&front[16..]))
}

/// The captured length of an enhanced packet, in octets.
fn captured_length(order: Order, front: &[u8]) -> u32
    requires { 20 ≤ length front.now }
    ensures { result ≡ number order 4 (drop 12 front.now) }
{
    order.u32(&front[12..])
}

/// The time of an enhanced packet, in the units of its interface.
fn ticks(order: Order, front: &[u8]) -> u64
    requires { 20 ≤ length front.now }
    ensures { result ≡ ticks order front.now }
{
    let high = u64::from(order.u32(&front[4..]));
    let low = u64::from(order.u32(&front[8..]));
    high * (1 << 32) + low
}

/// The packet of a simple packet block, at time 0. Its body has `len` octets and begins with `front`.
pub(crate) fn simple(
    has_ethernet: bool,
    interfaces: &[Interface],
    order: Order,
    len: u32,
    front: &[u8],
) -> Result<Packet, PcapFault>
    requires { 4 ≤ length front.now }
    ensures packet { result ≡ simple has_ethernet interfaces.now order len front.now }
    ensures fits { IfOk result (λ packet. packet.start + packet.captured ≤ kept len) }
{
    let Some(interface) = interfaces.first() else {
        return Err(PcapFault::NoInterface);
    };
    if !interface.is_ethernet() {
        return other_packet(has_ethernet, interface.link_type);
    }
    let original = order.u32(front);
    let captured = within_snap(interface.snap_len, original);
    let time = Time {
        seconds: 0,
        nanoseconds: 0,
    };
    packet_of(Some(time), len, SIMPLE_LEN, captured, original)
}

/// The captured length of a packet under this snap length, in octets. A snap length of 0 is no limit.
fn within_snap(snap: u32, original: u32) -> u32
    ensures { result ≡ within_snap snap original }
{
    if snap == 0 {
        return original;
    }
    if snap < original {
        return snap;
    }
    original
}

/// The packet whose captured octets begin at offset `start` in a body of `len` octets.
fn packet_of(
    time: Option<Time>,
    len: u32,
    start: usize,
    captured: u32,
    original: u32,
) -> Result<Packet, PcapFault>
    requires { start ≤ 20 }
    ensures packet { result ≡ packet_of time len start captured original }
    ensures fits { IfOk result (λ packet. packet.start + packet.captured ≤ kept len) }
{
    if captured as usize > MAX_RECORD_LEN {
        return Err(PcapFault::RecordLength);
    }
    if (len as usize) < start + captured as usize {
        return Err(PcapFault::BlockLength);
    }
    let Some(time) = time else {
        return Err(PcapFault::Time);
    };
    Ok(Packet {
        link_type: ETHERNET,
        seconds: time.seconds,
        fraction: time.nanoseconds,
        start,
        captured,
        original,
    })
}
