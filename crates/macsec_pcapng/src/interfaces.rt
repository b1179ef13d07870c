//! The interfaces of a section, and the options that describe them.

ghost use Rattle.std.specs.Prelude.{◌≡◌, ◌<◌, ◌≤◌, IfOk, IfSome, length};
ghost use Rattle.macsec_pcapng.specs.Interfaces.{interface_of, is_ethernet, option_at, options_in, padded, plain_interface, value_length, with_option};
ghost use Rattle.macsec_pcapng.specs.Limits.{max_options};

use crate::blocks::ROOM_LEN;
use macsec_pcap::{Order, PcapFault};

/// The link type of Ethernet.
pub(crate) const ETHERNET: u16 = 1;

/// The code that ends the options, opt_endofopt.
const END_OF_OPTIONS: u16 = 0;

/// The code of if_tsresol, the unit of the times.
const TIME_RESOLUTION: u16 = 9;

/// The code of if_tsoffset, the offset of the times.
const TIME_OFFSET: u16 = 14;

/// The most options of an interface. No more fit into the kept octets of a body.
const MAX_OPTIONS: u32 = 65_541;

/// An interface, from its description block.
#[derive(Clone, Copy, Default)]
pub(crate) struct Interface {
    /// Its link type.
    pub(crate) link_type: u16,
    /// The most octets that are captured of a packet, or 0 for no limit.
    pub(crate) snap_len: u32,
    /// Its if_tsresol: the encoded unit of its times.
    pub(crate) resolution: Option<u8>,
    /// Its if_tsoffset: the seconds to add to its times, in two's complement.
    pub(crate) offset: Option<u64>,
}

impl Interface {
    /// Is it an Ethernet interface?
    pub(crate) fn is_ethernet(self) -> bool
        ensures { result ≡ is_ethernet self }
    {
        self.link_type == ETHERNET
    }
}

/// The interface that a body of `len` octets describes. `front` has the kept octets of the body.
pub(crate) fn interface_of(order: Order, len: u32, front: &[u8]) -> Result<Interface, PcapFault>
    requires { 8 ≤ length front.now }
    ensures { result ≡ interface_of order len front.now }
{
    if len as usize > ROOM_LEN {
        return Err(PcapFault::BlockLength);
    }
    with_options(order, &front[8..], plain_interface(order, front))
}

/// The interface before its options are read.
fn plain_interface(order: Order, front: &[u8]) -> Interface
    requires { 8 ≤ length front.now }
    ensures { result ≡ plain_interface order front.now }
{
    Interface {
        link_type: order.u16(front),
        snap_len: order.u32(&front[4..]),
        resolution: None,
        offset: None,
    }
}

/// The interface after all of these options.
fn with_options(order: Order, octets: &[u8], plain: Interface) -> Result<Interface, PcapFault>
    ensures { result ≡ options_in order max_options octets.now plain }
{
    let mut rest = octets;
    let mut interface = plain;
    for _ in 0..MAX_OPTIONS {
        match option_at(order, rest, interface) {
            Ok(Some((described, len))) => {
                interface = described;
                rest = &rest[len..];
            }
            Ok(None) => return Ok(interface),
            Err(fault) => return Err(fault),
        }
    }
    Ok(interface)
}

/// The interface after the option that begins here, and the length of that option in octets; `None` after the last
/// option.
fn option_at(
    order: Order,
    octets: &[u8],
    interface: Interface,
) -> Result<Option<(Interface, usize)>, PcapFault>
    ensures option { result ≡ option_at order octets.now interface }
    ensures fits { IfOk result (λ some. IfSome some (λ found. found.1 ≤ length octets.now)) }
{
    if octets.len() < 4 {
        return Ok(None);
    }
    let code = order.u16(octets);
    if code == END_OF_OPTIONS {
        return Ok(None);
    }
    let value_len = value_length(order, octets);
    let len = 4 + padded(value_len);
    if octets.len() < len {
        return Err(PcapFault::BlockLength);
    }
    match with_option(order, interface, code, &octets[4..4 + value_len]) {
        Ok(described) => Ok(Some((described, len))),
        Err(fault) => Err(fault),
    }
}

/// The length of the value of the option that begins here, in octets, without padding.
fn value_length(order: Order, octets: &[u8]) -> usize
    requires { 4 ≤ length octets.now }
    ensures value { result ≡ value_length order octets.now }
    ensures bound { result < 65536 }
{
    usize::from(order.u16(&octets[2..]))
}

/// The length of a value with its padding, in octets.
fn padded(len: usize) -> usize
    requires { len < 65536 }
    ensures padded { result ≡ padded len }
    ensures within { len ≤ result }
{
    (len + 3) / 4 * 4
}

/// The interface after the option with this code and value. Of a repeated option the first counts.
fn with_option(
    order: Order,
    interface: Interface,
    code: u16,
    value: &[u8],
) -> Result<Interface, PcapFault>
    ensures { result ≡ with_option order interface code value.now }
{
    let mut described = interface;
    match code {
        TIME_RESOLUTION => {
            if value.len() != 1 {
                return Err(PcapFault::BlockLength);
            }
            described.resolution = interface.resolution.or(Some(value[0]));
            Ok(described)
        }
        TIME_OFFSET => {
            if value.len() != 8 {
                return Err(PcapFault::BlockLength);
            }
            described.offset = interface.offset.or(Some(order.u64(value)));
            Ok(described)
        }
        _ => Ok(interface),
    }
}
