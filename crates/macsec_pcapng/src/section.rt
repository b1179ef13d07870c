//! A section, and how each of its blocks changes it.

ghost use Rattle.std.specs.Prelude.{◌≡◌, ◌≤◌, ◌+◌, IfOk, IfSome, length};
ghost use Rattle.macsec_pcapng.specs.Answers.{IsLeft, IsMade, block_by};
ghost use Rattle.macsec_pcapng.specs.Blocks.{kept, least_length};
ghost use Rattle.macsec_pcapng.specs.Interfaces.{interface_of};
ghost use Rattle.macsec_pcapng.specs.Sections.{is_known_version, left_by, new_section, with_interface, with_one_more};

use crate::blocks::{
    ENHANCED_PACKET, Head, INTERFACE_DESCRIPTION, OBSOLETE_PACKET, SECTION_HEADER, SIMPLE_PACKET,
};
use crate::interfaces::{Interface, interface_of};
use crate::packets::{Packet, enhanced, obsolete, simple};
use arrayvec::ArrayVec;
use macsec_pcap::{Order, PcapFault};
use std::marker::Model;

/// A section, as far as it was read: the byte order of its numbers, and up to 256 interfaces; and whether the file has
/// described an Ethernet interface, in this section or before it.
#[derive(Drop)]
pub(crate) struct Section {
    order: Order,
    interfaces: ArrayVec<Interface, 256>,
    has_ethernet: bool,
}

impl Model for Section {
    ghost use Rattle.macsec_pcapng.specs.Section.{Section};

    ghost Value = { Section };

    ghost view = { λ s. record { order = s.order; interfaces = s.interfaces.items; has_ethernet = s.has_ethernet } };
}

impl Section {
    /// The new section of a header with this byte order. `front` has the first octets of its body. `has_ethernet` says
    /// whether a section before it has an Ethernet interface.
    pub(crate) fn new(has_ethernet: bool, order: Order, front: &[u8]) -> Result<Section, PcapFault>
        requires { 16 ≤ length front.now }
        ensures { result ≡ new_section has_ethernet order front.now }
    {
        if !is_known_version(order, front) {
            return Err(PcapFault::Version);
        }
        Ok(Section {
            order,
            interfaces: ArrayVec::new(),
            has_ethernet,
        })
    }

    /// The byte order of its numbers.
    pub(crate) fn order(&self) -> Order
        ensures { result ≡ self.now.order }
    {
        self.order
    }

    /// Applies a block to the section, and returns its packet, if it has one. `front` has the kept octets of its body.
    pub(crate) fn take(&mut self, head: Head, front: &[u8]) -> Result<Option<Packet>, PcapFault>
        requires front { length front.now ≡ kept head.len }
        requires least { least_length head.kind ≤ head.len + 12 }
        ensures left { IsLeft (left_by self.old (block_by head front.now)) self.new result }
        ensures fits { IfOk result (λ some. IfSome some (λ packet. packet.start + packet.captured ≤ kept head.len)) }
    {
        let (order, len) = (head.order, head.len);
        let (has_ethernet, interfaces) = (self.has_ethernet, self.interfaces.as_slice());
        match head.kind {
            SECTION_HEADER => match self.begin(order, front) {
                Ok(()) => Ok(None),
                Err(fault) => Err(fault),
            },
            INTERFACE_DESCRIPTION => match self.describe(order, len, front) {
                Ok(()) => Ok(None),
                Err(fault) => Err(fault),
            },
            ENHANCED_PACKET => match enhanced(has_ethernet, interfaces, order, len, front) {
                Ok(packet) => Ok(Some(packet)),
                Err(fault) => Err(fault),
            },
            OBSOLETE_PACKET => match obsolete(has_ethernet, interfaces, order, len, front) {
                Ok(packet) => Ok(Some(packet)),
                Err(fault) => Err(fault),
            },
            SIMPLE_PACKET => match simple(has_ethernet, interfaces, order, len, front) {
                Ok(packet) => Ok(Some(packet)),
                Err(fault) => Err(fault),
            },
            _ => Ok(None),
        }
    }

    /// Starts a new section, from a header with this byte order. `front` has the first octets of its body.
    fn begin(&mut self, order: Order, front: &[u8]) -> Result<(), PcapFault>
        requires { 16 ≤ length front.now }
        ensures { IsMade (new_section self.old.has_ethernet order front.now) self.new result }
    {
        match Section::new(self.has_ethernet, order, front) {
            Ok(section) => {
                *self = section;
                Ok(())
            }
            Err(fault) => Err(fault),
        }
    }

    /// Adds the interface that a body of `len` octets describes. `front` has the kept octets of the body.
    fn describe(&mut self, order: Order, len: u32, front: &[u8]) -> Result<(), PcapFault>
        requires { 8 ≤ length front.now }
        ensures { IsMade (with_interface self.old (interface_of order len front.now)) self.new result }
    {
        match interface_of(order, len, front) {
            Ok(interface) => self.add(interface),
            Err(fault) => Err(fault),
        }
    }

    /// Appends an interface, or returns `InterfaceCount` if there are 256 already.
    fn add(&mut self, interface: Interface) -> Result<(), PcapFault>
        ensures { IsMade (with_one_more self.old interface) self.new result }
    {
        if self.interfaces.is_full() {
            return Err(PcapFault::InterfaceCount);
        }
        self.interfaces.push(interface);
        self.has_ethernet = self.has_ethernet || interface.is_ethernet();
        Ok(())
    }
}

/// Is the version 1.0, or 1.2, which some programs write instead?
fn is_known_version(order: Order, front: &[u8]) -> bool
    requires { 16 ≤ length front.now }
    ensures { result ≡ is_known_version order front.now }
{
    let minor = order.u16(&front[6..]);
    order.u16(&front[4..]) == 1 && (minor == 0 || minor == 2)
}
