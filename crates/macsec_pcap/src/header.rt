//! The header of a capture file.

ghost use Rattle.std.specs.Prelude.{◌≡◌, ◌≤◌, IfSome, length};
ghost use Rattle.macsec_pcap.specs.Header.{header_of, is_ethernet, is_version};
ghost use Rattle.macsec_pcap.specs.Answers.{ReadsHeader};

use crate::PcapFault;
use crate::filling::fill;
use crate::form::{Form, Order};
use std::io::Read;

/// The length of the header in octets.
pub(crate) const HEADER_LEN: usize = 24;

/// The version of the format, 2.4.
pub(crate) const VERSION: (u16, u16) = (2, 4);

/// The link type of Ethernet.
pub(crate) const ETHERNET: u32 = 1;

/// Reads the header, and returns the form of the file or the header's first fault.
pub(crate) fn read_header<R: Read>(source: &mut R) -> Result<Form, PcapFault>
    ensures { IfSome (R.remaining source.old) (λ file. ReadsHeader file (R.remaining source.new) result) }
{
    let mut header = [0; HEADER_LEN];
    if fill(source, &mut header)? < HEADER_LEN {
        return Err(PcapFault::CutHeader);
    }
    form_of_header(&header)
}

/// The form of a file with this header, or the header's first fault.
fn form_of_header(header: &[u8]) -> Result<Form, PcapFault>
    requires { 24 ≤ length header.now }
    ensures { result ≡ header_of header.now }
{
    let Some(form) = Form::of(header) else {
        return Err(PcapFault::Magic);
    };
    if !is_version(form.order, header) {
        return Err(PcapFault::Version);
    }
    if !is_ethernet(form.order, header) {
        return Err(PcapFault::LinkType);
    }
    Ok(form)
}

/// Whether the version of the format is 2.4.
fn is_version(order: Order, header: &[u8]) -> bool
    requires { 24 ≤ length header.now }
    ensures { result ≡ is_version order header.now }
{
    order.u16(&header[4..]) == VERSION.0 && order.u16(&header[6..]) == VERSION.1
}

/// Whether the link type is Ethernet.
fn is_ethernet(order: Order, header: &[u8]) -> bool
    requires { 24 ≤ length header.now }
    ensures { result ≡ is_ethernet order header.now }
{
    order.u32(&header[20..]) == ETHERNET
}
