//! Writes SecTAGs.

ghost use Rattle.std.specs.Prelude.{◌≡◌, ◌≤◌, ◌++◌, length, drop};
ghost use Rattle.macsec_tag.specs.Tag.{bit_where, encoding, tci_an};

use crate::places::{AFTER_SCI, PN_PLACE, SCI_PLACE, SL_PLACE, TCI_PLACE};
use crate::sec_tag::{C_BIT, E_BIT, ES_BIT, MACSEC_ETHERTYPE, SC_BIT, SCB_BIT};
use crate::{ADDRESSES_LENGTH, SecTag};
use byteorder::{BigEndian, ByteOrder};

/// Writes a SecTAG of 8 or 16 octets to the start of `out` and keeps the rest (9.3). `out` has 16 octets or more.
/// Returns the length of the SecTAG in octets.
pub fn write_tag(tag: &SecTag, out: &mut [u8]) -> usize
    requires { 16 ≤ length out.old }
    ensures length { result ≡ length (encoding tag.now) }
    ensures octets { out.new ≡ encoding tag.now ++ drop (length (encoding tag.now)) out.old }
{
    BigEndian::write_u16(out, MACSEC_ETHERTYPE);
    out[TCI_PLACE - ADDRESSES_LENGTH] = tci_an(tag);
    out[SL_PLACE - ADDRESSES_LENGTH] = tag.sl;
    BigEndian::write_u32(&mut out[PN_PLACE - ADDRESSES_LENGTH..], tag.pn);
    match tag.sci {
        Some(sci) => {
            out[SCI_PLACE - ADDRESSES_LENGTH..AFTER_SCI - ADDRESSES_LENGTH].copy_from_slice(&sci.0);
            16
        }
        None => 8,
    }
}

/// The octet of TCI and AN. SC is set if the SecTAG carries the SCI (9.5, 9.6).
fn tci_an(tag: &SecTag) -> u8
    ensures { result ≡ tci_an tag.now }
{
    bit_where(tag.es, ES_BIT)
        + bit_where(tag.sci.is_some(), SC_BIT)
        + bit_where(tag.scb, SCB_BIT)
        + bit_where(tag.e, E_BIT)
        + bit_where(tag.c, C_BIT)
        + tag.an.number()
}

/// The bit if it is set, otherwise 0.
fn bit_where(on: bool, bit: u8) -> u8
    ensures { result ≡ bit_where on bit }
{
    if on { bit } else { 0 }
}
