//! Reads frames by the positions of their octets.

ghost use Rattle.std.specs.Prelude.{◌≡◌, ◌≤◌, ◌+◌, ◌↔◌, length, true};
ghost use Rattle.macsec_tag.specs.Frame.{MpduParts, IsTagged, IsUntagged, has_macsec_ethertype};
ghost use Rattle.macsec_tag.specs.Table.{reading, untagged, tagged, tag_fault, sec_tag_at, parts_at, tag_length_at, after_tag, data_length_at, has_wrong_length};
ghost use Rattle.macsec_tag.specs.Standing.{StandsAsTagged};
ghost use Rattle.macsec_tag.specs.Read.{reading_of};

use crate::places::{AFTER_SCI, PN_PLACE, SCI_PLACE, SL_PLACE, TCI_PLACE};
use crate::sec_tag::{C_BIT, E_BIT, ES_BIT, MACSEC_ETHERTYPE, SC_BIT, SCB_BIT, V_BIT};
use crate::{ADDRESSES_LENGTH, An, ICV_LENGTH, MIN_FRAME_LEN, Mpdu, Read, Sci, SecTag, TagFault};
use byteorder::{BigEndian, ByteOrder};

/// Reads a frame. Returns its parts if it is tagged, `Untagged` if another EtherType follows its addresses, and
/// otherwise its first fault.
#[inline(always)]
pub fn read(frame: &[u8]) -> Read<'_>
    // The parts are returned exactly if the grammar has them.
    ensures is_tagged { (p : MpduParts) → (reading_of result ≡ tagged p) ↔ IsTagged frame.now p }
    // `Untagged` is returned exactly if the grammar says so.
    ensures is_untagged { (reading_of result ≡ untagged) ↔ IsUntagged frame.now }
    // Otherwise the fault is the first one of the table.
    ensures table { reading_of result ≡ reading frame.now }
{
    read_by_positions(frame)
}

/// Reads a frame according to the table.
fn read_by_positions(frame: &[u8]) -> Read<'_>
    ensures { reading_of result ≡ reading frame.now }
{
    if frame.len() < MIN_FRAME_LEN {
        return Read::Bad(TagFault::Cut);
    }
    if !has_macsec_ethertype(frame) {
        return Read::Untagged;
    }
    match fault_of(frame) {
        Some(fault) => Read::Bad(fault),
        None => Read::Tagged(parts_of(frame)),
    }
}

/// Whether the MACsec EtherType follows the addresses.
fn has_macsec_ethertype(frame: &[u8]) -> bool
    requires { 14 ≤ length frame.now }
    ensures { result ≡ has_macsec_ethertype frame.now }
{
    BigEndian::read_u16(&frame[ADDRESSES_LENGTH..]) == MACSEC_ETHERTYPE
}

/// The first fault of a frame with the MACsec EtherType.
fn fault_of(frame: &[u8]) -> Option<TagFault>
    requires { has_macsec_ethertype frame.now ≡ true }
    ensures { result ≡ tag_fault frame.now }
{
    if frame.len() < SCI_PLACE {
        return Some(TagFault::Cut);
    }
    let tci = frame[TCI_PLACE];
    let has_sci = tci & SC_BIT != 0;
    if has_sci && frame.len() < AFTER_SCI {
        return Some(TagFault::Cut);
    }
    if tci & V_BIT != 0 {
        return Some(TagFault::Version);
    }
    if has_sci && (tci & ES_BIT != 0 || tci & SCB_BIT != 0) {
        return Some(TagFault::SciBits);
    }
    if frame[SL_PLACE] >= 64 {
        return Some(TagFault::ShortBits);
    }
    if frame[SL_PLACE] >= 48 || is_wrong_length(frame) {
        return Some(TagFault::Length);
    }
    None
}

/// The length of the SecTAG in octets.
fn tag_length(frame: &[u8]) -> usize
    requires { 20 ≤ length frame.now }
    ensures { result ≡ tag_length_at frame.now }
{
    if frame[TCI_PLACE] & SC_BIT != 0 {
        16
    } else {
        8
    }
}

/// The octets after the SecTAG.
fn after_tag(frame: &[u8]) -> &[u8]
    requires long { 20 ≤ length frame.now }
    requires tag { 12 + tag_length_at frame.now ≤ length frame.now }
    ensures { result.now ≡ after_tag frame.now }
{
    let (_addresses, rest) = frame.split_at(ADDRESSES_LENGTH);
    let (_tag, rest) = rest.split_at(tag_length(frame));
    rest
}

/// Whether fewer octets follow the SecTAG than its SL requires.
fn is_wrong_length(frame: &[u8]) -> bool
    requires long { 20 ≤ length frame.now }
    requires tag { 12 + tag_length_at frame.now ≤ length frame.now }
    ensures { result ≡ has_wrong_length frame.now }
{
    let rest = after_tag(frame);
    let sl = frame[SL_PLACE];
    if sl == 0 {
        rest.len() < 48 + ICV_LENGTH
    } else {
        rest.len() < sl as usize + ICV_LENGTH
    }
}

/// The parts of a tagged frame.
fn parts_of(frame: &[u8]) -> Mpdu<'_>
    requires { StandsAsTagged frame.now }
    ensures { result ≡ parts_at frame.now }
{
    let (addresses, rest) = frame.split_at(ADDRESSES_LENGTH);
    let (tag_bytes, _after) = rest.split_at(tag_length(frame));
    let (secure_data, rest) = after_tag(frame).split_at(data_length(frame));
    let (icv, padding) = rest.split_at(ICV_LENGTH);
    Mpdu {
        addresses,
        tag_bytes,
        secure_data,
        icv,
        padding,
        tag: sec_tag(frame),
    }
}

/// The length in octets of the Secure Data of a tagged frame.
fn data_length(frame: &[u8]) -> usize
    requires { StandsAsTagged frame.now }
    ensures value { result ≡ data_length_at frame.now }
    ensures within { result + 16 ≤ length (after_tag frame.now) }
{
    if frame[SL_PLACE] == 0 {
        after_tag(frame).len() - ICV_LENGTH
    } else {
        frame[SL_PLACE] as usize
    }
}

/// The SecTAG of a tagged frame.
fn sec_tag(frame: &[u8]) -> SecTag
    requires { StandsAsTagged frame.now }
    ensures { result ≡ sec_tag_at frame.now }
{
    let tci = frame[TCI_PLACE];
    SecTag {
        es: tci & ES_BIT != 0,
        scb: tci & SCB_BIT != 0,
        e: tci & E_BIT != 0,
        c: tci & C_BIT != 0,
        an: An(tci & 3),
        sl: frame[SL_PLACE],
        pn: BigEndian::read_u32(&frame[PN_PLACE..SCI_PLACE]),
        sci: sci(frame),
    }
}

/// The SCI of a tagged frame, if its SecTAG carries one.
fn sci(frame: &[u8]) -> Option<Sci>
    requires { StandsAsTagged frame.now }
    ensures { result ≡ (sec_tag_at frame.now).sci }
{
    if frame[TCI_PLACE] & SC_BIT == 0 {
        return None;
    }
    let mut octets = [0; 8];
    octets.copy_from_slice(&frame[SCI_PLACE..AFTER_SCI]);
    Some(Sci(octets))
}
