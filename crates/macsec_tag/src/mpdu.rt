//! The parts of a frame, and the results of reading one.

ghost use Rattle.std.specs.Prelude.{◌≡◌, ◌++◌, ◌<◌, length};
ghost use Rattle.macsec_tag.specs.Tag.{encoding};

use crate::{SecTag, TagFault};
use std::marker::Model;

/// The parts of a tagged frame, borrowed from it.
#[derive(Drop)]
pub struct Mpdu<'a> {
    pub(crate) addresses: &'a [u8],
    pub(crate) tag_bytes: &'a [u8],
    pub(crate) secure_data: &'a [u8],
    pub(crate) icv: &'a [u8],
    pub(crate) padding: &'a [u8],
    pub(crate) tag: SecTag,
}

impl<'a> Model for Mpdu<'a> {
    ghost use Rattle.std.specs.Prelude.{◌≡◌, take, drop};
    ghost use Rattle.macsec_tag.specs.Tag.{encoding};
    ghost use Rattle.macsec_tag.specs.Frame.{MpduParts, HasLengths};

    ghost Value = { MpduParts };

    ghost view = { λ m. record {
      da = take 6 m.addresses.now;
      sa = drop 6 m.addresses.now;
      tag = m.tag;
      secure_data = m.secure_data.now;
      icv = m.icv.now;
      padding = m.padding.now;
    } };

    ghost invariant = { λ m. (m.tag_bytes.now ≡ encoding m.tag) × HasLengths (record {
      da = take 6 m.addresses.now;
      sa = drop 6 m.addresses.now;
      tag = m.tag;
      secure_data = m.secure_data.now;
      icv = m.icv.now;
      padding = m.padding.now;
    }) };
}

impl<'a> Mpdu<'a> {
    /// The destination and source addresses, 6 octets each.
    pub fn addresses(&self) -> &'a [u8]
        ensures octets { result.now ≡ self.now.da ++ self.now.sa }
        ensures da { length self.now.da ≡ 6 }
        ensures sa { length self.now.sa ≡ 6 }
        ensures length { length result.now ≡ 12 }
    {
        self.addresses
    }

    /// The 8 or 16 octets of the SecTAG.
    pub fn tag_bytes(&self) -> &'a [u8]
        ensures { result.now ≡ encoding self.now.tag }
    {
        self.tag_bytes
    }

    /// The Secure Data.
    pub fn secure_data(&self) -> &'a [u8]
        ensures { result.now ≡ self.now.secure_data }
    {
        self.secure_data
    }

    /// The 16 octets of the ICV.
    pub fn icv(&self) -> &'a [u8]
        ensures octets { result.now ≡ self.now.icv }
        ensures length { length result.now ≡ 16 }
    {
        self.icv
    }

    /// The octets after the ICV. There are none if SL is 0.
    pub fn padding(&self) -> &'a [u8]
        ensures { result.now ≡ self.now.padding }
    {
        self.padding
    }

    /// The fields of the SecTAG.
    pub fn tag(&self) -> SecTag
        ensures { result ≡ self.now.tag }
    {
        self.tag
    }
}

/// The result of reading a frame.
#[derive(Drop)]
pub enum Read<'a> {
    /// No SecTAG follows the addresses.
    Untagged,
    /// The frame is too short, or it has the MACsec EtherType and a fault. This is its first fault.
    Bad(TagFault),
    /// A SecTAG follows the addresses. These are the frame's parts.
    Tagged(Mpdu<'a>),
}
