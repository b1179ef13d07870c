//! SecTAGs (IEEE 802.1AE, 9.3).

ghost use Rattle.std.specs.Prelude.{◌≡◌, ◌<◌, ◌↔◌, ◌⊎◌, length, IsSome, IfSome};
ghost use Rattle.macsec_tag.specs.Tag.{IsTag, encoding, tag_from};

use crate::{An, Sci};
use std::marker::Model;

/// The MACsec EtherType (9.4).
pub(crate) const MACSEC_ETHERTYPE: u16 = 0x88e5;

/// The bits of the octet of TCI and AN (9.5).
pub(crate) const V_BIT: u8 = 0x80;

pub(crate) const ES_BIT: u8 = 0x40;

pub(crate) const SC_BIT: u8 = 0x20;

pub(crate) const SCB_BIT: u8 = 0x10;

pub(crate) const E_BIT: u8 = 0x08;

pub(crate) const C_BIT: u8 = 0x04;

/// A SecTAG (9.3). Contracts see it as the record of its fields.
#[derive(Clone, Copy)]
pub struct SecTag {
    pub(crate) es: bool,
    pub(crate) scb: bool,
    pub(crate) e: bool,
    pub(crate) c: bool,
    pub(crate) an: An,
    pub(crate) sl: u8,
    pub(crate) pn: u32,
    pub(crate) sci: Option<Sci>,
}

impl Model for SecTag {
    ghost use Rattle.macsec_tag.specs.Tag.{Tag, IsTag};

    ghost Value = { Tag };

    ghost view = { λ t. record { es = t.es; scb = t.scb; e = t.e; c = t.c; an = t.an; sl = t.sl; pn = t.pn; sci = t.sci } };

    ghost invariant = { λ t. IsTag (record { es = t.es; scb = t.scb; e = t.e; c = t.c; an = t.an; sl = t.sl; pn = t.pn; sci = t.sci }) };

    ghost inverse = { λ t. record { es = t.es; scb = t.scb; e = t.e; c = t.c; an = t.an; sl = t.sl; pn = t.pn; sci = t.sci } };
}

impl SecTag {
    /// Returns the SecTAG with these fields. Returns `None` if `sl` is above 47, or if there is an SCI and ES or SCB is
    /// set.
    pub fn new(
        es: bool,
        scb: bool,
        e: bool,
        c: bool,
        an: An,
        sl: u8,
        pn: u32,
        sci: Option<Sci>,
    ) -> Option<SecTag>
        ensures value { IfSome result (λ t. t ≡ tag_from es scb e c an sl pn sci) }
        ensures valid { IsSome result ↔ (IsTag (tag_from es scb e c an sl pn sci)) }
    {
        if sl < 48 && !(sci.is_some() && (es || scb)) {
            Some(SecTag {
                es,
                scb,
                e,
                c,
                an,
                sl,
                pn,
                sci,
            })
        } else {
            None
        }
    }

    /// ES: the source address is the SCI's (9.5).
    pub fn es(&self) -> bool
        ensures { result ≡ self.now.es }
    {
        self.es
    }

    /// SCB: the frame is for the single copy broadcast (9.5).
    pub fn scb(&self) -> bool
        ensures { result ≡ self.now.scb }
    {
        self.scb
    }

    /// E: the Secure Data are encrypted (9.5).
    pub fn e(&self) -> bool
        ensures { result ≡ self.now.e }
    {
        self.e
    }

    /// C: the Secure Data differ from the client's (9.5).
    pub fn c(&self) -> bool
        ensures { result ≡ self.now.c }
    {
        self.c
    }

    /// The association number (9.6).
    pub fn an(&self) -> An
        ensures { result ≡ self.now.an }
    {
        self.an
    }

    /// The short length, 0 to 47: the number of octets of Secure Data, or 0 if they are 48 or more (9.7).
    pub fn sl(&self) -> u8
        ensures { result ≡ self.now.sl }
    {
        self.sl
    }

    /// The PN field: 32 bits of the packet number (9.8).
    pub fn pn(&self) -> u32
        ensures { result ≡ self.now.pn }
    {
        self.pn
    }

    /// The SCI, if the SecTAG carries one (9.9).
    pub fn sci(&self) -> Option<Sci>
        ensures { result ≡ self.now.sci }
    {
        self.sci
    }

    /// The length of the SecTAG in octets: 16 with an SCI, otherwise 8.
    pub fn length(&self) -> usize
        ensures length { result ≡ length (encoding self.now) }
        ensures either { (result ≡ 8) ⊎ (result ≡ 16) }
    {
        if self.sci.is_some() { 16 } else { 8 }
    }
}
