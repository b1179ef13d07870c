//! The cipher suites (IEEE 802.1AE, clause 14).

ghost use Rattle.std.specs.Prelude.{◌≡◌, ◌<◌};
ghost use Rattle.macsec_suite.specs.Suites.{is_xpn, key_length, last_of, number_of_suite};
ghost use Rattle.macsec_suite.specs.Refusals.{is_too_wide};
ghost use Rattle.macsec_suite.specs.Keys.{has_wrong_offset};

/// The widest replay window with 32-bit packet numbers.
pub(crate) const WIDEST_SHORT_WINDOW: u64 = (1 << 32) - 1;

/// The widest replay window with extended packet numbers.
pub(crate) const WIDEST_EXTENDED_WINDOW: u64 = (1 << 30) - 1;

/// A cipher suite.
#[derive(Clone, Copy, PartialEq, Eq, Debug)]
pub enum Suite {
    /// GCM-AES-128 (14.5).
    Gcm128,
    /// GCM-AES-256 (14.6).
    Gcm256,
    /// GCM-AES-XPN-128: extended packet numbers (14.7).
    Xpn128,
    /// GCM-AES-XPN-256: extended packet numbers (14.8).
    Xpn256,
}

impl Suite {
    /// The number of octets of a key.
    pub fn key_length(self) -> usize
        ensures { result ≡ key_length self }
    {
        match self {
            Suite::Gcm128 | Suite::Xpn128 => 16,
            Suite::Gcm256 | Suite::Xpn256 => 32,
        }
    }

    /// Whether packet numbers are extended: they have 64 bits, and the SecTAG carries the lower 32.
    pub fn is_xpn(self) -> bool
        ensures { result ≡ is_xpn self }
    {
        match self {
            Suite::Gcm128 | Suite::Gcm256 => false,
            Suite::Xpn128 | Suite::Xpn256 => true,
        }
    }

    /// The suite's number in calls from C.
    pub fn number(self) -> u8
        ensures { result ≡ number_of_suite self }
    {
        match self {
            Suite::Gcm128 => 1,
            Suite::Gcm256 => 2,
            Suite::Xpn128 => 3,
            Suite::Xpn256 => 4,
        }
    }

    /// The last packet number.
    pub fn last(self) -> u64
        ensures { result ≡ last_of self }
    {
        if self.is_xpn() { u64::MAX } else { 0xffff_ffff }
    }

    /// Whether packet numbers are extended and the replay window is too wide for them.
    pub(crate) fn is_too_wide(self, window: u64) -> bool
        ensures { result ≡ is_too_wide self window }
    {
        self.is_xpn() && window > WIDEST_EXTENDED_WINDOW
    }

    /// Whether the suite's keys cannot have this confidentiality offset.
    pub(crate) fn has_wrong_offset(self, offset: u8) -> bool
        ensures { result ≡ has_wrong_offset self offset }
    {
        if self.is_xpn() {
            offset != 0
        } else {
            !(offset == 0 || offset == 30 || offset == 50)
        }
    }
}
