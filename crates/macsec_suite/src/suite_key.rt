//! Keys prepared for a cipher suite.

ghost use Rattle.std.specs.Prelude.{◌≡◌, IfOk};
ghost use Rattle.macsec_aes.specs.Keys.{key_bytes};
ghost use Rattle.macsec_suite.specs.Keys.{fault_of, prepared_from, suite_key_fault};
ghost use Rattle.macsec_suite.specs.FaultNumbers.{number_of_suite_fault};

use crate::Suite;
use macsec_aes::Key;
use macsec_gcm::GcmKey;
use std::marker::Model;
use thiserror::Error;

/// Why a key is refused, in the order of the tests.
#[derive(Clone, Copy, PartialEq, Eq, Debug, Error)]
pub enum SuiteFault {
    /// The suite's keys have another length.
    #[error("the key's length is not the suite's")]
    KeyLength = 1,
    /// The confidentiality offset is not 0, 30 or 50, or, with extended packet numbers, not 0.
    #[error("the suite's keys have no such offset")]
    Offset = 2,
}

impl SuiteFault {
    /// The number of the fault, 1 or 2, in the order of the tests.
    pub fn number(self) -> u8
        ensures { result ≡ number_of_suite_fault self }
    {
        self as u8
    }
}

/// A key prepared for a suite. Contracts see it as the suite, the key's bytes and its confidentiality offset.
#[derive(Clone, Drop)]
pub struct SuiteKey {
    pub(crate) suite: Suite,
    pub(crate) key: GcmKey,
    pub(crate) offset: u8,
}

impl Model for SuiteKey {
    ghost use Rattle.macsec_suite.specs.Keys.{PreparedKey};

    ghost Value = { PreparedKey };

    ghost view = { λ k. record { suite = k.suite; bytes = k.key; offset = k.offset } };
}

impl SuiteKey {
    /// Prepares a key for a suite. The salt is not kept; pass it to `iv_of`.
    ///
    /// Errors: `KeyLength`, then `Offset`.
    pub fn new(suite: Suite, key: Key, _salt: [u8; 12], offset: u8) -> Result<SuiteKey, SuiteFault>
        ensures fault { fault_of result ≡ suite_key_fault suite key offset }
        ensures value { IfOk result (λ k. k ≡ prepared_from suite key offset) }
    {
        if octets_of(&key).len() != suite.key_length() {
            return Err(SuiteFault::KeyLength);
        }
        if suite.has_wrong_offset(offset) {
            return Err(SuiteFault::Offset);
        }
        Ok(SuiteKey {
            suite,
            key: GcmKey::new(key),
            offset,
        })
    }

    /// Prepares another key for the same suite and with the same offset. What was prepared from the old one is
    /// overwritten.
    pub(crate) fn replace(&mut self, key: Key)
        ensures { self.new ≡ prepared_from self.old.suite key self.old.offset }
    {
        self.key = GcmKey::new(key);
    }

    /// Prepares another key, for this suite and with this offset. What was prepared from the old one is overwritten.
    pub(crate) fn renew(&mut self, suite: Suite, key: Key, offset: u8)
        ensures { self.new ≡ prepared_from suite key offset }
    {
        self.suite = suite;
        self.key = GcmKey::new(key);
        self.offset = offset;
    }

    /// Says whether the key's key streams are to be made 16 blocks at once, as `GcmKey::prefer_wide`.
    pub(crate) fn prefer_wide(&mut self, wide: bool)
        ensures { self.new ≡ self.old }
    {
        self.key.prefer_wide(wide);
    }

    /// The suite that the key is prepared for.
    pub fn suite(&self) -> Suite
        ensures { result ≡ self.now.suite }
    {
        self.suite
    }
}

pub(crate) fn octets_of(key: &Key) -> &[u8]
    ensures { result.now ≡ key_bytes key.now }
{
    match key {
        Key::K128(octets) => octets,
        Key::K256(octets) => octets,
    }
}
