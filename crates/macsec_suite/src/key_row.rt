//! New keys and installed keys.

ghost use Rattle.std.specs.Prelude.{◌≡◌, ◌<◌};
ghost use Rattle.macsec_aes.specs.Keys.{key_bytes};
ghost use Rattle.macsec_suite.specs.KeyNumbers.{max_key_count};
ghost use Rattle.macsec_suite.specs.KeyTables.{row_shown};
ghost use Rattle.macsec_suite.specs.Replacing.{can_have};

use crate::suite_key::octets_of;
use crate::{KeyNumber, Suite, SuiteKey};
use macsec_aes::Key;

/// A key to install: an SAK (secure association key, 10.7) and its parameters.
#[derive(Clone, Copy)]
pub struct NewKey {
    /// The number by which SAs refer to the key.
    pub number: KeyNumber,
    /// The octets of the key, as many as its suite requires.
    pub bytes: Key,
    /// The salt of its IVs; used only with extended packet numbers.
    pub salt: [u8; 12],
    /// The endpoint's own SSCI under the key; used only with extended packet numbers.
    pub ssci: u32,
    /// The confidentiality offset: how many octets of the Secure Data are not encrypted.
    pub offset: u8,
    /// The cipher suite, or `None` for the endpoint's default.
    pub suite: Option<Suite>,
}

/// An installed key: one row of a `KeyTable`.
#[derive(Clone, Drop)]
pub struct KeyRow {
    /// The key as installed, with its suite filled in.
    pub key: NewKey,
    /// The key prepared for its suite.
    pub suite_key: SuiteKey,
    /// Whether the key is retired. No new SA may use a retired key.
    pub retired: bool,
}

impl KeyRow {
    /// The key number, as an index.
    pub(crate) fn number(&self) -> usize
        ensures value { result ≡ self.now.key.number }
        ensures below { result < max_key_count }
    {
        usize::from(self.key.number.number())
    }

    /// Whether the key is retired, and its suite's keys have as many octets as these.
    pub(crate) fn can_have(&self, bytes: &Key) -> bool
        ensures { result ≡ can_have (key_bytes bytes.now) (row_shown self.now 1) }
    {
        self.retired && octets_of(bytes).len() == self.suite_key.suite().key_length()
    }
}
