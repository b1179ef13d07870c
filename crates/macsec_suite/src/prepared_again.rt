//! An installed key that is prepared once more, for work outside its table.

ghost use Rattle.std.specs.Prelude.{◌≡◌};
ghost use Rattle.macsec_aes.specs.Keys.{key_bytes};
ghost use Rattle.macsec_gcm.specs.Octets.{same_octets};
ghost use Rattle.macsec_suite.specs.KeyTables.{HasOwnKey};

use crate::key_table::are_same;
use crate::suite_key::octets_of;
use crate::{KeyRow, SuiteKey};
use macsec_aes::Key;
use macsec_gcm::GcmKey;

impl KeyRow {
    /// Prepares the key of a `KeyTable` once more, from the row's own octets. The two rows are equal.
    pub fn prepared_again(&self) -> KeyRow
        requires { HasOwnKey self.now }
        ensures { result ≡ self.now }
    {
        let mut suite_key = SuiteKey {
            suite: self.suite_key.suite(),
            key: GcmKey::new(self.key.bytes),
            offset: self.key.offset,
        };
        suite_key.prefer_wide(self.suite_key.key.is_wide());
        KeyRow {
            key: self.key,
            suite_key,
            retired: self.retired,
        }
    }

    /// Whether these are the key's octets. It compares all of them, if they are as many.
    pub fn has_bytes(&self, bytes: &Key) -> bool
        ensures { result ≡ same_octets (key_bytes bytes.now) (key_bytes self.now.key.bytes) }
    {
        are_same(octets_of(bytes), octets_of(&self.key.bytes))
    }
}
