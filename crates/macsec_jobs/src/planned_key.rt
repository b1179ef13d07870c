//! The key of a job.

ghost use Rattle.std.specs.Prelude.{◌≡◌};
ghost use Rattle.macsec_jobs.specs.PlannedKeys.{IsGone, key_of, planned_of, same_key, same_prepared};

use macsec_aes::Key;
use macsec_suite::{KeyNumber, KeyRow, Suite};

/// The key of a job: its number at its endpoint, and what distinguishes it from every other key.
#[derive(Clone, Copy)]
pub struct PlannedKey {
    /// Its number.
    pub(crate) number: KeyNumber,
    /// Its cipher suite.
    pub(crate) suite: Suite,
    /// Its confidentiality offset.
    pub(crate) offset: u8,
    /// Its octets.
    pub(crate) bytes: Key,
}

impl PlannedKey {
    /// A key of zeros, for a slot without a job.
    pub(crate) fn none() -> PlannedKey
        ensures { IsGone result }
    {
        PlannedKey {
            number: KeyNumber::default(),
            suite: Suite::Gcm128,
            offset: 0,
            bytes: Key::K128([0; 16]),
        }
    }

    /// The key of a row.
    pub(crate) fn of(row: &KeyRow) -> PlannedKey
        ensures { result ≡ planned_of row.now }
    {
        PlannedKey {
            number: row.key.number,
            suite: row.suite_key.suite(),
            offset: row.key.offset,
            bytes: row.key.bytes,
        }
    }

    /// Whether this is the key of the row, prepared, under whatever number.
    pub(crate) fn is_prepared_as(&self, row: &KeyRow) -> bool
        ensures { result ≡ same_prepared (key_of self.now) (key_of (planned_of row.now)) }
    {
        let same = row.has_bytes(&self.bytes);
        self.suite.number() == row.suite_key.suite().number()
            && (self.offset == row.key.offset && same)
    }

    /// Whether this is the key of the row, under the row's number.
    pub(crate) fn is_of(&self, row: &KeyRow) -> bool
        ensures { result ≡ same_key self.now (planned_of row.now) }
    {
        self.number == row.key.number && self.is_prepared_as(row)
    }
}
