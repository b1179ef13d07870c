//! The installed keys, for work outside the endpoint.

ghost use Rattle.std.specs.Prelude.{◌≡◌, IfSome, MatchOption, None, Some};
ghost use Rattle.macsec_suite.specs.KeyRows.{key_row, the_key};
ghost use Rattle.macsec_suite.specs.KeyTables.{HasOwnKey, row_shown};
ghost use Rattle.macsec_secy.specs.Sound.{IsSound};

use crate::{KeyNumber, Secy};
use macsec_suite::KeyRow;

impl Secy {
    /// The row of the key of this number, if there is such a key. Its `suite_key` is prepared from its own octets.
    pub fn installed(&self, number: KeyNumber) -> Option<&KeyRow>
        ensures row { MatchOption result (key_row self.now.keys number ≡ None)
            (λ r. key_row self.now.keys number ≡ Some (row_shown r.now (the_key self.now.keys number).first_unused)) }
        ensures prepared { IfSome result (λ r. HasOwnKey r.now) }
        ensures sound { IsSound self.now }
    {
        self.keys.key(number)
    }
}
