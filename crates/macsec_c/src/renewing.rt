//! A key that may take the place of a retired one.

ghost use Rattle.macsec_c_values.specs.Keys.{new_key_of};
ghost use Rattle.macsec_c.specs.Answers.{RenewsHeld};

use crate::endpoint::Endpoint;
use macsec_c_calls::renew_key;
use macsec_c_values::{EMPTY, Sak, new_key_of};

/// Install a key, also under the number of a retired key that no SA uses: the new key then takes that key's place.
#[unsafe(no_mangle)]
pub extern "C" fn macsec_renew_key(e: &mut Endpoint, key: &Sak) -> u32
    ensures { RenewsHeld e.old.state (new_key_of key.now) result e.new.state }
{
    if !e.is_made() {
        return EMPTY;
    }
    renew_key(e.held(), new_key_of(key))
}
