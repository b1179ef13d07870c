//! What takes the place of the octets of a forgotten key.

ghost use Rattle.std.specs.Prelude.{◌≡◌, map, take};
ghost use Rattle.macsec_aes.specs.Keys.{key_bytes};
ghost use Rattle.macsec_suite.specs.Suites.{key_length};
ghost use Rattle.macsec_reserve.specs.Forgetting.{key_of_fingerprint};
ghost use Rattle.macsec_reserve.specs.Journal.{sending_name};
ghost use Rattle.macsec_reserve.specs.Names.{renamed};

use crate::{NamedKey, sending_name};
use macsec_aes::Key;
use macsec_secy::{KeyNumber, Suite};

/// The name of a key for sending.
pub(crate) fn name_of_key(salt: &[u8; 24], key: Key) -> [u8; 32]
    ensures { result ≡ sending_name salt.now (key_bytes key) }
{
    match key {
        Key::K128(bytes) => sending_name(salt, bytes.as_slice()),
        Key::K256(bytes) => sending_name(salt, bytes.as_slice()),
    }
}

/// A key, with its fingerprint in place of its octets.
pub(crate) fn fingerprint(salt: &[u8; 24], key: Key) -> Key
    ensures { result ≡ key_of_fingerprint salt.now key }
{
    match key {
        Key::K128(bytes) => Key::K128(first_16(&sending_name(salt, bytes.as_slice()))),
        Key::K256(bytes) => Key::K256(sending_name(salt, bytes.as_slice())),
    }
}

/// The first octets of a name as a key, as many as the keys of this suite have.
pub(crate) fn key_of_name(suite: Suite, name: &[u8; 32]) -> Key
    ensures { key_bytes result ≡ take (key_length suite) name.now }
{
    match suite {
        Suite::Gcm128 => Key::K128(first_16(name)),
        Suite::Xpn128 => Key::K128(first_16(name)),
        Suite::Gcm256 => Key::K256(*name),
        Suite::Xpn256 => Key::K256(*name),
    }
}

/// The first 16 octets of a name.
fn first_16(name: &[u8; 32]) -> [u8; 16]
    ensures { result ≡ take 16 name.now }
{
    let mut octets = [0; 16];
    octets.copy_from_slice(&name[..16]);
    octets
}

/// Gives the key of this number another name.
pub(crate) fn rename(names: &mut [NamedKey], number: KeyNumber, name: &[u8; 32])
    ensures { names.new ≡ map (renamed number name.now) names.old }
{
    for named in names.iter_mut() {
        *named = renamed(*named, number, name);
    }
}

/// A key, with this name if it has this number.
fn renamed(named: NamedKey, number: KeyNumber, name: &[u8; 32]) -> NamedKey
    ensures { result ≡ renamed number name.now named }
{
    if named.number == number {
        let name = *name;
        NamedKey { number, name }
    } else {
        named
    }
}
