//! The names of an endpoint's keys, and their entries.

ghost use Rattle.std.specs.Prelude.{◌≡◌, ◌≤◌, ◌+◌, ◌++◌, drop, length, map, vec_capacity, vec_len};
ghost use Rattle.macsec_reserve.specs.Names.{entry_of, name_or_none, name_row, names_after, place_named};

use crate::forgetting::name_of_key;
use crate::{NamedKey, Reservation, sending_name};
use macsec_secy::{Command, KeyNumber};

/// The name of the key of this number, or the name of no octets.
pub(crate) fn name_of(salt: &[u8; 24], names: &[NamedKey], key: KeyNumber) -> [u8; 32]
    ensures { result ≡ name_or_none salt.now (name_row names.now key) }
{
    match named_key(names, key) {
        None => sending_name(salt, &[]),
        Some(named) => named.name,
    }
}

/// The name of the key of this number, if there is such a key.
pub(crate) fn named_key(names: &[NamedKey], key: KeyNumber) -> Option<NamedKey>
    ensures { result ≡ name_row names.now key }
{
    for named in names {
        if named.number == key {
            return Some(*named);
        }
    }
    None
}

/// The place of the key of this number among the names.
pub(crate) fn place_of(names: &[NamedKey], key: KeyNumber) -> usize
    ensures { result ≡ place_named names.now key }
{
    let mut place = 0;
    for named in names {
        if named.number == key {
            return place;
        }
        place += 1;
    }
    place
}

/// Notes the name of the key that a command has installed, if it has installed one.
pub(crate) fn note_key(salt: &[u8; 24], names: &mut Vec<NamedKey>, command: &Command)
    requires { length (names_after salt.now names.old.items command.now) ≤ vec_capacity names.old }
    ensures items { names.new.items ≡ names_after salt.now names.old.items command.now }
    ensures room { vec_capacity names.old ≤ vec_capacity names.new }
{
    if let Command::Key(key) = *command {
        let number = key.number;
        let name = name_of_key(salt, key.bytes);
        names.push(NamedKey { number, name }).unwrap();
    }
}

/// Gives an entry to each key that has none yet.
pub(crate) fn add_entries(granted: &mut Vec<Reservation>, names: &[NamedKey])
    requires { length names.now ≤ vec_capacity granted.old }
    ensures items { granted.new.items ≡ granted.old.items ++ map entry_of (drop (length granted.old.items) names.now) }
    ensures room { vec_capacity granted.old ≤ vec_capacity granted.new }
{
    let count = granted.len();
    if count < names.len() {
        append_entries(granted, &names[count..]);
    }
}

/// Appends an entry for each of these names.
fn append_entries(granted: &mut Vec<Reservation>, names: &[NamedKey])
    requires { vec_len granted.old + length names.now ≤ vec_capacity granted.old }
    ensures items { granted.new.items ≡ granted.old.items ++ map entry_of names.now }
    ensures room { vec_capacity granted.old ≤ vec_capacity granted.new }
{
    for named in names {
        let name = named.name;
        granted.push(Reservation { name, last: 0 }).unwrap();
    }
}
