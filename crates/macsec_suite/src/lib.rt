//! The cipher suites of MACsec, applied to frames (IEEE 802.1AE, clause 14): keys prepared for a suite, IVs, protection
//! and validation in place, and the table of an endpoint's keys.
//!
//! Proved: `SuiteKey::new` refuses a key whose length is not the suite's (`KeyLength`), then an offset that the suite
//! does not have (`Offset`), and nothing else. Contracts see a `SuiteKey` as its suite, bytes and offset. `iv_of` is
//! the SCI followed by the packet number. With extended packet numbers it is the xor of two lists of 12 octets: the
//! salt, and the SSCI followed by all 64 bits of the packet number. The packet number must be at most the suite's
//! last one.
//!
//! Proved: `protect_in_place` keeps DA, SA, SecTAG and the clear octets of the data, encrypts the rest, and writes the
//! ICV after them. `validate_in_place` returns true exactly if opening gives a plaintext, which then replaces the
//! ciphertext; otherwise it changes nothing. Both require a SecTAG of 8 or 16 octets, a slice that holds the parts, and
//! data of at most 68,719,476,704 octets. `seal_in_place` protects a frame with any octets before its data. No contract
//! prevents a caller from using an IV twice under a key. Laws (`laws`): the parts of a frame in place are the frame's
//! parts; what two frames with equal IVs have in common.
//!
//! Proved: a `KeyTable` is the list of its keys in the order of their installation. `install` and `retire` refuse with
//! the first refusal that applies, and then change nothing. Otherwise they change the one key and no other, as does
//! `note_used`, which like `key_at` requires the place of a key. So no key number and no key bytes are installed twice,
//! even after a key is retired. `replace` gives a retired key other bytes, which no key has; after it the new ones are
//! refused, and no longer the old ones. `renew` installs a key also under the number of a retired key. Then the one row
//! becomes the new key's, and the old bytes are no longer refused. Only `KeyTable::new` and `try_clone`, which makes a
//! second table, take an allocator. `KeyRow::prepared_again` returns an equal row.
#![tactic(auto)]

mod checksum;
mod in_place;
mod iv;
mod key_number;
mod key_row;
mod key_table;
pub mod laws;
mod pieces;
mod prepared_again;
mod refusal;
mod suite;
mod suite_key;

pub use in_place::{protect_in_place, seal_in_place, validate_in_place};
pub use iv::iv_of;
pub use key_number::KeyNumber;
pub use key_row::{KeyRow, NewKey};
pub use key_table::{KeyPlace, KeyTable};
pub use refusal::Refusal;
pub use suite::Suite;
pub use suite_key::{SuiteFault, SuiteKey};
