//! The table of an endpoint's keys (IEEE 802.1AE, 10.7).

ghost use Rattle.std.specs.Prelude.{◌≡◌, ◌≤◌, ◌+◌, true, not, [], ◌∷◌, ◌++◌, length, map, slice_get, vec_capacity};
ghost use Rattle.std.specs.Prelude.{vec_len, IfOk, OnOk, OnErr, IfSome, MatchOption, is_some, option_map, Some, None};
ghost use Rattle.std.specs.Bool.{OnTrue, OnFalse};
ghost use Rattle.std.specs.List.{All, list_any};
ghost use Rattle.macsec_aes.specs.Keys.{key_bytes};
ghost use Rattle.macsec_gcm.specs.Octets.{same_octets};
ghost use Rattle.macsec_suite.specs.Checksums.{has_checksum};
ghost use Rattle.macsec_suite.specs.KeyRows.{AreKeyRows, is_extended, key_row, keys_noting, keys_replacing};
ghost use Rattle.macsec_suite.specs.KeyRows.{keys_retiring, keys_with, max_key_count, new_row, suite_of, the_key};
ghost use Rattle.macsec_suite.specs.KeyRows.{widest_beside, with_bytes};
ghost use Rattle.macsec_suite.specs.KeyTables.{HasOwnKey, IsPlace, extended_count, first_unused_of, row_shown};
ghost use Rattle.macsec_suite.specs.KeyTables.{stored_row};
ghost use Rattle.macsec_suite.specs.Suites.{key_length};
ghost use Rattle.macsec_suite.specs.Refusals.{first_refusal, has_retired, install_refusals, is_repeated};
ghost use Rattle.macsec_suite.specs.Refusals.{is_retired_with, refusal_of, retire_refusals};
ghost use Rattle.macsec_suite.specs.Refusals.{is_retired};
ghost use Rattle.macsec_suite.specs.Renewing.{add_refusals, is_number_taken, keys_added, keys_renewing};
ghost use Rattle.macsec_suite.specs.Replacing.{can_replace};

use crate::checksum::checksum_of;
use crate::key_number::MAX_KEY_COUNT;
use crate::suite::{WIDEST_EXTENDED_WINDOW, WIDEST_SHORT_WINDOW};
use crate::suite_key::octets_of;
use crate::{KeyNumber, KeyRow, NewKey, Refusal, Suite, SuiteFault, SuiteKey};
use macsec_aes::Key;
use std::alloc::{AllocError, Global};
use std::marker::Model;

/// The number of entries of the index, one for each key number.
const PLACE_COUNT: usize = MAX_KEY_COUNT as usize;

/// The index entry of a number without a key. No row has this index.
const NO_PLACE: u16 = MAX_KEY_COUNT;

/// Where a key is in its table: its number and the index of its row.
#[derive(Clone, Copy)]
pub struct KeyPlace {
    number: KeyNumber,
    index: u16,
}

impl KeyPlace {
    /// The number of the key.
    pub fn number(&self) -> KeyNumber
        ensures { result ≡ self.now.number }
    {
        self.number
    }
}

/// An installed key and the first packet number that was never used under it.
#[derive(Clone, Drop)]
pub struct StoredKey {
    row: KeyRow,
    first_unused: u128,
}

/// The keys of an endpoint, in the order of their installation. Contracts see the table as the list of its rows.
#[derive(Drop)]
pub struct KeyTable {
    rows: Vec<StoredKey>,
    /// For each key number, the index of its row.
    places: Vec<u16>,
    /// For each row, the checksum of its key's octets.
    checksums: Vec<u32>,
    /// Whether a key was ever retired.
    retires: bool,
    /// How many keys have extended packet numbers and are not retired.
    extended: u16,
    /// Whether key streams of keys that are installed are made 16 blocks at once.
    wide: bool,
}

impl Model for KeyTable {
    ghost use Rattle.std.specs.Prelude.{◌≡◌, ◌≤◌, List, map, vec_capacity};
    ghost use Rattle.std.specs.List.{All};
    ghost use Rattle.macsec_suite.specs.Checksums.{AreChecksums, AreRetiredIf};
    ghost use Rattle.macsec_suite.specs.KeyNumbers.{max_key_count};
    ghost use Rattle.macsec_suite.specs.KeyRows.{AreKeyRows, InstalledKey};
    ghost use Rattle.macsec_suite.specs.KeyTables.{HasOwnKey, IsIndex, extended_count, stored_row};

    ghost Value = { List InstalledKey };

    ghost view = { λ t. map stored_row t.rows.items };

    // There is space for every key that an endpoint can have. Key numbers are distinct, each key is prepared from its
    // own bytes, the index finds each key by its number, and `extended` counts the keys that have extended
    // packet numbers and are not retired. Each row has its checksum, also after its octets are replaced. No key is
    // retired unless `retires` is true.
    ghost invariant = { λ t. (max_key_count ≤ vec_capacity t.rows) × AreKeyRows (map stored_row t.rows.items)
        × All (λ s. HasOwnKey s.row) t.rows.items × IsIndex t.places.items (map stored_row t.rows.items)
        × (t.extended ≡ extended_count (map stored_row t.rows.items))
        × AreChecksums t.checksums.items (vec_capacity t.checksums) (map stored_row t.rows.items)
        × AreRetiredIf t.retires (map stored_row t.rows.items) };
}

impl KeyTable {
    /// Creates an empty table with space for 4,096 keys.
    pub fn new(alloc: Global) -> Result<KeyTable, AllocError>
        ensures { IfOk result (λ t. t ≡ []) }
    {
        Ok(KeyTable {
            rows: Vec::with_capacity(alloc, PLACE_COUNT)?,
            places: vec![in alloc; NO_PLACE; PLACE_COUNT]?,
            checksums: Vec::with_capacity(alloc, PLACE_COUNT)?,
            retires: false,
            extended: 0,
            wide: false,
        })
    }

    /// Becomes equal to another table. If memory runs out, nothing changes.
    pub fn copy_from(&mut self, alloc: Global, other: &KeyTable) -> Result<(), AllocError>
        ensures equal { OnOk result (self.new ≡ other.now) }
        ensures unchanged { OnErr result (self.new ≡ self.old) }
    {
        if !self.rows.as_slice().is_empty() {
            *self = other.try_clone(alloc)?;
            return Ok(());
        }
        // An empty table has space for all keys. Another one would only be allocated, overwritten and freed.
        let places = other.places.clone()?;
        let checksums = clone_of(alloc, other.checksums.as_slice())?;
        match append_clones(&mut self.rows, other.rows.as_slice()) {
            Ok(()) => {}
            Err(fault) => {
                self.rows.clear();
                return Err(fault);
            }
        }
        self.places = places;
        self.checksums = checksums;
        self.retires = other.retires;
        self.extended = other.extended;
        self.wide = other.wide;
        Ok(())
    }

    /// A second table that is equal to this one, with space for as many keys.
    fn try_clone(&self, alloc: Global) -> Result<KeyTable, AllocError>
        ensures { IfOk result (λ t. t ≡ self.now) }
    {
        let mut rows = Vec::with_capacity(alloc, PLACE_COUNT)?;
        append_clones(&mut rows, self.rows.as_slice())?;
        Ok(KeyTable {
            rows,
            places: self.places.clone()?,
            checksums: clone_of(alloc, self.checksums.as_slice())?,
            retires: self.retires,
            extended: self.extended,
            wide: self.wide,
        })
    }

    /// Says whether the key streams of these keys, and of keys that are installed later, are to be made 16 blocks at
    /// once, for processors with vectors of 256 bits. This changes no result.
    pub fn prefer_wide(&mut self, wide: bool)
        ensures { self.new ≡ self.old }
    {
        prefer_wide_all(self.rows.as_mut_slice(), wide);
        self.wide = wide;
    }

    /// Installs a key. A key that names no suite gets the default one. Its first unused packet number is 1. `window` is
    /// the endpoint's replay window.
    ///
    /// Errors: the first of `KeyLength`, `Offset`, `KeyNumberUsed`, `KeyRepeated` and `Window` that applies. `Window`
    /// applies if the key's suite has extended packet numbers and the window is above 2^30 - 1.
    pub fn install(&mut self, default: Suite, key: &NewKey, window: u64) -> Result<(), Refusal>
        ensures refusal { refusal_of result
            ≡ first_refusal (install_refusals (suite_of default key.now) window self.old key.now) }
        ensures done { OnOk result (self.new ≡ keys_with (suite_of default key.now) self.old key.now) }
        ensures unchanged { OnErr result (self.new ≡ self.old) }
        ensures rows { OnOk result (AreKeyRows self.new) }
    {
        self.add(default, key, window, false)
    }

    /// Installs a key as `install` does, also under the number of a retired key. Then it takes the row of that key,
    /// whose octets are overwritten, with all that was prepared from them. Every other row stays as it is, and where it
    /// is.
    ///
    /// The table no longer knows the octets of the key that was in the row, so it does not refuse them any more.
    /// Remember them, or a fingerprint of them, and install no key that has them.
    ///
    /// Errors: those of `install`, in the same order. `KeyNumberUsed` applies if a key that is not retired has the
    /// number, or if a key has it and `in_use` is true. `in_use` is whether an SA uses the key with this number now.
    pub fn renew(
        &mut self,
        default: Suite,
        key: &NewKey,
        window: u64,
        in_use: bool,
    ) -> Result<(), Refusal>
        ensures refusal { refusal_of result
            ≡ first_refusal (add_refusals (not in_use) (suite_of default key.now) window self.old key.now) }
        ensures done { OnOk result (self.new ≡ keys_added (not in_use) (suite_of default key.now) self.old key.now) }
        ensures unchanged { OnErr result (self.new ≡ self.old) }
        ensures rows { OnOk result (AreKeyRows self.new) }
    {
        self.add(default, key, window, !in_use)
    }

    /// Installs a key. If keys are renewed, a new key takes the row of a retired one with its number.
    fn add(
        &mut self,
        default: Suite,
        key: &NewKey,
        window: u64,
        renews: bool,
    ) -> Result<(), Refusal>
        ensures refusal { refusal_of result
            ≡ first_refusal (add_refusals renews (suite_of default key.now) window self.old key.now) }
        ensures done { OnOk result (self.new ≡ keys_added renews (suite_of default key.now) self.old key.now) }
        ensures unchanged { OnErr result (self.new ≡ self.old) }
        ensures rows { OnOk result (AreKeyRows self.new) }
    {
        let suite = key.suite.unwrap_or(default);
        let mut suite_key = match SuiteKey::new(suite, key.bytes, key.salt, key.offset) {
            Ok(suite_key) => suite_key,
            Err(SuiteFault::KeyLength) => return Err(Refusal::KeyLength),
            Err(SuiteFault::Offset) => return Err(Refusal::Offset),
        };
        if self.is_taken(key.number, renews) {
            return Err(Refusal::KeyNumberUsed);
        }
        if self.has_bytes(key.bytes) {
            return Err(Refusal::KeyRepeated);
        }
        if suite.is_too_wide(window) {
            return Err(Refusal::Window);
        }
        suite_key.prefer_wide(self.wide);
        if self.key(key.number).is_some() {
            self.put(*key, suite);
            return Ok(());
        }
        self.append(KeyRow {
            key: NewKey {
                suite: Some(suite),
                ..*key
            },
            suite_key,
            retired: false,
        });
        Ok(())
    }

    /// Retires a key: from then on no new SA may use it. `in_use` is whether an SA uses the key now.
    ///
    /// Errors: the first of `NoKey`, `KeyRetired` and `KeyInUse` that applies.
    pub fn retire(&mut self, number: KeyNumber, in_use: bool) -> Result<(), Refusal>
        ensures refusal { refusal_of result ≡ first_refusal (retire_refusals self.old number in_use) }
        ensures done { OnOk result (self.new ≡ keys_retiring self.old number) }
        ensures unchanged { OnErr result (self.new ≡ self.old) }
        ensures rows { OnOk result (AreKeyRows self.new) }
    {
        let Some(row) = self.key(number) else {
            return Err(Refusal::NoKey);
        };
        if row.retired {
            return Err(Refusal::KeyRetired);
        }
        if in_use {
            return Err(Refusal::KeyInUse);
        }
        let index = self.index_of(number) as usize;
        self.retires = true;
        let stored = &mut self.rows[index];
        self.extended -= stored.extended_count();
        stored.row.retired = true;
        Ok(())
    }

    /// Replaces the octets of a retired key by `bytes`, as if it had been installed with them. The old octets, and all
    /// that was prepared from them, are overwritten. Returns false and changes nothing if there is no such key or it is
    /// not retired, if its suite's keys have another length, or if a key has these octets already, retired or not.
    pub fn replace(&mut self, number: KeyNumber, bytes: Key) -> bool
        ensures answer { result ≡ can_replace self.old number (key_bytes bytes) }
        ensures replaced { OnTrue result (self.new ≡ keys_replacing self.old number (key_bytes bytes)) }
        ensures unchanged { OnFalse result (self.new ≡ self.old) }
        ensures rows { OnTrue result (AreKeyRows self.new) }
    {
        let Some(row) = self.key(number) else {
            return false;
        };
        if !row.can_have(&bytes) {
            return false;
        }
        if self.has_bytes(bytes) {
            return false;
        }
        let index = self.index_of(number) as usize;
        let checksum = checksum_of(octets_of(&bytes));
        self.checksums[index] = checksum;
        let stored = &mut self.rows[index];
        stored.replace(bytes);
        true
    }

    /// Returns the row of a key. Its `suite_key` is prepared from the key's own suite, bytes and offset.
    pub fn key(&self, number: KeyNumber) -> Option<&KeyRow>
        ensures row { MatchOption result (key_row self.now number ≡ None)
            (λ r. key_row self.now number ≡ Some (row_shown r.now (the_key self.now number).first_unused)) }
        ensures prepared { IfSome result (λ r. HasOwnKey r.now) }
    {
        let stored = self.stored(number)?;
        Some(&stored.row)
    }

    /// Finds a key by its number.
    pub fn find(&self, number: KeyNumber) -> Option<KeyPlace>
        ensures found { is_some result ≡ is_some (key_row self.now number) }
        ensures number { IfSome result (λ place. place.number ≡ number) }
        ensures place { IfSome result (IsPlace self.now) }
    {
        let index = self.index_of(number);
        if (index as usize) < self.rows.len() {
            Some(KeyPlace { number, index })
        } else {
            None
        }
    }

    /// Returns the row of the key at this place. Its `suite_key` is prepared as in `key`.
    pub fn key_at(&self, place: &KeyPlace) -> &KeyRow
        requires { IsPlace self.now place.now }
        ensures row { key_row self.now place.now.number
            ≡ Some (row_shown result.now (the_key self.now place.now.number).first_unused) }
        ensures prepared { HasOwnKey result.now }
    {
        &self.rows[place.index as usize].row
    }

    /// Returns the first packet number that was never used under the key.
    pub fn first_unused(&self, number: KeyNumber) -> Option<u128>
        ensures { result ≡ option_map first_unused_of (key_row self.now number) }
    {
        let stored = self.stored(number)?;
        Some(stored.first_unused)
    }

    /// The widest replay window that the installed keys allow: 2^30 - 1 if a key that is not retired has extended
    /// packet numbers, otherwise 2^32 - 1.
    pub fn widest_window(&self) -> u64
        ensures { result ≡ widest_beside self.now }
    {
        if self.has_extended() {
            WIDEST_EXTENDED_WINDOW
        } else {
            WIDEST_SHORT_WINDOW
        }
    }

    /// How many keys `install` can still take: 4,096 less the number of keys in the table, retired or not.
    pub fn keys_left(&self) -> u16
        ensures { result + length self.now ≡ max_key_count }
    {
        MAX_KEY_COUNT - self.rows.len() as u16
    }

    /// Whether a key that is not retired has extended packet numbers.
    fn has_extended(&self) -> bool
        ensures { result ≡ list_any is_extended self.now }
    {
        self.extended != 0
    }

    /// Records that the packet number `pn` was used under the key at this place. The first unused number becomes
    /// `pn` + 1 even if it was greater before, so call this with rising numbers.
    pub fn note_used(&mut self, place: &KeyPlace, pn: u64)
        requires { IsPlace self.old place.now }
        ensures noted { self.new ≡ keys_noting self.old place.now.number pn }
        ensures rows { AreKeyRows self.new }
    {
        let stored = &mut self.rows[place.index as usize];
        stored.first_unused = u128::from(pn) + 1;
    }

    fn stored(&self, number: KeyNumber) -> Option<&StoredKey>
        ensures row { MatchOption result (key_row self.now number ≡ None)
            (λ s. key_row self.now number ≡ Some (stored_row s.now)) }
        ensures prepared { IfSome result (λ s. HasOwnKey s.now.row) }
    {
        self.rows.as_slice().get(self.index_of(number) as usize)
    }

    /// The index of the key's row, or an index past the last row if there is no such key.
    fn index_of(&self, number: KeyNumber) -> u16
        ensures { key_row self.now number ≡ slice_get self.now result }
    {
        self.places[usize::from(number.number())]
    }

    /// Whether a key with these bytes was installed, retired or not. It compares every checksum. The rows are large and
    /// far apart, so it compares their octets only if a checksum is the same.
    fn has_bytes(&self, bytes: Key) -> bool
        ensures { result ≡ is_repeated self.now (key_bytes bytes) }
    {
        self.has_checksum(&bytes) && self.has_row_with(bytes)
    }

    /// Whether a retired key has these bytes.
    pub fn has_retired(&self, bytes: Key) -> bool
        ensures { result ≡ has_retired self.now (key_bytes bytes) }
    {
        if !self.retires {
            return false;
        }
        self.has_checksum(&bytes) && self.has_retired_row_with(bytes)
    }

    /// Whether a key has the checksum of these bytes. It compares every checksum.
    fn has_checksum(&self, bytes: &Key) -> bool
        ensures { result ≡ has_checksum self.now (key_bytes bytes.now) }
    {
        let checksum = checksum_of(octets_of(bytes));
        let checksums = self.checksums.as_slice();
        let mut found = false;
        'checksums: for i in 0..checksums.len() {
            found |= checksums[i] == checksum;
        }
        found
    }

    /// Whether a row has these bytes. It compares every row.
    fn has_row_with(&self, bytes: Key) -> bool
        ensures { result ≡ is_repeated self.now (key_bytes bytes) }
    {
        let rows = self.rows.as_slice();
        let mut found = false;
        'rows: for i in 0..rows.len() {
            found |= rows[i].has_bytes(bytes);
        }
        found
    }

    /// Whether the row of a retired key has these bytes. It compares every row.
    fn has_retired_row_with(&self, bytes: Key) -> bool
        ensures { result ≡ has_retired self.now (key_bytes bytes) }
    {
        let rows = self.rows.as_slice();
        let mut found = false;
        'rows: for i in 0..rows.len() {
            found |= rows[i].is_retired_with(bytes);
        }
        found
    }

    /// Whether a key has this number; if keys are renewed, one that is not retired.
    fn is_taken(&self, number: KeyNumber, renews: bool) -> bool
        ensures { result ≡ is_number_taken renews self.now number }
    {
        match self.key(number) {
            None => false,
            Some(row) => !(renews && row.retired),
        }
    }

    /// Puts a new key in the row of the retired key with its number.
    fn put(&mut self, key: NewKey, suite: Suite)
        requires retired { is_retired self.old key.number ≡ true }
        requires length { length (key_bytes key.bytes) ≡ key_length suite }
        ensures put { self.new ≡ keys_renewing suite self.old key }
        ensures rows { AreKeyRows self.new }
    {
        let index = self.index_of(key.number) as usize;
        let checksum = checksum_of(octets_of(&key.bytes));
        self.checksums[index] = checksum;
        let stored = &mut self.rows[index];
        stored.renew(key, suite, self.wide);
        let count = stored.extended_count();
        self.extended += count;
    }

    /// Appends a row, in the space that `new` reserved.
    fn append(&mut self, added: KeyRow)
        requires free { key_row self.old added.key.number ≡ None }
        requires length { length (key_bytes added.key.bytes) ≡ key_length added.suite_key.suite }
        requires prepared { HasOwnKey added }
        ensures added { self.new ≡ self.old ++ row_shown added 1 ∷ [] }
        ensures rows { AreKeyRows self.new }
    {
        self.places[added.number()] = self.rows.len() as u16;
        let checksum = checksum_of(octets_of(&added.key.bytes));
        self.retires |= added.retired;
        let stored = StoredKey {
            row: added,
            first_unused: 1,
        };
        self.extended += stored.extended_count();
        self.rows.push(stored).unwrap();
        self.checksums.push(checksum).unwrap();
    }
}

/// Appends clones of these keys.
fn append_clones(rows: &mut Vec<StoredKey>, more: &[StoredKey]) -> Result<(), AllocError>
    requires { vec_len rows.old + length more.now ≤ vec_capacity rows.old }
    ensures items { OnOk result (rows.new.items ≡ rows.old.items ++ more.now) }
    ensures space { vec_capacity rows.old ≤ vec_capacity rows.new }
{
    for stored in more {
        rows.push(stored.clone()?).unwrap();
    }
    Ok(())
}

/// A copy of these checksums, with space for those of 4,096 keys.
fn clone_of(alloc: Global, checksums: &[u32]) -> Result<Vec<u32>, AllocError>
    ensures items { IfOk result (λ copy. copy.items ≡ checksums.now) }
    ensures space { IfOk result (λ copy. max_key_count ≤ vec_capacity copy) }
{
    let mut copy = Vec::with_capacity(alloc, PLACE_COUNT)?;
    copy.extend_from_slice(checksums)?;
    Ok(copy)
}

/// Says it to each of these keys.
fn prefer_wide_all(keys: &mut [StoredKey], wide: bool)
    ensures rows { map stored_row keys.new ≡ map stored_row keys.old }
    ensures prepared { All (λ s. HasOwnKey s.row) keys.old → All (λ s. HasOwnKey s.row) keys.new }
{
    for i in 0..keys.len() {
        let stored = &mut keys[i];
        stored.prefer_wide(wide);
    }
}

impl StoredKey {
    /// Says whether the key's key streams are to be made 16 blocks at once.
    fn prefer_wide(&mut self, wide: bool)
        ensures row { stored_row self.new ≡ stored_row self.old }
        ensures prepared { HasOwnKey self.old.row → HasOwnKey self.new.row }
    {
        self.row.suite_key.prefer_wide(wide);
    }

    /// Whether the key has extended packet numbers and is not retired.
    fn is_extended(&self) -> bool
        ensures { result ≡ is_extended (stored_row self.now) }
    {
        self.row.suite_key.suite().is_xpn() && !self.row.retired
    }

    /// 1 if the key has extended packet numbers and is not retired, otherwise 0.
    fn extended_count(&self) -> u16
        ensures count { result ≡ extended_count (stored_row self.now ∷ []) }
        ensures most { result ≤ 1 }
    {
        if self.is_extended() { 1 } else { 0 }
    }

    fn has_bytes(&self, bytes: Key) -> bool
        ensures { result ≡ same_octets (stored_row self.now).bytes (key_bytes bytes) }
    {
        are_same(octets_of(&self.row.key.bytes), octets_of(&bytes))
    }

    /// Whether the key is retired and has these bytes. It compares them in either case.
    fn is_retired_with(&self, bytes: Key) -> bool
        ensures { result ≡ is_retired_with (key_bytes bytes) (stored_row self.now) }
    {
        let same = self.has_bytes(bytes);
        self.row.retired & same
    }

    /// Puts a new key here. No packet number is used under it. The old octets, and all that was prepared from them, are
    /// overwritten.
    fn renew(&mut self, key: NewKey, suite: Suite, wide: bool)
        ensures row { stored_row self.new ≡ new_row suite key }
        ensures prepared { HasOwnKey self.new.row }
    {
        self.row.suite_key.renew(suite, key.bytes, key.offset);
        self.row.suite_key.prefer_wide(wide);
        self.row.key = NewKey {
            suite: Some(suite),
            ..key
        };
        self.row.retired = false;
        self.first_unused = 1;
    }

    /// Replaces the octets of the key by `bytes`, and prepares it again.
    fn replace(&mut self, bytes: Key)
        ensures row { stored_row self.new ≡ with_bytes (key_bytes bytes) (stored_row self.old) }
        ensures prepared { HasOwnKey self.old.row → HasOwnKey self.new.row }
    {
        self.row.suite_key.replace(bytes);
        self.row.key.bytes = bytes;
    }
}

/// Whether the octets are the same. It compares all of them, if they are as many.
pub(crate) fn are_same(a: &[u8], b: &[u8]) -> bool
    ensures { result ≡ same_octets a.now b.now }
{
    if a.len() != b.len() {
        return false;
    }
    let mut same = true;
    'octets: for i in 0..a.len() {
        same &= a[i] == b[i];
    }
    same
}
