//! Where the receive SAs (secure associations) that a run deleted have ended.

ghost use Rattle.std.specs.Prelude.{◌≡◌, ◌≤◌, ◌∷◌, [], map, max, filter, not, if◌then◌else◌, vec_capacity, IfOk};
ghost use Rattle.macsec_ahead.specs.Ends.{end_of, end_of_row, ended_of, has_end, has_key_end, is_of, is_under};
ghost use Rattle.macsec_ahead.specs.Ends.{key_raised, last_end, last_under, max_end_count, no_ends, sa_raised};
ghost use Rattle.macsec_ahead.specs.Ends.{with_end, with_key_end, with_ends, without_key};

use macsec_secy::{An, KeyNumber, RxRow, Sci};
use std::alloc::{AllocError, Global};
use std::marker::Model;

/// The most SAs that have an entry, and the most keys that have a number.
const MAX_END_COUNT: usize = 1024;

/// A receive SA under the key of this number, and the packet number before its lowest acceptable one when it was
/// deleted.
#[derive(Clone, Copy, PartialEq, Eq, Debug)]
pub struct EndedSa {
    /// The number of its key.
    pub key: KeyNumber,
    /// The SCI of its SC.
    pub sci: Sci,
    /// Its association number.
    pub an: An,
    /// The packet number.
    pub last: u64,
}

/// A key, and the highest end of the SAs under it that have no entry.
#[derive(Clone, Copy, PartialEq, Eq, Debug)]
pub struct EndedKey {
    /// Its number.
    pub key: KeyNumber,
    /// The packet number.
    pub last: u64,
}

/// Where SAs ended, in a table of bounded size.
#[derive(Drop)]
pub struct EndTable {
    entries: Vec<EndedSa>,
    keys: Vec<EndedKey>,
    others: u64,
}

impl Model for EndTable {
    ghost use Rattle.macsec_ahead.specs.Ends.{Ends, max_end_count};
    ghost use Rattle.std.specs.Prelude.{◌≤◌, vec_capacity};

    ghost Value = { Ends };

    ghost view = { λ t. record { entries = t.entries.items; keys = t.keys.items; others = t.others } };

    // There is space for all entries.
    ghost invariant = { λ t. (max_end_count ≤ vec_capacity t.entries) × (max_end_count ≤ vec_capacity t.keys) };
}

impl EndTable {
    /// A second table that is equal to this one. No later call allocates.
    pub fn try_clone(&self, alloc: Global) -> Result<EndTable, AllocError>
        ensures { IfOk result (λ t. t ≡ self.now) }
    {
        let mut entries = Vec::with_capacity(alloc, MAX_END_COUNT)?;
        entries.extend_from_slice(self.entries.as_slice())?;
        let mut keys = Vec::with_capacity(alloc, MAX_END_COUNT)?;
        keys.extend_from_slice(self.keys.as_slice())?;
        Ok(EndTable {
            entries,
            keys,
            others: self.others,
        })
    }

    /// An empty table. No later call allocates.
    pub fn new(alloc: Global) -> Result<EndTable, AllocError>
        ensures { IfOk result (λ t. t ≡ no_ends) }
    {
        let entries = Vec::with_capacity(alloc, MAX_END_COUNT)?;
        let keys = Vec::with_capacity(alloc, MAX_END_COUNT)?;
        Ok(EndTable {
            entries,
            keys,
            others: 0,
        })
    }

    /// The packet number at which the SA of this SCI and association number ended under this key, 0 if it did not.
    pub fn end_of(&self, key: KeyNumber, sci: Sci, an: An) -> u64
        ensures { result ≡ end_of self.now key sci an }
    {
        let own = last_end(self.entries.as_slice(), key, sci, an);
        let under = last_under(self.keys.as_slice(), key);
        own.max(under.max(self.others))
    }

    /// Adds the end of an SA.
    pub fn add(&mut self, by: &EndedSa)
        ensures { self.new ≡ with_end by.now self.old }
    {
        if has_end(self.entries.as_slice(), by) {
            raise_entries(self.entries.as_mut_slice(), by);
        } else if self.entries.len() < MAX_END_COUNT {
            self.entries.push(*by).unwrap();
        } else {
            self.add_to_key(by);
        }
    }

    /// Adds the end of an SA that gets no entry.
    fn add_to_key(&mut self, by: &EndedSa)
        ensures { self.new ≡ with_key_end by.now self.old }
    {
        if has_key_end(self.keys.as_slice(), by) {
            raise_keys(self.keys.as_mut_slice(), by);
        } else if self.keys.len() < MAX_END_COUNT {
            let key = by.key;
            let last = by.last;
            self.keys.push(EndedKey { key, last }).unwrap();
        } else {
            self.others = self.others.max(by.last);
        }
    }

    /// Removes the entries of a key.
    pub fn remove(&mut self, key: KeyNumber)
        ensures { self.new ≡ without_key key self.old }
    {
        self.entries.retain(|e| e.key.number() != key.number());
        self.keys.retain(|e| e.key.number() != key.number());
    }
}

/// The end of an SA.
pub(crate) fn ended_of(row: &RxRow) -> EndedSa
    ensures { result ≡ ended_of row.now }
{
    EndedSa {
        key: row.key,
        sci: row.sci,
        an: row.an,
        last: end_of_row(row),
    }
}

/// The packet number before an SA's lowest acceptable one.
fn end_of_row(row: &RxRow) -> u64
    ensures { result ≡ end_of_row row.now }
{
    match u64::try_from(row.lowest.saturating_sub(1)) {
        Ok(last) => last,
        Err(_) => u64::MAX,
    }
}

/// Is this the entry of an SA?
fn is_of(e: &EndedSa, key: KeyNumber, sci: Sci, an: An) -> bool
    ensures { result ≡ is_of key sci an e.now }
{
    e.key.number() == key.number() && e.sci == sci && e.an.number() == an.number()
}

/// Is this the number of a key?
fn is_under(e: &EndedKey, key: KeyNumber) -> bool
    ensures { result ≡ is_under key e.now }
{
    e.key.number() == key.number()
}

/// Where an SA ended, 0 if no entry says so.
fn last_end(entries: &[EndedSa], key: KeyNumber, sci: Sci, an: An) -> u64
    ensures { result ≡ last_end entries.now key sci an }
{
    let mut last = 0;
    for e in entries {
        last = with_entry(last, e, key, sci, an);
    }
    last
}

/// The higher of this packet number and what an entry says of an SA.
fn with_entry(last: u64, e: &EndedSa, key: KeyNumber, sci: Sci, an: An) -> u64
    ensures { result ≡ max last (last_end (e.now ∷ []) key sci an) }
{
    if is_of(e, key, sci, an) {
        last.max(e.last)
    } else {
        last
    }
}

/// The number of a key, 0 if it has none.
fn last_under(keys: &[EndedKey], key: KeyNumber) -> u64
    ensures { result ≡ last_under keys.now key }
{
    let mut last = 0;
    for e in keys {
        last = with_number(last, e, key);
    }
    last
}

/// The higher of this packet number and what is noted of a key.
fn with_number(last: u64, e: &EndedKey, key: KeyNumber) -> u64
    ensures { result ≡ max last (last_under (e.now ∷ []) key) }
{
    if is_under(e, key) {
        last.max(e.last)
    } else {
        last
    }
}

/// Has the SA an entry?
fn has_end(entries: &[EndedSa], by: &EndedSa) -> bool
    ensures { result ≡ has_end entries.now by.now }
{
    for e in entries {
        if is_of(e, by.key, by.sci, by.an) {
            return true;
        }
    }
    false
}

/// Has the SA's key a number?
fn has_key_end(keys: &[EndedKey], by: &EndedSa) -> bool
    ensures { result ≡ has_key_end keys.now by.now }
{
    for e in keys {
        if is_under(e, by.key) {
            return true;
        }
    }
    false
}

/// Raises the entry of an SA.
fn raise_entries(entries: &mut [EndedSa], by: &EndedSa)
    ensures { entries.new ≡ map (sa_raised by.now) entries.old }
{
    for e in entries.iter_mut() {
        *e = sa_raised(*e, by);
    }
}

/// An entry, raised if it is the SA's.
fn sa_raised(e: EndedSa, by: &EndedSa) -> EndedSa
    ensures { result ≡ sa_raised by.now e }
{
    if is_of(&e, by.key, by.sci, by.an) {
        let last = e.last.max(by.last);
        EndedSa { last, ..e }
    } else {
        e
    }
}

/// Raises the number of an SA's key.
fn raise_keys(keys: &mut [EndedKey], by: &EndedSa)
    ensures { keys.new ≡ map (key_raised by.now) keys.old }
{
    for e in keys.iter_mut() {
        *e = key_raised(*e, by);
    }
}

/// The number of a key, raised if it is the SA's key.
fn key_raised(e: EndedKey, by: &EndedSa) -> EndedKey
    ensures { result ≡ key_raised by.now e }
{
    if is_under(&e, by.key) {
        let last = e.last.max(by.last);
        EndedKey { last, ..e }
    } else {
        e
    }
}
