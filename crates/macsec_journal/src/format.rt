//! The form of a file: a header, a count of the entries with a digest of them, and the entries.

ghost use Rattle.std.specs.Prelude.{◌≡◌, ◌<◌, ◌≤◌, ◌+◌, ◌*◌, ◌^◌, [], ◌∷◌, ◌++◌, length, take, true};
ghost use Rattle.macsec_gcm.specs.Octets.{same_octets};
ghost use Rattle.macsec_reserve.specs.Journal.{record_length, reserved_in, salt_of};
ghost use Rattle.macsec_journal.specs.Disk.{sector_ceiling};
ghost use Rattle.macsec_journal.specs.Format.{agrees, check_of_file, copy_length, count_with, entries_digest, entries_in, file_header, file_of, file_title, has_file_header, has_header, is_readable, is_whole, skipped, slot_of_count};

use macsec_reserve::{RECORD_LENGTH, Reservation, is_journal};
use sha2::{Digest, Sha256};

/// The octets that a device writes at once.
const SECTOR_LENGTH: u64 = 4096;

/// How many octets the header and the count have.
pub(crate) const FRONT_LENGTH: usize = 128;

/// The first 16 octets of a file.
const TITLE: &[u8] = b"macsec journal 2";

/// What is digested before the title and the salt of a header.
const HEADER: &[u8] = b"macsec journal: header";

/// What is digested before the salt and the octets of entries.
const TABLE: &[u8] = b"macsec journal: table";

/// The octets of a new file with this salt, without entries. Take random octets for the salt.
pub fn created(salt: &[u8; 24]) -> [u8; 128]
    ensures { result ≡ file_of salt.now [] }
{
    let count = count_with(salt, &[], 0);
    let slot = count.to_octets();
    let header = file_header(salt);
    let mut octets = [0; 128];
    octets[..64].copy_from_slice(header.as_slice());
    octets[64..].copy_from_slice(slot.as_slice());
    octets
}

/// The header of a file with this salt.
pub(crate) fn file_header(salt: &[u8; 24]) -> [u8; 64]
    ensures { result ≡ file_header salt.now }
{
    let check = check_of_file(salt);
    let mut header = [0; 64];
    header[..40].copy_from_slice(title_and_salt(salt).as_slice());
    header[40..].copy_from_slice(check.as_slice());
    header
}

/// The octets of the title and of a salt, one after the other.
fn title_and_salt(salt: &[u8; 24]) -> [u8; 40]
    ensures { result ≡ file_title ++ salt.now }
{
    let mut octets = [0; 40];
    octets[..16].copy_from_slice(TITLE);
    octets[16..].copy_from_slice(salt.as_slice());
    octets
}

/// The check of a header with this salt.
fn check_of_file(salt: &[u8; 24]) -> [u8; 24]
    ensures { result ≡ check_of_file salt.now }
{
    let mut hasher = Sha256::new();
    hasher.update(HEADER);
    hasher.update(TITLE);
    hasher.update(salt.as_slice());
    let digest = hasher.finalize();
    let mut check = [0; 24];
    check.copy_from_slice(&digest[..24]);
    check
}

/// The digest of the octets of entries.
fn entries_digest(salt: &[u8; 24], octets: &[u8]) -> [u8; 32]
    ensures { result ≡ entries_digest salt.now octets.now }
{
    let mut hasher = Sha256::new();
    hasher.update(TABLE);
    hasher.update(salt.as_slice());
    hasher.update(octets);
    hasher.finalize()
}

/// The count of so many entries with these octets.
pub(crate) fn count_with(salt: &[u8; 24], octets: &[u8], count: usize) -> Reservation
    ensures { result ≡ count_with salt.now octets.now count }
{
    Reservation {
        name: entries_digest(salt, octets),
        last: count as u64,
    }
}

/// The salt of a journal of either form.
pub(crate) fn salt_of(octets: &[u8]) -> [u8; 24]
    requires { 64 ≤ length octets.now }
    ensures { result ≡ salt_of octets.now }
{
    let mut salt = [0; 24];
    salt.copy_from_slice(&octets[16..40]);
    salt
}

/// Does a file with these octets begin with a header, of this form or of the earlier one?
pub(crate) fn has_header(octets: &[u8]) -> bool
    ensures { result ≡ has_header octets.now }
{
    is_journal(octets) || has_file_header(octets)
}

/// Does a process begin with these octets?
pub(crate) fn is_readable(octets: &[u8]) -> bool
    ensures { result ≡ is_readable octets.now }
{
    is_journal(octets) || (has_file_header(octets) && is_whole(octets))
}

/// Do these octets begin with the header of their salt?
fn has_file_header(octets: &[u8]) -> bool
    ensures { result ≡ has_file_header octets.now }
{
    RECORD_LENGTH <= octets.len() && has_own_header(octets)
}

/// Are their first octets the header of their salt?
fn has_own_header(octets: &[u8]) -> bool
    requires { 64 ≤ length octets.now }
    ensures { result ≡ same_octets (take record_length octets.now) (file_header (salt_of octets.now)) }
{
    let header = file_header(&salt_of(octets));
    octets[..RECORD_LENGTH] == header[..]
}

/// Is the count a record, and does it agree with the entries?
fn is_whole(octets: &[u8]) -> bool
    ensures { result ≡ is_whole octets.now }
{
    FRONT_LENGTH <= octets.len() && has_count(octets)
}

/// Is the count of these octets a record, and does it agree with the entries?
fn has_count(octets: &[u8]) -> bool
    requires { 128 ≤ length octets.now }
    ensures { result ≡ agrees (reserved_in (slot_of_count octets.now)) octets.now }
{
    let mut slot = [0; 64];
    slot.copy_from_slice(&octets[RECORD_LENGTH..FRONT_LENGTH]);
    match Reservation::from_octets(&slot) {
        None => false,
        Some(count) => agrees(&count, octets),
    }
}

/// Do the octets have so many entries, with this digest?
fn agrees(count: &Reservation, octets: &[u8]) -> bool
    requires { 128 ≤ length octets.now }
    ensures { result ≡ agrees (count.now ∷ []) octets.now }
{
    let most = ((octets.len() - FRONT_LENGTH) / RECORD_LENGTH) as u64;
    count.last <= most && has_digest(count, octets)
}

/// Have so many entries this digest?
fn has_digest(count: &Reservation, octets: &[u8]) -> bool
    requires { 128 + 64 * count.now.last ≤ length octets.now }
    ensures { result ≡ same_octets (entries_digest (salt_of octets.now) (entries_in count.now.last octets.now)) count.now.name }
{
    let entries = &octets[FRONT_LENGTH..FRONT_LENGTH + RECORD_LENGTH * (count.last as usize)];
    entries_digest(&salt_of(octets), entries) == count.name
}

/// How many octets are before the first record that is read.
pub(crate) fn skipped(octets: &[u8]) -> usize
    requires { is_readable octets.now ≡ true }
    ensures skipped { result ≡ skipped octets.now }
    ensures within { result ≤ length octets.now }
{
    if is_journal(octets) { 0 } else { FRONT_LENGTH }
}

/// Where the next sector begins.
pub(crate) fn sector_ceiling(at: u64) -> u64
    requires { at < 2 ^ 63 }
    ensures { result ≡ sector_ceiling at }
{
    SECTOR_LENGTH * ((at + (SECTOR_LENGTH - 1)) / SECTOR_LENGTH)
}

/// How many octets a copy of so many records has, to the end of its last sector.
pub(crate) fn copy_length(count: usize) -> u64
    requires { count < 2 ^ 32 }
    ensures { result ≡ copy_length count }
{
    sector_ceiling((RECORD_LENGTH * count) as u64)
}
