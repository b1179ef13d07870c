//! A journal made shorter.

ghost use Rattle.std.specs.Prelude.{◌≡◌, ◌≤◌, ◌++◌, length, IfErr, IfOk, OnOk};
ghost use Rattle.macsec_reserve.specs.Compaction.{IsCompacted, IsFault, compacted};
ghost use Rattle.macsec_reserve.specs.Journal.{records_of};

use crate::Reservation;
use crate::journal::{RECORD_LENGTH, entries_of, is_journal};
use std::alloc::{AllocError, Global};

/// Why a journal is not made shorter.
#[derive(Clone, Copy, PartialEq, Eq, Debug)]
pub enum CompactFault {
    /// The file is no journal, or one of another version.
    NotJournal,
    /// Out of memory.
    Memory,
}

/// The octets of a shorter journal that reserves the same: its header, and one record for each name. Write them to a
/// new file, make them durable, and rename it over the old one.
pub fn compacted(alloc: Global, journal: &[u8]) -> Result<Vec<u8>, CompactFault>
    ensures octets { IfOk result (λ shorter. shorter.items ≡ compacted journal.now) }
    ensures keeps { IfOk result (λ shorter. IsCompacted journal.now shorter.items) }
    ensures fault { IfErr result (λ fault. IsFault journal.now fault) }
{
    if !is_journal(journal) {
        return Err(CompactFault::NotJournal);
    }
    match compact(alloc, journal) {
        Ok(shorter) => Ok(shorter),
        Err(_) => Err(CompactFault::Memory),
    }
}

/// The header of some octets, and one record for each name that they reserve.
fn compact(alloc: Global, journal: &[u8]) -> Result<Vec<u8>, AllocError>
    requires { 64 ≤ length journal.now }
    ensures { IfOk result (λ shorter. shorter.items ≡ compacted journal.now) }
{
    let entries = entries_of(alloc, &journal[RECORD_LENGTH..])?;
    let mut shorter = Vec::new(alloc);
    shorter.extend_from_slice(&journal[..RECORD_LENGTH])?;
    append_records(&mut shorter, entries.as_slice())?;
    Ok(shorter)
}

/// Appends the records of some reservations.
fn append_records(out: &mut Vec<u8>, reservations: &[Reservation]) -> Result<(), AllocError>
    ensures { OnOk result (out.new.items ≡ out.old.items ++ records_of reservations.now) }
{
    for reservation in reservations {
        reservation.append_to(out)?;
    }
    Ok(())
}
