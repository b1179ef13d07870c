//! Reservations of packet numbers, which outlive the endpoint in a journal.

ghost use Rattle.std.specs.Prelude.{◌≡◌, IfNone, IfSome};
ghost use Rattle.macsec_reserve.specs.Journal.{record_of};
ghost use Rattle.macsec_reserve.specs.Keeping.{tx_floor};
ghost use Rattle.macsec_c_values.specs.Arguments.{an_of, key_number_of, sci_of};
ghost use Rattle.macsec_c_values.specs.Reservations.{Compacts, saved_at, wanted_at, written_if_they_fit};
ghost use Rattle.macsec_c_values.specs.Shown.{found_at, status_at, status_if};

use crate::{DONE, NONE, NOT_JOURNAL, an_of, key_number_of, status_of_new_fault};
use macsec_reserve::{Keeper, Reservation, compacted, is_journal};
use macsec_secy::{NewFault, Sci};
use std::alloc::Global;

/// A record of a journal, or its header.
#[repr(C)]
#[derive(Drop)]
pub struct Record {
    pub octets: [u8; 64],
}

/// Shows the record of a reservation, if there is one.
pub fn show_record(reservation: Option<Reservation>, out: &mut Record) -> u32
    ensures status { result ≡ status_if reservation }
    ensures shown { IfSome reservation (λ r. out.new.octets ≡ record_of r) }
    ensures kept { IfNone reservation (out.new ≡ out.old) }
{
    match reservation {
        Some(reservation) => {
            out.octets = reservation.to_octets();
            DONE
        }
        None => NONE,
    }
}

/// Shows a floor, if there is one.
pub fn show_floor(floor: Option<u64>, out: &mut u64) -> u32
    ensures status { result ≡ status_if floor }
    ensures shown { IfSome floor (λ highest. out.new ≡ highest) }
    ensures kept { IfNone floor (out.new ≡ out.old) }
{
    match floor {
        Some(floor) => {
            *out = floor;
            DONE
        }
        None => NONE,
    }
}

/// Shows the record of the reservation that the transmit SA with this AN needs next, if fewer than half of `amount`
/// packet numbers are left to it.
pub fn show_wanted(keeper: &Keeper, an: u8, amount: u64, out: &mut Record) -> u32
    ensures status { result ≡ status_at (an_of an) (wanted_at amount keeper.now) }
    ensures shown { IfSome (found_at (an_of an) (wanted_at amount keeper.now)) (λ r. out.new.octets ≡ record_of r) }
    ensures kept { IfNone (found_at (an_of an) (wanted_at amount keeper.now)) (out.new ≡ out.old) }
{
    match an_of(an) {
        Ok(an) => show_record(keeper.wanted(an, amount), out),
        Err(fault) => fault.status(),
    }
}

/// Shows the record that saves the lowest acceptable packet number of the receive SA with this SCI and AN.
pub fn show_to_save(keeper: &Keeper, sci: &[u8; 8], an: u8, out: &mut Record) -> u32
    ensures status { result ≡ status_at (an_of an) (saved_at (sci_of sci.now) keeper.now) }
    ensures shown { IfSome (found_at (an_of an) (saved_at (sci_of sci.now) keeper.now))
        (λ r. out.new.octets ≡ record_of r) }
    ensures kept { IfNone (found_at (an_of an) (saved_at (sci_of sci.now) keeper.now)) (out.new ≡ out.old) }
{
    match an_of(an) {
        Ok(an) => show_record(keeper.to_save(Sci(*sci), an), out),
        Err(fault) => fault.status(),
    }
}

/// Shows the highest packet number that an earlier run may have used to send under the key of this number.
pub fn show_tx_floor(keeper: &Keeper, key: u16, out: &mut u64) -> u32
    ensures status { result ≡ status_at (key_number_of key) (tx_floor keeper.now) }
    ensures shown { IfSome (found_at (key_number_of key) (tx_floor keeper.now)) (λ floor. out.new ≡ floor) }
    ensures kept { IfNone (found_at (key_number_of key) (tx_floor keeper.now)) (out.new ≡ out.old) }
{
    match key_number_of(key) {
        Ok(key) => show_floor(keeper.tx_floor(key), out),
        Err(fault) => fault.status(),
    }
}

/// Writes a journal that reserves the same, with one record for each name.
pub fn write_compacted(alloc: Global, journal: &[u8], out: &mut [u8], written: &mut usize) -> u32
    ensures { Compacts journal.now (out.old, written.old) result (out.new, written.new) }
{
    if !is_journal(journal) {
        return NOT_JOURNAL;
    }
    let Ok(shorter) = compacted(alloc, journal) else {
        return status_of_new_fault(NewFault::Memory);
    };
    write_shorter(shorter.as_slice(), out, written)
}

/// Writes octets to the start of a buffer, if it has space for them.
fn write_shorter(shorter: &[u8], out: &mut [u8], written: &mut usize) -> u32
    ensures { (result, (out.new, written.new)) ≡ written_if_they_fit shorter.now (out.old, written.old) }
{
    let count = shorter.len();
    if out.len() < count {
        return status_of_new_fault(NewFault::Memory);
    }
    out[..count].copy_from_slice(shorter);
    *written = count;
    DONE
}
