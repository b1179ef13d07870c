//! Reservations of packet numbers, which outlive the endpoint in a journal.

ghost use Rattle.std.specs.Prelude.{◌≡◌, IfNone, IfSome};
ghost use Rattle.macsec_reserve.specs.Journal.{header, record_of, reserved_in};
ghost use Rattle.macsec_reserve.specs.Keeping.{tx_floor};
ghost use Rattle.macsec_ahead.specs.Ahead.{floor_of};
ghost use Rattle.macsec_c_values.specs.Arguments.{an_of, key_number_of, sci_of};
ghost use Rattle.macsec_c_values.specs.Reservations.{Compacts, saved_at, wanted_at};
ghost use Rattle.macsec_c_values.specs.Statuses.{done_status};
ghost use Rattle.macsec_c_calls.specs.Reserving.{accepting_at, key_after};
ghost use Rattle.macsec_c.specs.Answers.{reported};
ghost use Rattle.macsec_c.specs.Found.{found_at, inside, status_of_an};

use crate::endpoint::Endpoint;
use macsec_c_calls::{note_durable, show_rx_floor, show_to_accept};
use macsec_c_values::{
    DONE, EMPTY, Record, show_to_save, show_tx_floor, show_wanted, write_compacted,
};
use macsec_reserve::header;
use std::alloc::Global;

/// Shows the record of the reservation that the transmit SA with this AN needs next, if fewer than half of `amount`
/// packet numbers are left to it.
#[unsafe(no_mangle)]
pub extern "C" fn macsec_reserve_wanted(
    e: &mut Endpoint,
    an: u8,
    amount: u64,
    out: &mut Record,
) -> u32
    ensures status { result ≡ status_of_an (inside e.old.state) (an_of an) (wanted_at amount) }
    ensures same { e.new.state ≡ e.old.state }
    ensures shown { IfSome (found_at (inside e.old.state) (an_of an) (wanted_at amount))
        (λ r. out.new.octets ≡ record_of r) }
    ensures kept { IfNone (found_at (inside e.old.state) (an_of an) (wanted_at amount)) (out.new ≡ out.old) }
{
    if !e.is_made() {
        return EMPTY;
    }
    show_wanted(e.held().keeper(), an, amount, out)
}

/// Shows the record that saves the lowest acceptable packet number of the receive SA with this SCI and AN.
#[unsafe(no_mangle)]
pub extern "C" fn macsec_reserve_to_save(
    e: &mut Endpoint,
    sci: &[u8; 8],
    an: u8,
    out: &mut Record,
) -> u32
    ensures status { result ≡ status_of_an (inside e.old.state) (an_of an) (saved_at (sci_of sci.now)) }
    ensures same { e.new.state ≡ e.old.state }
    ensures shown { IfSome (found_at (inside e.old.state) (an_of an) (saved_at (sci_of sci.now)))
        (λ r. out.new.octets ≡ record_of r) }
    ensures kept { IfNone (found_at (inside e.old.state) (an_of an) (saved_at (sci_of sci.now))) (out.new ≡ out.old) }
{
    if !e.is_made() {
        return EMPTY;
    }
    show_to_save(e.held().keeper(), sci, an, out)
}

/// Shows the highest packet number that an earlier run may have used to send under the key of this number.
#[unsafe(no_mangle)]
pub extern "C" fn macsec_reserve_tx_floor(e: &mut Endpoint, key: u16, out: &mut u64) -> u32
    ensures status { result ≡ status_of_an (inside e.old.state) (key_number_of key) tx_floor }
    ensures same { e.new.state ≡ e.old.state }
    ensures shown { IfSome (found_at (inside e.old.state) (key_number_of key) tx_floor) (λ floor. out.new ≡ floor) }
    ensures kept { IfNone (found_at (inside e.old.state) (key_number_of key) tx_floor) (out.new ≡ out.old) }
{
    if !e.is_made() {
        return EMPTY;
    }
    show_tx_floor(e.held().keeper(), key, out)
}

/// Shows the record of the reservation that the receive SA with this SCI and AN needs next to accept up to `amount`
/// packet numbers after its next one, or after `pn` if that is later, if fewer than half of them are reserved.
#[unsafe(no_mangle)]
pub extern "C" fn macsec_reserve_to_accept(
    e: &mut Endpoint,
    sci: &[u8; 8],
    an: u8,
    amount: u64,
    pn: u64,
    out: &mut Record,
) -> u32
    ensures status { result ≡ status_of_an e.old.state (an_of an) (accepting_at (sci_of sci.now) amount pn) }
    ensures same { e.new.state ≡ e.old.state }
    ensures shown { IfSome (found_at e.old.state (an_of an) (accepting_at (sci_of sci.now) amount pn))
        (λ r. out.new.octets ≡ record_of r) }
    ensures kept { IfNone (found_at e.old.state (an_of an) (accepting_at (sci_of sci.now) amount pn))
        (out.new ≡ out.old) }
{
    if !e.is_made() {
        return EMPTY;
    }
    show_to_accept(e.held(), sci, an, amount, pn, out)
}

/// Shows the highest packet number that an earlier run may have accepted, or this run before it deleted the SA, from
/// the receive SA with this SCI and AN under the key of this number.
#[unsafe(no_mangle)]
pub extern "C" fn macsec_reserve_rx_floor(
    e: &mut Endpoint,
    sci: &[u8; 8],
    an: u8,
    key: u16,
    out: &mut u64,
) -> u32
    ensures status { result ≡ status_of_an e.old.state (key_after (an_of an) (key_number_of key))
        (floor_of (sci_of sci.now) an) }
    ensures same { e.new.state ≡ e.old.state }
    ensures shown { IfSome (found_at e.old.state (key_after (an_of an) (key_number_of key))
        (floor_of (sci_of sci.now) an)) (λ floor. out.new ≡ floor) }
    ensures kept { IfNone (found_at e.old.state (key_after (an_of an) (key_number_of key))
        (floor_of (sci_of sci.now) an)) (out.new ≡ out.old) }
{
    if !e.is_made() {
        return EMPTY;
    }
    show_rx_floor(e.held(), sci, an, key, out)
}

/// Notes that a record is durable.
#[unsafe(no_mangle)]
pub extern "C" fn macsec_reserve_granted(e: &mut Endpoint, record: &Record) -> u32
    ensures { (result, e.new.state) ≡ reported e.old.state (reserved_in record.now.octets) }
{
    if !e.is_made() {
        return EMPTY;
    }
    note_durable(e.held(), record)
}

/// Shows the header of a new journal with this salt.
#[unsafe(no_mangle)]
pub extern "C" fn macsec_journal_header(salt: &[u8; 24], out: &mut Record) -> u32
    ensures status { result ≡ done_status }
    ensures shown { out.new.octets ≡ header salt.now }
{
    out.octets = header(salt);
    DONE
}

/// Writes a journal that reserves the same, with one record for each name. `macsec_journal_compacted` of the header
/// calls this with as many octets to write to as the journal has.
#[unsafe(no_mangle)]
pub extern "C" fn macsec_journal_compacted_raw(
    alloc: Global,
    journal: &[u8],
    out: &mut [u8],
    written: &mut usize,
) -> u32
    ensures { Compacts journal.now (out.old, written.old) result (out.new, written.new) }
{
    write_compacted(alloc, journal, out, written)
}
