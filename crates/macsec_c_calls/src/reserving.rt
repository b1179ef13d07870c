//! Reservations of an endpoint that can reserve ahead of receiving, and what is durable of them.

ghost use Rattle.std.specs.Prelude.{◌≡◌, IfNone, IfSome, max};
ghost use Rattle.macsec_reserve.specs.Journal.{record_of, reserved_in};
ghost use Rattle.macsec_ahead.specs.Ahead.{floor_of};
ghost use Rattle.macsec_c_values.specs.Arguments.{an_of, key_number_of, sci_of};
ghost use Rattle.macsec_c_values.specs.Shown.{found_at, status_at};
ghost use Rattle.macsec_c_calls.specs.Reserving.{accepting_at, key_after, reported};

use macsec_ahead::AheadKeeper;
use macsec_c_values::{DONE, NOT_RECORD, Record, an_of, key_number_of, show_floor, show_record};
use macsec_reserve::Reservation;
use macsec_secy::{An, Sci};

/// Shows the record of the reservation that the receive SA with this SCI and AN needs next to accept up to `amount`
/// packet numbers after its next one, or after `pn` if that is higher. It needs one if fewer than half of them are
/// reserved.
pub fn show_to_accept(
    endpoint: &AheadKeeper,
    sci: &[u8; 8],
    an: u8,
    amount: u64,
    pn: u64,
    out: &mut Record,
) -> u32
    ensures status { result ≡ status_at (an_of an) (accepting_at (sci_of sci.now) amount pn endpoint.now) }
    ensures shown { IfSome (found_at (an_of an) (accepting_at (sci_of sci.now) amount pn endpoint.now))
        (λ r. out.new.octets ≡ record_of r) }
    ensures kept { IfNone (found_at (an_of an) (accepting_at (sci_of sci.now) amount pn endpoint.now))
        (out.new ≡ out.old) }
{
    match an_of(an) {
        Ok(an) => show_record(to_accept(endpoint, Sci(*sci), an, amount, pn), out),
        Err(fault) => fault.status(),
    }
}

/// The reservation that a receive SA needs next.
fn to_accept(endpoint: &AheadKeeper, sci: Sci, an: An, amount: u64, pn: u64) -> Option<Reservation>
    ensures { result ≡ accepting_at sci amount pn endpoint.now an }
{
    let row = endpoint.keeper().secy().rx_row(sci, an)?;
    endpoint.wanted_to_accept(sci, an, amount, later_of(row.next, u128::from(pn)))
}

/// The later of two packet numbers.
fn later_of(a: u128, b: u128) -> u128
    ensures { result ≡ max a b }
{
    if a < b { b } else { a }
}

/// Shows the highest packet number that an earlier run, or this run before it deleted the SA, may have accepted from
/// the receive SA with this SCI and AN under the key of this number.
pub fn show_rx_floor(endpoint: &AheadKeeper, sci: &[u8; 8], an: u8, key: u16, out: &mut u64) -> u32
    ensures status { result
        ≡ status_at (key_after (an_of an) (key_number_of key)) (floor_of (sci_of sci.now) an endpoint.now) }
    ensures shown { IfSome
        (found_at (key_after (an_of an) (key_number_of key)) (floor_of (sci_of sci.now) an endpoint.now))
        (λ floor. out.new ≡ floor) }
    ensures kept { IfNone
        (found_at (key_after (an_of an) (key_number_of key)) (floor_of (sci_of sci.now) an endpoint.now))
        (out.new ≡ out.old) }
{
    let an = match an_of(an) {
        Ok(an) => an,
        Err(fault) => return fault.status(),
    };
    match key_number_of(key) {
        Ok(key) => show_floor(endpoint.rx_floor(Sci(*sci), an, key), out),
        Err(fault) => fault.status(),
    }
}

/// Notes that a record is durable.
pub fn note_durable(endpoint: &mut AheadKeeper, saved: &Record) -> u32
    ensures { (result, endpoint.new) ≡ reported endpoint.old (reserved_in saved.now.octets) }
{
    match Reservation::from_octets(&saved.octets) {
        Some(reservation) => {
            endpoint.now_durable(&reservation);
            DONE
        }
        None => NOT_RECORD,
    }
}
