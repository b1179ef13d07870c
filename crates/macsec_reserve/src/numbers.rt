//! Packet numbers and what is reserved of them.

ghost use Rattle.std.specs.Prelude.{◌≡◌, ◌&&◌, ◌-◌, ◌^◌, min, nat_le, nat_lt};
ghost use Rattle.macsec_reserve.specs.Journal.{highest};
ghost use Rattle.macsec_reserve.specs.Keeping.{wanted_last};

use crate::{Reservation, highest};

/// Was this packet number not used by an earlier run, and is it reserved?
pub(crate) fn may_use(
    before: &[Reservation],
    granted: &[Reservation],
    name: &[u8; 32],
    number: u128,
) -> bool
    ensures { result ≡ (nat_lt (highest before.now name.now) number && nat_le number (highest granted.now name.now)) }
{
    u128::from(highest(before, name)) < number && number <= u128::from(highest(granted, name))
}

/// May an earlier run have used this packet number? None has used 0.
pub(crate) fn was_reserved(before: &[Reservation], name: &[u8; 32], number: u64) -> bool
    ensures { result ≡ (nat_lt 0 number && nat_le number (highest before.now name.now)) }
{
    0 < number && number <= highest(before, name)
}

/// The last packet number to reserve, if fewer than half of `amount` are left.
pub fn wanted_last(reserved: u64, next: u128, amount: u64) -> Option<u64>
    ensures { result ≡ wanted_last reserved next amount }
{
    let Ok(next) = u64::try_from(next) else {
        return None;
    };
    if next.saturating_add(amount / 2) <= reserved {
        return None;
    }
    Some(next.saturating_add(amount))
}

/// The number before a packet number, of 64 bits.
pub(crate) fn up_to(lowest: u128) -> u64
    ensures { result ≡ min (lowest - 1) (2 ^ 64 - 1) }
{
    match u64::try_from(lowest.saturating_sub(1)) {
        Ok(last) => last,
        Err(_) => u64::MAX,
    }
}
