//! The times of packets.

ghost use Rattle.std.specs.Prelude.{◌≡◌, ◌<◌, ◌^◌, IfSome, SomeIff};
ghost use Rattle.macsec_pcapng.specs.Times.{nanoseconds, time_by, time_of, units, with_offset};

use crate::interfaces::Interface;

/// Nanoseconds per second.
const NANOSECONDS: u128 = 1_000_000_000;

/// The unit of the times of an interface without if_tsresol: microseconds.
const MICROSECONDS: u8 = 6;

/// The bit of if_tsresol that is set if the unit is a power of two.
const POWER_OF_TWO: u8 = 0x80;

/// The first offset that is negative, in two's complement.
const FIRST_NEGATIVE: u128 = 1 << 63;

/// A time since the beginning of 1970.
#[derive(Clone, Copy)]
pub(crate) struct Time {
    /// Whole seconds.
    pub(crate) seconds: u32,
    /// Nanoseconds within the second.
    pub(crate) nanoseconds: u32,
}

impl Interface {
    /// The time after `ticks` units of this interface, or `None` if its seconds do not fit into 32 bits.
    pub(crate) fn time(self, ticks: u64) -> Option<Time>
        ensures { result ≡ time_of self ticks }
    {
        let resolution = self.resolution.unwrap_or(MICROSECONDS);
        time_by(nanoseconds(ticks, resolution), self.offset.unwrap_or(0))
    }
}

/// Units of this resolution per second, or `None` if the number does not fit into 128 bits.
fn units(resolution: u8) -> Option<u128>
    ensures { SomeIff result (units resolution < 2 ^ 128) (units resolution) }
{
    if resolution < POWER_OF_TWO {
        10u128.checked_pow(u32::from(resolution))
    } else {
        2u128.checked_pow(u32::from(resolution - POWER_OF_TWO))
    }
}

/// `ticks` units of this resolution in nanoseconds, rounded down.
fn nanoseconds(ticks: u64, resolution: u8) -> u128
    ensures value { result ≡ nanoseconds ticks resolution }
    ensures bound { result < 2 ^ 94 }
{
    match units(resolution) {
        Some(units) => u128::from(ticks) * NANOSECONDS / units,
        None => 0,
    }
}

/// The time after `nanoseconds` and this offset in seconds, or `None` if its seconds do not fit into 32 bits.
fn time_by(nanoseconds: u128, offset: u64) -> Option<Time>
    requires { nanoseconds < 2 ^ 94 }
    ensures { result ≡ time_by nanoseconds offset }
{
    let seconds = with_offset(nanoseconds / NANOSECONDS, offset)?;
    if seconds > u128::from(u32::MAX) {
        return None;
    }
    Some(Time {
        seconds: seconds as u32,
        nanoseconds: (nanoseconds % NANOSECONDS) as u32,
    })
}

/// Seconds plus an offset in two's complement, or `None` before 1970.
fn with_offset(seconds: u128, offset: u64) -> Option<u128>
    requires { seconds < 2 ^ 94 }
    ensures { result ≡ with_offset seconds offset }
{
    let moved = seconds + u128::from(offset);
    if u128::from(offset) < FIRST_NEGATIVE {
        return Some(moved);
    }
    moved.checked_sub(1 << 64)
}
