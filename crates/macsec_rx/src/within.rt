//! Limits for the packet numbers that are accepted from receive SAs (secure associations; IEEE 802.1AE, 10.6).

ghost use Rattle.std.specs.Prelude.{◌≡◌, slice_get};
ghost use Rattle.macsec_rx.specs.Within.{outside_by, outside_found, pn_of};

use crate::RxRow;
use crate::channels::Found;
use macsec_tag::Sci;

/// The packet numbers that may be accepted from a receive SA: those above `before`, up to and with `upto`.
#[derive(Clone, Copy, PartialEq, Eq, Debug)]
pub struct PnLimits {
    /// The last packet number that is too low.
    pub before: u64,
    /// The last packet number that may be accepted.
    pub upto: u64,
}

/// The receive SA of a valid frame, and the frame's packet number.
#[derive(Clone, Copy, PartialEq, Eq, Debug)]
pub struct RxPn {
    /// The SCI of its SC.
    pub sci: Sci,
    /// Its association number, 0 to 3.
    pub an: u8,
    /// The packet number.
    pub number: u64,
}

/// A packet number outside the limits of its SA.
#[derive(Clone, Copy, PartialEq, Eq, Debug)]
pub enum OutsidePn {
    /// It is `before` or lower.
    Below(RxPn),
    /// It is above `before` and above `upto`.
    Above(RxPn),
}

/// On which side of the limits of its SA a packet number is, if it is outside them. There is none if no SA was found, if
/// no packet number is accepted, or if the SA has no limits.
#[inline(always)]
pub(crate) fn outside_found(
    limits: &[PnLimits],
    number: Option<u64>,
    found: &Option<Found>,
) -> Option<OutsidePn>
    ensures { result ≡ outside_found limits.now number found.now }
{
    let number = number?;
    match found {
        Some(found) => outside_by(limits_at(limits, found.place), pn_of(&found.row, number)),
        None => None,
    }
}

/// The limits of the SA at this index, if it has any.
fn limits_at(limits: &[PnLimits], place: usize) -> Option<PnLimits>
    ensures { result ≡ slice_get limits.now place }
{
    limits.get(place).copied()
}

/// A packet number of an SA.
fn pn_of(row: &RxRow, number: u64) -> RxPn
    ensures { result ≡ pn_of row.now number }
{
    RxPn {
        sci: row.sci,
        an: row.an.number(),
        number,
    }
}

/// On which side of these limits a packet number is, if there are limits and it is outside them.
fn outside_by(limits: Option<PnLimits>, at: RxPn) -> Option<OutsidePn>
    ensures { result ≡ outside_by limits at }
{
    let limits = limits?;
    if at.number <= limits.before {
        Some(OutsidePn::Below(at))
    } else if at.number <= limits.upto {
        None
    } else {
        Some(OutsidePn::Above(at))
    }
}
