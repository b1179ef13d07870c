//! The index of the SAs: it finds the row of an SA by the position of its SC and by its association number.

ghost use Rattle.std.specs.Prelude.{◌≡◌, ◌+◌, ◌*◌, ◌<◌, ◌≤◌, List, [], is_some, length, IfSome};
ghost use Rattle.std.specs.Int.{to_be_bytes, w64};
ghost use Rattle.macsec_tag.specs.declared.identifiers.Sci.{Sci};
ghost use Rattle.macsec_rx.specs.Limits.{max_association_count, max_channel_count, max_row_count};
ghost use Rattle.macsec_rx.specs.Channels.{same_sci};
ghost use Rattle.macsec_rx.specs.Commands.{has_channel};
ghost use Rattle.macsec_rx.specs.Index.{IsIndex, channel_place};
ghost use Rattle.macsec_rx.specs.Rows.{AreRxRows};

use crate::{MAX_ROW_COUNT, RxRow};
use macsec_tag::{ASSOCIATION_COUNT, An, Sci};

/// The index entry of an SA that does not exist. No row has this index.
const NO_PLACE: u16 = MAX_ROW_COUNT as u16;

/// The number of SCs in a piece of the search for an SCI.
const PIECE_LENGTH: usize = 8;

/// The index without SAs.
pub(crate) fn empty_index() -> [u16; MAX_ROW_COUNT]
    ensures { (scis : List Sci) → IsIndex scis [] result }
{
    [NO_PLACE; MAX_ROW_COUNT]
}

/// The index of these SAs of these SCs.
pub(crate) fn index_of(scis: &[Sci], rows: &[RxRow]) -> [u16; MAX_ROW_COUNT]
    requires channels { length scis.now ≤ max_channel_count }
    requires count { length rows.now ≤ max_row_count }
    requires rows { AreRxRows scis.now rows.now }
    ensures { IsIndex scis.now rows.now result }
{
    let mut places = empty_index();
    for (place, row) in rows.iter().enumerate() {
        let channel = channel_place(scis, row.sci).unwrap();
        places[slot(channel, row.an)] = place as u16;
    }
    places
}

/// The position of an SA's entry in the index. `channel` is the position of its SC.
pub(crate) fn slot(channel: usize, an: An) -> usize
    requires { channel < max_channel_count }
    ensures slot { result ≡ 4 * channel + an }
    ensures within { result < max_row_count }
    ensures number { an < max_association_count }
{
    ASSOCIATION_COUNT * channel + usize::from(an.number())
}

/// The position of the SC with this SCI. The search begins with whole pieces. Their fixed length lets the compiler
/// compare their SCIs without a loop.
#[inline(always)]
pub(crate) fn channel_place(scis: &[Sci], sci: Sci) -> Option<usize>
    ensures there { is_some result ≡ has_channel scis.now sci }
    ensures place { IfSome result (λ place. place ≡ channel_place scis.now sci) }
    ensures within { IfSome result (λ place. place < length scis.now) }
{
    let pieces = scis.len() / PIECE_LENGTH;
    for number in 0..pieces {
        let start = PIECE_LENGTH * number;
        if let Some(place) = place_in(&scis[start..start + PIECE_LENGTH], sci) {
            return Some(start + place);
        }
    }
    let start = PIECE_LENGTH * pieces;
    let place = place_in(&scis[start..], sci)?;
    Some(start + place)
}

/// The position of the SC with this SCI among these SCs.
#[inline(always)]
fn place_in(scis: &[Sci], sci: Sci) -> Option<usize>
    ensures there { is_some result ≡ has_channel scis.now sci }
    ensures place { IfSome result (λ place. place ≡ channel_place scis.now sci) }
    ensures within { IfSome result (λ place. place < length scis.now) }
{
    for (place, s) in scis.iter().enumerate() {
        if same_sci(*s, sci) {
            return Some(place);
        }
    }
    None
}

/// Whether two SCIs are equal. They are compared as 64-bit numbers, in one step, because the SCI of each frame is
/// compared with that of each SC.
fn same_sci(s: Sci, t: Sci) -> bool
    ensures { result ≡ same_sci s t }
{
    number_of(s) == number_of(t)
}

/// The octets of an SCI as one number.
fn number_of(sci: Sci) -> u64
    ensures { to_be_bytes w64 result ≡ sci.0 }
{
    u64::from_be_bytes(sci.0)
}
