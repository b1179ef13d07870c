//! Reads or skips a number of octets: all of them, or a fault.

ghost use Rattle.std.specs.Prelude.{IfSome};
ghost use Rattle.macsec_pcapng.specs.Answers.{Fetches, Skips};

use macsec_pcap::{PcapFault, fill};
use std::io::Read;

/// The most octets that are skipped by one read.
const PIECE_LEN: usize = 4096;

/// Fills `room`. Returns `CutRecord` if the file ends before that, or `Read` if a read fails.
pub(crate) fn fetch<R: Read>(source: &mut R, room: &mut [u8]) -> Result<(), PcapFault>
    ensures { IfSome (R.remaining source.old) (λ octets. Fetches room.new octets (R.remaining source.new) result) }
{
    if fill(source, room)? < room.len() {
        return Err(PcapFault::CutRecord);
    }
    Ok(())
}

/// Skips `count` octets. Returns `CutRecord` if the file ends before that, or `Read` if a read fails.
pub(crate) fn skip<R: Read>(source: &mut R, count: usize) -> Result<(), PcapFault>
    ensures { IfSome (R.remaining source.old) (λ octets. Skips count octets (R.remaining source.new) result) }
{
    // Most blocks have no octets to skip. A call of `skip_pieces` fills its array.
    if count == 0 {
        return Ok(());
    }
    skip_pieces(source, count)
}

/// Skips `count` octets, in pieces. Returns `CutRecord` if the file ends before that, or `Read` if a read fails.
fn skip_pieces<R: Read>(source: &mut R, count: usize) -> Result<(), PcapFault>
    ensures { IfSome (R.remaining source.old) (λ octets. Skips count octets (R.remaining source.new) result) }
{
    let mut piece = [0; PIECE_LEN];
    let mut left = count;
    while left > 0 {
        let len = left.min(PIECE_LEN);
        match fetch(source, &mut piece[..len]) {
            Ok(()) => left -= len,
            Err(fault) => return Err(fault),
        }
    }
    Ok(())
}
