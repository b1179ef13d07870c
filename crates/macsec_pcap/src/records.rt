//! The records of a capture file.

ghost use Rattle.std.specs.Prelude.{◌≡◌, ◌≤◌, IfOk, IfSome, OnOk, OnSome, length, nat_lt};
ghost use Rattle.macsec_pcap.specs.Answers.{TakesCaptured, TakesRecord, head_of, record_in, shown};
ghost use Rattle.macsec_pcap.specs.Limits.{max_record_length};

use crate::PcapFault;
use crate::filling::fill;
use crate::form::Order;
use std::io::Read;

/// The number of octets in a record before its captured octets.
pub(crate) const RECORD_HEADER_LEN: usize = 16;

/// The maximum number of captured octets in a record.
pub const MAX_RECORD_LEN: usize = 262_144;

/// The maximum number of records in a file.
pub const MAX_RECORDS: u32 = 16_777_216;

/// A record of a capture file.
#[derive(Clone, Copy)]
pub struct Record<'a> {
    /// The time of the frame in whole seconds.
    pub seconds: u32,
    /// The fraction of a second, in the unit of the file (microseconds or nanoseconds). It can be a second or more.
    pub fraction: u32,
    /// The frame.
    pub body: Body<'a>,
}

/// The frame of a record.
#[derive(Clone, Copy)]
pub enum Body<'a> {
    /// The frame, of at most `MAX_RECORD_LEN` octets.
    Whole(&'a [u8]),
    /// The frame was captured only in part.
    Partial,
    /// No frame: a packet of the other link type of this number. `PcapReader` does not return it.
    OtherLink(u16),
}

/// The numbers in a record before its captured octets.
#[derive(Clone, Copy)]
pub(crate) struct Head {
    seconds: u32,
    fraction: u32,
    captured: u32,
    original: u32,
}

impl Head {
    /// The head in the first 16 octets.
    fn of(order: Order, octets: &[u8]) -> Head
        requires { 16 ≤ length octets.now }
        ensures { result ≡ head_of order octets.now }
    {
        Head {
            seconds: order.u32(octets),
            fraction: order.u32(&octets[4..]),
            captured: order.u32(&octets[8..]),
            original: order.u32(&octets[12..]),
        }
    }

    /// The record with this head, whose captured octets are at the front of the buffer.
    pub(crate) fn record(self, room: &[u8]) -> Record<'_>
        requires { self.captured ≤ length room.now }
        ensures { shown result ≡ record_in self room.now }
    {
        let body = if self.captured < self.original {
            Body::Partial
        } else {
            Body::Whole(&room[..self.captured as usize])
        };
        Record {
            seconds: self.seconds,
            fraction: self.fraction,
            body,
        }
    }
}

/// Reads the next record, if the file goes on. Its captured octets are put at the front of the buffer.
pub(crate) fn take_record<R: Read>(
    source: &mut R,
    order: Order,
    places: u32,
    room: &mut [u8],
) -> Result<Option<Head>, PcapFault>
    requires { length room.old ≡ 262144 }
    ensures taken { IfSome (R.remaining source.old) (λ octets. TakesRecord order places octets (R.remaining source.new) room.new result) }
    ensures fits { IfOk result (λ some. IfSome some (λ head. head.captured ≤ 262144)) }
    ensures place { IfOk result (λ some. OnSome some (1 ≤ places)) }
{
    let mut octets = [0; RECORD_HEADER_LEN];
    let count = fill(source, &mut octets)?;
    if count == 0 {
        return Ok(None);
    }
    if places == 0 {
        return Err(PcapFault::RecordCount);
    }
    if count < RECORD_HEADER_LEN {
        return Err(PcapFault::CutRecord);
    }
    let head = Head::of(order, &octets);
    take_captured(source, head.captured, room)?;
    Ok(Some(head))
}

/// Reads the captured octets of a record to the front of the buffer.
fn take_captured<R: Read>(source: &mut R, captured: u32, room: &mut [u8]) -> Result<(), PcapFault>
    requires { length room.old ≡ 262144 }
    ensures taken { IfSome (R.remaining source.old) (λ octets. TakesCaptured captured octets (R.remaining source.new) room.new result) }
    ensures fits { OnOk result (captured ≤ 262144) }
{
    let captured = captured as usize;
    if is_too_long(captured) {
        return Err(PcapFault::RecordLength);
    }
    if fill(source, &mut room[..captured])? < captured {
        return Err(PcapFault::CutRecord);
    }
    Ok(())
}

/// Whether these are more captured octets than a record can have.
fn is_too_long(captured: usize) -> bool
    ensures { result ≡ nat_lt max_record_length captured }
{
    captured > MAX_RECORD_LEN
}
