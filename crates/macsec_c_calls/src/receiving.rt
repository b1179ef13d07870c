//! The result of receiving a frame (IEEE 802.1AE, 10.6).

ghost use Rattle.std.specs.Prelude.{◌≡◌, ℕ, List, Ok, option_map};
ghost use Rattle.std.specs.Borrow.{Bor};
ghost use Rattle.macsec_secy.specs.declared.answers.LimitedReceived.TheVariants.{Outside};
ghost use Rattle.macsec_ahead.specs.Answers.{output_of_ahead};
ghost use Rattle.macsec_c_calls.specs.ReceivedParts.{delivered_parts, dropped_parts, parts_of_ahead};
ghost use Rattle.macsec_c_calls.specs.ReceivedParts.{parts_of_received, place_parts, unreceived};

use macsec_ahead::{LimitedReceived, OutsidePn, RxPn};
use macsec_c_values::{
    DONE, VERDICT_EARLIER_RUN, VERDICT_NO_RESERVATION, number_of_verdict, status_of_frame_fault,
};
use macsec_secy::{FrameFault, Sci};

/// The result of receiving a link frame.
#[repr(C)]
#[derive(Drop)]
pub struct Received<'a> {
    /// The frame that is delivered at the controlled port, or empty if none is.
    pub frame: &'a [u8],
    /// The status.
    pub status: u32,
    /// The number of the verdict, 1 to 14, or 0 if the status is not 0.
    pub verdict: u32,
    /// The SA that the frame is for, if `has_sa` is true: the SCI of its SC, and its AN.
    pub sci: [u8; 8],
    pub an: u8,
    pub has_sa: bool,
    /// Whether a frame is delivered.
    pub delivered: bool,
    /// The packet number of a frame with verdict 13 or 14, else 0.
    pub pn: u64,
    /// Zeros.
    pub reserved: [u64; 2],
}

/// The SA of a frame as C sees it: whether there is one, the SCI of its SC, and its AN.
pub(crate) fn place_of(row: Option<(Sci, u8)>) -> (bool, [u8; 8], u8)
    ensures { result ≡ place_parts row }
{
    match row {
        Some((sci, an)) => {
            let octets = sci.0;
            (true, octets, an)
        }
        None => (false, [0; 8], 0),
    }
}

/// The delivered frame as C sees it: its octets, or none, and whether a frame is delivered. If none is, C sees no octet
/// of the link frame.
fn delivered_of<'a>(controlled: Option<&'a [u8]>, frame: &'a [u8]) -> (&'a [u8], bool)
    ensures { (result.1, result.0.now) ≡ delivered_parts (option_map (λ (f : Bor (List ℕ)). f.now) controlled.entry) }
{
    match controlled {
        Some(delivered) => (delivered, true),
        None => (&frame[..0], false),
    }
}

/// The result for a frame that was not received, with this status.
pub fn unreceived<'a>(frame: &'a [u8], status: u32) -> Received<'a>
    ensures { parts_of_received result ≡ unreceived status }
{
    Received {
        frame: &frame[..0],
        status,
        verdict: 0,
        sci: [0; 8],
        an: 0,
        has_sa: false,
        delivered: false,
        pn: 0,
        reserved: [0; 2],
    }
}

/// The result for a valid link frame that is dropped because of its packet number, with this verdict.
fn dropped_as<'a>(verdict: u32, at: &RxPn, frame: &'a [u8]) -> Received<'a>
    ensures { parts_of_received result ≡ dropped_parts verdict at.now }
{
    let (has_sa, sci, an) = place_of(Some((at.sci, at.an)));
    Received {
        frame: &frame[..0],
        status: DONE,
        verdict,
        sci,
        an,
        has_sa,
        delivered: false,
        pn: at.number,
        reserved: [0; 2],
    }
}

/// The result for a valid link frame whose packet number is not reserved in this run.
fn dropped_of<'a>(outside: &OutsidePn, frame: &'a [u8]) -> Received<'a>
    ensures { parts_of_received result ≡ parts_of_ahead (output_of_ahead (Ok (Outside outside.now))) }
{
    match outside {
        OutsidePn::Above(at) => dropped_as(VERDICT_NO_RESERVATION, at, frame),
        OutsidePn::Below(at) => dropped_as(VERDICT_EARLIER_RUN, at, frame),
    }
}

/// The result of receiving this link frame.
pub fn received_of<'a>(
    outcome: Result<LimitedReceived<'a>, FrameFault>,
    frame: &'a [u8],
) -> Received<'a>
    ensures { parts_of_received result ≡ parts_of_ahead (output_of_ahead outcome.entry) }
{
    match outcome {
        Ok(LimitedReceived::Outside(outside)) => dropped_of(&outside, frame),
        Ok(LimitedReceived::Received(received)) => {
            let (has_sa, sci, an) = place_of(received.row);
            let (frame, delivered) = delivered_of(received.controlled, frame);
            Received {
                frame,
                status: DONE,
                verdict: number_of_verdict(received.verdict),
                sci,
                an,
                has_sa,
                delivered,
                pn: 0,
                reserved: [0; 2],
            }
        }
        Err(fault) => unreceived(frame, status_of_frame_fault(fault)),
    }
}
