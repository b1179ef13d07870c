//! The result of sending a frame (IEEE 802.1AE, 10.5).

ghost use Rattle.std.specs.Prelude.{◌≡◌};
ghost use Rattle.macsec_reserve.specs.Answers.{output_of_kept};
ghost use Rattle.macsec_c_values.specs.SentParts.{parts_of_kept, parts_of_sent, sent_as, unsent};

use crate::{
    DONE, FATE_NO_RESERVATION, FATE_NO_SA, FATE_NONE, FATE_PLAIN, FATE_PROTECTED, FATE_TOO_LONG,
    status_of_frame_fault,
};
use macsec_reserve::KeptSent;
use macsec_secy::{DropReason, FrameFault, Sent as Fate};

/// The result of sending a client frame.
#[repr(C)]
#[derive(Drop)]
pub struct Sent<'a> {
    /// The frame that is sent, or empty if none is.
    pub frame: &'a [u8],
    /// The status.
    pub status: u32,
    /// 0 if the status is not 0. 1 if the frame is sent protected, 2 if it is sent unchanged, 3 if it is dropped
    /// because no SA can send, 4 if it is dropped because it would be too long, 5 if it is dropped because its packet
    /// number is not reserved.
    pub fate: u32,
    /// The number of the key that protects it, or 0.
    pub key: u16,
    /// Zeros.
    pub reserved: [u64; 4],
}

/// The result for a frame that is sent.
fn sent_as<'a>(frame: &'a [u8], fate: u32, key: u16) -> Sent<'a>
    ensures { parts_of_sent result ≡ sent_as frame.now fate key }
{
    Sent {
        frame,
        status: DONE,
        fate,
        key,
        reserved: [0; 4],
    }
}

/// The result if nothing is sent, with this status and for this reason. C sees no octet of the frame.
pub fn unsent<'a>(frame: &'a [u8], status: u32, fate: u32) -> Sent<'a>
    ensures { parts_of_sent result ≡ unsent status fate }
{
    Sent {
        frame: &frame[..0],
        status,
        fate,
        key: 0,
        reserved: [0; 4],
    }
}

/// The result of sending this client frame.
pub fn sent_of<'a>(outcome: Result<KeptSent<'a>, FrameFault>, frame: &'a [u8]) -> Sent<'a>
    ensures { parts_of_sent result ≡ parts_of_kept (output_of_kept outcome.entry) }
{
    match outcome {
        Ok(
            KeptSent::Sent(
                Fate::Link {
                    frame,
                    under: Some(key),
                },
            ),
        ) => sent_as(frame, FATE_PROTECTED, key),
        Ok(KeptSent::Sent(Fate::Link { frame, under: None })) => sent_as(frame, FATE_PLAIN, 0),
        Ok(KeptSent::Sent(Fate::Dropped(DropReason::NoSa))) => unsent(frame, DONE, FATE_NO_SA),
        Ok(KeptSent::Sent(Fate::Dropped(DropReason::TooLong))) => {
            unsent(frame, DONE, FATE_TOO_LONG)
        }
        Ok(KeptSent::NoReservation) => unsent(frame, DONE, FATE_NO_RESERVATION),
        Err(fault) => unsent(frame, status_of_frame_fault(fault), FATE_NONE),
    }
}
