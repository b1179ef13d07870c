//! Frames that are sent (IEEE 802.1AE, 10.5).

ghost use Rattle.std.specs.Prelude.{◌≡◌};
ghost use Rattle.std.specs.Borrow.{sem};
ghost use Rattle.macsec_secy.specs.Step.{client_frame, uncontrolled_frame};
ghost use Rattle.macsec_c_values.specs.SentParts.{parts_of_sent};
ghost use Rattle.macsec_c.specs.Answers.{after_input, sent_parts, status_held};
ghost use Rattle.macsec_c.specs.Lending.{RestsAs};

use crate::endpoint::Endpoint;
use macsec_c_values::{DONE, EMPTY, FATE_NONE, Sent, sent_of, status_of_frame_fault, unsent};

/// Sends a client frame. The frame that leaves borrows from the endpoint or is the caller's.
fn fate_of<'a>(e: &'a mut Endpoint, frame: &'a [u8]) -> Sent<'a>
    ensures* after { sem 𝓛 (RestsAs e.entry (after_input e.old.state (client_frame frame.now))) }
    ensures sent { parts_of_sent result ≡ sent_parts e.old.state frame.now }
{
    if !e.is_made() {
        return unsent(frame, EMPTY, FATE_NONE);
    }
    sent_of(e.held().send(frame), frame)
}

/// Transmits a client frame of the controlled port. `macsec_send` of the header calls this with a result that names no
/// frame, and a frame that is not null.
#[unsafe(no_mangle)]
pub extern "C" fn macsec_send_raw<'a>(
    e: &'a mut Endpoint,
    frame: &'a [u8],
    out: &mut Sent<'a>,
) -> u32
    ensures* after { sem 𝓛 (RestsAs e.entry (after_input e.old.state (client_frame frame.now))) }
    ensures sent { parts_of_sent out.new ≡ sent_parts e.old.state frame.now }
    ensures status { result ≡ out.new.status }
{
    *out = fate_of(e, frame);
    out.status
}

/// Transmits a client frame of the uncontrolled port unchanged. `macsec_send_uncontrolled` of the header calls this
/// with a frame that is not null.
#[unsafe(no_mangle)]
pub extern "C" fn macsec_send_uncontrolled_raw(e: &mut Endpoint, frame: &[u8]) -> u32
    ensures status { result ≡ status_held e.old.state (uncontrolled_frame frame.now) }
    ensures after { e.new.state ≡ after_input e.old.state (uncontrolled_frame frame.now) }
{
    if !e.is_made() {
        return EMPTY;
    }
    match e.held().keeper().send_uncontrolled(frame) {
        Ok(_) => DONE,
        Err(fault) => status_of_frame_fault(fault),
    }
}
