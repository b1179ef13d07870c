//! Frames that are received (IEEE 802.1AE, 10.6).

ghost use Rattle.std.specs.Prelude.{◌≡◌};
ghost use Rattle.std.specs.Borrow.{sem};
ghost use Rattle.macsec_secy.specs.Step.{link_frame};
ghost use Rattle.macsec_c_calls.specs.ReceivedParts.{parts_of_received};
ghost use Rattle.macsec_c.specs.Answers.{after_input, received_parts};
ghost use Rattle.macsec_c.specs.Lending.{RestsAs};

use crate::endpoint::Endpoint;
use macsec_c_calls::{Received, received_of, unreceived};
use macsec_c_values::EMPTY;

/// Receives a link frame. The delivered frame borrows from the endpoint or is the caller's.
fn reception<'a>(e: &'a mut Endpoint, frame: &'a [u8]) -> Received<'a>
    ensures* after { sem 𝓛 (RestsAs e.entry (after_input e.old.state (link_frame frame.now))) }
    ensures received { parts_of_received result ≡ received_parts e.old.state frame.now }
{
    if !e.is_made() {
        return unreceived(frame, EMPTY);
    }
    received_of(e.held().receive_inside(frame), frame)
}

/// Receives a link frame. `macsec_receive` of the header calls this with a result that names no frame, and a frame that
/// is not null.
#[unsafe(no_mangle)]
pub extern "C" fn macsec_receive_raw<'a>(
    e: &'a mut Endpoint,
    frame: &'a [u8],
    out: &mut Received<'a>,
) -> u32
    ensures* after { sem 𝓛 (RestsAs e.entry (after_input e.old.state (link_frame frame.now))) }
    ensures received { parts_of_received out.new ≡ received_parts e.old.state frame.now }
    ensures status { result ≡ out.new.status }
{
    *out = reception(e, frame);
    out.status
}
