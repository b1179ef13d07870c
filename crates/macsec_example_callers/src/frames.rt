//! The reader of frames without an endpoint (IEEE 802.1AE, clause 9).

ghost use Rattle.std.specs.Prelude.{◌≡◌};
ghost use Rattle.macsec_tag.specs.Table.{reading};
ghost use Rattle.macsec_example_callers.specs.Answers.{number_and_sci};

use macsec_tag::reading::read;
use macsec_tag::{Read, Sci};

/// The 32 bits of a frame's packet number in its SecTAG, and the SCI if the SecTAG carries one; `None` if the frame is
/// untagged, or its SecTAG has a fault.
pub fn number_and_sci(frame: &[u8]) -> Option<(u32, Option<Sci>)>
    ensures { result ≡ number_and_sci (reading frame.now) }
{
    match read(frame) {
        Read::Tagged(mpdu) => {
            let tag = mpdu.tag();
            Some((tag.pn(), tag.sci()))
        }
        Read::Untagged | Read::Bad(_) => None,
    }
}
