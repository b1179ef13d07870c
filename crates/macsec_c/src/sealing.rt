//! Frames for tests: any SecTAG, with a valid ICV (IEEE 802.1AE, 10.5 and 14.5 to 14.8).

ghost use Rattle.std.specs.Prelude.{◌≡◌};
ghost use Rattle.macsec_c_values.specs.Arguments.{sci_of};
ghost use Rattle.macsec_c_values.specs.Sealing.{sealed};

use macsec_c_values::{Sak, seal};

/// Seals a frame in place, whatever its SecTAG is. `macsec_seal` of the header calls this with a frame that is not
/// null.
///
/// No contract prevents a caller from using an IV twice under a key.
#[unsafe(no_mangle)]
pub extern "C" fn macsec_seal_raw(
    key: &Sak,
    sci: &[u8; 8],
    pn: u64,
    conf: bool,
    head: usize,
    frame: &mut [u8],
) -> u32
    ensures { (result, frame.new) ≡ sealed key.now (sci_of sci.now) pn conf head frame.old }
{
    seal(key, sci, pn, conf, head, frame)
}
