//! How wide the cipher's planes are. `tools/library/clearing.c` chooses it in the build for vectors of 256 bits.

ghost use Rattle.std.specs.Prelude.{◌≡◌};

use crate::endpoint::Endpoint;

/// Says whether the endpoint's key streams are to be made 16 blocks at once. This changes no result and no state. The
/// library's own part in C calls it; the header has no such call.
#[unsafe(no_mangle)]
pub extern "C" fn macsec_prefer_wide(e: &mut Endpoint, wide: bool)
    ensures { e.new.state ≡ e.old.state }
{
    if e.is_made() {
        e.held().prefer_wide(wide);
    }
}
