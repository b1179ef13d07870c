//! The configuration of an endpoint.

ghost use Rattle.std.specs.Prelude.{◌≡◌};
ghost use Rattle.macsec_commands.specs.Configs.{config_fault};
ghost use Rattle.macsec_commands.specs.Scis.{IsSci};

use crate::{MAX_FRAME_LEN, NewFault, Sci, Suite, TagForm, is_unfit};

/// The smallest value of `max_frame`, in octets.
pub const MIN_MAX_FRAME: usize = 64;

/// The configuration of an endpoint.
#[derive(Clone, Copy, PartialEq, Eq, Debug)]
pub struct EndConfig {
    /// The cipher suite of keys that name none.
    pub suite: Suite,
    /// The endpoint's SCI.
    pub sci: Sci,
    /// The largest frame, in octets, that the endpoint sends to the link for the client of its controlled port: 64 to
    /// 9,248.
    pub max_frame: u32,
    /// The tag form at the start.
    pub form: TagForm,
}

impl EndConfig {
    /// Returns the fault of the configuration, if any: `MaxFrame` if the largest frame is not 64 to 9,248 octets, then
    /// `SciForm` if the tag form does not fit the SCI.
    pub fn fault(self) -> Option<NewFault>
        ensures fault { result ≡ config_fault self }
        // An SCI has eight octets, whatever its source.
        ensures sci { IsSci self.sci }
    {
        // Called before the first test, so that the prover knows at each return that an SCI has eight octets.
        let is_unfit = is_unfit(self.form, self.sci);
        let max_frame = self.max_frame as usize;
        if max_frame < MIN_MAX_FRAME || max_frame > MAX_FRAME_LEN {
            return Some(NewFault::MaxFrame);
        }
        if is_unfit {
            return Some(NewFault::SciForm);
        }
        None
    }
}
