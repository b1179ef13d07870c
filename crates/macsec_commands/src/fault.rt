//! Why an endpoint cannot be created.

ghost use Rattle.std.specs.Prelude.{◌≡◌};
ghost use Rattle.macsec_commands.specs.FaultNumbers.{number_of_new_fault};

use thiserror::Error;

/// Why an endpoint cannot be created.
#[derive(Clone, Copy, PartialEq, Eq, Debug, Error)]
pub enum NewFault {
    /// Out of memory.
    #[error("out of memory")]
    Memory = 1,
    /// The largest frame has fewer than 64 octets, or more than 9,248.
    #[error("the largest frame is not 64 to 9,248 octets")]
    MaxFrame = 2,
    /// The tag form does not fit the SCI.
    #[error("the tag form does not fit the SCI")]
    SciForm = 3,
}

impl NewFault {
    /// The number of the fault, 1 to 3.
    pub fn number(self) -> u8
        ensures { result ≡ number_of_new_fault self }
    {
        self as u8
    }
}
