//! Why management commands are refused. All commands share one list of refusals, in the order in which they are tested.
//! The list is in the lowest crate that needs it.

ghost use Rattle.std.specs.Prelude.{◌≡◌, length};
ghost use Rattle.macsec_suite.specs.RefusalNumbers.{number_of_refusal};

use thiserror::Error;

/// Why a command is refused, in the order of the tests.
#[derive(Clone, Copy, PartialEq, Eq, Debug, Error)]
pub enum Refusal {
    /// The suite's keys have another length.
    #[error("the key's length is not the suite's")]
    KeyLength = 1,
    /// The confidentiality offset is not 0, 30 or 50, or, with extended packet numbers, not 0.
    #[error("the suite's keys have no such offset")]
    Offset = 2,
    /// A key with this number was installed before, retired or not.
    #[error("the number of the key was used before")]
    KeyNumberUsed = 3,
    /// A key with these bytes was installed before, retired or not.
    #[error("the bytes of the key were used before")]
    KeyRepeated = 4,
    /// There is no such key.
    #[error("there is no such key")]
    NoKey = 5,
    /// The key is retired.
    #[error("the key is retired")]
    KeyRetired = 6,
    /// An SA uses the key.
    #[error("an association uses the key")]
    KeyInUse = 7,
    /// The SCI is the endpoint's own.
    #[error("the SCI is the endpoint's own")]
    OwnSci = 8,
    /// The SC exists already.
    #[error("there is such a channel")]
    ScTaken = 9,
    /// The endpoint has as many SCs as it can have.
    #[error("there are as many channels as there can be")]
    ScFull = 10,
    /// There is no such SC.
    #[error("there is no such channel")]
    NoSc = 11,
    /// The SA exists already.
    #[error("there is such an association")]
    AnTaken = 12,
    /// There is no such SA.
    #[error("there is no such association")]
    NoSa = 13,
    /// The packet number is 0 or above the suite's last one.
    #[error("the packet number is not from 1 to the last")]
    PnRange = 14,
    /// The packet number is below the lowest acceptable one.
    #[error("the packet number is below the lowest acceptable one")]
    PnLower = 15,
    /// The packet number is below the key's first unused one.
    #[error("the packet number is below the key's first unused one")]
    PnFloor = 16,
    /// The suite has extended packet numbers, and the SSCI is the endpoint's own under the key.
    #[error("the SSCI is the key's own")]
    SsciOwn = 17,
    /// The replay window is too wide.
    #[error("the replay window is too wide")]
    Window = 18,
    /// The tag form does not fit the endpoint's SCI.
    #[error("the tag form does not fit the endpoint's SCI")]
    SciForm = 19,
    /// The SA has no packet number left.
    #[error("the association has no packet number left")]
    Exhausted = 20,
}

impl Refusal {
    /// The number of the refusal, 1 to 20. If several refusals apply, the one with the lowest number is returned.
    pub fn number(self) -> u8
        ensures { result ≡ number_of_refusal self }
    {
        self as u8
    }
}
