//! Tag forms (IEEE 802.1AE, 9.5).

ghost use Rattle.std.specs.Prelude.{◌≡◌};
ghost use Rattle.macsec_commands.specs.Configs.{is_unfit};
ghost use Rattle.macsec_commands.specs.Scis.{IsSci};

use crate::Sci;

/// Whether the SecTAG carries the SCI, and whether ES or SCB is set (9.5).
#[derive(Clone, Copy, PartialEq, Eq, Debug)]
pub enum TagForm {
    /// The SCI if there is more than one receive SC; otherwise no SCI, ES or SCB.
    Auto,
    /// Always the SCI.
    Sci,
    /// ES instead of the SCI if the source address is the SCI's, otherwise the SCI.
    Es,
    /// SCB instead of the SCI if the source address is the SCI's, otherwise the SCI.
    Scb,
}

/// Whether the tag form requires another port than the SCI's. In a SecTAG without an SCI, ES means port 0001 and SCB
/// means port 0000. An SCI has eight octets, whatever its source.
pub fn is_unfit(form: TagForm, sci: Sci) -> bool
    ensures unfit { result ≡ is_unfit form sci }
    ensures sci { IsSci sci }
{
    match form {
        TagForm::Auto | TagForm::Sci => false,
        TagForm::Es => sci.0[6] != 0 || sci.0[7] != 1,
        TagForm::Scb => sci.0[6] != 0 || sci.0[7] != 0,
    }
}
