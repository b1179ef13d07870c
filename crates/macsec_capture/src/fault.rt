//! Why a run over a capture file fails.

use macsec_pcap::PcapFault;
use macsec_script_parser::ScriptFault;
use thiserror::Error;

/// Why a run over a capture file fails.
#[derive(Clone, Copy, Debug, Error)]
pub enum CaptureFault {
    /// The configuration has a fault or can't be read, the text can't be written, or memory ran out for one of them.
    #[error(transparent)]
    Script(ScriptFault),
    /// The input has a fault or can't be read, the output can't be written, or memory ran out for one of them.
    #[error(transparent)]
    Pcap(PcapFault),
}

impl From<ScriptFault> for CaptureFault {
    ghost use Rattle.macsec_capture.specs.declared.fault.CaptureFault.TheVariants.{Script};
    ghost use Rattle.std.specs.Prelude.{◌≡◌};

    ghost from_gives = { λ fault r. r ≡ Script fault };

    fn from(fault: ScriptFault) -> CaptureFault {
        CaptureFault::Script(fault)
    }
}

impl From<PcapFault> for CaptureFault {
    ghost use Rattle.macsec_capture.specs.declared.fault.CaptureFault.TheVariants.{Pcap};
    ghost use Rattle.std.specs.Prelude.{◌≡◌};

    ghost from_gives = { λ fault r. r ≡ Pcap fault };

    fn from(fault: PcapFault) -> CaptureFault {
        CaptureFault::Pcap(fault)
    }
}
