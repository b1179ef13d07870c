//! What transmission and reception count at the endpoint and at the transmit SC (IEEE 802.1AE, 10.7). The counters of
//! receive SCs are in `associations`.

ghost use Rattle.std.specs.Prelude.{◌≡◌};
ghost use Rattle.macsec_tx.specs.Transmit.{no_sa, plain, too_long};
ghost use Rattle.macsec_secy.specs.State.{no_counters, no_tx_counters};
ghost use Rattle.macsec_secy.specs.Counting.{count_leaving, count_octets, count_packet};
ghost use Rattle.macsec_secy.specs.Verdicts.{counted_by, is_opened};

use crate::{Counters, Mode, TxCounters, Verdict};

impl Counters {
    /// Counters of 0.
    pub(crate) fn zero() -> Counters
        ensures { result ≡ no_counters }
    {
        Counters {
            in_pkts_untagged: 0,
            in_pkts_no_tag: 0,
            in_pkts_bad_tag: 0,
            in_pkts_reserved: 0,
            in_pkts_no_sa: 0,
            in_pkts_no_sa_error: 0,
            in_octets_validated: 0,
            in_octets_decrypted: 0,
            out_pkts_untagged: 0,
            out_pkts_too_long: 0,
            out_pkts_no_sa: 0,
        }
    }

    /// Counts a client frame that is sent unprotected.
    pub(crate) fn count_plain(&mut self)
        ensures { self.new ≡ count_leaving plain self.old }
    {
        self.out_pkts_untagged = self.out_pkts_untagged.wrapping_add(1);
    }

    /// Counts a client frame that is dropped because no SA is enabled or the enabled one is exhausted.
    pub(crate) fn count_no_sa(&mut self)
        ensures { self.new ≡ count_leaving no_sa self.old }
    {
        self.out_pkts_no_sa = self.out_pkts_no_sa.wrapping_add(1);
    }

    /// Counts a client frame that is too long.
    pub(crate) fn count_too_long(&mut self)
        ensures { self.new ≡ count_leaving too_long self.old }
    {
        self.out_pkts_too_long = self.out_pkts_too_long.wrapping_add(1);
    }

    /// Counts a frame if the endpoint counts its verdict, and not a receive SC.
    pub(crate) fn count_packet(&mut self, verdict: Verdict)
        ensures { self.new ≡ count_packet verdict self.old }
    {
        match verdict {
            Verdict::Untagged => self.in_pkts_untagged = self.in_pkts_untagged.wrapping_add(1),
            Verdict::NoTag => self.in_pkts_no_tag = self.in_pkts_no_tag.wrapping_add(1),
            Verdict::BadTag => self.in_pkts_bad_tag = self.in_pkts_bad_tag.wrapping_add(1),
            Verdict::Reserved => self.in_pkts_reserved = self.in_pkts_reserved.wrapping_add(1),
            Verdict::NoSa => self.in_pkts_no_sa = self.in_pkts_no_sa.wrapping_add(1),
            Verdict::NoSaError => {
                self.in_pkts_no_sa_error = self.in_pkts_no_sa_error.wrapping_add(1);
            }
            _ => {}
        }
    }

    /// Counts a tagged frame with this many octets of secure data. The frame counts here only if no SC counts its
    /// verdict; the octets count if the cipher was applied, which follows from the verdict and the mode of validation.
    pub(crate) fn count_tagged(&mut self, mode: Mode, verdict: Verdict, e: bool, octets: u64)
        ensures { self.new ≡ counted_by mode verdict e octets self.old }
    {
        self.count_packet(verdict);
        if !is_opened(mode, verdict) {
            return;
        }
        if e {
            self.in_octets_decrypted = self.in_octets_decrypted.wrapping_add(octets);
        } else {
            self.in_octets_validated = self.in_octets_validated.wrapping_add(octets);
        }
    }
}

impl TxCounters {
    /// Counters of 0.
    pub(crate) fn zero() -> TxCounters
        ensures { result ≡ no_tx_counters }
    {
        TxCounters {
            out_pkts_protected: 0,
            out_pkts_encrypted: 0,
            out_octets_protected: 0,
            out_octets_encrypted: 0,
        }
    }

    /// Counts a protected frame with this many octets of user data. The frame is encrypted if `conf` is true.
    pub(crate) fn count(&mut self, conf: bool, octets: u64)
        ensures { self.new ≡ count_octets conf octets self.old }
    {
        if conf {
            self.out_pkts_encrypted = self.out_pkts_encrypted.wrapping_add(1);
            self.out_octets_encrypted = self.out_octets_encrypted.wrapping_add(octets);
        } else {
            self.out_pkts_protected = self.out_pkts_protected.wrapping_add(1);
            self.out_octets_protected = self.out_octets_protected.wrapping_add(octets);
        }
    }
}

/// Whether the cipher was applied to a frame with this verdict.
fn is_opened(mode: Mode, verdict: Verdict) -> bool
    ensures { result ≡ is_opened mode verdict }
{
    match verdict {
        Verdict::Invalid | Verdict::Passed => true,
        Verdict::NotValid | Verdict::Delayed => mode != Mode::Disabled,
        _ => false,
    }
}
