//! The counters of an endpoint (IEEE 802.1AE, 10.7).

use crate::Sci;
use macsec_tag::ASSOCIATION_COUNT;

/// The endpoint's counters, modulo 2^64.
#[derive(Clone, Copy, PartialEq, Eq, Debug)]
pub struct Counters {
    pub in_pkts_untagged: u64,
    pub in_pkts_no_tag: u64,
    pub in_pkts_bad_tag: u64,
    pub in_pkts_reserved: u64,
    pub in_pkts_no_sa: u64,
    pub in_pkts_no_sa_error: u64,
    pub in_octets_validated: u64,
    pub in_octets_decrypted: u64,
    pub out_pkts_untagged: u64,
    pub out_pkts_too_long: u64,
    pub out_pkts_no_sa: u64,
}

/// The counters of the transmit SC, modulo 2^64.
#[derive(Clone, Copy, PartialEq, Eq, Debug)]
pub struct TxCounters {
    pub out_pkts_protected: u64,
    pub out_pkts_encrypted: u64,
    pub out_octets_protected: u64,
    pub out_octets_encrypted: u64,
}

/// The counters of a receive SC, or of a receive SA, modulo 2^64 (10.7).
#[derive(Clone, Copy, PartialEq, Eq, Debug, Default)]
pub struct RxCounters {
    pub in_pkts_ok: u64,
    pub in_pkts_unchecked: u64,
    pub in_pkts_delayed: u64,
    pub in_pkts_late: u64,
    pub in_pkts_invalid: u64,
    pub in_pkts_not_valid: u64,
}

/// The counters of the receive SC with this SCI, and of its SAs.
#[derive(Clone, Copy, PartialEq, Eq, Debug, Default)]
pub struct ChannelCounters {
    pub sci: Sci,
    /// The counters of the SC.
    pub counters: RxCounters,
    /// The counters of each SA since its creation, by association number.
    pub associations: [Option<RxCounters>; ASSOCIATION_COUNT],
    /// The sums of the counters of the SC's deleted SAs.
    pub removed: RxCounters,
}
