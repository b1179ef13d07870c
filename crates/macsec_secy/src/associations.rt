//! The counters of receive SCs (secure channels) and of their SAs (secure associations; IEEE 802.1AE, 10.7).

ghost use Rattle.std.specs.Prelude.{◌≡◌, map, slice_get, IfSome, Some};
ghost use Rattle.macsec_rx.specs.Rows.{AreScis};
ghost use Rattle.macsec_secy.specs.State.{no_rx_counters};
ghost use Rattle.macsec_secy.specs.Counting.{added, at_channel, count_in_channel, count_verdict, new_channel_counters, with_association, without_association};
ghost use Rattle.macsec_secy.specs.Sound.{sci_of_counters};
ghost use Rattle.macsec_secy.specs.Verdicts.{counted_at_place};

use crate::{An, ChannelCounters, RxCounters, Sci, Verdict};
use macsec_rx::Judged;
use macsec_tag::ASSOCIATION_COUNT;

impl RxCounters {
    /// Counters of 0.
    pub(crate) fn zero() -> RxCounters
        ensures { result ≡ no_rx_counters }
    {
        RxCounters {
            in_pkts_ok: 0,
            in_pkts_unchecked: 0,
            in_pkts_delayed: 0,
            in_pkts_late: 0,
            in_pkts_invalid: 0,
            in_pkts_not_valid: 0,
        }
    }

    /// Counts a frame with this verdict, if SCs and SAs have a counter for it.
    fn count(&mut self, verdict: Verdict)
        ensures { self.new ≡ count_verdict verdict self.old }
    {
        match verdict {
            Verdict::Passed => self.in_pkts_ok = self.in_pkts_ok.wrapping_add(1),
            Verdict::Unchecked => self.in_pkts_unchecked = self.in_pkts_unchecked.wrapping_add(1),
            Verdict::Delayed => self.in_pkts_delayed = self.in_pkts_delayed.wrapping_add(1),
            Verdict::Late => self.in_pkts_late = self.in_pkts_late.wrapping_add(1),
            Verdict::Invalid => self.in_pkts_invalid = self.in_pkts_invalid.wrapping_add(1),
            Verdict::NotValid => self.in_pkts_not_valid = self.in_pkts_not_valid.wrapping_add(1),
            _ => {}
        }
    }

    /// The sums of these counters and of others.
    fn plus(self, other: RxCounters) -> RxCounters
        ensures { result ≡ added self other }
    {
        RxCounters {
            in_pkts_ok: self.in_pkts_ok.wrapping_add(other.in_pkts_ok),
            in_pkts_unchecked: self.in_pkts_unchecked.wrapping_add(other.in_pkts_unchecked),
            in_pkts_delayed: self.in_pkts_delayed.wrapping_add(other.in_pkts_delayed),
            in_pkts_late: self.in_pkts_late.wrapping_add(other.in_pkts_late),
            in_pkts_invalid: self.in_pkts_invalid.wrapping_add(other.in_pkts_invalid),
            in_pkts_not_valid: self.in_pkts_not_valid.wrapping_add(other.in_pkts_not_valid),
        }
    }
}

impl ChannelCounters {
    /// The counters of a new SC, which has no SAs: all 0.
    pub(crate) fn new(sci: Sci) -> ChannelCounters
        ensures { result ≡ new_channel_counters sci }
    {
        ChannelCounters {
            sci,
            counters: RxCounters::zero(),
            associations: [None; ASSOCIATION_COUNT],
            removed: RxCounters::zero(),
        }
    }

    /// Counts a frame in the SC and in its SA with this number.
    fn count(&mut self, verdict: Verdict, an: An)
        ensures { self.new ≡ count_in_channel verdict an self.old }
    {
        self.counters.count(verdict);
        if let Some(counters) = &mut self.associations[usize::from(an.number())] {
            counters.count(verdict);
        }
    }

    /// If the SC has this SCI, starts the counters of a new SA with this number at 0.
    fn add(&mut self, sci: Sci, an: An)
        ensures { self.new ≡ at_channel (with_association an) sci self.old }
    {
        if self.sci == sci {
            self.associations[usize::from(an.number())] = Some(RxCounters::zero());
        }
    }

    /// If the SC has this SCI, adds the counters of the SA with this number to those of the deleted SAs, and removes
    /// them.
    fn remove(&mut self, sci: Sci, an: An)
        ensures { self.new ≡ at_channel (without_association an) sci self.old }
    {
        if self.sci == sci {
            let place = usize::from(an.number());
            let counted = self.associations[place].unwrap_or(RxCounters::zero());
            self.removed = self.removed.plus(counted);
            self.associations[place] = None;
        }
    }
}

/// Starts the counters of a new SA of this SC, with this number, at 0.
pub(crate) fn add_association(rows: &mut [ChannelCounters], sci: Sci, an: An)
    ensures { rows.new ≡ map (at_channel (with_association an) sci) rows.old }
{
    for row in rows.iter_mut() {
        row.add(sci, an);
    }
}

/// Adds the counters of this SC's SA with this number to those of the SC's deleted SAs, and removes them.
pub(crate) fn remove_association(rows: &mut [ChannelCounters], sci: Sci, an: An)
    ensures { rows.new ≡ map (at_channel (without_association an) sci) rows.old }
{
    for row in rows.iter_mut() {
        row.remove(sci, an);
    }
}

/// Counts a frame at its SA and at that SA's SC, whose position is in `judged`, if it has an SA. No other counters
/// change.
pub(crate) fn count_at_row(rows: &mut [ChannelCounters], judged: &Judged)
    requires distinct { AreScis (map sci_of_counters rows.old) }
    requires place { IfSome judged.now.row (λ at. slice_get (map sci_of_counters rows.old) judged.now.channel ≡ Some at.0) }
    ensures { rows.new ≡ counted_at_place judged.now.verdict judged.now.row rows.old }
{
    if let Some((_, an)) = judged.row {
        rows[judged.channel].count(judged.verdict, an);
    }
}
