//! The calls that read the state of an endpoint.

ghost use Rattle.std.specs.Prelude.{◌≡◌, ◌+◌, ◌≤◌, is_some, length, option_map, slice_get};
ghost use Rattle.macsec_suite.specs.KeyNumbers.{max_key_count};
ghost use Rattle.macsec_suite.specs.KeyRows.{key_row};
ghost use Rattle.macsec_suite.specs.KeyTables.{first_unused_of};
ghost use Rattle.macsec_tx.specs.Transmit.{row_on, tx_row};
ghost use Rattle.macsec_tx.specs.Rows.{IsEnabled};
ghost use Rattle.macsec_rx.specs.Channels.{rx_row};
ghost use Rattle.macsec_rx.specs.Limits.{max_channel_count, max_row_count};
ghost use Rattle.macsec_rx.specs.Commands.{has_rx};
ghost use Rattle.macsec_secy.specs.Answers.{channel_counters_of, rx_counters_of, rx_removed_of, rx_sa_counters_of};
ghost use Rattle.macsec_secy.specs.AssociationSums.{rx_sums_of};
ghost use Rattle.macsec_secy.specs.Sound.{IsSound};

use crate::{
    An, ChannelCounters, Counters, EnabledSa, EndConfig, KeyNumber, Options, RxCounters, RxRow,
    Sci, Secy, TxCounters, TxRow,
};

impl Secy {
    /// The configuration with which it was made.
    pub fn config(&self) -> EndConfig
        ensures { result ≡ self.now.config }
    {
        self.config
    }

    /// The options that commands set.
    pub fn options(&self) -> Options
        ensures { result ≡ self.now.options }
    {
        self.options
    }

    /// The endpoint's counters.
    pub fn counters(&self) -> Counters
        ensures { result ≡ self.now.counters }
    {
        self.counters
    }

    /// The counters of the transmit SC.
    pub fn tx_counters(&self) -> TxCounters
        ensures { result ≡ self.now.tx_counters }
    {
        self.tx_counters
    }

    /// How many keys the command can still install: 4,096 less the number of keys in the table, retired or not.
    pub fn keys_left(&self) -> u16
        ensures { result + length self.now.keys ≡ max_key_count }
    {
        self.keys.keys_left()
    }

    /// The first packet number that was never used under the key of this number, if there is such a key.
    pub fn first_unused(&self, number: KeyNumber) -> Option<u128>
        ensures { result ≡ option_map first_unused_of (key_row self.now.keys number) }
    {
        self.keys.first_unused(number)
    }

    /// The transmit SA (secure association) with this number, if it exists.
    pub fn tx_row(&self, an: An) -> Option<TxRow>
        ensures { result ≡ tx_row self.now.tx an }
    {
        self.tx.row(an)
    }

    /// The enabled transmit SA, if there is one.
    pub fn tx_row_on(&self) -> Option<TxRow>
        ensures { result ≡ row_on self.now.tx }
    {
        self.tx.row_on()
    }

    /// The enabled transmit SA, for `send_by` and `plan_send_by`.
    pub fn enabled_sa(&self) -> Option<EnabledSa>
        ensures { IsEnabled self.now.tx result }
    {
        self.tx.enabled()
    }

    /// The counters of the receive SC with this SCI, if it exists. Each is, modulo 2^64, the sum of that counter over
    /// the SC's SAs (`rx_sa_counters`) and of `rx_removed` (10.7).
    pub fn rx_counters(&self, sci: Sci) -> Option<RxCounters>
        ensures counters { result ≡ rx_counters_of self.now.rx_counters sci }
        ensures sum { result ≡ rx_sums_of self.now.rx_counters sci }
    {
        let channel = self.channel_counters(sci)?;
        Some(channel.counters)
    }

    /// The counters of this SC's receive SA with this number since its creation, if it exists.
    pub fn rx_sa_counters(&self, sci: Sci, an: An) -> Option<RxCounters>
        ensures counters { result ≡ rx_sa_counters_of self.now.rx_counters sci an }
        ensures there { is_some result ≡ has_rx self.now.rx.rows sci an }
    {
        let channel = self.channel_counters(sci)?;
        channel.associations[usize::from(an.number())]
    }

    /// The sums, modulo 2^64, of the counters of all SAs deleted from the receive SC with this SCI since the SC was
    /// created, if the SC exists.
    pub fn rx_removed(&self, sci: Sci) -> Option<RxCounters>
        ensures { result ≡ rx_removed_of self.now.rx_counters sci }
    {
        let channel = self.channel_counters(sci)?;
        Some(channel.removed)
    }

    /// The counters of the receive SC with this SCI and of its SAs, if it exists.
    fn channel_counters(&self, sci: Sci) -> Option<ChannelCounters>
        ensures row { result ≡ channel_counters_of self.now.rx_counters sci }
        ensures sound { IsSound self.now }
    {
        for row in self.rx_counters.as_slice() {
            if row.sci == sci {
                return Some(*row);
            }
        }
        None
    }

    /// The SCI of the receive SC at this index in the order of creation, from 0, if it exists. There are at most 64
    /// SCs.
    pub fn rx_channel(&self, place: usize) -> Option<Sci>
        ensures sci { result ≡ slice_get self.now.rx.scis place }
        ensures count { length self.now.rx.scis ≤ max_channel_count }
    {
        self.rx.channel(place)
    }

    /// This SC's receive SA (secure association) with this number, if it exists.
    pub fn rx_row(&self, sci: Sci, an: An) -> Option<RxRow>
        ensures { result ≡ rx_row self.now.rx.rows sci an }
    {
        self.rx.row(sci, an)
    }

    /// The receive SAs (secure associations), in the order of creation. There are at most 256.
    pub fn rx_rows(&self) -> &[RxRow]
        ensures rows { result.now ≡ self.now.rx.rows }
        ensures count { length self.now.rx.rows ≤ max_row_count }
    {
        self.rx.rows()
    }
}
