//! The commands on receive SCs (secure channels), which change the counters too, and the options that reception depends
//! on.

ghost use Rattle.std.specs.Prelude.{◌≡◌};
ghost use Rattle.macsec_suite.specs.Refusals.{refusal_of};
ghost use Rattle.macsec_commands.specs.declared.command.Command.TheVariants as by;
ghost use Rattle.macsec_secy.specs.State.{rx_options};
ghost use Rattle.macsec_secy.specs.Sound.{IsSound};
ghost use Rattle.macsec_secy.specs.Commands.{refusal, state_after_command};

use crate::associations::{add_association, remove_association};
use crate::{An, ChannelCounters, KeyNumber, Refusal, Sci, Secy};
use macsec_rx::RxOptions;

impl Secy {
    /// Creates a receive SC, with counters of 0.
    pub(crate) fn rx_sc(&mut self, sci: Sci) -> Result<(), Refusal>
        ensures refusal { refusal_of result ≡ refusal self.old (by.RxSc sci) }
        ensures after { self.new ≡ state_after_command self.old (by.RxSc sci) }
        ensures sound { IsSound self.new }
    {
        self.rx.rx_sc(self.config.sci, sci)?;
        self.rx_counters.push(ChannelCounters::new(sci));
        Ok(())
    }

    /// Deletes a receive SC with its SAs, and the counters of both.
    pub(crate) fn rx_sc_del(&mut self, sci: Sci) -> Result<(), Refusal>
        ensures refusal { refusal_of result ≡ refusal self.old (by.RxScDel sci) }
        ensures after { self.new ≡ state_after_command self.old (by.RxScDel sci) }
        ensures sound { IsSound self.new }
    {
        self.rx.rx_sc_del(sci)?;
        self.rx_counters.retain(|row| row.sci != sci);
        Ok(())
    }

    /// Creates a receive SA, disabled, with counters of 0.
    pub(crate) fn rx_sa(
        &mut self,
        sci: Sci,
        an: An,
        key: KeyNumber,
        ssci: u32,
        lowest: u64,
    ) -> Result<(), Refusal>
        ensures refusal { refusal_of result ≡ refusal self.old (by.RxSa sci an key ssci lowest) }
        ensures after { self.new ≡ state_after_command self.old (by.RxSa sci an key ssci lowest) }
        ensures sound { IsSound self.new }
    {
        self.rx.rx_sa(&self.keys, sci, an, key, ssci, lowest)?;
        add_association(self.rx_counters.as_mut_slice(), sci, an);
        Ok(())
    }

    /// Deletes a receive SA. Its counters are added to those of its SC's deleted SAs.
    pub(crate) fn rx_del(&mut self, sci: Sci, an: An) -> Result<(), Refusal>
        ensures refusal { refusal_of result ≡ refusal self.old (by.RxDel sci an) }
        ensures after { self.new ≡ state_after_command self.old (by.RxDel sci an) }
        ensures sound { IsSound self.new }
    {
        self.rx.rx_del(sci, an)?;
        remove_association(self.rx_counters.as_mut_slice(), sci, an);
        Ok(())
    }

    /// The options that reception depends on.
    pub(crate) fn rx_options(&self) -> RxOptions
        ensures { result ≡ rx_options self.now }
    {
        RxOptions {
            mode: self.options.mode,
            replay: self.options.replay,
            window: self.options.window,
        }
    }
}
