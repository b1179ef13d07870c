//! Commands that the endpoint carries out itself, the replacement of a retired key, and the options that it passes to
//! transmission.

ghost use Rattle.std.specs.Prelude.{◌≡◌};
ghost use Rattle.macsec_aes.specs.Keys.{key_bytes};
ghost use Rattle.macsec_suite.specs.Refusals.{has_retired, refusal_of};
ghost use Rattle.macsec_suite.specs.Replacing.{can_replace};
ghost use Rattle.macsec_commands.specs.declared.command.Command.TheVariants as by;
ghost use Rattle.macsec_secy.specs.State.{tx_options};
ghost use Rattle.macsec_secy.specs.Sound.{IsSound};
ghost use Rattle.macsec_secy.specs.Commands.{refusal, state_after_command, uses};
ghost use Rattle.macsec_secy.specs.GivenUp.{state_after_replacing};
ghost use Rattle.macsec_secy.specs.Renewing.{renewal_refusal, state_after_renewing};

use crate::{Key, KeyNumber, Mode, NewKey, Refusal, Sci, Secy, TagForm};
use macsec_commands::is_unfit;
use macsec_tx::TxOptions;

impl Secy {
    /// Replaces the octets of a retired key by `bytes`, as if it had been installed with them. Nothing else changes.
    /// The old octets, and all that was prepared from them, are overwritten. So a keeper forgets a retired key: with a
    /// fingerprint of its octets as `bytes`, the keeper can still refuse them. Returns false and changes nothing if
    /// there is no such key or it is not retired, if its suite's keys have another length, or if a key has these octets
    /// already, retired or not.
    ///
    /// `prepared` then returns the key of the new octets. So do not seal a job that was planned under the old ones, and
    /// do not pass what was opened under them to `finish_receive`.
    pub fn replace_key(&mut self, number: KeyNumber, bytes: Key) -> bool
        ensures answer { result ≡ can_replace self.old.keys number (key_bytes bytes) }
        ensures after { self.new ≡ state_after_replacing number (key_bytes bytes) self.old }
        ensures sound { IsSound self.new }
    {
        // For the prover only: after this line it knows that the endpoint is sound. The compiler deletes the line.
        let _ = &self.counters;
        self.keys.replace(number, bytes)
    }

    /// Installs a key as the command does, also under the number of a retired key that no SA uses. Then it takes the
    /// row of that key, whose octets are overwritten, with all that was prepared from them. Nothing else changes: every
    /// other key stays, with its first unused packet number, and so do all SAs, counters and options.
    ///
    /// The endpoint no longer knows the octets of the key that was in the row, so it does not refuse them any more. A
    /// keeper that remembers a fingerprint of them does. Do not seal a job that was planned under the old key, and do
    /// not pass what was opened under it to `finish_receive`.
    ///
    /// Errors: those of the command, in the same order.
    pub fn renew_key(&mut self, key: &NewKey) -> Result<(), Refusal>
        ensures refusal { refusal_of result ≡ renewal_refusal self.old key.now }
        ensures after { self.new ≡ state_after_renewing key.now self.old }
        ensures sound { IsSound self.new }
    {
        // For the prover only: after this line it knows that the endpoint is sound. The compiler deletes the line.
        let _ = &self.counters;
        let in_use = self.uses(key.number);
        self.keys
            .renew(self.config.suite, key, self.options.window, in_use)
    }

    /// Whether a retired key has these octets.
    pub fn has_retired_key(&self, bytes: Key) -> bool
        ensures { result ≡ has_retired self.now.keys (key_bytes bytes) }
    {
        self.keys.has_retired(bytes)
    }

    /// Sets how received frames are validated.
    pub(crate) fn set_mode(&mut self, mode: Mode) -> Result<(), Refusal>
        ensures refusal { refusal_of result ≡ refusal self.old (by.Validate mode) }
        ensures after { self.new ≡ state_after_command self.old (by.Validate mode) }
        ensures sound { IsSound self.new }
    {
        self.options.mode = mode;
        Ok(())
    }

    /// Sets whether late frames are dropped, and the replay window.
    pub(crate) fn set_replay(&mut self, protect: bool, window: u64) -> Result<(), Refusal>
        ensures refusal { refusal_of result ≡ refusal self.old (by.Replay protect window) }
        ensures after { self.new ≡ state_after_command self.old (by.Replay protect window) }
        ensures sound { IsSound self.new }
    {
        if window > self.keys.widest_window() {
            return Err(Refusal::Window);
        }
        self.options.replay = protect;
        self.options.window = window;
        self.rx.narrow(window);
        Ok(())
    }

    /// Sets the tag form.
    pub(crate) fn set_form(&mut self, form: TagForm) -> Result<(), Refusal>
        ensures refusal { refusal_of result ≡ refusal self.old (by.Tag form) }
        ensures after { self.new ≡ state_after_command self.old (by.Tag form) }
        ensures sound { IsSound self.new }
    {
        if is_unfit(form, self.config.sci) {
            return Err(Refusal::SciForm);
        }
        self.options.form = form;
        Ok(())
    }

    /// Whether an SA uses the key with this number.
    pub(crate) fn uses(&self, key: KeyNumber) -> bool
        ensures { result ≡ uses self.now key }
    {
        self.tx.uses(key) || self.rx.uses(key)
    }

    /// The options that transmission depends on.
    pub(crate) fn tx_options(&self) -> TxOptions
        ensures { result ≡ tx_options self.now }
    {
        TxOptions {
            protect: self.options.protect,
            form: self.options.form,
            sci: self.config.sci,
            max_frame: self.config.max_frame,
            many: self.rx.channel(1).is_some(),
        }
    }
}
