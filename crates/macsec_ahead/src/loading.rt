//! Commands that are carried out all or none.

ghost use Rattle.std.specs.Prelude.{◌≡◌, ◌≤◌, ◌+◌, ◌++◌, length, vec_capacity, vec_len, IfOk, OnOk, OnErr, None};
ghost use Rattle.macsec_suite.specs.Refusals.{refusal_of};
ghost use Rattle.macsec_ahead.specs.Loading.{IsLoaded, above, after_all, beginning_above, beginning_at, begins_of};
ghost use Rattle.macsec_ahead.specs.Loading.{carried_out, first_free, first_refused, in_64_bits, loaded, refused_of};

use crate::AheadKeeper;
use macsec_secy::{Command, Refusal};
use std::alloc::{AllocError, Global};
use std::mem::swap;

impl AheadKeeper {
    /// Carries out all of these commands, or none: the first that is refused is returned by its place, with the reason,
    /// and then nothing has changed. A new key may take the row of a retired one, as in `renew_key`; other commands are
    /// carried out as by `command_forgetting`. But an SA that would be refused with `PnFloor` begins above its floor:
    /// above what may have been used under its key, or above its `rx_floor`. Returns for each command where its SA
    /// begins, if that is above its own packet number; otherwise 0.
    pub fn load(
        &mut self,
        alloc: Global,
        commands: &[Option<Command>],
    ) -> Result<Result<Vec<u64>, (usize, Refusal)>, AllocError>
        ensures refused { IfOk result (λ answer. refused_of answer ≡ first_refused 0 self.old commands.now) }
        ensures begins { IfOk result (λ answer. IfOk answer (λ begins. begins.items
            ≡ begins_of self.old commands.now)) }
        ensures all { IfOk result (λ answer. OnOk answer (self.new ≡ after_all self.old commands.now)) }
        ensures none { IfOk result (λ answer. OnErr answer (self.new ≡ self.old)) }
        ensures unchanged { OnErr result (self.new ≡ self.old) }
    {
        let mut begins = Vec::with_capacity(alloc, commands.len())?;
        let mut copy = self.try_clone(alloc)?;
        if let Some(refused) = copy.load_each(&mut begins, commands)? {
            return Ok(Err(refused));
        }
        swap(self, &mut copy);
        Ok(Ok(begins))
    }

    /// Carries out these commands up to the first that is refused.
    fn load_each(
        &mut self,
        begins: &mut Vec<u64>,
        commands: &[Option<Command>],
    ) -> Result<Option<(usize, Refusal)>, AllocError>
        requires { vec_len begins.old + length commands.now ≤ vec_capacity begins.old }
        ensures refused { IfOk result (λ refused. refused ≡ first_refused 0 self.old commands.now) }
        ensures after { IfOk result (λ refused. refused ≡ None → self.new ≡ after_all self.old commands.now) }
        ensures begins { IfOk result (λ refused. refused ≡ None → begins.new.items
            ≡ begins.old.items ++ begins_of self.old commands.now) }
    {
        for (place, command) in commands.iter().enumerate() {
            match self.load_one(command)? {
                Ok(number) => begins.push(number).unwrap(),
                Err(refusal) => return Ok(Some((place, refusal))),
            }
        }
        Ok(None)
    }

    /// Carries out a command, if it is one. Returns where its SA begins, if that is above its own packet number.
    fn load_one(&mut self, command: &Option<Command>) -> Result<Result<u64, Refusal>, AllocError>
        ensures { IfOk result (λ answer. IsLoaded (loaded self.old command.now) answer self.new) }
    {
        let Some(command) = command else {
            return Ok(Ok(0));
        };
        match self.carry_out(command)? {
            Ok(()) => Ok(Ok(0)),
            Err(Refusal::PnFloor) => self.begin_above(command),
            Err(refusal) => Ok(Err(refusal)),
        }
    }

    /// Carries out a command as it is.
    fn carry_out(&mut self, command: &Command) -> Result<Result<(), Refusal>, AllocError>
        ensures refusal { IfOk result (λ answer. refusal_of answer ≡ (carried_out self.old command.now).0) }
        ensures after { IfOk result (λ answer. self.new ≡ (carried_out self.old command.now).1) }
    {
        match *command {
            Command::Key(key) => self.renew_key(&key),
            _ => Ok(self.command_forgetting(command)),
        }
    }

    /// Creates the SA of a command above its floor.
    fn begin_above(&mut self, command: &Command) -> Result<Result<u64, Refusal>, AllocError>
        ensures { IfOk result (λ answer. IsLoaded (beginning_above
            (first_free self.old command.now) self.old command.now) answer self.new) }
    {
        let Some(number) = self.first_free(command) else {
            return Ok(Err(Refusal::PnFloor));
        };
        match self.carry_out(&beginning_at(number, command))? {
            Ok(()) => Ok(Ok(number)),
            Err(Refusal::PnRange) => Ok(Err(Refusal::PnFloor)),
            Err(refusal) => Ok(Err(refusal)),
        }
    }

    /// The lowest packet number above all that may have been used under the key of an SA which a command creates, or
    /// above the SA's `rx_floor`.
    fn first_free(&self, command: &Command) -> Option<u64>
        ensures { result ≡ first_free self.now command.now }
    {
        match *command {
            Command::TxSa { key, .. } => {
                let unused = self.keeper().secy().first_unused(key).unwrap_or(0);
                in_64_bits(unused.max(above(self.keeper().tx_floor(key))))
            }
            Command::RxSa { sci, an, key, .. } => in_64_bits(above(self.rx_floor(sci, an, key))),
            _ => None,
        }
    }
}

/// The packet number above a floor.
fn above(floor: Option<u64>) -> u128
    ensures { result ≡ above floor }
{
    match floor {
        None => 0,
        Some(last) => u128::from(last) + 1,
    }
}

/// The number, if it has 64 bits.
fn in_64_bits(number: u128) -> Option<u64>
    ensures { result ≡ in_64_bits number }
{
    u64::try_from(number).ok()
}

/// The same command, whose SA begins at this packet number.
fn beginning_at(number: u64, command: &Command) -> Command
    ensures { result ≡ beginning_at number command.now }
{
    match *command {
        Command::TxSa { an, key, conf, .. } => Command::TxSa {
            an,
            key,
            next: number,
            conf,
        },
        Command::RxSa {
            sci,
            an,
            key,
            ssci,
            ..
        } => Command::RxSa {
            sci,
            an,
            key,
            ssci,
            lowest: number,
        },
        other => other,
    }
}
