//! The keeping endpoint.

ghost use Rattle.std.specs.Prelude.{◌≡◌, ◌≤◌, ◌==◌, ◌&&◌, List, ℕ, true, length, option_and_then};
ghost use Rattle.std.specs.Prelude.{option_map, Some, None, Err, IfErr, IfSome, is_some, ◌-◌, IfOk, OnErr};
ghost use Rattle.std.specs.Prelude.{nat_lt, nat_le, vec_capacity, if◌then◌else◌};
ghost use Rattle.std.specs.Borrow.{sem};
ghost use Rattle.macsec_aes.specs.Keys.{key_bytes};
ghost use Rattle.macsec_tx.specs.Rows.{IsEnabled};
ghost use Rattle.macsec_tx.specs.Transmit.{tx_row};
ghost use Rattle.macsec_rx.specs.Channels.{rx_row};
ghost use Rattle.macsec_commands.specs.Configs.{config_fault};
ghost use Rattle.macsec_secy.specs.Answers.{MakesEndpoint, output_of_command, output_of_frame, output_of_received};
ghost use Rattle.macsec_secy.specs.Limited.{IsPlacedWithin, output_of_placed};
ghost use Rattle.macsec_secy.specs.Sound.{IsSound};
ghost use Rattle.macsec_secy.specs.State.{start};
ghost use Rattle.macsec_secy.specs.Step.{client_frame, link_frame, operator_command, uncontrolled_frame};
ghost use Rattle.macsec_reserve.specs.Answers.{MakesAlone, MakesKeeper, PlansKept, output_of_kept};
ghost use Rattle.macsec_secy.specs.Jobs.{OpensFrame};
ghost use Rattle.macsec_tag.specs.Limits.{max_frame_len};
ghost use Rattle.macsec_suite.specs.KeyRows.{key_row};
ghost use Rattle.macsec_reserve.specs.Forgetting.{as_taken, can_forget, fingerprint_of, forgetting, forgetting_step};
ghost use Rattle.macsec_reserve.specs.Journal.{highest, sending_name};
ghost use Rattle.macsec_reserve.specs.Keeping.{begins_at, endpoint_input, endpoint_output, is_below_floor};
ghost use Rattle.macsec_reserve.specs.Keeping.{keeping_step, may_go, now_durable, rx_floor, tx_floor, uses_reserved};
ghost use Rattle.macsec_reserve.specs.Keeping.{wanted_for, wanted_last, was_reserved};
ghost use Rattle.macsec_reserve.specs.Limited.{limited_keeping_step};
ghost use Rattle.macsec_reserve.specs.Names.{IsAtHand};
ghost use Rattle.macsec_suite.specs.Refusals.{refusal_of};
ghost use Rattle.macsec_secy.specs.Renewing.{renewal_refusal};
ghost use Rattle.macsec_reserve.specs.Renewing.{forgetting_refusal, is_given_up, forgetting_after_renewing};
ghost use Rattle.macsec_reserve.specs.Renewing.{keeping_after_renewing};
ghost use Rattle.macsec_reserve.specs.Replay.{row_name, saved_for};
ghost use Rattle.macsec_reserve.specs.Rests.{RestsAs};

use crate::entries::{raise, restart};
use crate::forgetting::{fingerprint, key_of_name, name_of_key, rename};
use crate::journal::{entries_of, salt_of};
use crate::key_names::{add_entries, name_of, named_key, note_key, place_of};
use crate::names::has_name;
use crate::numbers::{may_use, up_to, wanted_last, was_reserved};
use crate::{Reservation, highest, is_journal, receiving_name};
use macsec_aes::Key;
use macsec_secy::{
    An, Command, EnabledSa, EndConfig, FrameFault, KeyNumber, NewFault, NewKey, OpenedFrame,
    Outcome, OutsidePn, Planned, PnLimits, Received, Refusal, RxRow, Sci, Secy, Sent, TxRow,
};
use std::alloc::{AllocError, Global};
use std::marker::Model;

/// How many keys an endpoint can have.
const KEY_COUNT: usize = 4096;

/// A key of the endpoint, by its name for sending.
#[derive(Clone, Copy, PartialEq, Eq, Debug)]
pub struct NamedKey {
    /// Its number.
    pub number: KeyNumber,
    /// Its name.
    pub name: [u8; 32],
}

/// What is reserved for a key.
#[derive(Clone, Copy)]
struct AtHand {
    /// The key's number.
    key: KeyNumber,
    /// The last packet number that an earlier run may have used.
    before: u64,
    /// The last packet number that was reported durable.
    granted: u64,
}

/// An endpoint that uses a packet number only if it has reserved it; without a journal it uses any, as `Secy`.
#[derive(Drop)]
pub struct Keeper {
    /// The endpoint, in a separate heap block, so that a keeper that is made or moved takes little of the stack.
    pub(crate) secy: Box<Secy, Global>,
    /// Has it a journal?
    keeps: bool,
    /// The journal's salt, or zeros.
    salt: [u8; 24],
    /// What the journal reserved when the run began, one entry for each name.
    before: Vec<Reservation>,
    /// What was reported durable since, an entry for each key that was installed before the last report.
    granted: Vec<Reservation>,
    /// The names of the endpoint's keys, in the order of their installation.
    names: Vec<NamedKey>,
    /// What is reserved for the key of the enabled association, so that a frame pays one comparison.
    at_hand: Option<AtHand>,
    /// The names of the keys whose row a new key took. Only the installation of a key searches them.
    given_up: Vec<[u8; 32]>,
}

impl Model for Keeper {
    ghost use Rattle.macsec_reserve.specs.Keeping.{Keeping};
    ghost use Rattle.macsec_reserve.specs.Names.{IsAtHand, IsKept};
    ghost use Rattle.std.specs.Prelude.{vec_capacity};

    ghost Value = { Keeping };

    ghost view = { λ k. record {
      secy = k.secy.value;
      keeps = k.keeps;
      salt = k.salt;
      before = k.before.items;
      granted = k.granted.items;
      given_up = k.given_up.items;
    } };

    // The endpoint's keys have these names, it is sound, and there is capacity for all keys that it can have.
    ghost invariant = { λ k. IsKept k.secy.value k.salt k.names.items (vec_capacity k.names) (vec_capacity k.granted)
        × IsAtHand k.salt k.names.items k.before.items k.granted.items k.at_hand };
}

/// What becomes of a client frame.
pub enum KeptSent<'a> {
    /// What the endpoint made of it.
    Sent(Sent<'a>),
    /// It is dropped: its packet number is not reserved. Nothing changes.
    NoReservation,
}

/// The plan for a client frame.
#[derive(Drop)]
pub enum KeptPlan<'a> {
    /// What the endpoint plans.
    Plan(Planned<'a>),
    /// It is dropped: its packet number is not reserved. Nothing changes.
    NoReservation,
}

/// Why no keeping endpoint is made.
#[derive(Clone, Copy, PartialEq, Eq, Debug)]
pub enum OpenFault {
    /// There is no such endpoint.
    Endpoint(NewFault),
    /// The file is no journal, or one of another version.
    NotJournal,
    /// Out of memory.
    Memory,
}

impl Keeper {
    /// An endpoint of this configuration without a journal. Nothing remembers which packet numbers it uses.
    pub fn new(alloc: Global, config: EndConfig) -> Result<Keeper, NewFault>
        ensures result { MakesAlone config result }
        ensures sound { IfOk result (λ k. IsSound k.secy) }
    {
        let secy = boxed_endpoint(alloc, config)?;
        let Ok(granted) = Vec::with_capacity(alloc, KEY_COUNT) else {
            return Err(NewFault::Memory);
        };
        let Ok(names) = Vec::with_capacity(alloc, KEY_COUNT) else {
            return Err(NewFault::Memory);
        };
        Ok(Keeper {
            secy,
            keeps: false,
            salt: [0; 24],
            before: Vec::new(alloc),
            granted,
            names,
            at_hand: None,
            given_up: Vec::new(alloc),
        })
    }

    /// An endpoint of this configuration, with a journal of these octets.
    pub fn open(alloc: Global, config: EndConfig, journal: &[u8]) -> Result<Keeper, OpenFault>
        ensures result { MakesKeeper config journal.now result }
        ensures sound { IfOk result (λ k. IsSound k.secy) }
    {
        if !is_journal(journal) {
            return Err(OpenFault::NotJournal);
        }
        let secy = match boxed_endpoint(alloc, config) {
            Ok(secy) => secy,
            Err(fault) => return Err(OpenFault::Endpoint(fault)),
        };
        let Ok(before) = entries_of(alloc, journal) else {
            return Err(OpenFault::Memory);
        };
        let Ok(granted) = Vec::with_capacity(alloc, KEY_COUNT) else {
            return Err(OpenFault::Memory);
        };
        let Ok(names) = Vec::with_capacity(alloc, KEY_COUNT) else {
            return Err(OpenFault::Memory);
        };
        Ok(Keeper {
            secy,
            keeps: true,
            salt: salt_of(journal),
            before,
            granted,
            names,
            at_hand: None,
            given_up: Vec::new(alloc),
        })
    }

    /// A second keeper that is equal to this one: with its endpoint, names and reservations. Of two such keepers only
    /// one may send or receive from then on, or an IV is used twice.
    pub fn try_clone(&self, alloc: Global) -> Result<Keeper, AllocError>
        ensures { IfOk result (λ k. k ≡ self.now) }
    {
        let secy = boxed_clone(alloc, &self.secy)?;
        let mut granted = Vec::with_capacity(alloc, KEY_COUNT)?;
        granted.extend_from_slice(self.granted.as_slice())?;
        let mut names = Vec::with_capacity(alloc, KEY_COUNT)?;
        names.extend_from_slice(self.names.as_slice())?;
        Ok(Keeper {
            secy,
            keeps: self.keeps,
            salt: self.salt,
            before: self.before.clone()?,
            granted,
            names,
            at_hand: self.at_hand,
            given_up: Vec::from_slice(alloc, self.given_up.as_slice())?,
        })
    }

    /// Says whether key streams are to be made 16 blocks at once, as `Secy::prefer_wide`.
    pub fn prefer_wide(&mut self, wide: bool)
        ensures { self.new ≡ self.old }
    {
        self.secy.prefer_wide(wide);
    }

    /// The reservation that the transmit association of this number needs next, if fewer than half of `amount` packet
    /// numbers are left to it.
    pub fn wanted(&self, an: An, amount: u64) -> Option<Reservation>
        ensures { result ≡ option_and_then (wanted_for self.now amount) (tx_row self.now.secy.tx an) }
    {
        match self.secy.tx_row(an) {
            None => None,
            Some(row) => self.wanted_for(row, amount),
        }
    }

    /// The reservation that a transmit association needs next, if it needs one.
    fn wanted_for(&self, row: TxRow, amount: u64) -> Option<Reservation>
        ensures { result ≡ wanted_for self.now amount row }
    {
        let name = name_of(&self.salt, self.names.as_slice(), row.key);
        let reserved = highest(self.granted.as_slice(), &name);
        match wanted_last(reserved, row.next, amount) {
            None => None,
            Some(last) => Some(Reservation { name, last }),
        }
    }

    /// What is to be saved of the receive association of this channel and of this number, if there is one. Once its
    /// record is durable, no later run creates the association at a packet number that is too low.
    pub fn to_save(&self, sci: Sci, an: An) -> Option<Reservation>
        ensures { result ≡ option_map (saved_for self.now.salt self.now.secy) (rx_row self.now.secy.rx.rows sci an) }
    {
        match self.secy.rx_row(sci, an) {
            None => None,
            Some(row) => self.saved_for(row),
        }
    }

    /// What is to be saved of a receive association.
    fn saved_for(&self, row: RxRow) -> Option<Reservation>
        ensures { result ≡ Some (saved_for self.now.salt self.now.secy row) }
    {
        let key = name_of(&self.salt, self.names.as_slice(), row.key);
        let name = receiving_name(&key, row.sci, row.an);
        let last = up_to(row.lowest);
        Some(Reservation { name, last })
    }

    /// The name under which the packet numbers of a receive association are reserved.
    pub fn name_of_row(&self, row: &RxRow) -> [u8; 32]
        ensures { result ≡ row_name self.now.salt self.now.secy row.now }
    {
        let key = name_of(&self.salt, self.names.as_slice(), row.key);
        receiving_name(&key, row.sci, row.an)
    }

    /// The last packet number that the journal reserved under a name when the run began, 0 if it reserved none.
    pub fn reserved_before(&self, name: &[u8; 32]) -> u64
        ensures { result ≡ highest self.now.before name.now }
    {
        highest(self.before.as_slice(), name)
    }

    /// Has it a journal?
    pub fn has_journal(&self) -> bool
        ensures { result ≡ self.now.keeps }
    {
        self.keeps
    }

    /// The highest packet number that an earlier run may have used to send under the key of this number. It is 0 if
    /// there is none, and `None` if there is no such key. A transmit association begins above it.
    pub fn tx_floor(&self, key: KeyNumber) -> Option<u64>
        ensures { result ≡ tx_floor self.now key }
    {
        match named_key(self.names.as_slice(), key) {
            None => None,
            Some(named) => Some(highest(self.before.as_slice(), &named.name)),
        }
    }

    /// The highest packet number that was saved of the receive association of this channel and of this number under
    /// the key of this number. It is 0 if none was saved, and `None` if there is no such key. The receive association
    /// begins above it.
    pub fn rx_floor(&self, sci: Sci, an: An, key: KeyNumber) -> Option<u64>
        ensures { result ≡ rx_floor sci an self.now key }
    {
        match named_key(self.names.as_slice(), key) {
            None => None,
            Some(named) => {
                let name = receiving_name(&named.name, sci, an);
                Some(highest(self.before.as_slice(), &name))
            }
        }
    }

    /// Transmits a client frame, as `Secy::send`, unless that uses a packet number that is not reserved.
    pub fn send<'a>(&'a mut self, frame: &'a [u8]) -> Result<KeptSent<'a>, FrameFault>
        ensures* after { sem 𝓛 (RestsAs self.entry (keeping_step self.old (endpoint_input
            (client_frame frame.now))).1) }
        ensures output { output_of_kept result ≡ (keeping_step self.old (endpoint_input (client_frame frame.now))).0 }
        ensures sound { IsSound (keeping_step self.old (endpoint_input (client_frame frame.now))).1.secy }
    {
        let enabled = self.secy.enabled_sa();
        if !self.may_go(&enabled, frame) {
            return Ok(KeptSent::NoReservation);
        }
        match self.secy.send_by(&enabled, frame) {
            Ok(sent) => Ok(KeptSent::Sent(sent)),
            Err(fault) => Err(fault),
        }
    }

    /// Plans a client frame, as `Secy::plan_send`, unless that uses a packet number that is not reserved.
    pub fn plan_send<'a>(&mut self, frame: &'a [u8]) -> Result<KeptPlan<'a>, FrameFault>
        ensures after { self.new ≡ (keeping_step self.old (endpoint_input (client_frame frame.now))).1 }
        ensures output { PlansKept result self.new.secy.keys frame.now (keeping_step self.old (endpoint_input
            (client_frame frame.now))).0 }
        ensures sound { IsSound self.new.secy }
    {
        let enabled = self.secy.enabled_sa();
        if !self.may_go(&enabled, frame) {
            return Ok(KeptPlan::NoReservation);
        }
        match self.secy.plan_send_by(&enabled, frame) {
            Ok(planned) => Ok(KeptPlan::Plan(planned)),
            Err(fault) => Err(fault),
        }
    }

    /// Receives a link frame, as `Secy::finish_receive`, whether it was opened before or not.
    pub fn finish_receive<'a>(
        &mut self,
        frame: &'a [u8],
        opened: &Option<OpenedFrame>,
        out: &'a mut [u8],
    ) -> Result<Received<'a>, FrameFault>
        requires room { max_frame_len ≤ length out.old }
        requires opened { OpensFrame opened.now self.old.secy.keys frame.now out.old }
        ensures after { self.new ≡ (keeping_step self.old (endpoint_input (link_frame frame.now))).1 }
        ensures output { endpoint_output (output_of_received result)
            ≡ (keeping_step self.old (endpoint_input (link_frame frame.now))).0 }
        ensures sound { IsSound self.new.secy }
    {
        self.secy.finish_receive(frame, opened, out)
    }

    /// Transmits a client frame of the uncontrolled port, as `Secy::send_uncontrolled`.
    pub fn send_uncontrolled<'a>(&self, frame: &'a [u8]) -> Result<&'a [u8], FrameFault>
        ensures output { endpoint_output (output_of_frame result)
            ≡ (keeping_step self.now (endpoint_input (uncontrolled_frame frame.now))).0 }
        ensures after { (keeping_step self.now (endpoint_input (uncontrolled_frame frame.now))).1 ≡ self.now }
    {
        self.secy.send_uncontrolled(frame)
    }

    /// Receives a link frame, as `Secy::receive`.
    pub fn receive<'a>(&'a mut self, frame: &'a [u8]) -> Result<Received<'a>, FrameFault>
        ensures* after { sem 𝓛 (RestsAs self.entry (keeping_step self.old (endpoint_input (link_frame frame.now))).1) }
        ensures output { endpoint_output (output_of_received result)
            ≡ (keeping_step self.old (endpoint_input (link_frame frame.now))).0 }
        ensures sound { IsSound (keeping_step self.old (endpoint_input (link_frame frame.now))).1.secy }
    {
        self.secy.receive(frame)
    }

    /// Receives a link frame within limits, into the caller's buffer, as `Secy::receive_into`.
    pub fn receive_into(
        &mut self,
        limits: &[PnLimits],
        frame: &[u8],
        opened: &Option<OpenedFrame>,
        out: &mut [u8],
    ) -> Result<Result<Outcome, OutsidePn>, FrameFault>
        requires room { max_frame_len ≤ length out.old }
        requires opened { OpensFrame opened.now self.old.secy.keys frame.now out.old }
        ensures after { self.new ≡ (limited_keeping_step self.old limits.now frame.now).1 }
        ensures output { output_of_placed result frame.now out.new
            ≡ (limited_keeping_step self.old limits.now frame.now).0 }
        ensures within { IsPlacedWithin result (length out.new) }
        ensures before { IsSound self.old.secy }
    {
        self.secy.receive_into(limits, frame, opened, out)
    }

    /// Notes that a reservation is durable: its record is on stable storage, where every later run will read it. A
    /// reservation whose name belongs to no key reserves nothing in this run.
    pub fn now_durable(&mut self, reservation: &Reservation)
        ensures after { self.new ≡ (keeping_step self.old (now_durable reservation.now)).1 }
        ensures sound { IsSound self.new.secy }
    {
        self.at_hand = None;
        add_entries(&mut self.granted, self.names.as_slice());
        raise(self.granted.as_mut_slice(), reservation);
        self.take_at_hand();
    }

    /// Carries out a management command, as `Secy::command`. If an association would begin at a packet number that an
    /// earlier run may have used, the command is refused with `PnFloor`, before any other refusal.
    ///
    /// Octets that are given up are not refused: install no key by this call once `renew_forgetting` installed one.
    pub fn command(&mut self, command: &Command) -> Result<(), Refusal>
        ensures output { endpoint_output (output_of_command result)
            ≡ (keeping_step self.old (endpoint_input (operator_command command.now))).0 }
        ensures after { self.new ≡ (keeping_step self.old (endpoint_input (operator_command command.now))).1 }
        ensures sound { IsSound self.new.secy }
    {
        if self.is_below_floor(command) {
            return Err(Refusal::PnFloor);
        }
        match self.secy.command(command) {
            Ok(()) => {
                self.at_hand = None;
                note_key(&self.salt, &mut self.names, command);
                self.take_at_hand();
                Ok(())
            }
            Err(refusal) => Err(refusal),
        }
    }

    /// Carries out a management command, as `command`, and forgets a key that it retires: of the key's octets only a
    /// fingerprint stays, by which they are still refused. It refuses as `command` does, except that a new association
    /// under a forgotten key can be refused with `KeyRetired` in place of `PnFloor`. `tx_floor` and `rx_floor` no
    /// longer find what an earlier run reserved under a forgotten key.
    ///
    /// Do not pass what was opened under a key to `finish_receive` once the key is forgotten. As `command`, it does not
    /// refuse octets that are given up.
    pub fn command_forgetting(&mut self, command: &Command) -> Result<(), Refusal>
        ensures output { endpoint_output (output_of_command result)
            ≡ (forgetting_step self.old (endpoint_input (operator_command command.now))).0 }
        ensures after { self.new ≡ (forgetting_step self.old (endpoint_input (operator_command command.now))).1 }
        ensures sound { IsSound self.new.secy }
    {
        match *command {
            Command::Key(key) => {
                let key = self.as_taken(key);
                self.command(&Command::Key(key))
            }
            Command::Retire(number) => match self.command(command) {
                Ok(()) => {
                    self.forget(number);
                    Ok(())
                }
                Err(refusal) => Err(refusal),
            },
            _ => self.command(command),
        }
    }

    /// Installs a key, as `Secy::renew_key`: also under the number of a retired key that no association uses. The name
    /// of the key that was there is given up. It does not ask whether the new key's octets are given up.
    fn renew_key(&mut self, key: &NewKey) -> Result<Result<(), Refusal>, AllocError>
        ensures refusal { IfOk result (λ answer. refusal_of answer ≡ renewal_refusal self.old.secy key.now) }
        ensures after { IfOk result (λ answer. self.new ≡ keeping_after_renewing key.now self.old) }
        ensures unchanged { OnErr result (self.new ≡ self.old) }
        ensures sound { IsSound self.new.secy }
    {
        // For the prover only: after this line it knows that the endpoint is sound. The compiler deletes the line.
        let _ = &self.keeps;
        self.given_up.reserve(1)?;
        match self.secy.renew_key(key) {
            Ok(()) => {
                self.at_hand = None;
                match named_key(self.names.as_slice(), key.number) {
                    Some(gone) => {
                        let name = name_of_key(&self.salt, key.bytes);
                        self.given_up.push(gone.name).unwrap();
                        let place = place_of(self.names.as_slice(), key.number);
                        rename(self.names.as_mut_slice(), key.number, &name);
                        restart(self.granted.as_mut_slice(), place, &name);
                        self.take_at_hand();
                        Ok(Ok(()))
                    }
                    None => {
                        note_key(&self.salt, &mut self.names, &Command::Key(*key));
                        self.take_at_hand();
                        Ok(Ok(()))
                    }
                }
            }
            Err(refusal) => Ok(Err(refusal)),
        }
    }

    /// Installs a key, as `Secy::renew_key`: also under the number of a retired key that no association uses. It also
    /// refuses octets that are given up, and, as `command_forgetting` does, those of a forgotten key. What earlier runs
    /// reserved stays known by the names of the keys, so a transmit association under the new key begins above what was
    /// reserved under its octets. Nothing is reserved for the new key; what is reserved for every other key stays.
    ///
    /// The name of the key that was there is given up, for which 32 octets are needed: `AllocError` means that there is
    /// no memory for them, and changes nothing.
    pub fn renew_forgetting(&mut self, key: &NewKey) -> Result<Result<(), Refusal>, AllocError>
        ensures refusal { IfOk result (λ answer. refusal_of answer ≡ forgetting_refusal self.old key.now) }
        ensures after { IfOk result (λ answer. self.new ≡ forgetting_after_renewing self.old key.now) }
        ensures unchanged { OnErr result (self.new ≡ self.old) }
        ensures sound { IsSound self.new.secy }
    {
        // For the prover only: after this line it knows that the endpoint is sound. The compiler deletes the line.
        let _ = &self.keeps;
        if self.is_given_up(key.bytes) {
            return Ok(Err(Refusal::KeyRepeated));
        }
        let key = self.as_taken(*key);
        self.renew_key(&key)
    }

    /// Did a new key take the row of the key with these octets? What the journal reserved under their name does not
    /// matter.
    pub fn is_given_up(&self, bytes: Key) -> bool
        ensures { result ≡ is_given_up self.now (key_bytes bytes) }
    {
        let name = name_of_key(&self.salt, bytes);
        let of_fingerprint = name_of_key(&self.salt, fingerprint(&self.salt, bytes));
        let given_up = self.given_up.as_slice();
        has_name(given_up, &name) || has_name(given_up, &of_fingerprint)
    }

    /// A key to install, with its fingerprint in place of its octets if it was forgotten.
    fn as_taken(&self, key: NewKey) -> NewKey
        ensures { result ≡ as_taken self.now key }
    {
        let bytes = fingerprint(&self.salt, key.bytes);
        if self.secy.has_retired_key(bytes) {
            NewKey { bytes, ..key }
        } else {
            key
        }
    }

    /// Replaces the octets of a retired key by its fingerprint, if no key has that.
    fn forget(&mut self, number: KeyNumber)
        ensures after { self.new ≡ (if can_forget self.old number then forgetting self.old number else self.old) }
        ensures sound { IsSound self.new.secy }
    {
        let Some(octets) = self.fingerprint_of(number) else {
            return;
        };
        if !self.secy.replace_key(number, octets) {
            return;
        }
        self.at_hand = None;
        add_entries(&mut self.granted, self.names.as_slice());
        let name = name_of_key(&self.salt, octets);
        rename(self.names.as_mut_slice(), number, &name);
        self.take_at_hand();
    }

    /// The fingerprint of the key of this number, if there is such a key.
    fn fingerprint_of(&self, number: KeyNumber) -> Option<Key>
        ensures there { is_some result ≡ is_some (key_row self.now.secy.keys number) }
        ensures octets { IfSome result (λ key. key_bytes key ≡ fingerprint_of self.now number) }
    {
        match self.secy.prepared(number) {
            None => None,
            Some(prepared) => {
                let name = name_of(&self.salt, self.names.as_slice(), number);
                Some(key_of_name(prepared.suite(), &name))
            }
        }
    }

    /// Is an association to begin at a packet number that an earlier run may have used, and is there a journal?
    fn is_below_floor(&self, command: &Command) -> bool
        ensures { result ≡ is_below_floor self.now (operator_command command.now) }
    {
        self.keeps && self.begins_reserved(command)
    }

    /// Is an association to begin at a packet number that the journal reserved when the run began?
    fn begins_reserved(&self, command: &Command) -> bool
        ensures { result ≡ was_reserved self.now.before (begins_at self.now.salt self.now.secy command.now) }
    {
        match *command {
            Command::TxSa { key, next, .. } => {
                let name = name_of(&self.salt, self.names.as_slice(), key);
                was_reserved(self.before.as_slice(), &name, next)
            }
            Command::RxSa {
                sci,
                an,
                key,
                lowest,
                ..
            } => {
                let name = receiving_name(
                    &name_of(&self.salt, self.names.as_slice(), key),
                    sci,
                    an,
                );
                was_reserved(self.before.as_slice(), &name, lowest)
            }
            _ => false,
        }
    }

    /// Takes what is reserved for the key of the enabled association at hand.
    fn take_at_hand(&mut self)
        ensures { self.new ≡ self.old }
    {
        self.at_hand = match self.secy.tx_row_on() {
            None => None,
            Some(row) => Some(reserved_for(
                &self.salt,
                self.names.as_slice(),
                self.before.as_slice(),
                self.granted.as_slice(),
                row.key,
            )),
        };
    }

    /// Is the next packet number of the enabled association known to be reserved?
    fn is_at_hand(&self, enabled: &Option<EnabledSa>) -> bool
        requires { IsEnabled self.now.secy.tx enabled.now }
        ensures { (frame : List ℕ) → result ≡ true → uses_reserved self.now (client_frame frame) ≡ true }
    {
        let Some(at) = self.at_hand else {
            return false;
        };
        let Some(enabled) = enabled else {
            return false;
        };
        is_reserved(at, enabled.row)
    }

    /// Would this client frame use only a packet number that is reserved, or is there no journal?
    #[inline(always)]
    fn may_go(&self, enabled: &Option<EnabledSa>, frame: &[u8]) -> bool
        requires { IsEnabled self.now.secy.tx enabled.now }
        ensures { result ≡ may_go self.now (client_frame frame.now) }
    {
        !self.keeps || self.is_at_hand(enabled) || self.uses_reserved(frame)
    }

    /// Would this client frame use only a packet number that is reserved?
    fn uses_reserved(&self, frame: &[u8]) -> bool
        ensures { result ≡ uses_reserved self.now (client_frame frame.now) }
    {
        match self.secy.next_row(frame) {
            None => true,
            Some(row) => {
                let name = name_of(&self.salt, self.names.as_slice(), row.key);
                may_use(
                    self.before.as_slice(),
                    self.granted.as_slice(),
                    &name,
                    row.next,
                )
            }
        }
    }
}

/// An endpoint of this configuration on the heap.
fn boxed_endpoint(alloc: Global, config: EndConfig) -> Result<Box<Secy, Global>, NewFault>
    ensures made { IfOk result (λ secy. (config_fault config ≡ None) × (secy.value ≡ start config)) }
    ensures fault { IfErr result (λ fault. MakesEndpoint config (Err fault)) }
    ensures sound { IfOk result (λ secy. IsSound secy.value) }
{
    // `?` and a second `match` would need twice the stack for the endpoint.
    let secy = match Secy::new(alloc, config) {
        Ok(secy) => secy,
        Err(fault) => return Err(fault),
    };
    let Ok(secy) = Box::new(alloc, secy) else {
        return Err(NewFault::Memory);
    };
    Ok(secy)
}

/// A second endpoint that is equal to this one, on the heap.
fn boxed_clone(alloc: Global, secy: &Secy) -> Result<Box<Secy, Global>, AllocError>
    ensures equal { IfOk result (λ made. made.value ≡ secy.now) }
    ensures sound { IfOk result (λ made. IsSound made.value) }
{
    // A copy that is moved would take far more of the stack.
    let Ok(mut made) = boxed_endpoint(alloc, secy.config()) else {
        return Err(AllocError);
    };
    made.try_copy_from(alloc, secy)?;
    Ok(made)
}

/// What is reserved for a key.
fn reserved_for(
    salt: &[u8; 24],
    names: &[NamedKey],
    before: &[Reservation],
    granted: &[Reservation],
    key: KeyNumber,
) -> AtHand
    ensures { IsAtHand salt.now names.now before.now granted.now (Some result) }
{
    let name = name_of(salt, names, key);
    let before = highest(before, &name);
    let granted = highest(granted, &name);
    AtHand {
        key,
        before,
        granted,
    }
}

/// Is the next packet number of an association reserved, by what is at hand?
fn is_reserved(at: AtHand, row: TxRow) -> bool
    ensures { result ≡ (row.key == at.key && (nat_lt at.before row.next && nat_le row.next at.granted)) }
{
    row.key == at.key && (u128::from(at.before) < row.next && row.next <= u128::from(at.granted))
}
