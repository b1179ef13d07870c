//! The endpoint: the MAC security entity (SecY; IEEE 802.1AE, clause 10).
//!
//! Proved: `Secy::new` returns the start state; or `MaxFrame` or `SciForm`, in this order, exactly when the
//! configuration has that fault; or `Memory`. For every argument and in every state, `command`, `send`,
//! `send_uncontrolled` and `receive` are one step of the machine of `specs/Step.antt`: the result, the frames returned,
//! and the state after with all counters. The calls that read return parts of that state. Each counter that
//! `rx_counters` returns for a receive SC (secure channel) is, modulo 2^64, the sum of the counters of its SAs (secure
//! associations, `rx_sa_counters`) and of `rx_removed`. Each link frame of 14 to 9,248 octets raises the sum of the
//! InPkts counters of the endpoint and its receive SCs by one, modulo 2^64. Of all other calls only a `command` that
//! deletes a receive SC can change that sum (`AddsFrames`). The calls that make or change an endpoint also state what
//! holds of it at all times (`IsSound`, which includes `Agrees`). By their types only `new` and `try_copy_from`, which
//! makes an endpoint equal to another, take an allocator. Two calls are no steps. `replace_key` gives a retired key
//! other octets. `renew_key` gives a new key the number and the row of a retired one that no SA uses. Each changes
//! nothing else.
//!
//! Proved: the cipher's work for a frame can be left to another thread. `plan_send` is the step of `send` and returns a
//! `SealJob`, which makes the frame that `send` would return. `plan_receive` changes nothing and returns the `OpenJob`
//! that a link frame needs now; `finish_receive` is the step of `receive`, with the result of that job or without one.
//! `prepared` returns the key of a job, and `installed` the row of that key. The law `jobs_stay`: whatever the inputs
//! between a plan and its job are, the result of the job is the same. `send_by` and `plan_send_by` are `send` and
//! `plan_send` for a caller that has found the enabled SA already (`enabled_sa`).
//!
//! Proved: `receive_into` is the step of `finish_receive`, except that a packet number is accepted only within limits
//! for its receive SA (`specs/Limited.antt`). A valid frame outside them is dropped, and changes nothing. The result
//! says where the delivered frame is, and `limited_received` returns the frames.
//!
//! Laws of the machine (`laws`). `uses_no_number_twice`: for every list of inputs, the packet numbers of the frames
//! sent protected under one key number rise in the order of sending. `accepts_sent`: a frame that another endpoint
//! protected gets the verdict `OK` and gives the client frame if the conditions of `specs/Accepts.antt` hold; if its SL
//! is not 0, also with octets after it. `rows_agree`, `keys_stay`, `rx_rows_stay`: what a step keeps.
//! `retired_keys_decide_nothing`: the octets of a retired key decide only the refusal `KeyRepeated`.
//! `renewing_changes_one_key`: what `renew_key` keeps. The laws about lists of inputs are of runs without it.
//! `lengths_of_frames` and `lengths_of_protected_frames`; `protects_frames` and `delivers_in_time`: facts about the SA
//! that protects or delivers a frame.
#![tactic(auto)]

ghost use Rattle.std.specs.Prelude.{◌≡◌, ◌≤◌, IfOk, IfSome, OnErr, OnOk, length, option_map};
ghost use Rattle.macsec_tag.specs.Limits.{max_frame_len};
ghost use Rattle.macsec_secy.specs.Jobs.{IsOfJob, OpensFrame, job_of_frame};
ghost use Rattle.macsec_suite.specs.KeyRows.{key_row, prepared_key};
ghost use Rattle.macsec_suite.specs.KeyTables.{IsPlace};
ghost use Rattle.macsec_tx.specs.Rows.{IsEnabled};
ghost use Rattle.std.specs.Borrow.{sem};
ghost use Rattle.macsec_secy.specs.Step.{client_frame, frame_fault, link_frame, operator_command, step};
ghost use Rattle.macsec_secy.specs.Step.{uncontrolled_frame};
ghost use Rattle.macsec_secy.specs.Answers.{IfPlanned, MakesEndpoint, output_of_command, output_of_frame};
ghost use Rattle.macsec_secy.specs.Answers.{output_of_received, output_of_sent, PlansOutput};
ghost use Rattle.macsec_secy.specs.Laws.{number_of_row, number_used};
ghost use Rattle.macsec_secy.specs.Limited.{IsPlacedWithin, limited_step, output_of_placed};
ghost use Rattle.macsec_secy.specs.Rests.{RestsAs};
ghost use Rattle.macsec_secy.specs.Sound.{IsSound};
ghost use Rattle.macsec_secy.specs.Sums.{AddsFrames};

mod answers;
mod associations;
mod counters;
mod counting;
mod fault;
mod installed;
pub mod laws;
mod managing;
mod options;
mod receiving;
mod reception;
mod showing;

pub use answers::{DropReason, LimitedReceived, Planned, Received, Sent};
use arrayvec::ArrayVec;
pub use counters::{ChannelCounters, Counters, RxCounters, TxCounters};
pub use fault::FrameFault;
pub use macsec_commands::{
    An, Command, EndConfig, Key, KeyNumber, MAX_FRAME_LEN, MIN_MAX_FRAME, Mode, NewFault, NewKey,
    Sci, Suite, TagForm,
};
use macsec_rx::{MAX_CHANNEL_COUNT, RxChannels};
pub use macsec_rx::{OpenJob, OpenedFrame, OutsidePn, PnLimits, RxPn, RxRow, Verdict};
pub use macsec_suite::Refusal;
use macsec_suite::{KeyTable, SuiteKey};
use macsec_tag::reading::read;
use macsec_tag::{ADDRESSES_LENGTH, MIN_FRAME_LEN, Read};
pub use macsec_tx::{EnabledSa, SealJob, TxRow};
use macsec_tx::{TxChannel, TxPlan};
pub use options::Options;
pub use reception::{Delivered, Outcome, limited_received};
use reception::{receive_frame, receive_frame_within};
use std::alloc::{AllocError, Global};
use std::marker::Model;

/// An endpoint (SecY). Contracts see it as a state of the machine.
#[derive(Drop)]
pub struct Secy {
    config: EndConfig,
    options: Options,
    keys: KeyTable,
    tx: TxChannel,
    rx: RxChannels,
    counters: Counters,
    tx_counters: TxCounters,
    /// The counters of the receive SCs, in the order of the SCs.
    rx_counters: ArrayVec<ChannelCounters, MAX_CHANNEL_COUNT>,
    /// A buffer for the longest frame. Protected frames, and frames delivered from tagged ones, are written here.
    room: Vec<u8>,
}

impl Model for Secy {
    ghost use Rattle.std.specs.Prelude.{vec_len};
    ghost use Rattle.macsec_secy.specs.Sound.{IsReady};
    ghost use Rattle.macsec_secy.specs.State.{State};

    ghost Value = { State };

    ghost view = { λ s. record {
      config = s.config;
      options = s.options;
      keys = s.keys;
      tx = s.tx;
      rx = s.rx;
      counters = s.counters;
      tx_counters = s.tx_counters;
      rx_counters = s.rx_counters.items;
    } };

    // The state is sound, and the buffer holds the longest frame.
    ghost invariant = { λ s. IsReady (record {
      config = s.config;
      options = s.options;
      keys = s.keys;
      tx = s.tx;
      rx = s.rx;
      counters = s.counters;
      tx_counters = s.tx_counters;
      rx_counters = s.rx_counters.items;
    }) (vec_len s.room) };
}

impl Secy {
    /// Creates an endpoint with this configuration. It has no keys and no SAs, and its counters are 0. It protects
    /// frames, validates strictly, and drops late frames with a replay window of 0. Fails with the first of `MaxFrame`,
    /// `SciForm` and `Memory` that applies; `Memory` means that its key table or its frame buffer could not be
    /// allocated. No later call but `try_copy_from` takes an allocator, so no other call can run out of memory.
    pub fn new(alloc: Global, config: EndConfig) -> Result<Secy, NewFault>
        ensures result { MakesEndpoint config result }
        ensures sound { IfOk result IsSound }
    {
        if let Some(fault) = config.fault() {
            return Err(fault);
        }
        let Ok(keys) = KeyTable::new(alloc) else {
            return Err(NewFault::Memory);
        };
        let Ok(room) = vec![in alloc; 0; MAX_FRAME_LEN] else {
            return Err(NewFault::Memory);
        };
        Ok(Secy {
            config,
            options: Options {
                protect: true,
                mode: Mode::Strict,
                replay: true,
                window: 0,
                form: config.form,
            },
            keys,
            tx: TxChannel::new(),
            rx: RxChannels::new(),
            counters: Counters::zero(),
            tx_counters: TxCounters::zero(),
            rx_counters: ArrayVec::new(),
            room,
        })
    }

    /// Becomes equal to another endpoint: with its keys, SAs, packet numbers and counters. Of two such endpoints only
    /// one may send or receive from then on, or an IV is used twice. If memory runs out, nothing changes.
    pub fn try_copy_from(&mut self, alloc: Global, other: &Secy) -> Result<(), AllocError>
        ensures equal { OnOk result (self.new ≡ other.now) }
        ensures sound { OnOk result (IsSound self.new) }
        ensures unchanged { OnErr result (self.new ≡ self.old) }
    {
        self.keys.copy_from(alloc, &other.keys)?;
        self.config = other.config;
        self.options = other.options;
        self.tx.copy_from(&other.tx);
        self.rx.copy_from(&other.rx);
        self.counters = other.counters;
        self.tx_counters = other.tx_counters;
        self.rx_counters.clear();
        self.rx_counters
            .try_extend_from_slice(other.rx_counters.as_slice())
            .unwrap();
        Ok(())
    }

    /// Says whether key streams are to be made 16 blocks at once, for processors with vectors of 256 bits. This changes
    /// no result.
    pub fn prefer_wide(&mut self, wide: bool)
        ensures { self.new ≡ self.old }
    {
        self.keys.prefer_wide(wide);
    }

    /// Carries out a management command (10.7), or refuses it and changes nothing.
    pub fn command(&mut self, command: &Command) -> Result<(), Refusal>
        ensures output { output_of_command result ≡ (step self.old (operator_command command.now)).0 }
        ensures after { self.new ≡ (step self.old (operator_command command.now)).1 }
        ensures sum { AddsFrames self.old (operator_command command.now) }
        ensures sound { IsSound self.new }
    {
        // For the prover only: after this line it knows that the endpoint is sound. The compiler deletes the line.
        let _ = &self.counters;
        self.carry_out(command)
    }

    /// Does the work of `command`, which adds the clause on the sum of the counters.
    fn carry_out(&mut self, command: &Command) -> Result<(), Refusal>
        ensures output { output_of_command result ≡ (step self.old (operator_command command.now)).0 }
        ensures after { self.new ≡ (step self.old (operator_command command.now)).1 }
        ensures sound { IsSound self.new }
    {
        match *command {
            Command::Protect(on) => {
                self.options.protect = on;
                Ok(())
            }
            Command::Validate(mode) => self.set_mode(mode),
            Command::Replay { protect, window } => self.set_replay(protect, window),
            Command::Tag(form) => self.set_form(form),
            Command::Key(key) => {
                self.keys
                    .install(self.config.suite, &key, self.options.window)
            }
            Command::Retire(key) => {
                let in_use = self.uses(key);
                self.keys.retire(key, in_use)
            }
            Command::TxSa {
                an,
                key,
                next,
                conf,
            } => self.tx.tx_sa(&self.keys, an, key, next, conf),
            Command::TxOn(an) => self.tx.tx_on(&self.keys, an),
            Command::TxOff(an) => self.tx.tx_off(an),
            Command::TxDel(an) => self.tx.tx_del(an),
            Command::RxSc(sci) => self.rx_sc(sci),
            Command::RxScDel(sci) => self.rx_sc_del(sci),
            Command::RxSa {
                sci,
                an,
                key,
                ssci,
                lowest,
            } => self.rx_sa(sci, an, key, ssci, lowest),
            Command::RxOn(sci, an) => self.rx.rx_on(sci, an),
            Command::RxOff(sci, an) => self.rx.rx_off(sci, an),
            Command::RxLow { sci, an, pn } => self.rx.rx_low(&self.keys, sci, an, pn),
            Command::RxDel(sci, an) => self.rx_del(sci, an),
        }
    }

    /// Transmits a client frame of 14 to 9,248 octets from the controlled port (10.5). The frame is protected by the
    /// enabled SA, sent unchanged if the endpoint does not protect frames, or dropped. Exactly one packet counter
    /// counts it.
    pub fn send<'a>(&'a mut self, frame: &'a [u8]) -> Result<Sent<'a>, FrameFault>
        ensures* after { sem 𝓛 (RestsAs self.entry (step self.old (client_frame frame.now)).1) }
        ensures output { output_of_sent result ≡ (step self.old (client_frame frame.now)).0 }
        ensures sum { AddsFrames self.old (client_frame frame.now) }
        ensures sound { IsSound (step self.old (client_frame frame.now)).1 }
    {
        let enabled = self.enabled_sa();
        self.send_by(&enabled, frame)
    }

    /// Transmits a client frame as `send` does, without a search for the enabled SA. `enabled` is the result of
    /// `enabled_sa`, and the endpoint has not changed since.
    pub fn send_by<'a>(
        &'a mut self,
        enabled: &Option<EnabledSa>,
        frame: &'a [u8],
    ) -> Result<Sent<'a>, FrameFault>
        requires enabled { IsEnabled self.old.tx enabled.now }
        ensures* after { sem 𝓛 (RestsAs self.entry (step self.old (client_frame frame.now)).1) }
        ensures output { output_of_sent result ≡ (step self.old (client_frame frame.now)).0 }
        ensures sum { AddsFrames self.old (client_frame frame.now) }
        ensures sound { IsSound (step self.old (client_frame frame.now)).1 }
    {
        match self.plan_send_by(enabled, frame) {
            Ok(Planned::Plain(frame)) => Ok(Sent::Link { frame, under: None }),
            Ok(Planned::Job(job)) => {
                let under = Some(job.key().number());
                let suite_key = &self.keys.key_at(job.key_place()).suite_key;
                let len = job.seal(suite_key, frame, self.room.as_mut_slice());
                let frame = &self.room.as_slice()[..len];
                Ok(Sent::Link { frame, under })
            }
            Ok(Planned::Dropped(reason)) => Ok(Sent::Dropped(reason)),
            Err(fault) => Err(fault),
        }
    }

    /// Does all of `send` but the work of the cipher. The packet number of a protected frame is taken and the frame is
    /// counted. `SealJob::seal` then makes the frame, whatever the endpoint does in the meantime.
    pub fn plan_send<'a>(&mut self, frame: &'a [u8]) -> Result<Planned<'a>, FrameFault>
        ensures after { self.new ≡ (step self.old (client_frame frame.now)).1 }
        ensures output { PlansOutput result self.new.keys frame.now (step self.old (client_frame frame.now)).0 }
        ensures sum { AddsFrames self.old (client_frame frame.now) }
        ensures sound { IsSound self.new }
    {
        let enabled = self.enabled_sa();
        self.plan_send_by(&enabled, frame)
    }

    /// Plans a client frame as `plan_send` does, without a search for the enabled SA. `enabled` is the result of
    /// `enabled_sa`, and the endpoint has not changed since.
    #[inline(always)]
    pub fn plan_send_by<'a>(
        &mut self,
        enabled: &Option<EnabledSa>,
        frame: &'a [u8],
    ) -> Result<Planned<'a>, FrameFault>
        requires enabled { IsEnabled self.old.tx enabled.now }
        ensures after { self.new ≡ (step self.old (client_frame frame.now)).1 }
        ensures output { PlansOutput result self.new.keys frame.now (step self.old (client_frame frame.now)).0 }
        ensures place { IfPlanned result (λ job. IsPlace self.new.keys job.key) }
        ensures sum { AddsFrames self.old (client_frame frame.now) }
        ensures sound { IsSound self.new }
    {
        if let Some(fault) = self.frame_fault(frame) {
            return Err(fault);
        }
        let options = self.tx_options();
        match self.tx.plan_frame(&mut self.keys, &options, enabled, frame) {
            TxPlan::Plain => {
                self.counters.count_plain();
                Ok(Planned::Plain(frame))
            }
            TxPlan::Job(job) => {
                self.tx_counters
                    .count(job.encrypts(), (frame.len() - ADDRESSES_LENGTH) as u64);
                Ok(Planned::Job(job))
            }
            TxPlan::NoSa => {
                self.counters.count_no_sa();
                Ok(Planned::Dropped(DropReason::NoSa))
            }
            TxPlan::TooLong => {
                self.counters.count_too_long();
                Ok(Planned::Dropped(DropReason::TooLong))
            }
        }
    }

    /// The prepared key of this number, for `SealJob::seal`. It stays the same until `replace_key` replaces it.
    pub fn prepared(&self, number: KeyNumber) -> Option<&SuiteKey>
        ensures { option_map (λ key. key.now) result ≡ option_map prepared_key (key_row self.now.keys number) }
    {
        let row = self.keys.key(number)?;
        Some(&row.suite_key)
    }

    /// The association by which `send` would protect this client frame, with the packet number that it would use.
    /// `None` if it would use none. Nothing changes.
    pub fn next_row(&self, frame: &[u8]) -> Option<TxRow>
        ensures { number_of_row result ≡ number_used self.now (client_frame frame.now) }
    {
        if self.frame_fault(frame).is_some() {
            return None;
        }
        let options = self.tx_options();
        self.tx.next_row(&self.keys, &options, frame)
    }

    /// Transmits a client frame of 14 to 9,248 octets from the uncontrolled port, unchanged. No counter counts it, and
    /// the configured largest frame does not limit it.
    pub fn send_uncontrolled<'a>(&self, frame: &'a [u8]) -> Result<&'a [u8], FrameFault>
        ensures output { output_of_frame result ≡ (step self.now (uncontrolled_frame frame.now)).0 }
        ensures after { (step self.now (uncontrolled_frame frame.now)).1 ≡ self.now }
        ensures sum { AddsFrames self.now (uncontrolled_frame frame.now) }
        ensures sound { IsSound self.now }
    {
        if let Some(fault) = self.frame_fault(frame) {
            return Err(fault);
        }
        Ok(frame)
    }

    /// Receives a link frame of 14 to 9,248 octets from any source, which may have forged it. Returns the verdict on
    /// it, shows it unchanged at the uncontrolled port, and delivers at the controlled port what the verdict allows.
    pub fn receive<'a>(&'a mut self, frame: &'a [u8]) -> Result<Received<'a>, FrameFault>
        ensures* after { sem 𝓛 (RestsAs self.entry (step self.old (link_frame frame.now)).1) }
        ensures output { output_of_received result ≡ (step self.old (link_frame frame.now)).0 }
        ensures sum { AddsFrames self.old (link_frame frame.now) }
        ensures sound { IsSound (step self.old (link_frame frame.now)).1 }
    {
        if let Some(fault) = self.frame_fault(frame) {
            return Err(fault);
        }
        let options = self.rx_options();
        let outcome = receive_frame(
            &mut self.rx,
            &mut self.rx_counters,
            &mut self.counters,
            &self.keys,
            &options,
            frame,
            &None,
            self.room.as_mut_slice(),
        );
        Ok(outcome.received(frame, self.room.as_slice()))
    }

    /// The opening that `finish_receive` would need for this frame now, if it would need one. Nothing changes, and
    /// nothing depends on the result: `finish_receive` opens a frame itself if it was opened under another key or IV.
    pub fn plan_receive(&self, frame: &[u8]) -> Option<OpenJob>
        ensures { result ≡ job_of_frame self.now frame.now }
    {
        if self.frame_fault(frame).is_some() {
            return None;
        }
        let options = self.rx_options();
        match read(frame) {
            Read::Tagged(mpdu) => self.rx.plan_open(&self.keys, &options, &mpdu),
            Read::Untagged | Read::Bad(_) => None,
        }
    }

    /// Receives a link frame as `receive` does, with what `open_frame` gave for it, if anything. The delivered frame is
    /// in `out`, which has `MAX_FRAME_LEN` octets or more, and was not changed since. If the frame is now to be opened
    /// under another key or IV, or not at all, what was opened is not used. The octets of `out` that are not delivered
    /// mean nothing afterwards, nor do any after a fault.
    pub fn finish_receive<'a>(
        &mut self,
        frame: &'a [u8],
        opened: &Option<OpenedFrame>,
        out: &'a mut [u8],
    ) -> Result<Received<'a>, FrameFault>
        requires room { max_frame_len ≤ length out.old }
        requires opened { OpensFrame opened.now self.old.keys frame.now out.old }
        ensures after { self.new ≡ (step self.old (link_frame frame.now)).1 }
        ensures output { output_of_received result ≡ (step self.old (link_frame frame.now)).0 }
        ensures sum { AddsFrames self.old (link_frame frame.now) }
        ensures sound { IsSound self.new }
    {
        if let Some(fault) = self.frame_fault(frame) {
            return Err(fault);
        }
        let options = self.rx_options();
        let outcome = receive_frame(
            &mut self.rx,
            &mut self.rx_counters,
            &mut self.counters,
            &self.keys,
            &options,
            frame,
            opened,
            out,
        );
        Ok(outcome.received(frame, out))
    }

    /// Receives a link frame as `finish_receive` does, except that it accepts a packet number only within limits
    /// (10.6). `limits` has those of each receive SA, in the order of `rx_rows`. An SA without an entry has no limits.
    ///
    /// Returns where the delivered frame is, for `limited_received`; or, as `Ok(Err(..))`, that the frame is valid and
    /// its packet number is outside the limits. Such a frame is dropped. It changes nothing except `out`, which may
    /// have octets of its plaintext.
    pub fn receive_into(
        &mut self,
        limits: &[PnLimits],
        frame: &[u8],
        opened: &Option<OpenedFrame>,
        out: &mut [u8],
    ) -> Result<Result<Outcome, OutsidePn>, FrameFault>
        requires room { max_frame_len ≤ length out.old }
        requires opened { OpensFrame opened.now self.old.keys frame.now out.old }
        ensures after { self.new ≡ (limited_step self.old limits.now frame.now).1 }
        ensures output { output_of_placed result frame.now out.new ≡ (limited_step self.old limits.now frame.now).0 }
        ensures unwritten { OnErr result (out.new ≡ out.old) }
        ensures within { IsPlacedWithin result (length out.new) }
        ensures before { IsSound self.old }
        ensures sound { IsSound self.new }
    {
        if let Some(fault) = self.frame_fault(frame) {
            return Err(fault);
        }
        let options = self.rx_options();
        let outcome = receive_frame_within(
            &mut self.rx,
            &mut self.rx_counters,
            &mut self.counters,
            &self.keys,
            &options,
            limits,
            frame,
            opened,
            out,
        );
        Ok(outcome)
    }

    /// The fault of a frame, if it has one. It depends only on the frame's length, not on the endpoint. This is a
    /// method so that its callers learn from `sound` that the endpoint is sound.
    pub(crate) fn frame_fault(&self, frame: &[u8]) -> Option<FrameFault>
        ensures fault { result ≡ frame_fault frame.now }
        ensures sound { IsSound self.now }
    {
        // For the prover only: it then knows at each return that the endpoint is sound. The compiler deletes the line.
        let _ = &self.counters;
        if frame.len() < MIN_FRAME_LEN {
            return Some(FrameFault::Short);
        }
        if frame.len() > MAX_FRAME_LEN {
            return Some(FrameFault::Long);
        }
        None
    }
}

/// Opens a frame for `Secy::finish_receive`, without the endpoint. `key` is the prepared key of the job's number. If
/// the ICV is valid, the frame to deliver is in `out` afterwards, which has `MAX_FRAME_LEN` octets or more.
pub fn open_frame(
    job: &OpenJob,
    key: &SuiteKey,
    frame: &[u8],
    out: &mut [u8],
) -> Option<OpenedFrame>
    requires fits { length frame.now ≤ max_frame_len }
    requires room { max_frame_len ≤ length out.old }
    ensures { IfSome result (λ o. IsOfJob o job.now key.now frame.now out.new) }
{
    match read(frame) {
        Read::Tagged(mpdu) => Some(job.open(key, &mpdu, out)),
        Read::Untagged | Read::Bad(_) => None,
    }
}
