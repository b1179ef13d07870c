//! A frame on its way through the cipher.

ghost use Rattle.std.specs.Prelude.{◌≡◌, ◌≤◌, ◌+◌, ℕ, List, drop, length, false, not, option_map, take, true, IfOk};
ghost use Rattle.std.specs.Prelude.{IfSome, IsSome, OnErr, OnOk, unwrap_or};
ghost use Rattle.std.specs.Borrow.{Bor};
ghost use Rattle.macsec_tag.specs.Limits.{max_frame_len, min_frame_len};
ghost use Rattle.macsec_suite.specs.KeyRows.{key_row, prepared_key, the_key};
ghost use Rattle.macsec_tx.specs.Transmit.{octets_added};
ghost use Rattle.macsec_secy.specs.Jobs.{OpensFrame, job_of_frame};
ghost use Rattle.macsec_secy.specs.Sound.{IsSound};
ghost use Rattle.macsec_secy.specs.Step.{client_frame, frame_fault, link_frame};
ghost use Rattle.macsec_reserve.specs.Keeping.{endpoint_input};
ghost use Rattle.macsec_ahead.specs.Ahead.{ahead_step, kept};
ghost use Rattle.macsec_jobs.specs.Answers.{PlansWork, delivered_length, frame_fault_of, is_job, job_fault_of};
ghost use Rattle.macsec_jobs.specs.Answers.{output_of_finished, output_of_plan};
ghost use Rattle.macsec_jobs.specs.declared.work.Work.TheVariants.{Seal};
ghost use Rattle.macsec_jobs.specs.PlannedKeys.{IsGone, is_installed, key_of};
ghost use Rattle.macsec_jobs.specs.Slots.{frame_planned, is_idle, is_opening, is_received, is_sealing, open_fault};
ghost use Rattle.macsec_jobs.specs.Slots.{LeavesBuffers, seal_fault, usable};

use crate::{Finished, JobFault, JobKey, PlannedKey, Reception, SendPlan, Work};
use macsec_ahead::{AheadKeeper, LimitedReceived, OutsidePn};
use macsec_reserve::{Keeper, KeptPlan};
use macsec_rx::OpenedFrame;
use macsec_secy::laws::lengths_of_frames;
use macsec_secy::{FrameFault, Planned, SealJob, open_frame};
use macsec_tag::{MAX_FRAME_LEN, MIN_FRAME_LEN};
use std::alloc::{AllocError, Global};
use std::marker::Model;
use std::mem;

/// A frame, the job that was planned for it, and the buffer that the job writes. Contracts see all of it, and where
/// the frame ends in its buffer.
#[derive(Drop)]
pub struct Slot {
    work: Work,
    /// The key of the job.
    key: PlannedKey,
    /// The frame is at the beginning.
    frame: Vec<u8>,
    frame_length: usize,
    /// Where the job writes what it opens.
    out: Vec<u8>,
}

impl Model for Slot {
    ghost use Rattle.std.specs.Prelude.{drop, take, vec_len};
    ghost use Rattle.macsec_jobs.specs.Slots.{IsSlot, SlotState};

    ghost Value = { SlotState };

    ghost view = { λ s. record {
      work = s.work;
      key = s.key;
      frame = take s.frame_length s.frame.items;
      rest = drop s.frame_length s.frame.items;
      out = s.out.items;
    } };

    // The buffers hold the longest frame. The job fits the frame and the key. An opened frame was opened with the key.
    ghost invariant = { λ s. IsSlot s.work s.key s.frame_length s.frame.items s.out.items (vec_len s.frame)
        (vec_len s.out) };
}

impl Slot {
    /// A slot without a frame, with buffers for the longest one.
    pub fn new(alloc: Global) -> Result<Slot, AllocError>
        ensures { IfOk result (λ slot. is_idle slot.work ≡ true) }
    {
        Ok(Slot {
            work: Work::Nothing,
            key: PlannedKey::none(),
            frame: vec![in alloc; 0; MAX_FRAME_LEN]?,
            frame_length: 0,
            out: vec![in alloc; 0; MAX_FRAME_LEN]?,
        })
    }

    /// Whether the slot has no frame. Then it has no octet of a key either.
    pub fn is_idle(&self) -> bool
        ensures idle { result ≡ is_idle self.now.work }
        ensures gone { result ≡ true → IsGone self.now.key }
    {
        match &self.work {
            Work::Nothing => true,
            Work::Seal(_) | Work::Open(_) | Work::Finish(_) => false,
        }
    }

    /// Whether the slot has a link frame, opened or not.
    pub fn is_received(&self) -> bool
        ensures { result ≡ is_received self.now.work }
    {
        match &self.work {
            Work::Open(_) | Work::Finish(_) => true,
            Work::Nothing | Work::Seal(_) => false,
        }
    }

    /// The number of the key that the job needs, if the slot has a job.
    pub fn key_number(&self) -> u16
        ensures { result ≡ self.now.key.number }
    {
        self.key.number.number()
    }

    /// Gives up the frame. The packet number of a frame that was to be sealed is used, and a link frame is not
    /// received. Nothing of the key stays, and the buffers are not written.
    pub fn clear(&mut self)
        ensures idle { is_idle self.new.work ≡ true }
        ensures gone { IsGone self.new.key }
        ensures buffers { LeavesBuffers self.old self.new }
    {
        self.work = Work::Nothing;
        self.key = PlannedKey::none();
    }

    /// Plans a client frame, as `AheadKeeper::plan_send`. A frame that is to be sealed is in the slot afterwards.
    pub fn plan_send(
        &mut self,
        endpoint: &mut AheadKeeper,
        frame: &[u8],
    ) -> Result<SendPlan, FrameFault>
        requires idle { is_idle self.old.work ≡ true }
        ensures after { endpoint.new ≡ (ahead_step endpoint.old (endpoint_input (client_frame frame.now))).1 }
        ensures output { kept (output_of_plan result self.new frame.now)
            ≡ (ahead_step endpoint.old (endpoint_input (client_frame frame.now))).0 }
        ensures sealing { is_sealing self.new.work ≡ is_job result }
        ensures left { is_idle self.new.work ≡ not (is_job result) }
    {
        match endpoint.plan_send(frame) {
            Ok(KeptPlan::Plan(Planned::Job(job))) => {
                self.plan_job(endpoint.keeper(), job, frame);
                Ok(SendPlan::Job)
            }
            Ok(KeptPlan::Plan(Planned::Plain(_))) => Ok(SendPlan::Plain),
            Ok(KeptPlan::Plan(Planned::Dropped(reason))) => Ok(SendPlan::Dropped(reason)),
            Ok(KeptPlan::NoReservation) => Ok(SendPlan::NoReservation),
            Err(fault) => Err(fault),
        }
    }

    /// Takes a client frame that is to be sealed.
    fn plan_job(&mut self, keeper: &Keeper, job: SealJob, frame: &[u8])
        requires there { IsSome (key_row keeper.now.secy.keys job.key.number) }
        requires least { min_frame_len ≤ length frame.now }
        requires fits { length frame.now + octets_added job.tag ≤ max_frame_len }
        ensures work { self.new.work ≡ Seal job }
        ensures frame { self.new.frame ≡ frame.now }
        ensures number { self.new.key.number ≡ job.key.number }
        ensures key { key_of self.new.key ≡ prepared_key (the_key keeper.now.secy.keys job.key.number) }
    {
        self.key = PlannedKey::of(keeper.secy().installed(job.key()).unwrap());
        keep_frame(self.frame.as_mut_slice(), frame);
        self.frame_length = frame.len();
        self.work = Work::Seal(job);
    }

    /// Writes the protected frame to the start of `out` and returns its length. What is behind it stays. The slot is
    /// then without a frame, nothing of the key stays, and its buffers are not written. The key must be the one of the
    /// plan.
    ///
    /// Errors: `NoJob`, `OtherKey`, then `Space`. Then the slot and `out` are unchanged.
    pub fn seal(&mut self, key: &JobKey, out: &mut [u8]) -> Result<usize, JobFault>
        ensures fault { job_fault_of result
            ≡ seal_fault self.old.work self.old.key self.old.frame key.now (length out.old) }
        ensures sealed { IfOk result (λ n. take n out.new ≡ frame_planned self.old) }
        ensures within { IfOk result (λ n. n ≤ length out.old) }
        ensures rest { IfOk result (λ n. drop n out.new ≡ drop n out.old) }
        ensures spent { OnOk result (is_idle self.new.work ≡ true) }
        ensures gone { OnOk result (IsGone self.new.key) }
        ensures buffers { LeavesBuffers self.old self.new }
        ensures kept { OnErr result (self.new ≡ self.old) }
        ensures unwritten { OnErr result (out.new ≡ out.old) }
    {
        if let Some(fault) = self.seal_fault(key, out.len()) {
            return Err(fault);
        }
        match mem::replace(&mut self.work, Work::Nothing) {
            Work::Seal(job) => {
                let frame = &self.frame.as_slice()[..self.frame_length];
                let length = job.length(self.frame_length);
                job.seal(key.suite_key(), frame, &mut out[..length]);
                self.key = PlannedKey::none();
                Ok(length)
            }
            Work::Open(other) => {
                self.work = Work::Open(other);
                Err(JobFault::NoJob)
            }
            Work::Finish(other) => {
                self.work = Work::Finish(other);
                Err(JobFault::NoJob)
            }
            Work::Nothing => Err(JobFault::NoJob),
        }
    }

    /// Why the frame is not sealed with this key into so many octets.
    fn seal_fault(&self, key: &JobKey, room: usize) -> Option<JobFault>
        ensures { result ≡ seal_fault self.now.work self.now.key self.now.frame key.now room }
    {
        let job = match &self.work {
            Work::Seal(job) => job,
            Work::Nothing | Work::Open(_) | Work::Finish(_) => return Some(JobFault::NoJob),
        };
        if !key.is_for(&self.key) {
            return Some(JobFault::OtherKey);
        }
        if room < job.length(self.frame_length) {
            return Some(JobFault::Space);
        }
        None
    }

    /// Plans a link frame: takes it, with the opening that it needs now, as `Secy::plan_receive`. Returns whether it
    /// needs one. Nothing of the endpoint changes.
    pub fn plan_receive(&mut self, keeper: &Keeper, frame: &[u8]) -> Result<bool, FrameFault>
        requires idle { is_idle self.old.work ≡ true }
        ensures fault { frame_fault_of result ≡ frame_fault frame.now }
        ensures job { IfOk result (λ job. job ≡ is_opening self.new.work) }
        ensures frame { OnOk result (self.new.frame ≡ frame.now) }
        ensures planned { OnOk result (PlansWork self.new.work self.new.key
            (job_of_frame keeper.now.secy frame.now) keeper.now.secy.keys) }
        ensures left { OnErr result (is_idle self.new.work ≡ true) }
    {
        if frame.len() < MIN_FRAME_LEN {
            return Err(FrameFault::Short);
        }
        if frame.len() > MAX_FRAME_LEN {
            return Err(FrameFault::Long);
        }
        keep_frame(self.frame.as_mut_slice(), frame);
        self.frame_length = frame.len();
        let Some(job) = keeper.secy().plan_receive(frame) else {
            self.work = Work::Finish(None);
            return Ok(false);
        };
        let Some(row) = keeper.secy().installed(job.key()) else {
            self.work = Work::Finish(None);
            return Ok(false);
        };
        self.key = PlannedKey::of(row);
        self.work = Work::Open(job);
        Ok(true)
    }

    /// Opens the link frame. The key must be the one of the plan.
    ///
    /// Errors: `NoJob`, then `OtherKey`. Then the slot is unchanged.
    pub fn open(&mut self, key: &JobKey) -> Result<(), JobFault>
        ensures fault { job_fault_of result ≡ open_fault self.old.work self.old.key key.now }
        ensures received { OnOk result (is_received self.new.work ≡ true) }
        ensures opened { OnOk result (is_opening self.new.work ≡ false) }
        ensures key { OnOk result (self.new.key ≡ self.old.key) }
        ensures frame { OnOk result (self.new.frame ≡ self.old.frame) }
        ensures kept { OnErr result (self.new ≡ self.old) }
    {
        let job = match &self.work {
            Work::Open(job) => *job,
            Work::Nothing | Work::Seal(_) | Work::Finish(_) => return Err(JobFault::NoJob),
        };
        if !key.is_for(&self.key) {
            return Err(JobFault::OtherKey);
        }
        let frame = &self.frame.as_slice()[..self.frame_length];
        let opened = open_frame(&job, key.suite_key(), frame, self.out.as_mut_slice());
        self.work = Work::Finish(opened);
        Ok(())
    }

    /// Receives the link frame of the slot, as `AheadKeeper::receive`. What was opened is used if this endpoint has the
    /// key with which it was opened, and would now open the frame in the same way. The delivered octets are at the
    /// start of `out`, which has `MAX_FRAME_LEN` octets or more; the others stay. The slot is then without a frame, and
    /// nothing of the key stays.
    pub fn finish_receive(
        &mut self,
        endpoint: &mut AheadKeeper,
        out: &mut [u8],
    ) -> Result<Finished, FrameFault>
        requires received { is_received self.old.work ≡ true }
        requires room { max_frame_len ≤ length out.old }
        ensures after { endpoint.new ≡ (ahead_step endpoint.old (endpoint_input (link_frame self.old.frame))).1 }
        ensures output { output_of_finished result self.old.frame out.new
            ≡ (ahead_step endpoint.old (endpoint_input (link_frame self.old.frame))).0 }
        ensures within { delivered_length result ≤ length out.old }
        ensures rest { drop (delivered_length result) out.new ≡ drop (delivered_length result) out.old }
        ensures left { is_idle self.new.work ≡ true }
        ensures gone { IsGone self.new.key }
    {
        let opened = usable(&self.work, &self.key, endpoint.keeper());
        let frame = &self.frame.as_slice()[..self.frame_length];
        let result = receive_frame(endpoint, frame, &opened, self.out.as_mut_slice(), out);
        self.work = Work::Nothing;
        self.key = PlannedKey::none();
        result
    }
}

/// Copies a frame to the start of a buffer. What is behind it stays.
fn keep_frame(room: &mut [u8], frame: &[u8])
    requires { length frame.now ≤ length room.old }
    ensures frame { take (length frame.now) room.new ≡ frame.now }
    ensures rest { drop (length frame.now) room.new ≡ drop (length frame.now) room.old }
{
    room[..frame.len()].copy_from_slice(frame);
}

/// What was opened, if the endpoint has the key with which it was opened.
fn usable(work: &Work, planned: &PlannedKey, keeper: &Keeper) -> Option<OpenedFrame>
    ensures opened { result ≡ usable work.now planned.now keeper.now.secy.keys }
    ensures sound { IsSound keeper.now.secy }
{
    let there = is_installed(planned, keeper);
    match work {
        Work::Finish(opened) => { if there { *opened } else { None } }
        Work::Nothing | Work::Seal(_) | Work::Open(_) => None,
    }
}

/// Whether the endpoint has the key under its number. All octets are compared.
fn is_installed(planned: &PlannedKey, keeper: &Keeper) -> bool
    ensures installed { result ≡ is_installed planned.now keeper.now.secy.keys }
    ensures sound { IsSound keeper.now.secy }
{
    match keeper.secy().installed(planned.number) {
        Some(row) => planned.is_prepared_as(row),
        None => false,
    }
}

/// Receives a link frame, and copies what is delivered to the start of `out`.
fn receive_frame(
    endpoint: &mut AheadKeeper,
    frame: &[u8],
    opened: &Option<OpenedFrame>,
    room: &mut [u8],
    out: &mut [u8],
) -> Result<Finished, FrameFault>
    requires sound { IsSound endpoint.old.k.secy }
    requires room { max_frame_len ≤ length room.old }
    requires opened { OpensFrame opened.now endpoint.old.k.secy.keys frame.now room.old }
    requires out { max_frame_len ≤ length out.old }
    ensures after { endpoint.new ≡ (ahead_step endpoint.old (endpoint_input (link_frame frame.now))).1 }
    ensures output { output_of_finished result frame.now out.new
        ≡ (ahead_step endpoint.old (endpoint_input (link_frame frame.now))).0 }
    ensures within { delivered_length result ≤ length out.old }
    ensures rest { drop (delivered_length result) out.new ≡ drop (delivered_length result) out.old }
{
    // The proof cites this law; the call does nothing.
    lengths_of_frames();
    match endpoint.finish_receive(frame, opened, room) {
        Ok(LimitedReceived::Received(received)) => {
            let delivered = delivered_to(received.controlled, out);
            Ok(Finished::Received(Reception {
                verdict: received.verdict,
                row: received.row,
                delivered,
            }))
        }
        Ok(LimitedReceived::Outside(OutsidePn::Above(pn))) => Ok(Finished::NoReservation(pn)),
        Ok(LimitedReceived::Outside(OutsidePn::Below(pn))) => Ok(Finished::BeforeThisRun(pn)),
        Err(fault) => Err(fault),
    }
}

/// Copies a delivered frame, if there is one, to the start of a buffer, and returns its length.
fn delivered_to(controlled: Option<&[u8]>, out: &mut [u8]) -> Option<usize>
    requires { IfSome controlled (λ d. length d.now ≤ length out.old) }
    ensures frame { option_map (λ n. take n out.new) result
        ≡ option_map (λ (d : Bor (List ℕ)). d.now) controlled.entry }
    ensures within { unwrap_or result 0 ≤ length out.old }
    ensures rest { drop (unwrap_or result 0) out.new ≡ drop (unwrap_or result 0) out.old }
{
    let delivered = controlled?;
    keep_frame(out, delivered);
    Some(delivered.len())
}
