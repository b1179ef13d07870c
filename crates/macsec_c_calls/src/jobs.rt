//! Frames whose work of the cipher is left to jobs.

ghost use Rattle.std.specs.Prelude.{◌≡◌, ℕ, List, Ok, unwrap_or};
ghost use Rattle.macsec_jobs.specs.Answers.{delivered_length, output_of_finished};
ghost use Rattle.macsec_jobs.specs.declared.answers.Finished.TheVariants as by;
ghost use Rattle.macsec_c_calls.specs.Jobs.{FinishesFrame, OpensWith, PlansToReceive, PlansToSend, SealsWith};
ghost use Rattle.macsec_c_calls.specs.Jobs.{parts_of_finished, planned_as, planned_for, status_of_job_fault, taken_as};
ghost use Rattle.macsec_c_calls.specs.Jobs.{unplanned};
ghost use Rattle.macsec_c_calls.specs.ReceivedParts.{dropped_parts, parts_of_ahead, unreceived};

use crate::receiving::place_of;
use macsec_ahead::{AheadKeeper, RxPn};
use macsec_c_values::{
    DONE, FATE_NO_RESERVATION, FATE_NO_SA, FATE_NONE, FATE_PLAIN, FATE_PROTECTED, FATE_TOO_LONG,
    JOB, OTHER_KEY, SPACE, VERDICT_EARLIER_RUN, VERDICT_NO_RESERVATION, number_of_verdict,
    status_of_frame_fault,
};
use macsec_jobs::{Finished as Outcome, JobFault, JobKey, Reception, SendPlan, Slot};
use macsec_secy::{DropReason, FrameFault, MAX_FRAME_LEN};

/// The plan for a frame.
#[repr(C)]
#[derive(Drop)]
pub struct Planned {
    /// The status.
    pub status: u32,
    /// The fate of a client frame, as in `Sent`; for a link frame 0.
    pub fate: u32,
    /// The number of the key that the job needs, or 0.
    pub key: u16,
    /// Whether there is a job: the frame is to be sealed, or to be opened.
    pub job: bool,
    /// Zeros.
    pub reserved: [u64; 4],
}

/// The result of receiving the link frame of a slot.
#[repr(C)]
#[derive(Drop)]
pub struct Finished {
    /// How many octets are delivered at the controlled port, or 0.
    pub length: usize,
    /// The status.
    pub status: u32,
    /// The number of the verdict, 1 to 14, or 0 if the status is not 0.
    pub verdict: u32,
    /// The SA that the frame is for, if `has_sa` is true: the SCI of its SC, and its AN.
    pub sci: [u8; 8],
    pub an: u8,
    pub has_sa: bool,
    /// Whether a frame is delivered.
    pub delivered: bool,
    /// The packet number of a frame with verdict 13 or 14, else 0.
    pub pn: u64,
    /// Zeros.
    pub reserved: [u64; 2],
}

/// The status of a job that is not done.
fn status_of_job_fault(fault: JobFault) -> u32
    ensures { result ≡ status_of_job_fault fault }
{
    match fault {
        JobFault::NoJob => JOB,
        JobFault::OtherKey => OTHER_KEY,
        JobFault::Space => SPACE,
    }
}

/// The answer if nothing is planned, with this status.
pub fn unplanned(status: u32) -> Planned
    ensures { result ≡ unplanned status }
{
    Planned {
        status,
        fate: FATE_NONE,
        key: 0,
        job: false,
        reserved: [0; 4],
    }
}

/// A plan.
fn planned_as(fate: u32, key: u16, job: bool) -> Planned
    ensures { result ≡ planned_as fate key job }
{
    Planned {
        status: DONE,
        fate,
        key,
        job,
        reserved: [0; 4],
    }
}

/// Plans a client frame, in a slot without a frame.
pub fn plan_to_send(endpoint: &mut AheadKeeper, slot: &mut Slot, frame: &[u8]) -> Planned
    ensures { PlansToSend endpoint.old slot.old frame.now result endpoint.new slot.new }
{
    if !slot.is_idle() {
        return unplanned(JOB);
    }
    let plan = slot.plan_send(endpoint, frame);
    planned_for(plan, slot.key_number())
}

/// The answer for a client frame, given the number of the slot's key.
fn planned_for(plan: Result<SendPlan, FrameFault>, key: u16) -> Planned
    ensures { result ≡ planned_for plan key }
{
    match plan {
        Ok(SendPlan::Job) => planned_as(FATE_PROTECTED, key, true),
        Ok(SendPlan::Plain) => planned_as(FATE_PLAIN, 0, false),
        Ok(SendPlan::Dropped(DropReason::NoSa)) => planned_as(FATE_NO_SA, 0, false),
        Ok(SendPlan::Dropped(DropReason::TooLong)) => planned_as(FATE_TOO_LONG, 0, false),
        Ok(SendPlan::NoReservation) => planned_as(FATE_NO_RESERVATION, 0, false),
        Err(fault) => unplanned(status_of_frame_fault(fault)),
    }
}

/// Plans a link frame, in a slot without a frame. Nothing of the endpoint changes.
pub fn plan_to_receive(endpoint: &AheadKeeper, slot: &mut Slot, frame: &[u8]) -> Planned
    ensures { PlansToReceive endpoint.now slot.old frame.now result slot.new }
{
    if !slot.is_idle() {
        return unplanned(JOB);
    }
    let taken = slot.plan_receive(endpoint.keeper(), frame);
    taken_as(taken, slot.key_number())
}

/// The answer for a link frame, given the number of the slot's key.
fn taken_as(taken: Result<bool, FrameFault>, key: u16) -> Planned
    ensures { result ≡ taken_as taken key }
{
    match taken {
        Ok(true) => planned_as(FATE_NONE, key, true),
        Ok(false) => planned_as(FATE_NONE, 0, false),
        Err(fault) => unplanned(status_of_frame_fault(fault)),
    }
}

/// Seals the client frame of a slot into a buffer. What is behind the frame stays. Returns the status.
pub fn seal_job(slot: &mut Slot, key: &JobKey, out: &mut [u8], written: &mut usize) -> u32
    ensures { SealsWith slot.old key.now out.old written.old result out.new written.new slot.new }
{
    match slot.seal(key, out) {
        Ok(length) => {
            *written = length;
            DONE
        }
        Err(fault) => status_of_job_fault(fault),
    }
}

/// Opens the link frame of a slot. Returns the status.
pub fn open_job(slot: &mut Slot, key: &JobKey) -> u32
    ensures { OpensWith slot.old key.now result slot.new }
{
    match slot.open(key) {
        Ok(()) => DONE,
        Err(fault) => status_of_job_fault(fault),
    }
}

/// The result for a frame that is not received, with this status.
pub fn unfinished(status: u32) -> Finished
    ensures parts { (out : List ℕ) → parts_of_finished result out ≡ unreceived status }
    ensures length { result.length ≡ 0 }
{
    Finished {
        length: 0,
        status,
        verdict: 0,
        sci: [0; 8],
        an: 0,
        has_sa: false,
        delivered: false,
        pn: 0,
        reserved: [0; 2],
    }
}

/// The result for a frame that is received.
fn finished_as(received: &Reception) -> Finished
    ensures parts { (frame out : List ℕ) → parts_of_finished result out ≡ parts_of_ahead (output_of_finished (Ok
        (by.Received received.now)) frame out) }
    ensures length { result.length ≡ unwrap_or received.now.delivered 0 }
{
    let (has_sa, sci, an) = place_of(received.row);
    let (delivered, length) = match received.delivered {
        Some(length) => (true, length),
        None => (false, 0),
    };
    Finished {
        length,
        status: DONE,
        verdict: number_of_verdict(received.verdict),
        sci,
        an,
        has_sa,
        delivered,
        pn: 0,
        reserved: [0; 2],
    }
}

/// The result for a valid link frame that is dropped because of its packet number, with this verdict.
fn dropped_as(verdict: u32, at: &RxPn) -> Finished
    ensures parts { (out : List ℕ) → parts_of_finished result out ≡ dropped_parts verdict at.now }
    ensures length { result.length ≡ 0 }
{
    let (has_sa, sci, an) = place_of(Some((at.sci, at.an)));
    Finished {
        length: 0,
        status: DONE,
        verdict,
        sci,
        an,
        has_sa,
        delivered: false,
        pn: at.number,
        reserved: [0; 2],
    }
}

/// Receives the link frame of a slot, and writes what is delivered to a buffer. What is behind it stays.
pub fn finish_frame(endpoint: &mut AheadKeeper, slot: &mut Slot, out: &mut [u8]) -> Finished
    ensures { FinishesFrame endpoint.old slot.old out.old result out.new endpoint.new slot.new }
{
    if !slot.is_received() {
        return unfinished(JOB);
    }
    if out.len() < MAX_FRAME_LEN {
        return unfinished(SPACE);
    }
    finished_of(slot.finish_receive(endpoint, out))
}

/// The result of receiving.
fn finished_of(outcome: Result<Outcome, FrameFault>) -> Finished
    ensures parts { (frame out : List ℕ) → parts_of_finished result out ≡ parts_of_ahead
        (output_of_finished outcome frame out) }
    ensures length { result.length ≡ delivered_length outcome }
{
    match outcome {
        Ok(Outcome::Received(received)) => finished_as(&received),
        Ok(Outcome::NoReservation(at)) => dropped_as(VERDICT_NO_RESERVATION, &at),
        Ok(Outcome::BeforeThisRun(at)) => dropped_as(VERDICT_EARLIER_RUN, &at),
        Err(fault) => unfinished(status_of_frame_fault(fault)),
    }
}
