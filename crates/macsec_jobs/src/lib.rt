//! Slots for frames whose work of the cipher is left to other threads, over an endpoint of `macsec_ahead`.
//!
//! A `Slot` has one frame, the job that was planned for it, and the buffer that the job writes. A `JobKey` is a key of
//! an endpoint that was prepared once more. The two need no endpoint, so each may be in another thread.
//!
//! Proved: `plan_send` is the step of `AheadKeeper::send`, and `frame_planned` of the slot is the frame of the
//! step's output. `seal` writes that frame and nothing behind it, if the key is the one of the plan
//! (`specs/Slots.antt`, `seal_fault`), and leaves the slot without a frame: so a job is sealed at most once. A slot
//! without a frame has no key (`IsGone`, an invariant), and `clear` and `seal` write neither of its buffers
//! (`LeavesBuffers`). `finish_receive` is the step of `AheadKeeper::receive` for the frame of the slot, with any
//! endpoint, whatever was opened before and with whatever key. Only these functions write a slot, so only what the
//! step delivers is delivered: a slot with an opened frame keeps the key with which the frame was opened, and the
//! endpoint uses what was opened only if it has the same key under the same number. By their types only `Slot::new`
//! takes an allocator.
//!
//! Tested, not proved: what a slot saves (no clause says that `finish_receive` does not open a frame again), and that
//! `open` and `finish_receive` leave nothing of a key in its buffers.
#![tactic(auto)]

mod answers;
mod job_fault;
mod job_key;
mod planned_key;
mod slot;
mod work;

pub use answers::{Finished, Reception, SendPlan};
pub use job_fault::JobFault;
pub use job_key::JobKey;
pub use planned_key::PlannedKey;
pub use slot::Slot;
pub use work::Work;
