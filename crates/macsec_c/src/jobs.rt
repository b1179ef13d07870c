//! Frames whose work of the cipher is left to other threads: keys and slots on the heap, and the calls with them.

ghost use Rattle.std.specs.Prelude.{◌≡◌, None};
ghost use Rattle.macsec_c_values.specs.Arguments.{key_number_of};
ghost use Rattle.macsec_c.specs.HeldJobs.{ClearsHeld, FinishesHeld, MakesSlot, OpensHeld, PlansHeld, SealsHeld};
ghost use Rattle.macsec_c.specs.HeldJobs.{TakesFrame, TakesHeld};

use crate::endpoint::Endpoint;
use crate::key::Key;
use crate::loose::Loose;
use crate::slot::Slot;
use macsec_c_calls::{
    Finished, Planned, finish_frame, new_slot, open_job, plan_to_receive, plan_to_send, seal_job,
    take_key, unfinished, unplanned,
};
use macsec_c_values::{DONE, EMPTY, TAKEN, key_number_of};
use std::alloc::Global;

/// Prepares the endpoint's key of this number once more on the heap, in a handle without a key.
#[unsafe(no_mangle)]
pub extern "C" fn macsec_key_take(
    alloc: Global,
    key: &mut Key,
    e: &mut Endpoint,
    number: u16,
) -> u32
    ensures key { TakesHeld key.old.state e.old.state (key_number_of number) result key.new.state }
    ensures same { e.new.state ≡ e.old.state }
{
    if key.is_made() {
        return TAKEN;
    }
    if !e.is_made() {
        return EMPTY;
    }
    let number = match key_number_of(number) {
        Ok(number) => number,
        Err(fault) => return fault.status(),
    };
    match take_key(alloc, e.held().keeper(), number) {
        Ok(taken) => {
            key.put(Loose::of(taken));
            DONE
        }
        Err(status) => status,
    }
}

/// Frees the key of a handle, if it holds one. Afterwards the handle holds none. `macsec_key_free` of the header calls
/// this, unless its handle is null.
#[unsafe(no_mangle)]
pub extern "C" fn macsec_key_free_raw(alloc: Global, key: &mut Key)
    ensures { key.new.state ≡ None }
{
    if key.is_made() {
        drop(key.take(alloc).into_box());
    }
}

/// Creates a slot on the heap, in a handle without one.
#[unsafe(no_mangle)]
pub extern "C" fn macsec_slot_new(alloc: Global, slot: &mut Slot) -> u32
    ensures { MakesSlot slot.old.state result slot.new.state }
{
    if slot.is_made() {
        return TAKEN;
    }
    match new_slot(alloc) {
        Ok(made) => {
            slot.put(Loose::of(made));
            DONE
        }
        Err(status) => status,
    }
}

/// Frees the slot of a handle, if it holds one. Afterwards the handle holds none. `macsec_slot_free` of the header
/// calls this, unless its handle is null.
#[unsafe(no_mangle)]
pub extern "C" fn macsec_slot_free_raw(alloc: Global, slot: &mut Slot)
    ensures { slot.new.state ≡ None }
{
    if slot.is_made() {
        drop(slot.take(alloc).into_box());
    }
}

/// Gives up the frame of a slot, if it has one.
#[unsafe(no_mangle)]
pub extern "C" fn macsec_slot_clear(slot: &mut Slot) -> u32
    ensures { ClearsHeld slot.old.state result slot.new.state }
{
    if !slot.is_made() {
        return EMPTY;
    }
    slot.slot().clear();
    DONE
}

/// Plans a client frame.
fn plan_of(e: &mut Endpoint, slot: &mut Slot, frame: &[u8]) -> Planned
    ensures { PlansHeld e.old.state slot.old.state frame.now result e.new.state slot.new.state }
{
    if !e.is_made() {
        return unplanned(EMPTY);
    }
    if !slot.is_made() {
        return unplanned(EMPTY);
    }
    plan_to_send(e.held(), slot.slot(), frame)
}

/// Plans a client frame of the controlled port. A frame that is to be sealed is in the slot afterwards.
/// `macsec_plan_send` of the header calls this with a frame that is not null.
#[unsafe(no_mangle)]
pub extern "C" fn macsec_plan_send_raw(
    e: &mut Endpoint,
    slot: &mut Slot,
    frame: &[u8],
    out: &mut Planned,
) -> u32
    ensures planned { PlansHeld e.old.state slot.old.state frame.now out.new e.new.state slot.new.state }
    ensures status { result ≡ out.new.status }
{
    *out = plan_of(e, slot, frame);
    out.status
}

/// Seals the client frame of a slot. `macsec_seal_job` of the header calls this with a buffer that is not null.
#[unsafe(no_mangle)]
pub extern "C" fn macsec_seal_job_raw(
    slot: &mut Slot,
    key: &mut Key,
    out: &mut [u8],
    written: &mut usize,
) -> u32
    ensures sealed { SealsHeld slot.old.state key.old.state out.old written.old result out.new written.new
        slot.new.state }
    ensures key { key.new.state ≡ key.old.state }
{
    if !slot.is_made() {
        return EMPTY;
    }
    if !key.is_made() {
        return EMPTY;
    }
    seal_job(slot.slot(), key.key(), out, written)
}

/// Takes a link frame into a slot.
fn taken_frame(e: &mut Endpoint, slot: &mut Slot, frame: &[u8]) -> Planned
    ensures planned { TakesFrame e.old.state slot.old.state frame.now result slot.new.state }
    ensures same { e.new.state ≡ e.old.state }
{
    if !e.is_made() {
        return unplanned(EMPTY);
    }
    if !slot.is_made() {
        return unplanned(EMPTY);
    }
    plan_to_receive(e.held(), slot.slot(), frame)
}

/// Plans a link frame, which is in the slot afterwards. `macsec_plan_receive` of the header calls this with a frame
/// that is not null.
#[unsafe(no_mangle)]
pub extern "C" fn macsec_plan_receive_raw(
    e: &mut Endpoint,
    slot: &mut Slot,
    frame: &[u8],
    out: &mut Planned,
) -> u32
    ensures planned { TakesFrame e.old.state slot.old.state frame.now out.new slot.new.state }
    ensures same { e.new.state ≡ e.old.state }
    ensures status { result ≡ out.new.status }
{
    *out = taken_frame(e, slot, frame);
    out.status
}

/// Opens the link frame of a slot.
#[unsafe(no_mangle)]
pub extern "C" fn macsec_open_job(slot: &mut Slot, key: &mut Key) -> u32
    ensures opened { OpensHeld slot.old.state key.old.state result slot.new.state }
    ensures key { key.new.state ≡ key.old.state }
{
    if !slot.is_made() {
        return EMPTY;
    }
    if !key.is_made() {
        return EMPTY;
    }
    open_job(slot.slot(), key.key())
}

/// Receives the link frame of a slot.
fn finish(e: &mut Endpoint, slot: &mut Slot, out: &mut [u8]) -> Finished
    ensures { FinishesHeld e.old.state slot.old.state out.old result out.new e.new.state slot.new.state }
{
    if !e.is_made() {
        return unfinished(EMPTY);
    }
    if !slot.is_made() {
        return unfinished(EMPTY);
    }
    finish_frame(e.held(), slot.slot(), out)
}

/// Receives the link frame of a slot, opened or not. What is delivered is at the start of the buffer.
/// `macsec_finish_receive` of the header calls this with a buffer that is not null.
#[unsafe(no_mangle)]
pub extern "C" fn macsec_finish_receive_raw(
    e: &mut Endpoint,
    slot: &mut Slot,
    out: &mut [u8],
    finished: &mut Finished,
) -> u32
    ensures received { FinishesHeld e.old.state slot.old.state out.old finished.new out.new e.new.state slot.new.state }
    ensures status { result ≡ finished.new.status }
{
    *finished = finish(e, slot, out);
    finished.status
}
