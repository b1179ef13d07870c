//! The handle of a slot: memory of the caller that holds a pointer, either null or to a slot on the heap.

ghost use Rattle.std.specs.Prelude.{◌≡◌, is_some, IsSome, Option, Some, None};
ghost use Rattle.std.specs.Borrow.{sem};
ghost use Rattle.macsec_jobs.specs.Slots.{SlotState};

use crate::endpoint::Hidden;
use crate::loose::Loose;
use macsec_jobs::Slot as Inner;
use std::alloc::Global;
use std::marker::{Model, Send};
use std::ptr::null_mut;

/// A handle. It holds a slot in this state, or none, and then its pointer is null.
#[repr(C)]
pub struct Slot {
    at: *mut Hidden,
    ghost state: { Option SlotState },
}

impl Model for Slot {
    ghost use Rattle.macsec_jobs.specs.contracts.slot.Slot.{the_row};
    ghost use Rattle.macsec_c.specs.Owned.{owned};

    ghost also_owns = { λ h. owned the_row h.at h.state };
}

impl Slot {
    ghost use Rattle.macsec_c.specs.LentSlots.{LendsSlot};

    /// Returns whether the handle holds a slot.
    pub(crate) fn is_made(&mut self) -> bool
        ensures made { result ≡ is_some self.old.state }
        ensures same { self.new ≡ self.old }
    {
        !self.at.is_null()
    }

    /// Returns a borrow of the slot that the handle holds.
    pub(crate) fn slot(&mut self) -> &mut Inner
        requires { IsSome self.old.state }
        ensures* lends { sem 𝓛 (LendsSlot self.entry result) }
        ensures slot { self.old.state ≡ Some result.now }
    {
        unsafe { &mut *self.at.cast::<Inner>() }
    }

    /// Puts a slot into a handle without one.
    pub(crate) fn put(&mut self, slot: Loose<Inner, Global>)
        requires { self.old.state ≡ None }
        ensures { self.new.state ≡ Some slot.value }
    {
        let Loose { at, alloc: _ } = slot;
        self.at = at.cast::<Hidden>();
    }

    /// Takes the slot out of the handle, which then holds none.
    pub(crate) fn take(&mut self, alloc: Global) -> Loose<Inner, Global>
        requires { IsSome self.old.state }
        ensures slot { self.old.state ≡ Some result.value }
        ensures empty { self.new.state ≡ None }
    {
        let at = self.at.cast::<Inner>();
        self.at = null_mut();
        Loose { at, alloc }
    }
}

// No other pointer leads to the slot, so a handle may be sent to another thread.
unsafe impl Send for Slot {}
