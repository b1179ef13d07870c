//! The handle of a key: memory of the caller that holds a pointer, either null or to a key on the heap.

ghost use Rattle.std.specs.Prelude.{◌≡◌, is_some, IsSome, Option, Some, None};
ghost use Rattle.std.specs.Borrow.{sem};
ghost use Rattle.macsec_jobs.specs.declared.planned_key.PlannedKey.{PlannedKey};

use crate::endpoint::Hidden;
use crate::loose::Loose;
use macsec_jobs::JobKey;
use std::alloc::Global;
use std::marker::{Model, Send};
use std::ptr::null_mut;

/// A handle. It holds this key, or none, and then its pointer is null.
#[repr(C)]
pub struct Key {
    at: *mut Hidden,
    ghost state: { Option PlannedKey },
}

impl Model for Key {
    ghost use Rattle.macsec_jobs.specs.contracts.job_key.JobKey.{the_row};
    ghost use Rattle.macsec_c.specs.Owned.{owned};

    ghost also_owns = { λ h. owned the_row h.at h.state };
}

impl Key {
    ghost use Rattle.macsec_c.specs.LentKeys.{LendsKey};

    /// Returns whether the handle holds a key.
    pub(crate) fn is_made(&mut self) -> bool
        ensures made { result ≡ is_some self.old.state }
        ensures same { self.new ≡ self.old }
    {
        !self.at.is_null()
    }

    /// Returns a borrow of the key that the handle holds.
    pub(crate) fn key(&mut self) -> &mut JobKey
        requires { IsSome self.old.state }
        ensures* lends { sem 𝓛 (LendsKey self.entry result) }
        ensures key { self.old.state ≡ Some result.now }
    {
        unsafe { &mut *self.at.cast::<JobKey>() }
    }

    /// Puts a key into a handle without one.
    pub(crate) fn put(&mut self, key: Loose<JobKey, Global>)
        requires { self.old.state ≡ None }
        ensures { self.new.state ≡ Some key.value }
    {
        let Loose { at, alloc: _ } = key;
        self.at = at.cast::<Hidden>();
    }

    /// Takes the key out of the handle, which then holds none.
    pub(crate) fn take(&mut self, alloc: Global) -> Loose<JobKey, Global>
        requires { IsSome self.old.state }
        ensures key { self.old.state ≡ Some result.value }
        ensures empty { self.new.state ≡ None }
    {
        let at = self.at.cast::<JobKey>();
        self.at = null_mut();
        Loose { at, alloc }
    }
}

// No other pointer leads to the key, so a handle may be sent to another thread.
unsafe impl Send for Key {}
