//! The handle of a journal: memory of the caller that holds a pointer, either null or to a journal on the heap.

ghost use Rattle.std.specs.Prelude.{◌≡◌, is_some, IsSome, Option, Some, None};
ghost use Rattle.std.specs.Borrow.{sem};
ghost use Rattle.macsec_journal.specs.Machine.{Journal as JournalState};

use crate::endpoint::Hidden;
use crate::loose::Loose;
use macsec_c_journals::OpenJournal;
use std::alloc::Global;
use std::marker::{Model, Send};
use std::ptr::null_mut;

/// A handle. It holds a journal in this state, or none, and then its pointer is null.
#[repr(C)]
pub struct Journal {
    at: *mut Hidden,
    ghost state: { Option JournalState },
}

impl Model for Journal {
    ghost use Rattle.macsec_c_journals.specs.contracts.journals.OpenJournal.{the_row};
    ghost use Rattle.macsec_c.specs.Owned.{owned};

    ghost also_owns = { λ h. owned the_row h.at h.state };
}

impl Journal {
    ghost use Rattle.macsec_c.specs.LentJournals.{LendsJournal};

    /// Returns whether the handle holds a journal.
    pub(crate) fn is_made(&mut self) -> bool
        ensures made { result ≡ is_some self.old.state }
        ensures same { self.new ≡ self.old }
    {
        !self.at.is_null()
    }

    /// Returns a borrow of the journal that the handle holds.
    pub(crate) fn journal(&mut self) -> &mut OpenJournal
        requires { IsSome self.old.state }
        ensures* lends { sem 𝓛 (LendsJournal self.entry result) }
        ensures journal { self.old.state ≡ Some result.now }
    {
        unsafe { &mut *self.at.cast::<OpenJournal>() }
    }

    /// Puts a journal into a handle without one.
    pub(crate) fn put(&mut self, journal: Loose<OpenJournal, Global>)
        requires { self.old.state ≡ None }
        ensures { self.new.state ≡ Some journal.value }
    {
        let Loose { at, alloc: _ } = journal;
        self.at = at.cast::<Hidden>();
    }

    /// Takes the journal out of the handle, which then holds none.
    pub(crate) fn take(&mut self, alloc: Global) -> Loose<OpenJournal, Global>
        requires { IsSome self.old.state }
        ensures journal { self.old.state ≡ Some result.value }
        ensures empty { self.new.state ≡ None }
    {
        let at = self.at.cast::<OpenJournal>();
        self.at = null_mut();
        Loose { at, alloc }
    }
}

// No other pointer leads to the journal, so a handle may be sent to another thread.
unsafe impl Send for Journal {}
