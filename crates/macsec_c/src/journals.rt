//! A journal as a file: the calls with its handle.

ghost use Rattle.std.specs.Prelude.{◌≡◌, [], IfNone, IfSome, None};
ghost use Rattle.macsec_reserve.specs.Journal.{record_of};
ghost use Rattle.macsec_journal.specs.Format.{file_of};
ghost use Rattle.macsec_journal.specs.Machine.{for_endpoint};
ghost use Rattle.macsec_c_journals.specs.Calls.{let_go, ordered};
ghost use Rattle.macsec_c_values.specs.Statuses.{done_status};
ghost use Rattle.macsec_c.specs.Found.{found, status_of_found};
ghost use Rattle.macsec_c.specs.HeldJournals.{BeginsHeld, answered_held, called_held, changed, durable_at, entry_at};
ghost use Rattle.macsec_c.specs.HeldJournals.{filled_held, record_with};

use crate::journal::Journal;
use crate::loose::Loose;
use macsec_c_journals::{
    JournalCall, answer_call, begin_journal, let_go, order_records, show_call, show_durable,
    show_entry, status_of_begin_fault, write_for_endpoint,
};
use macsec_c_values::{DONE, EMPTY, Record, TAKEN};
use macsec_journal::created;
use macsec_reserve::Reservation;
use std::alloc::Global;

/// Begins with all octets of a file, which may have `limit` octets, in a handle without a journal.
/// `macsec_journal_begin` of the header calls this with octets that are not null.
#[unsafe(no_mangle)]
pub extern "C" fn macsec_journal_begin_raw(
    alloc: Global,
    j: &mut Journal,
    octets: &[u8],
    limit: u32,
) -> u32
    ensures { BeginsHeld j.old.state limit octets.now result j.new.state }
{
    if j.is_made() {
        return TAKEN;
    }
    match begin_journal(alloc, octets, limit) {
        Ok(begun) => {
            j.put(Loose::of(begun));
            DONE
        }
        Err(fault) => status_of_begin_fault(fault),
    }
}

/// Orders that records be made durable; with `anew`, by replacing the file. `macsec_journal_order` of the header calls
/// this with records that are not null.
#[unsafe(no_mangle)]
pub extern "C" fn macsec_journal_order_raw(j: &mut Journal, records: &[u8], anew: bool) -> u32
    ensures { (result, j.new.state) ≡ changed j.old.state (ordered records.now anew) }
{
    if !j.is_made() {
        return EMPTY;
    }
    order_records(j.journal(), records, anew)
}

/// Shows the system call that is next, and writes what it writes to the start of a buffer. `macsec_journal_next` of the
/// header calls this with a buffer that is not null.
#[unsafe(no_mangle)]
pub extern "C" fn macsec_journal_next_raw(
    j: &mut Journal,
    out: &mut [u8],
    call: &mut JournalCall,
) -> u32
    ensures shown { (result, (out.new, call.new)) ≡ called_held j.old.state (out.old, call.old) }
    ensures same { j.new.state ≡ j.old.state }
{
    if !j.is_made() {
        return EMPTY;
    }
    show_call(j.journal(), out, call)
}

/// Notes the answer of the system call.
#[unsafe(no_mangle)]
pub extern "C" fn macsec_journal_answered(j: &mut Journal, ok: bool) -> u32
    ensures { (result, j.new.state) ≡ changed j.old.state (answered_held ok) }
{
    if !j.is_made() {
        return EMPTY;
    }
    answer_call(j.journal(), ok);
    DONE
}

/// Shows the record at this index of those that the last answer showed to be durable.
#[unsafe(no_mangle)]
pub extern "C" fn macsec_journal_shown(j: &mut Journal, place: usize, out: &mut Record) -> u32
    ensures status { result ≡ status_of_found j.old.state (durable_at place) }
    ensures same { j.new.state ≡ j.old.state }
    ensures shown { IfSome (found j.old.state (durable_at place)) (λ r. out.new.octets ≡ record_of r) }
    ensures kept { IfNone (found j.old.state (durable_at place)) (out.new ≡ out.old) }
{
    if !j.is_made() {
        return EMPTY;
    }
    show_durable(j.journal(), place, out)
}

/// Shows the record of the entry at this index.
#[unsafe(no_mangle)]
pub extern "C" fn macsec_journal_record(j: &mut Journal, place: usize, out: &mut Record) -> u32
    ensures status { result ≡ status_of_found j.old.state (entry_at place) }
    ensures same { j.new.state ≡ j.old.state }
    ensures shown { IfSome (found j.old.state (entry_at place)) (λ r. out.new.octets ≡ record_of r) }
    ensures kept { IfNone (found j.old.state (entry_at place)) (out.new ≡ out.old) }
{
    if !j.is_made() {
        return EMPTY;
    }
    show_entry(j.journal(), place, out)
}

/// Lets a name go.
#[unsafe(no_mangle)]
pub extern "C" fn macsec_journal_let_go(j: &mut Journal, name: &[u8; 32]) -> u32
    ensures { (result, j.new.state) ≡ changed j.old.state (let_go name.now) }
{
    if !j.is_made() {
        return EMPTY;
    }
    let_go(j.journal(), name)
}

/// Writes to the start of a buffer what an endpoint is opened with. `macsec_journal_whole` of the header calls this
/// with a buffer that is not null.
#[unsafe(no_mangle)]
pub extern "C" fn macsec_journal_whole_raw(
    j: &mut Journal,
    out: &mut [u8],
    written: &mut usize,
) -> u32
    ensures written { (result, (out.new, written.new)) ≡ filled_held j.old.state for_endpoint (out.old, written.old) }
    ensures same { j.new.state ≡ j.old.state }
{
    if !j.is_made() {
        return EMPTY;
    }
    write_for_endpoint(j.journal(), out, written)
}

/// Shows the octets of a new file with this salt.
#[unsafe(no_mangle)]
pub extern "C" fn macsec_journal_created(salt: &[u8; 24], out: &mut [u8; 128]) -> u32
    ensures status { result ≡ done_status }
    ensures shown { out.new ≡ file_of salt.now [] }
{
    *out = created(salt);
    DONE
}

/// Shows the record of this name and number.
#[unsafe(no_mangle)]
pub extern "C" fn macsec_journal_noted(name: &[u8; 32], number: u64, out: &mut Record) -> u32
    ensures status { result ≡ done_status }
    ensures shown { out.new.octets ≡ record_with name.now number }
{
    let noted = Reservation {
        name: *name,
        last: number,
    };
    out.octets = noted.to_octets();
    DONE
}

/// Frees the journal of a handle, if it holds one. Afterwards the handle holds none. `macsec_journal_free` of the
/// header calls this, unless its handle is null.
#[unsafe(no_mangle)]
pub extern "C" fn macsec_journal_free_raw(alloc: Global, j: &mut Journal)
    ensures { j.new.state ≡ None }
{
    if j.is_made() {
        drop(j.take(alloc).into_box());
    }
}
