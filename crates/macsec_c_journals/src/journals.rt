//! The journal of a process as a file: which system call is next, and what its answer means.

ghost use Rattle.std.specs.Prelude.{◌≡◌, ◌<◌, ◌≤◌, ◌+◌, ◌/◌, [], ◌∷◌, ◌++◌, IfNone, IfSome, drop, length, slice_get};
ghost use Rattle.std.specs.Prelude.{true, vec_capacity, vec_len};
ghost use Rattle.macsec_reserve.specs.Journal.{record_of, reservations, reserved_in};
ghost use Rattle.macsec_journal.specs.declared.step.Step.TheVariants.{Resting};
ghost use Rattle.macsec_journal.specs.Machine.{answered, for_endpoint, shown};
ghost use Rattle.macsec_script_parser.specs.Fields.{map_ok};
ghost use Rattle.macsec_c_journals.specs.Calls.{Begins, are_as_many, call_with, called, filled, is_resting, let_go};
ghost use Rattle.macsec_c_journals.specs.Calls.{number_of_step, ordered, status_of_begin_fault, writes};
ghost use Rattle.macsec_c_values.specs.Shown.{status_if};

use macsec_c_values::{DONE, NONE, NOT_JOURNAL, NOT_RECORD, Record, SPACE, status_of_new_fault};
use macsec_journal::{BeginFault, Step, Writer};
use macsec_reserve::{RECORD_LENGTH, Reservation};
use macsec_secy::NewFault;
use std::alloc::Global;
use std::marker::Model;

/// The count of a journal is damaged, or does not agree with its entries.
const JOURNAL_DAMAGED: u32 = 60;

/// The entries of a journal would not fit into a file of its limit.
const JOURNAL_FULL: u32 = 61;

/// An order to the journal is under way.
const JOURNAL_BUSY: u32 = 62;

/// A journal with the buffers that its calls need.
#[derive(Drop)]
pub struct OpenJournal {
    writer: Writer,
    /// The most octets of the file.
    limit: u32,
    /// The records of an order.
    records: Vec<Reservation>,
    /// What is written.
    octets: Vec<u8>,
}

impl Model for OpenJournal {
    ghost use Rattle.std.specs.Prelude.{vec_capacity};
    ghost use Rattle.macsec_journal.specs.Machine.{Journal};
    ghost use Rattle.macsec_c_journals.specs.Space.{HasBuffers};

    ghost Value = { Journal };

    ghost view = { λ o. o.writer };

    // There is space for all that a file of the limit can have.
    ghost invariant = { λ o. HasBuffers o.writer.limit o.limit (vec_capacity o.records) (vec_capacity o.octets) };
}

/// The system call that is next.
#[repr(C)]
#[derive(Drop)]
pub struct JournalCall {
    /// Where the octets are written, or 0.
    pub at: u64,
    /// How many octets the file has at least, in the step `LookingAfter`.
    pub end: u64,
    /// How many octets are written, or 0.
    pub length: usize,
    /// The number of the step.
    pub step: u32,
    /// Zeros.
    pub reserved: [u64; 4],
}

/// The status of a fault of beginning.
pub fn status_of_begin_fault(fault: BeginFault) -> u32
    ensures { result ≡ status_of_begin_fault fault }
{
    match fault {
        BeginFault::NotJournal => NOT_JOURNAL,
        BeginFault::Damaged => JOURNAL_DAMAGED,
        BeginFault::TooLong => JOURNAL_FULL,
        BeginFault::Memory => status_of_new_fault(NewFault::Memory),
    }
}

/// The number of a step.
fn number_of_step(step: Step) -> u32
    ensures { result ≡ number_of_step step }
{
    match step {
        Step::Resting => 0,
        Step::Appending => 1,
        Step::Syncing => 2,
        Step::LookingAfter => 3,
        Step::LookingBefore => 4,
        Step::Removing => 5,
        Step::Creating => 6,
        Step::Locking => 7,
        Step::Filling => 8,
        Step::SyncingNew => 9,
        Step::Renaming => 10,
        Step::SyncingFolder => 11,
    }
}

/// Begins with all octets of a file, which may have `limit` octets, and allocates all that later calls need.
pub fn begin_journal(
    alloc: Global,
    octets: &[u8],
    limit: u32,
) -> Result<Box<OpenJournal, Global>, BeginFault>
    ensures { Begins limit octets.now (map_ok (λ journal. journal.value) result) }
{
    let writer = match Writer::begin(alloc, octets, limit) {
        Ok(writer) => writer,
        Err(fault) => return Err(fault),
    };
    let Ok(records) = Vec::with_capacity(alloc, (limit as usize) / RECORD_LENGTH) else {
        return Err(BeginFault::Memory);
    };
    let Ok(buffer) = Vec::with_capacity(alloc, limit as usize) else {
        return Err(BeginFault::Memory);
    };
    let journal = OpenJournal {
        writer,
        limit,
        records,
        octets: buffer,
    };
    let Ok(journal) = Box::new(alloc, journal) else {
        return Err(BeginFault::Memory);
    };
    Ok(journal)
}

/// Is there no order under way?
fn is_resting(step: Step) -> bool
    ensures test { result ≡ is_resting step }
    ensures resting { result ≡ true → step ≡ Resting }
{
    step == Step::Resting
}

/// Orders that records be made durable. Returns the status; nothing changes if it is not 0.
pub fn order_records(journal: &mut OpenJournal, records: &[u8], anew: bool) -> u32
    ensures { (result, journal.new) ≡ ordered records.now anew journal.old }
{
    if !is_resting(journal.writer.step()) {
        return JOURNAL_BUSY;
    }
    if (journal.limit as usize) / RECORD_LENGTH < records.len() / RECORD_LENGTH {
        return JOURNAL_FULL;
    }
    read_records(records, &mut journal.records);
    if !are_as_many(records, journal.records.len()) {
        return NOT_RECORD;
    }
    match journal.writer.order(journal.records.as_slice(), anew) {
        Ok(()) => DONE,
        Err(_) => JOURNAL_FULL,
    }
}

/// Reads what the records of some octets reserve.
fn read_records(octets: &[u8], found: &mut Vec<Reservation>)
    requires { length octets.now / 64 ≤ vec_capacity found.old }
    ensures items { found.new.items ≡ reservations octets.now }
    ensures space { vec_capacity found.old ≤ vec_capacity found.new }
{
    found.clear();
    for k in 0..octets.len() / RECORD_LENGTH {
        let at = RECORD_LENGTH * k;
        read_record(&octets[at..at + RECORD_LENGTH], found);
    }
}

/// Appends what a record reserves.
fn read_record(octets: &[u8], found: &mut Vec<Reservation>)
    requires long { length octets.now ≡ 64 }
    requires room { vec_len found.old < vec_capacity found.old }
    ensures items { found.new.items ≡ found.old.items ++ reserved_in octets.now }
    ensures count { vec_len found.new ≤ vec_len found.old + 1 }
    ensures space { vec_capacity found.old ≤ vec_capacity found.new }
{
    let mut record = [0; 64];
    record.copy_from_slice(octets);
    match Reservation::from_octets(&record) {
        Some(reservation) => append(reservation, found),
        None => {}
    }
}

/// Appends a reservation.
fn append(more: Reservation, found: &mut Vec<Reservation>)
    requires { vec_len found.old < vec_capacity found.old }
    ensures items { found.new.items ≡ found.old.items ++ more ∷ [] }
    ensures count { vec_len found.new ≡ vec_len found.old + 1 }
    ensures space { vec_capacity found.old ≤ vec_capacity found.new }
{
    found.push(more).unwrap();
}

/// Are these octets so many records?
fn are_as_many(octets: &[u8], count: usize) -> bool
    ensures { result ≡ are_as_many octets.now count }
{
    octets.len() % RECORD_LENGTH == 0 && count == octets.len() / RECORD_LENGTH
}

/// Shows the system call that is next, and writes what it writes to the start of a buffer.
pub fn show_call(journal: &mut OpenJournal, out: &mut [u8], call: &mut JournalCall) -> u32
    ensures shown { (result, (out.new, call.new)) ≡ called journal.old (out.old, call.old) }
    ensures same { journal.new ≡ journal.old }
{
    compose(&journal.writer, &mut journal.octets);
    if out.len() < journal.octets.len() {
        return SPACE;
    }
    put_octets(journal.octets.as_slice(), out);
    *call = call_with(&journal.writer, journal.octets.len());
    DONE
}

/// Writes into a buffer what the system call that is next writes.
fn compose(writer: &Writer, octets: &mut Vec<u8>)
    requires { writer.now.limit ≤ vec_capacity octets.old }
    ensures octets { octets.new.items ≡ writes writer.now.step writer.now }
    ensures space { vec_capacity octets.old ≤ vec_capacity octets.new }
{
    if writer.step() == Step::Appending {
        writer.appended(octets);
    } else if writer.step() == Step::Filling {
        writer.whole(octets);
    } else {
        octets.clear();
    }
}

/// The system call that is next, which writes so many octets.
fn call_with(writer: &Writer, length: usize) -> JournalCall
    ensures { result ≡ call_with length writer.now }
{
    JournalCall {
        at: writer.at(),
        end: writer.end(),
        length,
        step: number_of_step(writer.step()),
        reserved: [0; 4],
    }
}

/// Writes octets to the start of a buffer.
fn put_octets(octets: &[u8], out: &mut [u8])
    requires { length octets.now ≤ length out.old }
    ensures { out.new ≡ octets.now ++ drop (length octets.now) out.old }
{
    let count = octets.len();
    out[..count].copy_from_slice(octets);
}

/// Notes the answer of the system call.
pub fn answer_call(journal: &mut OpenJournal, ok: bool)
    ensures { journal.new ≡ answered ok journal.old }
{
    journal.writer.answered(ok);
}

/// Shows the record at this index of some reservations.
fn show_record_at(reservations: &[Reservation], place: usize, out: &mut Record) -> u32
    ensures status { result ≡ status_if (slice_get reservations.now place) }
    ensures shown { IfSome (slice_get reservations.now place) (λ r. out.new.octets ≡ record_of r) }
    ensures kept { IfNone (slice_get reservations.now place) (out.new ≡ out.old) }
{
    match reservations.get(place) {
        Some(reservation) => {
            out.octets = reservation.to_octets();
            DONE
        }
        None => NONE,
    }
}

/// Shows the record at this index of those that the last answer showed to be durable.
pub fn show_durable(journal: &OpenJournal, place: usize, out: &mut Record) -> u32
    ensures status { result ≡ status_if (slice_get (shown journal.now) place) }
    ensures shown { IfSome (slice_get (shown journal.now) place) (λ r. out.new.octets ≡ record_of r) }
    ensures kept { IfNone (slice_get (shown journal.now) place) (out.new ≡ out.old) }
{
    show_record_at(journal.writer.shown(), place, out)
}

/// Shows the record of the entry at this index.
pub fn show_entry(journal: &OpenJournal, place: usize, out: &mut Record) -> u32
    ensures status { result ≡ status_if (slice_get journal.now.table place) }
    ensures shown { IfSome (slice_get journal.now.table place) (λ r. out.new.octets ≡ record_of r) }
    ensures kept { IfNone (slice_get journal.now.table place) (out.new ≡ out.old) }
{
    show_record_at(journal.writer.entries(), place, out)
}

/// Lets a name go. Returns the status; nothing changes if it is not 0.
pub fn let_go(journal: &mut OpenJournal, name: &[u8; 32]) -> u32
    ensures { (result, journal.new) ≡ let_go name.now journal.old }
{
    if !is_resting(journal.writer.step()) {
        return JOURNAL_BUSY;
    }
    journal.writer.let_go(name);
    DONE
}

/// Writes to the start of a buffer what an endpoint of the process is opened with.
pub fn write_for_endpoint(journal: &mut OpenJournal, out: &mut [u8], written: &mut usize) -> u32
    ensures written { (result, (out.new, written.new)) ≡ filled (for_endpoint journal.old) (out.old, written.old) }
    ensures same { journal.new ≡ journal.old }
{
    journal.writer.for_endpoint(&mut journal.octets);
    write_octets(journal.octets.as_slice(), out, written)
}

/// Writes octets to the start of a buffer, if it has space for them. Returns the status.
fn write_octets(octets: &[u8], out: &mut [u8], written: &mut usize) -> u32
    ensures { (result, (out.new, written.new)) ≡ filled octets.now (out.old, written.old) }
{
    if out.len() < octets.len() {
        return SPACE;
    }
    put_octets(octets, out);
    *written = octets.len();
    DONE
}
