//! What the calls of the library for C with a journal do, without its handles. `macsec_c` exports these calls.
//!
//! Proved: an order, an answer and a name that is let go are one step each of the machine of `macsec_journal`, or are
//! refused and change nothing. The system call that is next is shown with what it writes, the records are shown that the
//! last answer showed to be durable, and the octets are written with which an endpoint is opened (`specs/Calls.antt`).
#![tactic(auto)]

mod journals;

pub use journals::{
    JournalCall, OpenJournal, answer_call, begin_journal, let_go, order_records, show_call,
    show_durable, show_entry, status_of_begin_fault, write_for_endpoint,
};
