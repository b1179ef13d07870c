//! What the interface for C means, without an endpoint that can reserve ahead of receiving: its numbers and statuses,
//! most of its structs, and what is read from an endpoint's state. `macsec_c_calls` and `macsec_c_journals` have the
//! other calls, and `macsec_c` exports all of them.
//!
//! Proved:
//! - Each number that is passed names what `specs/Arguments.antt` says, or is refused by the fault of its kind. A key
//!   and a configuration are what their struct says (`specs/Keys.antt`, `specs/Configs.antt`). The status of each fault
//!   and the number of each verdict are the ones in `specs/Statuses.antt`.
//! - A reader returns the status and shows the value of `specs/Shown.antt` or `specs/Reservations.antt`. If it finds
//!   nothing, its output is unchanged. `write_compacted` writes the shorter journal, or nothing.
//! - The result for a client frame shows the output of a machine that keeps a journal (`specs/SentParts.antt`). If
//!   nothing is sent, it has no octet of the frame.
//! - `row_of` gives the row of a command, and `command_of_row` the command that a row means (`specs/Rows.antt`). A law
//!   (`laws`): the row of a command means this command.
//! - `line_command` gives the command of a line at end A. `parse_command` gives the row of a line's command, or the
//!   status of its fault and the row of no command. `parse_end` gives the configuration of an `end` line
//!   (`specs/Parsing.antt`).
//! - `seal` seals a frame for a test as `protect_in_place` would, whatever its SecTAG is (`specs/Sealing.antt`).
//! - The texts of answers (`texts`) are those that a script prints.
#![tactic(auto)]

mod arguments;
mod commands;
mod configs;
pub mod laws;
mod parsing;
mod reservations;
mod rows;
mod sealing;
mod sending;
mod showing;
mod statuses;
pub mod texts;

pub use arguments::{
    ArgumentFault, an_of, form_of, key_number_of, key_of, key_suite_of, mode_of, suite_of,
};
pub use commands::{Sak, new_key_of, rx_sa_of, tx_sa_of};
pub use configs::{Config, config_of};
pub use parsing::{line_command, parse_command, parse_end};
pub use reservations::{
    Record, show_floor, show_record, show_to_save, show_tx_floor, show_wanted, write_compacted,
};
pub use rows::{CommandKind, CommandRow, command_of_row, config_row, no_config, no_row, row_of};
pub use sealing::seal;
pub use sending::{Sent, sent_of, unsent};
pub use showing::{
    CountersShown, OptionsShown, RxCountersShown, RxRowShown, TxCountersShown, TxRowShown,
    counters_shown, options_shown, show_removed_counters, show_rx_counters, show_rx_sa,
    show_rx_sa_counters, show_rx_sc, show_tx_sa, tx_counters_shown,
};
pub use statuses::{
    ANSWER_LONG, DONE, EMPTY, FATE_NO_RESERVATION, FATE_NO_SA, FATE_NONE, FATE_PLAIN,
    FATE_PROTECTED, FATE_TOO_LONG, JOB, NONE, NOT_JOURNAL, NOT_RECORD, OTHER_KEY, SPACE, TAKEN,
    VERDICT_EARLIER_RUN, VERDICT_NO_RESERVATION, number_of_verdict, status_of_frame_fault,
    status_of_line_fault, status_of_new_fault, status_of_open_fault, status_of_script_fault,
};
