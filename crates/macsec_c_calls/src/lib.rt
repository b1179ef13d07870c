//! What the calls of the library for C do with an endpoint that can reserve ahead of receiving, without its handle:
//! each command, each frame, each text and each line. `macsec_c_values` has the numbers, the statuses and most structs
//! of the interface, and the readers that need no such endpoint. `macsec_c` exports the calls.
//!
//! Proved:
//! - A reader of reservations returns the status and shows the value of `specs/Reserving.antt`. If it finds nothing,
//!   its output is unchanged. `note_durable` is the step for a durable record.
//! - A command has the status of its output in the machine of `macsec_ahead` that forgets retired keys, and that
//!   refuses the octets of a key whose row a new key took. `renew_key` installs a key as `AheadKeeper::renew_key` does
//!   (`specs/Commands.antt`). A law (`laws`): such octets stay refused, whatever calls come. The result for a frame
//!   shows the output (`specs/SentAhead.antt`, `specs/ReceivedParts.antt`).
//! - `configured` and `configured_beside` create the endpoint of a text after the steps of all its commands, or give
//!   the first fault or refusal, or run out of memory. `command_line` is the step of a line's command
//!   (`specs/Texts.antt`).
//! - `carry_out_row` is the step of the command that a row means (`specs/Commands.antt`). A law (`laws`): a line that
//!   is parsed and then carried out does what `command_line` does.
//! - `load_rows` carries out the commands of all rows, or of none; an SA that would be refused with `PnFloor` begins
//!   above its floor (`specs/Loading.antt`). A law (`laws`): all commands leave what a list of calls leaves.
//! - A plan, a job and the end of a reception do what `specs/Jobs.antt` says: with a slot in between, they take the
//!   steps and give the answers of `macsec_send` and `macsec_receive`.
//! - `answer` writes the answer of `specs/Answers.antt` to the beginning of the buffer, and leaves the endpoint after
//!   it. If the buffer is too small, or memory runs out, nothing is written and nothing has changed. A line that is
//!   wrong, or that is not about end A alone, changes nothing; its answer is the fault's text. A law (`laws`): the text
//!   is what the line prints in a script, and the endpoint is the one after the line there, except that a key which the
//!   line retires is forgotten. Premises: no packet number of the line is refused because of a journal, and the
//!   line installs no key that was forgotten. `macsec_script::laws::prints_of_end_a` says the same of every world of a
//!   script.
#![tactic(auto)]

mod answering;
mod commands;
mod configuring;
mod creating;
mod jobs;
pub mod laws;
pub mod loading;
mod receiving;
mod reserving;
mod taking;

pub use answering::{Answered, Ending, answer};
pub use commands::{carry_out, carry_out_row, renew_key};
pub use configuring::{ConfigFault, command_line, configured, configured_beside};
pub use creating::{endpoint_alone, endpoint_beside};
pub use jobs::{
    Finished, Planned, finish_frame, open_job, plan_to_receive, plan_to_send, seal_job, unfinished,
    unplanned,
};
pub use receiving::{Received, received_of, unreceived};
pub use reserving::{note_durable, show_rx_floor, show_to_accept};
pub use taking::{new_slot, take_key};
