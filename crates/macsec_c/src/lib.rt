//! The endpoint for callers in C: a static library, whose header is `include/macsec.h`. An export refuses a handle
//! without an endpoint, and leaves the rest to `macsec_c_values`, `macsec_c_calls` and `macsec_c_journals`.
//!
//! Proved: each export creates or gives up an endpoint, a key, a slot or a journal, does a job, or is one step of the
//! machine of `macsec_ahead` or one reader of its state, for the arguments that C gave. Without a journal that is the
//! machine of `macsec_secy`, except that it forgets the keys that it retires (`command_forgetting`). `macsec_renew_key`
//! is no step of it: a new key takes the place of a retired one, whose octets every later call refuses.
//! `macsec_load_raw` takes several steps, or none. The contract gives the status, what is shown, and what the handle
//! holds after the call (`specs/Answers.antt`, `specs/Found.antt`). A reader that finds nothing leaves its output
//! unchanged. `macsec_configure_raw` creates the endpoint of a text's lines, as `parse_config` reads them, after the
//! steps of all their commands, or none; `macsec_command_line_raw` is the step of a line's command
//! (`specs/Texts.antt`). `macsec_parse_line_raw` gives the row of a line's command, which `macsec_carry_out` carries
//! out as that call does (`specs/RowLaws.antt`, and `specs/Parsing.antt` of `macsec_c_values`). `macsec_answer_raw`
//! gives the answer of `macsec_c_calls` to a line (`specs/Answering.antt`). A handle without an endpoint is refused
//! first, then numbers and lengths that name nothing, with separate statuses. A returned frame is in the endpoint or is
//! the caller's, and the endpoint's state after the borrow is known. A handle owns its endpoint: `macsec_free_raw`
//! leaves a handle without one, and nothing is used after it is freed, or freed twice. No clause says that the memory
//! is given back.
//!
//! A key and a slot have handles of their own (`specs/HeldJobs.antt`). A plan and the end of a reception are one step
//! each, with the answers of `macsec_send_raw` and `macsec_receive_raw`; the frame of the answer is what the slot's job
//! makes, once, under the key of the plan. This holds for every slot and key that is given to a call.
//!
//! A journal as a file has a handle too (`specs/HeldJournals.antt`). An order, an answer and a name that is let go are
//! one step each of the machine of `macsec_journal`, or are refused and change nothing.
//!
//! `macsec_seal_raw` has no handle: it seals a frame for a test as `protect_in_place` would, whatever its SecTAG is
//! (`specs/Sealing.antt` of `macsec_c_values`).
//!
//! `macsec_prefer_wide` is not in the header: the library's own part in C calls it. It changes no state, and says how
//! many blocks the cipher takes at once.
//!
//! No export has a `requires`. The caller in C has to ensure what references and handles mean. Each pointer leads to a
//! value of its type, or to as many octets as the length beside it says, and nothing else points there. A handle begins
//! as zeros, and only these calls write to it.
#![tactic(auto)]

mod answering;
mod commands;
mod configuring;
mod creating;
mod endpoint;
mod jobs;
mod journal;
mod journals;
mod key;
pub mod laws;
mod loading;
mod loose;
mod parsing;
mod receiving;
mod renewing;
mod reserving;
mod sealing;
mod sending;
mod showing;
mod slot;
mod version;
mod wide;
