//! An end: an endpoint with the logs of what its clients sent and of what was delivered.
//!
//! Proved: `EndLogs::new` returns an end in the machine's first state with empty logs, or the fault of the
//! configuration exactly if it has one, or `Memory`. `command`, `send` and `receive` are one step of the machine, and
//! leave the logs as `specs/Logs.antt` says. A protected client frame is in the log of its key, which starts with the
//! first such frame. A frame delivered from an SA (secure association) is in the SA's live log. A new SA has a new log,
//! and the log of a deleted one is closed. No other log changes. If they run out of memory, they leave the end
//! unchanged; of the commands only `RxSa` can. `send` and `receive` require a frame of 14 to 9,248 octets. `IsSoundEnd`
//! holds of an end at all times. `secy`, `sent` and `delivered` read the end.
#![tactic(auto)]

mod deliveries;
mod end;
mod sent;

pub use end::{Departure, EndLogs, Hearing};
pub use macsec_commands::Frame;
