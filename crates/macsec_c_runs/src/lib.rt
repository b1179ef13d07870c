//! Several runs of endpoints of the library for C, each a list of calls, beside their journals. Each law is the
//! contract of a function that does nothing. `make_run` makes a run: it opens an endpoint and makes any calls of the
//! library.
//!
//! Proved, over all runs and crashes of endpoints whose keys are installed by commands and as renewals (`laws`). Each
//! run is one (`IsRun`): its endpoint is sound at each moment. Each run that `make_run` makes is one, by its contract.
//! - `no_iv_over_calls`, `no_iv_at_both_over_calls`: no two frames that an end, or two ends, send have the same key
//!   octets and the same IV.
//! - `numbers_rise_over_calls`: the packet numbers that are used under the octets of a key rise.
//! - `comes_from_other_over_calls`: what an end delivers on an SA was sent by the other end.
//! - `comes_in_order_over_calls`: it is delivered in the order of sending, each frame at most once.
//! - `never_delivers_again_over_calls`: what a run accepted and saved is not delivered again.
//! - `delivers_above_over_calls`: within one run, at a replay window of 0, what is delivered from an SA has a higher
//!   packet number than all that was accepted from it before. So no frame is accepted twice.
//!
//! These do not ask `IsRun`:
//! - `accepts_above_over_calls`: with `ahead`, a run that reads what earlier runs accepted from an SA accepts only
//!   higher packet numbers from it.
//! - `begins_above_its_end_over_calls`: an SA that is deleted begins above its end.
//! - `lists_each_delivery_over_calls`, `seals_each_frame_over_calls`: what is delivered and sealed is listed.
//! - `gives_out_over_calls`: the frames that a whole run gives out are those in the lists.
//!
//! The calls are those of `macsec_c_calls`. A command can come as a call of its own, a line, a struct or an answer; the
//! commands of the text of `macsec_reserve_configure` are the first calls; a frame is sent or planned, received or
//! finished; a load is a list (`loads_are_calls` there). Other exports change no endpoint.
//!
//! The proofs cite the laws of `macsec_restarts`, in which each key is installed as a renewal. A command that is not
//! refused is such a renewal, and a refused one is a renewal that is refused (`proofs/AsRenewals.antt`).
//!
//! Two worked runs meet all premises on what is sent (`proofs/Examples.antt`): one installs its key by a command, the
//! other as a renewal. A run of each end meets all premises of order (`proofs/TwoEndsMet.antt`).
#![tactic(auto)]

mod calling;
pub mod laws;
mod made;

pub use calling::{MadeCall, make_call};
pub use made::make_run;
