//! Two ends that both restart, over a link that may lose, repeat, reorder, change and inject frames. There is no code:
//! each law is the contract of a function that does nothing.
//!
//! The laws are about endpoints that renew keys, as the library for C makes them: a run may have more keys than its
//! table has rows, and the octets of retired keys are forgotten. Each run has the option to reserve packet numbers
//! ahead of receiving (`macsec_ahead`), or it does not. Proved over all runs and crashes (`laws`), where each later run
//! reads what was used, delivered or saved before, under the names that it uses; other names may be lost:
//! - `no_iv_if_used_is_kept_renewing`: over all runs no two frames are sealed with the same key octets and the same IV.
//! - `numbers_rise_if_used_is_kept_renewing`: the packet numbers that are used under the octets of a key rise.
//! - `accepts_above_if_kept_renewing`: a later run with the option accepts only higher packet numbers than an earlier
//!   run accepted.
//! - `no_iv_at_both_renewing`: over all runs of both ends no two frames have the same key octets and the same IV.
//! - `comes_from_other_renewing`: what a strictly validating end delivers from an SA was sent before by the other end,
//!   whatever the journals are.
//! - `comes_in_order_if_kept_renewing`: it is delivered in the order of sending, each frame at most once.
//! - `never_delivers_again_renewing`: what was saved is not delivered again.
//! - `rises_on_disk_renewing`: over the journal of `macsec_journal`, on a disk that fails, what a later run sends and
//!   accepts has higher packet numbers, whatever other names were let go.
//! - `keeps_used_on_disk`: over it, a later run reads what was sent and accepted before, under each name that stays.
//! - `no_iv_on_disk`, `no_iv_at_both_on_disk`, `comes_in_order_on_disk`: the promises above over it, with no premise on
//!   what a later run reads.
//!
//! Proved of each step:
//! - `seals_each_frame_renewing`: each protected frame that leaves is one use of the cipher, has its octets, and is
//!   listed.
//! - `lists_each_delivery_renewing`: what is delivered from a receive SA is listed once; in Strict nothing else is
//!   delivered at the controlled port.
//! - `begins_above_its_end_renewing`: an SA that was deleted begins above its end, unless its key is retired.
//! - `is_keeping_inside`: a frame takes the step of the keeping endpoint inside, or nothing changes.
//! - `accepts_in_time`: a frame of one run is accepted by a run of the other end.
//! - `accepts_once_reserved`: a frame that was dropped asks for a record, and passes once the record is durable.
//!
//! Proved of each run:
//! - `delivers_above_accepted`: at a replay window of 0, what is delivered from an SA has a higher packet number than
//!   all that was accepted from it before. So no frame is accepted twice.
//! - `gives_out_what_is_listed`: the frames that it gives out are those in the lists.
//!
//! `proofs/Examples/` has runs that meet all premises of `comes_in_order_if_kept_renewing`, with the lists of what was
//! sent and delivered, also runs with a renewed key of 32 octets, and runs over two journals on disks that meet those
//! of `comes_in_order_on_disk`. In `Handover.antt` the sender's second run reads all packet numbers that were sent, but
//! not all that were reported durable. For each premise of the first, except that link frames are octets, it has runs
//! that meet the others and break order. It uses the worked runs of `macsec_counterexamples`.
//!
//! Trusted: a later run reads what was used, delivered or saved before, except over the journal of `macsec_journal`;
//! and no ICV is forged.
#![tactic(auto)]

pub mod laws;
