//! Callers of the endpoint, of the cipher, of the reader of frames, of two ends over a link, of scripts, of captures and
//! of a law, as `docs/reference` shows them.
//!
//! Proved, from the contracts of what they call: what is sealed and opened; the packet number and SCI of a frame; and
//! that sending or receiving a frame is one step of the machine. The endpoints that `sender` and `receiver` create are
//! in the machine's state after their commands, one step for each. The four promises hold of each script that
//! `text_of_script` runs. `ends_keep_order` has the law of two ends that both reserve ahead. The callers in `captures`,
//! `world_after` and `text_of_reader` have no clause: they are safe and end.
#![tactic(auto)]

pub mod captures;
pub mod cipher;
pub mod endpoint;
pub mod frames;
pub mod laws;
pub mod links;
