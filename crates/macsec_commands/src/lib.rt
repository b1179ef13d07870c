//! The inputs of an endpoint and of the link: configurations, commands, frames and events.
//!
//! Proved: `EndConfig::fault` is the first fault of a configuration (`specs/Configs.antt`). `is_unfit` says which tag
//! forms do not fit an SCI. A `Frame` is the list of its octets.
#![tactic(auto)]

mod command;
mod config;
mod event;
mod fault;
mod form;
mod frame;
mod mode;

pub use command::Command;
pub use config::{EndConfig, MIN_MAX_FRAME};
pub use event::{End, Event};
pub use fault::NewFault;
pub use form::{TagForm, is_unfit};
pub use frame::Frame;
pub use macsec_aes::Key;
pub use macsec_suite::{KeyNumber, NewKey, Suite};
pub use macsec_tag::{An, MAX_FRAME_LEN, Sci};
pub use mode::Mode;
