//! An endpoint beside a journal that can also reserve packet numbers ahead of receiving. With this option it accepts a
//! packet number only if a durable record already says that it may have been accepted. With and without it, the
//! endpoint remembers at which packet numbers the receive SAs (secure associations) ended that it deleted.
//!
//! Proved: each call of an `AheadKeeper` is one step of the endpoint of `specs/Ahead.antt`, result and state;
//! `command_forgetting` is the step of `command` that also forgets the octets of a key that it retires. A frame that is
//! dropped because its packet number is not reserved changes nothing. It is dropped as soon as its ICV is found valid:
//! the limits of each receive SA are made after each command, and when something is reported durable.
//! `wanted_to_accept` returns the reservation to make durable next, and `rx_floor` the number above which an SA can
//! begin. An `EndTable` is the table of `specs/Ends.antt`. After the creation of the endpoint no call allocates, except
//! `renew_key`, which installs a key also under the number of a retired one, and `load`, which carries out commands all
//! or none (`specs/Loading.antt`): it works on a copy, which nothing else sees. After that `command_renewing` refuses
//! the octets of keys whose row a new key took; before, it is `command_forgetting` (`specs/Renewing.antt`).
//!
//! The laws of this endpoint over restarts are in `macsec_restarts`. Those with `renewing` in their names are about
//! runs that renew keys. `is_keeping_inside` says which steps of the keeping endpoint it takes.
#![tactic(auto)]

mod ends;
mod keeper;
mod loading;

pub use ends::{EndTable, EndedKey, EndedSa};
pub use keeper::AheadKeeper;
pub use macsec_secy::{LimitedReceived, OutsidePn, RxPn};
