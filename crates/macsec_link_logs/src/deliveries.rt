//! The frames delivered from each receive SA (secure association) of an end, and the table of the live logs.

ghost use Rattle.std.specs.Prelude.{◌≡◌, ◌<◌, ◌≤◌, All, [], filter, find, true, OnErr, OnOk, map, vec_capacity, vec_len};
ghost use Rattle.macsec_rx.specs.Channels.{same_sci};
ghost use Rattle.macsec_link_logs.specs.Logs.{is_live_at, log_closing, log_delivering, logs_after_command, logs_delivering, makes_log, with_first};
ghost use Rattle.macsec_link_logs.specs.Kept.{frames_kept};
ghost use Rattle.macsec_link_logs.specs.Places.{HasPlaceAt, live_places, logs_of, passes_at};

use macsec_secy::{An, Command, KeyNumber, Sci};
use std::alloc::{AllocError, Global};
use std::marker::Model;

/// The log of a receive SA: its SC, its number, its key, whether the SA still exists, and the frames delivered from it.
#[derive(Drop)]
pub(crate) struct Deliveries {
    sci: Sci,
    an: An,
    key: KeyNumber,
    live: bool,
    frames: Vec<Vec<u8>>,
}

impl Model for Deliveries {
    ghost use Rattle.std.specs.Prelude.{◌-◌, vec_capacity, vec_len};
    ghost use Rattle.macsec_link_logs.specs.Kept.{frames_kept};
    ghost use Rattle.macsec_link_logs.specs.Places.{KeptLog};

    ghost Value = { KeptLog };

    ghost view = { λ d. record {
      log = record { sci = d.sci; an = d.an; key = d.key; live = d.live; frames = frames_kept d.frames.items };
      spare = vec_capacity d.frames - vec_len d.frames;
    } };
}

impl Deliveries {
    fn new(alloc: Global, sci: Sci, an: An, key: KeyNumber) -> Deliveries
        ensures { result.log ≡ record { sci = sci; an = an; key = key; live = true; frames = [] } }
    {
        Deliveries {
            sci,
            an,
            key,
            live: true,
            frames: Vec::new(alloc),
        }
    }

    pub(crate) fn frames(&self) -> &[Vec<u8>]
        ensures { frames_kept result.now ≡ self.now.log.frames }
    {
        self.frames.as_slice()
    }

    /// Whether this is the log of the existing SA with this SC and number.
    fn is_live_at(&self, sci: Sci, an: u8) -> bool
        ensures { result ≡ is_live_at sci an self.now.log }
    {
        self.live && self.sci == sci && self.an.number() == an
    }

    /// Reserves capacity for one more frame.
    fn reserve_place(&mut self) -> Result<(), AllocError>
        ensures same { self.new.log ≡ self.old.log }
        ensures place { OnOk result (1 ≤ self.new.spare) }
    {
        self.frames.reserve(1)
    }

    /// Adds a frame, for which capacity is reserved.
    fn push(&mut self, frame: Vec<u8>)
        requires place { 1 ≤ self.old.spare }
        ensures { self.new.log ≡ log_delivering frame.items self.old.log }
    {
        self.frames.push(frame).unwrap();
    }

    /// Closes this log if it belongs to the existing SA with this SC and number.
    fn close_at(&mut self, sci: Sci, an: u8)
        ensures { self.new.log ≡ log_closing (is_live_at sci an) self.old.log }
    {
        if self.is_live_at(sci, an) {
            self.live = false;
        }
    }

    /// Closes this log if its SA belongs to this SC.
    fn close_in(&mut self, sci: Sci)
        ensures { self.new.log ≡ log_closing (λ log. same_sci log.sci sci) self.old.log }
    {
        if self.sci == sci {
            self.live = false;
        }
    }
}

/// Reserves capacity for one more frame in each live log.
pub(crate) fn reserve_live(logs: &mut Vec<Deliveries>, live: &[usize]) -> Result<(), AllocError>
    requires live { live.now ≡ live_places (logs_of logs.old.items) }
    ensures same { logs_of logs.new.items ≡ logs_of logs.old.items }
    ensures places { OnOk result (All (HasPlaceAt logs.new.items) live.now) }
{
    for &place in live {
        logs[place].reserve_place()?;
    }
    Ok(())
}

/// Whether the log at this index belongs to the existing SA with this SC and number.
fn is_live_at(logs: &[Deliveries], place: usize, sci: Sci, an: u8) -> bool
    ensures { result ≡ passes_at (is_live_at sci an) (logs_of logs.now) place }
{
    match logs.get(place) {
        Some(log) => log.is_live_at(sci, an),
        None => false,
    }
}

/// The index of that SA's log, if the table of live logs has it.
fn place_of(logs: &[Deliveries], live: &[usize], sci: Sci, an: u8) -> Option<usize>
    ensures { result ≡ find (passes_at (is_live_at sci an) (logs_of logs.now)) live.now }
{
    live.iter()
        .find(|place| is_live_at(logs, **place, sci, an))
        .copied()
}

/// Adds a frame to the log of the existing SA with this SC and number.
fn push_first(logs: &mut Vec<Deliveries>, live: &[usize], sci: Sci, an: u8, frame: Vec<u8>)
    requires live { live.now ≡ live_places (logs_of logs.old.items) }
    requires places { All (HasPlaceAt logs.old.items) live.now }
    ensures { logs_of logs.new.items ≡ with_first (is_live_at sci an) (log_delivering frame.items) (logs_of logs.old.items) }
{
    match place_of(logs.as_slice(), live, sci, an) {
        Some(place) => logs[place].push(frame),
        None => (),
    }
}

/// Adds a delivered frame to the log of its SA, if it has one.
pub(crate) fn push_delivered(
    logs: &mut Vec<Deliveries>,
    live: &[usize],
    row: Option<(Sci, u8)>,
    frame: Vec<u8>,
)
    requires live { live.now ≡ live_places (logs_of logs.old.items) }
    requires places { All (HasPlaceAt logs.old.items) live.now }
    ensures { logs_of logs.new.items ≡ logs_delivering row frame.items (logs_of logs.old.items) }
{
    match row {
        Some((sci, an)) => push_first(logs, live, sci, an, frame),
        None => (),
    }
}

/// Closes the log of the SA with this SC and number.
fn close_at(logs: &mut Vec<Deliveries>, live: &[usize], sci: Sci, an: u8)
    requires live { live.now ≡ live_places (logs_of logs.old.items) }
    ensures { logs_of logs.new.items ≡ map (log_closing (is_live_at sci an)) (logs_of logs.old.items) }
{
    for &place in live {
        logs[place].close_at(sci, an);
    }
}

/// Closes the logs of the SAs of this SC.
fn close_in(logs: &mut Vec<Deliveries>, live: &[usize], sci: Sci)
    requires live { live.now ≡ live_places (logs_of logs.old.items) }
    ensures { logs_of logs.new.items ≡ map (log_closing (λ log. same_sci log.sci sci)) (logs_of logs.old.items) }
{
    for &place in live {
        logs[place].close_in(sci);
    }
}

fn is_live(logs: &[Deliveries], place: usize) -> bool
    ensures { result ≡ passes_at (λ log. log.live) (logs_of logs.now) place }
{
    match logs.get(place) {
        Some(log) => log.live,
        None => false,
    }
}

/// Removes the indices of logs that are no longer live from the table.
fn leave_live(live: &mut Vec<usize>, logs: &[Deliveries])
    ensures { live.new.items ≡ filter (passes_at (λ log. log.live) (logs_of logs.now)) live.old.items }
{
    live.retain(|place| is_live(logs, *place));
}

/// Reserves capacity for the log of the receive SA that a command creates, if it creates one.
pub(crate) fn reserve_log(
    logs: &mut Vec<Deliveries>,
    live: &mut Vec<usize>,
    command: &Command,
) -> Result<(), AllocError>
    ensures same { logs_of logs.new.items ≡ logs_of logs.old.items }
    ensures live { live.new.items ≡ live.old.items }
    ensures room { OnOk result (makes_log command.now ≡ true → vec_len logs.new < vec_capacity logs.new) }
    ensures live_room { OnOk result (makes_log command.now ≡ true → vec_len live.new < vec_capacity live.new) }
    ensures out_of_memory { OnErr result (makes_log command.now ≡ true) }
{
    match *command {
        Command::RxSa { .. } => {
            live.reserve(1)?;
            logs.reserve(1)
        }
        _ => Ok(()),
    }
}

/// Updates the logs after a command that was carried out: a new SA gets a log, and the logs of deleted SAs are closed.
pub(crate) fn follow_command(
    logs: &mut Vec<Deliveries>,
    live: &mut Vec<usize>,
    alloc: Global,
    command: &Command,
)
    requires room { makes_log command.now ≡ true → vec_len logs.old < vec_capacity logs.old }
    requires live_room { makes_log command.now ≡ true → vec_len live.old < vec_capacity live.old }
    requires live { live.old.items ≡ live_places (logs_of logs.old.items) }
    ensures after { logs_of logs.new.items ≡ logs_after_command command.now (logs_of logs.old.items) }
    ensures live { live.new.items ≡ live_places (logs_of logs.new.items) }
{
    match *command {
        Command::RxSa { sci, an, key, .. } => {
            live.push(logs.len()).unwrap();
            logs.push(Deliveries::new(alloc, sci, an, key)).unwrap();
        }
        Command::RxDel(sci, an) => {
            close_at(logs, live.as_slice(), sci, an.number());
            leave_live(live, logs.as_slice());
        }
        Command::RxScDel(sci) => {
            close_in(logs, live.as_slice(), sci);
            leave_live(live, logs.as_slice());
        }
        _ => (),
    }
}
