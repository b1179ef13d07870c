//! The frames that an end's clients sent under each key.

ghost use Rattle.std.specs.Prelude.{◌≡◌, ◌<◌, ◌≤◌, ◌==◌, ℕ, [], true, length, IfSome, OnOk, Some};
ghost use Rattle.macsec_tx.specs.Transmit.{tx_row};
ghost use Rattle.macsec_link_logs.specs.Kept.{AreOfKeys, HasPlace, HavePlaces, IsFound, frames_kept, sent_logs_of};
ghost use Rattle.macsec_link_logs.specs.Logs.{log_sending, logs_sending, sent_under};

use macsec_secy::{An, Secy};
use std::alloc::{AllocError, Global};
use std::marker::Model;
use std::mem;

/// The number of association numbers of a transmit SC.
const AN_COUNT: u8 = 4;

/// The log of a key: the key's number, and the frames sent under it.
#[derive(Drop)]
struct SentFrames {
    key: u16,
    frames: Vec<Vec<u8>>,
}

impl Model for SentFrames {
    ghost use Rattle.std.specs.Prelude.{◌-◌, vec_capacity, vec_len};
    ghost use Rattle.macsec_link_logs.specs.Kept.{KeptSentLog, frames_kept};

    ghost Value = { KeptSentLog };

    ghost view = { λ s. record {
      log = record { key = s.key; frames = frames_kept s.frames.items };
      spare = vec_capacity s.frames - vec_len s.frames;
    } };
}

impl SentFrames {
    fn frames(&self) -> &[Vec<u8>]
        ensures { frames_kept result.now ≡ self.now.log.frames }
    {
        self.frames.as_slice()
    }

    /// Whether this is the log of the key with this number.
    fn is_under(&self, key: u16) -> bool
        ensures { result ≡ (self.now.log.key == key) }
    {
        self.key == key
    }

    /// Reserves capacity for one more frame.
    fn reserve_place(&mut self) -> Result<(), AllocError>
        ensures same { self.new.log ≡ self.old.log }
        ensures kept { self.old.spare ≤ self.new.spare }
        ensures place { OnOk result (1 ≤ self.new.spare) }
    {
        self.frames.reserve(1)
    }

    /// Adds a frame, for which capacity is reserved.
    fn push(&mut self, frame: Vec<u8>)
        requires place { 1 ≤ self.old.spare }
        ensures { self.new.log ≡ log_sending frame.items self.old.log }
    {
        self.frames.push(frame).unwrap();
    }
}

/// The index of the log of the key with this number, if it exists. The search begins at the last log, because an
/// endpoint mostly sends under its newest key.
fn place_of(logs: &[SentFrames], key: u16) -> Option<usize>
    requires { AreOfKeys logs.now }
    ensures found { IsFound key logs.now result }
    ensures within { IfSome result (λ place. place < length logs.now) }
{
    let mut place = logs.len();
    while place > 0 {
        place -= 1;
        if logs[place].is_under(key) {
            return Some(place);
        }
    }
    None
}

/// The number of the key of the transmit SA with this number, if the SA exists and is enabled.
fn key_in_use(secy: &Secy, number: u8) -> Option<u16>
    requires there { number < 4 }
    ensures { IfSome (tx_row secy.now.tx number) (λ row. row.on ≡ true → result ≡ Some row.key) }
{
    let an = An::new(number)?;
    let row = secy.tx_row(an)?;
    if row.on { Some(row.key.number()) } else { None }
}

/// A log for each key under which a frame was sent, in the order of first use; and reserved capacity for the first
/// frame of the next log.
#[derive(Drop)]
pub(crate) struct SentLogs {
    logs: Vec<SentFrames>,
    next: Vec<Vec<u8>>,
}

impl Model for SentLogs {
    ghost use Rattle.std.specs.Prelude.{◌≡◌, ◌-◌, [], min, vec_capacity, vec_len};
    ghost use Rattle.macsec_link_logs.specs.Kept.{AreOfKeys, KeptSentLogs};

    ghost Value = { KeptSentLogs };

    ghost view = { λ s. record {
      logs = s.logs.items;
      spare = min (vec_capacity s.logs - vec_len s.logs) (vec_capacity s.next - vec_len s.next);
    } };

    // The next log has no frame yet, and no two logs belong to the same key.
    ghost invariant = { λ s. (s.next.items ≡ []) × AreOfKeys s.logs.items };
}

impl SentLogs {
    /// Creates empty logs.
    pub(crate) fn new(alloc: Global) -> SentLogs
        ensures { sent_logs_of result ≡ [] }
    {
        SentLogs {
            logs: Vec::new(alloc),
            next: Vec::new(alloc),
        }
    }

    /// The frames under the key with this number, in order.
    pub(crate) fn frames(&self, key: u16) -> &[Vec<u8>]
        ensures { frames_kept result.now ≡ sent_under (sent_logs_of self.now) key }
    {
        match place_of(self.logs.as_slice(), key) {
            Some(place) => self.logs[place].frames(),
            None => &[],
        }
    }

    /// Reserves capacity for one more frame under this key: in its log, or in a new one if it has none.
    fn reserve_under(&mut self, key: u16) -> Result<(), AllocError>
        ensures same { sent_logs_of self.new ≡ sent_logs_of self.old }
        ensures place { OnOk result (HasPlace self.new key) }
        ensures others { (k : ℕ) → HasPlace self.old k → HasPlace self.new k }
    {
        match place_of(self.logs.as_slice(), key) {
            Some(place) => self.logs[place].reserve_place(),
            None => {
                self.logs.reserve(1)?;
                self.next.reserve(1)
            }
        }
    }

    /// Reserves capacity for one more frame under the key of the enabled transmit SA.
    pub(crate) fn reserve_places(&mut self, secy: &Secy) -> Result<(), AllocError>
        ensures same { sent_logs_of self.new ≡ sent_logs_of self.old }
        ensures places { OnOk result (HavePlaces secy.now.tx self.new) }
    {
        for number in 0..AN_COUNT {
            if let Some(key) = key_in_use(secy, number) {
                self.reserve_under(key)?;
            }
        }
        Ok(())
    }

    /// Adds a frame under this key, for which capacity is reserved.
    pub(crate) fn push(&mut self, alloc: Global, key: u16, frame: Vec<u8>)
        requires place { HasPlace self.old key }
        ensures { sent_logs_of self.new ≡ logs_sending key frame.items (sent_logs_of self.old) }
    {
        match place_of(self.logs.as_slice(), key) {
            Some(place) => self.logs[place].push(frame),
            None => {
                let mut frames = mem::replace(&mut self.next, Vec::new(alloc));
                frames.push(frame).unwrap();
                self.logs.push(SentFrames { key, frames }).unwrap();
            }
        }
    }
}
