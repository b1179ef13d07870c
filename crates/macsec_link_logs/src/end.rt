//! An end: its endpoint, the frames that its clients sent under each key, and those delivered from each receive SA.

ghost use Rattle.std.specs.Prelude.{◌≡◌, ℕ, List, true, IfOk, None, OnErr, option_map, slice_get};
ghost use Rattle.std.specs.Borrow.{Bor};
ghost use Rattle.std.specs.Global.{Vec};
ghost use Rattle.macsec_secy.specs.Step.{client_frame, frame_fault, operator_command};
ghost use Rattle.macsec_secy.specs.Answers.{output_of_command};
ghost use Rattle.macsec_link_logs.specs.Answers.{EndHappens, HasHeard, HasLengths, MakesEnd, output_of_departure};
ghost use Rattle.macsec_link_logs.specs.Kept.{frames_kept};
ghost use Rattle.macsec_link_logs.specs.Logs.{DeliveryLog, makes_log, sent_under};
ghost use Rattle.macsec_link_logs.specs.Sound.{IsSoundEnd};

use crate::Frame;
use crate::deliveries::{Deliveries, follow_command, push_delivered, reserve_live, reserve_log};
use crate::sent::SentLogs;
use macsec_secy::laws::{lengths_of_frames, lengths_of_protected_frames};
use macsec_secy::{
    Command, DropReason, EndConfig, KeyNumber, NewFault, Received, Refusal, Secy, Sent, Verdict,
};
use std::alloc::{AllocError, Global};
use std::marker::Model;

/// The most octets that protection adds: a SecTAG with its SCI, and the ICV.
const MOST_ADDED: usize = 32;

/// An end of the link: an endpoint (SecY), and the logs of what its clients sent under each key and of what was
/// delivered from each receive SA (secure association). The logs of deliveries are in the order in which the SAs were
/// created. A log is live while its SA exists, and `live` has the indices of the live ones.
#[derive(Drop)]
pub struct EndLogs {
    secy: Secy,
    sent: SentLogs,
    delivered: Vec<Deliveries>,
    live: Vec<usize>,
}

/// The result for a client frame at an end: it is sent on the link, or dropped.
#[derive(Drop)]
pub enum Departure {
    /// This frame is sent, protected under the key with this number, 0 to 4,095, or unchanged.
    Link { frame: Frame, under: Option<u16> },
    /// Nothing is sent, for this reason.
    Dropped(DropReason),
}

/// The result for a link frame that an end receives: the verdict on it, and the frame delivered at the controlled port,
/// if any.
#[derive(Drop)]
pub struct Hearing {
    pub verdict: Verdict,
    pub controlled: Option<Frame>,
}

impl Model for EndLogs {
    ghost use Rattle.macsec_link_logs.specs.Kept.{sent_logs_of};
    ghost use Rattle.macsec_link_logs.specs.Places.{IsKeptEnd, logs_of};
    ghost use Rattle.macsec_link_logs.specs.Ends.{EndState};

    ghost Value = { EndState };

    ghost view = { λ e. record { state = e.secy; sent = sent_logs_of e.sent; delivered = logs_of e.delivered.items } };

    // The endpoint is sound, each receive SA has its live log, and the table has the indices of these logs.
    ghost invariant = { λ e. IsKeptEnd (record { state = e.secy; sent = sent_logs_of e.sent; delivered = logs_of e.delivered.items }) e.live.items };
}

impl EndLogs {
    /// Creates an end, or returns the fault of its configuration, or `Memory`. `wide` is what `Secy::prefer_wide` takes.
    pub fn new(alloc: Global, wide: bool, config: EndConfig) -> Result<EndLogs, NewFault>
        ensures made { MakesEnd config result }
        ensures sound { IfOk result IsSoundEnd }
    {
        let mut secy = Secy::new(alloc, config)?;
        secy.prefer_wide(wide);
        Ok(EndLogs {
            secy,
            sent: SentLogs::new(alloc),
            delivered: Vec::new(alloc),
            live: Vec::new(alloc),
        })
    }

    /// Carries out a management command, or refuses it. If the command creates a receive SA, capacity for its log is
    /// reserved first: an end that is out of memory stays unchanged.
    pub fn command(
        &mut self,
        alloc: Global,
        command: &Command,
    ) -> Result<Result<(), Refusal>, AllocError>
        ensures happens { IfOk result (λ answer. EndHappens self.old (operator_command command.now) (output_of_command answer) self.new) }
        ensures unchanged { OnErr result (self.new ≡ self.old) }
        ensures out_of_memory { OnErr result (makes_log command.now ≡ true) }
        ensures sound { IsSoundEnd self.new }
    {
        reserve_log(&mut self.delivered, &mut self.live, command)?;
        match self.secy.command(command) {
            Ok(()) => {
                follow_command(&mut self.delivered, &mut self.live, alloc, command);
                Ok(Ok(()))
            }
            Err(refusal) => Ok(Err(refusal)),
        }
    }

    /// Sends a client frame from the controlled port. The memory for all that it adds is reserved first: an end that is
    /// out of memory stays unchanged.
    pub fn send(&mut self, alloc: Global, frame: &[u8]) -> Result<Departure, AllocError>
        requires fits { frame_fault frame.now ≡ None }
        ensures happens { IfOk result (λ d. EndHappens self.old (client_frame frame.now) (output_of_departure d) self.new) }
        ensures most { IfOk result HasLengths }
        ensures unchanged { OnErr result (self.new ≡ self.old) }
        ensures sound { IsSoundEnd self.new }
    {
        // The proof cites these laws.
        lengths_of_frames();
        lengths_of_protected_frames();
        let _count = self.delivered.len();
        let copy = frame.to_vec(alloc)?;
        let mut link_frame = Vec::with_capacity(alloc, frame.len() + MOST_ADDED)?;
        self.sent.reserve_places(&self.secy)?;
        match self.secy.send(frame) {
            Ok(
                Sent::Link {
                    frame: lent,
                    under: Some(key),
                },
            ) => {
                link_frame.extend_from_slice(lent).unwrap();
                self.sent.push(alloc, key, copy);
                let frame = Frame::new(link_frame);
                let under = Some(key);
                Ok(Departure::Link { frame, under })
            }
            Ok(
                Sent::Link {
                    frame: lent,
                    under: None,
                },
            ) => {
                link_frame.extend_from_slice(lent).unwrap();
                let frame = Frame::new(link_frame);
                let under = None;
                Ok(Departure::Link { frame, under })
            }
            Ok(Sent::Dropped(reason)) => Ok(Departure::Dropped(reason)),
            Err(_) => unreachable!(),
        }
    }

    /// Receives a link frame. Returns the verdict and the frame delivered at the controlled port, which is also added
    /// to the log of its SA. The memory for both is reserved first: an end that is out of memory stays unchanged.
    pub fn receive(&mut self, alloc: Global, frame: &[u8]) -> Result<Hearing, AllocError>
        requires fits { frame_fault frame.now ≡ None }
        ensures happens { IfOk result (λ h. HasHeard self.old frame.now h self.new) }
        ensures unchanged { OnErr result (self.new ≡ self.old) }
        ensures sound { IsSoundEnd self.new }
    {
        // The proof cites this law.
        lengths_of_frames();
        let _count = self.delivered.len();
        let mut copy = Vec::with_capacity(alloc, frame.len())?;
        let mut controlled = Vec::with_capacity(alloc, frame.len())?;
        reserve_live(&mut self.delivered, self.live.as_slice())?;
        match self.secy.receive(frame) {
            Ok(
                Received {
                    verdict,
                    row,
                    controlled: Some(lent),
                    ..
                },
            ) => {
                copy.extend_from_slice(lent).unwrap();
                controlled.extend_from_slice(lent).unwrap();
                push_delivered(&mut self.delivered, self.live.as_slice(), row, copy);
                let controlled = Some(Frame::new(controlled));
                Ok(Hearing {
                    verdict,
                    controlled,
                })
            }
            Ok(
                Received {
                    verdict,
                    row: _row,
                    controlled: None,
                    ..
                },
            ) => {
                let controlled = None;
                Ok(Hearing {
                    verdict,
                    controlled,
                })
            }
            Err(_) => unreachable!(),
        }
    }

    /// The endpoint (SecY) of these logs.
    pub fn secy(&self) -> &Secy
        ensures { result.now ≡ self.now.state }
    {
        &self.secy
    }

    /// The client frames that were protected under the key with this number, in order.
    pub fn sent(&self, key: KeyNumber) -> &[Vec<u8>]
        ensures { frames_kept result.now ≡ sent_under self.now.sent key }
    {
        self.sent.frames(key.number())
    }

    /// The frames delivered from the receive SA with this index, from 0 in the order of creation of the SAs, in order.
    pub fn delivered(&self, number: usize) -> Option<&[Vec<u8>]>
        ensures { option_map (λ (fs : Bor (List (Vec ℕ))). frames_kept fs.now) result ≡ option_map (λ (log : DeliveryLog). log.frames) (slice_get self.now.delivered number) }
    {
        let log = self.delivered.get(number)?;
        Some(log.frames())
    }
}
