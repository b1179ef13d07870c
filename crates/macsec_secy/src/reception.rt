//! Reception of a link frame over the receive SCs (secure channels) and their counters (IEEE 802.1AE, 10.6). The
//! caller has the buffer for the delivered frame.

ghost use Rattle.std.specs.Prelude.{◌≡◌, ◌≢◌, ◌+◌, ◌≤◌, ℕ, List, [], Ok, None, IfOk, IfSome, OnErr, length, map, option_map};
ghost use Rattle.macsec_tag.specs.Limits.{max_frame_len};
ghost use Rattle.macsec_rx.specs.Commands.{HaveRxKeys};
ghost use Rattle.macsec_rx.specs.Judge.{octets_at};
ghost use Rattle.macsec_rx.specs.Rows.{AreChannels};
ghost use Rattle.macsec_secy.specs.Answers.{output_of_received};
ghost use Rattle.macsec_secy.specs.Jobs.{OpensFrame};
ghost use Rattle.macsec_secy.specs.Limited.{IsLimitedStep, output_of_limited, output_of_limited_outcome};
ghost use Rattle.macsec_secy.specs.Outcomes.{ArePartsOf, IsStep, IsWithin, octets_delivered, output_of_outcome};
ghost use Rattle.macsec_secy.specs.Sound.{sci_of_counters};
ghost use Rattle.macsec_secy.specs.State.{State};
ghost use Rattle.macsec_secy.specs.Step.{frame_fault};
ghost use Rattle.macsec_secy.specs.Verdicts.{delivered_untagged, verdict_on_untagged};

use crate::associations::count_at_row;
use crate::{
    An, ChannelCounters, Counters, LimitedReceived, Mode, OpenedFrame, OutsidePn, PnLimits,
    Received, Sci, Verdict,
};
use arrayvec::ArrayVec;
use macsec_rx::{MAX_CHANNEL_COUNT, RxChannels, RxOptions};
use macsec_suite::KeyTable;
use macsec_tag::Read;
use macsec_tag::reading::read;

/// Where the delivered frame is.
#[derive(Clone, Copy)]
pub enum Delivered {
    /// Nothing is delivered.
    Nothing,
    /// The received frame itself is delivered.
    Frame,
    /// The frame at this index of the buffer, with this length.
    At(usize, usize),
}

/// The result for a link frame, without the frames themselves: a delivered frame is the link frame or in a buffer.
#[derive(Clone, Copy)]
pub struct Outcome {
    verdict: Verdict,
    row: Option<(Sci, u8)>,
    delivered: Delivered,
}

impl Outcome {
    /// The result for this frame, with the buffer that `receive_frame` wrote.
    pub(crate) fn received<'a>(&self, frame: &'a [u8], room: &'a [u8]) -> Received<'a>
        requires within { IsWithin self.now.delivered (length room.now) }
        ensures { output_of_received (Ok result) ≡ output_of_outcome self.now frame.now room.now }
    {
        let controlled = match self.delivered {
            Delivered::Nothing => None,
            Delivered::Frame => Some(frame),
            Delivered::At(place, length) => Some(&room[place..place + length]),
        };
        Received {
            verdict: self.verdict,
            row: self.row,
            uncontrolled: frame,
            controlled,
        }
    }
}

/// The result for this frame, with the buffer that `Secy::receive_into` wrote.
pub fn limited_received<'a>(
    outcome: &Result<Outcome, OutsidePn>,
    frame: &'a [u8],
    room: &'a [u8],
) -> LimitedReceived<'a>
    requires within { IfOk outcome.now (λ o. IsWithin o.delivered (length room.now)) }
    ensures { output_of_limited (Ok result) ≡ output_of_limited_outcome outcome.now frame.now room.now }
{
    match outcome {
        Ok(outcome) => LimitedReceived::Received(outcome.received(frame, room)),
        Err(outside) => LimitedReceived::Outside(*outside),
    }
}

/// Receives a frame without a fault. `rx_counters` are the counters of the receive SCs, and `counters` are the
/// endpoint's own. A frame that is delivered from a tagged one is in `out` afterwards. `opened` is what `open_frame`
/// gave for the frame, if anything.
#[inline(always)]
pub(crate) fn receive_frame(
    channels: &mut RxChannels,
    rx_counters: &mut ArrayVec<ChannelCounters, MAX_CHANNEL_COUNT>,
    counters: &mut Counters,
    keys: &KeyTable,
    options: &RxOptions,
    frame: &[u8],
    opened: &Option<OpenedFrame>,
    out: &mut [u8],
) -> Outcome
    requires fits { frame_fault frame.now ≡ None }
    requires sound { AreChannels channels.old }
    requires keys_there { HaveRxKeys keys.now channels.old.rows }
    requires counted { map sci_of_counters rx_counters.old.items ≡ channels.old.scis }
    requires room { max_frame_len ≤ length out.old }
    requires opened { OpensFrame opened.now keys.now frame.now out.old }
    ensures step { (s : State) → ArePartsOf s options.now keys.now channels.old rx_counters.old.items counters.old → IsStep s frame.now out.new result channels.new rx_counters.new.items counters.new }
    ensures within { IsWithin result.delivered (length out.new) }
    ensures channels { AreChannels channels.new }
{
    match receive_frame_within(
        channels,
        rx_counters,
        counters,
        keys,
        options,
        &[],
        frame,
        opened,
        out,
    ) {
        Ok(outcome) => outcome,
        Err(_) => unreachable!(),
    }
}

/// Receives a frame without a fault, as `receive_frame` does, but accepts a packet number only within limits: `limits`
/// has those of each SA, in the order of the SAs.
///
/// Errors: the frame is valid, and its packet number is outside the limits. Then nothing changes except `out`.
#[inline(always)]
pub(crate) fn receive_frame_within(
    channels: &mut RxChannels,
    rx_counters: &mut ArrayVec<ChannelCounters, MAX_CHANNEL_COUNT>,
    counters: &mut Counters,
    keys: &KeyTable,
    options: &RxOptions,
    limits: &[PnLimits],
    frame: &[u8],
    opened: &Option<OpenedFrame>,
    out: &mut [u8],
) -> Result<Outcome, OutsidePn>
    requires fits { frame_fault frame.now ≡ None }
    requires sound { AreChannels channels.old }
    requires keys_there { HaveRxKeys keys.now channels.old.rows }
    requires counted { map sci_of_counters rx_counters.old.items ≡ channels.old.scis }
    requires room { max_frame_len ≤ length out.old }
    requires opened { OpensFrame opened.now keys.now frame.now out.old }
    ensures step { (s : State) → ArePartsOf s options.now keys.now channels.old rx_counters.old.items counters.old → IsLimitedStep s limits.now frame.now out.new result channels.new rx_counters.new.items counters.new }
    ensures unlimited { OnErr result (limits.now ≢ []) }
    ensures within { IfOk result (λ o. IsWithin o.delivered (length out.new)) }
    ensures channels { AreChannels channels.new }
{
    match read(frame) {
        Read::Untagged => {
            let verdict = verdict_on_untagged(options.mode);
            counters.count_packet(verdict);
            Ok(Outcome {
                verdict,
                row: None,
                delivered: delivered_untagged(options.mode),
            })
        }
        Read::Bad(_) => {
            counters.count_packet(Verdict::BadTag);
            Ok(Outcome {
                verdict: Verdict::BadTag,
                row: None,
                delivered: Delivered::Nothing,
            })
        }
        Read::Tagged(mpdu) => {
            let judged = channels.judge_within(keys, options, limits, &mpdu, opened, out)?;
            let octets = mpdu.secure_data().len() as u64;
            counters.count_tagged(options.mode, judged.verdict, mpdu.tag().e(), octets);
            count_at_row(rx_counters.as_mut_slice(), &judged);
            Ok(Outcome {
                verdict: judged.verdict,
                row: sci_and_number(judged.row),
                delivered: delivered_in_buffer(judged.delivered),
            })
        }
    }
}

/// The verdict on an untagged frame.
fn verdict_on_untagged(mode: Mode) -> Verdict
    ensures { result ≡ verdict_on_untagged mode }
{
    match mode {
        Mode::Strict => Verdict::NoTag,
        Mode::Check | Mode::Disabled => Verdict::Untagged,
    }
}

/// What is delivered for an untagged frame: the frame itself, or nothing.
fn delivered_untagged(mode: Mode) -> Delivered
    ensures octets { (frame room : List ℕ) → octets_delivered result frame room ≡ delivered_untagged mode frame }
    ensures within { (room_length : ℕ) → IsWithin result room_length }
{
    match mode {
        Mode::Strict => Delivered::Nothing,
        Mode::Check | Mode::Disabled => Delivered::Frame,
    }
}

/// What is delivered for a tagged frame: octets of the buffer, or nothing.
fn delivered_in_buffer(place: Option<(usize, usize)>) -> Delivered
    ensures octets { (frame room : List ℕ) → octets_delivered result frame room ≡ option_map (octets_at room) place }
    ensures within { (room_length : ℕ) → IfSome place (λ at. at.0 + at.1 ≤ room_length) → IsWithin result room_length }
{
    match place {
        Some((index, length)) => Delivered::At(index, length),
        None => Delivered::Nothing,
    }
}

/// An SA as its SCI and its association number.
fn sci_and_number(row: Option<(Sci, An)>) -> Option<(Sci, u8)>
    ensures { result ≡ row }
{
    let (sci, an) = row?;
    Some((sci, an.number()))
}
