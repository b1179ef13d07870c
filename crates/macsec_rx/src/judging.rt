//! The verdict on a tagged frame (IEEE 802.1AE, 10.6).

ghost use Rattle.std.specs.Prelude.{◌≡◌, ◌≢◌, ◌≤◌, ◌+◌, ◌&&◌, ℕ, List, [], IfNone, IfOk, IfSome, IsSome, None, OnErr, OnOk, Some, length, option_map, slice_get};
ghost use Rattle.macsec_gcm.specs.Gcm.{max_plaintext_len};
ghost use Rattle.macsec_suite.specs.KeyRows.{InstalledKey, key_row};
ghost use Rattle.macsec_pn.specs.Numbers.{is_late};
ghost use Rattle.macsec_suite.specs.Suites.{iv_of, last_of};
ghost use Rattle.macsec_suite.specs.KeyTables.{HasOwnKey, row_shown};
ghost use Rattle.macsec_tag.specs.Limits.{max_frame_len};
ghost use Rattle.macsec_rx.specs.Limits.{unpadded_length};
ghost use Rattle.macsec_rx.specs.Channels.{with_rx};
ghost use Rattle.macsec_rx.specs.Commands.{HaveRxKeys};
ghost use Rattle.macsec_rx.specs.declared.RxOptions.{RxOptions};
ghost use Rattle.macsec_rx.specs.Judge.{is_bad_number, is_disabled, is_strict, judge_number, judge_opened, judge_row, judge_tagged};
ghost use Rattle.macsec_rx.specs.Judge.{judge_tagged_row, judge_validated, number_of_frame, octets_at, place_of, rows_after};
ghost use Rattle.macsec_rx.specs.Delivered.{IsInPlace, LeavesReceived, frame_with, opened_under};
ghost use Rattle.macsec_rx.specs.Rows.{AreChannels};
ghost use Rattle.macsec_rx.specs.Judged.{ShowsJudgement, ShowsOutcome};
ghost use Rattle.macsec_rx.specs.Index.{row_of_found};
ghost use Rattle.macsec_rx.specs.Opened.{IfOpened, IfOpenedUnder, job_number, job_row, job_tagged};
ghost use Rattle.macsec_rx.specs.Within.{outside, outside_in};

use crate::channels::Found;
use crate::delivering::{deliver_bare, deliver_opened};
use crate::within::outside_found;
use crate::{
    Judged, Mode, OpenJob, OpenedFrame, OutsidePn, PnLimits, RxChannels, RxOptions, RxRow, Verdict,
};
use macsec_suite::{KeyRow, KeyTable, Suite, iv_of};
use macsec_tag::Mpdu;

/// A verdict, and the packet number that is accepted with it, if any. `judge` adds the position of the SC.
#[derive(Clone, Copy)]
pub struct Outcome {
    judged: Judged,
    accepted: Option<u64>,
}

impl Outcome {
    /// A verdict without an SA.
    fn without_row(verdict: Verdict, delivered: Option<(usize, usize)>) -> Outcome
        ensures { result ≡ record { judged = record { verdict = verdict; row = None; channel = 0; delivered = delivered }; accepted = None } }
    {
        Outcome {
            judged: Judged {
                verdict,
                row: None,
                channel: 0,
                delivered,
            },
            accepted: None,
        }
    }

    /// A verdict of an SA.
    fn at_row(
        row: &RxRow,
        verdict: Verdict,
        delivered: Option<(usize, usize)>,
        accepted: Option<u64>,
    ) -> Outcome
        ensures { result ≡ record { judged = record { verdict = verdict; row = Some (row.now.sci, row.now.an); channel = 0; delivered = delivered }; accepted = accepted } }
    {
        Outcome {
            judged: Judged {
                verdict,
                row: Some((row.sci, row.an)),
                channel: 0,
                delivered,
            },
            accepted,
        }
    }
}

impl RxChannels {
    /// Judges a tagged frame of at most `MAX_FRAME_LEN` octets without padding. If its packet number is accepted, the
    /// packet numbers of its SA change. The delivered frame is in `out`, which has `MAX_FRAME_LEN` octets or more. If
    /// nothing is delivered, `out` is unchanged, except that it may begin with the frame as received. The key of each
    /// SA must be in the table. `opened` is what an `OpenJob` gave for the frame, if one was made; it is used if the
    /// frame is still to be opened under the job's key and IV, and ignored otherwise.
    pub fn judge(
        &mut self,
        keys: &KeyTable,
        options: &RxOptions,
        mpdu: &Mpdu<'_>,
        opened: &Option<OpenedFrame>,
        out: &mut [u8],
    ) -> Judged
        requires keys_there { HaveRxKeys keys.now self.old.rows }
        requires opened { IfOpened opened.now keys.now mpdu.now out.old }
        requires frame { unpadded_length mpdu.now ≤ max_frame_len }
        requires room { max_frame_len ≤ length out.old }
        ensures judged { ShowsJudgement result out.new (judge_tagged options.now keys.now self.old mpdu.now) }
        ensures place { IsInPlace result.delivered mpdu.now }
        ensures undelivered { IfNone result.delivered (LeavesReceived out.old out.new mpdu.now) }
        ensures channel { IfSome result.row (λ at. slice_get self.old.scis result.channel ≡ Some at.0) }
        ensures numbers { self.new ≡ record self.old { rows = rows_after options.now.window (judge_tagged options.now keys.now self.old mpdu.now) self.old.rows } }
        ensures channels { AreChannels self.new }
    {
        match self.judge_within(keys, options, &[], mpdu, opened, out) {
            Ok(judged) => judged,
            Err(_) => unreachable!(),
        }
    }

    /// Judges a tagged frame as `judge` does, except that it accepts a packet number only within the limits of its SA
    /// (10.6.2 to 10.6.4). `limits` has the limits of each SA at the SA's index in `rows`. An SA without an entry has no
    /// limits.
    ///
    /// Errors: the ICV is valid, and the packet number is outside the limits. Then nothing changes except `out`, which
    /// may have octets of the plaintext.
    #[inline(always)]
    pub fn judge_within(
        &mut self,
        keys: &KeyTable,
        options: &RxOptions,
        limits: &[PnLimits],
        mpdu: &Mpdu<'_>,
        opened: &Option<OpenedFrame>,
        out: &mut [u8],
    ) -> Result<Judged, OutsidePn>
        requires keys_there { HaveRxKeys keys.now self.old.rows }
        requires opened { IfOpened opened.now keys.now mpdu.now out.old }
        requires frame { unpadded_length mpdu.now ≤ max_frame_len }
        requires room { max_frame_len ≤ length out.old }
        ensures outside { outside_in result ≡ outside limits.now self.old.rows (judge_tagged options.now keys.now self.old mpdu.now) }
        ensures unlimited { OnErr result (limits.now ≢ []) }
        ensures judged { IfOk result (λ judged. ShowsJudgement judged out.new (judge_tagged options.now keys.now self.old mpdu.now)) }
        ensures place { IfOk result (λ judged. IsInPlace judged.delivered mpdu.now) }
        ensures undelivered { IfOk result (λ judged. IfNone judged.delivered (LeavesReceived out.old out.new mpdu.now)) }
        ensures channel { IfOk result (λ judged. IfSome judged.row (λ at. slice_get self.old.scis judged.channel ≡ Some at.0)) }
        ensures numbers { OnOk result (self.new ≡ record self.old { rows = rows_after options.now.window (judge_tagged options.now keys.now self.old mpdu.now) self.old.rows }) }
        ensures unchanged { OnErr result (self.new ≡ self.old) }
        ensures channels { AreChannels self.new }
    {
        let found = self.in_use(mpdu);
        let row = row_of(&found);
        let outcome = judge_tagged_row(keys, options, &row, mpdu, opened, out);
        if let Some(outside) = outside_found(limits, outcome.accepted, &found) {
            return Err(outside);
        }
        self.accept_at(&found, outcome.accepted, options.window);
        Ok(Judged {
            channel: channel_of(&found),
            ..outcome.judged
        })
    }
}

impl RxChannels {
    /// The opening that `judge` would do now for a tagged frame, if it would open it. Nothing changes. `judge` does not
    /// rely on it: if the frame is to be opened under another key or IV by then, `judge` opens it itself.
    pub fn plan_open(
        &self,
        keys: &KeyTable,
        options: &RxOptions,
        mpdu: &Mpdu<'_>,
    ) -> Option<OpenJob>
        requires keys_there { HaveRxKeys keys.now self.now.rows }
        ensures { result ≡ job_tagged options.now keys.now self.now mpdu.now }
    {
        let tag = mpdu.tag();
        let is_reserved = tag.e() && !tag.c();
        if is_reserved {
            return None;
        }
        let found = self.in_use(mpdu);
        job_row(keys, options, &row_of(&found), mpdu)
    }
}

/// The opening of a frame whose SecTAG is valid. `row` is the SA that is enabled for the frame, if any.
fn job_row(
    keys: &KeyTable,
    options: &RxOptions,
    row: &Option<RxRow>,
    mpdu: &Mpdu<'_>,
) -> Option<OpenJob>
    requires key_there { IfSome row.now (λ r. IsSome (key_row keys.now r.key)) }
    ensures { result ≡ job_row options.now keys.now mpdu.now row.now }
{
    match row {
        Some(row) => job_known(keys, options, row, mpdu),
        None => None,
    }
}

/// The opening of a frame of an SA.
fn job_known(keys: &KeyTable, options: &RxOptions, row: &RxRow, mpdu: &Mpdu<'_>) -> Option<OpenJob>
    requires key_there { IsSome (key_row keys.now row.now.key) }
    ensures { result ≡ job_row options.now keys.now mpdu.now (Some row.now) }
{
    let key = keys.key(row.key).unwrap();
    let pn = mpdu.tag().pn();
    let number = number_of_frame(key.suite_key.suite(), row, pn)?;
    job_number(key, options, row, number)
}

/// The opening of a frame of an SA with this packet number.
fn job_number(key: &KeyRow, options: &RxOptions, row: &RxRow, number: u64) -> Option<OpenJob>
    requires number { number ≤ last_of key.now.suite_key.suite }
    ensures { (first_unused : ℕ) → result ≡ job_number options.now (row_shown key.now first_unused) row.now (Some number) }
{
    if is_dropped_late(options, row, number) || is_disabled(options.mode) {
        return None;
    }
    let iv = iv_of_frame(key, row, number);
    Some(OpenJob { key: row.key, iv })
}

/// The SA that was found, without its positions.
fn row_of(found: &Option<Found>) -> Option<RxRow>
    ensures { result ≡ option_map row_of_found found.now }
{
    match found {
        Some(found) => Some(found.row),
        None => None,
    }
}

/// The position of the SC of the SA that was found, otherwise 0.
fn channel_of(found: &Option<Found>) -> usize
    ensures { IfSome found.now (λ f. result ≡ f.channel) }
{
    match found {
        Some(found) => found.channel,
        None => 0,
    }
}

fn is_strict(mode: Mode) -> bool
    ensures { result ≡ is_strict mode }
{
    match mode {
        Mode::Strict => true,
        Mode::Check | Mode::Disabled => false,
    }
}

fn is_disabled(mode: Mode) -> bool
    ensures { result ≡ is_disabled mode }
{
    match mode {
        Mode::Disabled => true,
        Mode::Check | Mode::Strict => false,
    }
}

/// Whether the PN field is 0 under a suite with 32-bit packet numbers. No sender uses it.
fn is_bad_number(suite: Suite, pn: u32) -> bool
    ensures { result ≡ is_bad_number suite pn }
{
    pn == 0 && !suite.is_xpn()
}

/// The packet number of a frame, recovered from its PN field. `suite` is the suite of the SA's key. Returns `None` if
/// the frame has no packet number.
fn number_of_frame(suite: Suite, row: &RxRow, pn: u32) -> Option<u64>
    ensures number { result ≡ number_of_frame suite row.now.lowest pn }
    ensures most { IfSome result (λ number. number ≤ last_of suite) }
{
    if is_bad_number(suite, pn) {
        return None;
    }
    row.numbers().recover(suite.is_xpn(), pn)
}

/// The IV of a frame of an SA with this packet number.
fn iv_of_frame(key: &KeyRow, row: &RxRow, number: u64) -> [u8; 12]
    requires { number ≤ last_of key.now.suite_key.suite }
    ensures { result ≡ iv_of key.now.suite_key.suite row.now.sci row.now.ssci key.now.key.salt number }
{
    iv_of(
        key.suite_key.suite(),
        row.sci,
        row.ssci,
        key.key.salt,
        number,
    )
}

/// The verdict. `row` is the SA that is enabled for the frame, if any.
fn judge_tagged_row(
    keys: &KeyTable,
    options: &RxOptions,
    row: &Option<RxRow>,
    mpdu: &Mpdu<'_>,
    opened: &Option<OpenedFrame>,
    out: &mut [u8],
) -> Outcome
    requires key_there { IfSome row.now (λ r. IsSome (key_row keys.now r.key)) }
    requires opened { IfOpened opened.now keys.now mpdu.now out.old }
    requires frame { unpadded_length mpdu.now ≤ max_frame_len }
    requires room { max_frame_len ≤ length out.old }
    ensures outcome { ShowsOutcome result out.new (judge_tagged_row options.now keys.now mpdu.now row.now) }
    ensures row { IfSome result.accepted (λ n. (judge_tagged_row options.now keys.now mpdu.now row.now).row ≡ row.now) }
    ensures found { IfSome result.judged.row (λ at. option_map place_of row.now ≡ Some at) }
    ensures place { IsInPlace result.judged.delivered mpdu.now }
    ensures undelivered { IfNone result.judged.delivered (LeavesReceived out.old out.new mpdu.now) }
{
    let tag = mpdu.tag();
    if tag.e() && !tag.c() {
        return Outcome::without_row(Verdict::Reserved, None);
    }
    judge_row(keys, options, row, mpdu, opened, out)
}

/// The verdict on a frame whose SecTAG is valid, with or without an SA.
fn judge_row(
    keys: &KeyTable,
    options: &RxOptions,
    row: &Option<RxRow>,
    mpdu: &Mpdu<'_>,
    opened: &Option<OpenedFrame>,
    out: &mut [u8],
) -> Outcome
    requires key_there { IfSome row.now (λ r. IsSome (key_row keys.now r.key)) }
    requires opened { IfOpened opened.now keys.now mpdu.now out.old }
    requires frame { unpadded_length mpdu.now ≤ max_frame_len }
    requires room { max_frame_len ≤ length out.old }
    ensures outcome { ShowsOutcome result out.new (judge_row options.now keys.now mpdu.now row.now) }
    ensures row { IfSome result.accepted (λ n. (judge_row options.now keys.now mpdu.now row.now).row ≡ row.now) }
    ensures found { IfSome result.judged.row (λ at. option_map place_of row.now ≡ Some at) }
    ensures place { IsInPlace result.judged.delivered mpdu.now }
    ensures undelivered { IfNone result.judged.delivered (LeavesReceived out.old out.new mpdu.now) }
{
    match row {
        Some(row) => judge_known(keys, options, row, mpdu, opened, out),
        None => judge_unknown(options, mpdu, out),
    }
}

/// The verdict on a frame without an SA.
fn judge_unknown(options: &RxOptions, mpdu: &Mpdu<'_>, out: &mut [u8]) -> Outcome
    requires room { unpadded_length mpdu.now ≤ length out.old }
    ensures outcome { (keys : List InstalledKey) → ShowsOutcome result out.new (judge_row options.now keys mpdu.now None) }
    ensures row { result.accepted ≡ None }
    ensures found { result.judged.row ≡ None }
    ensures place { IsInPlace result.judged.delivered mpdu.now }
    ensures undelivered { IfNone result.judged.delivered (out.new ≡ out.old) }
{
    if is_strict(options.mode) || mpdu.tag().c() {
        return Outcome::without_row(Verdict::NoSaError, None);
    }
    Outcome::without_row(Verdict::NoSa, Some(deliver_bare(mpdu, out)))
}

/// The verdict on a frame of an SA.
fn judge_known(
    keys: &KeyTable,
    options: &RxOptions,
    row: &RxRow,
    mpdu: &Mpdu<'_>,
    opened: &Option<OpenedFrame>,
    out: &mut [u8],
) -> Outcome
    requires key_there { IsSome (key_row keys.now row.now.key) }
    requires opened { IfOpened opened.now keys.now mpdu.now out.old }
    requires frame { unpadded_length mpdu.now ≤ max_frame_len }
    requires room { max_frame_len ≤ length out.old }
    ensures outcome { ShowsOutcome result out.new (judge_row options.now keys.now mpdu.now (Some row.now)) }
    ensures row { IfSome result.accepted (λ n. (judge_row options.now keys.now mpdu.now (Some row.now)).row ≡ Some row.now) }
    ensures found { result.judged.row ≡ Some (place_of row.now) }
    ensures place { IsInPlace result.judged.delivered mpdu.now }
    ensures undelivered { IfNone result.judged.delivered (LeavesReceived out.old out.new mpdu.now) }
{
    let key = keys.key(row.key).unwrap();
    let Some(number) = number_of_frame(key.suite_key.suite(), row, mpdu.tag().pn()) else {
        return Outcome::at_row(row, Verdict::BadTag, None, None);
    };
    judge_number(key, options, row, number, mpdu, opened, out)
}

fn is_late(row: &RxRow, number: u64) -> bool
    ensures { result ≡ is_late row.now.lowest number }
{
    row.numbers().is_late(number)
}

/// Whether a frame with this packet number is dropped because it is late.
fn is_dropped_late(options: &RxOptions, row: &RxRow, number: u64) -> bool
    ensures { result ≡ (options.now.replay && is_late row.now.lowest number) }
{
    options.replay && is_late(row, number)
}

/// The verdict on a frame of an SA with this packet number.
fn judge_number(
    key: &KeyRow,
    options: &RxOptions,
    row: &RxRow,
    number: u64,
    mpdu: &Mpdu<'_>,
    opened: &Option<OpenedFrame>,
    out: &mut [u8],
) -> Outcome
    requires own_key { HasOwnKey key.now }
    requires number { number ≤ last_of key.now.suite_key.suite }
    requires opened { IfOpenedUnder opened.now key.now mpdu.now out.old }
    requires frame { unpadded_length mpdu.now ≤ max_frame_len }
    requires room { max_frame_len ≤ length out.old }
    ensures outcome { (first_unused : ℕ) → ShowsOutcome result out.new (judge_number options.now (row_shown key.now first_unused) row.now mpdu.now (Some number)) }
    ensures row { (first_unused : ℕ) → IfSome result.accepted (λ n. (judge_number options.now (row_shown key.now first_unused) row.now mpdu.now (Some number)).row ≡ Some row.now) }
    ensures found { result.judged.row ≡ Some (place_of row.now) }
    ensures place { IsInPlace result.judged.delivered mpdu.now }
    ensures undelivered { IfNone result.judged.delivered (LeavesReceived out.old out.new mpdu.now) }
{
    if is_dropped_late(options, row, number) {
        return Outcome::at_row(row, Verdict::Late, None, None);
    }
    if is_disabled(options.mode) {
        if mpdu.tag().c() {
            return Outcome::at_row(row, Verdict::NotValid, None, None);
        }
        let verdict = if is_late(row, number) {
            Verdict::Delayed
        } else {
            Verdict::Unchecked
        };
        return Outcome::at_row(row, verdict, Some(deliver_bare(mpdu, out)), None);
    }
    judge_validated(key, options, row, number, mpdu, opened, out)
}

/// The verdict on a frame of an SA with this packet number, after validation.
fn judge_validated(
    key: &KeyRow,
    options: &RxOptions,
    row: &RxRow,
    number: u64,
    mpdu: &Mpdu<'_>,
    opened: &Option<OpenedFrame>,
    out: &mut [u8],
) -> Outcome
    requires own_key { HasOwnKey key.now }
    requires number { number ≤ last_of key.now.suite_key.suite }
    requires opened { IfOpenedUnder opened.now key.now mpdu.now out.old }
    requires frame { unpadded_length mpdu.now ≤ max_frame_len }
    requires room { max_frame_len ≤ length out.old }
    ensures outcome { (first_unused : ℕ) → ShowsOutcome result out.new (judge_validated options.now (row_shown key.now first_unused) row.now number mpdu.now) }
    ensures row { (first_unused : ℕ) → IfSome result.accepted (λ n. (judge_validated options.now (row_shown key.now first_unused) row.now number mpdu.now).row ≡ Some row.now) }
    ensures found { result.judged.row ≡ Some (place_of row.now) }
    ensures place { IsInPlace result.judged.delivered mpdu.now }
    ensures undelivered { IfNone result.judged.delivered (LeavesReceived out.old out.new mpdu.now) }
{
    match open(key, row, number, mpdu, opened, out) {
        Some(delivered) => {
            let verdict = if is_late(row, number) {
                Verdict::Delayed
            } else {
                Verdict::Passed
            };
            Outcome::at_row(row, verdict, Some(delivered), Some(number))
        }
        None => judge_invalid(options, row, mpdu, out),
    }
}

/// Delivers the plaintext of a frame of an SA with this packet number if its ICV is valid, and nothing otherwise.
fn open(
    key: &KeyRow,
    row: &RxRow,
    number: u64,
    mpdu: &Mpdu<'_>,
    opened: &Option<OpenedFrame>,
    out: &mut [u8],
) -> Option<(usize, usize)>
    requires number { number ≤ last_of key.now.suite_key.suite }
    requires opened { IfOpenedUnder opened.now key.now mpdu.now out.old }
    requires frame { unpadded_length mpdu.now ≤ max_frame_len }
    requires room { max_frame_len ≤ length out.old }
    ensures octets { let iv = iv_of key.now.suite_key.suite row.now.sci row.now.ssci key.now.key.salt number in
        option_map (octets_at out.new) result ≡
        option_map (frame_with key.now.suite_key mpdu.now) (opened_under key.now.suite_key iv mpdu.now) }
    ensures within { IfSome result (λ at. at.0 + at.1 ≤ length out.new) }
    ensures place { IsInPlace result mpdu.now }
    ensures undelivered { IfNone result (LeavesReceived out.old out.new mpdu.now) }
{
    let iv = iv_of_frame(key, row, number);
    if let Some(opened) = opened {
        if opened.key == key.key.number && opened.iv == iv {
            return opened.delivered;
        }
    }
    deliver_opened(&key.suite_key, &iv, mpdu, out)
}

/// The verdict on a frame of an SA whose ICV is invalid.
fn judge_invalid(options: &RxOptions, row: &RxRow, mpdu: &Mpdu<'_>, out: &mut [u8]) -> Outcome
    requires room { unpadded_length mpdu.now ≤ length out.old }
    ensures outcome { (key : InstalledKey) (number : ℕ) → ShowsOutcome result out.new (judge_opened options.now key row.now number mpdu.now None) }
    ensures accepted { result.accepted ≡ None }
    ensures found { result.judged.row ≡ Some (place_of row.now) }
    ensures place { IsInPlace result.judged.delivered mpdu.now }
    ensures undelivered { IfNone result.judged.delivered (out.new ≡ out.old) }
{
    if mpdu.tag().c() || is_strict(options.mode) {
        return Outcome::at_row(row, Verdict::NotValid, None, None);
    }
    Outcome::at_row(row, Verdict::Invalid, Some(deliver_bare(mpdu, out)), None)
}
