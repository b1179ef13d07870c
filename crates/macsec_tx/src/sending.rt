//! How a client frame is sent.

ghost use Rattle.std.specs.Prelude.{◌≡◌, ◌<◌, ◌≤◌, ◌+◌, ◌^◌, ◌++◌, length, take, drop, slice_range, nat_lt, if◌then◌else◌, Some, SomeIff, ℕ, List};
ghost use Rattle.std.specs.Option.{ForSome};
ghost use Rattle.macsec_suite.specs.KeyRows.{AreKeyRows, the_key};
ghost use Rattle.macsec_suite.specs.KeyTables.{IsPlace};
ghost use Rattle.macsec_suite.specs.Suites.{iv_of, last_of};
ghost use Rattle.macsec_tag.specs.Tag.{encoding};
ghost use Rattle.macsec_tag.specs.Frame.{in_a_row};
ghost use Rattle.macsec_tag.specs.Limits.{max_frame_len, min_frame_len};
ghost use Rattle.macsec_tx.specs.Tags.{es_sent, is_own, scb_sent, sci_sent, sl_of};
ghost use Rattle.macsec_tx.specs.Transmit.{keys_after, octets_added, parts_under, rows_after, sending, sending_by, tag_sent};
ghost use Rattle.macsec_tx.specs.Commands.{HaveKeys};
ghost use Rattle.macsec_tx.specs.Rows.{AreTxRows, IsEnabled};
ghost use Rattle.macsec_tx.specs.Answers.{Encrypts, IfJob, PlansLeaving, frame_sealed};

use crate::{EnabledSa, SealJob, TagForm, TxChannel, TxOptions, TxPlan, TxRow};
use macsec_pn::TxNumbers;
use macsec_suite::laws::parts_in_place;
use macsec_suite::{KeyNumber, KeyPlace, KeyRow, KeyTable, SuiteKey, iv_of, protect_in_place};
use macsec_tag::{ADDRESSES_LENGTH, ICV_LENGTH, Sci, SecTag, write_tag};

impl TxChannel {
    /// Decides how a client frame of `MIN_FRAME_LEN` to `MAX_FRAME_LEN` octets is sent, and takes the packet number of a
    /// protected frame. `SealJob::seal` makes that frame later. `enabled` is the result of `enabled`, and nothing has
    /// changed since. The key of each SA must be in the table.
    pub fn plan_frame(
        &mut self,
        keys: &mut KeyTable,
        options: &TxOptions,
        enabled: &Option<EnabledSa>,
        frame: &[u8],
    ) -> TxPlan
        requires enabled { IsEnabled self.old enabled.now }
        requires keys_there { HaveKeys keys.old self.old }
        requires frame_long { min_frame_len ≤ length frame.now }
        requires frame_short { length frame.now ≤ max_frame_len }
        ensures leaving { PlansLeaving result keys.new frame.now (sending options.now keys.old self.old frame.now).leaving }
        ensures fits { IfJob result (λ job. length frame.now + octets_added job.tag ≤ options.now.max_frame) }
        ensures encrypts { IfJob result (λ job. Encrypts (sending options.now keys.old self.old frame.now).by job.tag.e) }
        ensures associations { self.new ≡ rows_after self.old (sending options.now keys.old self.old frame.now).by }
        ensures keys { keys.new ≡ keys_after keys.old (sending options.now keys.old self.old frame.now).by }
        ensures rows { IfJob result (λ job. AreTxRows self.new) }
        ensures key_rows { IfJob result (λ job. AreKeyRows keys.new) }
    {
        if !options.protect {
            return plain(options, frame);
        }
        let Some(enabled) = enabled else {
            return TxPlan::NoSa;
        };
        let place = keys.find(enabled.row.key).unwrap();
        let Some(pn) = number_of_frame(keys.key_at(&place), &enabled.row) else {
            return TxPlan::NoSa;
        };
        let plan = plan_under(keys, &place, options, &enabled.row, pn, frame);
        if let TxPlan::Job(_) = &plan {
            keys.note_used(&place, pn);
            self.use_number(enabled);
        }
        plan
    }
}

impl SealJob {
    /// The number of the key that the job needs.
    pub fn key(&self) -> KeyNumber
        ensures { result ≡ self.now.key.number }
    {
        self.key.number()
    }

    /// The place of that key in its table.
    pub fn key_place(&self) -> &KeyPlace
        ensures { result.now ≡ self.now.key }
    {
        &self.key
    }

    /// Whether the frame is encrypted.
    pub fn encrypts(&self) -> bool
        ensures { result ≡ self.now.tag.e }
    {
        self.tag.e()
    }

    /// The length of the protected frame of a client frame of `len` octets.
    pub fn length(&self, len: usize) -> usize
        requires { len ≤ max_frame_len }
        ensures { result ≡ len + octets_added self.now.tag }
    {
        len + self.tag.length() + ICV_LENGTH
    }

    /// Writes the protected frame to the start of `out`, and returns its length. `key` is the prepared key of the job's
    /// number, and `frame` the client frame that was planned. A job is sealed once: its IV serves for one frame.
    #[inline(always)]
    pub fn seal(self, key: &SuiteKey, frame: &[u8], out: &mut [u8]) -> usize
        requires frame_long { min_frame_len ≤ length frame.now }
        requires frame_short { length frame.now ≤ max_frame_len }
        requires room { length frame.now + octets_added self.tag ≤ length out.old }
        ensures length { result ≡ length frame.now + octets_added self.tag }
        ensures octets { take result out.new ≡ frame_sealed key.now self frame.now }
    {
        write_frame(key, &self.iv, &self.tag, frame, out)
    }
}

impl TxChannel {
    /// The association by which `plan_frame` would protect a client frame, if it would; nothing changes.
    pub fn next_row(&self, keys: &KeyTable, options: &TxOptions, frame: &[u8]) -> Option<TxRow>
        requires keys_there { HaveKeys keys.now self.now }
        requires frame_long { min_frame_len ≤ length frame.now }
        requires frame_short { length frame.now ≤ max_frame_len }
        ensures { result ≡ (sending options.now keys.now self.now frame.now).by }
    {
        if !options.protect {
            return None;
        }
        let row = self.row_on()?;
        let key = keys.key(row.key).unwrap();
        let pn = number_of_frame(key, &row)?;
        let tag = tag_of(options, &row, pn, frame);
        if is_too_long(options, &tag, frame) {
            return None;
        }
        Some(row)
    }
}

/// Whether the client frame with this SecTAG and the ICV would be too long.
fn is_too_long(options: &TxOptions, tag: &SecTag, frame: &[u8]) -> bool
    requires { length frame.now ≤ max_frame_len }
    ensures { result ≡ nat_lt options.now.max_frame (length frame.now + octets_added tag.now) }
{
    frame.len() + tag.length() + ICV_LENGTH > options.max_frame as usize
}

/// How the frame is sent if protection is off.
fn plain(options: &TxOptions, frame: &[u8]) -> TxPlan
    ensures { result ≡ (if nat_lt options.now.max_frame (length frame.now) then TxPlan.TooLong else TxPlan.Plain) }
{
    if frame.len() > options.max_frame as usize {
        TxPlan::TooLong
    } else {
        TxPlan::Plain
    }
}

/// How the enabled SA sends the frame. `place` says where its key is. `pn` is its next packet number and not past the
/// last one.
fn plan_under(
    keys: &KeyTable,
    place: &KeyPlace,
    options: &TxOptions,
    row: &TxRow,
    pn: u64,
    frame: &[u8],
) -> TxPlan
    requires place { IsPlace keys.now place.now }
    requires key { place.now.number ≡ row.now.key }
    requires next { pn ≡ row.now.next }
    requires left { pn ≤ last_of (the_key keys.now row.now.key).suite }
    requires frame_long { min_frame_len ≤ length frame.now }
    requires frame_short { length frame.now ≤ max_frame_len }
    ensures leaving { PlansLeaving result keys.now frame.now (sending_by options.now keys.now frame.now (Some row.now)).leaving }
    ensures fits { IfJob result (λ job. length frame.now + octets_added job.tag ≤ options.now.max_frame) }
    ensures encrypts { IfJob result (λ job. Encrypts (sending_by options.now keys.now frame.now (Some row.now)).by job.tag.e) }
{
    let key = keys.key_at(place);
    let tag = tag_of(options, row, pn, frame);
    if is_too_long(options, &tag, frame) {
        return TxPlan::TooLong;
    }
    let iv = iv_of_frame(options, key, pn);
    TxPlan::Job(SealJob {
        key: *place,
        iv,
        tag,
    })
}

/// The packet number of the SA's next frame, or `None` if the SA is exhausted.
fn number_of_frame(key: &KeyRow, row: &TxRow) -> Option<u64>
    ensures { SomeIff result (row.now.next ≤ last_of key.now.suite_key.suite) row.now.next }
{
    let mut numbers = TxNumbers { next: row.next };
    numbers.take(key.suite_key.suite().last())
}

fn iv_of_frame(options: &TxOptions, key: &KeyRow, pn: u64) -> [u8; 12]
    requires { pn ≤ last_of key.now.suite_key.suite }
    ensures { result ≡ iv_of key.now.suite_key.suite options.now.sci key.now.key.ssci key.now.key.salt pn }
{
    iv_of(
        key.suite_key.suite(),
        options.sci,
        key.key.ssci,
        key.key.salt,
        pn,
    )
}

/// The SL for this number of octets of Secure Data (9.7).
fn sl_of(octets: usize) -> u8
    ensures { result ≡ sl_of octets }
{
    if octets < 48 { octets as u8 } else { 0 }
}

/// Whether the source address of the client frame is the SCI's.
fn is_own(options: &TxOptions, frame: &[u8]) -> bool
    requires { min_frame_len ≤ length frame.now }
    ensures { result ≡ is_own options.now.sci (slice_range frame.now 6 12) }
{
    frame[6..12] == options.sci.0[..6]
}

/// The SCI that the SecTAG carries, if any. `own` is whether the source address is the SCI's.
fn sci_sent(options: TxOptions, own: bool) -> Option<Sci>
    ensures octets { ForSome result (λ s. length s.0 ≡ 8) }
    ensures value { (sa : List ℕ) → own ≡ is_own options.sci sa → result ≡ sci_sent options.form options.many options.sci sa }
{
    let stands_for_sci = match options.form {
        TagForm::Auto => !options.many,
        TagForm::Sci => false,
        TagForm::Es | TagForm::Scb => own,
    };
    if stands_for_sci {
        None
    } else {
        Some(options.sci)
    }
}

/// The ES bit. `own` is whether the source address is the SCI's.
fn es_sent(options: &TxOptions, own: bool) -> bool
    ensures { (sa : List ℕ) → own ≡ is_own options.now.sci sa → result ≡ es_sent options.now.form options.now.sci sa }
{
    match options.form {
        TagForm::Es => own,
        TagForm::Auto | TagForm::Sci | TagForm::Scb => false,
    }
}

/// The SCB bit. `own` is whether the source address is the SCI's.
fn scb_sent(options: &TxOptions, own: bool) -> bool
    ensures { (sa : List ℕ) → own ≡ is_own options.now.sci sa → result ≡ scb_sent options.now.form options.now.sci sa }
{
    match options.form {
        TagForm::Scb => own,
        TagForm::Auto | TagForm::Sci | TagForm::Es => false,
    }
}

/// The SecTAG of the client frame, sent by the SA with its next packet number.
fn tag_of(options: &TxOptions, row: &TxRow, pn: u64, frame: &[u8]) -> SecTag
    requires next { pn ≡ row.now.next }
    requires frame_long { min_frame_len ≤ length frame.now }
    ensures { result ≡ tag_sent options.now row.now frame.now }
{
    let own = is_own(options, frame);
    // Shows the prover that the association number is below 4. The compiler deletes the line.
    let _number = row.an.number();
    SecTag::new(
        es_sent(options, own),
        scb_sent(options, own),
        row.conf,
        row.conf,
        row.an,
        sl_of(frame.len() - ADDRESSES_LENGTH),
        (pn % (1 << 32)) as u32,
        sci_sent(*options, own),
    )
    .unwrap()
}

/// Writes DA, SA, SecTAG, Secure Data and ICV to the start of `out`. Returns their length in octets.
fn write_frame(key: &SuiteKey, iv: &[u8; 12], tag: &SecTag, frame: &[u8], out: &mut [u8]) -> usize
    requires frame_long { min_frame_len ≤ length frame.now }
    requires frame_short { length frame.now ≤ max_frame_len }
    requires room { length frame.now + octets_added tag.now ≤ length out.old }
    ensures length { result ≡ length frame.now + octets_added tag.now }
    ensures octets { take result out.new ≡ in_a_row (parts_under key.now iv.now tag.now frame.now) }
{
    // The proof cites this law; the call does nothing.
    parts_in_place();
    let end = write_clear(tag, frame, out) + ICV_LENGTH;
    protect_in_place(key, iv, tag.e(), tag.length(), &mut out[..end]);
    end
}

/// Writes DA, SA, SecTAG and client data to the start of `out`. Returns their length in octets.
fn write_clear(tag: &SecTag, frame: &[u8], out: &mut [u8]) -> usize
    requires frame_long { min_frame_len ≤ length frame.now }
    requires frame_short { length frame.now ≤ max_frame_len }
    requires room { length frame.now + octets_added tag.now ≤ length out.old }
    ensures length { result ≡ length frame.now + length (encoding tag.now) }
    ensures short { result ≤ length frame.now + 16 }
    ensures octets { take result out.new ≡ take 12 frame.now ++ encoding tag.now ++ drop 12 frame.now }
{
    let tag_length = tag.length();
    let data = ADDRESSES_LENGTH + tag_length;
    let end = frame.len() + tag_length;
    out[..ADDRESSES_LENGTH].copy_from_slice(&frame[..ADDRESSES_LENGTH]);
    write_tag(tag, &mut out[ADDRESSES_LENGTH..]);
    out[data..end].copy_from_slice(&frame[ADDRESSES_LENGTH..]);
    end
}
