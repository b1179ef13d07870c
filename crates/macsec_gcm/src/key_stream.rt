//! Key streams (SP 800-38D, 6.5), in batches of blocks.

ghost use Rattle.std.specs.Prelude.{◌≡◌, ℕ, ◌+◌, ◌*◌, ◌<◌, ◌≤◌, List, [], length, slice_index};
ghost use Rattle.std.specs.Fn.{iterate};
ghost use Rattle.macsec_gcm.specs.Gcm.{inc32};
ghost use Rattle.macsec_gcm.specs.Octets.{sum_with_stream};
ghost use Rattle.macsec_gcm.specs.Streams.{IsSumBelow, key_stream};

use crate::counter_blocks::{block_after, blocks_by_vectors, blocks_from, inc32};
use macsec_aes_lanes::{LaneSchedule, encrypt6, encrypt8, encrypt16};
use std::simd::{u8x16, u8x32};

/// Writes the key stream of 16 counter blocks, starting with `first`. Returns the counter block after them.
fn write_sixteen(schedule: &LaneSchedule, first: [u8; 16], octets: &mut [u8]) -> [u8; 16]
    requires { length octets.old ≡ 256 }
    ensures stream { (k : ℕ) → k < 256 → slice_index octets.new k ≡ key_stream schedule.now first k }
    ensures next { result ≡ iterate inc32 16 first }
{
    let mut blocks = blocks_by_vectors::<16>(first);
    let next = block_after(blocks[15]);
    encrypt16(schedule, &mut blocks);
    octets.copy_from_slice(blocks.as_flattened());
    next
}

/// Writes the key stream of eight counter blocks, starting with `first`. Returns the counter block after them.
#[inline(always)]
fn write_eight(schedule: &LaneSchedule, first: [u8; 16], octets: &mut [u8]) -> [u8; 16]
    requires { length octets.old ≡ 128 }
    ensures stream { (k : ℕ) → k < 128 → slice_index octets.new k ≡ key_stream schedule.now first k }
    ensures next { result ≡ iterate inc32 8 first }
{
    let mut blocks = blocks_by_vectors::<8>(first);
    let next = block_after(blocks[7]);
    encrypt8(schedule, &mut blocks);
    octets.copy_from_slice(blocks.as_flattened());
    next
}

/// Writes the key stream of six counter blocks, starting with `first`. Returns the counter block after them.
#[inline(always)]
fn write_six(schedule: &LaneSchedule, first: [u8; 16], octets: &mut [u8]) -> [u8; 16]
    requires { length octets.old ≡ 96 }
    ensures stream { (k : ℕ) → k < 96 → slice_index octets.new k ≡ key_stream schedule.now first k }
    ensures next { result ≡ iterate inc32 6 first }
{
    let mut blocks = blocks_from::<6>(first);
    let next = inc32(blocks[5]);
    encrypt6(schedule, &mut blocks);
    octets.copy_from_slice(blocks.as_flattened());
    next
}

/// Adds the first 32 octets of `stream` to the first 32 octets of `text`.
#[inline(always)]
fn add_32(text: &mut [u8], stream: &[u8])
    requires text_length { 32 ≤ length text.old }
    requires stream_length { 32 ≤ length stream.now }
    ensures { IsSumBelow (slice_index stream.now) text.old text.new 32 }
{
    let sum = u8x32::from_slice(text) ^ u8x32::from_slice(stream);
    sum.copy_to_slice(text);
}

/// Adds the first 16 octets of `stream` to the first 16 octets of `text`.
#[inline(always)]
fn add_16(text: &mut [u8], stream: &[u8])
    requires text_length { 16 ≤ length text.old }
    requires stream_length { 16 ≤ length stream.now }
    ensures { IsSumBelow (slice_index stream.now) text.old text.new 16 }
{
    let sum = u8x16::from_slice(text) ^ u8x16::from_slice(stream);
    sum.copy_to_slice(text);
}

/// Adds the first octets of `stream` to `text`, one after another.
#[inline(always)]
fn add_one_by_one(text: &mut [u8], stream: &[u8])
    requires { length text.old ≤ length stream.now }
    ensures { text.new ≡ sum_with_stream text.old stream.now }
{
    for (k, octet) in text.iter_mut().enumerate() {
        *octet ^= stream[k];
    }
}

/// Adds the first octets of `stream` to `text`, 16 at a time as far as they go.
#[inline(always)]
fn add_by_16(text: &mut [u8], stream: &[u8])
    requires { length text.old ≤ length stream.now }
    ensures { text.new ≡ sum_with_stream text.old stream.now }
{
    let mut done = 0;
    while text.len() - done >= 16 {
        add_16(&mut text[done..], &stream[done..]);
        done += 16;
    }
    add_one_by_one(&mut text[done..], &stream[done..]);
}

/// Adds the first octets of `stream` to `text`, by whole vectors as far as they go.
pub fn add_octets(text: &mut [u8], stream: &[u8])
    requires { length text.old ≤ length stream.now }
    ensures { text.new ≡ sum_with_stream text.old stream.now }
{
    let mut done = 0;
    while text.len() - done >= 32 {
        add_32(&mut text[done..], &stream[done..]);
        done += 32;
    }
    add_by_16(&mut text[done..], &stream[done..]);
}

/// Whether so many octets take seven or eight blocks.
#[inline(always)]
fn is_for_eight(wanted: usize) -> bool {
    wanted > 96 && wanted <= 128
}

/// A partly used key stream, from an initial counter block on. Octets of a batch that one piece of a text does not use
/// are kept for the next piece.
#[derive(Drop)]
pub struct KeyStream<'k> {
    schedule: &'k LaneSchedule,
    /// The counter block of the next batch.
    counter: [u8; 16],
    /// The last batch, at the end of the array.
    octets: [u8; 256],
    /// Where the unused octets begin.
    used: usize,
    ghost in_range: { used ≤ 256 },
}

impl<'k> KeyStream<'k> {
    ghost use Rattle.std.specs.Prelude.{◌++◌, replicate};
    ghost use Rattle.macsec_gcm.specs.Gcm.{gctr};
    ghost use Rattle.macsec_gcm.specs.Pieces.{IsStreamAt};

    /// The key stream of the counter blocks from `first` on, before the first batch.
    #[inline(always)]
    pub fn before(schedule: &'k LaneSchedule, first: [u8; 16]) -> KeyStream<'k>
        ensures key { result.schedule.now ≡ schedule.now }
        ensures counter { result.counter ≡ first }
    {
        KeyStream {
            schedule,
            counter: first,
            octets: [0; 256],
            used: 256,
        }
    }

    /// Computes the first batch, in place, before a text of so many octets. Returns the key stream of its first counter
    /// block. The next octets are the key stream of the counter block after it.
    #[inline(always)]
    pub fn begin(&mut self, text_len: usize) -> [u8; 16]
        ensures stream { IsStreamAt self.new self.old.schedule.now (inc32 self.old.counter) 0 }
        ensures block { result ≡ gctr self.old.schedule.now self.old.counter (replicate 16 0) }
    {
        // For fewer octets, six blocks and the batches after them take less.
        if text_len > 176 && self.schedule.is_wide() {
            return self.begin_with_sixteen();
        }
        self.begin_with_six()
    }

    /// The same by 16 blocks.
    #[inline(always)]
    fn begin_with_sixteen(&mut self) -> [u8; 16]
        ensures stream { IsStreamAt self.new self.old.schedule.now (inc32 self.old.counter) 0 }
        ensures block { result ≡ gctr self.old.schedule.now self.old.counter (replicate 16 0) }
    {
        self.counter = write_sixteen(self.schedule, self.counter, &mut self.octets);
        self.used = 16;
        let mut block = [0; 16];
        add_octets(&mut block, &self.octets);
        block
    }

    /// The same by six blocks.
    #[inline(always)]
    fn begin_with_six(&mut self) -> [u8; 16]
        ensures stream { IsStreamAt self.new self.old.schedule.now (inc32 self.old.counter) 0 }
        ensures block { result ≡ gctr self.old.schedule.now self.old.counter (replicate 16 0) }
    {
        self.counter = write_six(self.schedule, self.counter, &mut self.octets[160..]);
        self.used = 176;
        let mut block = [0; 16];
        add_octets(&mut block, &self.octets[160..]);
        block
    }

    /// Adds the next octets of the key stream to the next piece of a text.
    pub fn add_to(&mut self, piece: &mut [u8])
        ensures moves { (key icb : List ℕ) (n : ℕ) → IsStreamAt self.old key icb n
            → IsStreamAt self.new key icb (n + length piece.old) }
        ensures adds { (key icb text : List ℕ) → IsStreamAt self.old key icb (length text)
            → gctr key icb (text ++ piece.old) ≡ gctr key icb text ++ piece.new }
    {
        let mut done = 0;
        while done < piece.len() {
            done += self.add_to_part(&mut piece[done..]);
        }
    }

    /// Adds the next octets of the batch to the first octets of a text. Returns their number, which is at least 1.
    fn add_to_part(&mut self, text: &mut [u8]) -> usize
        requires { 0 < length text.old }
        ensures some { 0 < result }
        ensures within { result ≤ length text.old }
        ensures moves { (key icb : List ℕ) (n : ℕ) → IsStreamAt self.old key icb n
            → IsStreamAt self.new key icb (n + result) }
        ensures adds { (key icb : List ℕ) (n : ℕ) → IsStreamAt self.old key icb n
            → IsSumBelow (λ k. key_stream key icb (n + k)) text.old text.new result }
    {
        self.refill(text.len());
        let count = text.len().min(256 - self.used);
        add_octets(&mut text[..count], &self.octets[self.used..]);
        self.used += count;
        count
    }

    /// If all octets are used, computes the next batch: 16 blocks if more than 192 octets are `wanted`, eight for
    /// seven or eight blocks, otherwise six. Twice six take less than 16.
    fn refill(&mut self, wanted: usize)
        ensures some { self.new.used < 256 }
        ensures same { (key icb : List ℕ) (n : ℕ) → IsStreamAt self.old key icb n → IsStreamAt self.new key icb n }
    {
        if self.used < 256 {
            return;
        }
        if wanted > 192 {
            self.counter = write_sixteen(self.schedule, self.counter, &mut self.octets);
            self.used = 0;
        } else if is_for_eight(wanted) {
            self.counter = write_eight(self.schedule, self.counter, &mut self.octets[128..]);
            self.used = 128;
        } else {
            self.counter = write_six(self.schedule, self.counter, &mut self.octets[160..]);
            self.used = 160;
        }
    }
}
