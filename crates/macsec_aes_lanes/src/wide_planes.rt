//! Converts eight bytes in each of 32 lanes to eight bit planes, and back, as `planes` does in 16 lanes.

ghost use Rattle.std.specs.Prelude.{◌≡◌, ℕ, ◌+◌, ◌*◌, ◌-◌, ◌/◌, ◌%◌, ◌^◌, ◌<◌, List, [], ◌∷◌, slice_index};
ghost use Rattle.macsec_aes_lanes.specs.Lanes.{lane_at};
ghost use Rattle.macsec_aes_lanes.specs.Planes.{AreBytes, IsMask, bit_of, digit, octet, with_digit};

use std::simd::u8x32;

/// Exchanges the digit of weight `d` of a bit's position with the same digit of its vector's index. Each bit of `a` at
/// a position where the digit is 1 is swapped with the bit of `b` that is `d` positions lower. `mask` has the positions
/// where the digit is 0.
#[inline(always)]
fn exchange(a: u8x32, b: u8x32, d: u8, mask: u8) -> [u8x32; 2]
    requires { IsMask d mask }
    ensures bits { (j : ℕ) → j < 32 → (e : ℕ) → e < 2 → (k : ℕ) → k < 8
        → bit_of result e j k ≡ bit_of (a ∷ b ∷ []) (digit d k) j (with_digit d k e) }
    ensures given { (j : ℕ) → j < 32 → (slice_index a j < 2 ^ 8) × (slice_index b j < 2 ^ 8) }
    ensures made { (j : ℕ) → j < 32 → (lane_at result 0 j < 2 ^ 8) × (lane_at result 1 j < 2 ^ 8) }
{
    let differing = ((a >> u8x32::splat(d)) ^ b) & u8x32::splat(mask);
    [a ^ (differing << u8x32::splat(d)), b ^ differing]
}

#[inline(always)]
fn exchange_1(v: [u8x32; 8]) -> [u8x32; 8]
    ensures bits { (i : ℕ) → i < 8 → (j : ℕ) → j < 32 → (k : ℕ) → k < 8
        → bit_of result i j k ≡ bit_of v (with_digit 1 i (digit 1 k)) j (with_digit 1 k (digit 1 i)) }
    ensures given { AreBytes 32 v }
{
    let [a0, a1] = exchange(v[0], v[1], 1, 0x55);
    let [a2, a3] = exchange(v[2], v[3], 1, 0x55);
    let [a4, a5] = exchange(v[4], v[5], 1, 0x55);
    let [a6, a7] = exchange(v[6], v[7], 1, 0x55);
    [a0, a1, a2, a3, a4, a5, a6, a7]
}

#[inline(always)]
fn exchange_2(v: [u8x32; 8]) -> [u8x32; 8]
    ensures { (i : ℕ) → i < 8 → (j : ℕ) → j < 32 → (k : ℕ) → k < 8
        → bit_of result i j k ≡ bit_of v (with_digit 2 i (digit 2 k)) j (with_digit 2 k (digit 2 i)) }
{
    let [a0, a2] = exchange(v[0], v[2], 2, 0x33);
    let [a1, a3] = exchange(v[1], v[3], 2, 0x33);
    let [a4, a6] = exchange(v[4], v[6], 2, 0x33);
    let [a5, a7] = exchange(v[5], v[7], 2, 0x33);
    [a0, a1, a2, a3, a4, a5, a6, a7]
}

#[inline(always)]
fn exchange_4(v: [u8x32; 8]) -> [u8x32; 8]
    ensures bits { (i : ℕ) → i < 8 → (j : ℕ) → j < 32 → (k : ℕ) → k < 8
        → bit_of result i j k ≡ bit_of v (with_digit 4 i (digit 4 k)) j (with_digit 4 k (digit 4 i)) }
    ensures made { AreBytes 32 result }
{
    let [a0, a4] = exchange(v[0], v[4], 4, 0x0f);
    let [a1, a5] = exchange(v[1], v[5], 4, 0x0f);
    let [a2, a6] = exchange(v[2], v[6], 4, 0x0f);
    let [a3, a7] = exchange(v[3], v[7], 4, 0x0f);
    [a0, a1, a2, a3, a4, a5, a6, a7]
}

/// The bit planes of eight bytes in each lane. Applied to bit planes, it gives the bytes.
#[inline(always)]
pub fn transpose(v: [u8x32; 8]) -> [u8x32; 8]
    ensures planes { (j : ℕ) → j < 32 → (k : ℕ) → k < 8 → octet result j k ≡ lane_at v k j }
    ensures octets { (j : ℕ) → j < 32 → (k : ℕ) → k < 8 → lane_at result k j ≡ octet v j k }
{
    exchange_4(exchange_2(exchange_1(v)))
}
