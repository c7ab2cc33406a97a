//! What one load of bytes answers.
ghost use Rattle.std.specs.Prelude.{◌≡◌, ◌+◌, ◌*◌, ◌<◌, ◌≤◌, ◌↔◌, ℕ, bit_or, bit_xor, length, min, slice_index, IsTrue, IfSome, IfNone};
ghost use Rattle.std.specs.Bool.{OnTrue};
ghost use Rattle.std.specs.Simd.Lanes.{chunk, mask_l, sum_l, zip2};
ghost use Rattle.lane_kernels.specs.Kernels.{AreZeros, HasNoZero, IsFreeAt, IsLeastFreeWithin, free_lanes};

use std::simd::prelude::*;

/// How many bytes a load takes.
pub(crate) const LANES: usize = 64;

/// How many bytes four loads take.
pub(crate) const FOUR_LOADS: usize = 4 * LANES;

/// How many bytes a load takes whose sum is wanted.
pub(crate) const SUM_LANES: usize = 64;

// Lane by lane: 0 exactly where both are.
#[inline(always)]
fn either(left: u8x64, right: u8x64) -> u8x64
    ensures { result ≡ zip2 bit_or left right }
{
    left | right
}

// Lane by lane: 0 exactly where one of them is.
#[inline(always)]
fn lesser(left: u8x64, right: u8x64) -> u8x64
    ensures { result ≡ zip2 min left right }
{
    left.simd_min(right)
}

// Whether each lane is 0.
#[inline(always)]
fn are_zero_lanes(lanes: u8x64) -> bool
    requires { length lanes ≡ LANES }
    ensures { IsTrue result ↔ AreZeros lanes }
{
    lanes.simd_ne(u8x64::splat(0)).to_bitmask() == 0
}

// Whether no lane is 0.
#[inline(always)]
fn has_no_zero(lanes: u8x64) -> bool
    requires { length lanes ≡ LANES }
    ensures { OnTrue result (HasNoZero lanes) }
{
    lanes.simd_eq(u8x64::splat(0)).to_bitmask() == 0
}

// Whether each lane of four vectors is 0.
#[inline(always)]
fn are_four_zeros(first: u8x64, second: u8x64, third: u8x64, fourth: u8x64) -> bool
    requires { (length first ≡ LANES) × (length second ≡ LANES) × (length third ≡ LANES)
        × (length fourth ≡ LANES) }
    ensures { IsTrue result
        ↔ (AreZeros first × AreZeros second × AreZeros third × AreZeros fourth) }
{
    are_zero_lanes(either(either(first, second), either(third, fourth)))
}

/// Whether the bytes of the load from this place on are all 0.
#[inline(always)]
pub(crate) fn is_zero_load(bytes: &[u8], at: usize) -> bool
    requires { at + LANES ≤ length bytes.now }
    ensures { IsTrue result
        ↔ ((k : ℕ) → at ≤ k → k < at + LANES → slice_index bytes.now k ≡ 0) }
{
    are_zero_lanes(u8x64::from_slice(&bytes[at..]))
}

/// Whether the bytes of four loads from this place on are all 0.
#[inline(always)]
pub(crate) fn are_zeros(bytes: &[u8], at: usize) -> bool
    requires { at + FOUR_LOADS ≤ length bytes.now }
    ensures { IsTrue result
        ↔ ((k : ℕ) → at ≤ k → k < at + FOUR_LOADS → slice_index bytes.now k ≡ 0) }
{
    are_four_zeros(
        u8x64::from_slice(&bytes[at..]),
        u8x64::from_slice(&bytes[at + LANES..]),
        u8x64::from_slice(&bytes[at + 2 * LANES..]),
        u8x64::from_slice(&bytes[at + 3 * LANES..]),
    )
}

// Lane by lane: 0 exactly where the bytes of this load are the same in both slices.
#[inline(always)]
fn differences(left: &[u8], right: &[u8], at: usize) -> u8x64
    requires { (at + LANES ≤ length left.now) × (at + LANES ≤ length right.now) }
    ensures { result ≡ zip2 bit_xor (chunk at LANES left.now) (chunk at LANES right.now) }
{
    u8x64::from_slice(&left[at..]) ^ u8x64::from_slice(&right[at..])
}

/// Whether the bytes of four loads from this place on are the same in both slices.
#[inline(always)]
pub(crate) fn are_same(left: &[u8], right: &[u8], at: usize) -> bool
    requires { (at + FOUR_LOADS ≤ length left.now) × (at + FOUR_LOADS ≤ length right.now) }
    ensures { IsTrue result
        ↔ ((k : ℕ) → at ≤ k → k < at + FOUR_LOADS →
        slice_index left.now k ≡ slice_index right.now k) }
{
    are_four_zeros(
        differences(left, right, at),
        differences(left, right, at + LANES),
        differences(left, right, at + 2 * LANES),
        differences(left, right, at + 3 * LANES),
    )
}

// Lane by lane: 0 exactly where the counter and the claim of this load are.
#[inline(always)]
fn holds(counters: &[u8], claims: &[u8], at: usize) -> u8x64
    requires { (at + LANES ≤ length counters.now) × (at + LANES ≤ length claims.now) }
    ensures { result ≡ zip2 bit_or (chunk at LANES counters.now) (chunk at LANES claims.now) }
{
    either(
        u8x64::from_slice(&counters[at..]),
        u8x64::from_slice(&claims[at..]),
    )
}

/// Whether no place of four loads from this one on has a counter and a claim that are both 0.
#[inline(always)]
pub(crate) fn has_no_free(counters: &[u8], claims: &[u8], at: usize) -> bool
    requires { (at + FOUR_LOADS ≤ length counters.now) × (at + FOUR_LOADS ≤ length claims.now) }
    ensures { OnTrue result
        ((k : ℕ) → at ≤ k → k < at + FOUR_LOADS → ¬ IsFreeAt counters.now claims.now k) }
{
    let front = lesser(
        holds(counters, claims, at),
        holds(counters, claims, at + LANES),
    );
    let back = lesser(
        holds(counters, claims, at + 2 * LANES),
        holds(counters, claims, at + 3 * LANES),
    );
    has_no_zero(lesser(front, back))
}

// A bit for each lane of this load: whether the counter and the claim are both 0.
#[inline(always)]
fn free_bits(counters: &[u8], claims: &[u8], at: usize) -> u64
    requires { (at + LANES ≤ length counters.now) × (at + LANES ≤ length claims.now) }
    ensures { result ≡ mask_l (free_lanes at LANES counters.now claims.now) }
{
    holds(counters, claims, at)
        .simd_eq(u8x64::splat(0))
        .to_bitmask()
}

/// The least place of this load where the counter and the claim are both 0; `None` where there is no such place.
#[inline(always)]
pub(crate) fn least_free(counters: &[u8], claims: &[u8], at: usize) -> Option<usize>
    requires { (at + LANES ≤ length counters.now) × (at + LANES ≤ length claims.now) }
    ensures some { IfSome result (IsLeastFreeWithin at (at + LANES) counters.now claims.now) }
    ensures none { IfNone result
        ((k : ℕ) → at ≤ k → k < at + LANES → ¬ IsFreeAt counters.now claims.now k) }
{
    let free = free_bits(counters, claims, at);
    if free == 0 {
        return None;
    }
    Some(at + free.trailing_zeros() as usize)
}

/// The sum of the bytes of this load.
#[inline(always)]
pub(crate) fn total_of(bytes: &[u8], at: usize) -> u32
    requires { at + SUM_LANES ≤ length bytes.now }
    ensures total { result ≡ sum_l (chunk at SUM_LANES bytes.now) }
    ensures few { result ≤ 255 * SUM_LANES }
{
    u8x64::from_slice(&bytes[at..])
        .dot4(u8x64::splat(1))
        .strict_reduce_sum()
}
