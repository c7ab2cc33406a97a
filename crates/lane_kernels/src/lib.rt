//! Answers about whole runs of bytes. Each is equal to a plain definition, whatever way its body goes over the bytes: it
//! takes many at once, and the rest one by one.
//!
//! Only tested: rows at the ends of blocks and slices.
#![tactic(auto)]

ghost use Rattle.std.specs.Prelude.{◌≡◌, ◌*◌, ◌<◌, ◌≤◌, ◌^◌, ◌↔◌, ℕ, length, replicate, sum, All, IsTrue, IfSome, IfNone};
ghost use Rattle.blk_base.specs.Sectors.{zero_block};
ghost use Rattle.lane_kernels.specs.Kernels.{IsFreeAt, IsLeastFree};

mod loads;

use crate::loads::{
    FOUR_LOADS, LANES, SUM_LANES, are_same, are_zeros, has_no_free, is_zero_load, least_free,
    total_of,
};
use blk_base::Block;

/// Whether each byte of the block is 0.
pub fn is_zero(block: &Block) -> bool
    ensures bytes { IsTrue result ↔ All (λ byte. byte ≡ 0) block.now }
    ensures block { IsTrue result ↔ (block.now ≡ zero_block) }
{
    are_all_zeros(&block.bytes)
}

/// Whether each of at least 64 bytes is 0.
pub fn all_zeros(bytes: &[u8]) -> bool
    requires { 64 ≤ length bytes.now }
    ensures { IsTrue result ↔ (bytes.now ≡ replicate (length bytes.now) 0) }
{
    are_all_zeros(bytes)
}

fn are_all_zeros(bytes: &[u8]) -> bool
    requires { 64 ≤ length bytes.now }
    ensures { IsTrue result ↔ All (λ byte. byte ≡ 0) bytes.now }
{
    let fours = bytes.len() / FOUR_LOADS;
    for four in 0..fours {
        if !are_zeros(bytes, four * FOUR_LOADS) {
            return false;
        }
    }
    for load in 4 * fours..bytes.len() / LANES {
        if !is_zero_load(bytes, load * LANES) {
            return false;
        }
    }
    // Where some bytes are left, one more load has them and some of those in front.
    bytes.len() % LANES == 0 || is_zero_load(bytes, bytes.len() - LANES)
}

/// Whether the blocks have the same bytes.
pub fn equal(left: &Block, right: &Block) -> bool
    ensures { IsTrue result ↔ (left.now ≡ right.now) }
{
    are_all_same(&left.bytes, &right.bytes)
}

fn are_all_same(left: &[u8; 4096], right: &[u8; 4096]) -> bool
    ensures { IsTrue result ↔ (left.now ≡ right.now) }
{
    for four in 0..4096 / FOUR_LOADS {
        if !are_same(left, right, four * FOUR_LOADS) {
            return false;
        }
    }
    true
}

/// The least place where the counter and the claim are both 0; `None` where there is no such place.
pub fn first_free(counters: &[u8], claims: &[u8]) -> Option<usize>
    requires { length counters.now ≡ length claims.now }
    ensures some { IfSome result (IsLeastFree counters.now claims.now) }
    ensures none { IfNone result
        ((k : ℕ) → k < length counters.now → ¬ IsFreeAt counters.now claims.now k) }
{
    let passed = passed_fours(counters, claims);
    let loads = counters.len() / LANES;
    for load in 4 * passed..loads {
        if let Some(at) = least_free(counters, claims, load * LANES) {
            return Some(at);
        }
    }
    for at in loads * LANES..counters.len() {
        if counters[at] == 0 && claims[at] == 0 {
            return Some(at);
        }
    }
    None
}

// So many times four loads at the front have no place where the counter and the claim are both 0.
fn passed_fours(counters: &[u8], claims: &[u8]) -> usize
    requires { length counters.now ≡ length claims.now }
    ensures within { result * FOUR_LOADS ≤ length counters.now }
    ensures passed { (k : ℕ) → k < result * FOUR_LOADS → ¬ IsFreeAt counters.now claims.now k }
{
    let fours = counters.len() / FOUR_LOADS;
    for four in 0..fours {
        if !has_no_free(counters, claims, four * FOUR_LOADS) {
            return four;
        }
    }
    fours
}

/// The sum of the bytes, which are at most 2^32.
pub fn total(bytes: &[u8]) -> u64
    requires { length bytes.now ≤ 2 ^ 32 }
    ensures { result ≡ sum bytes.now }
{
    let loads = bytes.len() / SUM_LANES;
    let mut sum = 0;
    for load in 0..loads {
        sum += u64::from(total_of(bytes, load * SUM_LANES));
    }
    for byte in &bytes[loads * SUM_LANES..] {
        sum += u64::from(*byte);
    }
    sum
}
