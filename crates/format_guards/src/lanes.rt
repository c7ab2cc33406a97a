//! Guards of the answers about runs of bytes.
ghost use Rattle.std.specs.Prelude.{◌≡◌, ◌≢◌, ◌<◌, false, true, length, slice_index};

use blk_base::Block;
use lane_kernels::{equal, first_free, is_zero};

// A block with a byte above 0, wherever it stands, isn't the block of zeros.
fn a_byte_above_zero_is_seen(block: &Block, at: u16) -> bool
    requires inside { at < length block.now }
    requires byte { slice_index block.now at ≢ 0 }
    ensures { result ≡ false }
{
    is_zero(block)
}

// Blocks of which one byte differs, wherever it stands, aren't equal.
fn a_byte_that_differs_is_seen(left: &Block, right: &Block, at: u16) -> bool
    requires { slice_index left.now at ≢ slice_index right.now at }
    ensures { result ≡ false }
{
    equal(left, right)
}

// What is found is free: it has no count and no claim.
fn what_is_found_is_free(counters: &[u8], claims: &[u8]) -> bool
    requires { length counters.now ≡ length claims.now }
    ensures { result ≡ true }
{
    match first_free(counters, claims) {
        Some(at) => counters[at] == 0 && claims[at] == 0,
        None => true,
    }
}

// Where a place is free, it is found, or one before it.
fn a_free_place_is_not_passed_over(counters: &[u8], claims: &[u8], at: usize) -> bool
    requires lengths { length counters.now ≡ length claims.now }
    requires inside { at < length counters.now }
    requires counter { slice_index counters.now at ≡ 0 }
    requires claim { slice_index claims.now at ≡ 0 }
    ensures { result ≡ true }
{
    match first_free(counters, claims) {
        Some(found) => found <= at,
        None => false,
    }
}
