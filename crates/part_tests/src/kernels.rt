use blk_base::Block;
use lane_kernels::{all_zeros, equal, first_free, is_zero, total};

// Whether the block is all zeros, and whether it equals another that is.
fn zero_in_both_ways(block: &Block) -> [bool; 2] {
    [is_zero(block), equal(&Block::zero(), block)]
}

// Two blocks of zeros, one of which has a 1 in its last byte.
#[test]
fn the_last_byte_counts(rt: HostRuntime) {
    let mut block = Block::zero();
    let before = zero_in_both_ways(&block);
    block.bytes[4095] = 1;
    let after = zero_in_both_ways(&block);
    assert_eq!(rt; [before, after], [[true, true], [false, false]]);
}

// How many lengths up to 600 are zeros, and aren't once their last byte is 1. The least one that is asked is 64.
fn count_zeros() -> usize {
    let mut bytes = [0; 600];
    for length in 64..601_usize {
        let before = all_zeros(&bytes[..length]);
        bytes[length - 1] = 1;
        let after = all_zeros(&bytes[..length]);
        bytes[length - 1] = 0;
        if !before || after {
            return length;
        }
    }
    601
}

#[test]
fn the_last_byte_of_each_length_counts(rt: HostRuntime) {
    assert_eq!(rt; count_zeros(), 601);
}

#[test]
fn the_greatest_total(rt: HostRuntime) {
    assert_eq!(rt; [total(&[255; 4096]), total(&[])], [1_044_480, 0]);
}

// How many lengths from 1 to 600, with the only free place last, find it, and nothing once it is taken. At each other place
// either a counter or a claim is.
fn count_found() -> usize {
    let mut counters = [0; 600];
    let mut claims = [0; 600];
    for at in 0..600_usize {
        let found = first_free(&counters[..at + 1], &claims[..at + 1]);
        if at % 2 == 0 {
            counters[at] = 1;
        } else {
            claims[at] = 1;
        }
        let taken = first_free(&counters[..at + 1], &claims[..at + 1]);
        if (found, taken) != (Some(at), None) {
            return at;
        }
    }
    600
}

#[test]
fn the_only_free_place_is_last(rt: HostRuntime) {
    assert_eq!(rt; (first_free(&[], &[]), count_found()), (None, 600));
}
