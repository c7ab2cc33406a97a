use crate::bent_images::{Bent, NO, other_answer, other_head};
use crate::images::{CLOSED, HIGH};
use crate::named_faults::Fault::{Compressed, Counts, Header, OutOfRange, Shared};
use std::test::Fail;

// Numbers that no head of a page of the images has: its first bytes, its nonce, its block, its tree, its level, its zeros,
// its index, and zeros again. Each with its byte, and how many bytes it has.
static HEADS: [(usize, u32, u64); 26] = [
    (0, 4, 0),
    (0, 4, 827_346_261),
    (0, 4, 827_346_263),
    (0, 4, 4_294_967_295),
    (0, 1, 0),
    (3, 1, 0),
    (4, 8, 0),
    (4, 8, 2),
    (4, 8, 18_446_744_073_709_551_615),
    (11, 1, 1),
    (12, 8, 0),
    (12, 8, 18_446_744_073_709_551_615),
    (20, 1, 60),
    (20, 1, 255),
    (21, 1, 3),
    (21, 1, 255),
    (22, 2, 1),
    (22, 2, 256),
    (22, 2, 65_535),
    (24, 4, 1),
    (24, 4, 811),
    (24, 4, 812),
    (24, 4, 4_294_967_295),
    (28, 8, 1),
    (35, 1, 1),
    (28, 8, 18_446_744_073_709_551_615),
];

// The blocks of pages: a root, the last root, and a leaf; and at height 3 a root, an inner page and a leaf.
static LOW_HEADS: [u32; 3] = [9, 68, 73];

static HIGH_HEADS: [u32; 3] = [9, 77, 73];

// A root. Where a slot has another block there is no such page.
static ROOTS: [Bent; 44] = [
    // Its block, its tree and its level, and those of the last root.
    ((9, 12, 8, 8), NO, NO, Err(Header(9))),
    ((9, 12, 8, 10), NO, NO, Err(Header(9))),
    ((9, 12, 8, 4_294_967_305), NO, NO, Err(Header(9))),
    ((9, 20, 1, 1), NO, NO, Err(Header(9))),
    ((9, 20, 1, 59), NO, NO, Err(Header(9))),
    ((9, 21, 1, 0), NO, NO, Err(Header(9))),
    ((9, 21, 1, 2), NO, NO, Err(Header(9))),
    ((68, 12, 8, 67), NO, NO, Err(Header(68))),
    ((68, 12, 8, 69), NO, NO, Err(Header(68))),
    ((68, 12, 8, 4_294_967_364), NO, NO, Err(Header(68))),
    ((68, 20, 1, 0), NO, NO, Err(Header(68))),
    ((68, 20, 1, 58), NO, NO, Err(Header(68))),
    ((68, 21, 1, 0), NO, NO, Err(Header(68))),
    ((68, 21, 1, 2), NO, NO, Err(Header(68))),
    // The first slot leads to block 73; an entry's first byte has its state, and the high bits of its block.
    ((9, 36, 5, 0), NO, NO, Err(Counts(73, 1, 0))),
    ((9, 36, 1, 0), NO, NO, Err(OutOfRange(9, 0))),
    ((9, 36, 1, 2), NO, NO, Err(Compressed(9, 0))),
    ((9, 36, 1, 15), NO, NO, Err(Compressed(9, 0))),
    ((9, 36, 1, 16), NO, NO, Err(OutOfRange(9, 0))),
    ((9, 36, 1, 17), NO, NO, Err(OutOfRange(9, 0))),
    ((9, 36, 1, 18), NO, NO, Err(Compressed(9, 0))),
    ((9, 36, 1, 240), NO, NO, Err(OutOfRange(9, 0))),
    ((9, 36, 1, 241), NO, NO, Err(OutOfRange(9, 0))),
    ((9, 36, 1, 255), NO, NO, Err(Compressed(9, 0))),
    // It leads to data blocks alone, and there the page must stand.
    ((9, 37, 4, 0), NO, NO, Err(OutOfRange(9, 0))),
    ((9, 37, 4, 1), NO, NO, Err(OutOfRange(9, 0))),
    ((9, 37, 4, 72), NO, NO, Err(OutOfRange(9, 0))),
    ((9, 37, 4, 73), NO, NO, Ok(Some(3))),
    ((9, 37, 4, 74), NO, NO, Err(Header(74))),
    ((9, 37, 4, 88), NO, NO, Err(Header(88))),
    ((9, 37, 4, 89), NO, NO, Err(OutOfRange(9, 0))),
    ((9, 37, 4, 4_294_967_295), NO, NO, Err(OutOfRange(9, 0))),
    // The slot behind it, and the last one.
    ((9, 41, 1, 1), NO, NO, Err(OutOfRange(9, 1))),
    ((9, 41, 5, 18_689), NO, NO, Err(Header(73))),
    ((9, 4091, 1, 1), NO, NO, Err(OutOfRange(9, 811))),
    ((9, 4091, 1, 2), NO, NO, Err(Compressed(9, 811))),
    ((9, 4091, 1, 15), NO, NO, Err(Compressed(9, 811))),
    ((9, 4091, 1, 16), NO, NO, Err(OutOfRange(9, 811))),
    ((9, 4092, 4, 1), NO, NO, Err(OutOfRange(9, 811))),
    ((9, 4092, 4, 4_294_967_295), NO, NO, Err(OutOfRange(9, 811))),
    ((9, 4091, 5, 18_433), NO, NO, Err(OutOfRange(9, 811))),
    ((9, 4091, 5, 18_689), NO, NO, Err(Header(73))),
    ((9, 4091, 5, 22_529), NO, NO, Err(Header(88))),
    ((9, 4091, 5, 22_785), NO, NO, Err(OutOfRange(9, 811))),
];

// A page between a root and a leaf, at height 3.
static INNER: [Bent; 38] = [
    // Its block, its tree and its level.
    ((77, 12, 8, 76), NO, NO, Err(Header(77))),
    ((77, 12, 8, 78), NO, NO, Err(Header(77))),
    ((77, 12, 8, 4_294_967_373), NO, NO, Err(Header(77))),
    ((77, 20, 1, 1), NO, NO, Err(Header(77))),
    ((77, 20, 1, 59), NO, NO, Err(Header(77))),
    ((77, 21, 1, 0), NO, NO, Err(Header(77))),
    ((77, 21, 1, 2), NO, NO, Err(Header(77))),
    // The first slot leads to block 73; an entry's first byte has its state, and the high bits of its block.
    ((77, 36, 5, 0), NO, NO, Err(Counts(73, 1, 0))),
    ((77, 36, 1, 0), NO, NO, Err(OutOfRange(77, 0))),
    ((77, 36, 1, 2), NO, NO, Err(Compressed(77, 0))),
    ((77, 36, 1, 15), NO, NO, Err(Compressed(77, 0))),
    ((77, 36, 1, 16), NO, NO, Err(OutOfRange(77, 0))),
    ((77, 36, 1, 17), NO, NO, Err(OutOfRange(77, 0))),
    ((77, 36, 1, 18), NO, NO, Err(Compressed(77, 0))),
    ((77, 36, 1, 240), NO, NO, Err(OutOfRange(77, 0))),
    ((77, 36, 1, 241), NO, NO, Err(OutOfRange(77, 0))),
    ((77, 36, 1, 255), NO, NO, Err(Compressed(77, 0))),
    // It leads to data blocks alone, and there the page must stand.
    ((77, 37, 4, 0), NO, NO, Err(OutOfRange(77, 0))),
    ((77, 37, 4, 1), NO, NO, Err(OutOfRange(77, 0))),
    ((77, 37, 4, 72), NO, NO, Err(OutOfRange(77, 0))),
    ((77, 37, 4, 73), NO, NO, Ok(Some(4))),
    ((77, 37, 4, 74), NO, NO, Err(Header(74))),
    ((77, 37, 4, 77), NO, NO, Err(Header(77))),
    ((77, 37, 4, 88), NO, NO, Err(Header(88))),
    ((77, 37, 4, 89), NO, NO, Err(OutOfRange(77, 0))),
    ((77, 37, 4, 4_294_967_295), NO, NO, Err(OutOfRange(77, 0))),
    // The slot behind it, and the last one.
    ((77, 41, 1, 1), NO, NO, Err(OutOfRange(77, 1))),
    ((77, 41, 5, 18_689), NO, NO, Err(Header(73))),
    ((77, 4091, 1, 1), NO, NO, Err(OutOfRange(77, 811))),
    ((77, 4091, 1, 2), NO, NO, Err(Compressed(77, 811))),
    ((77, 4091, 1, 15), NO, NO, Err(Compressed(77, 811))),
    ((77, 4091, 1, 16), NO, NO, Err(OutOfRange(77, 811))),
    ((77, 4092, 4, 1), NO, NO, Err(OutOfRange(77, 811))),
    (
        (77, 4092, 4, 4_294_967_295),
        NO,
        NO,
        Err(OutOfRange(77, 811)),
    ),
    ((77, 4091, 5, 18_433), NO, NO, Err(OutOfRange(77, 811))),
    ((77, 4091, 5, 18_689), NO, NO, Err(Header(73))),
    ((77, 4091, 5, 22_529), NO, NO, Err(Header(88))),
    ((77, 4091, 5, 22_785), NO, NO, Err(OutOfRange(77, 811))),
];

// The root above it, and the leaf below it.
static HIGH_ENDS: [Bent; 31] = [
    // The root: its level is 2.
    ((9, 12, 8, 8), NO, NO, Err(Header(9))),
    ((9, 12, 8, 10), NO, NO, Err(Header(9))),
    ((9, 12, 8, 4_294_967_305), NO, NO, Err(Header(9))),
    ((9, 20, 1, 1), NO, NO, Err(Header(9))),
    ((9, 20, 1, 59), NO, NO, Err(Header(9))),
    ((9, 21, 1, 0), NO, NO, Err(Header(9))),
    ((9, 21, 1, 1), NO, NO, Err(Header(9))),
    ((9, 36, 5, 0), NO, NO, Err(Counts(73, 1, 0))),
    ((9, 36, 1, 2), NO, NO, Err(Compressed(9, 0))),
    ((9, 36, 1, 17), NO, NO, Err(OutOfRange(9, 0))),
    ((9, 37, 4, 0), NO, NO, Err(OutOfRange(9, 0))),
    ((9, 37, 4, 72), NO, NO, Err(OutOfRange(9, 0))),
    ((9, 37, 4, 73), NO, NO, Err(Header(73))),
    ((9, 37, 4, 88), NO, NO, Err(Header(88))),
    ((9, 37, 4, 89), NO, NO, Err(OutOfRange(9, 0))),
    ((9, 4091, 1, 1), NO, NO, Err(OutOfRange(9, 811))),
    ((9, 4091, 5, 19_713), NO, NO, Err(Header(77))),
    // The leaf.
    ((73, 12, 8, 72), NO, NO, Err(Header(73))),
    ((73, 12, 8, 74), NO, NO, Err(Header(73))),
    ((73, 12, 8, 4_294_967_369), NO, NO, Err(Header(73))),
    ((73, 20, 1, 1), NO, NO, Err(Header(73))),
    ((73, 20, 1, 59), NO, NO, Err(Header(73))),
    ((73, 21, 1, 1), NO, NO, Err(Header(73))),
    ((73, 21, 1, 2), NO, NO, Err(Header(73))),
    ((73, 61, 1, 2), NO, NO, Err(Compressed(73, 5))),
    ((73, 62, 4, 72), NO, NO, Err(OutOfRange(73, 5))),
    ((73, 62, 4, 73), NO, NO, Err(Shared(73))),
    ((73, 62, 4, 77), NO, NO, Err(Shared(77))),
    ((73, 62, 4, 88), NO, NO, Err(Counts(74, 1, 0))),
    ((73, 62, 4, 89), NO, NO, Err(OutOfRange(73, 5))),
    ((73, 4091, 1, 1), NO, NO, Ok(Some(4))),
];

// A leaf.
static LEAVES: [Bent; 51] = [
    // Its block, its tree and its level.
    ((73, 12, 8, 72), NO, NO, Err(Header(73))),
    ((73, 12, 8, 74), NO, NO, Err(Header(73))),
    ((73, 12, 8, 4_294_967_369), NO, NO, Err(Header(73))),
    ((73, 20, 1, 1), NO, NO, Err(Header(73))),
    ((73, 20, 1, 59), NO, NO, Err(Header(73))),
    ((73, 21, 1, 1), NO, NO, Err(Header(73))),
    ((73, 21, 1, 2), NO, NO, Err(Header(73))),
    // Slot 5 leads to block 74; an entry's first byte has its state, and the high bits of its block.
    ((73, 61, 5, 0), NO, NO, Err(Counts(74, 1, 0))),
    ((73, 61, 1, 0), NO, NO, Err(OutOfRange(73, 5))),
    ((73, 61, 1, 1), NO, NO, Ok(Some(3))),
    ((73, 61, 1, 2), NO, NO, Err(Compressed(73, 5))),
    ((73, 61, 1, 15), NO, NO, Err(Compressed(73, 5))),
    ((73, 61, 1, 16), NO, NO, Err(OutOfRange(73, 5))),
    ((73, 61, 1, 17), NO, NO, Err(OutOfRange(73, 5))),
    ((73, 61, 1, 18), NO, NO, Err(Compressed(73, 5))),
    ((73, 61, 1, 240), NO, NO, Err(OutOfRange(73, 5))),
    ((73, 61, 1, 241), NO, NO, Err(OutOfRange(73, 5))),
    ((73, 61, 1, 255), NO, NO, Err(Compressed(73, 5))),
    // Block 0 is that of zeros. The others are data blocks, of which 73 has a page.
    ((73, 62, 4, 0), NO, NO, Err(Counts(74, 1, 0))),
    ((73, 62, 4, 1), NO, NO, Err(OutOfRange(73, 5))),
    ((73, 62, 4, 72), NO, NO, Err(OutOfRange(73, 5))),
    ((73, 62, 4, 73), NO, NO, Err(Shared(73))),
    ((73, 62, 4, 74), NO, NO, Ok(Some(3))),
    ((73, 62, 4, 75), NO, NO, Err(Counts(74, 1, 0))),
    ((73, 62, 4, 88), NO, NO, Err(Counts(74, 1, 0))),
    ((73, 62, 4, 89), NO, NO, Err(OutOfRange(73, 5))),
    ((73, 62, 4, 4_294_967_295), NO, NO, Err(OutOfRange(73, 5))),
    // The first slot and the last one.
    ((73, 36, 1, 1), NO, NO, Ok(Some(3))),
    ((73, 36, 1, 2), NO, NO, Err(Compressed(73, 0))),
    ((73, 36, 1, 15), NO, NO, Err(Compressed(73, 0))),
    ((73, 36, 1, 16), NO, NO, Err(OutOfRange(73, 0))),
    ((73, 36, 1, 17), NO, NO, Err(OutOfRange(73, 0))),
    ((73, 37, 4, 1), NO, NO, Err(OutOfRange(73, 0))),
    ((73, 37, 4, 4_294_967_295), NO, NO, Err(OutOfRange(73, 0))),
    ((73, 36, 5, 18_433), NO, NO, Err(OutOfRange(73, 0))),
    ((73, 36, 5, 18_689), NO, NO, Err(Shared(73))),
    ((73, 36, 5, 18_945), NO, NO, Err(Counts(74, 1, 2))),
    ((73, 36, 5, 22_529), NO, NO, Err(Counts(88, 0, 1))),
    ((73, 36, 5, 22_785), NO, NO, Err(OutOfRange(73, 0))),
    ((73, 4091, 1, 1), NO, NO, Ok(Some(3))),
    ((73, 4091, 1, 2), NO, NO, Err(Compressed(73, 811))),
    ((73, 4091, 1, 15), NO, NO, Err(Compressed(73, 811))),
    ((73, 4091, 1, 16), NO, NO, Err(OutOfRange(73, 811))),
    ((73, 4091, 1, 17), NO, NO, Err(OutOfRange(73, 811))),
    ((73, 4092, 4, 1), NO, NO, Err(OutOfRange(73, 811))),
    (
        (73, 4092, 4, 4_294_967_295),
        NO,
        NO,
        Err(OutOfRange(73, 811)),
    ),
    ((73, 4091, 5, 18_433), NO, NO, Err(OutOfRange(73, 811))),
    ((73, 4091, 5, 18_689), NO, NO, Err(Shared(73))),
    ((73, 4091, 5, 18_945), NO, NO, Err(Counts(74, 1, 2))),
    ((73, 4091, 5, 22_529), NO, NO, Err(Counts(88, 0, 1))),
    ((73, 4091, 5, 22_785), NO, NO, Err(OutOfRange(73, 811))),
];

#[test]
fn pages_are_checked(rt: HostRuntime) -> Result<(), Fail> {
    let found = [
        other_answer(rt.alloc(), &CLOSED, &ROOTS)?,
        other_answer(rt.alloc(), &CLOSED, &LEAVES)?,
        other_answer(rt.alloc(), &HIGH, &INNER)?,
        other_answer(rt.alloc(), &HIGH, &HIGH_ENDS)?,
    ];
    assert_eq!(rt; found, [None; 4]);
    Ok(())
}

#[test]
fn heads_of_pages_are_checked(rt: HostRuntime) -> Result<(), Fail> {
    let found = [
        other_head(rt.alloc(), &CLOSED, &LOW_HEADS, &HEADS)?,
        other_head(rt.alloc(), &HIGH, &HIGH_HEADS, &HEADS)?,
    ];
    assert_eq!(rt; found, [None; 2]);
    Ok(())
}
