use crate::bent_images::{Bent, NO, other_answer};
use crate::images::CLOSED;
use crate::named_faults::Fault::{Counter, Counts};
use std::test::Fail;

// The counters of a slab.
static COUNTERS: [Bent; 22] = [
    // The commit point, below, at or above the one update in the slab's journal, which is of block 75.
    ((89, 0, 8, 0), NO, NO, Err(Counts(75, 2, 1))),
    ((89, 0, 8, 2_989), NO, NO, Err(Counts(75, 2, 1))),
    ((89, 0, 8, 2_990), NO, NO, Ok(Some(3))),
    ((89, 0, 8, 2_991), NO, NO, Ok(Some(3))),
    ((89, 0, 8, 18_446_744_073_709_551_615), NO, NO, Ok(Some(3))),
    // The first counter and the last one; and what is past the slab's end, which isn't looked at.
    ((89, 8, 1, 0), NO, NO, Err(Counts(73, 0, 1))),
    ((89, 8, 1, 1), NO, NO, Ok(Some(3))),
    ((89, 8, 1, 2), NO, NO, Err(Counts(73, 2, 1))),
    ((89, 8, 1, 254), NO, NO, Err(Counts(73, 254, 1))),
    ((89, 8, 1, 255), NO, NO, Err(Counter(73, 3_000))),
    ((89, 23, 1, 0), NO, NO, Ok(Some(3))),
    ((89, 23, 1, 1), NO, NO, Err(Counts(88, 1, 0))),
    ((89, 23, 1, 254), NO, NO, Err(Counts(88, 254, 0))),
    ((89, 23, 1, 255), NO, NO, Err(Counter(88, 3_000))),
    ((89, 24, 1, 1), NO, NO, Ok(Some(3))),
    ((89, 24, 1, 255), NO, NO, Ok(Some(3))),
    ((89, 511, 1, 255), NO, NO, Ok(Some(3))),
    // The sectors behind the slab's end.
    ((89, 512, 8, 1), NO, NO, Ok(Some(3))),
    (
        (89, 512, 8, 18_446_744_073_709_551_615),
        NO,
        NO,
        Ok(Some(3)),
    ),
    ((89, 520, 1, 255), NO, NO, Ok(Some(3))),
    (
        (89, 3584, 8, 18_446_744_073_709_551_615),
        NO,
        NO,
        Ok(Some(3)),
    ),
    ((89, 4095, 1, 255), NO, NO, Ok(Some(3))),
];

// The head of a sector of the slab's journal, whose entry is an update past the commit point where it is valid.
static HEADS: [Bent; 37] = [
    // Its nonce.
    ((90, 32, 8, 3_002), NO, NO, Err(Counts(75, 2, 1))),
    ((90, 32, 8, 3_002), (90, 0, 8, 0), NO, Ok(Some(3))),
    ((90, 32, 8, 3_002), (90, 0, 8, 2), NO, Ok(Some(3))),
    (
        (90, 32, 8, 3_002),
        (90, 0, 8, 18_446_744_073_709_551_615),
        NO,
        Ok(Some(3)),
    ),
    // Its sequence, which may be any, and stands in any slot.
    ((90, 32, 8, 3_002), (90, 8, 8, 0), NO, Err(Counts(75, 2, 1))),
    ((90, 32, 8, 3_002), (90, 8, 8, 1), NO, Err(Counts(75, 2, 1))),
    ((90, 32, 8, 3_002), (90, 8, 8, 2), NO, Err(Counts(75, 2, 1))),
    (
        (90, 32, 8, 3_002),
        (90, 8, 8, 18_446_744_073_709_551_615),
        NO,
        Err(Counts(75, 2, 1)),
    ),
    // Its slab, and its number.
    ((90, 32, 8, 3_002), (90, 16, 4, 1), NO, Ok(Some(3))),
    (
        (90, 32, 8, 3_002),
        (90, 16, 4, 4_294_967_295),
        NO,
        Ok(Some(3)),
    ),
    ((90, 32, 8, 3_002), (90, 20, 2, 1), NO, Ok(Some(3))),
    ((90, 32, 8, 3_002), (90, 20, 2, 7), NO, Ok(Some(3))),
    ((90, 32, 8, 3_002), (90, 20, 2, 8), NO, Ok(Some(3))),
    ((90, 32, 8, 3_002), (90, 20, 2, 65_535), NO, Ok(Some(3))),
    // How many entries it has; what is past them is zeros.
    ((90, 32, 8, 3_002), (90, 22, 2, 0), NO, Ok(Some(3))),
    (
        (90, 32, 8, 3_002),
        (90, 22, 2, 2),
        NO,
        Err(Counts(75, 2, 1)),
    ),
    (
        (90, 32, 8, 3_002),
        (90, 22, 2, 40),
        NO,
        Err(Counts(75, 2, 1)),
    ),
    ((90, 32, 8, 3_002), (90, 22, 2, 41), NO, Ok(Some(3))),
    ((90, 32, 8, 3_002), (90, 22, 2, 65_535), NO, Ok(Some(3))),
    ((90, 32, 8, 3_002), (90, 44, 1, 1), NO, Ok(Some(3))),
    ((90, 32, 8, 3_002), (90, 511, 1, 1), NO, Ok(Some(3))),
    // Its other bytes.
    ((90, 32, 8, 3_002), (90, 24, 1, 0), NO, Ok(Some(3))),
    ((90, 32, 8, 3_002), (90, 24, 4, 0), NO, Ok(Some(3))),
    (
        (90, 32, 8, 3_002),
        (90, 24, 4, 827_544_405),
        NO,
        Ok(Some(3)),
    ),
    (
        (90, 32, 8, 3_002),
        (90, 24, 4, 827_544_407),
        NO,
        Ok(Some(3)),
    ),
    (
        (90, 32, 8, 3_002),
        (90, 24, 4, 4_294_967_295),
        NO,
        Ok(Some(3)),
    ),
    ((90, 32, 8, 3_002), (90, 28, 4, 1), NO, Ok(Some(3))),
    ((90, 32, 8, 3_002), (90, 31, 1, 1), NO, Ok(Some(3))),
    (
        (90, 32, 8, 3_002),
        (90, 28, 4, 4_294_967_295),
        NO,
        Ok(Some(3)),
    ),
    // The last sector of the block, with an update of block 73.
    (
        (90, 3606, 2, 1),
        (90, 3616, 8, 3_002),
        NO,
        Err(Counts(73, 2, 1)),
    ),
    (
        (90, 3604, 2, 6),
        (90, 3606, 2, 1),
        (90, 3616, 8, 3_002),
        Ok(Some(3)),
    ),
    (
        (90, 3604, 2, 8),
        (90, 3606, 2, 1),
        (90, 3616, 8, 3_002),
        Ok(Some(3)),
    ),
    (
        (90, 3604, 2, 0),
        (90, 3606, 2, 1),
        (90, 3616, 8, 3_002),
        Ok(Some(3)),
    ),
    ((90, 3606, 2, 0), (90, 3616, 8, 3_002), NO, Ok(Some(3))),
    ((90, 3606, 2, 41), (90, 3616, 8, 3_002), NO, Ok(Some(3))),
    (
        (90, 3584, 8, 2),
        (90, 3606, 2, 1),
        (90, 3616, 8, 3_002),
        Ok(Some(3)),
    ),
    (
        (90, 3592, 8, 18_446_744_073_709_551_615),
        (90, 3606, 2, 1),
        (90, 3616, 8, 3_002),
        Err(Counts(73, 2, 1)),
    ),
];

// An entry of that sector.
static ENTRIES: [Bent; 30] = [
    // Its point, at the commit point and past it; of an odd one the half is 1, and it takes away.
    ((90, 32, 8, 0), NO, NO, Ok(Some(3))),
    ((90, 32, 8, 3_000), NO, NO, Ok(Some(3))),
    ((90, 32, 8, 3_001), NO, NO, Ok(Some(3))),
    (
        (90, 32, 8, 3_001),
        (90, 42, 1, 1),
        NO,
        Err(Counts(75, 0, 1)),
    ),
    ((90, 32, 8, 3_002), NO, NO, Err(Counts(75, 2, 1))),
    (
        (90, 32, 8, 18_446_744_073_709_551_614),
        NO,
        NO,
        Err(Counts(75, 2, 1)),
    ),
    ((90, 32, 8, 18_446_744_073_709_551_615), NO, NO, Ok(Some(3))),
    (
        (90, 32, 8, 18_446_744_073_709_551_615),
        (90, 42, 1, 1),
        NO,
        Err(Counts(75, 0, 1)),
    ),
    (
        (90, 32, 8, 3_003),
        (90, 42, 1, 1),
        NO,
        Err(Counts(75, 0, 1)),
    ),
    (
        (90, 32, 8, 3_003),
        (90, 40, 2, 3),
        (90, 42, 1, 1),
        Err(Counter(76, 3_003)),
    ),
    ((89, 0, 8, 0), (90, 32, 8, 0), NO, Ok(Some(3))),
    (
        (89, 0, 8, 0),
        (90, 32, 8, 1),
        (90, 42, 1, 1),
        Err(Counts(75, 0, 1)),
    ),
    ((89, 0, 8, 0), (90, 32, 8, 2), NO, Err(Counts(75, 2, 1))),
    (
        (89, 0, 8, 18_446_744_073_709_551_614),
        (90, 32, 8, 18_446_744_073_709_551_615),
        (90, 42, 1, 1),
        Err(Counts(75, 0, 1)),
    ),
    (
        (89, 0, 8, 18_446_744_073_709_551_615),
        (90, 32, 8, 18_446_744_073_709_551_615),
        (90, 42, 1, 1),
        Ok(Some(3)),
    ),
    // Its offset, below the slab's size.
    (
        (90, 32, 8, 3_002),
        (90, 40, 2, 0),
        NO,
        Err(Counts(73, 2, 1)),
    ),
    (
        (90, 32, 8, 3_002),
        (90, 40, 2, 15),
        NO,
        Err(Counts(88, 1, 0)),
    ),
    ((90, 32, 8, 3_002), (90, 40, 2, 16), NO, Ok(Some(3))),
    ((90, 32, 8, 3_002), (90, 40, 2, 65_535), NO, Ok(Some(3))),
    // Its half and its zero.
    ((90, 32, 8, 3_002), (90, 42, 1, 1), NO, Ok(Some(3))),
    ((90, 32, 8, 3_002), (90, 42, 1, 2), NO, Ok(Some(3))),
    ((90, 32, 8, 3_002), (90, 42, 1, 255), NO, Ok(Some(3))),
    ((90, 32, 8, 3_002), (90, 43, 1, 1), NO, Ok(Some(3))),
    ((90, 32, 8, 3_002), (90, 43, 1, 255), NO, Ok(Some(3))),
    // The last of 40.
    (
        (90, 22, 2, 40),
        (90, 500, 8, 3_002),
        NO,
        Err(Counts(73, 2, 1)),
    ),
    (
        (90, 22, 2, 40),
        (90, 500, 8, 3_002),
        (90, 508, 2, 15),
        Err(Counts(88, 1, 0)),
    ),
    (
        (90, 22, 2, 40),
        (90, 500, 8, 3_002),
        (90, 508, 2, 16),
        Ok(Some(3)),
    ),
    (
        (90, 22, 2, 40),
        (90, 500, 8, 3_002),
        (90, 510, 1, 1),
        Ok(Some(3)),
    ),
    (
        (90, 22, 2, 40),
        (90, 500, 8, 3_002),
        (90, 511, 1, 1),
        Ok(Some(3)),
    ),
    ((90, 22, 2, 39), (90, 500, 8, 3_002), NO, Ok(Some(3))),
];

// The counters of a slab, and the heads and entries of its journal.
#[test]
fn slabs_are_checked(rt: HostRuntime) -> Result<(), Fail> {
    let found = [
        other_answer(rt.alloc(), &CLOSED, &COUNTERS)?,
        other_answer(rt.alloc(), &CLOSED, &HEADS)?,
        other_answer(rt.alloc(), &CLOSED, &ENTRIES)?,
    ];
    assert_eq!(rt; found, [None; 3]);
    Ok(())
}
