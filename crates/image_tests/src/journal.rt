use crate::bent_images::{Bent, Change, NO, other_answer, other_behind};
use crate::images::UNCLEAN;
use crate::named_faults::Fault::{Compressed, Counter, Header, Shared, Window};
use std::test::Fail;

// The head of the first sector of the journal's last block: where it is wrong there is no window.
static HEADS: [Bent; 47] = [
    // Its nonce, and its sequence: that of the slot, from the superblock's start on.
    ((7, 0, 8, 0), NO, NO, Ok(Some(0))),
    ((7, 0, 8, 2), NO, NO, Ok(Some(0))),
    ((7, 0, 8, 18_446_744_073_709_551_615), NO, NO, Ok(Some(0))),
    ((7, 8, 8, 0), NO, NO, Ok(Some(0))),
    ((7, 8, 8, 0), (7, 16, 8, 0), NO, Ok(Some(0))),
    ((7, 8, 8, 1), (7, 16, 8, 1), NO, Ok(Some(0))),
    ((7, 8, 8, 5), NO, NO, Ok(Some(0))),
    ((7, 8, 8, 7), NO, NO, Ok(Some(0))),
    ((7, 8, 8, 13), NO, NO, Ok(Some(0))),
    ((7, 8, 8, 14), NO, NO, Err(Window(6))),
    ((7, 8, 8, 14), (7, 16, 8, 14), NO, Ok(Some(2))),
    // The last sequence of the slot that is in reach, of starts 6 and 7; and those that a block may have.
    ((7, 8, 8, 4_294_967_294), NO, NO, Err(Window(6))),
    (
        (7, 8, 8, 4_294_967_294),
        (7, 16, 8, 4_294_967_294),
        NO,
        Ok(Some(2)),
    ),
    ((7, 8, 8, 4_294_967_302), NO, NO, Ok(Some(0))),
    ((0, 56, 8, 7), (7, 8, 8, 4_294_967_302), NO, Err(Window(6))),
    (
        (0, 56, 8, 7),
        (7, 8, 8, 4_294_967_302),
        (7, 16, 8, 4_294_967_302),
        Ok(Some(2)),
    ),
    ((7, 8, 8, 36_028_797_018_963_966), NO, NO, Ok(Some(0))),
    ((7, 8, 8, 36_028_797_018_963_967), NO, NO, Ok(Some(0))),
    ((7, 8, 8, 36_028_797_018_963_968), NO, NO, Ok(Some(0))),
    ((7, 8, 8, 18_446_744_073_709_551_615), NO, NO, Ok(Some(0))),
    // Its head, not above its sequence: the first block that is needed.
    ((7, 16, 8, 0), NO, NO, Err(Window(0))),
    ((7, 16, 8, 4), NO, NO, Err(Window(4))),
    ((7, 16, 8, 5), NO, NO, Ok(Some(2))),
    ((7, 16, 8, 6), NO, NO, Ok(Some(2))),
    ((7, 16, 8, 7), NO, NO, Ok(Some(0))),
    ((7, 16, 8, 18_446_744_073_709_551_615), NO, NO, Ok(Some(0))),
    ((7, 8, 8, 14), (7, 16, 8, 13), NO, Err(Window(13))),
    ((7, 8, 8, 14), (7, 16, 8, 15), NO, Ok(Some(0))),
    // Its number.
    ((7, 24, 2, 1), NO, NO, Ok(Some(0))),
    ((7, 24, 2, 7), NO, NO, Ok(Some(0))),
    ((7, 24, 2, 8), NO, NO, Ok(Some(0))),
    ((7, 24, 2, 65_535), NO, NO, Ok(Some(0))),
    // How many entries it has; what is past them is zeros.
    ((7, 26, 2, 0), NO, NO, Ok(Some(0))),
    ((7, 26, 2, 1), NO, NO, Ok(Some(0))),
    ((7, 26, 2, 2), NO, NO, Ok(Some(2))),
    ((7, 26, 2, 3), NO, NO, Ok(Some(3))),
    ((7, 26, 2, 24), NO, NO, Ok(Some(24))),
    ((7, 26, 2, 25), NO, NO, Ok(Some(0))),
    ((7, 26, 2, 65_535), NO, NO, Ok(Some(0))),
    ((7, 72, 1, 1), NO, NO, Ok(Some(0))),
    ((7, 72, 1, 255), NO, NO, Ok(Some(0))),
    ((7, 511, 1, 1), NO, NO, Ok(Some(0))),
    // Its other bytes.
    ((7, 28, 1, 0), NO, NO, Ok(Some(0))),
    ((7, 28, 4, 0), NO, NO, Ok(Some(0))),
    ((7, 28, 4, 827_542_101), NO, NO, Ok(Some(0))),
    ((7, 28, 4, 827_542_103), NO, NO, Ok(Some(0))),
    ((7, 28, 4, 4_294_967_295), NO, NO, Ok(Some(0))),
];

// Its other sectors, and those of the block before it.
static SECTORS: [Bent; 40] = [
    // The sector behind a full one, of the last block: what isn't of it is left out.
    ((7, 540, 1, 0), NO, NO, Ok(Some(2))),
    ((7, 538, 2, 1), NO, NO, Ok(Some(2))),
    ((7, 26, 2, 24), (7, 538, 2, 1), NO, Ok(Some(25))),
    ((7, 26, 2, 24), (7, 538, 2, 24), NO, Ok(Some(48))),
    ((7, 26, 2, 24), (7, 538, 2, 25), NO, Ok(Some(24))),
    ((7, 26, 2, 24), (7, 538, 2, 1), (7, 512, 8, 0), Ok(Some(24))),
    ((7, 26, 2, 24), (7, 538, 2, 1), (7, 512, 8, 2), Ok(Some(24))),
    ((7, 26, 2, 24), (7, 538, 2, 1), (7, 520, 8, 5), Ok(Some(24))),
    ((7, 26, 2, 24), (7, 538, 2, 1), (7, 520, 8, 7), Ok(Some(24))),
    ((7, 26, 2, 24), (7, 538, 2, 1), (7, 528, 8, 5), Ok(Some(24))),
    ((7, 26, 2, 24), (7, 538, 2, 1), (7, 528, 8, 7), Ok(Some(24))),
    ((7, 26, 2, 24), (7, 538, 2, 1), (7, 536, 2, 0), Ok(Some(24))),
    ((7, 26, 2, 24), (7, 538, 2, 1), (7, 536, 2, 2), Ok(Some(24))),
    ((7, 26, 2, 24), (7, 538, 2, 1), (7, 540, 1, 0), Ok(Some(24))),
    (
        (7, 26, 2, 24),
        (7, 538, 2, 1),
        (7, 1023, 1, 1),
        Ok(Some(24)),
    ),
    // The block before it, which is needed and must be whole: its first sector.
    ((7, 16, 8, 5), (6, 0, 8, 2), NO, Err(Window(5))),
    ((7, 16, 8, 5), (6, 8, 8, 0), NO, Err(Window(5))),
    ((7, 16, 8, 5), (6, 8, 8, 4), NO, Err(Window(5))),
    ((7, 16, 8, 5), (6, 8, 8, 6), NO, Err(Window(5))),
    ((7, 16, 8, 5), (6, 8, 8, 13), NO, Err(Window(5))),
    ((7, 16, 8, 5), (6, 16, 8, 4), NO, Err(Window(5))),
    ((7, 16, 8, 5), (6, 16, 8, 6), NO, Err(Window(5))),
    ((7, 16, 8, 5), (6, 24, 2, 1), NO, Err(Window(5))),
    ((7, 16, 8, 5), (6, 26, 2, 1), NO, Ok(Some(3))),
    ((7, 16, 8, 5), (6, 26, 2, 24), NO, Ok(Some(26))),
    ((7, 16, 8, 5), (6, 26, 2, 25), NO, Err(Window(5))),
    ((7, 16, 8, 5), (6, 28, 1, 0), NO, Err(Window(5))),
    ((7, 16, 8, 5), (6, 32, 1, 1), NO, Err(Window(5))),
    // Its last sector.
    ((7, 16, 8, 5), (6, 3584, 8, 0), NO, Err(Window(5))),
    ((7, 16, 8, 5), (6, 3584, 8, 2), NO, Err(Window(5))),
    ((7, 16, 8, 5), (6, 3592, 8, 4), NO, Err(Window(5))),
    ((7, 16, 8, 5), (6, 3592, 8, 6), NO, Err(Window(5))),
    ((7, 16, 8, 5), (6, 3600, 8, 4), NO, Err(Window(5))),
    ((7, 16, 8, 5), (6, 3600, 8, 6), NO, Err(Window(5))),
    ((7, 16, 8, 5), (6, 3608, 2, 0), NO, Err(Window(5))),
    ((7, 16, 8, 5), (6, 3608, 2, 6), NO, Err(Window(5))),
    ((7, 16, 8, 5), (6, 3608, 2, 8), NO, Err(Window(5))),
    ((7, 16, 8, 5), (6, 3610, 2, 1), NO, Err(Window(5))),
    ((7, 16, 8, 5), (6, 3612, 1, 0), NO, Err(Window(5))),
    ((7, 16, 8, 5), (6, 4095, 1, 1), NO, Err(Window(5))),
];

// Seven of its sectors are full, and then all eight, or all but the last one.
static SEVEN_FULL: [Change; 7] = [
    (7, 26, 2, 24),
    (7, 538, 2, 24),
    (7, 1050, 2, 24),
    (7, 1562, 2, 24),
    (7, 2074, 2, 24),
    (7, 2586, 2, 24),
    (7, 3098, 2, 24),
];

static FULL: [Bent; 2] = [
    ((7, 3610, 2, 24), NO, NO, Ok(Some(192))),
    ((7, 3608, 2, 8), NO, NO, Ok(Some(168))),
];

// An entry that maps an address anew: where its form is wrong there is no window either.
static ENTRIES: [Bent; 57] = [
    // Its kind. A page of which no address is beside the logical size, and one that is another page.
    ((7, 32, 1, 1), NO, NO, Ok(Some(0))),
    ((7, 32, 1, 2), NO, NO, Ok(Some(0))),
    ((7, 32, 1, 255), NO, NO, Ok(Some(0))),
    ((7, 52, 1, 1), NO, NO, Err(Window(6))),
    ((7, 52, 1, 1), (7, 56, 4, 0), NO, Err(Header(75))),
    ((7, 52, 1, 1), (7, 56, 4, 0), (7, 66, 4, 73), Ok(Some(2))),
    // Its zeros: those of a tree, a level, and one more.
    ((7, 33, 1, 1), NO, NO, Ok(Some(0))),
    ((7, 33, 1, 59), NO, NO, Ok(Some(0))),
    ((7, 33, 1, 60), NO, NO, Ok(Some(0))),
    ((7, 33, 1, 255), NO, NO, Ok(Some(0))),
    ((7, 34, 1, 1), NO, NO, Ok(Some(0))),
    ((7, 34, 1, 255), NO, NO, Ok(Some(0))),
    ((7, 35, 1, 1), NO, NO, Ok(Some(0))),
    ((7, 35, 1, 255), NO, NO, Ok(Some(0))),
    // Its address.
    ((7, 36, 4, 0), NO, NO, Ok(Some(2))),
    ((7, 36, 4, 999), NO, NO, Ok(Some(2))),
    ((7, 36, 4, 1_000), NO, NO, Err(Window(6))),
    ((7, 36, 4, 4_294_967_295), NO, NO, Err(Window(6))),
    // Its old mapping.
    ((7, 40, 5, 0), NO, NO, Ok(Some(2))),
    ((7, 40, 1, 0), NO, NO, Ok(Some(0))),
    ((7, 40, 1, 2), NO, NO, Ok(Some(0))),
    ((7, 40, 1, 15), NO, NO, Ok(Some(0))),
    ((7, 40, 1, 16), NO, NO, Ok(Some(0))),
    ((7, 40, 1, 17), NO, NO, Ok(Some(0))),
    ((7, 40, 1, 241), NO, NO, Ok(Some(0))),
    ((7, 40, 1, 255), NO, NO, Ok(Some(0))),
    ((7, 41, 4, 0), NO, NO, Ok(Some(2))),
    ((7, 41, 4, 1), NO, NO, Err(Window(6))),
    ((7, 41, 4, 72), NO, NO, Err(Window(6))),
    ((7, 41, 4, 73), NO, NO, Ok(Some(2))),
    ((7, 41, 4, 88), NO, NO, Err(Counter(88, 3_073))),
    ((7, 41, 4, 89), NO, NO, Err(Window(6))),
    ((7, 41, 4, 4_294_967_295), NO, NO, Err(Window(6))),
    // Its new mapping.
    ((7, 45, 5, 0), NO, NO, Ok(Some(2))),
    ((7, 45, 1, 0), NO, NO, Ok(Some(0))),
    ((7, 45, 1, 2), NO, NO, Ok(Some(0))),
    ((7, 45, 1, 15), NO, NO, Ok(Some(0))),
    ((7, 45, 1, 16), NO, NO, Ok(Some(0))),
    ((7, 45, 1, 17), NO, NO, Ok(Some(0))),
    ((7, 45, 1, 241), NO, NO, Ok(Some(0))),
    ((7, 45, 1, 255), NO, NO, Ok(Some(0))),
    ((7, 46, 4, 0), NO, NO, Ok(Some(2))),
    ((7, 46, 4, 1), NO, NO, Err(Window(6))),
    ((7, 46, 4, 72), NO, NO, Err(Window(6))),
    ((7, 46, 4, 73), NO, NO, Err(Shared(73))),
    ((7, 46, 4, 88), NO, NO, Ok(Some(2))),
    ((7, 46, 4, 89), NO, NO, Err(Window(6))),
    ((7, 46, 4, 4_294_967_295), NO, NO, Err(Window(6))),
    // Its last zeros.
    ((7, 50, 2, 1), NO, NO, Ok(Some(0))),
    ((7, 50, 2, 256), NO, NO, Ok(Some(0))),
    ((7, 50, 2, 65_535), NO, NO, Ok(Some(0))),
    // The last one of 24.
    ((7, 496, 4, 999), NO, NO, Ok(Some(0))),
    ((7, 26, 2, 24), (7, 496, 4, 999), NO, Ok(Some(24))),
    ((7, 26, 2, 24), (7, 496, 4, 1_000), NO, Err(Window(6))),
    ((7, 26, 2, 24), (7, 492, 1, 1), NO, Ok(Some(0))),
    (
        (7, 26, 2, 24),
        (7, 492, 1, 1),
        (7, 505, 5, 19_713),
        Err(Header(77)),
    ),
    ((7, 26, 2, 24), (7, 510, 2, 1), NO, Ok(Some(0))),
];

// What else an image has that isn't closed.
static OTHERS: [Bent; 16] = [
    // Counts that leave their range by the counter, by an increment and by a decrement.
    ((89, 8, 1, 255), NO, NO, Err(Counter(73, 3_000))),
    ((89, 11, 1, 253), NO, NO, Ok(Some(2))),
    ((89, 11, 1, 254), NO, NO, Err(Counter(76, 3_072))),
    ((89, 9, 1, 0), NO, NO, Err(Counter(74, 3_073))),
    ((89, 0, 8, 0), NO, NO, Ok(Some(2))),
    (
        (89, 0, 8, 3_071),
        (89, 9, 1, 0),
        NO,
        Err(Counter(74, 3_073)),
    ),
    ((89, 0, 8, 3_072), (89, 11, 1, 254), NO, Ok(Some(2))),
    ((89, 0, 8, 3_073), NO, NO, Ok(Some(2))),
    ((89, 0, 8, 3_073), (89, 9, 1, 0), NO, Ok(Some(2))),
    ((89, 0, 8, 18_446_744_073_709_551_615), NO, NO, Ok(Some(2))),
    // A slot that the window replaces isn't looked at.
    ((73, 61, 1, 2), NO, NO, Ok(Some(2))),
    ((73, 66, 1, 2), NO, NO, Err(Compressed(73, 6))),
    ((73, 0, 1, 0), NO, NO, Err(Header(73))),
    // Faults in their order: the window's before the page's, the page's before the counter's, that before the shared page.
    ((7, 16, 8, 4), (9, 0, 1, 0), NO, Err(Window(4))),
    ((9, 0, 1, 0), (89, 8, 1, 255), NO, Err(Header(9))),
    ((7, 46, 4, 73), (89, 8, 1, 255), NO, Err(Counter(73, 3_000))),
];

#[test]
fn unclean_images_are_checked(rt: HostRuntime) -> Result<(), Fail> {
    let found = [
        other_answer(rt.alloc(), &UNCLEAN, &HEADS)?,
        other_answer(rt.alloc(), &UNCLEAN, &SECTORS)?,
        other_behind(rt.alloc(), &UNCLEAN, &SEVEN_FULL, &FULL)?,
        other_answer(rt.alloc(), &UNCLEAN, &ENTRIES)?,
        other_answer(rt.alloc(), &UNCLEAN, &OTHERS)?,
    ];
    assert_eq!(rt; found, [None; 5]);
    Ok(())
}
