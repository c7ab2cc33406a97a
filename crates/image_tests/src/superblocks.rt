use crate::bent_images::{Bent, NO, other_answer};
use crate::images::{CLOSED, HIGH, UNCLEAN};
use crate::named_faults::Fault::{Header, NoImage, Super, Unclean, Version};
use image_layout::Field::{
    Blocks, Clean, Height, Index, Journal, Logical, Nonce, Reserved, SlabBlocks, SlabJournal,
    Slabs, Start,
};
use std::test::Fail;

static FIELDS: [Bent; 40] = [
    (NO, NO, NO, Ok(Some(3))),
    // The superblock's first bytes and its version.
    ((0, 0, 1, 0), NO, NO, Err(NoImage)),
    ((0, 7, 1, 0), NO, NO, Err(NoImage)),
    ((0, 0, 8, 0), NO, NO, Err(NoImage)),
    ((0, 0, 8, 3_544_405_832_320_177_745), NO, NO, Err(NoImage)),
    ((0, 0, 8, 3_544_405_832_320_177_747), NO, NO, Err(NoImage)),
    ((0, 0, 8, 18_446_744_073_709_551_615), NO, NO, Err(NoImage)),
    ((0, 8, 4, 0), NO, NO, Err(Version(0))),
    ((0, 8, 4, 2), NO, NO, Err(Version(2))),
    (
        (0, 8, 4, 4_294_967_295),
        NO,
        NO,
        Err(Version(4_294_967_295)),
    ),
    // Its height: at 3 the roots have another level.
    ((0, 12, 4, 0), NO, NO, Err(Super(Height))),
    ((0, 12, 4, 1), NO, NO, Err(Super(Height))),
    ((0, 12, 4, 3), NO, NO, Err(Header(9))),
    ((0, 12, 4, 4), NO, NO, Err(Super(Height))),
    ((0, 12, 4, 4_294_967_295), NO, NO, Err(Super(Height))),
    // Its nonce, which each page has.
    ((0, 16, 8, 0), NO, NO, Err(Super(Nonce))),
    ((0, 16, 8, 2), NO, NO, Err(Header(9))),
    (
        (0, 16, 8, 18_446_744_073_709_551_615),
        NO,
        NO,
        Err(Header(9)),
    ),
    // Whether it is closed, its zeros, and where the next session starts. At 1 there is a window without entries.
    ((0, 48, 4, 0), NO, NO, Err(Unclean)),
    ((0, 48, 4, 2), NO, NO, Err(Super(Clean))),
    ((0, 48, 4, 4_294_967_295), NO, NO, Err(Super(Clean))),
    ((0, 52, 1, 1), NO, NO, Err(Super(Reserved))),
    ((0, 55, 1, 1), NO, NO, Err(Super(Reserved))),
    ((0, 52, 4, 4_294_967_295), NO, NO, Err(Super(Reserved))),
    ((0, 64, 1, 1), NO, NO, Err(Super(Reserved))),
    ((0, 511, 1, 1), NO, NO, Err(Super(Reserved))),
    (
        (0, 64, 8, 18_446_744_073_709_551_615),
        NO,
        NO,
        Err(Super(Reserved)),
    ),
    (
        (0, 504, 8, 18_446_744_073_709_551_615),
        NO,
        NO,
        Err(Super(Reserved)),
    ),
    ((0, 512, 1, 1), NO, NO, Ok(Some(3))),
    ((0, 512, 8, 18_446_744_073_709_551_615), NO, NO, Ok(Some(3))),
    (
        (0, 4088, 8, 18_446_744_073_709_551_615),
        NO,
        NO,
        Ok(Some(3)),
    ),
    ((0, 56, 8, 0), NO, NO, Err(Super(Start))),
    ((0, 56, 8, 1), NO, NO, Ok(Some(3))),
    ((0, 56, 8, 18_014_398_509_481_983), NO, NO, Ok(Some(3))),
    (
        (0, 56, 8, 18_014_398_509_481_984),
        NO,
        NO,
        Err(Super(Start)),
    ),
    (
        (0, 56, 8, 18_446_744_073_709_551_615),
        NO,
        NO,
        Err(Super(Start)),
    ),
    // The index and the data aren't looked at.
    ((69, 0, 8, 18_446_744_073_709_551_615), NO, NO, Ok(Some(3))),
    (
        (72, 4088, 8, 18_446_744_073_709_551_615),
        NO,
        NO,
        Ok(Some(3)),
    ),
    ((74, 0, 8, 18_446_744_073_709_551_615), NO, NO, Ok(Some(3))),
    (
        (88, 4088, 8, 18_446_744_073_709_551_615),
        NO,
        NO,
        Ok(Some(3)),
    ),
];

static SIZES: [Bent; 42] = [
    // Mappings past the logical size count too.
    ((0, 24, 4, 0), NO, NO, Err(Super(Logical))),
    ((0, 24, 4, 1), NO, NO, Ok(Some(3))),
    ((0, 24, 4, 39_560_640), NO, NO, Ok(Some(3))),
    ((0, 24, 4, 39_560_641), NO, NO, Err(Super(Logical))),
    ((0, 24, 4, 4_294_967_295), NO, NO, Err(Super(Logical))),
    // A device with more blocks would be needed.
    ((0, 28, 4, 0), NO, NO, Err(Super(Slabs))),
    ((0, 28, 4, 1), NO, NO, Ok(Some(3))),
    ((0, 28, 4, 2), NO, NO, Err(Super(Blocks))),
    ((0, 28, 4, 1_024), NO, NO, Err(Super(Blocks))),
    ((0, 28, 4, 1_025), NO, NO, Err(Super(Slabs))),
    ((0, 28, 4, 4_294_967_295), NO, NO, Err(Super(Slabs))),
    ((0, 32, 4, 0), NO, NO, Err(Super(SlabBlocks))),
    ((0, 32, 4, 15), NO, NO, Err(Super(SlabBlocks))),
    ((0, 32, 4, 16), NO, NO, Ok(Some(3))),
    ((0, 32, 4, 17), NO, NO, Err(Super(Blocks))),
    ((0, 32, 4, 32_768), NO, NO, Err(Super(Blocks))),
    ((0, 32, 4, 32_769), NO, NO, Err(Super(SlabBlocks))),
    ((0, 32, 4, 4_294_967_295), NO, NO, Err(Super(SlabBlocks))),
    ((0, 36, 4, 0), NO, NO, Err(Super(Journal))),
    ((0, 36, 4, 7), NO, NO, Err(Super(Journal))),
    ((0, 36, 4, 8), NO, NO, Ok(Some(3))),
    ((0, 36, 4, 9), NO, NO, Err(Super(Blocks))),
    ((0, 36, 4, 1_024), NO, NO, Err(Super(Blocks))),
    ((0, 36, 4, 1_025), NO, NO, Err(Super(Journal))),
    ((0, 36, 4, 4_294_967_295), NO, NO, Err(Super(Journal))),
    ((0, 40, 4, 0), NO, NO, Err(Super(Index))),
    ((0, 40, 4, 3), NO, NO, Err(Super(Index))),
    ((0, 40, 4, 4), NO, NO, Ok(Some(3))),
    ((0, 40, 4, 5), NO, NO, Err(Super(Index))),
    ((0, 40, 4, 8), NO, NO, Err(Super(Blocks))),
    ((0, 40, 4, 1_023), NO, NO, Err(Super(Index))),
    ((0, 40, 4, 1_024), NO, NO, Err(Super(Blocks))),
    ((0, 40, 4, 1_025), NO, NO, Err(Super(Index))),
    ((0, 40, 4, 1_028), NO, NO, Err(Super(Index))),
    ((0, 40, 4, 4_294_967_295), NO, NO, Err(Super(Index))),
    ((0, 44, 4, 0), NO, NO, Err(Super(SlabJournal))),
    ((0, 44, 4, 1), NO, NO, Err(Super(SlabJournal))),
    ((0, 44, 4, 2), NO, NO, Ok(Some(3))),
    ((0, 44, 4, 3), NO, NO, Err(Super(Blocks))),
    ((0, 44, 4, 64), NO, NO, Err(Super(Blocks))),
    ((0, 44, 4, 65), NO, NO, Err(Super(SlabJournal))),
    ((0, 44, 4, 4_294_967_295), NO, NO, Err(Super(SlabJournal))),
];

static HIGH_SIZES: [Bent; 10] = [
    (NO, NO, NO, Ok(Some(4))),
    // At height 2 the roots have another level.
    ((0, 12, 4, 1), NO, NO, Err(Super(Height))),
    ((0, 12, 4, 2), NO, NO, Err(Header(9))),
    ((0, 12, 4, 4), NO, NO, Err(Super(Height))),
    ((0, 24, 4, 0), NO, NO, Err(Super(Logical))),
    ((0, 24, 4, 1), NO, NO, Ok(Some(4))),
    ((0, 24, 4, 39_560_641), NO, NO, Ok(Some(4))),
    ((0, 24, 4, 4_000_000_000), NO, NO, Ok(Some(4))),
    ((0, 24, 4, 4_000_000_001), NO, NO, Err(Super(Logical))),
    ((0, 24, 4, 4_294_967_295), NO, NO, Err(Super(Logical))),
];

// The superblock of an image that wasn't closed, where the window's block has the sequence 6.
static STARTS: [Bent; 12] = [
    (NO, NO, NO, Ok(Some(2))),
    ((0, 48, 4, 1), NO, NO, Ok(None)),
    ((0, 48, 4, 2), NO, NO, Err(Super(Clean))),
    ((0, 48, 4, 4_294_967_295), NO, NO, Err(Super(Clean))),
    ((0, 56, 8, 0), NO, NO, Err(Super(Start))),
    ((0, 56, 8, 1), NO, NO, Ok(Some(2))),
    ((0, 56, 8, 6), NO, NO, Ok(Some(2))),
    ((0, 56, 8, 7), NO, NO, Ok(Some(0))),
    ((0, 56, 8, 18_014_398_509_481_982), NO, NO, Ok(Some(0))),
    (
        (0, 56, 8, 18_014_398_509_481_983),
        NO,
        NO,
        Err(Super(Start)),
    ),
    (
        (0, 56, 8, 18_014_398_509_481_984),
        NO,
        NO,
        Err(Super(Start)),
    ),
    (
        (0, 56, 8, 18_446_744_073_709_551_615),
        NO,
        NO,
        Err(Super(Start)),
    ),
];

#[test]
fn superblocks_are_checked(rt: HostRuntime) -> Result<(), Fail> {
    let found = [
        other_answer(rt.alloc(), &CLOSED, &FIELDS)?,
        other_answer(rt.alloc(), &CLOSED, &SIZES)?,
        other_answer(rt.alloc(), &HIGH, &HIGH_SIZES)?,
        other_answer(rt.alloc(), &UNCLEAN, &STARTS)?,
    ];
    assert_eq!(rt; found, [None; 4]);
    Ok(())
}
