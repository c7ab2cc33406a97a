use crate::bent_images::{Bent, NO, other_answer};
use crate::images::{GROWN, HIGH_GROWN};
use crate::named_faults::Fault::{Compressed, Header, Shared, Window};
use std::test::Fail;

// The entry of a new leaf of tree 1, at block 77: where its form is wrong there is no window.
static LEAVES: [Bent; 58] = [
    (NO, NO, NO, Ok(Some(2))),
    // Its kind. The other one has no tree.
    ((7, 32, 1, 0), NO, NO, Ok(Some(0))),
    ((7, 32, 2, 0), NO, NO, Ok(Some(2))),
    ((7, 32, 1, 2), NO, NO, Ok(Some(0))),
    ((7, 32, 1, 255), NO, NO, Ok(Some(0))),
    // Its tree: the page at the block is of tree 1. That of tree 59 is on no path, but where the logical size is greater.
    ((7, 33, 1, 0), NO, NO, Err(Header(77))),
    ((7, 33, 1, 59), NO, NO, Err(Window(6))),
    ((0, 24, 4, 47_908), (7, 33, 1, 59), NO, Err(Window(6))),
    ((0, 24, 4, 47_909), (7, 33, 1, 59), NO, Err(Header(77))),
    (
        (0, 24, 4, 47_909),
        (7, 33, 1, 59),
        (77, 20, 1, 59),
        Ok(Some(2)),
    ),
    ((7, 33, 1, 60), NO, NO, Ok(Some(0))),
    ((7, 33, 1, 255), NO, NO, Ok(Some(0))),
    // Its level, below that of the roots.
    ((7, 34, 1, 0), NO, NO, Ok(Some(2))),
    ((7, 34, 1, 1), NO, NO, Err(Window(6))),
    ((7, 34, 1, 2), NO, NO, Err(Window(6))),
    ((7, 34, 1, 255), NO, NO, Err(Window(6))),
    // Its zero.
    ((7, 35, 1, 1), NO, NO, Ok(Some(0))),
    ((7, 35, 1, 255), NO, NO, Ok(Some(0))),
    // Its index, of a page on a path.
    ((7, 36, 4, 1), NO, NO, Err(Window(6))),
    ((7, 36, 4, 4_294_967_295), NO, NO, Err(Window(6))),
    ((0, 24, 4, 49_532), (7, 36, 4, 1), NO, Err(Window(6))),
    ((0, 24, 4, 49_533), (7, 36, 4, 1), NO, Err(Header(77))),
    (
        (0, 24, 4, 49_533),
        (7, 36, 4, 1),
        (77, 24, 4, 1),
        Ok(Some(2)),
    ),
    ((0, 24, 4, 39_560_640), (7, 36, 4, 811), NO, Err(Header(77))),
    (
        (0, 24, 4, 39_560_640),
        (7, 36, 4, 811),
        (77, 24, 4, 811),
        Ok(Some(2)),
    ),
    ((0, 24, 4, 39_560_640), (7, 36, 4, 812), NO, Err(Window(6))),
    // Its old mapping, which is none.
    ((7, 40, 1, 1), NO, NO, Ok(Some(0))),
    ((7, 40, 1, 2), NO, NO, Ok(Some(0))),
    ((7, 40, 1, 16), NO, NO, Ok(Some(0))),
    ((7, 40, 1, 255), NO, NO, Ok(Some(0))),
    ((7, 41, 4, 1), NO, NO, Ok(Some(0))),
    ((7, 41, 4, 4_294_967_295), NO, NO, Ok(Some(0))),
    ((7, 40, 5, 19_713), NO, NO, Ok(Some(0))),
    // Its block.
    ((7, 45, 5, 0), NO, NO, Ok(Some(0))),
    ((7, 45, 1, 0), NO, NO, Ok(Some(0))),
    ((7, 45, 1, 2), NO, NO, Ok(Some(0))),
    ((7, 45, 1, 15), NO, NO, Ok(Some(0))),
    ((7, 45, 1, 16), NO, NO, Ok(Some(0))),
    ((7, 45, 1, 17), NO, NO, Ok(Some(0))),
    ((7, 45, 1, 241), NO, NO, Ok(Some(0))),
    ((7, 45, 1, 255), NO, NO, Ok(Some(0))),
    ((7, 46, 4, 0), NO, NO, Ok(Some(0))),
    ((7, 46, 4, 1), NO, NO, Err(Window(6))),
    ((7, 46, 4, 72), NO, NO, Err(Window(6))),
    ((7, 46, 4, 73), NO, NO, Err(Header(73))),
    ((7, 46, 4, 78), NO, NO, Err(Header(78))),
    ((7, 46, 4, 88), NO, NO, Err(Header(88))),
    ((7, 46, 4, 89), NO, NO, Err(Window(6))),
    ((7, 46, 4, 4_294_967_295), NO, NO, Err(Window(6))),
    // Its last zeros.
    ((7, 50, 2, 1), NO, NO, Ok(Some(0))),
    ((7, 50, 2, 256), NO, NO, Ok(Some(0))),
    ((7, 50, 2, 65_535), NO, NO, Ok(Some(0))),
    // The page at that block, and the root's slot that leads to it, which isn't looked at.
    ((77, 0, 1, 0), NO, NO, Err(Header(77))),
    ((77, 36, 1, 2), NO, NO, Ok(Some(2))),
    ((77, 41, 1, 2), NO, NO, Err(Compressed(77, 1))),
    ((10, 36, 1, 2), NO, NO, Ok(Some(2))),
    ((10, 41, 1, 2), NO, NO, Err(Compressed(10, 1))),
    // An address of that page that has the block of the page.
    ((7, 66, 4, 77), NO, NO, Err(Shared(77))),
];

// The entries of two new pages of tree 1 at height 3, at blocks 79 and 78.
static HIGH_PAGES: [Bent; 38] = [
    (NO, NO, NO, Ok(Some(2))),
    // The tree of the first page and of the second.
    ((7, 33, 1, 0), NO, NO, Err(Header(79))),
    ((7, 33, 1, 59), NO, NO, Err(Window(6))),
    ((7, 33, 1, 60), NO, NO, Ok(Some(0))),
    ((7, 33, 1, 255), NO, NO, Ok(Some(0))),
    ((7, 53, 1, 0), NO, NO, Err(Header(78))),
    ((7, 53, 1, 59), NO, NO, Err(Window(6))),
    ((7, 53, 1, 60), NO, NO, Ok(Some(0))),
    ((7, 53, 1, 255), NO, NO, Ok(Some(0))),
    // Their levels, below that of the roots. The second is below the first.
    ((7, 34, 1, 0), NO, NO, Ok(Some(2))),
    ((7, 34, 1, 2), NO, NO, Err(Window(6))),
    ((7, 34, 1, 3), NO, NO, Err(Window(6))),
    ((7, 34, 1, 255), NO, NO, Err(Window(6))),
    ((7, 54, 1, 1), NO, NO, Err(Header(78))),
    ((7, 54, 1, 2), NO, NO, Err(Window(6))),
    ((7, 54, 1, 255), NO, NO, Err(Window(6))),
    // The index of the first, of a page on a path.
    ((7, 36, 4, 1), NO, NO, Err(Window(6))),
    (
        (0, 24, 4, 4_000_000_000),
        (7, 36, 4, 1),
        NO,
        Err(Header(79)),
    ),
    (
        (0, 24, 4, 4_000_000_000),
        (7, 36, 4, 101),
        NO,
        Err(Header(79)),
    ),
    (
        (0, 24, 4, 4_000_000_000),
        (7, 36, 4, 101),
        (79, 24, 4, 101),
        Ok(Some(2)),
    ),
    (
        (0, 24, 4, 4_000_000_000),
        (7, 36, 4, 102),
        NO,
        Err(Window(6)),
    ),
    (
        (0, 24, 4, 4_000_000_000),
        (7, 36, 4, 4_294_967_295),
        NO,
        Err(Window(6)),
    ),
    // That of the second. The first leads to those up to 811, and no page that is linked to the others.
    ((7, 56, 4, 1), NO, NO, Err(Window(6))),
    (
        (0, 24, 4, 4_000_000_000),
        (7, 56, 4, 1),
        NO,
        Err(Header(78)),
    ),
    (
        (0, 24, 4, 4_000_000_000),
        (7, 56, 4, 811),
        NO,
        Err(Header(78)),
    ),
    (
        (0, 24, 4, 4_000_000_000),
        (7, 56, 4, 811),
        (78, 24, 4, 811),
        Ok(Some(2)),
    ),
    ((0, 24, 4, 4_000_000_000), (7, 56, 4, 812), NO, Ok(Some(2))),
    (
        (0, 24, 4, 4_000_000_000),
        (7, 56, 4, 82_101),
        NO,
        Ok(Some(2)),
    ),
    (
        (0, 24, 4, 4_000_000_000),
        (7, 56, 4, 82_102),
        NO,
        Err(Window(6)),
    ),
    (
        (0, 24, 4, 4_000_000_000),
        (7, 56, 4, 4_294_967_295),
        NO,
        Err(Window(6)),
    ),
    // Their blocks.
    ((7, 46, 4, 72), NO, NO, Err(Window(6))),
    ((7, 46, 4, 77), NO, NO, Err(Header(77))),
    ((7, 46, 4, 78), NO, NO, Err(Header(78))),
    ((7, 46, 4, 88), NO, NO, Err(Header(88))),
    ((7, 46, 4, 89), NO, NO, Err(Window(6))),
    ((7, 66, 4, 72), NO, NO, Err(Window(6))),
    ((7, 66, 4, 79), NO, NO, Err(Header(79))),
    ((7, 66, 4, 89), NO, NO, Err(Window(6))),
];

#[test]
fn new_pages_are_checked(rt: HostRuntime) -> Result<(), Fail> {
    let found = [
        other_answer(rt.alloc(), &GROWN, &LEAVES)?,
        other_answer(rt.alloc(), &HIGH_GROWN, &HIGH_PAGES)?,
    ];
    assert_eq!(rt; found, [None; 2]);
    Ok(())
}
