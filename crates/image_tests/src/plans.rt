use blk_base::Geometry;
use image_layout::LayoutFault::{LogicalTooLarge, Size, TooSmall};
use image_layout::{Field, LayoutFault, plan};

const SIZES: Geometry = Geometry::DEFAULT;

// The greatest sizes of each height.
const GREATEST: Geometry = Geometry {
    logical: 4_000_000_000,
    slabs: 1024,
    slab_blocks: 32768,
    journal: 1024,
    index: 1024,
    slab_journal: 64,
    height: 3,
    nonce: u64::MAX,
};

// Sizes that are all outside their limits, and then the same with one after the other mended.
const NONE: Geometry = Geometry {
    logical: 0,
    slabs: 0,
    slab_blocks: 15,
    journal: 7,
    index: 6,
    slab_journal: 1,
    height: 1,
    nonce: 0,
};

const HIGH: Geometry = Geometry { height: 2, ..NONE };

const NAMED: Geometry = Geometry { nonce: 1, ..HIGH };

const SIZED: Geometry = Geometry {
    logical: 39_560_641,
    ..NAMED
};

const IN_SLABS: Geometry = Geometry { slabs: 1, ..SIZED };

const WITH_DATA: Geometry = Geometry {
    slab_blocks: 64,
    ..IN_SLABS
};

const JOURNALED: Geometry = Geometry {
    journal: 8,
    ..WITH_DATA
};

const INDEXED: Geometry = Geometry {
    index: 16,
    ..JOURNALED
};

const SLAB_JOURNALED: Geometry = Geometry {
    slab_journal: 4,
    ..INDEXED
};

const FITTING: Geometry = Geometry {
    logical: 39_560_640,
    ..SLAB_JOURNALED
};

// Sizes, the blocks of the device, and why they can't be had; in the order of the checks.
static ORDER: [(Geometry, u32, Option<LayoutFault>); 10] = [
    (NONE, 0, Some(Size(Field::Height))),
    (HIGH, 0, Some(Size(Field::Nonce))),
    (NAMED, 0, Some(Size(Field::Logical))),
    (SIZED, 0, Some(Size(Field::Slabs))),
    (IN_SLABS, 0, Some(Size(Field::SlabBlocks))),
    (WITH_DATA, 0, Some(Size(Field::Journal))),
    (JOURNALED, 0, Some(Size(Field::Index))),
    (INDEXED, 0, Some(Size(Field::SlabJournal))),
    (SLAB_JOURNALED, 0, Some(LogicalTooLarge)),
    (
        FITTING,
        0,
        Some(TooSmall {
            needed: 154,
            has: 0,
        }),
    ),
];

// The ends of ranges, and devices of one block more or less than are needed.
static ENDS: [(Geometry, u32, Option<LayoutFault>); 14] = [
    (SIZES, 154, None),
    (SIZES, 155, None),
    (
        SIZES,
        153,
        Some(TooSmall {
            needed: 154,
            has: 153,
        }),
    ),
    (
        Geometry { slabs: 2, ..SIZES },
        222,
        Some(TooSmall {
            needed: 223,
            has: 222,
        }),
    ),
    (GREATEST, 33_631_293, None),
    (
        GREATEST,
        0,
        Some(TooSmall {
            needed: 33_631_293,
            has: 0,
        }),
    ),
    (
        Geometry {
            height: 4,
            ..GREATEST
        },
        u32::MAX,
        Some(Size(Field::Height)),
    ),
    (
        Geometry {
            logical: 4_000_000_001,
            ..GREATEST
        },
        u32::MAX,
        Some(LogicalTooLarge),
    ),
    (
        Geometry {
            slabs: 1025,
            ..GREATEST
        },
        u32::MAX,
        Some(Size(Field::Slabs)),
    ),
    (
        Geometry {
            slab_blocks: 32769,
            ..GREATEST
        },
        u32::MAX,
        Some(Size(Field::SlabBlocks)),
    ),
    (
        Geometry {
            journal: 1025,
            ..GREATEST
        },
        u32::MAX,
        Some(Size(Field::Journal)),
    ),
    (
        Geometry {
            index: 1028,
            ..GREATEST
        },
        u32::MAX,
        Some(Size(Field::Index)),
    ),
    (
        Geometry {
            index: 1022,
            ..GREATEST
        },
        u32::MAX,
        Some(Size(Field::Index)),
    ),
    (
        Geometry {
            slab_journal: 65,
            ..GREATEST
        },
        u32::MAX,
        Some(Size(Field::SlabJournal)),
    ),
];

// The first row of which something else is answered, with that.
fn wrong_row(
    rows: &[(Geometry, u32, Option<LayoutFault>)],
) -> Option<(usize, Option<LayoutFault>)> {
    for (i, (sizes, blocks, wanted)) in rows.iter().enumerate() {
        let found = match plan(sizes, *blocks) {
            Ok(layout) if layout.geometry == *sizes => None,
            Ok(_) => return Some((i, None)),
            Err(fault) => Some(fault),
        };
        if found != *wanted {
            return Some((i, found));
        }
    }
    None
}

// Faults come in their order, and ranges have ends.
#[test]
fn sizes_are_planned(rt: HostRuntime) {
    assert_eq!(rt; [wrong_row(&ORDER), wrong_row(&ENDS)], [None; 2]);
}
