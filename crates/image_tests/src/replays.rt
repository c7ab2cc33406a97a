ghost use Rattle.std.specs.Prelude.{◌≤◌, ◌<◌, ◌^◌, IfOk};
ghost use Rattle.blk_base.specs.Limits.{IsGeometry};
ghost use Rattle.blk_base.specs.Regions.{needed_blocks};
ghost use Rattle.disk_model.specs.Fuses.{HasNotCut};
ghost use Rattle.disk_model.specs.Memory.{seen_of};

use crate::bent_images::{Change, put_changes};
use crate::images::{
    ABOVE as FIRST_ROOT, Image, Journal, LEAF as FIRST_LEAF, TOP as HIGH_ROOT, blocks_of,
};
use blk_base::Mapping::At;
use blk_base::{Entry, Geometry, Lba, Mapping, PageId, Pbn, Super};
use disk_model::MemDisk;
use image_layout::{Field, SuperFault};
use image_model::ImageFault;
use image_opening::read_head;
use journal_window::read_window;
use page_codec::PageFault;
use replay_map::{Link, RecoveredMap, SlotChange, replay, replay_with};
use std::alloc::{AllocError, Global};
use std::test::Fail;
use test_images::Page;

// The images have one slab. Their bytes are put together from the definitions of the formats by their codecs, and what is
// found was worked out by hand. The journal's blocks are 1 to 8, the roots 9 to 68, and the data blocks 85 to 148. The
// logical size is 1000: addresses 812 to 999 have the first leaf of tree 1.

// The height, the session's first sequence, the journal, the pages (other roots have no mappings), and bytes that are put
// elsewhere.
type Written = (u32, u64, Journal, &'static [Page], &'static [Change]);

// The first links, changes and mapped blocks (0 where there are no more), the last sequence and the window's length.
type Found = (
    [Option<Link>; 3],
    [Option<SlotChange>; 3],
    [u32; 5],
    u64,
    u32,
);

type Replayed = Result<Found, ImageFault>;

// The same as a row has it.
type Wanted = Result<
    (
        &'static [Link],
        &'static [SlotChange],
        &'static [Pbn],
        u64,
        u32,
    ),
    ImageFault,
>;

// The roots and leaves of the first two trees. At height 3 the page above the first leaves has the name of the first root at
// height 2.
const SECOND_ROOT: PageId = PageId {
    tree: 1,
    ..FIRST_ROOT
};

const SECOND_LEAF: PageId = PageId {
    tree: 1,
    ..FIRST_LEAF
};

const NEXT_LEAF: PageId = PageId {
    tree: 0,
    level: 0,
    index: 1,
};

// Addresses 5 and 688 share block 86, and slot 700 of the other leaf is past the logical size.
const PAGES: &[Page] = &[
    (FIRST_ROOT, 9, &[(0, At(Pbn(90)))]),
    (SECOND_ROOT, 10, &[(0, At(Pbn(91)))]),
    (
        FIRST_LEAF,
        90,
        &[(5, At(Pbn(86))), (6, Mapping::Zero), (688, At(Pbn(86)))],
    ),
    (SECOND_LEAF, 91, &[(700, At(Pbn(87)))]),
    (SECOND_LEAF, 92, &[(1, At(Pbn(88)))]),
];

// The leaf of tree 0 stands behind that of tree 1.
const TURNED: &[Page] = &[
    (FIRST_ROOT, 9, &[(0, At(Pbn(95)))]),
    (SECOND_ROOT, 10, &[(0, At(Pbn(91)))]),
    (FIRST_LEAF, 95, &[(5, At(Pbn(86)))]),
    (SECOND_LEAF, 91, &[]),
];

// A tree of height 3.
const HIGH: &[Page] = &[
    (HIGH_ROOT, 9, &[(0, At(Pbn(90)))]),
    (FIRST_ROOT, 90, &[(1, At(Pbn(91)))]),
    (FIRST_LEAF, 92, &[(2, At(Pbn(88)))]),
    (NEXT_LEAF, 91, &[(0, At(Pbn(87)))]),
];

// The first leaf maps addresses to the blocks of both leaves, to 91 first; so does the other one.
const SHARED: &[Page] = &[
    (FIRST_ROOT, 9, &[(0, At(Pbn(90)))]),
    (SECOND_ROOT, 10, &[(0, At(Pbn(91)))]),
    (FIRST_LEAF, 90, &[(5, At(Pbn(91))), (6, At(Pbn(90)))]),
    (SECOND_LEAF, 91, &[(7, At(Pbn(91)))]),
];

// The leaves of two trees stand at one block, which is the first one's.
const TWICE: &[Page] = &[
    (FIRST_ROOT, 9, &[(0, At(Pbn(90)))]),
    (SECOND_ROOT, 10, &[(0, At(Pbn(90)))]),
    (FIRST_LEAF, 90, &[]),
];

// The newest entry of an address counts, and a new page takes the place of an old one.
const ENTRIES: &[Entry] = &[
    Entry::Remap {
        at: Lba(5),
        old: Mapping::Unmapped,
        new: At(Pbn(88)),
    },
    Entry::Remap {
        at: Lba(6),
        old: Mapping::Unmapped,
        new: Mapping::Unmapped,
    },
    Entry::NewPage {
        page: SECOND_LEAF,
        at: Pbn(92),
    },
    Entry::Remap {
        at: Lba(5),
        old: Mapping::Unmapped,
        new: At(Pbn(89)),
    },
];

static ROWS: [(Written, Wanted); 16] = [
    (
        (2, 6, &[], PAGES, &[]),
        Ok((
            &[
                Link {
                    page: FIRST_LEAF,
                    at: Pbn(90),
                },
                Link {
                    page: SECOND_LEAF,
                    at: Pbn(91),
                },
            ],
            &[],
            &[Pbn(86), Pbn(86), Pbn(87)],
            5,
            0,
        )),
    ),
    (
        (2, 6, &[(6, 6, ENTRIES)], PAGES, &[]),
        Ok((
            &[
                Link {
                    page: FIRST_LEAF,
                    at: Pbn(90),
                },
                Link {
                    page: SECOND_LEAF,
                    at: Pbn(92),
                },
            ],
            &[
                SlotChange {
                    page: FIRST_LEAF,
                    slot: 5,
                    mapping: At(Pbn(89)),
                },
                SlotChange {
                    page: FIRST_LEAF,
                    slot: 6,
                    mapping: Mapping::Unmapped,
                },
                SlotChange {
                    page: SECOND_ROOT,
                    slot: 0,
                    mapping: At(Pbn(92)),
                },
            ],
            &[Pbn(89), Pbn(86), Pbn(88)],
            6,
            4,
        )),
    ),
    // The window goes round the ring, and its oldest block is that of sequence 12.
    (
        (
            2,
            10,
            &[
                (
                    10,
                    10,
                    &[Entry::Remap {
                        at: Lba(6),
                        old: Mapping::Unmapped,
                        new: At(Pbn(93)),
                    }],
                ),
                (
                    11,
                    10,
                    &[Entry::Remap {
                        at: Lba(6),
                        old: Mapping::Unmapped,
                        new: At(Pbn(94)),
                    }],
                ),
                (
                    12,
                    10,
                    &[Entry::Remap {
                        at: Lba(7),
                        old: Mapping::Unmapped,
                        new: At(Pbn(95)),
                    }],
                ),
                (
                    13,
                    10,
                    &[Entry::Remap {
                        at: Lba(5),
                        old: Mapping::Unmapped,
                        new: At(Pbn(96)),
                    }],
                ),
                (
                    14,
                    10,
                    &[Entry::Remap {
                        at: Lba(5),
                        old: Mapping::Unmapped,
                        new: At(Pbn(97)),
                    }],
                ),
                (
                    15,
                    10,
                    &[Entry::Remap {
                        at: Lba(5),
                        old: Mapping::Unmapped,
                        new: At(Pbn(98)),
                    }],
                ),
                (
                    16,
                    12,
                    &[Entry::Remap {
                        at: Lba(5),
                        old: Mapping::Unmapped,
                        new: At(Pbn(99)),
                    }],
                ),
                (
                    17,
                    12,
                    &[Entry::Remap {
                        at: Lba(5),
                        old: Mapping::Unmapped,
                        new: At(Pbn(100)),
                    }],
                ),
            ],
            PAGES,
            &[],
        ),
        Ok((
            &[
                Link {
                    page: FIRST_LEAF,
                    at: Pbn(90),
                },
                Link {
                    page: SECOND_LEAF,
                    at: Pbn(91),
                },
            ],
            &[
                SlotChange {
                    page: FIRST_LEAF,
                    slot: 5,
                    mapping: At(Pbn(100)),
                },
                SlotChange {
                    page: FIRST_LEAF,
                    slot: 7,
                    mapping: At(Pbn(95)),
                },
            ],
            &[Pbn(100), Pbn(95), Pbn(86), Pbn(87)],
            17,
            6,
        )),
    ),
    // The second page of the height 3 is linked by the window alone.
    (
        (
            3,
            6,
            &[(
                6,
                6,
                &[Entry::NewPage {
                    page: FIRST_LEAF,
                    at: Pbn(92),
                }],
            )],
            HIGH,
            &[],
        ),
        Ok((
            &[
                Link {
                    page: FIRST_ROOT,
                    at: Pbn(90),
                },
                Link {
                    page: FIRST_LEAF,
                    at: Pbn(92),
                },
                Link {
                    page: NEXT_LEAF,
                    at: Pbn(91),
                },
            ],
            &[SlotChange {
                page: FIRST_ROOT,
                slot: 0,
                mapping: At(Pbn(92)),
            }],
            &[Pbn(88), Pbn(87)],
            6,
            1,
        )),
    ),
    // An address whose leaf nothing links.
    (
        (
            2,
            6,
            &[(
                6,
                6,
                &[Entry::Remap {
                    at: Lba(999),
                    old: Mapping::Unmapped,
                    new: At(Pbn(88)),
                }],
            )],
            &[],
            &[],
        ),
        Ok((&[], &[], &[], 6, 1)),
    ),
    // A slot that can't be read isn't judged where the window replaces it.
    (
        (2, 6, &[(6, 6, ENTRIES)], PAGES, &[(90, 61, 1, 2)]),
        Ok((
            &[
                Link {
                    page: FIRST_LEAF,
                    at: Pbn(90),
                },
                Link {
                    page: SECOND_LEAF,
                    at: Pbn(92),
                },
            ],
            &[
                SlotChange {
                    page: FIRST_LEAF,
                    slot: 5,
                    mapping: At(Pbn(89)),
                },
                SlotChange {
                    page: FIRST_LEAF,
                    slot: 6,
                    mapping: Mapping::Unmapped,
                },
                SlotChange {
                    page: SECOND_ROOT,
                    slot: 0,
                    mapping: At(Pbn(92)),
                },
            ],
            &[Pbn(89), Pbn(86), Pbn(88)],
            6,
            4,
        )),
    ),
    (
        (2, 6, &[], PAGES, &[(90, 61, 1, 2)]),
        Err(ImageFault::Page {
            at: Pbn(90),
            fault: PageFault::Compressed(5),
        }),
    ),
    (
        (2, 6, &[], PAGES, &[(11, 0, 1, 0)]),
        Err(ImageFault::Page {
            at: Pbn(11),
            fault: PageFault::Header,
        }),
    ),
    // The leaf below the first root comes before the second root, whatever their blocks are.
    (
        (2, 6, &[], PAGES, &[(10, 0, 1, 0), (90, 62, 1, 84)]),
        Err(ImageFault::Page {
            at: Pbn(90),
            fault: PageFault::OutOfRange(5),
        }),
    ),
    (
        (2, 6, &[], TURNED, &[(91, 0, 1, 0), (95, 0, 1, 0)]),
        Err(ImageFault::Page {
            at: Pbn(95),
            fault: PageFault::Header,
        }),
    ),
    (
        (2, 6, &[], TWICE, &[]),
        Err(ImageFault::Page {
            at: Pbn(90),
            fault: PageFault::Header,
        }),
    ),
    (
        (2, 6, &[], SHARED, &[]),
        Err(ImageFault::SharedPage { at: Pbn(90) }),
    ),
    // The window puts the data of an address where a page stands; a page that can't be read comes before.
    (
        (
            2,
            6,
            &[(
                6,
                6,
                &[Entry::Remap {
                    at: Lba(5),
                    old: Mapping::Unmapped,
                    new: At(Pbn(91)),
                }],
            )],
            PAGES,
            &[],
        ),
        Err(ImageFault::SharedPage { at: Pbn(91) }),
    ),
    (
        (2, 6, &[], SHARED, &[(68, 4, 1, 9)]),
        Err(ImageFault::Page {
            at: Pbn(68),
            fault: PageFault::Header,
        }),
    ),
    // The window's fault comes before that of a page.
    (
        (2, 6, &[(7, 6, ENTRIES)], PAGES, &[(9, 0, 1, 0)]),
        Err(ImageFault::Window { sequence: 6 }),
    ),
    (
        (2, (1 << 54) - 1, &[], PAGES, &[(9, 0, 1, 0)]),
        Err(ImageFault::Super(SuperFault::BadField(Field::Start))),
    ),
];

// What was found, as far as it is compared; there are no more links and changes than three, and no more mapped blocks than
// five.
fn shown(links: &[Link], slots: &[SlotChange], mapped: &[Pbn], last: u64, entries: u32) -> Found {
    let blocks = [
        block_at(mapped, 0),
        block_at(mapped, 1),
        block_at(mapped, 2),
        block_at(mapped, 3),
        block_at(mapped, 4),
    ];
    let links = [
        links.first().copied(),
        links.get(1).copied(),
        links.get(2).copied(),
    ];
    let slots = [
        slots.first().copied(),
        slots.get(1).copied(),
        slots.get(2).copied(),
    ];
    (links, slots, blocks, last, entries)
}

fn shown_of(map: &RecoveredMap) -> Found {
    shown(&map.links, &map.slots, &map.mapped, map.last, map.entries)
}

fn wanted_by(wanted: Wanted) -> Replayed {
    match wanted {
        Ok((links, slots, mapped, last, entries)) => {
            Ok(shown(links, slots, mapped, last, entries))
        }
        Err(fault) => Err(fault),
    }
}

// The block at a place, or 0.
fn block_at(mapped: &[Pbn], place: usize) -> u32 {
    match mapped.get(place) {
        Some(block) => block.0,
        None => 0,
    }
}

fn image_of((height, start, journal, pages, _): Written) -> Image {
    Image {
        geometry: Geometry {
            height,
            ..Geometry::DEFAULT
        },
        clean: false,
        start,
        journal,
        pages,
        counters: &[],
        commits: &[],
        updates: &[],
    }
}

fn device_of(alloc: Global, written: Written) -> Result<MemDisk, AllocError>
    ensures { IfOk result (λ device. HasNotCut device.fuse) }
{
    let mut blocks = blocks_of(alloc, &image_of(written))?;
    put_changes(&mut blocks, written.4);
    MemDisk::from_blocks(alloc, blocks)
}

// What is found on a device with this superblock; whether with a window that is read before.
fn found(alloc: Global, head: &Super, device: &mut MemDisk, with_window: bool) -> Replayed
    requires sizes { IsGeometry head.now.geometry }
    requires some { 1 ≤ head.now.start }
    requires below { head.now.start < 2 ^ 54 }
    requires room { needed_blocks head.now.geometry ≤ (seen_of device.old).size }
{
    let replayed = if with_window {
        let window = match read_window(alloc, head, device) {
            Ok(window) => window,
            Err(fault) => return Err(fault),
        };
        replay_with(alloc, head, &window, device)
    } else {
        replay(alloc, head, device)
    };
    match replayed {
        Ok(map) => Ok(shown_of(&map)),
        Err(fault) => Err(fault),
    }
}

// What is found on a device of which so many calls go on behind the first, and how many its log has then.
fn find(
    alloc: Global,
    written: Written,
    passes: u64,
    with_window: bool,
) -> Result<(Replayed, usize), AllocError> {
    let mut device = device_of(alloc, written)?;
    device.set_fuse(passes.saturating_add(1));
    let found = match read_head(&mut device) {
        Ok(head) => found(alloc, &head, &mut device, with_window),
        Err(fault) => Err(fault),
    };
    Ok((found, device.calls().len().saturating_sub(1)))
}

// The first row of which something else is found.
fn other_row(alloc: Global, with_window: bool) -> Result<Option<(usize, Replayed)>, AllocError> {
    for (i, &(written, wanted)) in ROWS.iter().enumerate() {
        let (found, _) = find(alloc, written, 1000, with_window)?;
        if found != wanted_by(wanted) {
            return Ok(Some((i, found)));
        }
    }
    Ok(None)
}

#[test]
fn images_are_replayed(rt: HostRuntime) -> Result<(), Fail> {
    let others = [other_row(rt.alloc(), false)?, other_row(rt.alloc(), true)?];
    assert_eq!(rt; others, [None; 2]);
    Ok(())
}

// After so many calls the next one fails: of the journal's 8 blocks, of the 60 roots, or the last one, of a leaf.
static CUTS: [u64; 4] = [0, 7, 8, 69];

// The first of them by which something else is found.
fn other_cut(
    alloc: Global,
    written: Written,
) -> Result<Option<(u64, Replayed, usize)>, AllocError> {
    for passes in CUTS {
        let (found, calls) = find(alloc, written, passes, false)?;
        if found != Err(ImageFault::Device) || calls as u64 != passes + 1 {
            return Ok(Some((passes, found, calls)));
        }
    }
    Ok(None)
}

#[test]
fn a_page_that_is_not_read_is_told(rt: HostRuntime) -> Result<(), Fail> {
    let (written, wanted) = ROWS[1];
    let cut = other_cut(rt.alloc(), written)?;
    let whole = find(rt.alloc(), written, 70, false)?;
    assert_eq!(rt; (cut, whole), (None, (wanted_by(wanted), 70)));
    Ok(())
}
