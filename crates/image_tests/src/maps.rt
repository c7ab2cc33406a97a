use crate::images::LEAF;
use blk_base::{
    Block, CommittedEntry, Entry, Geometry, Lba, Mapping, Mappings, PageId, Pbn, Point,
};
use page_codec::{PageFault, PageHead};
use replay_map::{Changes, Link, links_of, read_page};
use std::alloc::{AllocError, Global};
use std::test::Fail;
use test_images::page_block;

// Address 5 is mapped twice, and address 48720 × 2 + 812 × 3 + 7 once, in slot 7 of leaf 2 of tree 3. The leaves 0 and 813 of
// tree 1 are linked, and a page that has none above it.
static WINDOW: [CommittedEntry; 6] = [
    CommittedEntry {
        entry: Entry::Remap {
            at: Lba(5),
            old: Mapping::Unmapped,
            new: Mapping::At(Pbn(86)),
        },
        point: Point(512),
    },
    CommittedEntry {
        entry: Entry::Remap {
            at: Lba(99_883),
            old: Mapping::Unmapped,
            new: Mapping::Zero,
        },
        point: Point(512),
    },
    CommittedEntry {
        entry: Entry::NewPage {
            page: PageId {
                tree: 1,
                level: 0,
                index: 0,
            },
            at: Pbn(90),
        },
        point: Point(514),
    },
    CommittedEntry {
        entry: Entry::NewPage {
            page: PageId {
                tree: 1,
                level: 0,
                index: 813,
            },
            at: Pbn(91),
        },
        point: Point(514),
    },
    CommittedEntry {
        entry: Entry::NewPage {
            page: PageId {
                tree: 1,
                level: 255,
                index: 0,
            },
            at: Pbn(92),
        },
        point: Point(514),
    },
    CommittedEntry {
        entry: Entry::Remap {
            at: Lba(5),
            old: Mapping::Unmapped,
            new: Mapping::At(Pbn(87)),
        },
        point: Point(512),
    },
];

// Slots, by the tree, the level and the index of their page, and what the window puts there.
static SLOTS: [(u8, u8, u32, u16, Option<Mapping>); 8] = [
    (0, 0, 0, 5, Some(Mapping::At(Pbn(87)))),
    (0, 0, 0, 6, None),
    (1, 0, 0, 5, None),
    (3, 0, 2, 7, Some(Mapping::Zero)),
    (1, 1, 0, 0, Some(Mapping::At(Pbn(90)))),
    (1, 1, 1, 1, Some(Mapping::At(Pbn(91)))),
    (1, 1, 0, 1, None),
    (1, 0, 0, 0, None),
];

#[test]
fn changes_are_the_newest(rt: HostRuntime) -> Result<(), Fail> {
    let changes = Changes::of(rt.alloc(), &WINDOW)?;
    for (i, &(tree, level, index, slot, wanted)) in SLOTS.iter().enumerate() {
        let found = changes.get(PageId { tree, level, index }, slot);
        assert_eq!(rt; (i, found), (i, wanted));
    }
    Ok(())
}

// The leaf 0 of tree 0, at block 100: slot 4 has zeros and slot 5 block 88.
const HEAD: PageHead = PageHead {
    geometry: Geometry::DEFAULT,
    page: LEAF,
    at: Pbn(100),
};

// What slots 4, 5 and 6 say.
type Said = Result<[Mapping; 3], PageFault>;

// Its block, with some other bytes.
fn block_with(others: &[(usize, u8)]) -> Block {
    let slots = [(4, Mapping::Zero), (5, Mapping::At(Pbn(88)))];
    let mut block = page_block(HEAD.geometry, HEAD.page, 100, &slots);
    for &(at, byte) in others {
        if let Some(into) = block.bytes.get_mut(at) {
            *into = byte;
        }
    }
    block
}

// What is read of it, with some other bytes.
fn read(
    alloc: Global,
    others: &[(usize, u8)],
    window: &[CommittedEntry],
) -> Result<Said, AllocError> {
    let block = block_with(others);
    let changes = Changes::of(alloc, window)?;
    let mut into = Mappings::new();
    Ok(match read_page(&block, &HEAD, &changes, &mut into) {
        Ok(()) => Ok([into.get(4), into.get(5), into.get(6)]),
        Err(fault) => Err(fault),
    })
}

// The state of slot 5 stands in byte 61, and the block of slot 6 begins at byte 67.
#[test]
fn pages_are_read_with_changes(rt: HostRuntime) -> Result<(), Fail> {
    let stood = [Mapping::Zero, Mapping::At(Pbn(88)), Mapping::Unmapped];
    let changed = [Mapping::Zero, Mapping::At(Pbn(87)), Mapping::Unmapped];
    let found = [
        read(rt.alloc(), &[], &[])?,
        read(rt.alloc(), &[], &WINDOW)?,
        read(rt.alloc(), &[(61, 2)], &[])?,
        read(rt.alloc(), &[(61, 2)], &WINDOW)?,
        read(rt.alloc(), &[(61, 2), (66, 3)], &WINDOW)?,
        read(rt.alloc(), &[(61, 2), (66, 1), (67, 84)], &WINDOW)?,
        read(rt.alloc(), &[(61, 2), (0, 0)], &WINDOW)?,
    ];
    assert_eq!(rt;
        found,
        [
            Ok(stood),
            Ok(changed),
            Err(PageFault::Compressed(5)),
            Ok(changed),
            Err(PageFault::Compressed(6)),
            Err(PageFault::OutOfRange(6)),
            Err(PageFault::Header),
        ]
    );
    Ok(())
}

// The page of tree 7 with this level and index, whose slots 0, 3 and 811 lead to blocks 85, 86 and 87: how many links it has,
// and of each the level, the index and the block.
type Links = (usize, [Option<(u8, u32, u32)>; 3]);

static LINKS: [((u8, u32), Links); 3] = [
    (
        (2, 0),
        (3, [Some((1, 0, 85)), Some((1, 3, 86)), Some((1, 811, 87))]),
    ),
    (
        (1, 2),
        (
            3,
            [
                Some((0, 1624, 85)),
                Some((0, 1627, 86)),
                Some((0, 2435, 87)),
            ],
        ),
    ),
    ((0, 2), (0, [None; 3])),
];

// A link of tree 7.
fn shown(links: &[Link], place: usize) -> Option<(u8, u32, u32)> {
    match links.get(place) {
        Some(link) if link.page.tree == 7 => Some((link.page.level, link.page.index, link.at.0)),
        _ => None,
    }
}

fn links(alloc: Global, level: u8, index: u32) -> Result<Links, AllocError> {
    let mut mappings = Mappings::new();
    mappings.set(0, Mapping::At(Pbn(85)));
    mappings.set(3, Mapping::At(Pbn(86)));
    mappings.set(811, Mapping::At(Pbn(87)));
    let page = PageId {
        tree: 7,
        level,
        index,
    };
    let head = PageHead { page, ..HEAD };
    if page.index >= 812 {
        return Err(AllocError);
    }
    let links = links_of(alloc, &head, &mappings)?;
    let first = [shown(&links, 0), shown(&links, 1), shown(&links, 2)];
    Ok((links.len(), first))
}

#[test]
fn pages_lead_to_those_below(rt: HostRuntime) -> Result<(), Fail> {
    for ((level, index), wanted) in LINKS {
        let found = links(rt.alloc(), level, index)?;
        assert_eq!(rt; (level, index, found), (level, index, wanted));
    }
    Ok(())
}
