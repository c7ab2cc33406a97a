use crate::images::{ABOVE as ROOT, Image, LEAF, SMALL, TALL, TOP, WIDE};
use blk_base::Mapping::{At, Unmapped, Zero};
use blk_base::{Entry, Lba, Pbn};
use test_images::Page;

/// An image whose last session wasn't closed, and what mends it.
pub struct Row {
    pub image: Image,
    /// How many entries the window has.
    pub entries: u32,
    /// The first sequence of the next session.
    pub next: u64,
    /// How many data blocks are used, and how many blocks differ from their mappings, before and afterwards.
    pub used: u32,
    pub differ: usize,
    /// How many data blocks are mapped, or have a page: one image has a counter that says more.
    pub mapped: u32,
}

const UNCLEAN: Image = Image {
    geometry: SMALL,
    clean: false,
    start: 6,
    journal: &[],
    pages: &[],
    counters: &[],
    commits: &[],
    updates: &[],
};

/// A new leaf, and addresses that are mapped, to one block twice.
const GROWS: &[Entry] = &[
    Entry::NewPage {
        page: LEAF,
        at: Pbn(73),
    },
    Entry::Remap {
        at: Lba(5),
        old: Unmapped,
        new: At(Pbn(74)),
    },
    Entry::Remap {
        at: Lba(6),
        old: Unmapped,
        new: At(Pbn(74)),
    },
    Entry::Remap {
        at: Lba(7),
        old: Unmapped,
        new: Zero,
    },
    Entry::Remap {
        at: Lba(5),
        old: At(Pbn(74)),
        new: At(Pbn(75)),
    },
];

/// A leaf that stands already, of which one address is mapped anew and one is unmapped.
const LINKED: &[Page] = &[
    (ROOT, 9, &[(0, At(Pbn(73)))]),
    (LEAF, 73, &[(5, At(Pbn(74))), (6, At(Pbn(75))), (8, Zero)]),
];

const CHANGES: &[Entry] = &[
    Entry::Remap {
        at: Lba(5),
        old: At(Pbn(74)),
        new: At(Pbn(76)),
    },
    Entry::Remap {
        at: Lba(6),
        old: At(Pbn(75)),
        new: Unmapped,
    },
    Entry::Remap {
        at: Lba(9),
        old: Unmapped,
        new: At(Pbn(76)),
    },
];

/// 24 entries fill a sector, and 192 a block: those of addresses 100 and 101, in turn.
const TURNS: [Entry; 192] = [Entry::Remap {
    at: Lba(100),
    old: Unmapped,
    new: Zero,
}; 192];

/// Images whose last session wasn't closed.
pub static ROWS: [Row; 8] = [
    // No window.
    Row {
        image: Image { ..UNCLEAN },
        entries: 0,
        next: 7,
        used: 0,
        differ: 0,
        mapped: 0,
    },
    // Everything is in the window: pages and counters are written whole.
    Row {
        image: Image {
            journal: &[(6, 6, GROWS)],
            pages: &[(LEAF, 73, &[])],
            ..UNCLEAN
        },
        entries: 5,
        next: 8,
        used: 3,
        differ: 0,
        mapped: 3,
    },
    // A leaf that stands already; the counters have the updates up to that of the second entry's half.
    Row {
        image: Image {
            journal: &[(6, 6, CHANGES)],
            pages: LINKED,
            counters: &[(0, 1), (2, 0), (3, 1)],
            commits: &[3075],
            ..UNCLEAN
        },
        entries: 3,
        next: 8,
        used: 2,
        differ: 0,
        mapped: 2,
    },
    // The same, with updates in the slab's journal, one of them twice, one below the commit point.
    Row {
        image: Image {
            journal: &[(6, 6, CHANGES)],
            pages: LINKED,
            counters: &[(0, 1), (1, 1), (2, 1)],
            commits: &[3000],
            updates: &[(3072, 3), (3073, 1), (2990, 2)],
            ..UNCLEAN
        },
        entries: 3,
        next: 8,
        used: 2,
        differ: 0,
        mapped: 2,
    },
    // All counters are written already, the pages aren't.
    Row {
        image: Image {
            journal: &[(6, 6, CHANGES)],
            pages: LINKED,
            counters: &[(0, 1), (3, 2)],
            commits: &[3077],
            ..UNCLEAN
        },
        entries: 3,
        next: 8,
        used: 2,
        differ: 0,
        mapped: 2,
    },
    // A tree of height 3: the pages of two levels are new.
    Row {
        image: Image {
            geometry: TALL,
            journal: &[(
                6,
                6,
                &[
                    Entry::NewPage {
                        page: ROOT,
                        at: Pbn(80),
                    },
                    Entry::NewPage {
                        page: LEAF,
                        at: Pbn(81),
                    },
                    Entry::Remap {
                        at: Lba(3),
                        old: Unmapped,
                        new: At(Pbn(82)),
                    },
                ],
            )],
            pages: &[(TOP, 9, &[]), (ROOT, 80, &[]), (LEAF, 81, &[])],
            ..UNCLEAN
        },
        entries: 3,
        next: 8,
        used: 3,
        differ: 0,
        mapped: 3,
    },
    // The window goes round the journal's end: blocks 15 and 16 stand in its last and its first slot.
    Row {
        image: Image {
            start: 15,
            journal: &[(15, 15, &TURNS), (16, 15, CHANGES)],
            pages: LINKED,
            counters: &[(0, 1), (1, 1), (2, 1)],
            commits: &[7000],
            ..UNCLEAN
        },
        entries: 195,
        next: 18,
        used: 2,
        differ: 0,
        mapped: 2,
    },
    // Two sectors of counters, of which one changes. A count of 254 that falls, though it isn't mapped so often.
    Row {
        image: Image {
            geometry: WIDE,
            journal: &[(
                6,
                6,
                &[
                    Entry::Remap {
                        at: Lba(5),
                        old: At(Pbn(600)),
                        new: At(Pbn(601)),
                    },
                    Entry::Remap {
                        at: Lba(5),
                        old: At(Pbn(601)),
                        new: At(Pbn(602)),
                    },
                ],
            )],
            pages: LINKED,
            counters: &[(0, 1), (2, 1), (527, 254)],
            commits: &[20, 30],
            ..UNCLEAN
        },
        entries: 2,
        next: 8,
        used: 4,
        differ: 1,
        mapped: 3,
    },
];
