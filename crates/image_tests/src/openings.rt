use crate::answers::is_read;
use crate::images::{ABOVE, Image, LEAF, SMALL, TALL, TOP, WIDE, device};
use blk_base::Mapping::{At, Zero};
use blk_base::{Geometry, Mapping, Mappings, Opened, OpenedPage, PageId, Pbn, Super, TREES};
use disk_model::{Call, CallKind, FaultAt, MemDisk};
use image_model::ImageFault;
use rebuild::open_clean;
use std::alloc::{AllocError, Global};
use std::test::Fail;
use test_images::Page;

/// An image whose last session was closed, and what it is opened with.
struct Closed {
    image: Image,
    /// The pages between its roots and its leaves, each with its block; and the blocks of those and of its leaves.
    inner: &'static [(PageId, u32)],
    tree_pages: &'static [u32],
    /// The stored counts that aren't 0, by the offsets of their blocks; and the commit points.
    stored: &'static [(u16, u8)],
    commits: &'static [u64],
    /// How many calls that takes: of the superblock, the journal's 8 blocks, the 60 roots, the links, the reference block and
    /// the slab's journal's 2 blocks one read each.
    calls: usize,
}

/// Three leaves in two trees. A block is mapped in both leaves of tree 0; of it and of another one there are updates past the
/// commit point.
const LOW: Image = Image {
    geometry: SMALL,
    clean: true,
    start: 6,
    journal: &[(5, 5, &[])],
    pages: &[
        (ABOVE, 9, &[(0, At(Pbn(73))), (1, At(Pbn(74)))]),
        (PageId { tree: 1, ..ABOVE }, 10, &[(0, At(Pbn(75)))]),
        (LEAF, 73, &[(5, At(Pbn(80))), (6, At(Pbn(81))), (8, Zero)]),
        (
            PageId { index: 1, ..LEAF },
            74,
            &[(0, At(Pbn(80))), (811, At(Pbn(82)))],
        ),
        (PageId { tree: 1, ..LEAF }, 75, &[(1, At(Pbn(88)))]),
    ],
    counters: &[(0, 1), (1, 1), (2, 1), (7, 1), (8, 1), (9, 1), (15, 2)],
    commits: &[3000],
    updates: &[(2990, 8), (3000, 9), (3002, 7), (3005, 15)],
};

/// Two pages between the root of tree 0 and its leaves, and one in tree 5: the last one that addresses lead to.
const STEEP_PAGES: &[Page] = &[
    (TOP, 9, &[(0, At(Pbn(73))), (2, At(Pbn(74)))]),
    (PageId { tree: 5, ..TOP }, 14, &[(101, At(Pbn(75)))]),
    (ABOVE, 73, &[(0, At(Pbn(76))), (811, At(Pbn(77)))]),
    (PageId { index: 2, ..ABOVE }, 74, &[(1, At(Pbn(78)))]),
    (
        PageId {
            tree: 5,
            level: 1,
            index: 101,
        },
        75,
        &[(7, At(Pbn(79)))],
    ),
    (LEAF, 76, &[(3, At(Pbn(80))), (4, At(Pbn(81))), (5, Zero)]),
    (PageId { index: 811, ..LEAF }, 77, &[(0, At(Pbn(80)))]),
    (
        PageId {
            index: 1625,
            ..LEAF
        },
        78,
        &[(811, At(Pbn(82)))],
    ),
    (
        PageId {
            tree: 5,
            level: 0,
            index: 82_019,
        },
        79,
        &[],
    ),
];

const STEEP: Image = Image {
    geometry: Geometry {
        logical: 4_000_000_000,
        ..TALL
    },
    clean: true,
    start: 18_014_398_509_481_983,
    journal: &[],
    pages: STEEP_PAGES,
    counters: &[
        (0, 1),
        (1, 1),
        (2, 1),
        (3, 1),
        (4, 1),
        (5, 1),
        (6, 1),
        (7, 2),
        (8, 1),
        (9, 2),
    ],
    commits: &[18_446_744_073_709_551_612],
    updates: &[
        (18_446_744_073_709_551_612, 7),
        (18_446_744_073_709_551_613, 9),
    ],
};

/// Counters in two sectors, each with a commit point of its own.
const BROAD: Image = Image {
    geometry: WIDE,
    clean: true,
    start: 1,
    journal: &[],
    pages: &[
        (ABOVE, 9, &[(0, At(Pbn(73)))]),
        (
            LEAF,
            73,
            &[(5, At(Pbn(600))), (6, At(Pbn(600))), (7, At(Pbn(672)))],
        ),
    ],
    counters: &[(0, 1), (503, 1), (527, 1), (599, 2)],
    commits: &[20, 3000],
    updates: &[(19, 0), (2998, 599), (3002, 527), (3005, 599), (21, 503)],
};

static CLOSED: [Closed; 3] = [
    Closed {
        image: LOW,
        inner: &[],
        tree_pages: &[73, 74, 75],
        stored: &[(0, 1), (1, 1), (2, 1), (7, 2), (8, 1), (9, 1), (15, 1)],
        commits: &[3000],
        calls: 75,
    },
    Closed {
        image: STEEP,
        inner: &[
            (ABOVE, 73),
            (PageId { index: 2, ..ABOVE }, 74),
            (
                PageId {
                    tree: 5,
                    level: 1,
                    index: 101,
                },
                75,
            ),
        ],
        tree_pages: &[73, 74, 75, 76, 77, 78, 79],
        stored: &[
            (0, 1),
            (1, 1),
            (2, 1),
            (3, 1),
            (4, 1),
            (5, 1),
            (6, 1),
            (7, 2),
            (8, 1),
            (9, 1),
        ],
        commits: &[18_446_744_073_709_551_612],
        calls: 79,
    },
    Closed {
        image: BROAD,
        inner: &[],
        tree_pages: &[73],
        stored: &[(0, 1), (527, 2), (599, 1)],
        commits: &[20, 3000],
        calls: 73,
    },
];

/// What an image is opened with: the superblock; how many pages, counters, commit points and blocks of pages; and how many of
/// each are those that it has, each page and each of the blocks once.
type Start = (Super, [usize; 4], [usize; 4]);

// What it is to be opened with.
fn wanted(closed: &Closed) -> Start {
    let counts = [
        closed.inner.len().saturating_add(usize::from(TREES)),
        closed.image.geometry.slab_blocks as usize,
        closed.commits.len(),
        closed.tree_pages.len(),
    ];
    let head = Super {
        geometry: closed.image.geometry,
        clean: true,
        start: closed.image.start,
    };
    (head, counts, counts)
}

// The mappings of a page of the image, none where it has no such page.
fn mappings_of(image: &Image, page: PageId) -> Mappings {
    let mut mappings = Mappings::new();
    for &(other, _at, slots) in image.pages {
        if other == page {
            put_slots(&mut mappings, slots);
        }
    }
    mappings
}

fn put_slots(mappings: &mut Mappings, slots: &[(u16, Mapping)]) {
    for &(slot, mapping) in slots {
        if slot < 812 {
            mappings.set(slot, mapping);
        }
    }
}

// Whether a page stands once among those, at its block and with its mappings.
fn is_once(pages: &[OpenedPage], image: &Image, page: PageId, at: u32) -> bool {
    let mappings = mappings_of(image, page);
    let mut all = 0_usize;
    let mut right = false;
    for other in pages {
        if other.page == page {
            all = all.saturating_add(1);
            right = other.at.0 == at && other.mappings.as_slice() == mappings.as_slice();
        }
    }
    all == 1 && right
}

// How many of the roots and of the pages below them stand among those as they are to be.
fn right_pages(pages: &[OpenedPage], closed: &Closed) -> usize {
    let level = if closed.image.geometry.height == 3 {
        2
    } else {
        1
    };
    let mut right = 0_usize;
    for tree in 0..TREES {
        let root = PageId {
            tree,
            level,
            index: 0,
        };
        let once = is_once(pages, &closed.image, root, 9 + u32::from(tree));
        right = right.saturating_add(usize::from(once));
    }
    for &(page, at) in closed.inner {
        let once = is_once(pages, &closed.image, page, at);
        right = right.saturating_add(usize::from(once));
    }
    right
}

// How many of these blocks stand once among those of the pages.
fn right_blocks(found: &[Pbn], blocks: &[u32]) -> usize {
    let mut right = 0_usize;
    for &at in blocks {
        let mut times = 0_usize;
        for other in found {
            times = times.saturating_add(usize::from(other.0 == at));
        }
        right = right.saturating_add(usize::from(times == 1));
    }
    right
}

// How many of the counters are these stored counts, by their offsets, or else 0.
fn right_counters(counters: &[u8], stored: &[(u16, u8)]) -> usize {
    let mut right = 0_usize;
    for (place, &count) in counters.iter().enumerate() {
        let mut wanted = 0;
        for &(offset, other) in stored {
            if usize::from(offset) == place {
                wanted = other;
            }
        }
        right = right.saturating_add(usize::from(count == wanted));
    }
    right
}

fn start_of(opened: &Opened, closed: &Closed) -> Start {
    let mut commits = 0_usize;
    for (point, wanted) in opened.commits.iter().zip(closed.commits) {
        commits = commits.saturating_add(usize::from(point.0 == *wanted));
    }
    let counts = [
        opened.pages.len(),
        opened.counters.len(),
        opened.commits.len(),
        opened.tree_pages.len(),
    ];
    let right = [
        right_pages(&opened.pages, closed),
        right_counters(&opened.counters, closed.stored),
        commits,
        right_blocks(&opened.tree_pages, closed.tree_pages),
    ];
    (opened.head, counts, right)
}

// What opening the image on a device answers, how many calls it makes, and whether all of them read.
type Answer = (Result<Start, ImageFault>, usize, bool);

fn answer(alloc: Global, closed: &Closed, device: &mut MemDisk) -> Answer {
    let found = match open_clean(alloc, device) {
        Ok(opened) => Ok(start_of(&opened, closed)),
        Err(fault) => Err(fault),
    };
    (found, device.calls().len(), is_read(device))
}

// What is answered where the calls behind so many fail.
fn cut_answer(alloc: Global, closed: &Closed, passes: usize) -> Result<Answer, AllocError> {
    let mut device = device(alloc, &closed.image)?;
    device.set_fuse(passes as u64);
    Ok(answer(alloc, closed, &mut device))
}

// What is answered where the first read of a block fails.
fn faulted_answer(alloc: Global, closed: &Closed, at: Pbn) -> Result<Answer, AllocError> {
    let fault = FaultAt {
        kind: CallKind::Read,
        at,
        nth: 0,
        effect: false,
    };
    let faults = [fault].to_vec(alloc)?;
    let mut device = device(alloc, &closed.image)?;
    device.set_faults(faults);
    Ok(answer(alloc, closed, &mut device))
}

// The first of an image's calls that fails, alone or with those behind it, and is answered otherwise.
fn other_failure(
    alloc: Global,
    closed: &Closed,
    calls: &[Call],
) -> Result<Option<(usize, [Answer; 2])>, AllocError> {
    for (i, call) in calls.iter().enumerate() {
        if let Call::Read { at, .. } = call {
            let answers = [
                cut_answer(alloc, closed, i)?,
                faulted_answer(alloc, closed, *at)?,
            ];
            if answers != [(Err(ImageFault::Device), i.saturating_add(1), true); 2] {
                return Ok(Some((i, answers)));
            }
        }
    }
    Ok(None)
}

// What is answered where none fails, all of whose calls read; and the first that fails and is answered otherwise.
fn failures(
    alloc: Global,
    closed: &Closed,
) -> Result<(Answer, Option<(usize, [Answer; 2])>), AllocError> {
    let mut whole = device(alloc, &closed.image)?;
    let found = answer(alloc, closed, &mut whole);
    let other = other_failure(alloc, closed, whole.calls())?;
    Ok((found, other))
}

// The first image of which something else is found.
fn other_image(
    alloc: Global,
) -> Result<Option<(usize, Answer, Option<(usize, [Answer; 2])>)>, AllocError> {
    for (i, closed) in CLOSED.iter().enumerate() {
        let (found, other) = failures(alloc, closed)?;
        if found != (Ok(wanted(closed)), closed.calls, true) || other.is_some() {
            return Ok(Some((i, found, other)));
        }
    }
    Ok(None)
}

#[test]
fn closed_images_are_opened_or_a_call_fails(rt: HostRuntime) -> Result<(), Fail> {
    assert_eq!(rt; other_image(rt.alloc())?, None);
    Ok(())
}
