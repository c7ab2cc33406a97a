use crate::torn::put_sector;
use blk_base::{Block, Entry, Geometry, Lba, Mapping, PageId, Pbn, Super};
use disk_model::{Disk, MemDisk};
use image_layout::{Field, SuperFault};
use image_model::ImageFault;
use journal_window::{read_window, window_of};
use std::alloc::{AllocError, Global};
use std::test::Fail;
use test_images::{journal_block, put_journal, zeros};

// The blocks of these tests are put together from the definitions of the format by `journal_codec`, and what they are to
// give was worked out by hand. The journal has 8 slots, and the data blocks are 85 to 148.

// A block of the journal: its sequence, the head that it names, and how many entries it has.
type Written = (u64, u64, usize);

// The last sequence of a window and how many entries it has, or the fault.
type Found = Result<(u64, usize), ImageFault>;

const GOOD: Entry = Entry::Remap {
    at: Lba(5),
    old: Mapping::Unmapped,
    new: Mapping::At(Pbn(86)),
};

// A journal with these blocks, each in its slot; the entries of each are all this one.
fn journal_of(blocks: &[Written], entry: Entry) -> [Block; 8] {
    let mut journal = [
        Block::zero(),
        Block::zero(),
        Block::zero(),
        Block::zero(),
        Block::zero(),
        Block::zero(),
        Block::zero(),
        Block::zero(),
    ];
    let entries = [entry; 192];
    for &(sequence, head, count) in blocks {
        let block = journal_block(1, sequence, head, &entries[..count.min(192)]);
        journal[(sequence % 8) as usize].copy_from(&block);
    }
    journal
}

// What is found in a journal; `None` for a first sequence that no superblock has.
fn find(alloc: Global, start: u64, clean: bool, journal: &[Block; 8]) -> Option<Found> {
    if start == 0 || start >= 1 << 54 {
        return None;
    }
    let head = Super {
        geometry: Geometry::DEFAULT,
        clean,
        start,
    };
    match window_of(alloc, &head, journal) {
        Ok(window) => Some(Ok((window.last(), window.entries().len()))),
        Err(fault) => Some(Err(fault)),
    }
}

const USED_UP: Found = Err(ImageFault::Super(SuperFault::BadField(Field::Start)));

// The superblock's first sequence and whether the last session was closed, the journal's blocks, and what is found.
static ROWS: [(u64, bool, &[Written], Found); 16] = [
    (1, false, &[], Ok((0, 0))),
    (7, true, &[], Ok((6, 0))),
    (
        1,
        false,
        &[(1, 1, 1), (2, 1, 24), (3, 1, 192)],
        Ok((3, 217)),
    ),
    // The last block's head is looked at, and no other one's.
    (1, false, &[(1, 1, 1), (2, 1, 24), (3, 3, 2)], Ok((3, 2))),
    // The window goes round the ring.
    (
        10,
        false,
        &[
            (10, 10, 1),
            (11, 10, 1),
            (12, 10, 1),
            (13, 10, 1),
            (14, 10, 1),
            (15, 10, 1),
            (16, 12, 1),
            (17, 12, 5),
        ],
        Ok((17, 10)),
    ),
    // A head below the session's first sequence, with blocks of the session before.
    (
        12,
        false,
        &[(10, 10, 1), (11, 10, 1), (12, 10, 1)],
        Ok((12, 3)),
    ),
    // A block is missing, and all but the last one.
    (
        1,
        false,
        &[(1, 1, 1), (3, 1, 1)],
        Err(ImageFault::Window { sequence: 2 }),
    ),
    (
        1,
        false,
        &[(4, 1, 1)],
        Err(ImageFault::Window { sequence: 1 }),
    ),
    // A head far below the last sequence, and one in the place of which a later block stands.
    (
        1,
        false,
        &[(4_000_000_000, 0, 1)],
        Err(ImageFault::Window { sequence: 0 }),
    ),
    (
        10,
        false,
        &[(10, 9, 1), (17, 9, 1)],
        Err(ImageFault::Window { sequence: 9 }),
    ),
    // Just in reach, just out of reach, and before the session's first sequence.
    (
        1,
        false,
        &[(4_294_967_296, 4_294_967_296, 1)],
        Ok((4_294_967_296, 1)),
    ),
    (1, false, &[(4_294_967_297, 4_294_967_297, 1)], Ok((0, 0))),
    (9, false, &[(8, 8, 1)], Ok((8, 0))),
    // The sequences are used up: without blocks, and before a block that can't be replayed is named. Not of a session that
    // was closed.
    ((1 << 54) - 1, false, &[], USED_UP),
    (
        (1 << 54) - 9,
        false,
        &[((1 << 54) - 2, (1 << 54) - 4, 1)],
        USED_UP,
    ),
    ((1 << 54) - 1, true, &[], Ok(((1 << 54) - 2, 0))),
];

#[test]
fn windows_are_found(rt: HostRuntime) {
    for (i, &(start, clean, blocks, wanted)) in ROWS.iter().enumerate() {
        let found = find(rt.alloc(), start, clean, &journal_of(blocks, GOOD));
        assert_eq!(rt; (i, found), (i, Some(wanted)));
    }
}

// Makes a block of which some sectors are those of another one: sector `i` where bit `i` is 0.
fn tear(into: &mut Block, new: &Block, old: &Block, bits: u32) {
    for sector in 0..8_usize {
        let from = if bits & (1 << sector) != 0 { new } else { old };
        put_sector(into, from, sector);
    }
}

// What is found in a window of the blocks 9 and 10, of which the other has 2 entries. Where the first one isn't whole, there is
// none. Without its sector 0 the last one isn't there, else it has its first new sectors, of 24 entries each.
fn wanted_of(sequence: u64, bits: u32) -> Found {
    let whole = bits.trailing_ones() as usize;
    if sequence == 9 && bits != 255 {
        Err(ImageFault::Window { sequence: 9 })
    } else if bits % 2 == 0 {
        Ok((9, 2))
    } else {
        Ok((10, whole.wrapping_mul(24).wrapping_add(2)))
    }
}

// The first way to tear this block of 192 entries, over one of an earlier session, for which something else is found.
fn other_torn(alloc: Global, sequence: u64) -> Option<(u32, Option<Found>)> {
    let mut journal = journal_of(&[(9, 9, 2), (10, 9, 2)], GOOD);
    let old = journal_block(1, sequence.wrapping_sub(8), 1, &[GOOD; 192]);
    let new = journal_block(1, sequence, 9, &[GOOD; 192]);
    for bits in 0..256 {
        tear(&mut journal[(sequence % 8) as usize], &new, &old, bits);
        let found = find(alloc, 3, false, &journal);
        if found != Some(wanted_of(sequence, bits)) {
            return Some((bits, found));
        }
    }
    None
}

#[test]
fn torn_blocks_are_read(rt: HostRuntime) {
    assert_eq!(rt; other_torn(rt.alloc(), 9), None);
    assert_eq!(rt; other_torn(rt.alloc(), 10), None);
}

// Entries of the image with 1000 addresses, which are on the leaves 0 of the trees 0 and 1, and entries that aren't: an address
// with its old and its new mapping; and the tree, the level, the index and the block of a new page.
static REMAPS: [(u32, Mapping, Mapping, bool); 6] = [
    (999, Mapping::Unmapped, Mapping::At(Pbn(85)), true),
    (1000, Mapping::Unmapped, Mapping::At(Pbn(85)), false),
    (0, Mapping::At(Pbn(148)), Mapping::Zero, true),
    (0, Mapping::At(Pbn(149)), Mapping::Zero, false),
    (0, Mapping::Zero, Mapping::At(Pbn(84)), false),
    (0, Mapping::Zero, Mapping::At(Pbn(154)), false),
];

static NEW_PAGES: [(u8, u8, u32, u32, bool); 8] = [
    (0, 0, 0, 85, true),
    (1, 0, 0, 148, true),
    (2, 0, 0, 85, false),
    (59, 0, 0, 85, false),
    (0, 0, 1, 85, false),
    (0, 1, 0, 85, false),
    (0, 255, 0, 85, false),
    (0, 0, 0, 84, false),
];

// Whether a window with 30 times this entry is found, or named as one that can't be replayed.
fn is_good(alloc: Global, entry: Entry) -> Option<bool> {
    let journal = journal_of(&[(1, 1, 30)], entry);
    match find(alloc, 1, false, &journal)? {
        Ok((1, 30)) => Some(true),
        Err(ImageFault::Window { sequence: 1 }) => Some(false),
        _ => None,
    }
}

#[test]
fn entries_are_of_the_image(rt: HostRuntime) {
    for (i, &(at, old, new, wanted)) in REMAPS.iter().enumerate() {
        let at = Lba(at);
        let good = is_good(rt.alloc(), Entry::Remap { at, old, new });
        assert_eq!(rt; (i, good), (i, Some(wanted)));
    }
    for (i, &(tree, level, index, at, wanted)) in NEW_PAGES.iter().enumerate() {
        let page = PageId { tree, level, index };
        let good = is_good(rt.alloc(), Entry::NewPage { page, at: Pbn(at) });
        assert_eq!(rt; (i, good), (i, Some(wanted)));
    }
}

// What is found on a device of which so many calls go on, and how many calls its log has then.
fn read_from(alloc: Global, passes: u64) -> Result<(Found, usize), AllocError> {
    let head = Super {
        geometry: Geometry::DEFAULT,
        clean: false,
        start: 1,
    };
    let mut blocks = zeros(alloc, 154)?;
    put_journal(&mut blocks, 1, 1, &[GOOD]);
    put_journal(&mut blocks, 2, 1, &[GOOD; 2]);
    let mut device = MemDisk::from_blocks(alloc, blocks)?;
    if device.blocks() != 154 {
        return Err(AllocError);
    }
    device.set_fuse(passes);
    let found = match read_window(alloc, &head, &mut device) {
        Ok(window) => Ok((window.last(), window.entries().len())),
        Err(fault) => Err(fault),
    };
    Ok((found, device.calls().len()))
}

// Each block is read once, and the first read that fails is the last one.
#[test]
fn windows_are_read_from_devices(rt: HostRuntime) -> Result<(), Fail> {
    let found = [
        read_from(rt.alloc(), 0)?,
        read_from(rt.alloc(), 7)?,
        read_from(rt.alloc(), 8)?,
    ];
    let fails = Err(ImageFault::Device);
    assert_eq!(rt; found, [(fails, 1), (fails, 8), (Ok((2, 3)), 8)]);
    Ok(())
}
