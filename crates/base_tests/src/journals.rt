use blk_base::{Block, Entry, JOURNAL_ENTRIES, Lba, Mapping, PageId, Pbn};
use journal_codec::{Entries, JournalBlock, block_prefix, encode, sector};
use test_images::{Spelling, difference, with_added};

// The spellings of these tests were computed by tools/journal.py.
const NONCE: u64 = 0x1122_3344_5566_7788;

fn spelled(nonce: u64, sequence: u64, head: u64, all: &[Entry]) -> Block {
    let mut entries = Entries::new();
    for &entry in all {
        if !entries.is_full() {
            entries.push(entry);
        }
    }
    let block = JournalBlock {
        nonce,
        sequence,
        head,
        entries,
    };
    let mut into = Block::zero();
    into.bytes[4000] = 7;
    encode(&block, &mut into);
    into
}

// Entry k of the block of 30.
fn remap(k: u32) -> Entry {
    Entry::Remap {
        at: Lba(k.wrapping_add(1000)),
        old: if k % 2 == 0 {
            Mapping::At(Pbn(k.wrapping_add(85)))
        } else {
            Mapping::Zero
        },
        new: if k % 3 == 0 {
            Mapping::Unmapped
        } else {
            Mapping::At(Pbn(k.wrapping_add(300)))
        },
    }
}

// A block with so many of these entries.
fn of_many(sequence: u64, head: u64, count: usize) -> Block {
    let mut entries = [remap(0); JOURNAL_ENTRIES];
    for k in 0..192_u32 {
        entries[k as usize] = remap(k);
    }
    spelled(NONCE, sequence, head, &entries[..count.min(192)])
}

fn first(count: usize) -> Block {
    of_many(1547, 1547, count)
}

// The block with sector 1 of another.
fn with_sector_1(mut block: Block, other: &Block) -> Block {
    block.bytes[512..1024].copy_from_slice(&other.bytes[512..1024]);
    block
}

const ONE_ENTRY: Spelling = Spelling {
    weight: 13_513_336,
    parts: &[
        (
            0,
            b"\x88\x77\x66\x55\x44\x33\x22\x11\x0b\x06\0\0\0\0\0\0\x04\x06\0\0\0\0\0\0\0\0\x01\0VJS1",
        ),
        (
            32,
            b"\0\0\0\0\x05\0\0\0\0\0\0\0\0\x01\x56\0\0\0\0\0\0\0\0\0",
        ),
        (
            3584,
            b"\x88\x77\x66\x55\x44\x33\x22\x11\x0b\x06\0\0\0\0\0\0\x04\x06\0\0\0\0\0\0\x07\0\0\0VJS1\0\0\0\0",
        ),
    ],
};

const THIRTY_ENTRIES: Spelling = Spelling {
    weight: 16_224_433,
    parts: &[
        (
            24,
            b"\0\0\x18\0VJS1\0\0\0\0\xe8\x03\0\0\x01\x55\0\0\0\0\0\0\0\0",
        ),
        (
            492,
            b"\0\0\0\0\xff\x03\0\0\x01\0\0\0\0\x01\x43\x01\0\0\0\0\x88\x77\x66\x55\x44\x33",
        ),
        (
            536,
            b"\x01\0\x06\0VJS1\0\0\0\0\0\x04\0\0\x01\x6d\0\0\0\0\0\0\0\0",
        ),
        (
            644,
            b"\0\0\0\0\x05\x04\0\0\x01\0\0\0\0\x01\x49\x01\0\0\0\0\0\0\0\0\0\0",
        ),
        (1048, b"\x02\0\0\0VJS1\0\0\0\0\0\0\0\0\0\0\0\0\0\0\0\0\0\0"),
    ],
};

// The head, the entry of a new page, and another entry.
const GREATEST_NUMBERS: Spelling = Spelling {
    weight: 28_397_922,
    parts: &[
        (
            0,
            b"\x01\0\0\0\0\0\0\0\xff\xff\xff\xff\xff\xff\x7f\0\x01\0\0\0\0\0\0\0\0\0\x02\0VJS1",
        ),
        (
            32,
            b"\x01\x3b\x02\0\x0d\x0c\x0b\x0a\0\0\0\0\0\x01\x04\x03\x02\x01\0\0",
        ),
        (
            52,
            b"\0\0\0\0\xff\xff\xff\xff\x01\xff\xff\xff\xff\x01\0\0\0\0\0\0",
        ),
    ],
};

static GREATEST: [Entry; 2] = [
    Entry::NewPage {
        page: PageId {
            tree: 59,
            level: 2,
            index: 0x0a0b_0c0d,
        },
        at: Pbn(0x0102_0304),
    },
    Entry::Remap {
        at: Lba(u32::MAX),
        old: Mapping::At(Pbn(u32::MAX)),
        new: Mapping::Zero,
    },
];

// One entry, thirty, and a new page with the greatest numbers.
#[test]
fn blocks_are_spelled(rt: HostRuntime) {
    let entry = Entry::Remap {
        at: Lba(5),
        old: Mapping::Unmapped,
        new: Mapping::At(Pbn(86)),
    };
    let greatest = spelled(1, 0x7f_ffff_ffff_ffff, 1, &GREATEST);
    let found = [
        difference(&spelled(NONCE, 1547, 1540, &[entry]), &ONE_ENTRY),
        difference(&first(30), &THIRTY_ENTRIES),
        difference(&greatest, &GREATEST_NUMBERS),
    ];
    assert_eq!(rt; found, [None; 3]);
}

// A block's sequence and head, how many entries its prefix has, how many of them are those of the block of 30, and whether it
// is whole.
type Prefix = Option<((u64, u64), usize, usize, bool)>;

fn prefix_of(block: &Block, nonce: u64) -> Prefix {
    let prefix = block_prefix(block, nonce)?;
    let entries = prefix.entries.as_slice();
    let mut alike = 0;
    for (k, &entry) in entries.iter().enumerate() {
        if entry != remap(k as u32) {
            break;
        }
        alike = k.wrapping_add(1);
    }
    let numbers = (prefix.sequence, prefix.head);
    Some((numbers, entries.len(), alike, prefix.whole))
}

// Where sector 0 of the block of 30 alone reached the device over another block.
fn prefix_over(old: &Block) -> Prefix {
    let mut block = first(30);
    block.bytes[512..].copy_from_slice(&old.bytes[512..]);
    prefix_of(&block, NONCE)
}

// A prefix ends before a sector that is older, behind one that isn't full, or has another head.
#[test]
fn blocks_are_read_back(rt: HostRuntime) {
    let of_six = with_sector_1(first(6), &first(30));
    let of_another_head = with_sector_1(first(30), &of_many(1547, 1546, 30));
    let sectors = [
        sector(&of_six, 1, NONCE).is_some(),
        sector(&of_another_head, 1, NONCE).is_some(),
    ];
    let prefixes = [
        prefix_of(&first(30), NONCE),
        prefix_of(&first(192), NONCE),
        prefix_of(&first(30), NONCE - 1),
        prefix_over(&Block::zero()),
        prefix_over(&of_many(1539, 1531, 192)),
        prefix_of(&of_six, NONCE),
        prefix_of(&of_another_head, NONCE),
    ];
    let numbers = (1547, 1547);
    let wanted = [
        Some((numbers, 30, 30, true)),
        Some((numbers, 192, 192, true)),
        None,
        Some((numbers, 24, 24, false)),
        Some((numbers, 24, 24, false)),
        Some((numbers, 6, 6, false)),
        Some((numbers, 24, 24, false)),
    ];
    assert_eq!(rt; (sectors, prefixes), ([true; 2], wanted));
}

// A byte of sector 1, what is added to it, and whether the sector is still valid. The sector has the six entries from 24
// on; its first entry has an old block and no new one.
type FieldRow = (usize, u8, bool);

static FIELD_ROWS: [FieldRow; 26] = [
    (0, 1, false), // nonce
    (7, 1, false), // nonce
    (8, 1, true), // sequence 1548
    (15, 1, false), // sequence of 2 ^ 55 and more
    (16, 1, false), // head above the sequence
    (17, 255, true), // head 1291
    (24, 1, false), // number
    (26, 1, true), // a seventh entry, of zeros
    (26, 19, false), // 25 entries
    (28, 1, false), // magic
    (31, 1, false), // magic
    (32, 1, false), // kind 1 has no old mapping
    (32, 2, false), // kind
    (33, 1, false), // tree of kind 0
    (34, 1, false), // level of kind 0
    (35, 1, false), // zero
    (36, 1, true), // address
    (40, 1, false), // old state 2
    (40, 16, false), // bit 32 of the old block
    (41, 1, true), // old block
    (45, 1, true), // new state 1, which is zeros
    (46, 1, false), // new block of state 0
    (50, 1, false), // zero
    (51, 1, false), // zero
    (152, 1, false), // behind the entries
    (511, 1, false), // the last byte
];

#[test]
fn each_field_is_looked_at(rt: HostRuntime) {
    for (at, add, valid) in FIELD_ROWS {
        let block = with_added(first(30), 512 + at % 512, add);
        let found = sector(&block, 1, NONCE).is_some();
        assert_eq!(rt; (at, add, found), (at, add, valid));
    }
}

// How many entries sector 0 of a block of one entry has, and that entry.
fn read_one(entry: Entry) -> Option<(usize, Option<Entry>)> {
    let found = sector(&spelled(NONCE, 1547, 1547, &[entry]), 0, NONCE)?;
    let entries = found.entries.as_slice();
    Some((entries.len(), entries.first().copied()))
}

// A new page of this tree, at this block.
fn new_page(tree: u8, block: u32) -> Entry {
    Entry::NewPage {
        page: PageId {
            tree,
            level: 255,
            index: u32::MAX,
        },
        at: Pbn(block),
    }
}

fn remap_7(old: Mapping) -> Entry {
    Entry::Remap {
        at: Lba(7),
        old,
        new: Mapping::Unmapped,
    }
}

// There is no sector behind the block, and none of sequence 0; no entry of a tree that isn't there, and none at block 0. A
// mapping to block 0 is read as zeros.
#[test]
fn what_no_block_says(rt: HostRuntime) {
    let others = [
        sector(&first(30), 8, NONCE).is_some(),
        sector(&spelled(NONCE, 0, 0, &[]), 0, NONCE).is_some(),
    ];
    let read = [
        read_one(new_page(59, 1)),
        read_one(new_page(60, 1)),
        read_one(new_page(59, 0)),
        read_one(remap_7(Mapping::At(Pbn(0)))),
    ];
    let wanted = [
        Some((1, Some(new_page(59, 1)))),
        None,
        None,
        Some((1, Some(remap_7(Mapping::Zero)))),
    ];
    assert_eq!(rt; (others, read), ([false; 2], wanted));
}
