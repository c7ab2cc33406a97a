use blk_base::{Block, Geometry, Layout, Point, SECTOR_COUNTERS};
use slab_codec::{
    ReferenceBlock, ReferenceSector, SlabEntries, SlabEntry, SlabJournalBlock, SlabSector,
    encode_reference, encode_slab, reference_sector, sector_counters, slab_sector,
};
use test_images::{Spelling, difference, with_added, with_byte};

// The spellings of these tests, and the places of counters, were computed by tools/slab.py.
const NONCE: u64 = 0x1122_3344_5566_7788;

// Sector j of the block of counters.
fn counted(j: u16) -> ReferenceSector {
    let mut counters = [0; SECTOR_COUNTERS];
    for k in 0..504_u16 {
        let number = j.wrapping_mul(7).wrapping_add(k.wrapping_mul(3)) % 251;
        counters[usize::from(k)] = number as u8;
    }
    ReferenceSector {
        commit: Point(u64::from(j).wrapping_add(0x0102_0304_0506_0700)),
        counters,
    }
}

const COUNTER_BYTES: Spelling = Spelling {
    weight: 1_035_179_652,
    parts: &[
        (0, b"\x00\x07\x06\x05\x04\x03\x02\x01\x00\x03\x06\x09"),
        (504, b"\xe9\xec\xef\xf2\xf5\xf8\x00\x03\x01\x07\x06\x05"),
        (3584, b"\x07\x07\x06\x05\x04\x03\x02\x01\x31\x34\x37\x3a"),
    ],
};

// Of counters that were written, each sector is read back; any bytes are counters.
#[test]
fn counters_are_spelled_and_read_back(rt: HostRuntime) {
    let mut sectors = [counted(0); 8];
    for j in 0..8_u16 {
        sectors[usize::from(j)] = counted(j);
    }
    let mut block = Block { bytes: [7; 4096] };
    encode_reference(&ReferenceBlock { sectors }, &mut block);
    assert_eq!(rt; difference(&block, &COUNTER_BYTES), None);
    for j in 0..8_u16 {
        let is_read = reference_sector(&block, j) == counted(j);
        assert_eq!(rt; (j, is_read), (j, true));
    }
    let any = ReferenceSector {
        commit: Point(u64::MAX),
        counters: [255; SECTOR_COUNTERS],
    };
    let ones = Block { bytes: [255; 4096] };
    assert_eq!(rt; reference_sector(&ones, 7) == any, true);
}

// An offset, and the block, the sector and the place in it where its counter stands.
type PlaceRow = (u32, u32, u16, u16);

static PLACE_ROWS: [PlaceRow; 6] = [
    (0, 0, 0, 0),
    (503, 0, 0, 503),
    (504, 0, 1, 0),
    (4031, 0, 7, 503),
    (4032, 1, 0, 0),
    (32767, 8, 1, 7),
];

#[test]
fn places_of_counters(rt: HostRuntime) {
    let layout = Layout::of(&Geometry::DEFAULT);
    for row in PLACE_ROWS {
        let place = layout.counter_place(row.0);
        assert_eq!(rt; (row.0, place.block, place.sector, place.counter), row);
    }
}

// The counters of a slab of 600 data blocks, in three sectors.
#[test]
fn zeros_past_the_end_of_a_slab(rt: HostRuntime) {
    let layout = Layout::of(&Geometry::DEFAULT);
    let counters = [9; 600];
    let mut second = [0; SECTOR_COUNTERS];
    second[0..96].fill(9);
    let found = [
        sector_counters(&layout, &counters, 0) == [9; SECTOR_COUNTERS],
        sector_counters(&layout, &counters, 1) == second,
        sector_counters(&layout, &counters, 2) == [0; SECTOR_COUNTERS],
    ];
    assert_eq!(rt; found, [true; 3]);
}

fn entry(k: u16) -> SlabEntry {
    SlabEntry {
        point: Point(u64::from(k).wrapping_mul(3).wrapping_add(792_064)),
        offset: k.wrapping_add(20),
    }
}

// A block with so many entries.
fn spelled(sequence: u64, count: u16) -> Block {
    let mut entries = SlabEntries::new();
    for k in 0..count {
        if !entries.is_full() {
            entries.push(entry(k));
        }
    }
    let block = SlabJournalBlock {
        nonce: NONCE,
        sequence,
        slab: 7,
        entries,
    };
    let mut into = Block { bytes: [7; 4096] };
    encode_slab(&block, &mut into);
    into
}

const FORTY_TWO_ENTRIES: Spelling = Spelling {
    weight: 15_341_481,
    parts: &[
        (
            0,
            b"\x88\x77\x66\x55\x44\x33\x22\x11\x05\0\0\0\0\0\0\0\x07\0\0\0\0\0\x28\0VSS1\0\0\0\0",
        ),
        (
            32,
            b"\x00\x16\x0c\0\0\0\0\0\x14\0\0\0\x03\x16\x0c\0\0\0\0\0\x15\0\x01\0",
        ),
        (500, b"\x75\x16\x0c\0\0\0\0\0\x3b\0\x01\0\x88\x77"),
        (532, b"\x01\0\x02\0VSS1\0\0\0\0\x78\x16\x0c\0\0"),
        (1044, b"\x02\0\0\0VSS1\0\0\0\0\0\0\0\0\0"),
    ],
};

const GREATEST_NUMBERS: Spelling = Spelling {
    weight: 46_519_678,
    parts: &[],
};

fn greatest_block() -> Block {
    let mut entries = SlabEntries::new();
    entries.push(SlabEntry {
        point: Point(u64::MAX),
        offset: u16::MAX,
    });
    if !entries.is_full() {
        entries.push(SlabEntry {
            point: Point(0),
            offset: 0,
        });
    }
    let block = SlabJournalBlock {
        nonce: NONCE,
        sequence: u64::MAX,
        slab: 1023,
        entries,
    };
    let mut into = Block { bytes: [7; 4096] };
    encode_slab(&block, &mut into);
    into
}

#[test]
fn journals_are_spelled(rt: HostRuntime) {
    let block = greatest_block();
    let read = match slab_sector(&block, 0, NONCE, 1023, u32::MAX) {
        Some(sector) => Some((sector.sequence, sector.entries.len())),
        None => None,
    };
    assert_eq!(rt;
        (
            difference(&spelled(5, 42), &FORTY_TWO_ENTRIES),
            difference(&block, &GREATEST_NUMBERS),
            read
        ),
        (None, None, Some((u64::MAX, 2)))
    );
}

// The sequence of a sector, how many entries it has, and how many of them are those from `first` on.
type Told = Option<(u64, usize, u16)>;

fn told(sector: Option<SlabSector>, first: u16) -> Told {
    let sector = sector?;
    let entries = sector.entries.as_slice();
    let mut count: u16 = 0;
    for &one in entries {
        if one != entry(first.wrapping_add(count)) {
            break;
        }
        count = count.wrapping_add(1);
    }
    Some((sector.sequence, entries.len(), count))
}

// Sectors 1 and 7 of slab 7, and a sector of another nonce, of another slab, and behind the block.
fn five_sectors(block: &Block) -> [Told; 5] {
    [
        told(slab_sector(block, 1, NONCE, 7, 400), 40),
        told(slab_sector(block, 7, NONCE, 7, 400), 280),
        told(slab_sector(block, 1, NONCE - 1, 7, 400), 40),
        told(slab_sector(block, 1, NONCE, 6, 400), 40),
        told(slab_sector(block, 8, NONCE, 7, 400), 320),
    ]
}

// A sector is read by itself, whatever that before it says, and its sequence may be any.
#[test]
fn sectors_are_read_back(rt: HostRuntime) {
    let found = [
        five_sectors(&spelled(5, 42)),
        five_sectors(&spelled(5, 320)),
    ];
    let of_42 = [Some((5, 2, 2)), Some((5, 0, 0)), None, None, None];
    let of_320 = [Some((5, 40, 40)), Some((5, 40, 40)), None, None, None];
    let block = with_byte(spelled(0, 42), 0, 0);
    let alone = [
        told(slab_sector(&block, 0, NONCE, 7, 64), 0),
        told(slab_sector(&block, 1, NONCE, 7, 64), 40),
    ];
    assert_eq!(rt; (found, alone), ([of_42, of_320], [None, Some((0, 2, 2))]));
}

// A byte of sector 1, what is added to it, and whether the sector is still valid. The slab has 64 data blocks, and the
// sector has two entries: an even point at offset 60, and an odd one at 61.
type FieldRow = (usize, u8, bool);

static FIELD_ROWS: [FieldRow; 27] = [
    (0, 1, false), // nonce
    (7, 1, false), // nonce
    (8, 1, true), // sequence
    (15, 255, true), // sequence
    (16, 1, false), // slab
    (19, 1, false), // slab
    (20, 1, false), // number
    (22, 1, true), // a third entry, of zeros
    (22, 39, false), // 41 entries
    (22, 255, false), // one entry, and another behind it
    (24, 1, false), // magic
    (27, 1, false), // magic
    (28, 1, false), // zeros
    (31, 1, false), // zeros
    (32, 1, false), // an odd point of an increment
    (32, 2, true), // point
    (39, 1, true), // point
    (40, 3, true), // offset 63
    (40, 4, false), // offset 64
    (41, 1, false), // offset 316
    (42, 1, false), // half of an even point
    (43, 1, false), // zero
    (54, 255, false), // half of an odd point
    (54, 2, false), // half of an odd point
    (55, 1, false), // zero
    (56, 1, false), // behind the entries
    (511, 1, false), // the last byte
];

#[test]
fn each_field_is_looked_at(rt: HostRuntime) {
    for (at, add, valid) in FIELD_ROWS {
        let block = with_added(spelled(5, 42), 512 + at % 512, add);
        let found = slab_sector(&block, 1, NONCE, 7, 64).is_some();
        assert_eq!(rt; (at, add, found), (at, add, valid));
    }
}
