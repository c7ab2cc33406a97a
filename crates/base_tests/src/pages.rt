use blk_base::{Block, Geometry, Mapping, Mappings, PageId, Pbn};
use page_codec::PageFault::{Compressed, Header, OutOfRange};
use page_codec::{
    MapPage, PageFault, PageHead, decode, decode_mappings, encode, encode_unmapped, slot,
};
use test_images::{Spelling, difference, not_shown, with_added, with_byte};

// The image has the data blocks 85 to 148.
const GEOMETRY: Geometry = Geometry {
    nonce: 0x1122_3344_5566_7788,
    ..Geometry::DEFAULT
};

const LEAF: PageHead = PageHead {
    geometry: GEOMETRY,
    page: PageId {
        tree: 59,
        level: 0,
        index: 0x0a0b_0c0d,
    },
    at: Pbn(0x0102_0304),
};

const ROOT: PageHead = PageHead {
    geometry: GEOMETRY,
    page: PageId {
        tree: 59,
        level: 1,
        index: 0,
    },
    at: Pbn(68),
};

// What slot k says in these tests.
fn mapping(k: u16) -> Mapping {
    match k % 5 {
        0 => Mapping::At(Pbn(u32::from(k % 62).wrapping_add(86))),
        1 => Mapping::Zero,
        _ => Mapping::Unmapped,
    }
}

fn all_mappings() -> Mappings {
    let mut mappings = Mappings::new();
    for k in 0..812 {
        mappings.set(k, mapping(k));
    }
    mappings
}

fn spelled(head: PageHead, mappings: Mappings) -> Block {
    let page = MapPage { head, mappings };
    let mut into = Block::zero();
    into.bytes[30] = 7;
    into.bytes[4095] = 7;
    encode(&page, &mut into);
    into
}

// How many slots are mapped.
fn count_mapped(mappings: &Mappings) -> usize {
    let mut count: usize = 0;
    for mapping in mappings.as_slice() {
        count = count.saturating_add(usize::from(*mapping != Mapping::Unmapped));
    }
    count
}

// What `encode` writes of the leaf, computed by tools/map_page.py.
const LEAF_BYTES: Spelling = Spelling {
    weight: 40_014_403,
    parts: &[
        (
            0,
            b"VMP1\x88\x77\x66\x55\x44\x33\x22\x11\x04\x03\x02\x01\0\0\0\0\x3b\0\0\0\x0d\x0c\x0b\x0a\0\0\0\0\0\0\0\0",
        ),
        (36, b"\x01\x56\0\0\0"), // block 86
        (41, b"\x01\0\0\0\0"), // zeros
        (46, b"\0\0\0\0\0"), // unmapped
        (511, b"\x01\x77\0\0\0"), // slot 95, in two sectors
        (4091, b"\x01\0\0\0\0"), // slot 811, the last bytes
    ],
};

// What a slot is read as.
type Slot = Result<Mapping, PageFault>;

fn slot_of(block: &Block, number: u16) -> Slot {
    slot(block, &LEAF, number % 812)
}

// The first slot that isn't what was put into it, among mappings and in a block.
fn other_slot(mappings: &Mappings, block: &Block) -> Option<(u16, Mapping, Slot)> {
    for k in 0..812 {
        let found = (mappings.get(k), slot_of(block, k));
        if found != (mapping(k), Ok(mapping(k))) {
            return Some((k, found.0, found.1));
        }
    }
    None
}

// A leaf is written and read back, whole and slot by slot.
#[test]
fn a_page_is_spelled_and_read_back(rt: HostRuntime) {
    let block = spelled(LEAF, all_mappings());
    let mut into = MapPage {
        head: ROOT,
        mappings: Mappings::new(),
    };
    let answer = decode(&block, &LEAF, &mut into);
    let mut copy = Mappings::new();
    copy.copy_from(&into.mappings);
    assert_eq!(rt; difference(&block, &LEAF_BYTES), None);
    assert_eq!(rt;
        (answer, into.head, other_slot(&copy, &block)),
        (Ok(()), LEAF, None)
    );
}

// A root whose last slot alone leads to a block.
fn root_with_link() -> Block {
    let mut mappings = Mappings::new();
    mappings.set(811, Mapping::At(Pbn(148)));
    spelled(ROOT, mappings)
}

// How a block is read as a root over a full page: the answer, how many slots are mapped, and the last slot.
fn read_root(block: &Block) -> (Result<(), PageFault>, usize, Mapping) {
    let mut into = MapPage {
        head: LEAF,
        mappings: all_mappings(),
    };
    let answer = decode(block, &ROOT, &mut into);
    let mapped = count_mapped(&into.mappings);
    (answer, mapped, into.mappings.get(811))
}

// A root without mappings, written over a leaf, is what `encode` writes. A root has no zeros.
#[test]
fn roots_are_written_and_read(rt: HostRuntime) {
    let mut block = spelled(LEAF, all_mappings());
    encode_unmapped(&ROOT, &mut block);
    let is_same = block.bytes == spelled(ROOT, Mappings::new()).bytes;
    let mut into = all_mappings();
    let emptied = (
        decode_mappings(&block, &ROOT, &mut into),
        count_mapped(&into),
    );
    let full = spelled(ROOT, all_mappings());
    let read = [
        read_root(&block),
        read_root(&root_with_link()),
        read_root(&full),
    ];
    let none = Mapping::Unmapped;
    let last = Mapping::At(Pbn(148));
    let wanted = [
        (Ok(()), 0, none),
        (Ok(()), 1, last),
        (Err(OutOfRange(1)), 0, none),
    ];
    assert_eq!(rt; (is_same, emptied), (true, (Ok(()), 0)));
    assert_eq!(rt;
        (read, slot(&full, &ROOT, 0)),
        (wanted, Ok(Mapping::At(Pbn(86))))
    );
}

// The answer to a block that is read as a leaf over a full root, how many slots are left, and the head; a slot, and slot 406.
type Refused = (Result<(), PageFault>, usize, PageHead, [Slot; 2]);

fn refused(block: &Block, number: u16) -> Refused {
    let mut into = MapPage {
        head: ROOT,
        mappings: all_mappings(),
    };
    let answer = decode(block, &LEAF, &mut into);
    let slots = [slot_of(block, number), slot_of(block, 406)];
    (answer, count_mapped(&into.mappings), into.head, slots)
}

static HEAD_PLACES: [usize; 14] = [0, 3, 4, 11, 12, 19, 20, 21, 22, 23, 24, 27, 28, 35];

// Where a byte of the head is another, no slot is read, though the first one has a fault too.
#[test]
fn another_head(rt: HostRuntime) {
    let wanted = (Err(Header), 0, LEAF, [Err(Header); 2]);
    for at in HEAD_PLACES {
        let block = with_added(with_byte(spelled(LEAF, all_mappings()), 36, 2), at, 1);
        assert_eq!(rt; (at, refused(&block, 0)), (at, wanted));
    }
}

// Two bytes of the leaf that are changed, the least slot at fault, and its fault. Slots 0, 3, 7 and 405 lead to blocks or
// nowhere, and slot 811 to zeros. The head alone is read then, and no other slot is at fault.
static SLOT_ROWS: [([(usize, u8); 2], u16, PageFault); 19] = [
    ([(36, 2), (36, 2)], 0, Compressed(0)),
    ([(36, 0x12), (36, 0x12)], 0, Compressed(0)),
    ([(36, 0), (36, 0)], 0, OutOfRange(0)), // unmapped, with a block
    ([(36, 0x11), (36, 0x11)], 0, OutOfRange(0)), // bit 32 of the block
    ([(36, 0x81), (36, 0x81)], 0, OutOfRange(0)), // bit 35 of the block
    ([(37, 84), (37, 84)], 0, OutOfRange(0)), // a block of the index
    ([(37, 149), (37, 149)], 0, OutOfRange(0)), // a reference block
    ([(40, 1), (40, 1)], 0, OutOfRange(0)), // past the device
    ([(2061, 15), (2061, 15)], 405, Compressed(405)),
    ([(2061, 0x21), (2061, 0x21)], 405, OutOfRange(405)),
    ([(2062, 154), (2062, 154)], 405, OutOfRange(405)), // just past the device
    ([(4091, 3), (4091, 3)], 811, Compressed(811)),
    ([(4091, 0x10), (4091, 0x10)], 811, OutOfRange(811)),
    ([(4095, 1), (4095, 1)], 811, OutOfRange(811)),
    ([(71, 2), (71, 2)], 7, Compressed(7)),
    ([(71, 0x10), (71, 0x10)], 7, OutOfRange(7)),
    ([(51, 2), (71, 0x10)], 3, Compressed(3)),
    ([(51, 0x10), (71, 2)], 3, OutOfRange(3)),
    ([(51, 0x10), (71, 0x10)], 3, OutOfRange(3)),
];

#[test]
fn the_least_slot_at_fault_is_named(rt: HostRuntime) {
    let rows = SLOT_ROWS;
    for (i, &([one, other], number, fault)) in rows.iter().enumerate() {
        let changed = with_byte(spelled(LEAF, all_mappings()), one.0, one.1);
        let found = refused(&with_byte(changed, other.0, other.1), number);
        let wanted = (Err(fault), 0, LEAF, [Err(fault), Ok(Mapping::Zero)]);
        assert_eq!(rt; (i, found), (i, wanted));
    }
}

// Slots of a leaf whose sector 0 is from an empty page, and the others aren't.
#[test]
fn a_torn_page(rt: HostRuntime) {
    let mut torn = spelled(LEAF, all_mappings());
    let empty = spelled(LEAF, Mappings::new());
    torn.bytes[0..512].copy_from_slice(&empty.bytes[0..512]);
    let slots = [
        slot_of(&torn, 90),
        slot_of(&torn, 95),
        slot_of(&torn, 96),
        slot_of(&torn, 405),
    ];
    let wanted = [
        Ok(Mapping::Unmapped),
        Err(OutOfRange(95)),
        Ok(Mapping::Zero),
        Ok(Mapping::At(Pbn(119))),
    ];
    assert_eq!(rt; slots, wanted);
}

static TEXTS: [(PageFault, &str); 3] = [
    (Header, "header"),
    (Compressed(3), "slot 3 compressed"),
    (OutOfRange(811), "slot 811 out of range"),
];

#[test]
fn texts(rt: HostRuntime) {
    assert_eq!(rt; not_shown(rt.alloc(), &TEXTS), None);
}
