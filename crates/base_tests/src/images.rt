use blk_base::{Block, Entry, Geometry, Lba, Mapping, Pbn, Super};
use image_layout::SuperFault::{BadField, NotAnImage, Version};
use image_layout::{Field, SuperFault, mapping_at, read_super, write_super};
use test_images::{not_shown, with_byte};

const HEAD: Super = Super {
    geometry: Geometry::DEFAULT,
    clean: false,
    start: 1,
};

// The first 64 bytes of a superblock with these sizes, computed by tools/superblock.py.
static DEFAULT_BYTES: [u8; 64] = [
    0x52, 0x56, 0x44, 0x4f, 0x53, 0x42, 0x30, 0x31, 0x01, 0x00, 0x00, 0x00, 0x02, 0x00, 0x00, 0x00,
    0x01, 0x00, 0x00, 0x00, 0x00, 0x00, 0x00, 0x00, 0xe8, 0x03, 0x00, 0x00, 0x01, 0x00, 0x00, 0x00,
    0x40, 0x00, 0x00, 0x00, 0x08, 0x00, 0x00, 0x00, 0x10, 0x00, 0x00, 0x00, 0x04, 0x00, 0x00, 0x00,
    0x00, 0x00, 0x00, 0x00, 0x00, 0x00, 0x00, 0x00, 0x01, 0x00, 0x00, 0x00, 0x00, 0x00, 0x00, 0x00,
];

// Another head, with a greatest value where one is, in the same form.
const OTHER: Super = Super {
    geometry: Geometry {
        logical: 0x0102_0304,
        slabs: 2,
        slab_blocks: 32768,
        journal: 1024,
        index: 12,
        slab_journal: 64,
        height: 3,
        nonce: 0x1122_3344_5566_7788,
    },
    clean: true,
    start: (1 << 54) - 1,
};

static OTHER_BYTES: [u8; 64] = [
    0x52, 0x56, 0x44, 0x4f, 0x53, 0x42, 0x30, 0x31, 0x01, 0x00, 0x00, 0x00, 0x03, 0x00, 0x00, 0x00,
    0x88, 0x77, 0x66, 0x55, 0x44, 0x33, 0x22, 0x11, 0x04, 0x03, 0x02, 0x01, 0x02, 0x00, 0x00, 0x00,
    0x00, 0x80, 0x00, 0x00, 0x00, 0x04, 0x00, 0x00, 0x0c, 0x00, 0x00, 0x00, 0x40, 0x00, 0x00, 0x00,
    0x01, 0x00, 0x00, 0x00, 0x00, 0x00, 0x00, 0x00, 0xff, 0xff, 0xff, 0xff, 0xff, 0xff, 0x3f, 0x00,
];

// A place in the default superblock, another byte there, and what is then answered.
type Row = (usize, u8, SuperFault);

// One row for each check but that of the device's blocks, in the order of the checks.
static FIRST_ROWS: [Row; 14] = [
    (0, 0x53, NotAnImage),
    (8, 2, Version(2)),
    (12, 4, BadField(Field::Height)),
    (16, 0, BadField(Field::Nonce)),
    (27, 3, BadField(Field::Logical)),
    (28, 0, BadField(Field::Slabs)),
    (32, 15, BadField(Field::SlabBlocks)),
    (36, 7, BadField(Field::Journal)),
    (40, 18, BadField(Field::Index)),
    (44, 65, BadField(Field::SlabJournal)),
    (48, 2, BadField(Field::Clean)),
    (52, 1, BadField(Field::Reserved)),
    (56, 0, BadField(Field::Start)),
    (64, 1, BadField(Field::Reserved)),
];

// More of them: the other end of a range, the last byte of a field.
static MORE_ROWS: [Row; 15] = [
    (7, 0x32, NotAnImage),
    (11, 1, Version(0x0100_0001)),
    (12, 1, BadField(Field::Height)),
    (29, 4, BadField(Field::Slabs)),
    (33, 0x80, BadField(Field::SlabBlocks)),
    (37, 4, BadField(Field::Journal)),
    (40, 0, BadField(Field::Index)),
    (41, 4, BadField(Field::Index)),
    (44, 1, BadField(Field::SlabJournal)),
    (51, 1, BadField(Field::Clean)),
    (55, 1, BadField(Field::Reserved)),
    (62, 0x40, BadField(Field::Start)),
    (63, 1, BadField(Field::Start)),
    (65, 255, BadField(Field::Reserved)),
    (511, 1, BadField(Field::Reserved)),
];

fn spelled(head: &Super) -> Block {
    let mut block = Block { bytes: [7; 4096] };
    write_super(head, &mut block);
    block
}

// The first 64 bytes of a block, and whether the others are zeros.
fn first_bytes(block: &Block) -> ([u8; 64], bool) {
    let mut first = [0; 64];
    first.copy_from_slice(&block.bytes[..64]);
    (first, block.bytes[64..].iter().all(|&byte| byte == 0))
}

type Answer = Result<Super, SuperFault>;

// What is read of a superblock where the device has one block less than it needs, and enough. The other sectors aren't looked
// at.
fn read_back(head: &Super, one_less: u32, enough: u32) -> [Answer; 3] {
    let block = spelled(head);
    let marked = with_byte(with_byte(spelled(head), 512, 1), 4095, 1);
    [
        read_super(&block, one_less),
        read_super(&block, enough),
        read_super(&marked, u32::MAX),
    ]
}

#[test]
fn superblocks_are_written_and_read(rt: HostRuntime) {
    let written = [first_bytes(&spelled(&HEAD)), first_bytes(&spelled(&OTHER))];
    let read = [read_back(&HEAD, 153, 154), read_back(&OTHER, 66778, 66779)];
    let too_small = Err(BadField(Field::Blocks));
    assert_eq!(rt; written, [(DEFAULT_BYTES, true), (OTHER_BYTES, true)]);
    assert_eq!(rt;
        read,
        [
            [too_small, Ok(HEAD), Ok(HEAD)],
            [too_small, Ok(OTHER), Ok(OTHER)]
        ]
    );
}

// The first two rows, of which the second isn't before the first, that aren't answered as the first is, with a block less and
// with enough.
fn unnamed(firsts: &[Row], others: &[Row]) -> Option<(Row, Row, [Answer; 2])> {
    for (i, one) in firsts.iter().enumerate() {
        for other in others.iter().skip(i) {
            let block = with_byte(with_byte(spelled(&HEAD), one.0, one.1), other.0, other.1);
            let answers = [read_super(&block, 153), read_super(&block, 154)];
            if answers != [Err(one.2); 2] {
                return Some((*one, *other, answers));
            }
        }
    }
    None
}

#[test]
fn the_first_fault_is_named(rt: HostRuntime) {
    assert_eq!(rt; unnamed(&FIRST_ROWS, &FIRST_ROWS), None);
    for (at, byte, fault) in MORE_ROWS {
        let found = read_super(&with_byte(spelled(&HEAD), at, byte), 154);
        assert_eq!(rt; (at, byte, found), (at, byte, Err(fault)));
    }
}

// A height, a logical size, and whether it is accepted: the greatest of each height is.
type LogicalRow = (u32, u32, bool);

static LOGICAL_ROWS: [LogicalRow; 8] = [
    (2, 0, false),
    (2, 1, true),
    (2, 39_560_640, true),
    (2, 39_560_641, false),
    (3, 0, false),
    (3, 1, true),
    (3, 4_000_000_000, true),
    (3, 4_000_000_001, false),
];

#[test]
fn logical_limits(rt: HostRuntime) {
    for (height, logical, accepted) in LOGICAL_ROWS {
        let head = Super {
            geometry: Geometry {
                logical,
                height,
                ..Geometry::DEFAULT
            },
            ..HEAD
        };
        let wanted = if accepted {
            Ok(head)
        } else {
            Err(BadField(Field::Logical))
        };
        assert_eq!(rt; read_super(&spelled(&head), 154), wanted);
    }
}

fn remap(at: u32, block: u32) -> Entry {
    Entry::Remap {
        at: Lba(at),
        old: Mapping::Unmapped,
        new: Mapping::At(Pbn(block)),
    }
}

// Where addresses 3 to 6 are mapped.
fn mappings_at(entries: &[Entry]) -> [Mapping; 4] {
    [
        mapping_at(entries, Lba(3)),
        mapping_at(entries, Lba(4)),
        mapping_at(entries, Lba(5)),
        mapping_at(entries, Lba(6)),
    ]
}

#[test]
fn mappings(rt: HostRuntime) {
    let entries = [remap(3, 1), remap(4, 2), remap(3, 2), remap(5, 9)];
    let one = Mapping::At(Pbn(1));
    let two = Mapping::At(Pbn(2));
    let nine = Mapping::At(Pbn(9));
    let none = Mapping::Unmapped;
    let mapped = [mappings_at(&entries), mappings_at(&entries[..1])];
    assert_eq!(rt; mapped, [[two, two, nine, none], [one, none, none, none]]);
}

static FIELD_NAMES: [(Field, &str); 12] = [
    (Field::Height, "height"),
    (Field::Nonce, "nonce"),
    (Field::Logical, "logical"),
    (Field::Slabs, "slabs"),
    (Field::SlabBlocks, "slab-blocks"),
    (Field::Journal, "journal"),
    (Field::Index, "index"),
    (Field::SlabJournal, "slab-journal"),
    (Field::Clean, "clean"),
    (Field::Reserved, "reserved"),
    (Field::Start, "start"),
    (Field::Blocks, "blocks"),
];

static SUPER_TEXTS: [(SuperFault, &str); 3] = [
    (NotAnImage, "not an image"),
    (Version(7), "version 7"),
    (BadField(Field::Journal), "field journal"),
];

// Those of fields and of faults.
#[test]
fn names_and_texts(rt: HostRuntime) {
    for &(field, name) in &FIELD_NAMES {
        assert_eq!(rt; field.name(), name);
    }
    assert_eq!(rt; not_shown(rt.alloc(), &FIELD_NAMES), None);
    assert_eq!(rt; not_shown(rt.alloc(), &SUPER_TEXTS), None);
}
