use blk_base::{Block, DataPlace, Geometry, Half, Layout, Pbn, Point};

// The numbers of these tests were computed by tools/layout.py. Those of the default image are the table in docs/FORMAT.md.
const DEFAULT_NEEDED: u32 = 154;

// Sequences 0, 1, 7, 8 and 15.
static DEFAULT_JOURNAL: [u32; 5] = [1, 2, 8, 1, 8];

// The first and the last, here and below.
static DEFAULT_ROOTS: [u32; 2] = [9, 68];

static DEFAULT_INDEX: [u32; 2] = [69, 84];

static DEFAULT_DATA: [u32; 2] = [85, 148];

const DEFAULT_REFERENCES: u32 = 149;

// Sequences 0, 3 and 4.
static DEFAULT_SLAB_JOURNAL: [u32; 3] = [150, 153, 150];

// With two slabs: how many blocks there are, and the first and the last data block of the second slab.
static TWO_SLABS: [u32; 3] = [223, 154, 217];

const FIRST: DataPlace = DataPlace { slab: 0, offset: 0 };

const LAST: DataPlace = DataPlace {
    slab: 0,
    offset: 63,
};

// The number of a half of an entry: block 3, entry 5, and what it takes away.
const POINT: u64 = 1547;

#[test]
fn the_default_image(rt: HostRuntime) {
    let layout = Layout::of(&Geometry::DEFAULT);
    let journal = [
        layout.journal_slot(0).0,
        layout.journal_slot(1).0,
        layout.journal_slot(7).0,
        layout.journal_slot(8).0,
        layout.journal_slot(15).0,
    ];
    let roots = [layout.root(0).0, layout.root(59).0];
    let index = [layout.index_block(0).0, layout.index_block(15).0];
    let data = [layout.data_block(0, 0).0, layout.data_block(0, 63).0];
    let references = layout.reference_block(0, 0).0;
    let slab_journal = [
        layout.slab_journal_slot(0, 0).0,
        layout.slab_journal_slot(0, 3).0,
        layout.slab_journal_slot(0, 4).0,
    ];
    assert_eq!(rt;
        (layout.needed(), journal, roots, index),
        (
            DEFAULT_NEEDED,
            DEFAULT_JOURNAL,
            DEFAULT_ROOTS,
            DEFAULT_INDEX
        )
    );
    assert_eq!(rt;
        (data, references, slab_journal),
        (DEFAULT_DATA, DEFAULT_REFERENCES, DEFAULT_SLAB_JOURNAL)
    );
}

#[test]
fn places_of_data_blocks(rt: HostRuntime) {
    let layout = Layout::of(&Geometry::DEFAULT);
    let places = [layout.place(Pbn(85)), layout.place(Pbn(148))];
    let others = [
        layout.place(Pbn(0)),
        layout.place(Pbn(84)),
        layout.place(Pbn(149)),
        layout.place(Pbn(150)),
        layout.place(Pbn(153)),
        layout.place(Pbn(154)),
    ];
    let two = Layout::of(&Geometry {
        slabs: 2,
        ..Geometry::DEFAULT
    });
    let last = DataPlace {
        slab: 1,
        offset: 63,
    };
    let blocks = [
        two.needed(),
        two.data_block(1, 0).0,
        two.data_block(1, 63).0,
    ];
    assert_eq!(rt; (places, others), ([Some(FIRST), Some(LAST)], [None; 6]));
    assert_eq!(rt; (blocks, two.place(Pbn(217))), (TWO_SLABS, Some(last)));
}

// A point, and a block that is copied.
#[test]
fn points_and_copies(rt: HostRuntime) {
    let mut block = Block::zero();
    block.bytes[7] = 9;
    let mut copy = Block::zero();
    copy.copy_from(&block);
    let point = Point::of(3, 5, Half::Decrement).0;
    assert_eq!(rt; (point, copy.bytes[7]), (POINT, 9));
}
