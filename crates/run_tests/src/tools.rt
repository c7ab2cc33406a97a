//! The commands that make, look at and change images: where their sink or device fails, and what calls they make. What they
//! print is tried by `cases/`.
use crate::rows::RUN;
use crate::runs::{Calls, Run, row_is_right};
use blk_base::{Block, Geometry, Pbn};
use disk_model::{CallKind, FaultAt, MemDisk};
use std::alloc::{AllocError, Global};
use std::process::Abort;
use std::sync::Wait;
use std::test::Fail;
use std::thread::Threads;
use test_images::empty_image;

/// A block, a place in it, and the bytes that stand there.
pub(crate) type Patch = (usize, usize, &'static [u8]);

/// An empty image of the default sizes with some bytes changed, on a device of so many blocks.
#[derive(Clone, Copy)]
pub(crate) struct Image {
    pub(crate) blocks: u32,
    pub(crate) patches: &'static [Patch],
}

/// An image, and commands that come one after the other on it.
type Row = (Image, &'static [Run]);

pub(crate) const EMPTY: Image = Image {
    blocks: 154,
    patches: &[],
};

// A root leads to the first data block, which is a leaf, its address 5 to the second one, and both are counted.
pub(crate) const LINK: Patch = (9, 36, b"\x01U\0\0\0");

pub(crate) const LEAF: Patch = (85, 0, b"VMP1\x01\0\0\0\0\0\0\0U");

pub(crate) const MAPPING: Patch = (85, 61, b"\x01V\0\0\0");

pub(crate) const COUNTS: Patch = (149, 8, b"\x01\x01");

// The session wasn't closed: the window has the leaf and the mapping.
pub(crate) const UNCLEAN: Patch = (0, 48, b"\0");

pub(crate) const WINDOW: Patch = (
    2,
    0,
    b"\x01\0\0\0\0\0\0\0\x01\0\0\0\0\0\0\0\x01\0\0\0\0\0\0\0\0\0\x02\0VJS1\x01\0\0\0\0\0\0\0\0\0\0\0\0\x01U\0\0\0\0\0\0\0\0\0\x05\0\0\0\0\0\0\0\0\x01V",
);

// Address 5 was written, and there is room for another slab.
const WRITTEN: Image = Image {
    blocks: 223,
    patches: &[LINK, LEAF, MAPPING, COUNTS],
};

// The counter of its block is one too great.
const COUNTED_TWICE: Image = Image {
    blocks: 154,
    patches: &[LINK, LEAF, MAPPING, (149, 8, b"\x01\x02"), (86, 0, b"abbb")],
};

pub(crate) const STOPPED: Image = Image {
    blocks: 154,
    patches: &[UNCLEAN, WINDOW, LEAF],
};

// Two chapters of the index have a page at its place.
const INDEXED: Image = Image {
    blocks: 154,
    patches: &[
        (70, 0, b"\x01\0\0\0\0\0\0\0\x04\0\0\0\x01"),
        (
            75,
            0,
            b"\x01\0\0\0\0\0\0\0\x01\0\0\0\x02\x01\0\0\xb1y7\x9e\x01\0\0\0\0\0\0\0\0\0\0\0X",
        ),
    ],
};

// There is no leaf.
const HEADER: Image = Image {
    blocks: 154,
    patches: &[LINK],
};

const ANOTHER_VERSION: Image = Image {
    blocks: 154,
    patches: &[(0, 8, b"\x07")],
};

// A command with all the room for its output, of which no call fails.
const DONE: Run = Run {
    words: &["audit"],
    text: b"audit clean, used 0 of 64\n",
    ..RUN
};

const AUDIT_2: Run = Run {
    text: b"audit clean, used 2 of 64\n",
    ..DONE
};

const CLEAN: Run = Run {
    words: &["recover"],
    text: b"clean\n",
    calls: Calls::Count(2),
    ..DONE
};

const FORMATTED: Run = Run {
    words: &["format"],
    text: b"formatted 154 blocks, 1 slab of 64, logical 1000\n",
    calls: Calls::Count(94),
    ..DONE
};

// An image of the default sizes takes block 0, a flush, 89 blocks, a flush, block 0, and a flush; one of two slabs 5 blocks more.
static FORMATS: [Row; 5] = [
    (EMPTY, &[FORMATTED]),
    (
        WRITTEN,
        &[Run {
            words: &["format", "--slabs", "2"],
            text: b"formatted 223 blocks, 2 slabs of 64, logical 1000\n",
            calls: Calls::Count(99),
            ..DONE
        }],
    ),
    (
        EMPTY,
        &[Run {
            words: &["format", "--slabs", "2"],
            text: b"layout: needs 223 blocks, has 154\n",
            status: 8,
            calls: Calls::Count(0),
            ..DONE
        }],
    ),
    (
        EMPTY,
        &[Run {
            faults: &[FaultAt {
                kind: CallKind::Write,
                at: Pbn(0),
                nth: 0,
                effect: false,
            }],
            text: b"device fault\n",
            status: 3,
            calls: Calls::Count(1),
            ..FORMATTED
        }],
    ),
    (
        EMPTY,
        &[
            Run {
                room: 10,
                text: b"formatted ",
                status: 7,
                ..FORMATTED
            },
            DONE,
        ],
    ),
];

/// Where the sink is full, blocks that differ and what is wrong with an image keep their status, and an image is left as else.
static FULL: [Row; 11] = [
    (
        EMPTY,
        &[Run {
            room: 10,
            text: b"audit clea",
            status: 7,
            calls: Calls::Writes(0),
            ..DONE
        }],
    ),
    (
        COUNTED_TWICE,
        &[Run {
            room: 10,
            text: b"block 86 s",
            status: 6,
            ..DONE
        }],
    ),
    (
        COUNTED_TWICE,
        &[Run {
            room: 40,
            text: b"block 86 stored 2 mapped 1\naudit differs",
            status: 6,
            ..DONE
        }],
    ),
    (
        HEADER,
        &[Run {
            room: 9,
            text: b"bad image",
            status: 4,
            ..DONE
        }],
    ),
    (
        EMPTY,
        &[Run {
            words: &["status"],
            room: 20,
            text: b"mode clean\nrecovery ",
            status: 7,
            calls: Calls::Writes(0),
            ..DONE
        }],
    ),
    (
        HEADER,
        &[Run {
            words: &["status"],
            room: 0,
            text: b"",
            status: 4,
            ..DONE
        }],
    ),
    (
        EMPTY,
        &[
            Run {
                room: 3,
                text: b"cle",
                status: 7,
                ..CLEAN
            },
            CLEAN,
            DONE,
        ],
    ),
    (
        STOPPED,
        &[
            Run {
                words: &["recover"],
                room: 10,
                text: b"recovered ",
                status: 7,
                ..DONE
            },
            CLEAN,
            AUDIT_2,
        ],
    ),
    (
        ANOTHER_VERSION,
        &[Run {
            room: 5,
            text: b"bad i",
            status: 4,
            ..CLEAN
        }],
    ),
    (
        STOPPED,
        &[
            Run {
                words: &["force-rebuild"],
                room: 8,
                text: b"rebuilt,",
                status: 7,
                ..DONE
            },
            AUDIT_2,
        ],
    ),
    (
        WRITTEN,
        &[
            Run {
                words: &["grow", "--logical=2000", "--slabs=2"],
                room: 6,
                text: b"grown ",
                status: 7,
                ..DONE
            },
            Run {
                text: b"audit clean, used 2 of 128\n",
                ..DONE
            },
        ],
    ),
];

/// An index block that can't be read holds no page; and a crash reads each block once, and tells values though a block differs.
static READS: [Row; 2] = [
    (
        INDEXED,
        &[Run {
            words: &["status"],
            faults: &[FaultAt {
                kind: CallKind::Read,
                at: Pbn(75),
                nth: 0,
                effect: false,
            }],
            text: b"mode clean\nrecovery none\nindex 1 chapters\ncompression refused\nused 0 of 64\nlogical 1000\n",
            calls: Calls::Count(90),
            ..DONE
        }],
    ),
    (
        COUNTED_TWICE,
        &[
            Run {
                words: &["crash", "--after=0", "--image=1"],
                script: b"0 read 900\n0 read 5\n1 write 6 4096*61\n1 flush\n0 discard 1000 1\n0 read 5\n",
                text: b"stopped\nclean\n5 1*61+3*62+4092*00\n6 4096*00\n900 4096*00\nblock 86 stored 2 mapped 1\naudit differs 1\n",
                status: 6,
                calls: Calls::Count(154),
                ..DONE
            },
            Run {
                text: b"block 86 stored 2 mapped 1\naudit differs 1\n",
                status: 6,
                calls: Calls::Writes(0),
                ..DONE
            },
        ],
    ),
];

fn put_bytes(block: &mut Block, place: usize, bytes: &[u8]) {
    for (k, byte) in bytes.iter().enumerate() {
        if let Some(into) = block.bytes.get_mut(place.saturating_add(k)) {
            *into = *byte;
        }
    }
}

/// A device with an image.
pub(crate) fn device_of(alloc: Global, image: Image) -> Result<MemDisk, AllocError> {
    let mut blocks = empty_image(alloc, &Geometry::DEFAULT)?;
    for _ in 154..image.blocks {
        blocks.push(Block::zero())?;
    }
    for &(at, place, bytes) in image.patches {
        if let Some(block) = blocks.get_mut(at) {
            put_bytes(block, place, bytes);
        }
    }
    MemDisk::from_blocks(alloc, blocks)
}

// Each row begins on its image.
fn rows_are_right<R: Threads + Wait + Sync + Abort>(
    rt: &R,
    alloc: Global,
    rows: &[Row],
) -> Result<(), Fail> {
    for (row, &(image, runs)) in rows.iter().enumerate() {
        row_is_right(rt, alloc, device_of(alloc, image)?, row, runs)?;
    }
    Ok(())
}

#[test]
fn an_image_is_made(rt: HostRuntime) -> Result<(), Fail> {
    rows_are_right(&rt, rt.alloc(), &FORMATS)
}

#[test]
fn a_sink_that_is_full(rt: HostRuntime) -> Result<(), Fail> {
    rows_are_right(&rt, rt.alloc(), &FULL)
}

#[test]
fn reads_alone(rt: HostRuntime) -> Result<(), Fail> {
    rows_are_right(&rt, rt.alloc(), &READS)
}
