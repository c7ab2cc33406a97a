use crate::runs::{Calls, Run};
use blk_base::{Geometry, Lba, Pbn};
use disk_model::{BendAt, CallKind, FaultAt};
use grow_image::GrowFault;
use image_layout::{Field, SuperFault};
use image_model::ImageFault;
use stream_text::{LineFault, ScriptFault};
use vdo_cli::Fault;

/// The calls of a device before a session on a closed image: it is flushed, recovery reads the superblock, and then it is read again,
/// with the journal, the roots, and of the slab its counters and its journal.
pub(crate) const OPENING: usize = 1 + 1 + 1 + 8 + 60 + 1 + 4;

/// A run of which nothing fails.
pub(crate) const RUN: Run = Run {
    words: &["run"],
    script: b"",
    faults: &[],
    bends: &[],
    fuse: None,
    source: None,
    room: 4000,
    image: 0,
    text: b"",
    status: 0,
    calls: Calls::Any,
    receipts: [None; 2],
};

// An audit that finds so many blocks used.
const USED_0: Run = Run {
    words: &["audit"],
    text: b"audit clean, used 0 of 64\n",
    ..RUN
};

const USED_1: Run = Run {
    words: &["audit"],
    text: b"audit clean, used 1 of 64\n",
    ..RUN
};

const WRITE_AND_READ: &[u8] = b"0 write 5 4096*61\n0 read 5\n";

/// Runs in which nothing fails. One stream, which a later run finds again; two streams; no request; a refused line; no command; a
/// workload, whose script isn't looked at; and a crash.
pub(crate) static PLAIN: [&[Run]; 7] = [
    &[
        Run {
            script: WRITE_AND_READ,
            text: b"0 0 write 5 ok z0:0\n0 1 read 5 4096*61 z0:1\nused 2 of 64\n",
            ..RUN
        },
        Run {
            script: b"0 read 5\n",
            text: b"recovered 2 entries\n0 0 read 5 4096*61 z0:0\nused 2 of 64\n",
            ..RUN
        },
    ],
    &[Run {
        words: &["run", "--schedule", "3"],
        script: b"0 write 5 4096*61\n1 read 1000\n",
        text: b"0 0 write 5 ok z0:0\n1 0 read 1000 range\nused 2 of 64\n",
        ..RUN
    }],
    &[Run {
        text: b"used 0 of 64\n",
        calls: Calls::Count(OPENING),
        ..RUN
    }],
    &[Run {
        script: b"0 discard 5 1\n0 read 5\n16 read 5\n",
        text: b"script line 3: stream\n",
        status: 2,
        calls: Calls::Count(OPENING),
        ..RUN
    }],
    &[Run {
        words: &[],
        text: b"usage\n",
        status: 2,
        calls: Calls::Count(0),
        ..RUN
    }],
    &[Run {
        words: &["workload", "--requests", "1"],
        script: b"no script",
        source: Some(0),
        text: b"requests 1\nok 1\nno space 0\nread sum 0\nused 0 of 64\n",
        ..RUN
    }],
    &[Run {
        words: &["crash", "--after", "1000000", "--image", "1"],
        script: WRITE_AND_READ,
        text: b"ended\nrecovered 2 entries\n5 4096*61\naudit clean, used 2 of 64\n",
        ..RUN
    }],
];

// The first write of a block, without effect.
const WRITE: FaultAt = FaultAt {
    kind: CallKind::Write,
    at: Pbn(0),
    nth: 0,
    effect: false,
};

// The first read of a block.
const READ: FaultAt = FaultAt {
    kind: CallKind::Read,
    ..WRITE
};

// The first flush.
const FLUSH: FaultAt = FaultAt {
    kind: CallKind::Flush,
    ..WRITE
};

/// Calls of the device that fail.
pub(crate) static FAULTS: [&[Run]; 12] = [
    // The write of the superblock fails, behind which nothing is written: only reads are served then.
    &[Run {
        script: b"0 write 5 4096*61\n0 flush\n0 read 5\n",
        faults: &[WRITE],
        text: b"0 0 write 5 stopped z0:0\n0 1 flush stopped\n0 2 read 5 4096*00 z0:1\nused 0 of 64\n",
        status: 3,
        calls: Calls::Count(OPENING + 1),
        ..RUN
    }],
    // The first write of a data block fails: that of the leaf.
    &[
        Run {
            script: b"0 write 5 4096*61\n0 flush\n0 read 5\n0 write 6 4096*61\n",
            faults: &[FaultAt {
                at: Pbn(85),
                ..WRITE
            }],
            text: b"0 0 write 5 stopped z0:0\n0 1 flush stopped\n0 2 read 5 4096*00 z0:1\n0 3 write 6 stopped\nused 0 of 64\n",
            status: 3,
            ..RUN
        },
        USED_0,
    ],
    // The write of the journal block with the leaf's entry fails: nothing of the address was handed in, and it is as it was.
    &[
        Run {
            script: b"0 write 5 4096*61\n0 read 5\n0 discard 5 1\n",
            faults: &[FaultAt {
                at: Pbn(2),
                ..WRITE
            }],
            text: b"0 0 write 5 stopped z0:0\n0 1 read 5 4096*00 z0:1\n0 2 discard 5 stopped\nused 0 of 64\n",
            status: 3,
            ..RUN
        },
        USED_0,
    ],
    // That of the data.
    &[
        Run {
            script: WRITE_AND_READ,
            faults: &[FaultAt {
                at: Pbn(86),
                ..WRITE
            }],
            text: b"0 0 write 5 stopped z0:0\n0 1 read 5 4096*00 z0:1\nused 1 of 64\n",
            status: 3,
            ..RUN
        },
        USED_1,
    ],
    // That of the block with the write's entry: a stop may show either value, and a read of this address gives neither.
    &[
        Run {
            script: b"0 write 5 4096*61\n0 read 5\n0 read 6\n",
            faults: &[FaultAt {
                at: Pbn(3),
                ..WRITE
            }],
            text: b"0 0 write 5 stopped z0:0\n0 1 read 5 stopped z0:1\n0 2 read 6 4096*00 z0:2\nused 1 of 64\n",
            status: 3,
            ..RUN
        },
        USED_1,
    ],
    // And that of the next one.
    &[Run {
        script: b"0 write 5 4096*61\n0 write 5 4096*62\n0 read 5\n",
        faults: &[FaultAt {
            at: Pbn(4),
            ..WRITE
        }],
        text: b"0 0 write 5 ok z0:0\n0 1 write 5 stopped z0:1\n0 2 read 5 stopped z0:2\nused 2 of 64\n",
        status: 3,
        ..RUN
    }],
    // The flush with which a run begins fails, and nothing else is done; and then that of a session.
    &[Run {
        script: b"0 flush\n",
        faults: &[FLUSH],
        text: b"device fault\n",
        status: 3,
        calls: Calls::Count(1),
        ..RUN
    }],
    &[Run {
        script: b"0 flush\n0 read 0\n0 flush\n",
        faults: &[FaultAt { nth: 1, ..FLUSH }],
        text: b"0 0 flush stopped\n0 1 read 0 4096*00 z0:0\n0 2 flush stopped\nused 0 of 64\n",
        status: 3,
        ..RUN
    }],
    // A data block can't be read, once; the leaf stands before it.
    &[Run {
        script: b"0 write 5 4096*61\n0 read 5\n0 read 5\n",
        faults: &[FaultAt {
            at: Pbn(86),
            ..READ
        }],
        text: b"0 0 write 5 ok z0:0\n0 1 read 5 read fault z0:1\n0 2 read 5 4096*61 z0:2\nused 2 of 64\n",
        status: 3,
        ..RUN
    }],
    // The superblock can't be read, or a block of the journal.
    &[Run {
        script: b"0 read 5\n",
        faults: &[READ],
        text: b"device fault\n",
        status: 3,
        ..RUN
    }],
    &[Run {
        script: b"0 read 5\n",
        faults: &[FaultAt { at: Pbn(8), ..READ }],
        text: b"device fault\n",
        status: 3,
        ..RUN
    }],
    // The leaf of an address that the session didn't set can't be read, once: the image is closed, and opening it reads the leaf
    // before.
    &[
        Run {
            script: b"0 write 5 4096*61\n",
            text: b"0 0 write 5 ok z0:0\nused 2 of 64\n",
            ..RUN
        },
        Run {
            text: b"recovered 2 entries\nused 2 of 64\n",
            ..RUN
        },
        Run {
            script: b"0 read 5\n0 read 5\n",
            faults: &[FaultAt {
                at: Pbn(85),
                nth: 1,
                ..READ
            }],
            text: b"0 0 read 5 read fault z0:0\n0 1 read 5 4096*61 z0:1\nused 2 of 64\n",
            status: 3,
            ..RUN
        },
    ],
];

/// Sources and sinks that fail.
pub(crate) static OUTSIDE: [&[Run]; 3] = [
    &[Run {
        script: WRITE_AND_READ,
        source: Some(0),
        text: b"read fault\n",
        status: 7,
        ..RUN
    }],
    &[Run {
        script: WRITE_AND_READ,
        room: 10,
        text: b"0 0 write ",
        status: 7,
        ..RUN
    }],
    // A device that failed decides the status before the sink does.
    &[Run {
        script: WRITE_AND_READ,
        faults: &[FaultAt {
            at: Pbn(85),
            ..WRITE
        }],
        room: 10,
        text: b"0 0 write ",
        status: 3,
        ..RUN
    }],
];

// The first leaf that is made stands in the first data block; byte 51 has the state of its slot 3.
const BEND: BendAt = BendAt {
    at: Pbn(85),
    after: 1,
    byte: 51,
    value: 2,
};

// Address 5 is written, and the image is closed: then it has a leaf.
const WRITTEN: Run = Run {
    script: b"0 write 5 4096*61\n",
    text: b"0 0 write 5 ok z0:0\nused 2 of 64\n",
    ..RUN
};

const CLOSED: Run = Run {
    text: b"recovered 2 entries\nused 2 of 64\n",
    ..RUN
};

/// Blocks that read otherwise than they were written: what no honest device does.
pub(crate) static BENT: [&[Run]; 4] = [
    // Behind the flush the superblock is read once, and refused.
    &[Run {
        bends: &[BendAt {
            at: Pbn(0),
            after: 0,
            byte: 8,
            value: 255,
        }],
        text: b"bad image: version 255\n",
        status: 4,
        calls: Calls::Count(2),
        ..RUN
    }],
    // A leaf is read once the superblock is written, and then otherwise. The session is stopped: nothing else is written.
    &[
        WRITTEN,
        CLOSED,
        Run {
            script: b"0 read 5\n",
            bends: &[BEND],
            text: b"0 0 read 5 damaged z0:0\ndamage: page 85\nused 2 of 64\n",
            status: 4,
            calls: Calls::Writes(1),
            ..RUN
        },
    ],
    // What comes behind is stopped, but for reads of addresses without a leaf.
    &[
        WRITTEN,
        CLOSED,
        Run {
            script: b"0 write 6 4096*62\n0 write 7 4096*63\n0 flush\n0 read 900\n",
            bends: &[BEND],
            text: b"0 0 write 6 damaged z0:0\n0 1 write 7 stopped\n0 2 flush stopped\n0 3 read 900 4096*00 z0:1\ndamage: page 85\nused 2 of 64\n",
            status: 4,
            calls: Calls::Writes(1),
            ..RUN
        },
    ],
    // Byte 62 has the block of its slot 5: a data block that nothing is mapped to. So the block that a write replaces is counted at
    // 0: the session is stopped, and behind the entry nothing is written.
    &[
        WRITTEN,
        CLOSED,
        Run {
            words: &["run", "--schedule", "0"],
            script: b"0 write 5 4096*62\n0 read 5\n0 flush\n0 write 6 4096*63\n",
            bends: &[BendAt {
                byte: 62,
                value: 90,
                ..BEND
            }],
            text: b"0 0 write 5 ok z0:0\n0 1 read 5 4096*62 z0:1\n0 2 flush stopped\n0 3 write 6 stopped\ndamage: count 90\nused 3 of 64\n",
            status: 4,
            calls: Calls::Writes(3),
            ..RUN
        },
    ],
];

/// 16 data blocks, of which a leaf and the first 15 writes take all, and a journal that takes more entries than are made.
pub(crate) const SMALL: Geometry = Geometry {
    slab_blocks: 16,
    journal: 32,
    ..Geometry::DEFAULT
};

/// A write without a leaf finds no block for that. The block of a discard becomes the leaf, and there is none for the data; the next
/// one has the data. Each that finds none asks in one step of the zone, and takes its ticket back in the next one.
pub(crate) static WITHOUT_SPACE: [&[Run]; 1] = [&[Run {
    script: b"0 write 0 4096*01\n0 write 1 4096*02\n0 write 2 4096*03\n0 write 3 4096*04\n0 write 4 4096*05\n0 write 5 4096*06\n0 write 6 4096*07\n0 write 7 4096*08\n0 write 8 4096*09\n0 write 9 4096*0a\n0 write 10 4096*0b\n0 write 11 4096*0c\n0 write 12 4096*0d\n0 write 13 4096*0e\n0 write 14 4096*0f\n0 flush\n0 write 900 4096*41\n0 discard 1 1\n0 write 900 4096*42\n0 read 900\n0 discard 2 1\n0 write 900 4096*43\n0 read 900\n",
    text: b"0 0 write 0 ok z0:0\n0 1 write 1 ok z0:1\n0 2 write 2 ok z0:2\n0 3 write 3 ok z0:3\n0 4 write 4 ok z0:4\n0 5 write 5 ok z0:5\n0 6 write 6 ok z0:6\n0 7 write 7 ok z0:7\n0 8 write 8 ok z0:8\n0 9 write 9 ok z0:9\n0 10 write 10 ok z0:10\n0 11 write 11 ok z0:11\n0 12 write 12 ok z0:12\n0 13 write 13 ok z0:13\n0 14 write 14 ok z0:14\n0 15 flush ok\n0 16 write 900 no space z0:15\n0 17 discard 1 ok z0:16\n0 18 write 900 no space z0:17\n0 19 read 900 4096*00 z0:18\n0 20 discard 2 ok z0:19\n0 21 write 900 ok z0:20\n0 22 read 900 4096*43 z0:21\nused 16 of 16\n",
    status: 1,
    receipts: [Some((16, 0)), Some((18, 2))],
    ..RUN
}]];

const FOUR_WRITES: &[u8] =
    b"0 write 0 4096*61\n0 write 1 4096*62\n0 write 812 4096*63\n0 write 813 4096*64\n";

const FOUR_READS: &[u8] = b"0 read 0\n0 read 1\n1 read 812\n1 read 813\n";

/// Runs of other depths and zones. At depth 1 each of a stream's writes has its own blocks of the journal and its own flushes;
/// at depth 4 they share them; and with two zones of each kind too, where the next run has others. A write of the superblock that
/// fails stops the requests of both zones.
pub(crate) static SETUPS: [&[Run]; 4] = [
    &[Run {
        words: &["run", "--depth", "1"],
        script: FOUR_WRITES,
        text: b"0 0 write 0 ok z0:0\n0 1 write 1 ok z0:1\n0 2 write 812 ok z0:2\n0 3 write 813 ok z0:3\nused 6 of 64\n",
        calls: Calls::Count(OPENING + 30),
        ..RUN
    }],
    &[Run {
        words: &["run", "--depth", "4"],
        script: FOUR_WRITES,
        text: b"0 0 write 0 ok z0:0\n0 1 write 1 ok z0:1\n0 2 write 812 ok z0:2\n0 3 write 813 ok z0:3\nused 6 of 64\n",
        calls: Calls::Count(OPENING + 21),
        ..RUN
    }],
    &[
        Run {
            words: &[
                "run",
                "--depth=4",
                "--logical-zones=2",
                "--physical-zones=2",
            ],
            script: FOUR_WRITES,
            image: 1,
            text: b"0 0 write 0 ok z0:0\n0 1 write 1 ok z0:1\n0 2 write 812 ok z1:0\n0 3 write 813 ok z1:1\nused 6 of 64\n",
            calls: Calls::Count(OPENING + 21),
            ..RUN
        },
        Run {
            words: &[
                "run",
                "--depth=16",
                "--logical-zones=4",
                "--physical-zones=1",
            ],
            script: FOUR_READS,
            text: b"recovered 6 entries\n0 0 read 0 4096*61 z0:0\n0 1 read 1 4096*62 z0:1\n1 0 read 812 4096*63 z1:0\n1 1 read 813 4096*64 z1:1\nused 6 of 64\n",
            ..RUN
        },
    ],
    &[
        Run {
            words: &[
                "run",
                "--depth=4",
                "--logical-zones=2",
                "--physical-zones=2",
            ],
            script: b"0 write 5 4096*61\n1 write 812 4096*62\n0 read 5\n1 read 812\n",
            faults: &[WRITE],
            text: b"0 0 write 5 stopped z0:0\n0 1 read 5 4096*00 z0:1\n1 0 write 812 stopped z1:0\n1 1 read 812 4096*00 z1:1\nused 0 of 64\n",
            status: 3,
            ..RUN
        },
        USED_0,
    ],
];

/// Faults, and what each displays.
pub(crate) static FAULT_LINES: [(Fault, &str); 14] = [
    (Fault::Usage, "usage"),
    (
        Fault::Script(ScriptFault {
            line: 65_537,
            fault: LineFault::TooMany,
        }),
        "script line 65537: too many",
    ),
    (Fault::Device, "device fault"),
    (
        Fault::Image(ImageFault::Super(SuperFault::NotAnImage)),
        "bad image: not an image",
    ),
    (
        Fault::Image(ImageFault::Super(SuperFault::Version(7))),
        "bad image: version 7",
    ),
    (
        Fault::Image(ImageFault::Super(SuperFault::BadField(Field::SlabBlocks))),
        "bad image: field slab-blocks",
    ),
    (
        Fault::Image(ImageFault::Window { sequence: 12 }),
        "bad image: window 12",
    ),
    (
        Fault::Image(ImageFault::Counts {
            at: Pbn(86),
            stored: 2,
            mapped: 1,
        }),
        "bad image: block 86 stored 2 mapped 1",
    ),
    (
        Fault::Image(ImageFault::SharedPage { at: Pbn(85) }),
        "bad image: shared page 85",
    ),
    (Fault::Differs(12), "audit differs 12"),
    (
        Fault::Grow(GrowFault::Smaller(Field::Slabs)),
        "grow: smaller slabs",
    ),
    (
        Fault::Grow(GrowFault::Mapped { at: Lba(1000) }),
        "grow: mapped 1000",
    ),
    (Fault::Memory, "no memory"),
    (Fault::Read, "read fault"),
];
