//! Sessions that are served by schedules, and what they come to.

use crate::asks::Ask::{Discard, Flush, Read, Write};
use crate::asks::{Ask, Script};
use crate::judging::{
    Bound, FULL, IMAGES, NEWER, NO_SPACE, OK, OTHER, RANGE, READS, STOPPED, WRONG,
};
use crate::sessions::Image;
use vdo_core::Setup;

/// A session, by which schedules it is served, and what it comes to.
pub(crate) struct Plan {
    pub(crate) image: Image,
    pub(crate) setup: Setup,
    pub(crate) script: Script,
    /// What is read of the images that it leaves.
    pub(crate) reads: Script,
    /// It is served by the schedules of the numbers below this.
    pub(crate) schedules: u64,
    /// Which calls of its device are tried: one of so many, from the one on that the schedule's number gives, times the second
    /// of these and plus the third.
    pub(crate) tried: (u64, u64, u64),
    /// What its requests are given from a number on, where that is the same by each schedule.
    pub(crate) from: u32,
    pub(crate) gives: &'static [&'static [u16]],
    /// What comes of all schedules together without a fault, with calls that fail, and stopped.
    pub(crate) whole: &'static [Bound],
    pub(crate) failing: &'static [Bound],
    pub(crate) cut: &'static [Bound],
}

const MANY: u32 = u32::MAX;

const TWO_ZONES: Setup = Setup {
    logical_zones: 2,
    physical_zones: 1,
    depth: 1,
};

const ONE_ZONE: Setup = Setup {
    logical_zones: 1,
    ..TWO_ZONES
};

/// Each call is tried by one of the four schedules.
const TABLE: Plan = Plan {
    image: Image::LOW,
    setup: TWO_ZONES,
    script: Script::Sixteen,
    reads: Script::Table(&[&[Read(5), Read(6), Read(900), Read(901)]]),
    schedules: 4,
    tried: (4, 1, 0),
    from: 0,
    gives: &[],
    whole: &[],
    failing: &[(READS, 1, MANY), (STOPPED, 1, MANY)],
    cut: &[(IMAGES, 26, MANY), (NEWER, 9, MANY)],
};

/// Blocks are written, let go and written again, more than fifty times by each schedule, and no write is without one.
const REUSED: Plan = Plan {
    image: Image::SMALL,
    setup: Setup {
        depth: 2,
        ..ONE_ZONE
    },
    script: Script::Reused,
    reads: Script::Table(&[&[Read(0), Read(7), Read(31), Read(62), Read(99)]]),
    tried: (70, 37, 7),
    whole: &[(READS, 60, 60), (OK, 240, 240)],
    failing: &[],
    cut: &[(IMAGES, 16, MANY)],
    ..TABLE
};

/// What is asked where no block is free. A new block finds none, whatever its address has; zeros need none; and the block that
/// a discard frees goes to the next write, and to no other.
const ASKED: &[Ask] = &[
    Write(90, 0xa0),
    Write(0, 0xa1),
    Write(91, 0),
    Discard(1),
    Write(92, 0xa2),
    Write(93, 0xa3),
    Read(0),
    Read(1),
    Read(92),
];

const GIVEN: &[&[u16]] = &[&[NO_SPACE, NO_SPACE, OK, OK, OK, NO_SPACE, 1, 0, 0xa2]];

/// One request after the other, where no block is free.
pub(crate) const FILLED: Plan = Plan {
    image: Image::SMALL,
    setup: ONE_ZONE,
    script: Script::Filling(15, ASKED),
    reads: Script::Table(&[&[Read(0), Read(1), Read(2), Read(90), Read(91), Read(92)]]),
    from: 15,
    gives: GIVEN,
    whole: &[(READS, 12, 12), (NO_SPACE, 12, 12), (OK, 72, 72)],
    failing: &[],
    cut: &[],
    ..TABLE
};

/// 1,280 requests of sixteen streams; three times as many fill the longest journal. There are more addresses than the 64 data
/// blocks, of which a leaf takes one. Each slab has a physical zone. One request of a stream is under way at a time.
pub(crate) static SCARCE: Plan = Plan {
    image: Image {
        logical: 100,
        slabs: 4,
        journal: 1024,
        ..Image::SMALL
    },
    setup: Setup {
        physical_zones: 4,
        ..ONE_ZONE
    },
    script: Script::Scarce(80),
    reads: Script::Reads {
        count: 100,
        apart: 1,
    },
    schedules: 10,
    whole: &[
        (NO_SPACE, 101, MANY),
        (READS, 0, 0),
        (FULL, 0, 0),
        (STOPPED, 0, 0),
        (RANGE, 0, 0),
        (OTHER, 0, 0),
        (WRONG, 0, 0),
    ],
    ..TABLE
};

/// More writes than the journal has blocks, of which some have several entries.
pub(crate) const WIDE: Plan = Plan {
    image: Image {
        slabs: 5,
        ..Image::LOW
    },
    setup: Setup {
        depth: 16,
        ..TWO_ZONES
    },
    script: Script::Wide,
    reads: Script::Reads {
        count: 150,
        apart: 6,
    },
    tried: (524, 131, 0),
    whole: &[
        (OK, 225, MANY),
        (NO_SPACE, 0, 0),
        (STOPPED, 0, 0),
        (OTHER, 0, 0),
    ],
    cut: &[(IMAGES, 8, MANY), (NEWER, 31, MANY)],
    ..TABLE
};

pub(crate) static TABLES: [Plan; 5] = [
    // Addresses from 812 on are of the second logical zone. No two writes of a plan have the same byte.
    Plan {
        script: Script::Table(&[
            &[Write(5, 1), Read(5), Flush, Read(900)],
            &[Write(5, 2), Write(900, 3), Read(5)],
            &[Read(5), Write(900, 4), Flush, Read(900)],
            &[Write(6, 5), Read(6), Read(5), Write(6, 6)],
        ]),
        whole: &[
            (READS, 28, 28),
            (FULL, 0, 12),
            (NO_SPACE, 0, 0),
            (STOPPED, 0, 0),
            (OTHER, 0, 0),
        ],
        ..TABLE
    },
    Plan {
        setup: Setup {
            depth: 3,
            ..TWO_ZONES
        },
        script: Script::Table(&[
            &[Write(901, 1), Flush, Write(5, 2)],
            &[Read(1000), Read(901), Read(5)],
            &[Write(5, 3), Write(1000, 4), Flush],
            &[Read(5), Write(901, 5), Read(901)],
        ]),
        whole: &[(READS, 16, 16), (RANGE, 8, 8), (OK, 24, 24)],
        ..TABLE
    },
    // More writes than the journal has blocks for, where each has one of its own.
    Plan {
        setup: Setup {
            depth: 16,
            ..TWO_ZONES
        },
        script: Script::Table(&[
            &[Write(5, 1), Write(5, 2), Read(5), Flush, Write(5, 3)],
            &[Write(5, 4), Read(5), Write(901, 5), Read(901)],
            &[Write(901, 6), Write(6, 7), Read(6), Read(901)],
            &[Read(5), Write(6, 8), Write(5, 9), Write(901, 10), Read(6)],
        ]),
        whole: &[
            (READS, 28, 28),
            (FULL, 1, 40),
            (NO_SPACE, 0, 0),
            (STOPPED, 0, 0),
            (OTHER, 0, 0),
        ],
        ..TABLE
    },
    // Discards, and a write of zeros.
    Plan {
        setup: Setup {
            depth: 16,
            ..TWO_ZONES
        },
        script: Script::Table(&[
            &[Write(5, 1), Discard(5), Read(5), Flush, Write(5, 2)],
            &[Write(900, 0), Write(900, 3), Read(900), Discard(900)],
            &[Write(6, 4), Read(5), Flush, Discard(6), Read(6)],
        ]),
        whole: &[
            (READS, 16, 16),
            (FULL, 0, 32),
            (NO_SPACE, 0, 0),
            (STOPPED, 0, 0),
            (OTHER, 0, 0),
        ],
        ..TABLE
    },
    // Streams that lack the same pages, a leaf and the one above it in each of two trees.
    Plan {
        image: Image {
            is_tall: true,
            journal: 16,
            ..Image::LOW
        },
        setup: Setup {
            depth: 2,
            ..TWO_ZONES
        },
        script: Script::Table(&[
            &[Write(5, 1), Read(5), Flush, Read(900)],
            &[Write(6, 2), Write(900, 3), Read(6)],
            &[Write(901, 4), Discard(901), Read(901)],
            &[Discard(7), Write(7, 5), Flush, Read(7)],
        ]),
        whole: &[(READS, 20, 20), (FULL, 0, 0), (OK, 36, 36)],
        ..TABLE
    },
];

pub(crate) static AGAIN: [Plan; 6] = [
    REUSED,
    Plan {
        image: Image {
            slabs: 2,
            ..Image::SMALL
        },
        setup: Setup {
            physical_zones: 2,
            depth: 2,
            ..ONE_ZONE
        },
        ..REUSED
    },
    Plan {
        image: Image {
            slabs: 3,
            ..Image::SMALL
        },
        setup: Setup {
            physical_zones: 3,
            depth: 2,
            ..ONE_ZONE
        },
        ..REUSED
    },
    Plan {
        image: Image {
            slabs: 4,
            ..Image::SMALL
        },
        setup: Setup {
            physical_zones: 4,
            depth: 2,
            ..ONE_ZONE
        },
        ..REUSED
    },
    // Data blocks are scarce, and requests that wait for one are answered where a stop comes. At these stops most are used.
    Plan {
        image: Image {
            slabs: 4,
            ..Image::SMALL
        },
        setup: Setup {
            physical_zones: 4,
            ..ONE_ZONE
        },
        script: Script::Scarce(12),
        reads: Script::Table(&[&[Read(0), Read(31), Read(62), Read(99)]]),
        schedules: 12,
        tried: (400, 389, 320),
        whole: &[
            (NO_SPACE, 101, MANY),
            (FULL, 0, 0),
            (STOPPED, 0, 0),
            (OTHER, 0, 0),
        ],
        cut: &[(NO_SPACE, 101, MANY), (STOPPED, 101, MANY)],
        ..REUSED
    },
    WIDE,
];

pub(crate) static OTHERS: [Plan; 5] = [
    // Addresses below 812 are of the first of four zones, and those from there on of the second.
    Plan {
        setup: Setup {
            logical_zones: 4,
            depth: 4,
            ..TWO_ZONES
        },
        script: Script::Table(&[
            &[Write(0, 1), Write(900, 2), Read(0)],
            &[Read(900), Write(1, 3), Read(901)],
        ]),
        reads: Script::Table(&[&[Read(0), Read(1), Read(900), Read(901)]]),
        whole: &[(READS, 12, 12), (OK, 12, 12)],
        ..TABLE
    },
    FILLED,
    Plan {
        image: Image {
            slabs: 2,
            ..Image::SMALL
        },
        setup: Setup {
            physical_zones: 2,
            ..ONE_ZONE
        },
        script: Script::Filling(31, ASKED),
        from: 31,
        whole: &[(READS, 12, 12), (NO_SPACE, 12, 12), (OK, 136, 136)],
        ..FILLED
    },
    Plan {
        image: Image {
            slabs: 3,
            ..Image::SMALL
        },
        setup: Setup {
            physical_zones: 3,
            ..ONE_ZONE
        },
        script: Script::Filling(47, ASKED),
        from: 47,
        whole: &[(READS, 12, 12), (NO_SPACE, 12, 12), (OK, 200, 200)],
        ..FILLED
    },
    Plan {
        image: Image {
            slabs: 4,
            ..Image::SMALL
        },
        setup: Setup {
            physical_zones: 4,
            ..ONE_ZONE
        },
        script: Script::Filling(63, ASKED),
        from: 63,
        whole: &[(READS, 12, 12), (NO_SPACE, 12, 12), (OK, 264, 264)],
        ..FILLED
    },
];
