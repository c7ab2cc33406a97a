//! The commands that look at and change images, of whose calls those behind so many fail: what is put, and what the commands
//! behind that find on what is left.
use crate::rows::RUN;
use crate::runs::{Calls, Outcome, Run, outcome_of, served};
use crate::tools::{
    COUNTS, EMPTY, Image, LEAF, LINK, MAPPING, STOPPED, UNCLEAN, WINDOW, device_of,
};
use disk_model::MemDisk;
use std::alloc::{AllocError, Global};
use std::process::Abort;
use std::sync::Wait;
use std::test::Fail;
use std::thread::Threads;

/// Words, and the texts of which they put one, with status 0.
type Puts = (&'static [&'static str], &'static [&'static [u8]]);

/// A command on an image.
struct Tool {
    image: Image,
    words: &'static [&'static str],
    text: &'static [u8],
    /// How many calls it makes.
    calls: usize,
    /// How many of the last of them may fail: those that read the index.
    spare: usize,
    /// From which on each is tried; of the reads before it every seventh.
    writes: usize,
    /// The images of what was written that are looked at: number 0 is what was certain, 1 all that was written since, 7 a mix of both.
    numbers: &'static [u64],
    /// What comes behind it on such an image.
    behind: &'static [Puts],
}

// The superblock, the journal's 8 blocks, the 60 roots, the counters and the 4 blocks of the slab's journal are read.
static AUDIT: Tool = Tool {
    image: EMPTY,
    words: &["audit"],
    text: b"audit clean, used 0 of 64\n",
    calls: 74,
    spare: 0,
    writes: 66,
    numbers: &[1],
    behind: &[],
};

// Behind those come the 16 blocks of the index, of which none has to be read.
static STATUS: Tool = Tool {
    image: EMPTY,
    words: &["status"],
    text: b"mode clean\nrecovery none\nindex 0 chapters\ncompression refused\nused 0 of 64\nlogical 1000\n",
    calls: 90,
    spare: 16,
    writes: 66,
    numbers: &[1],
    behind: &[],
};

// The device is flushed; the superblock, the journal's 8 blocks, the 60 roots, the leaf, the counters and the 4 blocks of the slab's
// journal are read; the root, the leaf and the counters are read and written; then come a flush, block 0, and a flush.
static RECOVERY: Tool = Tool {
    image: STOPPED,
    words: &["recover"],
    text: b"recovered 2 entries\n",
    calls: 85,
    spare: 0,
    writes: 75,
    numbers: &[0, 1, 7],
    behind: &[
        (&["recover"], &[b"recovered 2 entries\n", b"clean\n"]),
        (&["recover"], &[b"clean\n"]),
        (&["audit"], &[b"audit clean, used 2 of 64\n"]),
    ],
};

const NOISE: &[u8] = &[255; 4096];

// The session wasn't closed, and nothing is left of the counters and of the slab's journal.
const NOISY: Image = Image {
    blocks: 154,
    patches: &[
        UNCLEAN,
        WINDOW,
        LEAF,
        (149, 0, NOISE),
        (150, 0, NOISE),
        (151, 0, NOISE),
        (152, 0, NOISE),
        (153, 0, NOISE),
    ],
};

// The device is flushed; the superblock, the journal's 8 blocks, the 60 roots and the leaf are read; the root and the leaf are read
// and written; the 4 blocks of the slab's journal and its counters are written; then come a flush, block 0, and a flush.
static REBUILD: Tool = Tool {
    image: NOISY,
    words: &["force-rebuild"],
    text: b"rebuilt, used 2 of 64\n",
    calls: 83,
    spare: 0,
    writes: 71,
    numbers: &[0, 1, 7],
    behind: &[
        (&["force-rebuild"], &[b"rebuilt, used 2 of 64\n"]),
        (&["audit"], &[b"audit clean, used 2 of 64\n"]),
    ],
};

const GROW: &[&str] = &["grow", "--logical=2000", "--slabs=2"];

const GROWN: &[u8] = b"grown 223 blocks, 2 slabs of 64, logical 2000\n";

const LARGER: &[u8] = b"audit clean, used 2 of 128\n";

// An image with 6 addresses in its leaf, the last of which is mapped.
const SHORT: Image = Image {
    blocks: 223,
    patches: &[LINK, LEAF, MAPPING, COUNTS, (0, 24, b"\x06\0\0\0")],
};

// The device is flushed; the superblock, the journal's 8 blocks, the 60 roots, the leaf, the counters and the 4 blocks of the slab's
// journal are read, and the leaf again, since it has addresses that are new; then the 5 blocks of the new slab are written, and come
// a flush, block 0, and a flush.
static GROWTH: Tool = Tool {
    image: SHORT,
    words: GROW,
    text: GROWN,
    calls: 85,
    spare: 0,
    writes: 77,
    numbers: &[0, 1, 7],
    behind: &[
        (&["audit"], &[b"audit clean, used 2 of 64\n", LARGER]),
        (GROW, &[GROWN]),
        (&["audit"], &[LARGER]),
    ],
};

// The first of these commands that puts another text or has another status, by its number.
fn first_other<R: Threads + Wait + Sync>(
    rt: &R,
    alloc: Global,
    image: MemDisk,
    behind: &[Puts],
) -> Result<Option<usize>, AllocError> {
    let mut image = image;
    for (k, &(words, texts)) in behind.iter().enumerate() {
        let asked = Run {
            words,
            image: 1,
            ..RUN
        };
        let (left, sink, status, ..) = served(rt, alloc, &image, &asked)?;
        if status != 0 || !texts.iter().any(|&one| sink.bytes() == one) {
            return Ok(Some(k));
        }
        image = left;
    }
    Ok(None)
}

// A command on the image of a tool: how it ended, and which command behind it differs.
fn stop<R: Threads + Wait + Sync>(
    rt: &R,
    alloc: Global,
    tool: &Tool,
    asked: &Run,
) -> Result<(Outcome, Option<usize>), AllocError> {
    let (left, outcome) = outcome_of(rt, alloc, &device_of(alloc, tool.image)?, asked)?;
    Ok((outcome, first_other(rt, alloc, left, tool.behind)?))
}

// A stop behind so many calls, or behind the last one, and each of the images.
fn stops_behind<R: Threads + Wait + Sync + Abort>(
    rt: &R,
    alloc: Global,
    tool: &Tool,
    passes: usize,
) -> Result<(), Fail> {
    let fails = passes.saturating_add(tool.spare) < tool.calls;
    let (text, status, calls) = if fails {
        (b"device fault\n".as_slice(), 3, passes.saturating_add(1))
    } else {
        (tool.text, 0, tool.calls)
    };
    for &number in tool.numbers {
        let asked = Run {
            words: tool.words,
            fuse: Some(passes as u64),
            image: number,
            text,
            status,
            calls: Calls::Count(calls),
            ..RUN
        };
        let stop = stop(rt, alloc, tool, &asked)?;
        assert_eq!(rt;
            (passes, number, stop),
            (passes, number, ((status, None, true, [None; 2]), None))
        );
    }
    Ok(())
}

fn stops<R: Threads + Wait + Sync + Abort>(rt: &R, alloc: Global, tool: &Tool) -> Result<(), Fail> {
    for passes in 0..=tool.calls {
        if passes >= tool.writes || passes % 7 == 0 {
            stops_behind(rt, alloc, tool, passes)?;
        }
    }
    Ok(())
}

#[test]
fn looks_that_fail(rt: HostRuntime) -> Result<(), Fail> {
    stops(&rt, rt.alloc(), &AUDIT)?;
    stops(&rt, rt.alloc(), &STATUS)
}

#[test]
fn a_recovery_that_fails(rt: HostRuntime) -> Result<(), Fail> {
    stops(&rt, rt.alloc(), &RECOVERY)
}

#[test]
fn a_rebuild_that_fails(rt: HostRuntime) -> Result<(), Fail> {
    stops(&rt, rt.alloc(), &REBUILD)
}

#[test]
fn a_growth_that_fails(rt: HostRuntime) -> Result<(), Fail> {
    stops(&rt, rt.alloc(), &GROWTH)
}
