//! A run that is stopped at a call of its device: on an empty image, and on the one that an earlier run left, within its recovery, the
//! opening and its session. The run behind it shows what the answers allow, and each block is counted as often as it is mapped.

use crate::rows::{OPENING, RUN};
use crate::runs::{Run, served};
use blk_base::Geometry;
use disk_model::MemDisk;
use std::alloc::{AllocError, Global};
use std::process::Abort;
use std::sync::Wait;
use std::test::Fail;
use std::thread::Threads;
use test_images::fresh;
/// A script that is stopped.
struct Stopped {
    /// What an earlier run served.
    earlier: &'static [u8],
    script: &'static [u8],
    /// How many calls the whole run makes.
    calls: usize,
    /// What reads of addresses 1 and 2 may give, and how many blocks are used, where so many requests of the script, from the first
    /// on, were answered `ok`: the values that a flush covers, or also that of a write that was begun since.
    shown: &'static [&'static [&'static [u8]]],
}

const NOTHING: &[u8] = b"0 0 read 1 4096*00 z0:0\n0 1 read 2 4096*00 z0:1\nused 0 of 64\n";

const LEAF_ALONE: &[u8] = b"0 0 read 1 4096*00 z0:0\n0 1 read 2 4096*00 z0:1\nused 1 of 64\n";

const EARLIER_ZEROS: &[u8] = b"0 0 read 1 4096*60 z0:0\n0 1 read 2 4096*00 z0:1\nused 2 of 64\n";

const FIRST_ZEROS: &[u8] = b"0 0 read 1 4096*61 z0:0\n0 1 read 2 4096*00 z0:1\nused 2 of 64\n";

const SECOND_ZEROS: &[u8] = b"0 0 read 1 4096*62 z0:0\n0 1 read 2 4096*00 z0:1\nused 2 of 64\n";

const FIRST_EQUAL: &[u8] = b"0 0 read 1 4096*61 z0:0\n0 1 read 2 4096*61 z0:1\nused 3 of 64\n";

const SECOND_EQUAL: &[u8] = b"0 0 read 1 4096*62 z0:0\n0 1 read 2 4096*61 z0:1\nused 3 of 64\n";

const FIRST_THIRD: &[u8] = b"0 0 read 1 4096*61 z0:0\n0 1 read 2 4096*63 z0:1\nused 3 of 64\n";

const SECOND_THIRD: &[u8] = b"0 0 read 1 4096*62 z0:0\n0 1 read 2 4096*63 z0:1\nused 3 of 64\n";

/// The calls of its session are two for the superblock, four for the leaf and for each of the three writes, one for each read of the
/// leaf, which the first and the third write make, and one for each of the two flushes.
static ON_AN_EMPTY_IMAGE: Stopped = Stopped {
    earlier: b"",
    script: b"0 write 1 4096*61\n0 flush\n0 write 1 4096*62\n0 write 2 4096*63\n0 flush\n",
    calls: OPENING + 22,
    shown: &[
        &[NOTHING, LEAF_ALONE, FIRST_ZEROS],
        &[LEAF_ALONE, FIRST_ZEROS],
        &[FIRST_ZEROS, SECOND_ZEROS],
        &[FIRST_ZEROS, SECOND_ZEROS, FIRST_THIRD, SECOND_THIRD],
        &[FIRST_ZEROS, SECOND_ZEROS, FIRST_THIRD, SECOND_THIRD],
        &[SECOND_THIRD],
    ],
};

/// The calls up to the end of a recovery of the two entries of the earlier run: the device is flushed; the superblock, the journal's
/// 8 blocks, the 60 roots, the leaf, the reference block and the 4 blocks of the slab's journal are read; the root, the leaf and the
/// reference block are read and written; then come a flush, block 0, and a flush.
const RECOVERY: usize = 85;

/// The calls up to the session's first one: all that is read above is read again.
const OPENED: usize = RECOVERY + 1 + 8 + 60 + 1 + 1 + 4;

/// The calls of the session are two for the superblock, four for each of the three writes, one for each of the two flushes, one for
/// each read of the leaf, which the first two writes make, and one for the read at the end.
static BEHIND_AN_EARLIER_RUN: Stopped = Stopped {
    earlier: b"0 write 1 4096*60\n0 flush\n",
    script: b"0 write 1 4096*61\n0 flush\n0 write 2 4096*61\n0 flush\n0 write 1 4096*62\n0 read 2\n",
    calls: OPENED + 19,
    shown: &[
        &[EARLIER_ZEROS, FIRST_ZEROS],
        &[EARLIER_ZEROS, FIRST_ZEROS],
        &[FIRST_ZEROS, FIRST_EQUAL],
        &[FIRST_ZEROS, FIRST_EQUAL],
        &[FIRST_EQUAL, SECOND_EQUAL],
        &[FIRST_EQUAL, SECOND_EQUAL],
    ],
};

// How many requests were answered `ok`.
fn answered_ok(text: &[u8]) -> usize {
    let mut answered: usize = 0;
    for at in 0..text.len() {
        if text[at..].starts_with(b" ok") {
            answered = answered.saturating_add(1);
        }
    }
    answered
}

// Whether the answers of the run behind a stop, which come behind how many entries were recovered, are allowed.
fn may_show(shown: &[&[&[u8]]], answered: usize, text: &[u8]) -> bool {
    let is_recovered = text.starts_with(b"recovered ");
    match shown.get(answered) {
        Some(allowed) => allowed
            .iter()
            .any(|&one| text == one || is_recovered && text.ends_with(one)),
        None => false,
    }
}

static READS: Run = Run {
    script: b"0 read 1\n0 read 2\n",
    ..RUN
};

static AUDIT: Run = Run {
    words: &["audit"],
    ..RUN
};

// Whether the run behind a stop shows what may be, and each block is counted then as often as it is mapped.
fn shows<R: Threads + Wait + Sync>(
    rt: &R,
    alloc: Global,
    image: &MemDisk,
    stopped: &Stopped,
    answered: usize,
) -> Result<(bool, bool), AllocError> {
    let (left, sink, status, ..) = served(rt, alloc, image, &READS)?;
    let shows = status == 0 && may_show(stopped.shown, answered, sink.bytes());
    let (_, sink, status, ..) = served(rt, alloc, &left, &AUDIT)?;
    let is_counted = status == 0 && sink.bytes().starts_with(b"audit clean");
    Ok((shows, is_counted))
}

// What a run leaves, its status, and how many requests it answered `ok`.
fn answered_by<R: Threads + Wait + Sync>(
    rt: &R,
    alloc: Global,
    left: &MemDisk,
    asked: &Run,
) -> Result<(MemDisk, u8, usize), AllocError> {
    let (image, sink, status, ..) = served(rt, alloc, left, asked)?;
    Ok((image, status, answered_ok(sink.bytes())))
}

/// A stop that was tried: the status of the run that was stopped; the run behind it showed what may be, and each block is
/// counted as often as it is mapped.
type Tried = (u8, (bool, bool));

// The script on an image, of whose calls those behind so many fail; and then the image of this number.
fn tried<R: Threads + Wait + Sync>(
    rt: &R,
    alloc: Global,
    left: &MemDisk,
    stopped: &Stopped,
    (passes, number): (usize, u64),
) -> Result<Tried, AllocError> {
    let stop = Run {
        script: stopped.script,
        fuse: Some(passes as u64),
        image: number,
        ..RUN
    };
    let (image, status, answered) = answered_by(rt, alloc, left, &stop)?;
    Ok((status, shows(rt, alloc, &image, stopped, answered)?))
}

// So many stops on an image, behind these numbers of calls: from the first on, each the same step behind the one before. Of each there is the image
// of all that was flushed, that of all that was written, and two in which sectors of the last write are new or old.
fn stops_on<R: Threads + Wait + Sync + Abort>(
    rt: &R,
    alloc: Global,
    left: &MemDisk,
    stopped: &Stopped,
    (first, step, count): (usize, usize, usize),
) -> Result<(), Fail> {
    for k in 0..count {
        let passes = first.saturating_add(step.saturating_mul(k));
        let status = if passes < stopped.calls { 3 } else { 0 };
        for number in [0, 1, 7, 12_345] {
            let tried = tried(rt, alloc, left, stopped, (passes, number))?;
            assert_eq!(rt;
                (passes, number, tried),
                (passes, number, (status, (true, true)))
            );
        }
    }
    Ok(())
}

fn stops<R: Threads + Wait + Sync + Abort>(
    rt: &R,
    alloc: Global,
    stopped: &Stopped,
    row: (usize, usize, usize),
) -> Result<(), Fail> {
    let earlier = Run {
        script: stopped.earlier,
        ..RUN
    };
    let empty = fresh(alloc, &Geometry::DEFAULT)?;
    let (left, ..) = answered_by(rt, alloc, &empty, &earlier)?;
    stops_on(rt, alloc, &left, stopped, row)
}

#[test]
fn stops_up_to_the_first_flush(rt: HostRuntime) -> Result<(), Fail> {
    stops(&rt, rt.alloc(), &ON_AN_EMPTY_IMAGE, (OPENING, 1, 12))
}

#[test]
fn stops_behind_the_first_flush(rt: HostRuntime) -> Result<(), Fail> {
    stops(&rt, rt.alloc(), &ON_AN_EMPTY_IMAGE, (OPENING + 12, 1, 11))
}

// A stop between two reads leaves what one before them leaves: every seventh is tried.
#[test]
fn stops_before_a_recovery_writes(rt: HostRuntime) -> Result<(), Fail> {
    stops(&rt, rt.alloc(), &BEHIND_AN_EARLIER_RUN, (0, 7, 11))
}

#[test]
fn stops_while_a_recovery_writes(rt: HostRuntime) -> Result<(), Fail> {
    stops(
        &rt,
        rt.alloc(),
        &BEHIND_AN_EARLIER_RUN,
        (RECOVERY - 9, 1, 10),
    )
}

#[test]
fn stops_within_an_opening(rt: HostRuntime) -> Result<(), Fail> {
    stops(
        &rt,
        rt.alloc(),
        &BEHIND_AN_EARLIER_RUN,
        (RECOVERY + 7, 7, 10),
    )
}

#[test]
fn stops_up_to_the_second_data(rt: HostRuntime) -> Result<(), Fail> {
    stops(&rt, rt.alloc(), &BEHIND_AN_EARLIER_RUN, (OPENED, 1, 10))
}

#[test]
fn stops_up_to_the_end(rt: HostRuntime) -> Result<(), Fail> {
    stops(
        &rt,
        rt.alloc(),
        &BEHIND_AN_EARLIER_RUN,
        (OPENED + 10, 1, 10),
    )
}
