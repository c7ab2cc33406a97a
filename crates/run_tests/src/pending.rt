//! A run behind another one on the same device, on which a flush of the first one failed: what that wrote since the last good one
//! is pending when the second one begins. That reads it, and whatever a stop behind it leaves shows what it read.

use crate::rows::RUN;
use crate::runs::{Run, outside_of, served};
use blk_base::{Geometry, Pbn};
use disk_model::{BentDisk, CallKind, FaultAt, MemDisk, OpenGate};
use std::alloc::{AllocError, Global};
use std::process::Abort;
use std::sync::Wait;
use std::test::Fail;
use std::thread::Threads;
use test_images::fresh;
use vdo_cli::run;

static FIRST: Run = Run {
    script: b"0 write 1 4096*61\n0 flush\n0 write 1 4096*62\n0 write 2 4096*63\n0 flush\n",
    ..RUN
};

static READS: Run = Run {
    script: b"0 read 1\n0 read 2\n",
    ..RUN
};

static AUDIT: Run = Run {
    words: &["audit"],
    ..RUN
};

/// The flushes of the first run: its own first one, one behind the superblock, two for the block of each of four entries, and one
/// for each flush of the script.
const FLUSHES: u32 = 1 + 1 + 2 * 4 + 2;

// A device with an empty image, of which the flush of this number fails.
fn failing(alloc: Global, nth: u32) -> Result<BentDisk, AllocError> {
    let mut faults = Vec::new(alloc);
    faults.push(FaultAt {
        kind: CallKind::Flush,
        at: Pbn(0),
        nth,
        effect: false,
    })?;
    let mut device = fresh(alloc, &Geometry::DEFAULT)?;
    device.set_faults(faults);
    Ok(BentDisk::over(device, Vec::new(alloc)))
}

// A run on a device that goes on: the device behind it, its status, and its text.
fn goes_on<R: Threads + Wait + Sync>(
    rt: &R,
    alloc: Global,
    device: BentDisk,
    asked: &Run,
) -> Result<(BentDisk, u8, Vec<u8>), AllocError> {
    let (words, mut source, mut sink) = outside_of(alloc, asked)?;
    let ended = run(rt, &words, device, &mut source, &mut sink, &OpenGate);
    let text = sink.bytes().to_vec(alloc)?;
    Ok((ended.device, ended.status, text))
}

// Whether an image shows what was read, which comes behind how many entries were recovered, and each block is counted as often as
// it is mapped.
fn shows<R: Threads + Wait + Sync>(
    rt: &R,
    alloc: Global,
    image: &MemDisk,
    text: &[u8],
) -> Result<(bool, bool), AllocError> {
    let (left, sink, status, ..) = served(rt, alloc, image, &READS)?;
    let shows = status == 0 && answers(sink.bytes()) == answers(text);
    let (_, sink, status, ..) = served(rt, alloc, &left, &AUDIT)?;
    Ok((
        shows,
        status == 0 && sink.bytes().starts_with(b"audit clean"),
    ))
}

// The answers of a text, behind the line that says how many entries were recovered.
fn answers(text: &[u8]) -> &[u8] {
    if !text.starts_with(b"recovered") {
        return text;
    }
    match text.iter().position(|byte| *byte == b'\n') {
        Some(end) => &text[end.saturating_add(1)..],
        None => text,
    }
}

// Both runs, and then the image of this number: the status of the second run, and what the image shows.
fn tried<R: Threads + Wait + Sync>(
    rt: &R,
    alloc: Global,
    nth: u32,
    number: u64,
) -> Result<(u8, u8, (bool, bool)), AllocError> {
    let (device, first, _) = goes_on(rt, alloc, failing(alloc, nth)?, &FIRST)?;
    let (device, second, text) = goes_on(rt, alloc, device, &READS)?;
    let image = device.inner().pick_image(alloc, number)?;
    Ok((first, second, shows(rt, alloc, &image, &text)?))
}

#[test]
fn each_flush_of_a_run_fails(rt: HostRuntime) -> Result<(), Fail> {
    tries(&rt, rt.alloc())
}

fn tries<R: Threads + Wait + Sync + Abort>(rt: &R, alloc: Global) -> Result<(), Fail> {
    for nth in 0..FLUSHES {
        for number in [0, 1, 7] {
            let tried = tried(rt, alloc, nth, number)?;
            assert_eq!(rt; (nth, number, tried), (nth, number, (3, 0, (true, true))));
        }
    }
    Ok(())
}
