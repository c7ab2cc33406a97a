//! What runs use up: the blocks of one of two zones, and those of a journal; and the receipts of those who find none.

use crate::asks::Script;
use crate::judging::{Counts, judge};
use crate::plans::{FILLED, Plan, WIDE};
use crate::sessions::{Image, Unplayed, device_of, driven};
use blk_base::{Geometry, Layout, Pbn};
use disk_model::{Call, MemDisk};
use journal_codec::block_prefix;
use std::alloc::Global;
use std::sync::Wait;
use std::test::Fail;
use vdo_core::Setup;
use vdo_model::RunReport;

static FILLED_ONE: Plan = FILLED;

static WIDE_ONE: Plan = WIDE;

/// The receipts of the first requests that found no block, the oldest first: the number of each in its stream, and its step.
type Receipts = [Option<(u32, u64)>; 4];

// The first receipts of a report.
fn receipts_of(report: &RunReport) -> Receipts {
    let mut found = [None; 4];
    for (place, receipt) in report.receipts.as_slice().iter().enumerate() {
        if place < 4 {
            found[place] = Some((receipt.request.number, receipt.step));
        }
    }
    found
}

// The receipts where no block is free, with one physical zone.
fn receipts_by<R: Wait>(rt: &R, alloc: Global, number: u64) -> Result<Receipts, Unplayed> {
    let plan = &FILLED_ONE;
    let mut device = device_of(alloc, &plan.image, None, u64::MAX)?;
    let report = driven(rt, alloc, &plan.setup, &plan.script, number, &mut device)?;
    Ok(receipts_of(&report))
}

// Each of the three writes that find no block asks in one step of the zone, and takes its ticket back in the next one.
#[test]
fn the_receipts_of_writes_that_find_none(rt: HostRuntime) -> Result<(), Fail> {
    let found = [
        receipts_by(&rt, rt.alloc(), 0)?,
        receipts_by(&rt, rt.alloc(), 1)?,
        receipts_by(&rt, rt.alloc(), 2)?,
        receipts_by(&rt, rt.alloc(), 3)?,
    ];
    let want = [Some((15, 0)), Some((16, 2)), Some((20, 4)), None];
    assert_eq!(rt; found, [want; 4]);
    Ok(())
}

/// An image of two slabs.
static TWO: Image = Image {
    slabs: 2,
    ..Image::SMALL
};

/// How many data blocks are used, how many of the second slab were written, and what was given.
type Filled = (u32, u32, Counts);

// Whether a block is a data block of the second slab.
fn is_in_second(at: Pbn) -> bool {
    match Layout::of(&TWO.geometry()).place(at) {
        Some(place) => place.slab == 1,
        None => false,
    }
}

// How many data blocks of the second slab are written.
fn stored(calls: &[Call]) -> u32 {
    let mut stored = 0_u32;
    for call in calls {
        if let Call::Write { at, .. } = call
            && is_in_second(*at)
        {
            stored = stored.wrapping_add(1);
        }
    }
    stored
}

// What a session with two physical zones comes to.
fn filled_by<R: Wait>(
    rt: &R,
    alloc: Global,
    (script, depth): (&Script, u32),
    number: u64,
    device: &mut MemDisk,
) -> Result<Filled, Unplayed> {
    let setup = Setup {
        logical_zones: 1,
        physical_zones: 2,
        depth,
    };
    let report = driven(rt, alloc, &setup, script, number, device)?;
    let mut counts = [0; 10];
    judge(&report, &mut counts);
    Ok((report.used, stored(device.calls()), counts))
}

// What comes of writes that fill one of two zones, and of sixteen more in another session.
fn fill<R: Wait>(rt: &R, alloc: Global, number: u64) -> Result<[Filled; 2], Unplayed> {
    let mut device = device_of(alloc, &TWO, None, u64::MAX)?;
    let first = filled_by(rt, alloc, (&Script::FillingOne, 1), number, &mut device)?;
    let then = filled_by(rt, alloc, (&Script::Sixteen, 2), number, &mut device)?;
    Ok([first, then])
}

// The first zone is full before the sixteen writes begin, of which half ask there first: each gets one of the sixteen blocks of
// the second.
#[test]
fn a_full_zone_beside_another(rt: HostRuntime) -> Result<(), Fail> {
    let found = [
        fill(&rt, rt.alloc(), 0)?,
        fill(&rt, rt.alloc(), 1)?,
        fill(&rt, rt.alloc(), 2)?,
        fill(&rt, rt.alloc(), 3)?,
    ];
    let want = [
        (16, 0, [15, 15, 0, 0, 0, 0, 0, 0, 0, 0]),
        (32, 16, [0, 16, 0, 0, 0, 0, 0, 0, 0, 0]),
    ];
    assert_eq!(rt; found, [want; 4]);
    Ok(())
}

/// How many blocks of a journal of 8 blocks are written, how many of them have more than two entries, and how many calls are made.
type Written = (u32, u32, usize);

// How many blocks of the journal are written, and how many of them have several entries.
fn journal_blocks(calls: &[Call]) -> (u32, u32) {
    let (mut written, mut several) = (0_u32, 0_u32);
    for call in calls {
        if let Call::Write { at, bytes, .. } = call
            && at.0 <= 8
            && let Some(prefix) = block_prefix(bytes, Geometry::DEFAULT.nonce)
        {
            written = written.wrapping_add(1);
            several = several.wrapping_add(u32::from(prefix.entries.len() > 2));
        }
    }
    (written, several)
}

// What a run writes of its journal.
fn written_by<R: Wait>(rt: &R, alloc: Global, number: u64) -> Result<Written, Unplayed> {
    let plan = &WIDE_ONE;
    let mut device = device_of(alloc, &plan.image, None, u64::MAX)?;
    let _report = driven(rt, alloc, &plan.setup, &plan.script, number, &mut device)?;
    let (written, several) = journal_blocks(device.calls());
    Ok((written, several, device.calls().len()))
}

// Of three hundred writes more are served than the ring has blocks, as some blocks have several entries. The first ones have few:
// each of the two leaves takes one, and no write has its leaf before. How many the others have is the schedule's: so the runs
// aren't alike.
#[test]
fn journal_blocks_have_several_entries(rt: HostRuntime) -> Result<(), Fail> {
    let (mut written, mut several, mut unlike) = (0_u32, 0_u32, 0_u32);
    let (_, _, first) = written_by(&rt, rt.alloc(), 0)?;
    for number in 0..4 {
        let (blocks, of_several, calls) = written_by(&rt, rt.alloc(), number)?;
        written = written.wrapping_add(blocks);
        several = several.wrapping_add(of_several);
        unlike = unlike.wrapping_add(u32::from(calls != first));
    }
    assert_eq!(rt; (written, several > 3, unlike > 1), (28, true, true));
    Ok(())
}
