ghost use Rattle.std.specs.Prelude.{◌≤◌, ◌<◌, ◌^◌, IfOk};
ghost use Rattle.blk_base.specs.Limits.{IsGeometry};
ghost use Rattle.blk_base.specs.Regions.{needed_blocks};
ghost use Rattle.disk_model.specs.Fuses.{HasNotCut};
ghost use Rattle.disk_model.specs.Memory.{seen_of};

use crate::images::blocks_of;
use crate::rows::{ROWS, Row};
use audit::audit;
use blk_base::{Block, Pbn, Super};
use disk_model::{Call, MemDisk};
use force_rebuild::force;
use image_model::ImageFault;
use image_opening::read_head;
use rebuild::{Recovered, recover};
use replay_counts::counts;
use replay_map::{Link, RecoveredMap, replay};
use std::alloc::{AllocError, Global};
use std::process::Abort;
use std::test::Fail;

/// What an image says: its links, the blocks of its addresses, and its stored counts, none where they can't be read.
#[derive(Drop)]
pub(crate) struct Said {
    links: Vec<Link>,
    mapped: Vec<Pbn>,
    counts: Vec<u16>,
}

/// What the image on a device says; nothing where it can't be read.
pub(crate) fn read_image(alloc: Global, device: &mut MemDisk) -> Option<Said> {
    let Ok(head) = read_head(device) else {
        return None;
    };
    read_with(alloc, &head, device)
}

// The same from the superblock on.
fn read_with(alloc: Global, head: &Super, device: &mut MemDisk) -> Option<Said>
    requires sizes { IsGeometry head.now.geometry }
    requires some { 1 ≤ head.now.start }
    requires below { head.now.start < 2 ^ 54 }
    requires room { needed_blocks head.now.geometry ≤ (seen_of device.old).size }
{
    let Ok(map) = replay(alloc, head, device) else {
        return None;
    };
    Some(made_of(map, counted(alloc, head, device)))
}

// The stored counts, none where they can't be read.
fn counted(alloc: Global, head: &Super, device: &mut MemDisk) -> Vec<u16>
    requires sizes { IsGeometry head.now.geometry }
    requires some { 1 ≤ head.now.start }
    requires below { head.now.start < 2 ^ 54 }
    requires room { needed_blocks head.now.geometry ≤ (seen_of device.old).size }
{
    match counts(alloc, head, device) {
        Ok(found) => found.counts,
        Err(_) => Vec::new(alloc),
    }
}

fn made_of(map: RecoveredMap, counts: Vec<u16>) -> Said {
    Said {
        links: map.links,
        mapped: map.mapped,
        counts,
    }
}

// Whether an image says the same as before; of one that is rebuilt the stored counts aren't asked.
fn is_same(one: &Option<Said>, other: &Option<Said>, forced: bool) -> bool {
    match (one, other) {
        (Some(one), Some(other)) => {
            one.links.as_slice() == other.links.as_slice()
                && one.mapped.as_slice() == other.mapped.as_slice()
                && (forced
                    || (!one.counts.is_empty() && one.counts.as_slice() == other.counts.as_slice()))
        }
        _ => false,
    }
}

/// A device with the image of this row, on which nothing is pending. Where it is to be rebuilt, with noise in its counters and
/// its slab's journal, which are its last three blocks.
pub(crate) fn device_of(alloc: Global, row: &Row, forced: bool) -> Result<MemDisk, AllocError>
    ensures { IfOk result (λ device. HasNotCut device.fuse) }
{
    let mut blocks = blocks_of(alloc, &row.image)?;
    if forced {
        put_noise(&mut blocks);
    }
    MemDisk::from_blocks(alloc, blocks)
}

// Puts noise into the last three blocks.
fn put_noise(blocks: &mut [Block]) {
    let first = blocks.len().saturating_sub(3);
    for block in &mut blocks[first..] {
        block.bytes = [255; 4096];
    }
}

/// How many entries an image is recovered by, none where it is closed; or how many data blocks are used after a forced
/// rebuild, and how many there are.
pub(crate) type Mended = Result<(Option<u32>, u32), ImageFault>;

fn mend(alloc: Global, forced: bool, device: &mut MemDisk) -> Mended {
    if forced {
        match force(alloc, device) {
            Ok(forced) => Ok((Some(forced.used), forced.total)),
            Err(fault) => Err(fault),
        }
    } else {
        match recover(alloc, device) {
            Ok(Recovered::Clean) => Ok((None, 0)),
            Ok(Recovered::Entries(count)) => Ok((Some(count), 0)),
            Err(fault) => Err(fault),
        }
    }
}

/// What a recovery or a forced rebuild gives: its answer, whether the image says the same, how many blocks are used and
/// differ, the superblock, and what is answered when it is done again.
pub(crate) type Outcome = (
    Mended,
    bool,
    Option<(u32, usize)>,
    Result<Super, ImageFault>,
    Mended,
);

/// What that gives of a device, where the image said this before.
pub(crate) fn mend_twice(
    alloc: Global,
    forced: bool,
    before: &Option<Said>,
    device: &mut MemDisk,
) -> Outcome {
    let answer = mend(alloc, forced, device);
    let now = read_image(alloc, device);
    let same = is_same(before, &now, forced);
    let audited = match audit(alloc, device) {
        Ok(report) => Some((report.used, report.differs.len())),
        Err(_) => None,
    };
    let head = read_head(device);
    (answer, same, audited, head, mend(alloc, forced, device))
}

// What it is to give; after a stop also where the first one had come to its end: then a recovery finds the image closed, and
// the next session begins one later behind a rebuild.
fn wanted(row: &Row, forced: bool, ended: bool) -> Outcome {
    let next = row.next.saturating_add(u64::from(forced && ended));
    let head = Ok(Super {
        geometry: row.image.geometry,
        clean: true,
        start: next,
    });
    if forced {
        let answer = Ok((Some(row.mapped), row.image.geometry.slab_blocks));
        (answer, true, Some((row.mapped, 0)), head, answer)
    } else {
        let entries = if ended { None } else { Some(row.entries) };
        let audited = Some((row.used, row.differ));
        (Ok((entries, 0)), true, audited, head, Ok((None, 0)))
    }
}

/// Whether that is right after a stop.
pub(crate) fn is_right(row: &Row, forced: bool, found: Outcome) -> bool {
    found == wanted(row, forced, false) || found == wanted(row, forced, true)
}

// The first image of which something else is made, with that.
fn other_outcome(alloc: Global, forced: bool) -> Result<Option<(usize, Outcome)>, AllocError> {
    for (i, row) in ROWS.iter().enumerate() {
        let mut image = device_of(alloc, row, forced)?;
        let before = read_image(alloc, &mut image);
        let found = mend_twice(alloc, forced, &before, &mut image);
        if found != wanted(row, forced, false) {
            return Ok(Some((i, found)));
        }
    }
    Ok(None)
}

#[test]
fn images_are_recovered_and_rebuilt(rt: HostRuntime) -> Result<(), Fail> {
    let other = [
        other_outcome(rt.alloc(), false)?,
        other_outcome(rt.alloc(), true)?,
    ];
    assert_eq!(rt; other, [None; 2]);
    Ok(())
}

/// How many calls are made, how many of them read before the first that doesn't, how many write, and whether the last are a
/// flush, block 0, and a flush.
pub(crate) type Calls = (usize, usize, usize, bool);

pub(crate) fn calls_made(alloc: Global, row: &Row, forced: bool) -> Result<Calls, AllocError> {
    let mut image = device_of(alloc, row, forced)?;
    let _ = mend(alloc, forced, &mut image);
    let made = image.calls();
    let mut reads = 0_usize;
    let mut others = 0_usize;
    let mut writes = 0_usize;
    for call in made {
        match call {
            Call::Read { .. } if others == 0 => reads = reads.saturating_add(1),
            Call::Read { .. } => {}
            Call::Write { .. } => {
                others = 1;
                writes = writes.saturating_add(1);
            }
            Call::Flush { .. } => others = 1,
        }
    }
    let closes = match made {
        [
            ..,
            Call::Flush { ok: true },
            Call::Write { at, .. },
            Call::Flush { ok: true },
        ] => at.0 == 0,
        _ => false,
    };
    Ok((made.len(), reads, writes, closes))
}

/// The image of which a rebuild is stopped: it has three levels of pages.
const STOPPED: usize = 5;

// Images, whether they are rebuilt, and the calls: of the superblock, the journal's 8 blocks, the 60 roots, the links, the
// reference block and the slab's journal one read each; of each block that is written again a read and a write; and three at
// the end. A rebuild reads no counts, and writes the slab's journal and its counters.
static CALLS: [(usize, bool, usize, usize, usize); 6] = [
    (0, false, 75, 72, 1),
    (1, false, 82, 74, 4),
    (2, false, 80, 74, 3),
    (4, false, 78, 74, 2),
    (5, false, 85, 75, 5),
    (STOPPED, true, 83, 72, 7),
];

// The first of them that makes other calls, with these.
fn other_calls(alloc: Global) -> Result<Option<(usize, Calls)>, AllocError> {
    for (i, forced, all, reads, writes) in CALLS {
        let Some(row) = ROWS.get(i) else {
            continue;
        };
        let found = calls_made(alloc, row, forced)?;
        if found != (all, reads, writes, true) {
            return Ok(Some((i, found)));
        }
    }
    Ok(None)
}

#[test]
fn calls_are_few(rt: HostRuntime) -> Result<(), Fail> {
    assert_eq!(rt; other_calls(rt.alloc())?, None);
    Ok(())
}

// A stop: how many calls went on, and the number of the image that it leaves.
type Stop = (u64, u64);

// What the stop leaves, and whether the first time had come to its end.
fn left_by(
    alloc: Global,
    row: &Row,
    forced: bool,
    (passes, number): Stop,
) -> Result<(bool, MemDisk), AllocError> {
    let mut image = device_of(alloc, row, forced)?;
    image.set_fuse(passes);
    let ended = mend(alloc, forced, &mut image).is_ok();
    let left = image.pick_image(alloc, number)?;
    Ok((ended, left))
}

// What is left by the stop, mended again; and whether the first time had come to its end.
fn stopped(
    alloc: Global,
    row: &Row,
    forced: bool,
    before: &Option<Said>,
    stop: Stop,
) -> Result<(bool, Outcome), AllocError> {
    let (ended, mut left) = left_by(alloc, row, forced, stop)?;
    let found = mend_twice(alloc, forced, before, &mut left);
    Ok((ended, found))
}

// The first stop that leaves something else, from this call on.
fn other_stop(
    alloc: Global,
    row: &Row,
    forced: bool,
    first: u64,
    numbers: &[u64],
) -> Result<Option<(Stop, Outcome)>, AllocError> {
    let mut image = device_of(alloc, row, forced)?;
    let before = read_image(alloc, &mut image);
    let all = calls_made(alloc, row, forced)?.0 as u64;
    for passes in first..all.min(200) + 1 {
        for &number in numbers {
            let stop = (passes, number);
            let (ended, found) = stopped(alloc, row, forced, &before, stop)?;
            if ended != (passes == all) || !is_right(row, forced, found) {
                return Ok(Some((stop, found)));
            }
        }
    }
    Ok(None)
}

// The first image of which a stop of its recovery leaves something else. Number 0 is what was certain, 1 all that was written
// since, 7 a mix of both, sector by sector.
fn other_image(alloc: Global, number: u64) -> Result<Option<(usize, Stop, Outcome)>, AllocError> {
    for (i, row) in ROWS.iter().enumerate() {
        if let Some((stop, found)) = other_stop(alloc, row, false, 0, &[number])? {
            return Ok(Some((i, stop, found)));
        }
    }
    Ok(None)
}

#[test]
fn what_was_certain_is_recovered(rt: HostRuntime) -> Result<(), Fail> {
    all_are_recovered(&rt, rt.alloc(), 0)
}

#[test]
fn what_was_written_is_recovered(rt: HostRuntime) -> Result<(), Fail> {
    all_are_recovered(&rt, rt.alloc(), 1)
}

#[test]
fn what_was_torn_is_recovered(rt: HostRuntime) -> Result<(), Fail> {
    all_are_recovered(&rt, rt.alloc(), 7)
}

fn all_are_recovered<R: Abort>(rt: &R, alloc: Global, number: u64) -> Result<(), Fail> {
    assert_eq!(rt; other_image(alloc, number)?, None);
    Ok(())
}

// From the first call on that isn't a read: a stop before leaves the image as it was, which is rebuilt above.
#[test]
fn what_is_left_is_rebuilt(rt: HostRuntime) -> Result<(), Fail> {
    assert_eq!(rt;
        other_stop(rt.alloc(), &ROWS[STOPPED], true, 72, &[0, 1, 7])?,
        None
    );
    Ok(())
}
