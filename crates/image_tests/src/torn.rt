ghost use Rattle.std.specs.Prelude.{◌<◌};

use crate::rows::{ROWS, Row};
use crate::stops::{Outcome, Said, calls_made, device_of, is_right, mend_twice, read_image};
use blk_base::Block;
use disk_model::{Call, Disk, MemDisk};
use rebuild::recover;
use std::alloc::{AllocError, Global};
use std::test::Fail;

/// A recovery writes in its last calls.
const LAST: u64 = 14;

/// Of a block that is being written one sector is new and the others are old, or the other way round.
const PARTS: u32 = 16;

/// Puts a sector of another block into a block.
pub(crate) fn put_sector(into: &mut Block, from: &Block, sector: usize)
    requires { sector < 8 }
{
    let start = 512 * sector;
    into.bytes[start..start + 512].copy_from_slice(&from.bytes[start..start + 512]);
}

// Puts the new sectors of a part into a block.
fn put_part(into: &mut Block, new: &Block, part: u32) {
    for sector in 0..8_usize {
        let is_named = (part % 8) as usize == sector;
        if is_named == (part < 8) {
            put_sector(into, new, sector);
        }
    }
}

// What a stop within the last call leaves, if it is a write: this part of its block, and of the blocks that were written
// since the last flush all or none.
fn torn(alloc: Global, image: &MemDisk, part: u32) -> Result<Option<MemDisk>, AllocError> {
    let Some(Call::Write { at, bytes, .. }) = image.calls().last() else {
        return Ok(None);
    };
    let mut certain = image.pick_image(alloc, 0)?;
    let mut left = image.pick_image(alloc, u64::from(part / 8))?;
    if certain.blocks() <= at.0 || left.blocks() <= at.0 {
        return Ok(None);
    }
    let mut block = Block::zero();
    if certain.read(*at, &mut block).is_err() {
        return Ok(None);
    }
    put_part(&mut block, bytes, part);
    if left.write(*at, &block).is_err() || left.flush().is_err() {
        return Ok(None);
    }
    Ok(Some(left))
}

// What a recovery makes of it, where so many calls of the first one passed.
fn recovered_from(
    alloc: Global,
    row: &Row,
    before: &Option<Said>,
    passes: u64,
    part: u32,
) -> Result<Option<Outcome>, AllocError> {
    let mut image = device_of(alloc, row, false)?;
    image.set_fuse(passes);
    let _ = recover(alloc, &mut image);
    match torn(alloc, &image, part)? {
        Some(mut left) => Ok(Some(mend_twice(alloc, false, before, &mut left))),
        None => Ok(None),
    }
}

// How many parts of the writes of a row's recovery are recovered again as they are to be, and the first that isn't.
fn right_parts(
    alloc: Global,
    row: &Row,
    all: u64,
) -> Result<(usize, Option<(u64, u32, Outcome)>), AllocError> {
    let mut image = device_of(alloc, row, false)?;
    let before = read_image(alloc, &mut image);
    let mut right = 0_usize;
    for passes in all.saturating_sub(LAST)..all {
        for part in 0..PARTS {
            if let Some(found) = recovered_from(alloc, row, &before, passes, part)? {
                if !is_right(row, false, found) {
                    return Ok((right, Some((passes, part, found))));
                }
                right = right.wrapping_add(1);
            }
        }
    }
    Ok((right, None))
}

// A stop within each write of a recovery leaves each sector of the block old or new: it is recovered again, to the same.
#[test]
fn each_part_of_each_write(rt: HostRuntime) -> Result<(), Fail> {
    for (i, row) in ROWS.iter().enumerate() {
        let (all, _, writes, _) = calls_made(rt.alloc(), row, false)?;
        let found = right_parts(rt.alloc(), row, all as u64)?;
        assert_eq!(rt;
            (i, found),
            (i, (writes.wrapping_mul(PARTS as usize), None))
        );
    }
    Ok(())
}
