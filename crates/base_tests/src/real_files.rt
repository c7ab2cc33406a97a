use crate::file_reads::reads;
use blk_base::{Block, Pbn};
use disk_model::Disk;
use file_disk::{Access, open_disk};
use std::fs::{File, OpenFile};
use std::test::Fail;

// A block of which each byte has another value than its neighbours, and which no other number gives.
fn block_of(number: u8) -> Block {
    let mut block = Block::zero();
    for i in 0..4096_usize {
        block.bytes[i] = ((i % 256) as u8).wrapping_mul(7).wrapping_add(number);
    }
    block
}

// Each test has a file of its own.
const PATH: &str = "image";

const HELD: &str = "held";

const LOOKED_AT: &str = "looked_at";

// What is found in a file: whether blocks read as they are to, how many blocks its device has and how many calls failed, and
// how many bytes the file has then.
type Found = ([bool; 4], (u32, u64), u64);

// A file that wasn't there gets its blocks 2 and 0, and reads as zeros behind its end.
fn write_some(rt: &HostRuntime) -> Option<Found> {
    let mut disk = open_disk(rt, PATH, 4, Access::Change).ok()?;
    let behind = reads(&mut disk, 3, &Block::zero());
    let done = [
        disk.write(Pbn(2), &block_of(2)).is_ok(),
        disk.write(Pbn(0), &block_of(1)).is_ok(),
        disk.flush().is_ok(),
    ];
    let told = (disk.blocks(), disk.faults());
    let length = OpenFile::metadata(&disk.into_file().into_file())
        .ok()?
        .len();
    Some(([behind, done[0], done[1], done[2]], told, length))
}

// Opened again it has these blocks, zeros between them, and grows to its last block.
fn find_them(rt: &HostRuntime) -> Option<Found> {
    let mut disk = open_disk(rt, PATH, 4, Access::Change).ok()?;
    let found = [
        reads(&mut disk, 0, &block_of(1)),
        reads(&mut disk, 1, &Block::zero()),
        reads(&mut disk, 2, &block_of(2)),
        reads(&mut disk, 3, &Block::zero()),
    ];
    let done = [
        disk.write(Pbn(3), &block_of(3)).is_ok(),
        disk.flush().is_ok(),
    ];
    let told = (disk.blocks(), disk.faults());
    let length = OpenFile::metadata(&disk.into_file().into_file())
        .ok()?
        .len();
    if done == [true; 2] {
        Some((found, told, length))
    } else {
        None
    }
}

#[test]
fn a_file_keeps_its_blocks(rt: HostRuntime) -> Result<(), Fail> {
    let found = [write_some(&rt), find_them(&rt)];
    let wanted = [
        Some(([true; 4], (4, 0), 3 * 4096)),
        Some(([true; 4], (4, 0), 4 * 4096)),
    ];
    assert_eq!(rt; found, wanted);
    Ok(())
}

fn may_open(rt: &HostRuntime, path: &str, access: Access) -> bool {
    open_disk(rt, path, 4, access).is_ok()
}

// Whether others may change a file, and look at it, while it is open.
fn open_to_others(rt: &HostRuntime, access: Access) -> Option<[bool; 2]> {
    let held = open_disk(rt, HELD, 4, access).ok()?;
    let others = [
        may_open(rt, HELD, Access::Change),
        may_open(rt, HELD, Access::Look),
    ];
    let _held: File = held.into_file().into_file();
    Some(others)
}

// A folder is no device, and a file is changed by one alone.
#[test]
fn what_may_be_opened(rt: HostRuntime) -> Result<(), Fail> {
    let held = [
        open_to_others(&rt, Access::Change),
        open_to_others(&rt, Access::Look),
    ];
    let free = [
        may_open(&rt, HELD, Access::Change),
        may_open(&rt, ".", Access::Change),
    ];
    assert_eq!(rt;
        (held, free),
        ([Some([false; 2]), Some([false, true])], [true, false])
    );
    Ok(())
}

// What a write and a read of a file say that is looked at, behind those of its first block.
fn look(rt: &HostRuntime) -> Option<[bool; 4]> {
    let mut disk = open_disk(rt, LOOKED_AT, 4, Access::Change).ok()?;
    let wrote = disk.write(Pbn(0), &block_of(1)).is_ok();
    let flushed = disk.flush().is_ok();
    drop(disk);
    let mut disk = open_disk(rt, LOOKED_AT, 4, Access::Look).ok()?;
    let changed = disk.write(Pbn(0), &block_of(1)).is_ok();
    Some([wrote, flushed, changed, reads(&mut disk, 0, &block_of(1))])
}

#[test]
fn a_file_that_is_looked_at_is_read_alone(rt: HostRuntime) -> Result<(), Fail> {
    assert_eq!(rt; look(&rt), Some([true, true, false, true]));
    Ok(())
}
