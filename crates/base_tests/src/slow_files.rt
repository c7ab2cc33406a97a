use crate::file_reads::reads;
use blk_base::{Block, Pbn};
use disk_model::Disk;
use file_disk::{ByteFile, FileDisk};
use std::cell::{Cell, RefCell};
use std::io;
use std::io::ErrorKind;
use std::os::unix::fs::FileExt;
use std::test::Fail;

const ROOM: usize = 3 * 4096;

/// A file in memory that gives and takes at most so many bytes at a time. Every third call is interrupted, and the call with
/// this number fails.
#[derive(Drop)]
struct Slow {
    bytes: RefCell<[u8; ROOM]>,
    length: Cell<usize>,
    most: usize,
    calls: Cell<u32>,
    fails_at: u32,
    syncs: Cell<u32>,
}

fn other_error() -> io::Error {
    io::Error::from(ErrorKind::Other)
}

impl Slow {
    // A file of so many bytes, each of which is 7.
    fn of_length(length: usize, most: usize, fails_at: u32) -> Slow {
        Slow {
            bytes: RefCell::new([7; ROOM]),
            length: Cell::new(length),
            most,
            calls: Cell::new(0),
            fails_at,
            syncs: Cell::new(0),
        }
    }

    // One more call.
    fn call(&self) -> io::Result<()> {
        let number = self.calls.get();
        self.calls.set(number.wrapping_add(1));
        if number == self.fails_at {
            return Err(other_error());
        }
        if number % 3 == 2 {
            return Err(io::Error::from(ErrorKind::Interrupted));
        }
        Ok(())
    }
}

impl FileExt for Slow {
    fn read_at(&self, buf: &mut [u8], offset: u64) -> io::Result<usize> {
        self.call()?;
        let Ok(bytes) = self.bytes.try_borrow() else {
            return Err(other_error());
        };
        let start = offset.min(ROOM as u64) as usize;
        let left = self.length.get().min(ROOM).saturating_sub(start);
        let count = buf.len().min(self.most).min(left);
        for i in 0..count {
            buf[i] = bytes[start + i];
        }
        Ok(count)
    }

    fn write_at(&self, buf: &[u8], offset: u64) -> io::Result<usize> {
        self.call()?;
        let Ok(mut bytes) = self.bytes.try_borrow_mut() else {
            return Err(other_error());
        };
        let start = offset.min(ROOM as u64) as usize;
        let count = buf.len().min(self.most).min(ROOM - start);
        let bytes = &mut *bytes;
        for i in 0..count {
            bytes[start + i] = buf[i];
        }
        self.length.set(self.length.get().max(start + count));
        Ok(count)
    }
}

// It tells nothing.
impl ByteFile for Slow {
    ghost use Rattle.std.specs.Prelude.{[], false};
    ghost use Rattle.disk_model.specs.Trust.{trust_of};

    ghost trust = { trust_of false false };

    ghost seen = { λ file. record { opening = []; log = []; bytes = [] } };

    fn read_at(&mut self, into: &mut [u8], offset: u64) -> io::Result<usize> {
        FileExt::read_at(self, into, offset)
    }

    fn write_all_at(&mut self, bytes: &Block, offset: u64) -> io::Result<()> {
        FileExt::write_all_at(self, &bytes.bytes, offset)
    }

    fn sync_all(&mut self) -> io::Result<()> {
        self.call()?;
        self.syncs.set(self.syncs.get().wrapping_add(1));
        Ok(())
    }
}

const NEVER: u32 = u32::MAX;

// A block of these bytes up to a place, and of others from there on.
fn block_of(first: u8, end: usize, others: u8) -> Block {
    let mut block = Block::zero();
    for i in 0..4096_usize {
        block.bytes[i] = if i < end { first } else { others };
    }
    block
}

#[test]
fn what_comes_in_pieces_is_carried_on(rt: HostRuntime) -> Result<(), Fail> {
    // 5,000 bytes: all of block 0, and 904 of block 1.
    for most in [1000, 4095, 4096, 5000, 333] {
        let mut disk = FileDisk::new(Slow::of_length(5000, most, NEVER), 3);
        let first = [
            reads(&mut disk, 0, &block_of(7, 4096, 7)),
            reads(&mut disk, 1, &block_of(7, 904, 0)),
            reads(&mut disk, 2, &Block::zero()),
        ];
        assert_eq!(rt; first, [true; 3], "read {most} at a time");
        let done = [
            disk.write(Pbn(2), &block_of(1, 9, 2)).is_ok(),
            disk.write(Pbn(0), &block_of(3, 4000, 4)).is_ok(),
        ];
        assert_eq!(rt; done, [true; 2], "written {most} at a time");
        let then = [
            reads(&mut disk, 0, &block_of(3, 4000, 4)),
            reads(&mut disk, 2, &block_of(1, 9, 2)),
        ];
        assert_eq!(rt; then, [true; 2], "read again {most} at a time");
        assert_eq!(rt; (disk.faults(), disk.into_file().length.get()), (0, ROOM));
    }
    Ok(())
}

// Which of four calls succeed where the file's call with this number fails, how many failures were counted, and how
// often the file was synced.
fn with_failure(fails_at: u32) -> ([bool; 4], u64, u32) {
    let mut disk = FileDisk::new(Slow::of_length(ROOM, 4096, fails_at), 3);
    let mut into = Block::zero();
    let ok = [
        disk.read(Pbn(0), &mut into).is_ok(),
        disk.write(Pbn(1), &into).is_ok(),
        disk.flush().is_ok(),
        disk.flush().is_ok(),
    ];
    (ok, disk.faults(), disk.into_file().syncs.get())
}

#[test]
fn failures_are_counted(rt: HostRuntime) -> Result<(), Fail> {
    // The read and the write take a call of the file each. The third call is interrupted, and the sync of a file is not
    // made again by the device.
    let found = [
        with_failure(NEVER),
        with_failure(0),
        with_failure(1),
        with_failure(3),
    ];
    let wanted = [
        ([true, true, false, true], 1, 1),
        ([false, true, false, true], 2, 1),
        ([true, false, false, true], 2, 1),
        ([true, true, false, false], 2, 0),
    ];
    assert_eq!(rt; found, wanted);
    Ok(())
}
