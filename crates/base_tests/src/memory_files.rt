//! A file in memory as a device, and streams in memory as a source and a sink.
use crate::file_reads::reads;
use blk_base::{Block, Pbn};
use disk_model::{Disk, Sink, Source};
use file_disk::{FileDisk, MemFile};
use standard_streams::{InputSource, OutputSink};
use std::alloc::{AllocError, Global};
use std::collections::VecDeque;
use std::io;
use std::test::Fail;

// A block of one byte.
fn block_of(byte: u8) -> Block {
    Block {
        bytes: [byte; 4096],
    }
}

// Two blocks of a byte, and 100 bytes more.
fn bytes_of_file(alloc: Global, byte: u8) -> Result<Vec<u8>, AllocError> {
    let mut bytes = Vec::new(alloc);
    for _ in 0..8292_u64 {
        bytes.push(byte)?;
    }
    Ok(bytes)
}

// What is read and written of it, and how many calls failed: the last block goes past its end.
fn device_in_memory(alloc: Global, most: usize) -> Result<([bool; 6], u64), AllocError> {
    let file = MemFile::new(bytes_of_file(alloc, 7)?, most);
    let mut disk = FileDisk::new(file, 3);
    let first = reads(&mut disk, 1, &block_of(7));
    let written = disk.write(Pbn(1), &block_of(5)).is_ok();
    let past = disk.write(Pbn(2), &block_of(5)).is_ok();
    let flushed = disk.flush().is_ok();
    let then = reads(&mut disk, 1, &block_of(5));
    let before = reads(&mut disk, 0, &block_of(7));
    Ok(([first, written, past, flushed, then, before], disk.faults()))
}

#[test]
fn a_file_in_memory_is_a_device(rt: HostRuntime) -> Result<(), Fail> {
    let found = [
        device_in_memory(rt.alloc(), 4096)?,
        device_in_memory(rt.alloc(), 1000)?,
        device_in_memory(rt.alloc(), 0)?,
    ];
    assert_eq!(rt; found, [([true, true, false, true, true, true], 1); 3]);
    Ok(())
}

// How many bytes three takes of two gave, and what they were.
fn taken(alloc: Global) -> Result<([usize; 3], [u8; 2]), AllocError> {
    let mut bytes = VecDeque::new(alloc);
    for byte in [1, 2, 3] {
        let Ok(()) = bytes.push_back(byte) else {
            return Err(AllocError);
        };
    }
    let mut source = InputSource::new(bytes);
    let mut into = [0; 2];
    let mut counts = [9; 3];
    for i in 0..3_usize {
        counts[i] = source.take(&mut into).unwrap_or(7);
    }
    Ok((counts, into))
}

// How many bytes a sink has written before its end and after it.
fn put(alloc: Global, text: &[u8]) -> io::Result<[usize; 2]> {
    let mut sink = OutputSink::new(alloc, Vec::new(alloc))?;
    let mut lengths = [9; 2];
    if sink.put(text).is_ok() {
        lengths[0] = sink.stream().len();
    }
    if sink.finish().is_ok() {
        lengths[1] = sink.stream().len();
    }
    Ok(lengths)
}

#[test]
fn streams_in_memory_are_a_source_and_a_sink(rt: HostRuntime) -> Result<(), Fail> {
    assert_eq!(rt; taken(rt.alloc())?, ([2, 1, 0], [3, 2]));
    assert_eq!(rt; put(rt.alloc(), b"a line")?, [0, 6]);
    assert_eq!(rt; put(rt.alloc(), &[5; 9000])?, [9000, 9000]);
    Ok(())
}
