use crate::answers::is_read;
use crate::images::{ABOVE, Image, LEAF, SMALL, blocks_of};
use blk_base::Mapping::{At, Unmapped, Zero};
use blk_base::{Block, BoxedBlock, Entry, Layout, Lba, Pbn, Request};
use command_text::AddressValue;
use crash_images::{addresses_of, copy_of, read_map, value_at, values_of};
use disk_model::{Disk, MemDisk};
use std::alloc::{AllocError, Global};
use std::test::Fail;
use test_images::put_block;
use vdo_model::Requests;

/// One leaf is linked: address 5 has block 80, address 6 has zeros, and address 7 has block 81.
const MAPPED: Image = Image {
    geometry: SMALL,
    clean: true,
    start: 6,
    journal: &[(5, 5, &[])],
    pages: &[
        (ABOVE, 9, &[(0, At(Pbn(73)))]),
        (LEAF, 73, &[(5, At(Pbn(80))), (6, Zero), (7, At(Pbn(81)))]),
    ],
    counters: &[(0, 1), (7, 1), (8, 1)],
    commits: &[3000],
    updates: &[],
};

/// The same, not closed: the window maps address 5 to the other block, and unmaps address 7, and no counter is right.
const CHANGED: Image = Image {
    clean: false,
    journal: &[(
        6,
        6,
        &[
            Entry::Remap {
                at: Lba(5),
                old: At(Pbn(80)),
                new: At(Pbn(81)),
            },
            Entry::Remap {
                at: Lba(7),
                old: At(Pbn(81)),
                new: Unmapped,
            },
        ],
    )],
    counters: &[(0, 3), (7, 4), (9, 5)],
    commits: &[60_000],
    ..MAPPED
};

// The requests of two streams; block 0 to write, since no value matters.
fn first_stream(alloc: Global) -> Result<Vec<Request>, AllocError> {
    let mut asked = Vec::with_capacity(alloc, 4)?;
    let block = BoxedBlock::new(alloc, Block::zero())?;
    asked.push_reserved(Request::Read(Lba(900)));
    asked.push_reserved(Request::Flush);
    asked.push_reserved(Request::Write {
        at: Lba(7),
        block,
        fua: false,
    });
    asked.push_reserved(Request::Read(Lba(1000)));
    Ok(asked)
}

fn second_stream(alloc: Global) -> Result<Vec<Request>, AllocError> {
    let mut asked = Vec::with_capacity(alloc, 3)?;
    asked.push_reserved(Request::Discard(Lba(5)));
    asked.push_reserved(Request::Read(Lba(7)));
    asked.push_reserved(Request::Read(Lba(6)));
    Ok(asked)
}

fn script(alloc: Global) -> Result<Requests, AllocError> {
    let mut streams = Vec::with_capacity(alloc, 2)?;
    streams.push_reserved(first_stream(alloc)?);
    streams.push_reserved(second_stream(alloc)?);
    Ok(Requests::of_streams(streams))
}

// Of a value its address, and its first and its last byte.
type Value = (u32, u8, u8);

// What a copy of the device gives: its values at the addresses of the script below 1,000, one value alone, and whether all calls
// on both devices read. `None` where one of them is refused.
type Found = Option<([Option<Value>; 4], Option<u8>, bool)>;

fn value_of(values: &[AddressValue], place: usize) -> Option<Value> {
    let value = values.get(place)?;
    Some((value.at.0, value.block.bytes[0], value.block.bytes[4095]))
}

fn found(alloc: Global, device: &mut MemDisk) -> Result<Found, AllocError> {
    let requests = script(alloc)?;
    if requests.count() > 256 {
        return Ok(None);
    }
    let addresses = addresses_of(alloc, &requests, 1000)?;
    let Ok(mut copy) = copy_of(alloc, device) else {
        return Ok(None);
    };
    let Ok(map) = read_map(alloc, &mut copy) else {
        return Ok(None);
    };
    if copy.blocks() < Layout::of(&map.head.geometry).needed() {
        return Ok(None);
    }
    let Ok(values) = values_of(alloc, &mut copy, &map, &addresses) else {
        return Ok(None);
    };
    let Ok(alone) = value_at(&mut copy, &map, Lba(7)) else {
        return Ok(None);
    };
    let shown = [
        value_of(&values, 0),
        value_of(&values, 1),
        value_of(&values, 2),
        value_of(&values, 3),
    ];
    let first = alone.bytes.first().copied();
    let all = values.len() == 4;
    Ok(Some((shown, first, all && is_read(device) && is_read(&copy))))
}

// What is found of the image with bytes in its two blocks of data, and how many calls were made on its device.
fn values_in(alloc: Global, image: &Image) -> Result<(Found, usize), AllocError> {
    let mut blocks = blocks_of(alloc, image)?;
    for (at, byte) in [(80, 0x61), (81, 0x62)] {
        let block = Block {
            bytes: [byte; 4096],
        };
        put_block(&mut blocks, at, &block);
    }
    let mut device = MemDisk::from_blocks(alloc, blocks)?;
    let found = found(alloc, &mut device)?;
    Ok((found, device.calls().len()))
}

// Each block of the device is read once. A window has its values, and no count is looked at.
#[test]
fn a_copy_has_the_values_of_its_device(rt: HostRuntime) -> Result<(), Fail> {
    let found = [
        values_in(rt.alloc(), &MAPPED)?,
        values_in(rt.alloc(), &CHANGED)?,
    ];
    let zeros = [Some((6, 0, 0)), Some((7, 0, 0)), Some((900, 0, 0))];
    let stored = [
        Some((5, 0x61, 0x61)),
        zeros[0],
        Some((7, 0x62, 0x62)),
        zeros[2],
    ];
    let changed = [Some((5, 0x62, 0x62)), zeros[0], zeros[1], zeros[2]];
    assert_eq!(rt;
        found,
        [
            (Some((stored, Some(0x62), true)), 92),
            (Some((changed, Some(0), true)), 92)
        ]
    );
    Ok(())
}
