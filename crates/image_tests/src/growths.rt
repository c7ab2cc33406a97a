use crate::formats::{bytes_at, filled};
use crate::images::SMALL;
use blk_base::{Block, Geometry, Pbn};
use disk_model::{CallKind, Disk, FaultAt, MemDisk};
use grow_image::GrowFault::{Image, Layout, Smaller};
use grow_image::{GrowFault, Grown, grow};
use image_format::format;
use image_layout::{Field, LayoutFault, read_super};
use image_model::ImageFault;
use std::alloc::{AllocError, Global};
use std::test::Fail;

const BLOCKS: u32 = 149;

// The sizes that are asked for one after the other, how many addresses and slabs, and what is answered.
static GROWTHS: [(u32, u32, Result<Grown, GrowFault>); 7] = [
    (999, 1, Err(Smaller(Field::Logical))),
    (1000, 0, Err(Smaller(Field::Slabs))),
    (
        2000,
        5,
        Err(Layout(LayoutFault::TooSmall {
            needed: 168,
            has: 149,
        })),
    ),
    (
        2000,
        3,
        Ok(Grown {
            blocks: 130,
            slabs: 3,
            slab_blocks: 16,
            logical: 2000,
        }),
    ),
    (2000, 2, Err(Smaller(Field::Slabs))),
    (
        2000,
        4,
        Ok(Grown {
            blocks: 149,
            slabs: 4,
            slab_blocks: 16,
            logical: 2000,
        }),
    ),
    (
        2000,
        4,
        Ok(Grown {
            blocks: 149,
            slabs: 4,
            slab_blocks: 16,
            logical: 2000,
        }),
    ),
];

fn small_image(alloc: Global) -> Result<MemDisk, AllocError> {
    let mut device = filled(alloc, BLOCKS)?;
    let _layout = format(&SMALL, &mut device);
    Ok(device)
}

// The sizes that the superblock says, and whether it is that of a closed image with the first session's start.
fn sizes_of(device: &mut MemDisk) -> Option<(Geometry, bool)> {
    let first = Block {
        bytes: bytes_at(device, 0),
    };
    match read_super(&first, device.blocks()) {
        Ok(head) => Some((head.geometry, head.clean && head.start == 1)),
        Err(_) => None,
    }
}

#[test]
fn images_grow_or_are_refused(rt: HostRuntime) -> Result<(), Fail> {
    let mut device = small_image(rt.alloc())?;
    for (i, &(logical, slabs, wanted)) in GROWTHS.iter().enumerate() {
        let answer = grow(rt.alloc(), &mut device, logical, slabs);
        assert_eq!(rt; (i, answer), (i, wanted));
    }
    Ok(())
}

// Of the second slab's data, and behind it of its counters and its journal, and of a block behind the image, what all bytes are.
static PARTS: [(u32, u8); 6] = [(92, 7), (107, 7), (108, 0), (109, 0), (110, 0), (111, 7)];

// Where the superblock's write fails the old sizes stay. New slabs have no counts.
#[test]
fn a_growth_fails_and_is_made(rt: HostRuntime) -> Result<(), Fail> {
    let mut device = small_image(rt.alloc())?;
    let fault = FaultAt {
        kind: CallKind::Write,
        at: Pbn(0),
        nth: 0,
        effect: false,
    };
    device.set_faults([fault].to_vec(rt.alloc())?);
    let refused = grow(rt.alloc(), &mut device, 2000, 2);
    let before = sizes_of(&mut device);
    let grown = Geometry {
        logical: 2000,
        slabs: 2,
        ..SMALL
    };
    let made = grow(rt.alloc(), &mut device, 2000, 2).map(|grown| grown.blocks);
    let after = sizes_of(&mut device);
    assert_eq!(rt;
        (refused, before, made, after),
        (
            Err(Image(ImageFault::Device)),
            Some((SMALL, true)),
            Ok(111),
            Some((grown, true))
        )
    );
    for (at, byte) in PARTS {
        assert_eq!(rt; (at, bytes_at(&mut device, at) == [byte; 4096]), (at, true));
    }
    Ok(())
}
