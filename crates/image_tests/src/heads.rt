use blk_base::{Geometry, Super};
use disk_model::MemDisk;
use image_layout::{Field, SuperFault, write_super};
use image_model::ImageFault;
use image_opening::read_head;
use std::alloc::{AllocError, Global};
use std::test::Fail;
use test_images::zeros;

// The superblock that is read, or the fault, and how many calls were made.
type Read = (Result<Super, ImageFault>, usize);

const HEAD: Super = Super {
    geometry: Geometry::DEFAULT,
    clean: false,
    start: 7,
};

// A device of so many blocks, of which so many calls go on; its first block is this superblock, if there is one.
static ROWS: [((u32, Option<Super>, u64), Read); 6] = [
    ((154, Some(HEAD), 9), (Ok(HEAD), 1)),
    ((200, Some(HEAD), 9), (Ok(HEAD), 1)),
    (
        (153, Some(HEAD), 9),
        (
            Err(ImageFault::Super(SuperFault::BadField(Field::Blocks))),
            1,
        ),
    ),
    (
        (154, None, 9),
        (Err(ImageFault::Super(SuperFault::NotAnImage)), 1),
    ),
    (
        (0, None, 9),
        (Err(ImageFault::Super(SuperFault::NotAnImage)), 0),
    ),
    ((154, Some(HEAD), 0), (Err(ImageFault::Device), 1)),
];

fn read(
    alloc: Global,
    (count, head, passes): (u32, Option<Super>, u64),
) -> Result<Read, AllocError> {
    let mut blocks = zeros(alloc, count)?;
    if let (Some(head), Some(first)) = (head, blocks.first_mut()) {
        write_super(&head, first);
    }
    let mut device = MemDisk::from_blocks(alloc, blocks)?;
    device.set_fuse(passes);
    let read = read_head(&mut device);
    Ok((read, device.calls().len()))
}

#[test]
fn superblocks_are_read(rt: HostRuntime) -> Result<(), Fail> {
    for (i, &(device, wanted)) in ROWS.iter().enumerate() {
        let found = read(rt.alloc(), device)?;
        assert_eq!(rt; (i, found), (i, wanted));
    }
    Ok(())
}
