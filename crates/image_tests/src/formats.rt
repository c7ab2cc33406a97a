use crate::images::SMALL;
use blk_base::{Block, Geometry, Layout, Pbn, Super};
use disk_model::{CallKind, Disk, FaultAt, MemDisk};
use image_format::{FormatFault, format};
use image_layout::{LayoutFault, SuperFault, read_super, write_super};
use std::alloc::{AllocError, Global};
use std::test::Fail;
use test_images::{put_pages, zeros};

const DEFAULT: Geometry = Geometry::DEFAULT;

const TWO_SLABS: Geometry = Geometry {
    slabs: 2,
    ..DEFAULT
};

const HIGH: Geometry = Geometry {
    height: 3,
    ..DEFAULT
};

// An image of 92 blocks, `SMALL`, and an older one that is written over: they differ in their nonce.
const OLDER: Geometry = Geometry { nonce: 2, ..SMALL };

const BLOCKS: u32 = 92;

// How many calls make it: two, then one for each of 75 blocks, and three.
const CALLS: u64 = 80;

// The byte that stands everywhere at first.
const FILL: u8 = 7;

// What an image is: 'o' the older one, 'n' none, 'e' the empty one that was wanted, and 'x' anything else.
type Judged = char;

/// A device of so many blocks.
pub(crate) fn filled(alloc: Global, blocks: u32) -> Result<MemDisk, AllocError> {
    let mut all = zeros(alloc, blocks)?;
    for block in &mut all {
        block.bytes = [FILL; 4096];
    }
    MemDisk::from_blocks(alloc, all)
}

/// The bytes of a block; zeros where it can't be read.
pub(crate) fn bytes_at(device: &mut MemDisk, at: u32) -> [u8; 4096] {
    let mut block = Block::zero();
    if at < device.blocks() && device.read(Pbn(at), &mut block).is_ok() {
        block.bytes
    } else {
        [0; 4096]
    }
}

// Whether each block is as an empty image of these blocks has it, and each data block and each one behind the image as it
// was at first. Without an image the latter alone are looked at.
fn is_image(device: &mut MemDisk, layout: &Layout, image: &[Block]) -> bool {
    for at in 0..device.blocks() {
        let found = bytes_at(device, at);
        let right = match image.get(at as usize) {
            _ if layout.is_data_block(Pbn(at)) => found == [FILL; 4096],
            Some(block) => found == block.bytes,
            None => image.is_empty() || found == [FILL; 4096],
        };
        if !right {
            return false;
        }
    }
    true
}

fn judge(device: &mut MemDisk, layout: &Layout, empty: &[Block], older: &[Block]) -> Judged {
    let first = Block {
        bytes: bytes_at(device, 0),
    };
    match read_super(&first, device.blocks()) {
        Err(SuperFault::NotAnImage) if is_image(device, layout, &[]) => 'n',
        Ok(_) if is_image(device, layout, empty) => 'e',
        Ok(_) if is_image(device, layout, older) => 'o',
        _ => 'x',
    }
}

// What a call answers, with how many calls it made and what the device has then.
type Made = (Option<FormatFault>, usize, Judged);

// Sizes, the blocks of the device, and what then is made.
static SIZES: [(Geometry, u32, Made); 6] = [
    (DEFAULT, 154, (None, 94, 'e')),
    (DEFAULT, 155, (None, 94, 'e')),
    (
        DEFAULT,
        153,
        (
            Some(FormatFault::Layout(LayoutFault::TooSmall {
                needed: 154,
                has: 153,
            })),
            0,
            'x',
        ),
    ),
    (TWO_SLABS, 223, (None, 99, 'e')),
    (
        TWO_SLABS,
        222,
        (
            Some(FormatFault::Layout(LayoutFault::TooSmall {
                needed: 223,
                has: 222,
            })),
            0,
            'x',
        ),
    ),
    (HIGH, 154, (None, 94, 'e')),
];

// The blocks of an empty image.
fn empty_blocks(alloc: Global, layout: &Layout) -> Result<Vec<Block>, AllocError> {
    let mut blocks = zeros(alloc, layout.needed())?;
    let head = Super {
        geometry: layout.geometry,
        clean: true,
        start: 1,
    };
    if let Some(first) = blocks.first_mut() {
        write_super(&head, first);
    }
    put_pages(&mut blocks, layout.geometry, &[]);
    Ok(blocks)
}

#[test]
fn empty_images_are_made(rt: HostRuntime) -> Result<(), Fail> {
    for (i, &(wanted, blocks, made)) in SIZES.iter().enumerate() {
        let mut device = filled(rt.alloc(), blocks)?;
        let answer = format(&wanted, &mut device);
        let calls = device.calls().len();
        let found = match answer {
            Ok(layout) => {
                let empty = empty_blocks(rt.alloc(), &layout)?;
                (None, calls, judge(&mut device, &layout, &empty, &[]))
            }
            Err(fault) => (Some(fault), calls, 'x'),
        };
        assert_eq!(rt; (i, found), (i, made));
    }
    Ok(())
}

// A device with the older image, on which nothing is pending.
fn older_device(alloc: Global) -> Result<MemDisk, AllocError> {
    let mut device = filled(alloc, BLOCKS)?;
    let _ = format(&OLDER, &mut device);
    Ok(device)
}

// A stop: how many calls went on, and the number of the image that it leaves.
type Stop = (u64, u64);

// Whether the image was made before the stop, and what the stop leaves of this device.
fn stopped(
    alloc: Global,
    before: &MemDisk,
    (passes, number): Stop,
) -> Result<(bool, MemDisk), AllocError> {
    let mut device = before.pick_image(alloc, 0)?;
    device.set_fuse(passes);
    let made = format(&SMALL, &mut device).is_ok();
    Ok((made, device.pick_image(alloc, number)?))
}

// What may stand when so many calls went on.
fn may_stand(passes: u64, judged: Judged) -> bool {
    match judged {
        'o' => passes < 2,
        'n' => passes < CALLS,
        'e' => CALLS - 2 <= passes,
        _ => false,
    }
}

// At each end, the image of what was certain, that of all that was written since, and one of both.
static STOPS: [(Stop, Judged); 11] = [
    ((0, 0), 'o'),
    ((0, 1), 'n'),
    ((1, 0), 'o'),
    ((1, 1), 'n'),
    ((2, 0), 'n'),
    ((77, 1), 'n'),
    ((78, 0), 'n'),
    ((78, 1), 'e'),
    ((79, 0), 'n'),
    ((79, 1), 'e'),
    ((80, 0), 'e'),
];

// The first stop that leaves what it may not, or where something else is answered.
fn other_stop(alloc: Global) -> Result<Option<(Stop, bool, Judged)>, AllocError> {
    let before = older_device(alloc)?;
    let layout = Layout::of(&SMALL);
    let empty = empty_blocks(alloc, &layout)?;
    let older = empty_blocks(alloc, &Layout::of(&OLDER))?;
    for passes in 0..CALLS + 1 {
        let (made, mut image) = stopped(alloc, &before, (passes, 7))?;
        let judged = judge(&mut image, &layout, &empty, &older);
        if made != (passes == CALLS) || !may_stand(passes, judged) {
            return Ok(Some(((passes, 7), made, judged)));
        }
    }
    for (stop, wanted) in STOPS {
        let (made, mut image) = stopped(alloc, &before, stop)?;
        let judged = judge(&mut image, &layout, &empty, &older);
        if judged != wanted {
            return Ok(Some((stop, made, judged)));
        }
    }
    Ok(None)
}

#[test]
fn stops_leave_the_older_image_or_none_or_an_empty_one(rt: HostRuntime) -> Result<(), Fail> {
    assert_eq!(rt; other_stop(rt.alloc())?, None);
    Ok(())
}

// Calls that fail, how many calls stand in the log then, and what may be read.
static FAULTS: [(CallKind, u32, u32, bool, usize, Judged); 8] = [
    (CallKind::Write, 0, 0, false, 1, 'o'),
    (CallKind::Write, 0, 0, true, 1, 'n'),
    (CallKind::Flush, 0, 0, false, 2, 'n'),
    (CallKind::Write, 1, 0, false, 3, 'n'),
    (CallKind::Write, 91, 0, true, 77, 'n'),
    (CallKind::Flush, 0, 1, false, 78, 'n'),
    (CallKind::Write, 0, 1, true, 79, 'e'),
    (CallKind::Flush, 0, 2, false, 80, 'e'),
];

#[test]
fn calls_fail(rt: HostRuntime) -> Result<(), Fail> {
    let before = older_device(rt.alloc())?;
    let layout = Layout::of(&SMALL);
    let empty = empty_blocks(rt.alloc(), &layout)?;
    let older = empty_blocks(rt.alloc(), &Layout::of(&OLDER))?;
    for (i, &(kind, at, nth, effect, calls, wanted)) in FAULTS.iter().enumerate() {
        let fault = FaultAt {
            kind,
            at: Pbn(at),
            nth,
            effect,
        };
        let mut device = before.pick_image(rt.alloc(), 0)?;
        device.set_faults([fault].to_vec(rt.alloc())?);
        let answer = format(&SMALL, &mut device).err();
        let made = device.calls().len();
        let judged = judge(&mut device, &layout, &empty, &older);
        assert_eq!(rt;
            (i, answer, made, judged),
            (i, Some(FormatFault::Device), calls, wanted)
        );
    }
    Ok(())
}
