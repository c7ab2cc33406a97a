use crate::answers::{Answer, audited, is_read, opened, recovered};
use crate::bent_images::put_number;
use crate::images::{CLOSED, Image, UNCLEAN, blocks_of};
use blk_base::Block;
use disk_model::MemDisk;
use image_model::ImageFault;
use std::alloc::{AllocError, Global};
use std::test::Fail;

/// How many images each seed tries.
const IMAGES: u64 = 500;

/// The blocks of which one is changed in every other image: the superblock, the journal's last one, a root, the leaf, the
/// counters and the slab's journal.
static READ: [usize; 6] = [0, 7, 9, 73, 89, 90];

// How many images were opened or recovered; how many were refused, in the order of the faults, and because the last session
// wasn't closed; and how many were answered otherwise. And how often an audit says something else, and how often a refusal
// wrote something.
type Met = ([u32; 9], u32, u32);

// The next number of a seed: each is made of the one before.
fn next(state: &mut u64) -> u64 {
    *state = state
        .wrapping_mul(6_364_136_223_846_793_005)
        .wrapping_add(1_442_695_040_888_963_407);
    let mixed = *state ^ (*state >> 33);
    mixed.wrapping_mul(0xff51_afd7_ed55_8ccd) >> 16
}

fn kind_of(answer: Answer) -> usize {
    match answer {
        Ok(_) => 0,
        Err(ImageFault::Super(_)) => 1,
        Err(ImageFault::Window { .. }) => 2,
        Err(ImageFault::Page { .. }) => 3,
        Err(ImageFault::Counter { .. }) => 4,
        Err(ImageFault::SharedPage { .. }) => 5,
        Err(ImageFault::Counts { .. }) => 6,
        Err(ImageFault::Unclean) => 7,
        Err(ImageFault::Device | ImageFault::Memory) => 8,
    }
}

// Changes all bytes of a block, or up to 5 at one place.
fn change(blocks: &mut [Block], state: &mut u64) {
    let number = next(state);
    let at = match READ.get((number / 2 % 6) as usize) {
        Some(at) if number % 2 == 0 => *at,
        _ => (number / 2 % 92) as usize,
    };
    let Some(block) = blocks.get_mut(at) else {
        return;
    };
    let (from, width) = if next(state) % 3 == 0 {
        (0, 4096)
    } else {
        ((next(state) % 600) as usize, next(state) % 5 + 1)
    };
    for i in 0..width {
        let place = from.saturating_add(i as usize);
        put_number(block, place, 1, next(state) % 256);
    }
}

// Whether the answer is as an audit says, which finds more where an image is recovered, and where it isn't closed.
fn is_alike(clean: bool, answer: Answer, audit: Answer) -> bool {
    if clean {
        return answer == audit || answer == Err(ImageFault::Unclean);
    }
    match answer {
        Ok(None) => true,
        Ok(Some(_)) => is_counted(audit),
        Err(_) => answer == audit,
    }
}

// Whether an audit has come to count its blocks.
fn is_counted(audit: Answer) -> bool {
    match audit {
        Ok(_) => true,
        Err(fault) => matches!(fault, ImageFault::Counts { .. }),
    }
}

// What images were answered that were closed and are opened, or that weren't and are recovered.
fn try_images(alloc: Global, image: &Image, seed: u64) -> Result<Met, AllocError> {
    let mut state = seed;
    let mut met: Met = ([0; 9], 0, 0);
    for _ in 0..IMAGES {
        let mut blocks = blocks_of(alloc, image)?;
        change(&mut blocks, &mut state);
        let mut device = MemDisk::from_blocks(alloc, blocks)?;
        let mut other = device.pick_image(alloc, 0)?;
        let answer = if image.clean {
            opened(alloc, &mut device)
        } else {
            recovered(alloc, &mut device)
        };
        let alike = is_alike(image.clean, answer, audited(alloc, &mut other));
        let may_write = !image.clean && matches!(answer, Ok(Some(_)));
        let kept = may_write || is_read(&device);
        if let Some(number) = met.0.get_mut(kind_of(answer)) {
            *number = number.saturating_add(1);
        }
        met.1 = met.1.saturating_add(u32::from(!alike));
        met.2 = met.2.saturating_add(u32::from(!kept));
    }
    Ok(met)
}

#[test]
fn images_with_random_bytes(rt: HostRuntime) -> Result<(), Fail> {
    let met = [
        try_images(rt.alloc(), &CLOSED, 1)?,
        try_images(rt.alloc(), &CLOSED, 2)?,
        try_images(rt.alloc(), &UNCLEAN, 3)?,
        try_images(rt.alloc(), &UNCLEAN, 4)?,
    ];
    let wanted = [
        ([208, 45, 0, 234, 0, 0, 13, 0, 0], 0, 0),
        ([175, 38, 0, 265, 3, 0, 19, 0, 0], 0, 0),
        ([199, 41, 1, 259, 0, 0, 0, 0, 0], 0, 0),
        ([214, 46, 1, 238, 1, 0, 0, 0, 0], 0, 0),
    ];
    assert_eq!(rt; met, wanted);
    Ok(())
}
