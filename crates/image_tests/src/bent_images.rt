use crate::answers::{Answer, is_read, opened, recovered};
use crate::images::{Image, blocks_of};
use crate::named_faults::{Fault, image_fault};
use blk_base::Block;
use disk_model::MemDisk;
use std::alloc::{AllocError, Global};

/// A block, a byte of it, how many bytes from there on are a number, and that number.
pub type Change = (usize, usize, u32, u64);

/// A change of no byte.
pub const NO: Change = (0, 0, 0, 0);

/// Up to three changes of an image; and how many of its data blocks are used when it is opened, or how many entries recover it,
/// or why not. A row leads to no other value: a table of such rows is proved far quicker than one of references.
pub type Bent = (Change, Change, Change, Result<Option<u32>, Fault>);

/// Puts so many bytes of a number at a place, the low ones first.
pub fn put_number(block: &mut Block, at: usize, width: u32, number: u64) {
    let mut rest = number;
    for i in 0..width {
        if let Some(byte) = block.bytes.get_mut(at.saturating_add(i as usize)) {
            *byte = (rest % 256) as u8;
        }
        rest /= 256;
    }
}

/// Makes changes of blocks.
pub fn put_changes(blocks: &mut [Block], changes: &[Change]) {
    for &(at, byte, width, number) in changes {
        if let Some(block) = blocks.get_mut(at) {
            put_number(block, byte, width, number);
        }
    }
}

// What opening or recovering the image with these bytes answers, and whether nothing was done but reads.
fn answer(
    alloc: Global,
    image: &Image,
    first: &[Change],
    changes: &[Change],
) -> Result<(Answer, bool), AllocError> {
    let mut blocks = blocks_of(alloc, image)?;
    put_changes(&mut blocks, first);
    put_changes(&mut blocks, changes);
    let mut device = MemDisk::from_blocks(alloc, blocks)?;
    let found = if image.clean {
        opened(alloc, &mut device)
    } else {
        recovered(alloc, &mut device)
    };
    Ok((found, is_read(&device)))
}

/// The first row that is answered otherwise, or by which an image was written that isn't recovered, with what was answered. An
/// image that was closed is opened, and the others are recovered.
pub fn other_answer(
    alloc: Global,
    image: &Image,
    rows: &[Bent],
) -> Result<Option<(usize, Answer, bool)>, AllocError> {
    other_behind(alloc, image, &[], rows)
}

/// The same, where these changes come before those of each row.
pub fn other_behind(
    alloc: Global,
    image: &Image,
    first: &[Change],
    rows: &[Bent],
) -> Result<Option<(usize, Answer, bool)>, AllocError> {
    for (i, &(one, other, last, wanted)) in rows.iter().enumerate() {
        let (found, read) = answer(alloc, image, first, &[one, other, last])?;
        let may_write = !image.clean && found.is_ok();
        if found != wanted.map_err(image_fault) || !(read || may_write) {
            return Ok(Some((i, found, read)));
        }
    }
    Ok(None)
}

/// The first of these numbers of a page's head, each with its byte and how many bytes it has, by which the page at one of these
/// blocks isn't refused, or for which something was written, with that block and what was answered.
pub fn other_head(
    alloc: Global,
    image: &Image,
    pages: &[u32],
    heads: &[(usize, u32, u64)],
) -> Result<Option<(u32, usize, Answer, bool)>, AllocError> {
    for &at in pages {
        if let Some((i, found, read)) = other_head_of(alloc, image, at, heads)? {
            return Ok(Some((at, i, found, read)));
        }
    }
    Ok(None)
}

// The same of one page.
fn other_head_of(
    alloc: Global,
    image: &Image,
    at: u32,
    heads: &[(usize, u32, u64)],
) -> Result<Option<(usize, Answer, bool)>, AllocError> {
    let refused = Err(image_fault(Fault::Header(at)));
    for (i, &(byte, width, number)) in heads.iter().enumerate() {
        let (found, read) = answer(alloc, image, &[], &[(at as usize, byte, width, number)])?;
        if found != refused || !read {
            return Ok(Some((i, found, read)));
        }
    }
    Ok(None)
}
