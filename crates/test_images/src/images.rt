ghost use Rattle.blk_base.specs.Limits.{IsGeometry};

use crate::blocks::{journal_block, page_block};
use blk_base::{Block, Entry, Geometry, Layout, Mapping, PageId, Super, TREES};
use disk_model::MemDisk;
use image_layout::write_super;
use std::alloc::{AllocError, Global};

/// A page, its block, and what its slots say.
pub type Page = (PageId, u32, &'static [(u16, Mapping)]);

/// The blocks of an empty image of these sizes, whose last session was closed: a superblock with `start` 1, the roots, and
/// zeros.
pub fn empty_image(alloc: Global, geometry: &Geometry) -> Result<Vec<Block>, AllocError>
    requires { IsGeometry geometry.now }
{
    let mut blocks = zeros(alloc, Layout::of(geometry).needed())?;
    let head = Super {
        geometry: *geometry,
        clean: true,
        start: 1,
    };
    let mut first = Block::zero();
    write_super(&head, &mut first);
    put_block(&mut blocks, 0, &first);
    put_pages(&mut blocks, *geometry, &[]);
    Ok(blocks)
}

/// A device with an empty image of these sizes.
pub fn fresh(alloc: Global, geometry: &Geometry) -> Result<MemDisk, AllocError>
    requires { IsGeometry geometry.now }
{
    let blocks = empty_image(alloc, geometry)?;
    MemDisk::from_blocks(alloc, blocks)
}

/// So many blocks of zeros.
pub fn zeros(alloc: Global, count: u32) -> Result<Vec<Block>, AllocError> {
    let mut blocks = Vec::new(alloc);
    for _ in 0..count {
        blocks.push(Block::zero())?;
    }
    Ok(blocks)
}

/// Puts a block where it stands, if the image is as large.
pub fn put_block(blocks: &mut [Block], at: u32, block: &Block) {
    if let Some(into) = blocks.get_mut(at as usize) {
        into.copy_from(block);
    }
}

/// Puts the root of each tree, which leads nowhere, and then these pages, which may be roots too.
pub fn put_pages(blocks: &mut [Block], geometry: Geometry, pages: &[Page]) {
    let level = if geometry.height == 3 { 2 } else { 1 };
    let first = geometry.journal.saturating_add(1);
    for tree in 0..TREES {
        let root = PageId {
            tree,
            level,
            index: 0,
        };
        let at = first.saturating_add(u32::from(tree));
        put_block(blocks, at, &page_block(geometry, root, at, &[]));
    }
    for &(page, at, slots) in pages {
        put_block(blocks, at, &page_block(geometry, page, at, slots));
    }
}

/// Puts a block of the recovery journal of 8 blocks into its slot.
pub fn put_journal(blocks: &mut [Block], sequence: u64, head: u64, window: &[Entry]) {
    let block = journal_block(Geometry::DEFAULT.nonce, sequence, head, window);
    put_block(blocks, 1 + (sequence % 8) as u32, &block);
}
