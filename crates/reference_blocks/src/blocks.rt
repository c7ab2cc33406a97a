ghost use Rattle.std.specs.Prelude.{◌≡◌, ◌*◌, ◌<◌, ◌↔◌, length, IsTrue, IfOk, IfSome, IfNone};
ghost use Rattle.blk_base.specs.Counters.{sectors_per_slab};
ghost use Rattle.blk_base.specs.Limits.{IsGeometry};
ghost use Rattle.dirty_pages.specs.DirtyPoints.{IsBeingWritten, dirty_points_at};
ghost use Rattle.reference_blocks.specs.References.{HandsOutBlock, NoneDirty, opening, point_at, points_of, updated, written};

use crate::image::{keep_sectors, sectors_of};
use blk_base::{Block, Geometry, Layout, Opened, Point};
use dirty_pages::DirtyPages;
use slab_codec::{ReferenceBlock, encode_reference};
use std::alloc::{AllocError, Global};
use std::marker::Model;

/// The reference blocks of a slab in a session.
#[derive(Drop)]
pub struct ReferenceBlocks {
    layout: Layout,
    // For each sector of counters the point up to which they have the updates, and the one with which its block was handed
    // out last.
    applied: Vec<Point>,
    handed: Vec<Point>,
    // Which blocks are dirty, and which are being written.
    dirty: DirtyPages,
}

impl Model for ReferenceBlocks {
    ghost use Rattle.reference_blocks.specs.References.{References, IsKept};
    ghost use Rattle.reference_blocks.specs.Viewed.{references_in};
    ghost use Rattle.blk_base.specs.Limits.{IsGeometry};

    ghost Value = { References };

    ghost view = { references_in };

    ghost invariant = { λ s. record {
      kept : IsKept (references_in s);
      sizes : IsGeometry s.layout.geometry;
    } };
}

impl ReferenceBlocks {
    // Long to prove: each way out while what was taken is alive has searches of its own.
    /// The reference blocks of a slab below the number of slabs, as an image of these sizes is opened: none is dirty.
    /// `opened` has a commit point for each sector of each slab. Takes the room for two points of each sector of the slab,
    /// and for the dirty points of its blocks.
    pub fn new(
        alloc: Global,
        geometry: &Geometry,
        slab: u32,
        opened: &Opened,
    ) -> Result<ReferenceBlocks, AllocError>
        requires geometry { IsGeometry geometry.now }
        requires slab { slab < geometry.now.slabs }
        requires commits { length opened.now.commits.items
            ≡ geometry.now.slabs * sectors_per_slab geometry.now }
        ensures { IfOk result (λ blocks.
            blocks ≡ opening geometry.now (points_of geometry.now slab opened.now.commits.items)) }
    {
        let layout = Layout::of(geometry);
        let count = layout.sectors_per_slab();
        let first = layout.sector_number(slab, 0) as usize;
        let points = &opened.commits[first..first + count as usize];
        Ok(ReferenceBlocks {
            layout,
            applied: points.to_vec(alloc)?,
            handed: points.to_vec(alloc)?,
            dirty: DirtyPages::new(alloc, count.div_ceil(8))?,
        })
    }

    /// An update of the data block with this offset in the slab was taken: its reference block is dirty, and its sector
    /// has the updates up to this point. The points of a sector's updates rise, above the one with which it was opened.
    pub fn update(&mut self, offset: u32, point: Point)
        requires { offset < self.old.geometry.slab_blocks }
        ensures { self.new ≡ updated self.old offset point }
    {
        let sector = self.layout.sector_of_offset(offset) as usize;
        self.applied[sector] = point;
        self.dirty.change(sector / 8, point);
    }

    // Long to prove: each clause is shown on each way out.
    /// Hands out the block that was dirtied first of those that aren't being written, with the slab's counters as they are
    /// now; `None` exactly where no such block is dirty.
    pub fn take_first(&mut self, counters: &[u8], into: &mut Block) -> Option<u32>
        ensures some { IfSome result (HandsOutBlock self.old self.new counters.now into.new) }
        ensures none { IfNone result (NoneDirty self.old) }
        ensures same { IfNone result (self.new ≡ self.old) }
    {
        let block = self.dirty.take_expired(Point(u64::MAX))?;
        let sectors = sectors_of(&self.layout, &self.applied, counters, block as u32);
        encode_reference(&ReferenceBlock { sectors }, into);
        keep_sectors(&self.applied, block, &mut self.handed);
        Some(block as u32)
    }

    /// The write of a block that was handed out is durable.
    pub fn written(&mut self, block: u32)
        requires { IsBeingWritten (dirty_points_at self.old.blocks block) }
        ensures { self.new ≡ written self.old block }
    {
        self.dirty.written(block as usize);
    }

    /// Whether the block with this number is being written: it was handed out, and that isn't reported yet.
    pub fn is_being_written(&self, block: u64) -> bool
        ensures { IsTrue result ↔ IsBeingWritten (dirty_points_at self.now.blocks block) }
    {
        let count = self.layout.references();
        block < u64::from(count) && self.dirty.dirty_points(block as usize).writing.is_some()
    }

    /// The commit point with which a sector of the slab was handed out last, or else that of the image.
    pub fn handed_point(&self, sector: u32) -> Point
        ensures { result ≡ point_at self.now.handed sector }
    {
        self.handed
            .get(sector as usize)
            .copied()
            .unwrap_or_default()
    }
}
