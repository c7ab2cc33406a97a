ghost use Rattle.std.specs.Prelude.{◌≡◌, ◌*◌, ◌<◌, ◌≤◌, ◌+◌, ◌↔◌, length, IsTrue, IfOk, IfSome, IfNone};
ghost use Rattle.blk_base.specs.Counters.{sectors_per_slab};
ghost use Rattle.blk_base.specs.Limits.{IsGeometry};
ghost use Rattle.slab_journal.specs.Slab.{IsOfSlab};
ghost use Rattle.slab_journal.specs.Unsettled.{IsLowPoint, NoneUnsettled};
ghost use Rattle.slab_writes.specs.Writes.{IsKept, IsOut, Settles, opening, taken};
ghost use Rattle.slab_journal.specs.Slab.{IsWriting, MayOverwrite};
ghost use Rattle.dirty_pages.specs.DirtyPoints.{IsBeingWritten, dirty_points_at};
ghost use Rattle.reference_blocks.specs.References.{NoneDirty};
ghost use Rattle.slab_writes.specs.Writes.{SettlesReference};
ghost use Rattle.slab_writes.specs.declared.forms.SlabPart.TheVariants.{Journal, References};
ghost use Rattle.slab_writes.specs.Due.{IsDue, NoneDue, Wants, WantsJournal, WritesJournal, WritesReference};

use crate::commit_points::raise_commits;
use crate::{Need, SlabPart, SlabWork};
use blk_base::{Block, Geometry, Layout, Opened, Point, Update};
use reference_blocks::ReferenceBlocks;
use slab_codec::encode_slab;
use slab_journal::{SlabJournal, UPDATES_PER_BLOCK};
use std::alloc::{AllocError, Global};
use std::marker::Model;

/// What of a slab is to be written in a session.
#[derive(Drop)]
pub struct SlabWrites {
    layout: Layout,
    slab: u32,
    journal: SlabJournal,
    blocks: ReferenceBlocks,
}

impl Model for SlabWrites {
    ghost use Rattle.slab_writes.specs.Writes.{Writes};

    ghost Value = { Writes };

    ghost use Rattle.slab_writes.specs.Viewed.{writes_of, IsKeptIn};

    ghost view = { writes_of };

    ghost invariant = { IsKeptIn };
}

impl SlabWrites {
    /// Nothing is to be written of a slab below the number of slabs, as an image of these sizes is opened. `opened` has a
    /// commit point for each sector of each slab. Takes the room of the slab's journal and of its reference blocks.
    pub fn new(
        alloc: Global,
        geometry: &Geometry,
        slab: u32,
        opened: &Opened,
    ) -> Result<SlabWrites, AllocError>
        requires geometry { IsGeometry geometry.now }
        requires slab { slab < geometry.now.slabs }
        requires commits { length opened.now.commits.items
            ≡ geometry.now.slabs * sectors_per_slab geometry.now }
        ensures opening { IfOk result (λ writes.
            writes ≡ opening geometry.now slab opened.now.commits.items) }
        ensures kept { IfOk result (IsKept geometry.now slab) }
    {
        let layout = Layout::of(geometry);
        let journal = SlabJournal::new(alloc, geometry, slab)?;
        let blocks = ReferenceBlocks::new(alloc, geometry, slab, opened)?;
        Ok(SlabWrites {
            layout,
            slab,
            journal,
            blocks,
        })
    }

    /// Whether one more update can be taken: exactly where fewer than 320 wait.
    pub fn has_room(&self) -> bool
        ensures { IsTrue result ↔ (length self.now.journal.filling < 320) }
    {
        self.journal.waiting() < UPDATES_PER_BLOCK
    }

    /// Whether the point is above those of all updates before.
    pub fn rises(&self, point: Point) -> bool
        ensures { IsTrue result ↔ (self.now.journal.last.0 < point.0) }
    {
        self.journal.rises(point)
    }

    /// Takes an update of a data block of this slab. Its point is above those of all updates before.
    pub fn take(&mut self, update: &Update)
        requires place { IsOfSlab self.old.journal update.now.at }
        requires rises { self.old.journal.last.0 < update.now.point.0 }
        requires room { length self.old.journal.filling < 320 }
        ensures { self.new ≡ taken self.old update.now }
    {
        let offset = update.at.0 - self.layout.data_block(self.slab, 0).0;
        self.journal.add(update).unwrap();
        self.blocks.update(offset, update.point);
    }

    /// The least point of the updates that aren't durable; `None` exactly where each is.
    pub fn low_point(&self) -> Option<Point>
        ensures some { IfSome result (IsLowPoint self.now.journal) }
        ensures none { IfNone result (NoneUnsettled self.now.journal) }
    {
        self.journal.low_point()
    }

    // Where the slot can't be overwritten it asks for a reference block also while a sealed block is being written: the
    // sooner one is durable, the sooner the slot is free.
    /// Hands out a block that the need is for, if there is one that isn't being written: the journal block, or where its
    /// slot can't be overwritten the reference block that was dirtied first, with the slab's counters as they are now.
    pub fn due(&mut self, need: Need, counters: &[u8], into: &mut Block) -> Option<SlabWork>
        ensures some { IfSome result (IsDue need self.old self.new counters.now into.new) }
        ensures none { IfNone result (NoneDue need self.old) }
        ensures same { IfNone result (self.new ≡ self.old) }
    {
        match self.wanted(need)? {
            SlabPart::Journal => self.write_journal(into),
            SlabPart::References => self.write_reference(counters, into),
        }
    }

    /// Whether the block of this work was handed out, and that isn't reported yet.
    pub fn is_out(&self, work: SlabWork) -> bool
        ensures { IsTrue result ↔ IsOut self.now work }
    {
        match work.part {
            SlabPart::Journal => self.journal.is_writing(work.number),
            SlabPart::References => self.blocks.is_being_written(work.number),
        }
    }

    /// The write of a block that was handed out is durable: a flush covers it.
    pub fn durable(&mut self, work: SlabWork)
        requires { IsOut self.old work }
        ensures { Settles self.old self.new work }
    {
        match work.part {
            SlabPart::Journal => self.journal.durable(work.number),
            SlabPart::References => self.settle_reference(work.number),
        }
    }

    // Which part of the slab is wanted.
    fn wanted(&self, need: Need) -> Option<SlabPart>
        ensures some { IfSome result (λ part. Wants part need self.now.journal) }
        ensures none { IfNone result
            ((¬ Wants Journal need self.now.journal) × (¬ Wants References need self.now.journal)) }
    {
        if !self.wants_journal(need) {
            match need {
                Need::All => Some(SlabPart::References),
                Need::Full | Need::Head => None,
            }
        } else if self.journal.may_overwrite() {
            Some(SlabPart::Journal)
        } else {
            Some(SlabPart::References)
        }
    }

    // Whether the journal block that is being filled is wanted.
    fn wants_journal(&self, need: Need) -> bool
        ensures { IsTrue result ↔ WantsJournal need self.now.journal }
    {
        match need {
            Need::Full => self.journal.waiting() == UPDATES_PER_BLOCK,
            Need::Head => self.journal.waiting() > 0,
            Need::All => false,
        }
    }

    // Hands out the journal block that is being filled, unless a sealed one is being written.
    fn write_journal(&mut self, into: &mut Block) -> Option<SlabWork>
        requires waits { 0 < length self.old.journal.filling }
        requires covered { MayOverwrite self.old.journal }
        ensures some { IfSome result (WritesJournal self.old self.new into.new) }
        ensures none { IfNone result (IsWriting self.old.journal) }
        ensures same { IfNone result (self.new ≡ self.old) }
    {
        let block = self.journal.seal()?;
        encode_slab(&block, into);
        Some(SlabWork {
            at: self.layout.slab_journal_slot(self.slab, block.sequence),
            slab: self.slab,
            part: SlabPart::Journal,
            number: block.sequence,
        })
    }

    // Hands out the reference block that was dirtied first.
    fn write_reference(&mut self, counters: &[u8], into: &mut Block) -> Option<SlabWork>
        ensures some { IfSome result (WritesReference self.old self.new counters.now into.new) }
        ensures none { IfNone result (NoneDirty self.old.blocks) }
        ensures same { IfNone result (self.new ≡ self.old) }
    {
        let block = self.blocks.take_first(counters, into)?;
        Some(SlabWork {
            at: self.layout.reference_block(self.slab, block),
            slab: self.slab,
            part: SlabPart::References,
            number: u64::from(block),
        })
    }

    // The write of a reference block is durable, and with it the commit points that it was handed out with.
    fn settle_reference(&mut self, block: u64)
        requires { IsBeingWritten (dirty_points_at self.old.blocks.blocks block) }
        ensures { SettlesReference self.old self.new block }
    {
        let sectors = self.layout.sectors_per_slab();
        let block = block as u32;
        let first = 8 * block;
        raise_commits(
            &mut self.journal,
            &self.blocks,
            first,
            (first + 8).min(sectors),
        );
        self.blocks.written(block);
    }
}
