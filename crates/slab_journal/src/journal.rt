ghost use Rattle.std.specs.Prelude.{◌≡◌, ◌+◌, ◌<◌, ◌≤◌, ◌^◌, ◌↔◌, ◌∷◌, ◌++◌, [], ◌⊎◌, length, IsTrue, IfOk, IfSome, IfNone, OnOk, OnErr};
ghost use Rattle.blk_base.specs.Limits.{IsGeometry};
ghost use Rattle.blk_base.specs.Points.{raised};
ghost use Rattle.slab_codec.specs.Grammar.{HoldsBlock};
ghost use Rattle.slab_journal.specs.Slab.{opening, entry_of, IsOfSlab, IsFirst, MayOverwrite, IsWriting, Keeps, Seals};
ghost use Rattle.slab_journal.specs.Unsettled.{IsLowPoint, NoneUnsettled};

use crate::Full;
use crate::coverage::{are_covered, first_uncovered};
use crate::entries::{Updates, copy_of, slab_entry};
use blk_base::{Geometry, Layout, Point, Update, raise, repeated, repeated_with};
use slab_codec::{SlabEntries, SlabJournalBlock};
use std::alloc::{AllocError, Global};
use std::marker::Model;
use std::mem::replace;

/// The first point that a journal gives: sequences begin at 1.
const FIRST_POINT: u64 = 512;

/// The journal of a slab in a session.
#[derive(Drop)]
pub struct SlabJournal {
    layout: Layout,
    slab: u32,
    // The sequence of the block being filled, and its updates.
    sequence: u64,
    filling: Updates,
    // The point of the last update that was taken.
    last: Point,
    // For each slot of the ring, the updates of the block that stands there.
    slots: Vec<Updates>,
    // The blocks below this sequence are durable.
    durable: u64,
    // For each sector of counters, its durable commit point.
    commits: Vec<Point>,
}

impl Model for SlabJournal {
    ghost use Rattle.slab_journal.specs.Slab.{Slab};

    ghost Value = { Slab };

    ghost use Rattle.slab_journal.specs.Kept.{IsKept};
    ghost use Rattle.slab_journal.specs.Viewed.{log_of};

    ghost view = { log_of };

    ghost invariant = { λ j. IsKept (log_of j) };
}

impl SlabJournal {
    // It knows the commit points of its session: they start at 0, and a lower one changes nothing.
    /// The empty journal of a slab below the number of slabs, whose first block has sequence 1. Takes the room for the
    /// updates of a full ring and of the block being filled.
    pub fn new(alloc: Global, geometry: &Geometry, slab: u32) -> Result<SlabJournal, AllocError>
        requires geometry { IsGeometry geometry.now }
        requires slab { slab < geometry.now.slabs }
        ensures { IfOk result (λ journal. journal ≡ opening geometry.now slab) }
    {
        let layout = Layout::of(geometry);
        Ok(SlabJournal {
            layout,
            slab,
            sequence: 1,
            filling: SlabEntries::new(),
            last: Point(FIRST_POINT - 1),
            slots: repeated_with(alloc, SlabEntries::new, geometry.slab_journal as usize)?,
            durable: 1,
            commits: repeated(alloc, Point(0), layout.sectors_per_slab() as usize)?,
        })
    }

    /// Adds an update of a data block of this slab to the block being filled. Its point is above those of all updates
    /// before, and of a block with a sequence of at least 1. It is refused exactly where the block being filled has 320.
    pub fn add(&mut self, update: &Update) -> Result<(), Full>
        requires place { IsOfSlab self.old update.now.at }
        requires rises { self.old.last.0 < update.now.point.0 }
        ensures added { OnOk result
            (self.new
            ≡ record self.old {
              filling = self.old.filling ++ entry_of self.old update.now
                  ∷ [];
              last = update.now.point;
            }) }
        ensures fewer { OnOk result (length self.old.filling < 320) }
        ensures full { OnErr result ((length self.old.filling ≡ 320) × (self.new ≡ self.old)) }
        ensures kept { Keeps self.old self.new }
    {
        if self.filling.is_full() {
            return Err(Full);
        }
        let entry = slab_entry(
            update.point.0,
            update.at.0 - self.layout.data_block(self.slab, 0).0,
        );
        self.filling.push(entry);
        self.last = update.point;
        Ok(())
    }

    /// Whether the point is above those of all updates that were taken.
    pub fn rises(&self, point: Point) -> bool
        ensures { IsTrue result ↔ (self.now.last.0 < point.0) }
    {
        self.last.0 < point.0
    }

    /// How many updates wait in the block being filled. It takes no more once these are 320.
    pub fn waiting(&self) -> usize
        ensures value { result ≡ length self.now.filling }
        ensures most { result ≤ 320 }
    {
        self.filling.len()
    }

    /// The least point of the updates in the block being filled, that of its first; `None` exactly where it has none.
    pub fn first_point(&self) -> Option<Point>
        ensures some { IfSome result (IsFirst self.now.filling) }
        ensures none { IfNone result (self.now.filling ≡ []) }
    {
        self.filling.as_slice().first().map(|entry| entry.point)
    }

    /// Seals the block being filled, to be written; the next one is filled from here on. `None` exactly where no update
    /// waits, a sealed block isn't durable yet, or its slot can't be overwritten.
    pub fn seal(&mut self) -> Option<SlabJournalBlock>
        ensures some { IfSome result (Seals self.old self.new) }
        ensures held { IfSome result (λ block.
            HoldsBlock self.old.geometry.slab_blocks block.sequence block.entries) }
        ensures none { IfNone result
            (((self.old.filling ≡ []) ⊎ (IsWriting self.old ⊎ (¬ MayOverwrite self.old)))
            × (self.new ≡ self.old)) }
        ensures kept { Keeps self.old self.new }
    {
        if self.filling.is_empty() || self.durable < self.sequence || !self.may_overwrite() {
            return None;
        }
        let sequence = self.sequence;
        let slot = (sequence % u64::from(self.layout.geometry.slab_journal)) as usize;
        let entries = copy_of(&self.filling);
        self.slots[slot] = replace(&mut self.filling, SlabEntries::new());
        self.sequence += 1;
        Some(SlabJournalBlock {
            nonce: self.layout.geometry.nonce,
            sequence,
            slab: self.slab,
            entries,
        })
    }

    /// Whether a sealed block with this sequence isn't durable yet.
    pub fn is_writing(&self, sequence: u64) -> bool
        ensures { IsTrue result ↔ (IsWriting self.now × (sequence ≡ self.now.durable)) }
    {
        self.durable < self.sequence && sequence == self.durable
    }

    /// The sealed block, which has this sequence, is durable.
    pub fn durable(&mut self, sequence: u64)
        requires sealed { IsWriting self.old }
        requires sequence { sequence ≡ self.old.durable }
        ensures durable { self.new ≡ record self.old { durable = sequence + 1 } }
        ensures kept { Keeps self.old self.new }
    {
        prove_eq!(sequence, self.durable);
        self.durable += 1;
    }

    /// Whether the slot of the block being filled may be overwritten: exactly where each update of the block that stands
    /// there is at or below the durable commit point of its sector.
    pub fn may_overwrite(&self) -> bool
        ensures { IsTrue result ↔ MayOverwrite self.now }
    {
        let slot = (self.sequence % u64::from(self.layout.geometry.slab_journal)) as usize;
        let block = &self.slots[slot];
        are_covered(&self.layout, block.as_slice(), &self.commits)
    }

    /// The sector of counters with this number in the slab, from 0, is durable with this commit point. A report that says
    /// less than an earlier one changes nothing.
    pub fn reference_durable(&mut self, sector: u32, point: Point)
        requires { sector < length self.old.commits }
        ensures commits { self.new
            ≡ record self.old { commits = raised self.old.commits sector point } }
        ensures kept { Keeps self.old self.new }
    {
        raise(&mut self.commits, sector as usize, point);
    }

    /// The least point of the updates that aren't durable: they are in a sealed block that isn't, or in the one being
    /// filled, and above the durable commit point of their sector. `None` exactly where each is durable. It looks through
    /// these two blocks up to the first such update, and no further.
    pub fn low_point(&self) -> Option<Point>
        ensures some { IfSome result (IsLowPoint self.now) }
        ensures none { IfNone result (NoneUnsettled self.now) }
    {
        if self.durable < self.sequence {
            let slot = (self.durable % u64::from(self.layout.geometry.slab_journal)) as usize;
            let sealed = self.slots[slot].as_slice();
            if let Some(point) = first_uncovered(&self.layout, sealed, &self.commits) {
                return Some(point);
            }
        }
        first_uncovered(&self.layout, self.filling.as_slice(), &self.commits)
    }
}
