ghost use Rattle.std.specs.Prelude.{◌≡◌, ◌<◌, ◌≤◌, ◌+◌, ◌*◌, ◌/◌, ◌%◌, ◌↔◌, ℕ, IsTrue, IfSome, IfNone};
ghost use Rattle.blk_base.specs.Limits.{IsGeometry};
ghost use Rattle.blk_base.specs.Counters.{limit_of, counters_per_sector, sectors_per_slab, sector_of_offset};
ghost use Rattle.blk_base.specs.Regions.{Place, IsPlace, IsDataBlock, block_of, slab_slot_of, journal_block_of, needed_blocks, references_of, slab_stride_of, first_index_of, first_slab_of, slab_start_of};
ghost use Rattle.blk_base.specs.Regions.{Root, IndexBlock, DataBlock, ReferenceBlock, SlabJournalSlot};
ghost use Rattle.blk_base.specs.declared.geometry.Geometry.{Geometry};

use crate::sizes::{COUNT_LIMIT, SECTOR_COUNTERS, TREES};
use crate::{Geometry, Pbn};

/// How many sectors a block has.
const SECTORS: u32 = 8;

/// A data block by its slab and its place there.
#[derive(Clone, Copy, Debug, PartialEq, Eq)]
pub struct DataPlace {
    /// Below the number of slabs.
    pub slab: u32,
    /// Below the number of data blocks of a slab.
    pub offset: u32,
}

/// Where the counter of a data block stands: a reference block of its slab, a sector there, and a counter of it.
#[derive(Clone, Copy, Debug, PartialEq, Eq)]
pub struct CounterPlace {
    /// Below the number of reference blocks of a slab.
    pub block: u32,
    /// 0 to 7.
    pub sector: u16,
    /// Below the number of counters of a sector.
    pub counter: u16,
}

/// Where the parts of an image stand: the superblock, the recovery journal, the 60 roots of the block map, the index,
/// and then for each slab its data blocks, its reference blocks and its journal (docs/DESIGN.md, "Layout").
#[derive(Clone, Copy, Debug, PartialEq, Eq)]
pub struct Layout {
    pub geometry: Geometry,
    ghost sizes: { IsGeometry geometry },
}

impl Layout {
    /// The layout of an image of these sizes, which are within their limits.
    pub fn of(geometry: &Geometry) -> Layout
        requires { IsGeometry geometry.now }
        ensures { result.geometry ≡ geometry.now }
    {
        Layout {
            geometry: *geometry,
        }
    }

    /// How many blocks the image takes.
    pub fn needed(&self) -> u32
        ensures { result ≡ needed_blocks self.now.geometry }
    {
        self.first_slab() + self.geometry.slabs * self.slab_stride()
    }

    /// The block of the recovery journal for a sequence: its slot is the sequence modulo the blocks of the journal.
    pub fn journal_slot(&self, sequence: u64) -> Pbn
        ensures block { result.0 ≡ journal_block_of self.now.geometry sequence }
        ensures inside { result.0 < needed_blocks self.now.geometry }
    {
        let slot = sequence % u64::from(self.geometry.journal);
        Pbn(1 + slot as u32)
    }

    /// The root page of a tree, 0 to 59.
    pub fn root(&self, tree: u8) -> Pbn
        requires { IsPlace self.now.geometry (Root tree) }
        ensures block { result.0 ≡ block_of self.now.geometry (Root tree) }
        ensures inside { result.0 < needed_blocks self.now.geometry }
    {
        Pbn(1 + self.geometry.journal + u32::from(tree))
    }

    /// A block of the index, by its number from 0.
    pub fn index_block(&self, i: u32) -> Pbn
        requires { IsPlace self.now.geometry (IndexBlock i) }
        ensures block { result.0 ≡ block_of self.now.geometry (IndexBlock i) }
        ensures inside { result.0 < needed_blocks self.now.geometry }
    {
        Pbn(self.first_index() + i)
    }

    /// A data block of a slab, by its offset there from 0.
    pub fn data_block(&self, slab: u32, offset: u32) -> Pbn
        requires { IsPlace self.now.geometry (DataBlock slab offset) }
        ensures block { result.0 ≡ block_of self.now.geometry (DataBlock slab offset) }
        ensures inside { result.0 < needed_blocks self.now.geometry }
    {
        Pbn(self.slab_start(slab) + offset)
    }

    /// A reference block of a slab, by its number there from 0.
    pub fn reference_block(&self, slab: u32, i: u32) -> Pbn
        requires { IsPlace self.now.geometry (ReferenceBlock slab i) }
        ensures block { result.0 ≡ block_of self.now.geometry (ReferenceBlock slab i) }
        ensures inside { result.0 < needed_blocks self.now.geometry }
    {
        Pbn(self.slab_start(slab) + self.geometry.slab_blocks + i)
    }

    /// The block of a slab's journal for a sequence: its slot is the sequence modulo the blocks of that journal. The slab
    /// is below the number of slabs.
    pub fn slab_journal_slot(&self, slab: u32, sequence: u64) -> Pbn
        requires { slab < self.now.geometry.slabs }
        ensures block { result.0
            ≡ block_of self.now.geometry
            (SlabJournalSlot slab (slab_slot_of self.now.geometry sequence)) }
        ensures inside { result.0 < needed_blocks self.now.geometry }
    {
        let slot = sequence % u64::from(self.geometry.slab_journal);
        Pbn(self.slab_start(slab) + self.geometry.slab_blocks + self.references() + slot as u32)
    }

    /// The data block that stands at a block of the device; `None` where none does.
    pub fn place(&self, at: Pbn) -> Option<DataPlace>
        ensures some { IfSome result (λ p. IsPlace self.now.geometry (DataBlock p.slab p.offset)
            × (block_of self.now.geometry (DataBlock p.slab p.offset) ≡ at.0)) }
        ensures none { IfNone result (IsDataBlock self.now.geometry at.0 → ⊥) }
    {
        let first = self.first_slab();
        if at.0 < first || self.needed() <= at.0 {
            return None;
        }
        let behind = at.0 - first;
        let stride = self.slab_stride();
        let offset = behind % stride;
        if offset < self.geometry.slab_blocks {
            Some(DataPlace {
                slab: behind / stride,
                offset,
            })
        } else {
            None
        }
    }

    /// Whether a data block of the image stands at a block of the device.
    pub fn is_data_block(&self, at: Pbn) -> bool
        ensures { IsTrue result ↔ IsDataBlock self.now.geometry at.0 }
    {
        self.place(at).is_some()
    }

    /// The greatest count of a data block, with the claims on it.
    pub fn limit(&self) -> u16
        ensures { result ≡ limit_of self.now.geometry }
    {
        COUNT_LIMIT
    }

    /// How many reference counters a sector has.
    pub fn counters_per_sector(&self) -> u32
        ensures { result ≡ counters_per_sector self.now.geometry }
    {
        SECTOR_COUNTERS as u32
    }

    /// How many sectors have the counters of a slab.
    pub fn sectors_per_slab(&self) -> u32
        ensures { result ≡ sectors_per_slab self.now.geometry }
    {
        self.geometry
            .slab_blocks
            .div_ceil(self.counters_per_sector())
    }

    /// Which of its slab's sectors has the counter of the data block with this offset.
    pub fn sector_of_offset(&self, offset: u32) -> u32
        ensures { result ≡ sector_of_offset self.now.geometry offset }
    {
        offset / self.counters_per_sector()
    }

    /// Where the counter of the data block with this offset in its slab stands.
    pub fn counter_place(&self, offset: u32) -> CounterPlace
        ensures sector { result.block * 8 + result.sector
            ≡ sector_of_offset self.now.geometry offset }
        ensures counter { offset
            ≡ (result.block * 8 + result.sector) * counters_per_sector self.now.geometry
            + result.counter }
        ensures within { (result.sector < 8)
            × (result.counter < counters_per_sector self.now.geometry) }
    {
        let sector = self.sector_of_offset(offset);
        CounterPlace {
            block: sector / SECTORS,
            sector: (sector % SECTORS) as u16,
            counter: (offset % self.counters_per_sector()) as u16,
        }
    }

    /// How many data blocks the image has.
    pub fn data_blocks(&self) -> u32
        ensures { result ≡ self.now.geometry.slabs * self.now.geometry.slab_blocks }
    {
        self.geometry.slabs * self.geometry.slab_blocks
    }

    /// The number of a data block among those of the image, slab after slab.
    pub fn block_number(&self, slab: u32, offset: u32) -> u32
        requires { IsPlace self.now.geometry (DataBlock slab offset) }
        ensures number { result ≡ slab * self.now.geometry.slab_blocks + offset }
        ensures inside { result < self.now.geometry.slabs * self.now.geometry.slab_blocks }
    {
        slab * self.geometry.slab_blocks + offset
    }

    /// The data block with this number.
    pub fn numbered_block(&self, number: u32) -> Pbn
        requires { number < self.now.geometry.slabs * self.now.geometry.slab_blocks }
        ensures block { result.0 ≡ block_of self.now.geometry
            (DataBlock (number / self.now.geometry.slab_blocks)
            (number % self.now.geometry.slab_blocks)) }
        ensures inside { result.0 < needed_blocks self.now.geometry }
    {
        let slab_blocks = self.geometry.slab_blocks;
        self.data_block(number / slab_blocks, number % slab_blocks)
    }

    /// The number of a sector of counters among those of the image, slab after slab; `sector` is its number in its slab.
    pub fn sector_number(&self, slab: u32, sector: u32) -> u32
        requires slab { slab < self.now.geometry.slabs }
        requires sector { sector < sectors_per_slab self.now.geometry }
        ensures number { result ≡ slab * sectors_per_slab self.now.geometry + sector }
        ensures inside { result < self.now.geometry.slabs * sectors_per_slab self.now.geometry }
    {
        slab * self.sectors_per_slab() + sector
    }

    /// How many reference blocks a slab has.
    pub fn references(&self) -> u32
        ensures { result ≡ references_of self.now.geometry }
    {
        self.geometry
            .slab_blocks
            .div_ceil(SECTORS * self.counters_per_sector())
    }

    // Blocks of a slab: data, reference counts, journal.
    fn slab_stride(&self) -> u32
        ensures stride { result ≡ slab_stride_of self.now.geometry }
        ensures small { result ≤ 32841 }
        ensures some { 0 < result }
    {
        self.geometry.slab_blocks + self.references() + self.geometry.slab_journal
    }

    // The first block of the index.
    fn first_index(&self) -> u32
        ensures first { result ≡ first_index_of self.now.geometry }
        ensures small { result ≤ 1085 }
    {
        1 + u32::from(TREES) + self.geometry.journal
    }

    // The first block of the first slab.
    fn first_slab(&self) -> u32
        ensures first { result ≡ first_slab_of self.now.geometry }
        ensures small { result ≤ 2109 }
    {
        self.first_index() + self.geometry.index
    }

    // The first block of a slab.
    fn slab_start(&self, slab: u32) -> u32
        requires { slab < self.now.geometry.slabs }
        ensures start { result ≡ slab_start_of self.now.geometry slab }
        ensures inside { result + slab_stride_of self.now.geometry
            ≤ needed_blocks self.now.geometry }
        ensures small { result ≤ 33631293 }
    {
        self.first_slab() + slab * self.slab_stride()
    }
}

/// The regions don't overlap, and end at the needed size: each block of an image is one place in one region.
pub fn regions_are_apart()
    ensures apart { (g : Geometry) (p q : Place) → IsPlace g p → IsPlace g q →
        block_of g p ≡ block_of g q → p ≡ q }
    ensures inside { (g : Geometry) (p : Place) → IsPlace g p → block_of g p < needed_blocks g }
    ensures filled { (g : Geometry) (b : ℕ) → b < needed_blocks g →
        (p : Place) × IsPlace g p × (block_of g p ≡ b) }
{}
