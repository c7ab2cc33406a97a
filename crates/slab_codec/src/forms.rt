use blk_base::{Point, SECTOR_COUNTERS};
use sector_records::Records;

/// A sector of reference counters: each has all updates of its block up to the commit point, and no later one.
#[derive(Clone, Copy, Debug, PartialEq, Eq)]
pub struct ReferenceSector {
    pub commit: Point,
    pub counters: [u8; SECTOR_COUNTERS],
}

/// A block of reference counters.
#[derive(Clone, Copy, Debug, PartialEq, Eq)]
pub struct ReferenceBlock {
    pub sectors: [ReferenceSector; 8],
}

/// An update of a counter: the half of a journal entry that it comes from, and the data block's offset in its slab.
#[derive(Clone, Copy, Debug, Default, PartialEq, Eq)]
pub struct SlabEntry {
    pub point: Point,
    pub offset: u16,
}

/// At most `N` entries of a slab's journal.
pub type SlabEntries<const N: usize> = Records<SlabEntry, N>;

/// What a valid sector of a slab's journal says. It has at most 40 entries.
#[derive(Drop)]
pub struct SlabSector {
    pub sequence: u64,
    pub entries: SlabEntries<40>,
}

/// A block of a slab's journal, as it is to be written: the image's nonce, the block's sequence, the slab, and its
/// entries.
#[derive(Drop)]
pub struct SlabJournalBlock {
    pub nonce: u64,
    pub sequence: u64,
    pub slab: u32,
    pub entries: SlabEntries<320>,
}
