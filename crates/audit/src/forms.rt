use blk_base::Pbn;
use replay_counts::RecoveredCounts;
use replay_map::RecoveredMap;

// The number of mappings has 64 bits, since slots past the logical size count too.
/// A data block whose stored count isn't the number of its mappings.
#[derive(Clone, Copy, Debug, PartialEq, Eq)]
pub struct Difference {
    pub at: Pbn,
    /// The stored count, 0 to 254.
    pub stored: u32,
    /// How many addresses are mapped to it, those past the logical size too, and one more where it has a linked page.
    pub mapped: u64,
}

/// What an audit of an image finds.
#[derive(Drop)]
pub struct Report {
    /// The blocks that differ, in rising order.
    pub differs: Vec<Difference>,
    /// How many data blocks have a stored count above 0.
    pub used: u32,
    /// How many data blocks there are.
    pub total: u32,
}

/// The map and the counts of an image, as its pages, its counters and its journals say them with its window.
#[derive(Drop)]
pub struct Contents {
    /// Its linked pages, and each block to which an address is mapped.
    pub map: RecoveredMap,
    /// The stored count of each data block, and what each sector of counters is to have.
    pub counts: RecoveredCounts,
}
