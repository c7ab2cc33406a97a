use blk_base::{Pbn, Point, Update};

/// What is counted from.
#[derive(Drop)]
pub struct Found {
    /// The counter of each data block, slab after slab.
    pub counters: Vec<u8>,
    /// The commit point of each sector that has counters, slab after slab.
    pub commits: Vec<Point>,
    /// The updates of data blocks that may not be in their counters yet.
    pub updates: Vec<Update>,
}

/// Why there are no counts.
#[derive(Clone, Copy, PartialEq, Eq)]
pub enum CountFault {
    /// The count of this data block leaves 0 to 254 at this point: the least such block.
    Counter { at: Pbn, point: Point },
    /// There is no memory for the counts.
    Memory,
}
