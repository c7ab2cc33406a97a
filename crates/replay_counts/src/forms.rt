use blk_base::Point;

/// The points of a sector of reference counters: its commit point, and the greatest one that was applied to it, or its
/// commit point again where there is none.
#[derive(Clone, Copy, PartialEq, Eq)]
pub struct SectorPoints {
    pub commit: Point,
    pub applied: Point,
}

/// What the counters of an image and its journals say together.
#[derive(Drop)]
pub struct RecoveredCounts {
    /// The stored count of each data block, slab after slab.
    pub counts: Vec<u16>,
    /// The points of each sector that has counters, slab after slab.
    pub sectors: Vec<SectorPoints>,
}
