use crate::Slots;
use blk_base::{Geometry, Pbn};

/// Which slots lead to an address: of which tree, and from its root down. The last one is the slot in the leaf.
#[derive(Drop)]
pub struct Path {
    /// 0 to 59.
    pub tree: u8,
    /// As many as the tree has levels, each 0 to 811.
    pub slots: Slots,
}

/// What a path leads to.
#[derive(Clone, Copy, Debug, PartialEq, Eq)]
pub enum Found {
    /// The leaf, at this block.
    Leaf(Pbn),
    /// The highest page that isn't there, which has this level.
    Missing(u8),
}

/// Which trees of an image a zone has: each one whose number leaves that of the zone by the number of zones.
#[derive(Clone, Copy, Debug, PartialEq, Eq)]
pub struct Forest {
    pub geometry: Geometry,
    /// Below the number of zones.
    pub zone: u32,
    /// 1 to 60.
    pub zones: u32,
}
