use crate::{Mappings, PageId, Pbn, Point, Super};

/// A page of an image's block map that is no leaf: which one, its block, and what its slots lead to.
#[derive(Drop)]
pub struct OpenedPage {
    pub page: PageId,
    pub at: Pbn,
    pub mappings: Mappings,
}

// Its counters are bytes, since no count is above 254: the stored counts, with what slab journals still had above a
// commit point.
/// What a session starts with: all that it keeps in memory of an image.
#[derive(Drop)]
pub struct Opened {
    pub head: Super,
    /// The pages of the block map that are no leaves: the 60 roots and each linked one, once and at its block.
    pub pages: Vec<OpenedPage>,
    /// The reference counter of each data block, in the order of their blocks.
    pub counters: Vec<u8>,
    /// For each sector of a reference block the point up to which its counters have the journal's updates.
    pub commits: Vec<Point>,
    /// The data blocks that have pages of the block map, leaves too.
    pub tree_pages: Vec<Pbn>,
}
