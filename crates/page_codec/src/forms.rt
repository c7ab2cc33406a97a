use blk_base::{Geometry, Mappings, PageId, Pbn};

/// Which page it is: of an image of these sizes, with this place in the block map, at this block.
#[derive(Clone, Copy, Debug, PartialEq, Eq)]
pub struct PageHead {
    pub geometry: Geometry,
    pub page: PageId,
    pub at: Pbn,
}

/// A page of the block map: which one it is, and what its slots say.
#[derive(Drop)]
pub struct MapPage {
    pub head: PageHead,
    pub mappings: Mappings,
}
