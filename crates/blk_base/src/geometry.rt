/// The sizes of an image. All but the nonce are numbers of blocks, but for `height` (the levels of a tree of the
/// block map) and `slabs`.
#[derive(Clone, Copy, Debug, PartialEq, Eq)]
pub struct Geometry {
    /// The logical size: 1 to 39,560,640 at height 2, 1 to 4,000,000,000 at height 3.
    pub logical: u32,
    /// 1 to 1,024.
    pub slabs: u32,
    /// The data blocks of a slab: 16 to 32,768.
    pub slab_blocks: u32,
    /// The blocks of the recovery journal: 8 to 1,024.
    pub journal: u32,
    /// The blocks of the deduplication index: 4 to 1,024, a multiple of 4.
    pub index: u32,
    /// The blocks of a slab's journal: 2 to 64.
    pub slab_journal: u32,
    /// 2 or 3.
    pub height: u32,
    /// Names the image in its journals and pages. Not 0.
    pub nonce: u64,
}

/// What a superblock says: the sizes, whether the last session was closed, and the first sequence of the next one.
#[derive(Clone, Copy, Debug, PartialEq, Eq)]
pub struct Super {
    pub geometry: Geometry,
    /// Whether all that the last session wrote is where it belongs, so that nothing is to be recovered.
    pub clean: bool,
    /// The sequence of the next session's first journal block, 1 to 2^54 − 1.
    pub start: u64,
}
