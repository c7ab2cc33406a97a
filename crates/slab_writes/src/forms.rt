use blk_base::Pbn;

/// What there is to be written for.
#[derive(Clone, Copy, Debug, PartialEq, Eq)]
pub enum Need {
    /// The journal block that is full.
    Full,
    /// Each update that waits: the recovery journal needs its head to go on.
    Head,
    /// Each reference block that is dirty, and no journal block: the session ends.
    All,
}

/// A part of a slab behind its data blocks.
#[derive(Clone, Copy, Debug, PartialEq, Eq)]
pub enum SlabPart {
    Journal,
    References,
}

/// A block of a slab that is being written.
#[derive(Clone, Copy, Debug, PartialEq, Eq)]
pub struct SlabWork {
    /// Where it is written.
    pub at: Pbn,
    /// The number of the slab in the image.
    pub slab: u32,
    pub part: SlabPart,
    /// The sequence of a journal block, or the number of a reference block in the slab.
    pub number: u64,
}
