/// The sizes of an image that has grown.
#[derive(Clone, Copy, Debug, PartialEq, Eq)]
pub struct Grown {
    /// How many blocks the image takes.
    pub blocks: u32,
    /// How many slabs it has: 1 to 1,024.
    pub slabs: u32,
    /// The data blocks of a slab.
    pub slab_blocks: u32,
    /// How many addresses it has, in blocks.
    pub logical: u32,
}
