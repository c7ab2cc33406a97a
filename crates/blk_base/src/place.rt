/// An address of the logical device, in blocks.
#[derive(Clone, Copy, Debug, PartialEq, Eq, PartialOrd, Ord, Hash)]
pub struct Lba(pub u32);

/// The number of a block on the device.
#[derive(Clone, Copy, Debug, PartialEq, Eq, PartialOrd, Ord, Hash)]
pub struct Pbn(pub u32);

/// Where the data of an address is.
#[derive(Clone, Copy, Debug, PartialEq, Eq)]
pub enum Mapping {
    /// Nothing was written there, or it was discarded.
    Unmapped,
    /// A block of zeros, which takes no data block.
    Zero,
    /// A data block of a slab.
    At(Pbn),
}

/// A page of the block map: its tree (0 to 59), its level (0 is a leaf), and its number on that level of the tree.
#[derive(Clone, Copy, Debug, PartialEq, Eq, PartialOrd, Ord, Hash)]
pub struct PageId {
    pub tree: u8,
    pub level: u8,
    pub index: u32,
}

/// A zone: the division of the structures by which requests are queued.
#[derive(Clone, Copy, Debug, PartialEq, Eq)]
pub enum ZoneId {
    Desk,
    Logical(u32),
    Physical(u32),
    Hash(u32),
    Journal,
    Index,
    Device,
}
