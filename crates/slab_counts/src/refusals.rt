/// Why a data block can't be shared.
#[derive(Clone, Copy, Debug, PartialEq, Eq)]
pub enum Refusal {
    /// Nothing is mapped to it.
    NotLive,
    /// The counter and the claims are together at the limit of the image.
    Full,
    /// It has a page of the block map, or is no data block of this slab.
    NotData,
}

/// An update that doesn't fit the counter, which has this value: a decrement of 0, or an increment at the limit or with no
/// claim.
#[derive(Clone, Copy, Debug, PartialEq, Eq)]
pub struct Stray {
    pub count: u16,
}
