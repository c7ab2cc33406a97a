/// What a forced rebuild counted.
#[derive(Clone, Copy, Debug, PartialEq, Eq)]
pub struct Forced {
    /// How many data blocks are mapped, or have a page of the block map.
    pub used: u32,
    /// How many data blocks there are.
    pub total: u32,
}
