use blk_base::Lba;

/// The lock of an address, with the place that its holder drew.
#[derive(Clone, Copy, PartialEq, Eq)]
pub struct Lock {
    pub at: Lba,
    pub place: u64,
}
