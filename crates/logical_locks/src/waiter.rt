use blk_base::Lba;

/// Who waits for an address, with the place that it drew.
#[derive(Drop)]
pub struct Waiter<V> {
    pub at: Lba,
    pub place: u64,
    pub vio: V,
}
