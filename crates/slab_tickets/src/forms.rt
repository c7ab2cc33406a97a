use blk_base::Writer;
use slab_counts::{Claim, Receipt};

/// A ticket that is out: the request that asked, and in which step of the zone, and the block that went to it.
#[derive(Drop)]
pub struct Waiting {
    pub number: u64,
    pub asked: u64,
    pub writer: Writer,
    pub block: Option<Claim>,
}

/// What a ticket is worth when it is withdrawn.
#[derive(Drop)]
pub enum Withdrawn {
    /// The block that went to it.
    Block(Claim),
    /// No block did.
    Nothing(Receipt),
}
