use slab_counts::{Claim, Ticket};

/// What a zone answers to one who asks for a block.
#[derive(Drop)]
pub enum Asked {
    /// A claim on its lowest free block.
    Block(Claim),
    /// No block is free.
    Ticket(Ticket),
}
