//! The slabs of one physical zone: their counters and claims, the tickets of those who found no free block, and what of each
//! slab is to be written.
//!
//! Slab n of the image belongs to the zone n mod P, of P physical zones. A request that asks gets the zone's lowest free block,
//! or a ticket where none is free. A block that becomes free goes to the oldest ticket without one. An update that is taken
//! counts at once. It waits in the journal of its slab, and makes the reference block with its counter dirty; it is durable
//! once one of the two is.
//!
//! All room is taken in the constructor: no later call can be refused for memory.
//!
//! `due` looks through the slabs from the first one on, `low_point` and `used` through all: none of them keeps more
//! than the slabs do. That the opening commit points are below the updates is a premise of the laws, and no condition
//! of a call.
//!
//! Only tested: a block that goes to the older of two tickets, an update that is written twice, refusals.
#![tactic(auto)]

mod due_writes;
mod laws;
mod opened_zone;
mod zone;

pub use laws::{
    a_block_is_out_until_it_is_reported, a_commit_point_is_of_a_reported_block,
    a_journal_block_has_updates_taken_here, a_reference_block_has_its_updates,
    due_takes_the_first_slab, every_receipt_is_right, every_update_below_the_low_point_is_durable,
    written_blocks_are_calls, zones_stay_settled,
};
pub use slab_tickets::Withdrawn;
pub use slab_writes::{Need, SlabPart, SlabWork};
pub use zone::SlabZone;
pub use zone_counts::{Asked, a_claim_is_of_its_zone};
