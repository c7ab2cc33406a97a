//! The slabs of one physical zone: their counters and claims, and the tickets of those who found no free block.
//!
//! Slab n of the image belongs to the zone n mod P, of P physical zones. A request that asks gets the zone's lowest free block,
//! or a ticket where none is free. A block that becomes free goes to the oldest ticket without one.
//!
//! All room is taken in the constructor: no later call can be refused for memory.
//!
//! Only tested: as part of `slab_zone`.
#![tactic(auto)]

mod forms;
mod laws;
mod opened_slabs;
mod places;
mod search;
mod used;
mod zone;

pub use forms::Asked;
pub use laws::{
    a_block_has_one_home, a_call_has_one_result, a_claim_is_of_its_zone,
    a_ticket_waits_where_no_block_is_free, a_zone_keeps_its_tickets,
    an_opened_zone_has_the_opened_counters, calls_move_claims_and_counters,
    counts_of_a_block_are_within_the_limit, each_call_has_a_result, every_receipt_is_right,
    what_a_zone_gives_was_free, what_is_served_is_what_became_free, zones_stay_settled,
};
pub use slab_tickets::Withdrawn;
pub use zone::ZoneCounts;
