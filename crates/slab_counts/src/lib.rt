//! The reference counters of a slab's data blocks, and the claims on them.
//!
//! A counter is the number of mappings of a block, by the updates that were taken. Whoever will map a block has a claim on
//! it until then, so that nobody else takes it for a new one:
//!
//! | What happens | Counter | Claims |
//! |---|---|---|
//! | a free block is claimed, or one that is mapped | | + 1 |
//! | a claim is extended to one more | | + 1 |
//! | a claim is dropped | | - 1 |
//! | a claim is spent: its increment will come | | |
//! | an increment is taken | + 1 | - 1 |
//! | a decrement is taken | - 1 | |
//!
//! A block is free where both are 0. Together they are never above the limit of the image.
//!
//! All room is taken in the constructor: no later call can be refused for memory.
//!
//! Only tested: three refusals and a block's whole life.
#![tactic(auto)]

mod claim;
mod counts;
mod laws;
mod opening_counts;
mod refusals;
mod tickets;

pub use claim::Claim;
pub use counts::SlabCounts;
pub use laws::{
    calls_have_one_answer, claims_are_those_that_exist, counters_have_the_updates,
    counts_stay_within,
};
pub use refusals::{Refusal, Stray};
pub use tickets::{Receipt, Ticket};
