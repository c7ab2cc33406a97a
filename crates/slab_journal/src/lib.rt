//! A slab's journal as it is filled, sealed and written again.
//!
//! Updates of reference counts fill one block after the other, in a ring of K blocks. A block is written again only once
//! the counters on the device include each update that stands there: each is at or below the durable commit point of its
//! sector of counters. So an update above that point is in a block that isn't overwritten, or in the one being filled.
//!
//! All room is taken in the constructor: no later call can be refused for memory.
//!
//! Only tested: a slot that waits for both of its sectors; a block of 320 updates.
#![tactic(auto)]

mod coverage;
mod entries;
mod forms;
mod journal;
mod laws;

pub use entries::UPDATES_PER_BLOCK;
pub use forms::Full;
pub use journal::SlabJournal;
pub use laws::a_sealed_block_takes_one_slot;
