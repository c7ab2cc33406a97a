//! The reference blocks of a slab: what each of their sectors is to say, and which of them is written next.
//!
//! A sector has the counters of some of the slab's data blocks, and a commit point: its counters have exactly the updates
//! that aren't above that point. An update of a block makes the reference block with its counter dirty. The block that was
//! dirtied first is handed out first; while it is being written, it isn't handed out again, and what it said is kept.
//!
//! All room is taken in the constructor: no later call can be refused for memory.
//!
//! Only tested: of two dirty blocks the one that was dirtied first.
#![tactic(auto)]

mod blocks;
mod image;
mod laws;

pub use blocks::ReferenceBlocks;
pub use laws::{a_block_has_its_updates, commit_points_are_of_updates};
