//! What of a slab is to be written: the updates in its journal, and its counters.
//!
//! An update waits in the slab's journal, and makes the reference block with its counter dirty. A journal block is written
//! when it is full, or when the recovery journal needs its head to go on; where its slot can't be overwritten yet, the
//! reference block that was dirtied first is written in its place. An update is durable once one of the two is.
//!
//! All room is taken in the constructor: no later call can be refused for memory.
#![tactic(auto)]

mod commit_points;
mod forms;
mod laws;
mod writes;

pub use forms::{Need, SlabPart, SlabWork};
pub use laws::{
    a_block_is_due_or_none_is, a_block_is_out_once_it_is_handed_out,
    a_commit_point_is_of_a_reported_block, a_journal_block_has_updates_of_the_slab,
    a_reference_block_has_its_updates, commit_points_do_not_fall,
    every_update_below_the_low_point_is_durable,
};
pub use writes::SlabWrites;
