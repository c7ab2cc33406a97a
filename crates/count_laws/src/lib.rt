//! Counts of data blocks: what entries of the recovery journal that come in turn do to them, and that each image that a stop
//! leaves has them, as laws over definitions alone.
//!
//! `specs/Turns` says which entries may come behind others, and is the one place for it; `specs/Points` at which points they
//! update the count of a block. `specs/Counters` says what stands of the counters and of the slabs' journals, whatever a stop
//! leaves, and which of their blocks may be written.
//!
//! A sector of counters has a commit point that it reached: the opened one, or that of one of its own updates. Without
//! this a later one would pass that no update has, and newer entries would break it.
#![tactic(auto)]

mod counts;
mod turns;

pub use counts::{
    blocks_of_the_counts_may_be_written, counts_go_on_standing, counts_that_stand_are_true,
};
pub use turns::{
    entries_in_turn_change_counts, no_update_is_stray, points_are_those_of_the_updates,
};
