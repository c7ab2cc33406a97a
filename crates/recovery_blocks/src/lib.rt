//! The blocks that recovery writes, as bytes: a page of the block map with what the window puts into its slots, and a block
//! of reference counters with the stored counts. Both are made of the block that stands there, so that what they leave is
//! kept; neither can be refused.
#![tactic(auto)]

mod counter_blocks;
mod page_patches;

pub use counter_blocks::{has_updates, put_counts};
pub use page_patches::{has_changes, put_changes};
