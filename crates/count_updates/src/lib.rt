//! The counts of an image's data blocks, from their counters and from updates that the counters don't include yet.
//!
//! All here is over plain lists: the counters and the commit points of their sectors, slab after slab, and one list of
//! updates, which may name an update more than once. What is asked for grows with these lists.
#![tactic(auto)]

mod applied;
mod block_counts;
mod collection;
mod forms;

pub use applied::applied_points;
pub use block_counts::counts_of;
pub use collection::{put_in_order, updates_of_window};
pub use forms::{CountFault, Found};
