//! The journal's zone: what it does with the item in front of its inbox. Entries are handed in and committed here.
//!
//! Only tested: as part of the core.
#![tactic(auto)]

mod block_ends;
mod dispatch;
mod dropped;
mod entries;
mod refusals;
mod start;

pub use dispatch::act;
pub use start::first;
