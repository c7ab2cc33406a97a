//! A logical zone: what it does with the item in front of its inbox. Requests draw their places here, take the locks of
//! their addresses, and set slots, once the decrement of the block that they replace is reported.
//!
//! Only tested: as part of the core.
#![tactic(auto)]

mod dispatch;
mod pages;
mod reports;
mod requests;
mod slot_changes;
mod start;
mod trees;
mod waiters;

pub use dispatch::act;
pub use start::first;
