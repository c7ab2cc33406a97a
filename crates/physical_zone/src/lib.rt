//! A physical zone: what it does with the item in front of its inbox. Writes claim its data blocks here, or are given tickets, and
//! the counters of its blocks take their updates.
//!
//! Only tested: as part of the core.
#![tactic(auto)]

mod asking;
mod dispatch;
mod requests;
mod start;
mod updates;

pub use dispatch::act;
pub use start::first;
